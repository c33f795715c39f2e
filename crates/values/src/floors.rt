//! The AC floors: an AC part below its floor is noise, and no reading.
ghost use Rattle.std.specs.Prelude.{◌≡◌};
ghost use Rattle.values.specs.Floors.{floor_of_v, floor_of_i, floors_reached, both_reached, kept_if, floored, used_parts};

use crate::methods::{ac_only, simultaneous};
use crate::vals::Basis;
use state::{Parts, Ranges};
use tables::constants::FLOOR_I;
use tables::decided::FLOOR_V;
use tables::lookups::{i_lim, v_lim};

/// Whether the AC volts, and the AC amperes, reach their floors.
#[derive(Clone, Copy)]
pub struct Reached {
    pub v_ok: bool,
    pub i_ok: bool,
}

/// The floors of the AC volts and of the AC amperes in their ranges.
#[derive(Clone, Copy)]
pub(crate) struct Floors {
    pub v: f32,
    pub i: f32,
}

impl Floors {
    #[tactic(auto, unfolding(crate::specs::Floors::floor_of_v, crate::specs::Floors::floor_of_i))]
    pub(crate) fn of(ranges: Ranges) -> Floors
        ensures volts { result.v ≡ floor_of_v ranges.vr }
        ensures amperes { result.i ≡ floor_of_i ranges.ik }
    {
        Floors {
            v: FLOOR_V * v_lim(ranges.vr),
            i: FLOOR_I * i_lim(ranges.ik),
        }
    }
}

/// x where `ok`, else 0.0: an `if` that five values write alike.
pub(crate) fn kept_if(ok: bool, x: f32) -> f32
    ensures { result ≡ kept_if ok x }
{
    if ok { x } else { 0.0 }
}

impl Reached {
    /// Whether both do.
    #[tactic(auto, unfolding(crate::specs::Floors::both_reached))]
    pub(crate) fn both(self) -> bool
        ensures { result ≡ both_reached self }
    {
        self.v_ok && self.i_ok
    }

    // The parts with 0.0 for an AC part below its floor, and for the AC power where either is.
    #[tactic(auto, unfolding(crate::specs::Floors::floored))]
    fn floored(self, parts: Parts) -> Parts
        ensures { result ≡ floored self parts }
    {
        Parts {
            p_ac: kept_if(self.both(), parts.p_ac),
            v_ac: kept_if(self.v_ok, parts.v_ac),
            i_ac: kept_if(self.i_ok, parts.i_ac),
            ..parts
        }
    }
}

impl Basis {
    /// Which AC parts reach the floors of their ranges.
    #[tactic(auto, unfolding(crate::specs::Floors::floors_reached))]
    pub(crate) fn reached(self) -> Reached
        ensures { result ≡ floors_reached self.ranges self.parts }
    {
        let floors = Floors::of(self.ranges);
        Reached {
            v_ok: self.parts.v_ac >= floors.v,
            i_ok: self.parts.i_ac >= floors.i,
        }
    }

    /// The parts that count: in the simultaneous method AC parts that reach their floors, in AC
    /// coupling none of the DC parts.
    #[tactic(auto, unfolding(crate::specs::Floors::used_parts, crate::specs::Floors::by_coupling))]
    pub(crate) fn used_parts(self, reached: Reached) -> Parts
        ensures { result ≡ used_parts self.mode reached self.parts }
    {
        let parts = if simultaneous(self.mode) {
            reached.floored(self.parts)
        } else {
            self.parts
        };
        if ac_only(self.mode) {
            Parts {
                v_dc: 0.0,
                i_dc: 0.0,
                ..parts
            }
        } else {
            parts
        }
    }
}
