//! What the load draws, and its DC and AC parts.
ghost use Rattle.std.specs.Prelude.{◌≡◌};
ghost use Rattle.values.specs.Floors.{both_reached};
ghost use Rattle.values.specs.Methods.{ac_only};
ghost use Rattle.values.specs.Load.{alt_figures, totals_of, noise_of_q, phase_shown, load_figures, split, path_ohms};

use crate::floors::Reached;
use crate::methods::{ac_dc, ac_only, alternating, simultaneous};
use crate::power_vals::Split;
use crate::vals::Basis;
use figures::load::{Figures, load_volts, totals};
use state::{Parts, Ranges};
use tables::constants::{NOISE_I, NOISE_V};
use tables::lookups::{i_lim, v_lim};
use tables::ranges::iu_ir;

// The alternating method: volts, amperes and their product; no power and no phase.
#[tactic(auto, using(numbers::proofs::NoNumber::nan_is), unfolding(crate::specs::Load::alt_figures))]
fn alt_figures(used: Parts) -> Figures
    ensures { result ≡ alt_figures used }
{
    let v = used.v_ac;
    let i = used.amperes();
    Figures {
        p: f32::NAN,
        s: v * i,
        q: f32::NAN,
        pf: f32::NAN,
        v,
        i,
    }
}

#[tactic(auto, unfolding(crate::specs::Load::totals_of))]
fn totals_of(used: Parts, r: f32) -> Figures
    ensures { result ≡ totals_of used r }
{
    totals(used.p_ac, used.v_ac, used.v_dc, used.i_ac, used.i_dc, r)
}

// The reactive power that noise alone would show at v volts and i amperes.
#[tactic(auto, unfolding(crate::specs::Load::noise_of_q))]
fn noise_of_q(ranges: Ranges, v: f32, i: f32) -> f32
    ensures { result ≡ noise_of_q ranges v i }
{
    numbers::hypot(
        NOISE_V * v_lim(ranges.vr) * i,
        v * NOISE_I * i_lim(ranges.ik),
    )
}

impl Basis {
    /// The ohms of the meter's own path in its current range, by that range's unit.
    #[tactic(auto, using(tables::proofs::Held::iu_most), unfolding(crate::specs::Load::path_ohms))]
    pub(crate) fn path_ohms(self) -> f32
        ensures { result ≡ path_ohms self.settings self.ranges.ik }
    {
        self.settings.r_path[usize::from(iu_ir(self.ranges.ik).iu)]
    }

    // What the simultaneous method shows of the phase: nothing in AC coupling with an AC part below its
    // floor; else no reactive power with one below its floor, or where it is below the noise's.
    #[tactic(auto, using(numbers::proofs::NoNumber::nan_is), unfolding(crate::specs::Load::phase_shown, crate::specs::Load::no_phase, crate::specs::Load::no_reactive))]
    fn phase_shown(self, reached: Reached, figures: Figures) -> Figures
        ensures { result ≡ phase_shown (ac_only self.mode) (both_reached reached) self.ranges figures }
    {
        let both = reached.both();
        if ac_only(self.mode) && !both {
            Figures {
                s: f32::NAN,
                q: f32::NAN,
                pf: f32::NAN,
                ..figures
            }
        } else if !both || figures.q < noise_of_q(self.ranges, figures.v, figures.i) {
            Figures { q: 0.0, ..figures }
        } else {
            figures
        }
    }

    /// The figures by each method, with r ohms between meter and load (of no account in the
    /// alternating one).
    #[tactic(auto, unfolding(crate::specs::Load::load_figures))]
    pub(crate) fn load_figures(self, reached: Reached, used: Parts, r: f32) -> Figures
        ensures { result ≡ load_figures self.mode reached self.ranges used r }
    {
        if alternating(self.mode) {
            alt_figures(used)
        } else if simultaneous(self.mode) {
            self.phase_shown(reached, totals_of(used, r))
        } else {
            totals_of(used, r)
        }
    }

    /// The DC and AC parts behind r ohms, in the simultaneous method and AC+DC coupling; else zeros.
    #[tactic(auto, unfolding(crate::specs::Load::split, crate::specs::Load::at_load))]
    pub(crate) fn split(self, used: Parts, r: f32) -> Split
        ensures { result ≡ split self.mode used r }
    {
        if ac_dc(self.mode) {
            Split {
                v_dc: used.v_dc - r * used.i_dc,
                v_ac: load_volts(used.v_ac, used.p_ac, used.i_ac, r),
                i_dc: used.i_dc,
                i_ac: used.i_ac,
                p_dc: used.v_dc * used.i_dc - r * used.i_dc * used.i_dc,
                p_ac: used.p_ac - r * used.i_ac * used.i_ac,
            }
        } else {
            Split::ZERO
        }
    }
}
