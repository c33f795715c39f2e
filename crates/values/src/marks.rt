//! The marks of a reading: what is over its range or its limit, whether there is a frequency, and the
//! hint that another coupling would do better.
ghost use Rattle.std.specs.Prelude.{◌≡◌};
ghost use Rattle.values.specs.Marks.{over_elapsed, over_limit, limits_of, dc_signal, dc_is_better, ac_is_missed, hint, hint_shown, frequency};

use crate::floors::{Floors, Reached};
use crate::methods::{ac_dc, simultaneous};
use crate::power_vals::Limits;
use crate::vals::Basis;
use state::{Quantity, Stamp, elapsed, has_seen};
use tables::constants::{HINT_AC, HINT_NO_AC, R20_PB4};
use tables::lookups::{i_lim, v_lim};

/// The countdown at the continuous current's limit: three cases, and so no `Option`.
#[derive(Clone, Copy, Debug, PartialEq, Eq)]
pub enum Countdown {
    Stopped,
    Left(u16),
    Expired,
}

/// The number by which a host knows it: 0 none, 1 with seconds left, 2 expired.
impl From<Countdown> for u8 {
    ghost use Rattle.values.specs.Marks.{over_number};

    ghost from_gives = { λ count number. number ≡ over_number count };

    #[tactic(auto, unfolding(crate::specs::Marks::over_number))]
    fn from(count: Countdown) -> u8 {
        match count {
            Countdown::Stopped => 0,
            Countdown::Left(_) => 1,
            Countdown::Expired => 2,
        }
    }
}

impl Countdown {
    ghost use Rattle.values.specs.Marks.{over_left};

    #[tactic(auto, unfolding(crate::specs::Marks::over_left))]
    fn left(self) -> u16
        ensures { result ≡ over_left self }
    {
        match self {
            Countdown::Left(seconds) => seconds,
            Countdown::Stopped | Countdown::Expired => 0,
        }
    }
}

/// The coupling that would do better.
#[derive(Clone, Copy, Debug, PartialEq, Eq)]
pub enum Hint {
    NoAc,
    Ac,
}

/// The number by which a host knows a hint. Each enum's numbers are its own, so each has its own `From`.
impl From<Hint> for u8 {
    ghost use Rattle.values.specs.Marks.{hint_number};

    ghost from_gives = { λ hint number. number ≡ hint_number hint };

    #[tactic(auto, unfolding(crate::specs::Marks::hint_number))]
    fn from(hint: Hint) -> u8 {
        match hint {
            Hint::NoAc => HINT_NO_AC,
            Hint::Ac => HINT_AC,
        }
    }
}

/// The number of a hint, 0 where there is none.
#[tactic(auto, unfolding(crate::specs::Marks::hint_shown))]
pub(crate) fn hint_shown(hint: Option<Hint>) -> u8
    ensures { result ≡ hint_shown hint }
{
    hint.map_or(0, u8::from)
}

// The seconds since t0; the low 16 bits count.
#[tactic(auto, unfolding(crate::specs::Marks::over_elapsed))]
fn over_elapsed(t_poll: u64, t0: u64) -> u16
    ensures { result ≡ over_elapsed t_poll t0 }
{
    (elapsed(t_poll, t0) / 1000 % 65536) as u16
}

/// The countdown of t_lim seconds since the stamp t0: none where no stamp is set, or t_lim is 0.
#[tactic(auto, unfolding(crate::specs::Marks::over_limit, crate::specs::Marks::seconds_left))]
pub(crate) fn over_limit(t0: Stamp, t_lim: u16, t_poll: u64) -> Countdown
    ensures { result ≡ over_limit t0 t_lim t_poll }
{
    match Option::<u64>::from(t0) {
        Some(t0) if t_lim > 0 => {
            let el = over_elapsed(t_poll, t0);
            if el < t_lim {
                Countdown::Left(t_lim - el)
            } else {
                Countdown::Expired
            }
        }
        _ => Countdown::Stopped,
    }
}

impl Basis {
    /// Whether voltage and current are above `over` times their range's limit, beside the countdown.
    #[tactic(auto, unfolding(crate::specs::Marks::limits_of))]
    pub(crate) fn limits(self, count: Countdown) -> Limits
        ensures { result ≡ limits_of self.over self.ranges self.parts count }
    {
        Limits {
            v_ol: self.parts.volts() > self.over * v_lim(self.ranges.vr),
            i_ol: self.parts.amperes() > self.over * i_lim(self.ranges.ik),
            over: u8::from(count),
            over_left: count.left(),
        }
    }

    // Whether a DC part reaches the AC floor of its range.
    #[tactic(auto, unfolding(crate::specs::Marks::dc_signal))]
    fn dc_signal(self) -> bool
        ensures { result ≡ dc_signal self.ranges self.parts }
    {
        let floors = Floors::of(self.ranges);
        numbers::abs(self.parts.v_dc) >= floors.v || numbers::abs(self.parts.i_dc) >= floors.i
    }

    // AC+DC coupling in the simultaneous method, with no AC part, and a DC signal.
    #[tactic(auto, unfolding(crate::specs::Marks::dc_is_better))]
    fn dc_is_better(self, reached: Reached) -> bool
        ensures { result ≡ dc_is_better self.mode self.ranges self.parts reached }
    {
        ac_dc(self.mode) && !reached.v_ok && !reached.i_ok && self.dc_signal()
    }

    // DC coupling, with an AC part on the voltage.
    #[tactic(auto, unfolding(crate::specs::Marks::ac_is_missed))]
    fn ac_is_missed(self) -> bool
        ensures { result ≡ ac_is_missed self.mode self.seen self.ranges.vr self.parts.vac_dc }
    {
        self.mode.dc
            && has_seen(self.seen, Quantity::Voltage)
            && self.parts.vac_dc >= Floors::of(self.ranges).v
    }

    /// The coupling that would do better, if one would.
    #[tactic(auto, unfolding(crate::specs::Marks::hint))]
    pub(crate) fn hint(self, reached: Reached) -> Option<Hint>
        ensures { result ≡ hint self.mode self.seen self.ranges self.parts reached }
    {
        if self.dc_is_better(reached) {
            Some(Hint::NoAc)
        } else if self.ac_is_missed() {
            Some(Hint::Ac)
        } else {
            None
        }
    }

    /// Whether a frequency is to be had: not in DC coupling; in the simultaneous method where the
    /// comparator has one and the channel that it watches reaches its floor; in the alternating one yes.
    #[tactic(auto, unfolding(crate::specs::Marks::frequency))]
    pub(crate) fn frequency(self, reached: Reached) -> bool
        ensures { result ≡ frequency self.mode self.comparator reached }
    {
        let watched = if self.comparator.r20 == R20_PB4 {
            reached.i_ok
        } else {
            reached.v_ok
        };
        !self.mode.dc && (!simultaneous(self.mode) || self.comparator.f_ok && watched)
    }
}
