//! Which range the meter asks for, by the volts or amperes that it measures.
ghost use Rattle.std.specs.Prelude.{◌≡◌};
ghost use Rattle.ranging.specs.Change.{step, v_change, overload_trips, is_over, trips, barred_after, shunt_floor, least_ik, i_change};

use crate::autorange::Ranging;
use state::{Parts, Ranges};
use tables::description::Description;
use tables::lookups::{i_lim, v_lim};
use tables::ranges::iu_ir;

// One range up where m is above the range's limit by the over ratio, one down where it is below a
// tenth of the limit by that ratio; up only from below `most`, down only from above `least`.
#[tactic(auto, unfolding(crate::specs::Change::step))]
fn step(over: f32, limit: f32, m: f32, k: u8, least: u8, most: u8) -> Option<u8>
    ensures { result ≡ step over limit m k least most }
{
    if m > over * limit && k < most {
        Some(k + 1)
    } else if m < 0.1 * limit / over && k > least {
        Some(k - 1)
    } else {
        None
    }
}

// sentinel.rs's rule: over range on the mA or uA shunt trips, on its lower range only if that was set
// by hand. Document 01 keeps it whole, so with the unit by its number and the range set by hand as a mark.
#[tactic(auto, unfolding(crate::specs::Change::overload_trips))]
fn overload_trips(unit: u8, range: u8, manual: bool, over: bool) -> bool
    ensures { result ≡ overload_trips unit range manual over }
{
    (1..=2).contains(&unit) && over && (manual || range >= 1)
}

// Whether the current is above its range's limit by the over ratio.
#[tactic(auto, unfolding(crate::specs::Change::is_over))]
fn is_over(over: f32, ik: u8, parts: Parts) -> bool
    ensures { result ≡ is_over over ik parts }
{
    parts.amperes() > over * i_lim(ik)
}

/// The unit barred after a trip on current range ik: that range's, or the one barred before where that
/// is coarser.
#[tactic(auto, unfolding(crate::specs::Change::barred_after))]
pub(crate) fn barred_after(barred: u8, ik: u8) -> u8
    ensures { result ≡ barred_after barred ik }
{
    let u = iu_ir(ik);
    if barred == 0 { u.iu } else { barred.min(u.iu) }
}

// The least current range that is not barred.
#[tactic(auto, unfolding(crate::specs::Change::shunt_floor))]
fn shunt_floor(barred: u8) -> u8
    ensures { result ≡ shunt_floor barred }
{
    if barred == 0 {
        0
    } else {
        2 * (3 - barred.min(3))
    }
}

// The least current range that the meter steps to by itself: none of the uA shunt with `a_auto`, none
// that is barred.
#[tactic(auto, unfolding(crate::specs::Change::least_ik))]
fn least_ik(a_auto: bool, barred: u8) -> u8
    ensures { result ≡ least_ik a_auto barred }
{
    let floor = shunt_floor(barred);
    if a_auto { floor.max(2) } else { floor }
}

impl Ranging {
    /// The V channel's, after a V result.
    #[tactic(auto, unfolding(crate::specs::Change::v_change))]
    pub(crate) fn v_change(self, description: Description, parts: Parts) -> Option<u8>
        ensures { result ≡ v_change description self.ranges parts }
    {
        let Ranges { vr, v_auto, .. } = self.ranges;
        if !v_auto {
            return None;
        }
        let m = parts.volts();
        step(description.over, v_lim(vr), m, vr, 0, 3)
    }

    /// Whether a current range that was set by hand trips.
    #[tactic(auto, unfolding(crate::specs::Change::trips))]
    pub(crate) fn trips(self, description: Description, parts: Parts) -> bool
        ensures { result ≡ trips description self.ranges parts }
    {
        let Ranges { ik, i_auto, .. } = self.ranges;
        if i_auto {
            return false;
        }
        let u = iu_ir(ik);
        let over = is_over(description.over, ik, parts);
        overload_trips(u.iu, u.ir, true, over)
    }

    /// The current channel's, after a current result: from the mA and uA shunts up in one hop to the A
    /// shunt.
    #[tactic(auto, unfolding(crate::specs::Change::i_change))]
    pub(crate) fn i_change(self, description: Description, parts: Parts) -> Option<u8>
        ensures { result ≡ i_change description self.ranges self.barred parts }
    {
        let Ranges { ik, i_auto, .. } = self.ranges;
        if !i_auto {
            return None;
        }
        if is_over(description.over, ik, parts) && iu_ir(ik).iu >= 1 {
            return Some(4);
        }
        let m = parts.amperes();
        let least = least_ik(description.a_auto, self.barred);
        step(description.over, i_lim(ik), m, ik, least, 5)
    }
}
