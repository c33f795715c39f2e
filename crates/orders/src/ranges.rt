//! The order `ranges`.
ghost use Rattle.std.specs.Prelude.{◌≡◌};
ghost use Rattle.orders.specs.Ranges.{asked, ranges_asked, barred_asked, keep_of, ranges_set, set_ranges};

use crate::answer::{Step, done};
use crate::apply::{applied, ending_job};
use ranging::apply::Keep;
use state::{Pw, Ranges};

/// What is asked of one channel: nothing, that its range be found by itself, or a range. (The source's
/// `Option<Option<u8>>`, with a name for each of the three.)
#[derive(Clone, Copy, Debug, PartialEq, Eq)]
pub enum Ask {
    Stay,
    Auto,
    Fixed(u8),
}

// The range of one channel, and whether it is found by itself.
#[derive(Clone, Copy)]
struct OneRange {
    range: u8,
    auto: bool,
}

// One channel with what is asked of it; `most` is its highest range.
#[tactic(auto, unfolding(crate::specs::Ranges::asked))]
fn asked(ask: Ask, most: u8, before: OneRange) -> OneRange
    ensures { result ≡ asked ask most before }
{
    match ask {
        Ask::Stay => before,
        Ask::Auto => OneRange {
            auto: true,
            range: before.range,
        },
        Ask::Fixed(range) => OneRange {
            auto: false,
            range: range.min(most),
        },
    }
}

// The ranges with what is asked of the voltage and of the current.
#[tactic(auto, unfolding(crate::specs::Ranges::ranges_asked))]
fn ranges_asked(v: Ask, i: Ask, before: Ranges) -> Ranges
    ensures { result ≡ ranges_asked v i before }
{
    let voltage = OneRange {
        range: before.vr,
        auto: before.v_auto,
    };
    let current = OneRange {
        range: before.ik,
        auto: before.i_auto,
    };
    let voltage = asked(v, 3, voltage);
    let current = asked(i, 5, current);
    Ranges {
        vr: voltage.range,
        ik: current.range,
        v_auto: voltage.auto,
        i_auto: current.auto,
    }
}

// What is barred: nothing any longer where the current is named. (The 0 says that nothing is barred, as the state keeps
// that; it is not a number for what was asked.)
#[tactic(auto, unfolding(crate::specs::Ranges::barred_asked))]
fn barred_asked(i: Ask, before: u8) -> u8
    ensures { result ≡ barred_asked i before }
{
    match i {
        Ask::Stay => before,
        _ => 0,
    }
}

// The channel that is kept: the voltage where its range is the same, else the current where its is, else
// none.
#[tactic(auto, unfolding(crate::specs::Ranges::keep_of))]
fn keep_of(found: Ranges, ranges: Ranges) -> Keep
    ensures { result ≡ keep_of found ranges }
{
    if ranges.vr == found.vr {
        Keep::Voltage
    } else if ranges.ik == found.ik {
        Keep::Current
    } else {
        Keep::Nothing
    }
}

// Applied while on, where a range has changed.
#[tactic(auto, unfolding(crate::specs::Ranges::ranges_set))]
fn ranges_set(before: Pw, time: u64, v: Ask, i: Ask) -> Step
    ensures { result ≡ ranges_set before time v i }
{
    let found = before.ranges;
    let mut after = before;
    after.ranges = ranges_asked(v, i, found);
    after.barred = barred_asked(i, before.barred);
    if before.mode.on && (after.ranges.vr, after.ranges.ik) != (found.vr, found.ik) {
        return applied(keep_of(found, after.ranges), after, time);
    }
    done(after)
}

/// What is asked of each range: a running job ends first, also where nothing is asked.
#[tactic(auto, unfolding(crate::specs::Ranges::set_ranges))]
pub fn set_ranges(before: Pw, time: u64, v: Ask, i: Ask) -> Step
    ensures { result ≡ set_ranges before time v i }
{
    ending_job(before, time, |meter| ranges_set(meter, time, v, i))
}
