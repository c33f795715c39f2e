//! Method B after a result was taken (the source's `poll_power` where `alt` is false).
ghost use Rattle.std.specs.Prelude.{◌≡◌};
ghost use Rattle.paths.specs.MethodB.{b_unranged, b_next};

use crate::comparator::cmp_select;
use crate::measuring::{Measuring, Outcome, Setup};
use ranging::autorange::Channel;
use ranging::cycle::advance;
use tables::constants::{R34_XY, R34_YY};
use takes::scales::Instrument;

// No range changed: the comparator's choice, and the next phase.
#[tactic(auto, unfolding(crate::specs::MethodB::b_unranged))]
fn b_unranged(with: &Instrument, before: Measuring) -> Outcome
    ensures { result ≡ b_unranged with.now before }
{
    Measuring {
        comparator: cmp_select(with, &before),
        cycle: advance(before.cycle),
        ..before
    }
    .goes_on()
}

/// Only XX and YY may change a range or the comparator.
#[tactic(auto, unfolding(crate::specs::MethodB::b_next))]
pub(crate) fn b_next(setup: &Setup, now: u64, before: Measuring) -> Outcome
    ensures { result ≡ b_next setup.now now before }
{
    let channel = match before.cycle.stat {
        R34_XY => {
            let cycle = advance(before.cycle);
            return Measuring { cycle, ..before }.goes_on();
        }
        R34_YY => Channel::Voltage,
        _ => Channel::Current,
    };
    match before.autorange(setup, channel, now) {
        Some(ranged) => before.ranged_to(ranged),
        None => b_unranged(&setup.with, before),
    }
}
