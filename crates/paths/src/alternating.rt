//! The alternating method after a result was taken (the source's `poll_power` where `alt` is true).
ghost use Rattle.std.specs.Prelude.{◌≡◌};
ghost use Rattle.paths.specs.Alternating.{switched, alt_phase_done, alt_next};

use crate::measuring::{Measuring, Outcome, Setup};
use ranging::autorange::Channel;
use ranging::cycle::alt_switch;
use state::count_up;
use tables::constants::ALT_N;

// No range changed: the other row comes, with a mark, and the frame goes on to the values all the same.
#[tactic(auto, unfolding(crate::specs::Alternating::switched))]
fn switched(now: u64, before: Measuring) -> Outcome
    ensures { result ≡ switched now before }
{
    let next = alt_switch(before.cycle, now);
    Outcome {
        measuring: Measuring {
            cycle: next.cycle,
            ..before
        },
        mark: Some(next.deadline),
        to_values: true,
        ad1_taken: false,
    }
}

// The phase has its results: a range changes, or the other row comes.
#[tactic(auto, unfolding(crate::specs::Alternating::alt_phase_done))]
fn alt_phase_done(setup: &Setup, now: u64, before: Measuring) -> Outcome
    ensures { result ≡ alt_phase_done setup.now now before }
{
    let channel = if before.cycle.phase % 2 == 0 {
        Channel::Voltage
    } else {
        Channel::Current
    };
    match before.autorange(setup, channel, now) {
        Some(ranged) => before.ranged_to(ranged),
        None => switched(now, before),
    }
}

/// One result more in the phase.
#[tactic(auto, unfolding(crate::specs::Alternating::alt_next))]
pub(crate) fn alt_next(setup: &Setup, now: u64, before: Measuring) -> Outcome
    ensures { result ≡ alt_next setup.now now before }
{
    let mut after = before;
    after.cycle.taken = count_up(before.cycle.taken);
    if after.cycle.taken < ALT_N {
        after.goes_on()
    } else {
        alt_phase_done(setup, now, after)
    }
}
