//! A frame outside a job, by its path.
ghost use Rattle.std.specs.Prelude.{◌≡◌};
ghost use Rattle.paths.specs.Frame.{take_by, next_by, method_frame, frame};

use crate::alternating::alt_next;
use crate::dc::dc_frame;
use crate::measuring::{Measuring, Outcome, Setup};
use crate::method_b::b_next;
use codes::{Codes, Frame, holds_rms_lpf};
use takes::take::Measured;

// The take of the method. None: the result is turned down.
#[tactic(auto, unfolding(crate::specs::Frame::take_by))]
fn take_by(setup: &Setup, codes: Codes, before: &Measuring) -> Option<Measured>
    ensures { result ≡ take_by setup.now codes before.now }
{
    let measured = before.measured();
    if setup.mode.alt {
        setup
            .with
            .take_alt(before.ranges, before.cycle.phase, codes, measured)
    } else {
        setup
            .with
            .take(before.ranges, before.cycle.stat, codes, measured)
    }
}

// After a result was taken, by the method. (It is asked for here anew, after `take_by`: between the two lies what
// both methods share, a result turned down, which one choice for both would write twice.)
#[tactic(auto, unfolding(crate::specs::Frame::next_by))]
fn next_by(setup: &Setup, now: u64, before: Measuring) -> Outcome
    ensures { result ≡ next_by setup.now now before }
{
    if setup.mode.alt {
        alt_next(setup, now, before)
    } else {
        b_next(setup, now, before)
    }
}

// Method B or the alternating method: a dropped result, one turned down, or one taken.
#[tactic(auto, unfolding(crate::specs::Frame::method_frame))]
fn method_frame(setup: &Setup, frame: Frame, before: Measuring) -> Outcome
    ensures { result ≡ method_frame setup.now frame before }
{
    if before.cycle.skip > 0 {
        return before.drops();
    }
    match take_by(setup, frame.codes, &before) {
        Some(measured) => next_by(setup, frame.now, before.with_measured(measured)),
        None => before.ends(),
    }
}

/// DC coupling comes before the method. Both methods need RMS and LPF, or nothing happens.
#[tactic(auto, unfolding(crate::specs::Frame::frame))]
pub fn frame(setup: &Setup, read: Frame, before: Measuring) -> Outcome
    ensures { result ≡ frame setup.now read before }
{
    if setup.mode.dc {
        dc_frame(setup, read, before)
    } else if holds_rms_lpf(read.flags) {
        method_frame(setup, read, before)
    } else {
        before.ends()
    }
}
