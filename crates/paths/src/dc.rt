//! A frame in DC coupling (the source's `pw_poll_dc`): the voltage of RMS and LPF, then the current of
//! AD1. Document 01 takes AD1 from the same frame.
ghost use Rattle.std.specs.Prelude.{◌≡◌};
ghost use Rattle.paths.specs.Dc.{dc_v_result, dc_v_part, dc_i_result, dc_i_part, dc_frame};

use crate::measuring::{Measuring, Outcome, Setup};
use codes::{Frame, holds_ad1, holds_rms_lpf};
use ranging::autorange::Channel;

// `dc_v_result` and `dc_i_result` stay two: the take, the channel and what follows differ, and one function for both
// would take all three as parameters.

// A voltage is taken; where its range changes, the frame ends there.
#[tactic(auto, unfolding(crate::specs::Dc::dc_v_result))]
fn dc_v_result(setup: &Setup, frame: Frame, before: Measuring) -> Outcome
    ensures { result ≡ dc_v_result setup.now frame before }
{
    let taken = setup
        .with
        .dc_v_taken(before.ranges.vr, frame.codes, before.measured());
    let after = before.with_measured(taken);
    match after.autorange(setup, Channel::Voltage, frame.now) {
        Some(ranged) => after.ranged_to(ranged),
        None => after.ends(),
    }
}

// The voltage's part of the frame: a dropped result or one taken.
#[tactic(auto, unfolding(crate::specs::Dc::dc_v_part))]
fn dc_v_part(setup: &Setup, frame: Frame, before: Measuring) -> Outcome
    ensures { result ≡ dc_v_part setup.now frame before }
{
    if before.cycle.skip_y > 0 {
        let mut dropped = before;
        dropped.cycle.skip_y = before.cycle.skip_y - 1;
        return dropped.ends();
    }
    dc_v_result(setup, frame, before)
}

// A current is taken; then its autorange.
#[tactic(auto, unfolding(crate::specs::Dc::dc_i_result))]
fn dc_i_result(setup: &Setup, frame: Frame, before: Measuring) -> Outcome
    ensures { result ≡ dc_i_result setup.now frame before }
{
    let taken = setup
        .with
        .dc_i_taken(before.ranges.ik, frame.codes, before.measured());
    let after = before.with_measured(taken);
    match after.autorange(setup, Channel::Current, frame.now) {
        Some(ranged) => after.ranged_to(ranged),
        None => after.goes_on(),
    }
}

// The current's part of the frame: the ring does not note a dropped result.
#[tactic(auto, unfolding(crate::specs::Dc::dc_i_part))]
fn dc_i_part(setup: &Setup, frame: Frame, before: Measuring) -> Outcome
    ensures { result ≡ dc_i_part setup.now frame before }
{
    if !holds_ad1(frame.flags) {
        return before.ends();
    }
    if before.cycle.skip > 0 {
        return before.drops();
    }
    Outcome {
        ad1_taken: true,
        ..dc_i_result(setup, frame, before)
    }
}

/// The voltage where RMS and LPF are ready, and then, unless the V range changed, the current.
#[tactic(auto, unfolding(crate::specs::Dc::dc_frame))]
pub(crate) fn dc_frame(setup: &Setup, frame: Frame, before: Measuring) -> Outcome
    ensures { result ≡ dc_frame setup.now frame before }
{
    if !holds_rms_lpf(frame.flags) {
        return dc_i_part(setup, frame, before);
    }
    let v = dc_v_part(setup, frame, before);
    if v.mark.is_some() {
        return v;
    }
    dc_i_part(setup, frame, v.measuring)
}
