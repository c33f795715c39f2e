//! The leaf functions of module 4, on a whole meter. A frame's flags, codes and time go one by one, and not as a `Frame`,
//! since C is handed plain numbers.
ghost use Rattle.std.specs.Prelude.{◌≡◌};
ghost use Rattle.state.specs.Fresh.{new_pw};
ghost use Rattle.paths.specs.Frame.{frame};
ghost use Rattle.paths.specs.Whole.{setup_in, measuring_in};
ghost use Rattle.ranging.specs.Apply.{apply};
ghost use Rattle.leaves.specs.Host.{keep_of, frame_at, measured_pw, applied_pw};

use codes::{Codes, Frame};
use paths::measuring::{Measuring, Setup};
use ranging::apply::Keep;
use state::{Pw, Stamp};
use tables::calibration::Calibration;
use tables::description::Description;

/// `struct leaf_outcome`
#[derive(Clone, Copy)]
#[repr(C)]
pub struct MeasuredPw {
    pub pw: Pw,
    pub mark: Stamp,
    pub to_values: bool,
}

#[unsafe(no_mangle)]
pub extern "C" fn leaf_pw_new(d: Description, c: Calibration) -> Pw
    ensures { result ≡ new_pw d c }
{
    Pw::new(d, c)
}

#[unsafe(no_mangle)]
pub extern "C" fn leaf_frame(
    pw: Pw,
    now: u64,
    flags: u8,
    ad1: i32,
    lpf: i32,
    rms: i64,
) -> MeasuredPw
    ensures { result ≡ measured_pw pw (frame_at now flags ad1 lpf rms) (frame (setup_in pw) (frame_at now flags ad1 lpf rms) (measuring_in pw)) }
{
    let frame = Frame {
        flags,
        codes: Codes { ad1, lpf, rms },
        now,
    };
    let setup = Setup::from(pw);
    let before = Measuring::from(pw);
    let outcome = paths::frame::frame(&setup, frame, before);
    let ring = paths::ring::ring_after(pw.ring, pw.mode, pw.cycle, frame, outcome.ad1_taken);
    MeasuredPw {
        pw: paths::whole::with_measuring(pw, outcome.measuring, ring),
        mark: Stamp::from(outcome.mark),
        to_values: outcome.to_values,
    }
}

// The source's `keep` by its number, as C hands it; a function and no `From`, for the comparison alone: in `ranging`
// nothing knows `keep` by a number.
#[tactic(auto, unfolding(crate::specs::Host::keep_of))]
fn keep_of(keep: u8) -> Keep
    ensures { result ≡ keep_of keep }
{
    match keep {
        2 => Keep::Voltage,
        4 => Keep::Current,
        _ => Keep::Nothing,
    }
}

#[unsafe(no_mangle)]
pub extern "C" fn leaf_apply(pw: Pw, keep: u8, now: u64) -> MeasuredPw
    ensures { result ≡ applied_pw pw (apply (keep_of keep) pw.mode pw.ranges.vr pw.cycle pw.comparator now) }
{
    let kept = keep_of(keep);
    let applied = ranging::apply::apply(kept, pw.mode, pw.ranges.vr, pw.cycle, pw.comparator, now);
    MeasuredPw {
        pw: Pw {
            cycle: applied.cycle,
            comparator: applied.comparator,
            ..pw
        },
        mark: Stamp::at_time(applied.deadline),
        to_values: false,
    }
}
