//! `pw_partial` of the source: what is shown in place of a reading.
ghost use Rattle.std.specs.Prelude.{◌≡◌};
ghost use Rattle.readouts.specs.Partial.{volts_so_far, ranging, pw_partial};

use crate::readings::volt_decimals;
use formats::readout::Val;
use formats::units::Unit;
use state::{Pw, Quantity, has_seen};
use tables::constants::{JOB_VCAL, JOB_ZERO};
use values::vals::pw_vals;

/// Nothing while off; a zero or a gain job while one runs; else nothing where there is a reading, and
/// where there is none the current still being ranged, with the volts where they are measured. Four cases, and so no `Option`;
/// no `Eq`, since a `Val` holds a float.
#[derive(Clone, Copy, Debug, PartialEq)]
pub enum Partial {
    Nothing,
    Zeroing,
    Calibrating,
    Ranging(Option<Val>),
}

/// The number of the text: 0 none, 1 zeroing, 2 V calibration, 3 I ranging.
impl From<Partial> for u8 {
    ghost use Rattle.readouts.specs.Partial.{partial_text};

    ghost from_gives = { λ partial text. text ≡ partial_text partial };

    #[tactic(auto, unfolding(crate::specs::Partial::partial_text))]
    fn from(partial: Partial) -> u8 {
        match partial {
            Partial::Nothing => 0,
            Partial::Zeroing => 1,
            Partial::Calibrating => 2,
            Partial::Ranging(_) => 3,
        }
    }
}

// The volts so far, where they are measured and no job runs.
#[tactic(auto, unfolding(crate::specs::Partial::volts_so_far))]
fn volts_so_far(pw: Pw) -> Option<Val>
    ensures { result ≡ volts_so_far pw }
{
    let to_show = has_seen(pw.cycle.seen, Quantity::Voltage) && pw.job.job == 0;
    to_show.then(|| Val::new(pw.parts.volts(), volt_decimals(pw.ranges.vr), Unit::Volt))
}

#[tactic(auto, unfolding(crate::specs::Partial::ranging))]
fn ranging(pw: Pw) -> Partial
    ensures { result ≡ ranging pw }
{
    match pw_vals(pw) {
        Some(_) => Partial::Nothing,
        None => Partial::Ranging(volts_so_far(pw)),
    }
}

/// The source's `pw_partial`: by whether the meter is on, the job, and whether there is a reading.
#[tactic(auto, unfolding(crate::specs::Partial::pw_partial))]
pub fn pw_partial(pw: Pw) -> Partial
    ensures { result ≡ pw_partial pw }
{
    if !pw.mode.on {
        return Partial::Nothing;
    }
    match pw.job.job {
        JOB_ZERO => Partial::Zeroing,
        JOB_VCAL => Partial::Calibrating,
        _ => ranging(pw),
    }
}
