//! What the meter says back to a call: document 01's table of nine words, each with its number. The
//! first, done, is the number of an `Ok`; the others are refusals.
#![tactic(auto)]

ghost use Rattle.std.specs.Prelude.{◌≡◌};
ghost use Rattle.refusals.specs.Number.{told_number};

/// Why a call is refused.
#[derive(Clone, Copy, Debug, PartialEq, Eq)]
pub enum Refusal {
    /// frame, job start or phase start while not on
    Off = 1,
    /// job start or re-apply while a job runs
    Busy = 2,
    /// job start in the alternating method; phase start there or with `dc`
    Method = 3,
    /// frame not 14 bytes
    Frame = 4,
    /// time of 2^48 ms or more
    Late = 5,
    /// the accounting step would give a millijoule count or a counted time outside signed 64 bits, or
    /// a sum that is not finite or outside -2^63 <= sum < 2^63
    Full = 6,
    /// one of the description's six numbers is NaN or outside 2^-20 to 2^20, ends allowed
    Description = 7,
    /// calibration words not 73
    Words = 8,
}

/// The number by which document 01 names the refusal.
impl From<Refusal> for u8 {
    ghost use Rattle.refusals.specs.Number.{refusal_number};

    ghost from_gives = { λ refusal number. number ≡ refusal_number refusal };

    fn from(refusal: Refusal) -> u8 {
        refusal as u8
    }
}

/// The number of what the meter says back: 0, done, or the refusal's.
// A function and no `From`, since neither `Result` nor `u8` is a type of this crate. `result_number` of
// steps and `cal_number` of phase are not it: the source numbers the end of a job and of a phase
// calibration by two tables of its own, where 0 is none yet, 2 is well ended, and 4 no refused frame.
pub fn told_number<T>(answer: &Result<T, Refusal>) -> u8
    ensures { result ≡ told_number answer.now }
{
    match answer {
        Ok(_) => 0,
        Err(refusal) => u8::from(*refusal),
    }
}
