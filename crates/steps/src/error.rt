//! How a job ends other than well.
ghost use Rattle.std.specs.Prelude.{◌≡◌};
ghost use Rattle.steps.specs.Error.{error_number, result_number};

use tables::constants::{JR_ABORT, JR_BIG, JR_OK, JR_RANGE, JR_SIGNAL, JR_SMALL, JR_UNSTABLE};

/// Why a job has ended with nothing stored: the error of a `Result`.
#[derive(Clone, Copy, Debug, PartialEq, Eq)]
pub enum JobError {
    /// a signal where a zero is measured
    Signal,
    /// the part of the voltage that counts is too small for its range
    Small,
    /// it, or the peak, is too large
    Big,
    /// the two rounds differ, or the half sum is not finite
    Unstable,
    /// the gain does not lie from 0.9 to 1.1
    Range,
    /// an order has ended the job
    Abort,
}

/// The number of each, as `job_res` holds it, by the source's named constants.
impl From<JobError> for u8 {
    ghost from_gives = { λ error number. number ≡ error_number error };

    fn from(error: JobError) -> u8 {
        match error {
            JobError::Signal => JR_SIGNAL,
            JobError::Small => JR_SMALL,
            JobError::Big => JR_BIG,
            JobError::Unstable => JR_UNSTABLE,
            JobError::Range => JR_RANGE,
            JobError::Abort => JR_ABORT,
        }
    }
}

/// The number of a job's end, as `job_res` holds it. (A function, since neither `Result` nor `u8` is of this crate.
/// Not one function with `told_number` of refusals and `cal_number` of phase: each gives numbers of its own, this one
/// the source's `JR_` ones.)
pub fn result_number(end: Result<(), JobError>) -> u8
    ensures { result ≡ result_number end }
{
    match end {
        Ok(()) => JR_OK,
        Err(error) => u8::from(error),
    }
}
