//! Module 5 of document 01, the phase calibration: two rounds of eight power results each, one at the
//! phase step in force and one at a trial step 48 away. By a straight line through their two means, the
//! step at which the load would show no active power is the new one. Every function is total: a record
//! may hold any numbers.
#![tactic(auto)]

ghost use Rattle.std.specs.Prelude.{◌≡◌};
ghost use Rattle.phase.specs.Phase.{error_number, cal_outcome, cal_number, cal_started, cal_off, trial_steps, slope_of, null_of, not_reactive, on_trial, finished, round_mean, round_ended, cal_accounted};

use state::PhaseCal;
use tables::bounds::within;
use tables::constants::{CAL_FLAT, CAL_NOT_REACTIVE, CAL_OK, CAL_PF_MAX, CAL_RANGE, CAL_RUN};

/// Why a calibration has found no phase step: the error of a `Result`.
#[derive(Clone, Copy, Debug, PartialEq, Eq)]
pub enum CalError {
    /// there is no finite null, as where the two means hardly differ
    Flat,
    /// the first round has too much active power
    NotReactive,
    /// the null lies beyond 127.49 steps to either side
    Range,
}

/// The number of each, as `cal_res` holds it.
impl From<CalError> for u8 {
    ghost from_gives = { λ error number. number ≡ error_number error };

    fn from(error: CalError) -> u8 {
        match error {
            CalError::Flat => CAL_FLAT,
            CalError::NotReactive => CAL_NOT_REACTIVE,
            CalError::Range => CAL_RANGE,
        }
    }
}

/// What the accounting step leaves of the phase calibration, and whether the host is to re-apply.
#[derive(Clone, Copy)]
#[repr(C)]
pub struct PhaseStep {
    pub phase_cal: PhaseCal,
    pub cal_req: bool,
}

// ---- the outcome

/// The outcome of a null at `s` steps: the phase step found, which is it rounded half away from zero.
#[tactic(auto, unfolding(crate::specs::Phase::cal_outcome))]
pub fn cal_outcome(s: f32) -> Result<i8, CalError>
    ensures { result ≡ cal_outcome s }
{
    if !numbers::is_finite(s) {
        return Err(CalError::Flat);
    }
    if !within(-127.49, 127.49, s) {
        return Err(CalError::Range);
    }
    Ok(numbers::f32_to_i8(numbers::half_away(s)))
}

/// An outcome's number, as `cal_res` holds it: one of the source's `CAL_` numbers. (A job's end and a refusal have numbers of
/// their own, by `result_number` and `told_number`. A function, since neither `Result` nor `u8` is of this crate.)
pub fn cal_number(outcome: Result<i8, CalError>) -> u8
    ensures { result ≡ cal_number outcome }
{
    match outcome {
        Ok(_) => CAL_OK,
        Err(error) => u8::from(error),
    }
}

// ---- start and stop

/// A calibration started: round 1, nothing counted yet, at the phase step in force.
#[tactic(auto, unfolding(crate::specs::Phase::cal_started))]
pub fn cal_start(before: PhaseCal) -> PhaseCal
    ensures { result ≡ cal_started before }
{
    PhaseCal {
        cal: 1,
        cal_n: 0,
        cal_acc: 0.0,
        cal_s0: before.sph,
        cal_res: CAL_RUN,
        ..before
    }
}

/// A calibration stopped by a job. The phase step stays, be it the trial step, and so does the result, be
/// it CAL_RUN.
#[tactic(auto, unfolding(crate::specs::Phase::cal_off))]
pub fn cal_off(before: PhaseCal) -> PhaseCal
    ensures { result ≡ cal_off before }
{
    PhaseCal { cal: 0, ..before }
}

// ---- a round's end

// Functions that are handed `before`, four of them with the mean `m` beside it, and no methods: `PhaseCal` is a struct of
// the crate `state`, and a crate can write methods for its own types alone.

// The trial step: 48 up, or 48 down where that would leave 8 bits. (The source adds in 16 bits and
// cuts to 8; nothing is ever cut.)
#[tactic(auto, unfolding(crate::specs::Phase::trial_steps))]
fn trial_steps(s0: i8) -> i8
    ensures { result ≡ trial_steps s0 }
{
    if s0 > 79 { s0 - 48 } else { s0 + 48 }
}

// The change of the mean with each step, from that of round 1 to `m`, that of round 2.
#[tactic(auto, unfolding(crate::specs::Phase::slope_of))]
fn slope_of(before: PhaseCal, m: f32) -> f32
    ensures { result ≡ slope_of before m }
{
    let d = f32::from(before.sph) - f32::from(before.cal_s0);
    (m - before.cal_pa) / d
}

// The null: the steps at which the mean would be zero; a NaN where it hardly changes.
#[tactic(auto, using(numbers::proofs::NoNumber::nan_is), unfolding(crate::specs::Phase::null_of))]
fn null_of(before: PhaseCal, m: f32) -> f32
    ensures { result ≡ null_of before m }
{
    let slope = slope_of(before, m);
    if numbers::abs(slope) > 1e-7 {
        f32::from(before.cal_s0) - before.cal_pa / slope
    } else {
        f32::NAN
    }
}

// Round 1 with too much active power: the calibration ends, and the phase step stays.
#[tactic(auto, unfolding(crate::specs::Phase::not_reactive))]
fn not_reactive(before: PhaseCal) -> PhaseCal
    ensures { result ≡ not_reactive before }
{
    PhaseCal {
        cal: 0,
        cal_n: 0,
        cal_acc: 0.0,
        cal_res: u8::from(CalError::NotReactive),
        ..before
    }
}

// Round 1 with the mean `m`: on to round 2, at the trial step.
#[tactic(auto, unfolding(crate::specs::Phase::on_trial))]
fn on_trial(before: PhaseCal, m: f32) -> PhaseCal
    ensures { result ≡ on_trial before m }
{
    PhaseCal {
        sph: trial_steps(before.cal_s0),
        cal: 2,
        cal_n: 0,
        cal_acc: 0.0,
        cal_pa: m,
        ..before
    }
}

// Round 2 with the mean `m`: the calibration ends, with the outcome of its null; without one the phase
// step is again the one before the calibration.
#[tactic(auto, unfolding(crate::specs::Phase::finished))]
fn finished(before: PhaseCal, m: f32) -> PhaseCal
    ensures { result ≡ finished before m }
{
    let outcome = cal_outcome(null_of(before, m));
    PhaseCal {
        sph: outcome.unwrap_or(before.cal_s0),
        cal: 0,
        cal_n: 0,
        cal_acc: 0.0,
        cal_res: cal_number(outcome),
        ..before
    }
}

// The mean of a round.
#[tactic(auto, unfolding(crate::specs::Phase::round_mean))]
fn round_mean(before: PhaseCal) -> f32
    ensures { result ≡ round_mean before }
{
    before.cal_acc / f32::from(before.cal_n)
}

// The end of a round: of round 1 by its mean, of any other as of round 2. The host is to re-apply in
// every case but that of a load that is not reactive.
#[tactic(auto, unfolding(crate::specs::Phase::round_ended, crate::specs::Phase::too_active))]
fn round_ended(before: PhaseCal, cal_req: bool) -> PhaseStep
    ensures { result ≡ round_ended before cal_req }
{
    let m = round_mean(before);
    if before.cal == 1 && numbers::abs(m) > CAL_PF_MAX {
        return PhaseStep {
            phase_cal: not_reactive(before),
            cal_req,
        };
    }
    let phase_cal = if before.cal == 1 {
        on_trial(before, m)
    } else {
        finished(before, m)
    };
    PhaseStep {
        phase_cal,
        cal_req: true,
    }
}

/// The accounting step's part: while a calibration runs, a round ends with eight results counted.
#[tactic(auto, unfolding(crate::specs::Phase::cal_accounted, crate::specs::Phase::round_full))]
pub fn cal_account(before: PhaseCal, cal_req: bool) -> PhaseStep
    ensures { result ≡ cal_accounted before cal_req }
{
    if before.cal != 0 && before.cal_n >= 8 {
        return round_ended(before, cal_req);
    }
    PhaseStep {
        phase_cal: before,
        cal_req,
    }
}
