//! The orders that start something: zero job, gain job, phase start; energy reset, run and settings.
ghost use Rattle.std.specs.Prelude.{◌≡◌};
ghost use Rattle.steps.specs.declared.place.Kind.TheVariants.{Zero, Gain};
ghost use Rattle.orders.specs.Answer.{told};
ghost use Rattle.orders.specs.Starts.{start_tried, start_job, phase_start, energy_reset, set_run, set_settings};

use crate::answer::{Step, done, in_time, marked, refused_with, told};
use figures::tally::Tally;
use jobs::whole::{job_start, job_turned_away};
use phase::cal_start;
use refusals::Refusal;
use state::{Mode, Pw, Settings, Stamp};
use steps::place::Kind;

// Whether a job may start; or its refusal. `job` is the running one's number, 0 where none runs.
#[tactic(auto, unfolding(crate::specs::Starts::start_tried))]
fn try_start(mode: Mode, job: u8, time: u64) -> Result<(), Refusal>
    ensures { result ≡ start_tried mode job time }
{
    in_time(time)?;
    if !mode.on {
        return Err(Refusal::Off);
    }
    if job != 0 {
        return Err(Refusal::Busy);
    }
    if mode.alt {
        return Err(Refusal::Method);
    }
    Ok(())
}

// Refused in the alternating method, the meter notes that; otherwise refused it is as it was.
#[tactic(auto, unfolding(crate::specs::Starts::start_tried, crate::specs::Starts::start_job))]
fn start_job(before: Pw, time: u64, kind: Kind) -> Step
    ensures { result ≡ start_job before time kind }
{
    match try_start(before.mode, before.job.job, time) {
        Ok(()) => {
            let started = job_start(before, kind, time);
            marked(started.pw, started.mark)
        }
        Err(Refusal::Method) => refused_with(Refusal::Method, job_turned_away(before, kind)),
        Err(refusal) => refused_with(refusal, before),
    }
}

/// The job that finds the zeros.
pub fn zero_job(before: Pw, time: u64) -> Step
    ensures { result ≡ start_job before time Zero }
{
    start_job(before, time, Kind::Zero)
}

/// The job that finds the gain of the V range in force.
pub fn gain_job(before: Pw, time: u64) -> Step
    ensures { result ≡ start_job before time Gain }
{
    start_job(before, time, Kind::Gain)
}

// The start of a phase calibration, or its refusal.
#[tactic(auto, unfolding(crate::specs::Starts::phase_start))]
fn try_phase(before: Pw) -> Result<Step, Refusal>
    ensures { told result before ≡ phase_start before }
{
    if !before.mode.on {
        return Err(Refusal::Off);
    }
    if before.mode.alt || before.mode.dc {
        return Err(Refusal::Method);
    }
    let mut after = before;
    after.phase_cal = cal_start(before.phase_cal);
    Ok(done(after))
}

/// The start of a phase calibration, in a job too.
pub fn phase_start(before: Pw) -> Step
    ensures { result ≡ phase_start before }
{
    told(try_phase(before), before)
}

/// Energies and counted time begin anew, and the next interval with the next accounted frame.
#[tactic(auto, unfolding(crate::specs::Starts::energy_reset))]
pub fn energy_reset(before: Pw) -> Step
    ensures { result ≡ energy_reset before }
{
    let mut after = before;
    after.tally = Tally::ZERO;
    after.clock.t_last = Stamp::NONE;
    done(after)
}

/// Whether energy is counted. (`switched_off` has the same shape and another field: one function for both would take a
/// closure that sets the field, and a definition of that closure.)
#[tactic(auto, unfolding(crate::specs::Starts::set_run))]
pub fn set_run(before: Pw, run: bool) -> Step
    ensures { result ≡ set_run before run }
{
    let mut after = before;
    after.clock.run = run;
    done(after)
}

/// The order `settings`: all five fields, of any bits, on or off, in a job too.
#[tactic(auto, unfolding(crate::specs::Starts::set_settings))]
pub fn set_settings(before: Pw, settings: Settings) -> Step
    ensures { result ≡ set_settings before settings }
{
    let mut after = before;
    after.settings = settings;
    done(after)
}
