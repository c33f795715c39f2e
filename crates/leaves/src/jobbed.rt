//! The leaf functions of module 5: the phase calibration, and the jobs on a whole meter. C is handed plain numbers: the
//! kinds of job and the outcome's number in `HostOutcome` go by them.
ghost use Rattle.std.specs.Prelude.{◌≡◌};
ghost use Rattle.steps.specs.Place.{kind_of};
ghost use Rattle.phase.specs.Phase.{cal_outcome, cal_started, cal_accounted};
ghost use Rattle.jobs.specs.Whole.{job_started, job_turned_away, job_ended, job_polled};
ghost use Rattle.leaves.specs.Host.{host_outcome, started_pw, polled_pw};

use codes::{Codes, Frame};
use phase::PhaseStep;
use state::{PhaseCal, Pw, Stamp};
use steps::place::Kind;

/// `struct leaf_cal_outcome`
#[derive(Clone, Copy)]
#[repr(C)]
pub struct HostOutcome {
    pub number: u8,
    pub steps: i8,
}

/// `struct leaf_started`
#[derive(Clone, Copy)]
#[repr(C)]
pub struct StartedPw {
    pub pw: Pw,
    pub mark: Stamp,
}

/// `struct leaf_polled`
#[derive(Clone, Copy)]
#[repr(C)]
pub struct PolledPw {
    pub pw: Pw,
    pub mark: Stamp,
    pub used: u8,
}

#[unsafe(no_mangle)]
#[tactic(auto, unfolding(crate::specs::Host::host_outcome))]
pub extern "C" fn leaf_cal_outcome(s: f32) -> HostOutcome
    ensures { result ≡ host_outcome (cal_outcome s) }
{
    let outcome = phase::cal_outcome(s);
    HostOutcome {
        number: phase::cal_number(outcome),
        steps: outcome.unwrap_or(0),
    }
}

#[unsafe(no_mangle)]
pub extern "C" fn leaf_cal_start(before: PhaseCal) -> PhaseCal
    ensures { result ≡ cal_started before }
{
    phase::cal_start(before)
}

#[unsafe(no_mangle)]
pub extern "C" fn leaf_cal_account(before: PhaseCal, cal_req: bool) -> PhaseStep
    ensures { result ≡ cal_accounted before cal_req }
{
    phase::cal_account(before, cal_req)
}

#[unsafe(no_mangle)]
pub extern "C" fn leaf_job_start(pw: Pw, kind: u8, now: u64) -> StartedPw
    ensures { result ≡ started_pw (job_started pw (kind_of kind) now) }
{
    let started = jobs::whole::job_start(pw, Kind::from(kind), now);
    StartedPw {
        pw: started.pw,
        mark: Stamp::from(started.mark),
    }
}

#[unsafe(no_mangle)]
pub extern "C" fn leaf_job_turned_away(pw: Pw, kind: u8) -> Pw
    ensures { result ≡ job_turned_away pw (kind_of kind) }
{
    jobs::whole::job_turned_away(pw, Kind::from(kind))
}

#[unsafe(no_mangle)]
pub extern "C" fn leaf_job_end(pw: Pw, res: u8) -> Pw
    ensures { result ≡ job_ended pw res }
{
    jobs::whole::job_end(pw, res)
}

#[unsafe(no_mangle)]
pub extern "C" fn leaf_job_poll(
    pw: Pw,
    now: u64,
    flags: u8,
    ad1: i32,
    lpf: i32,
    rms: i64,
) -> PolledPw
    ensures { result ≡ polled_pw (job_polled pw now flags (record { ad1 = ad1; lpf = lpf; rms = rms })) }
{
    let frame = Frame {
        flags,
        codes: Codes { ad1, lpf, rms },
        now,
    };
    let polled = jobs::whole::job_poll(pw, frame);
    PolledPw {
        pw: polled.pw,
        mark: Stamp::from(polled.mark),
        used: polled.used,
    }
}
