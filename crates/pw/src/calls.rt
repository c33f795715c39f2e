//! The calls on a meter that the host keeps by value: include/pw.h describes each. C calls one function for each call,
//! by its name: so several have one shape, the conversion of an order's step.
ghost use Rattle.std.specs.Prelude.{◌≡◌};
ghost use Rattle.meter.specs.Making.{make};
ghost use Rattle.meter.specs.Calls.{step, On, Off, Method, SetRanges, Coupling, ZeroJob, GainJob, PhaseStart, EnergyReset, Run, SetSettings, Reapply, Frame};
ghost use Rattle.host.specs.Stepped.{ask_of, host_step, host_made};

use host::stepped::{HostAnswer, HostMade, HostStep, ask_of};
use jobs::whole::job_poll;
use meter::frame::{Opened, after_measurement, measure, open_frame};
use orders::answer::Answer;
use state::{Pw, Settings};
use tables::description::Description;

pub fn pw_make(description: Description, words: &[u32], valid: bool) -> HostMade
    ensures { result ≡ host_made (make description words.now valid) }
{
    HostMade::from(meter::making::make(description, words, valid))
}

pub fn pw_on(meter: Pw, time: u64) -> HostStep
    ensures { result ≡ host_step (step meter (On time)) }
{
    HostStep::from(orders::switches::on(meter, time))
}

pub fn pw_off(meter: Pw, time: u64) -> HostStep
    ensures { result ≡ host_step (step meter (Off time)) }
{
    HostStep::from(orders::switches::off(meter, time))
}

pub fn pw_method(meter: Pw, time: u64, alt: bool) -> HostStep
    ensures { result ≡ host_step (step meter (Method time alt)) }
{
    HostStep::from(orders::switches::method(meter, time, alt))
}

pub fn pw_ranges(meter: Pw, time: u64, v: u16, i: u16) -> HostStep
    ensures { result ≡ host_step (step meter (SetRanges time (ask_of v) (ask_of i))) }
{
    let v = ask_of(v);
    let i = ask_of(i);
    HostStep::from(orders::ranges::set_ranges(meter, time, v, i))
}

pub fn pw_coupling(meter: Pw, time: u64, coup: u8) -> HostStep
    ensures { result ≡ host_step (step meter (Coupling time coup)) }
{
    HostStep::from(orders::switches::coupling(meter, time, coup))
}

pub fn pw_zero_job(meter: Pw, time: u64) -> HostStep
    ensures { result ≡ host_step (step meter (ZeroJob time)) }
{
    HostStep::from(orders::starts::zero_job(meter, time))
}

pub fn pw_gain_job(meter: Pw, time: u64) -> HostStep
    ensures { result ≡ host_step (step meter (GainJob time)) }
{
    HostStep::from(orders::starts::gain_job(meter, time))
}

pub fn pw_phase_start(meter: Pw) -> HostStep
    ensures { result ≡ host_step (step meter PhaseStart) }
{
    HostStep::from(orders::starts::phase_start(meter))
}

pub fn pw_energy_reset(meter: Pw) -> HostStep
    ensures { result ≡ host_step (step meter EnergyReset) }
{
    HostStep::from(orders::starts::energy_reset(meter))
}

pub fn pw_run(meter: Pw, run: bool) -> HostStep
    ensures { result ≡ host_step (step meter (Run run)) }
{
    HostStep::from(orders::starts::set_run(meter, run))
}

pub fn pw_set_settings(meter: Pw, settings: Settings) -> HostStep
    ensures { result ≡ host_step (step meter (SetSettings settings)) }
{
    HostStep::from(orders::starts::set_settings(meter, settings))
}

pub fn pw_reapply(meter: Pw, time: u64) -> HostStep
    ensures { result ≡ host_step (step meter (Reapply time)) }
{
    HostStep::from(orders::switches::reapply(meter, time))
}

/// As `meter::frame::poll` has it, in one function: the C interface hands a meter by value, as document 01 asks, and
/// through `poll` it is copied once more, so that a DC frame took 872 ns in place of 764 and a refused one 208 in place of
/// 166. Each answer is returned where it is known: where the branches join on a step that is copied too, 862 and 248 ns.
#[tactic(auto, using(meter::proofs::Entered::poll_opened_law, meter::proofs::Entered::measured_by_law), unfolding(meter::specs::Frame::in_job, orders::specs::Answer::refused_with))]
pub fn pw_frame(meter: Pw, time: u64, flags: u8, bytes: &[u8]) -> HostStep
    ensures { result ≡ host_step (step meter (Frame time flags bytes.now)) }
{
    match open_frame(meter.mode.on, meter.job.job, time, flags, bytes) {
        Err(refusal) => {
            return HostStep {
                meter,
                answer: HostAnswer::from(Err(refusal)),
            };
        }
        Ok(Opened::InJob(frame)) => {
            let polled = job_poll(meter, frame);
            let answer = Answer {
                mark: polled.mark,
                used: polled.used,
                reading: None,
            };
            return HostStep {
                meter: polled.pw,
                answer: HostAnswer::from(Ok(answer)),
            };
        }
        Ok(Opened::Outside(frame)) => match measure(meter, frame) {
            Err(refusal) => {
                return HostStep {
                    meter,
                    answer: HostAnswer::from(Err(refusal)),
                };
            }
            Ok(made) => {
                return HostStep {
                    meter: after_measurement(meter, frame, made),
                    answer: HostAnswer::from(Ok(made.answer())),
                };
            }
        },
    }
}
