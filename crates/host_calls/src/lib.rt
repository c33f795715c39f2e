//! A host's calls on a meter, run one after another by the functions of the C interface.
#![tactic(auto)]

ghost use Rattle.std.specs.Prelude.{◌≡◌, ◌≢◌};
ghost use Rattle.meter.specs.Calls.{step, after};
ghost use Rattle.host.specs.Stepped.{host_step, host_made};
ghost use Rattle.tables.specs.declared.calibration.Calibration.{Calibration};
ghost use Rattle.meter.specs.Making.{make};
ghost use Rattle.book.specs.Demand3.{fed};
ghost use Rattle.host_calls.specs.Made.{IsMade, Served};
ghost use Rattle.host_calls.specs.Calls.{call_of, calls_of};

use host::stepped::{HostMade, HostStep};
use state::{Pw, Settings};
use tables::description::Description;

/// A call on a meter, by its function in `pw`, with what a host hands that beside the meter.
// It derives no `PartialEq` or `Debug`: a call is only run, and `Settings` in it has neither.
#[derive(Clone, Copy)]
pub enum HostCall<'a> {
    On {
        time: u64,
    },
    Off {
        time: u64,
    },
    Method {
        time: u64,
        alt: bool,
    },
    Ranges {
        time: u64,
        v: u16,
        i: u16,
    },
    Coupling {
        time: u64,
        coup: u8,
    },
    ZeroJob {
        time: u64,
    },
    GainJob {
        time: u64,
    },
    PhaseStart,
    EnergyReset,
    Run {
        run: bool,
    },
    SetSettings {
        settings: Settings,
    },
    Reapply {
        time: u64,
    },
    Frame {
        time: u64,
        flags: u8,
        bytes: &'a [u8],
    },
}

/// One call, by its function.
pub fn call(meter: Pw, asked: HostCall) -> HostStep
    ensures { result ≡ host_step (step meter (call_of asked.entry)) }
{
    match asked {
        HostCall::On { time } => pw::calls::pw_on(meter, time),
        HostCall::Off { time } => pw::calls::pw_off(meter, time),
        HostCall::Method { time, alt } => pw::calls::pw_method(meter, time, alt),
        HostCall::Ranges { time, v, i } => pw::calls::pw_ranges(meter, time, v, i),
        HostCall::Coupling { time, coup } => pw::calls::pw_coupling(meter, time, coup),
        HostCall::ZeroJob { time } => pw::calls::pw_zero_job(meter, time),
        HostCall::GainJob { time } => pw::calls::pw_gain_job(meter, time),
        HostCall::PhaseStart => pw::calls::pw_phase_start(meter),
        HostCall::EnergyReset => pw::calls::pw_energy_reset(meter),
        HostCall::Run { run } => pw::calls::pw_run(meter, run),
        HostCall::SetSettings { settings } => pw::calls::pw_set_settings(meter, settings),
        HostCall::Reapply { time } => pw::calls::pw_reapply(meter, time),
        HostCall::Frame { time, flags, bytes } => pw::calls::pw_frame(meter, time, flags, bytes),
    }
}

/// Runs a host's calls in order: "each call gets the meter as the last one left it". Where the first is just made,
/// the last one agrees with the book of these calls, and its zeros and gains are those that were earned last in them.
pub fn run(meter: Pw, calls: &[HostCall]) -> Pw
    ensures after { result ≡ after meter (calls_of calls.now) }
    ensures served { (w : Calibration) → IsMade w meter → Served w meter (calls_of calls.now) result }
{
    let mut now = meter;
    for asked in calls {
        let step = call(now, *asked);
        now = step.meter;
    }
    book::theorems::demand3();
    book::theorems::earned();
    book::theorems::last();
    now
}

/// Makes a meter, and runs a host's calls on it: document 01's demand 3, of the functions that a host calls. (Description,
/// words and valid mark are three parameters: a C host hands them to `pw_make` so.)
pub fn make_and_run(
    description: Description,
    words: &[u32],
    valid: bool,
    calls: &[HostCall],
) -> HostMade
    ensures refusal { result.refusal ≡ (host_made (make description words.now valid)).refusal }
    ensures refused { result.refusal ≢ 0 → result ≡ host_made (make description words.now valid) }
    ensures served { result.refusal ≡ 0 → Served (fed words.now valid) (host_made (make description words.now valid)).meter (calls_of calls.now) result.meter }
{
    let made = pw::calls::pw_make(description, words, valid);
    if made.refusal != 0 {
        return made;
    }
    let meter = run(made.meter, calls);
    HostMade { refusal: 0, meter }
}
