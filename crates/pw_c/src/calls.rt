//! The calls on a meter that the host keeps by value: include/pw.h describes each.
//! C links a function by its name: so there is one export for each, of one shape.
ghost use Rattle.std.specs.Prelude.{◌≡◌};
ghost use Rattle.meter.specs.Making.{make};
ghost use Rattle.meter.specs.Calls.{step, On, Off, Method, SetRanges, Coupling, ZeroJob, GainJob, PhaseStart, EnergyReset, Run, SetSettings, Reapply, Frame};
ghost use Rattle.host.specs.Stepped.{ask_of, host_step, host_made};

use host::stepped::{HostMade, HostStep};
use state::{Pw, Settings};
use tables::description::Description;

#[unsafe(no_mangle)]
pub extern "C" fn pw_make(description: Description, words: &[u32], valid: bool) -> HostMade
    ensures { result ≡ host_made (make description words.now valid) }
{
    pw::calls::pw_make(description, words, valid)
}

#[unsafe(no_mangle)]
pub extern "C" fn pw_on(meter: Pw, time: u64) -> HostStep
    ensures { result ≡ host_step (step meter (On time)) }
{
    pw::calls::pw_on(meter, time)
}

#[unsafe(no_mangle)]
pub extern "C" fn pw_off(meter: Pw, time: u64) -> HostStep
    ensures { result ≡ host_step (step meter (Off time)) }
{
    pw::calls::pw_off(meter, time)
}

#[unsafe(no_mangle)]
pub extern "C" fn pw_method(meter: Pw, time: u64, alt: bool) -> HostStep
    ensures { result ≡ host_step (step meter (Method time alt)) }
{
    pw::calls::pw_method(meter, time, alt)
}

#[unsafe(no_mangle)]
pub extern "C" fn pw_ranges(meter: Pw, time: u64, v: u16, i: u16) -> HostStep
    ensures { result ≡ host_step (step meter (SetRanges time (ask_of v) (ask_of i))) }
{
    pw::calls::pw_ranges(meter, time, v, i)
}

#[unsafe(no_mangle)]
pub extern "C" fn pw_coupling(meter: Pw, time: u64, coup: u8) -> HostStep
    ensures { result ≡ host_step (step meter (Coupling time coup)) }
{
    pw::calls::pw_coupling(meter, time, coup)
}

#[unsafe(no_mangle)]
pub extern "C" fn pw_zero_job(meter: Pw, time: u64) -> HostStep
    ensures { result ≡ host_step (step meter (ZeroJob time)) }
{
    pw::calls::pw_zero_job(meter, time)
}

#[unsafe(no_mangle)]
pub extern "C" fn pw_gain_job(meter: Pw, time: u64) -> HostStep
    ensures { result ≡ host_step (step meter (GainJob time)) }
{
    pw::calls::pw_gain_job(meter, time)
}

#[unsafe(no_mangle)]
pub extern "C" fn pw_phase_start(meter: Pw) -> HostStep
    ensures { result ≡ host_step (step meter PhaseStart) }
{
    pw::calls::pw_phase_start(meter)
}

#[unsafe(no_mangle)]
pub extern "C" fn pw_energy_reset(meter: Pw) -> HostStep
    ensures { result ≡ host_step (step meter EnergyReset) }
{
    pw::calls::pw_energy_reset(meter)
}

#[unsafe(no_mangle)]
pub extern "C" fn pw_run(meter: Pw, run: bool) -> HostStep
    ensures { result ≡ host_step (step meter (Run run)) }
{
    pw::calls::pw_run(meter, run)
}

#[unsafe(no_mangle)]
pub extern "C" fn pw_set_settings(meter: Pw, settings: Settings) -> HostStep
    ensures { result ≡ host_step (step meter (SetSettings settings)) }
{
    pw::calls::pw_set_settings(meter, settings)
}

#[unsafe(no_mangle)]
pub extern "C" fn pw_reapply(meter: Pw, time: u64) -> HostStep
    ensures { result ≡ host_step (step meter (Reapply time)) }
{
    pw::calls::pw_reapply(meter, time)
}

#[unsafe(no_mangle)]
pub extern "C" fn pw_frame(meter: Pw, time: u64, flags: u8, bytes: &[u8]) -> HostStep
    ensures { result ≡ host_step (step meter (Frame time flags bytes.now)) }
{
    pw::calls::pw_frame(meter, time, flags, bytes)
}
