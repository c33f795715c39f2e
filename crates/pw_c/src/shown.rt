//! What a host reads off a meter: include/pw.h describes each function.
//! C links a function by its name: so there is one export for each, of one shape.
ghost use Rattle.std.specs.Prelude.{◌≡◌};
ghost use Rattle.tables.specs.Row.{row_kind, row_number};
ghost use Rattle.values.specs.Vals.{pw_vals, pw_state, integrating};
ghost use Rattle.readouts.specs.Readings.{reading_vals, energy_val};
ghost use Rattle.readouts.specs.Bluetooth.{bt_mode_byte, bt_main};
ghost use Rattle.readouts.specs.Partial.{pw_partial};
ghost use Rattle.host.specs.Shown.{host_vals, host_val, host_readouts, host_partial};
ghost use Rattle.host.specs.Ring.{conversion};

use host::ring::HostConversion;
use host::shown::{HostPartial, HostReadouts, HostVal, HostVals};
use state::Pw;
use values::power_vals::PowerVals;

#[unsafe(no_mangle)]
pub extern "C" fn pw_vals(meter: Pw) -> HostVals
    ensures { result ≡ host_vals (pw_vals meter) }
{
    pw::shown::pw_vals(meter)
}

#[unsafe(no_mangle)]
pub extern "C" fn pw_state(meter: Pw) -> PowerVals
    ensures { result ≡ pw_state meter }
{
    pw::shown::pw_state(meter)
}

#[unsafe(no_mangle)]
pub extern "C" fn pw_reading_vals(vals: PowerVals) -> HostReadouts
    ensures { result ≡ host_readouts (reading_vals vals) }
{
    pw::shown::pw_reading_vals(vals)
}

#[unsafe(no_mangle)]
pub extern "C" fn pw_energy_val(vals: PowerVals) -> HostVal
    ensures { result ≡ host_val (energy_val vals) }
{
    pw::shown::pw_energy_val(vals)
}

#[unsafe(no_mangle)]
pub extern "C" fn pw_bt_main(vals: PowerVals) -> HostVal
    ensures { result ≡ host_val (bt_main vals) }
{
    pw::shown::pw_bt_main(vals)
}

#[unsafe(no_mangle)]
pub extern "C" fn pw_bt_mode_byte(v_auto: bool, vr: u8) -> u8
    ensures { result ≡ bt_mode_byte v_auto vr }
{
    pw::shown::pw_bt_mode_byte(v_auto, vr)
}

#[unsafe(no_mangle)]
pub extern "C" fn pw_partial(meter: Pw) -> HostPartial
    ensures { result ≡ host_partial (pw_partial meter) }
{
    pw::shown::pw_partial(meter)
}

#[unsafe(no_mangle)]
pub extern "C" fn pw_integrating(meter: Pw) -> bool
    ensures { result ≡ integrating meter }
{
    pw::shown::pw_integrating(meter)
}

/// The number of the kind of row that the host writes at a mark.
#[unsafe(no_mangle)]
pub extern "C" fn pw_row(meter: Pw) -> u8
    ensures { result ≡ row_number (row_kind meter.mode.alt meter.mode.dc meter.job.job meter.job.job_step meter.job.job_dc meter.cycle.phase) }
{
    pw::shown::pw_row(meter)
}

/// One of the sixteen latest conversions, by its age.
#[unsafe(no_mangle)]
pub extern "C" fn pw_conversion(meter: Pw, age: u8) -> HostConversion
    ensures { result ≡ conversion meter.ring age }
{
    pw::shown::pw_conversion(meter, age)
}
