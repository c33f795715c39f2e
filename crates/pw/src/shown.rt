//! What a host reads off a meter: include/pw.h describes each function. C calls one function for each thing read, by its
//! name: so several have one shape, the conversion of what another crate works out.
ghost use Rattle.std.specs.Prelude.{◌≡◌};
ghost use Rattle.tables.specs.Row.{row_kind, row_number};
ghost use Rattle.values.specs.Vals.{pw_vals, pw_state, integrating};
ghost use Rattle.readouts.specs.Readings.{reading_vals, energy_val};
ghost use Rattle.readouts.specs.Bluetooth.{bt_mode_byte, bt_main};
ghost use Rattle.readouts.specs.Partial.{pw_partial};
ghost use Rattle.host.specs.Shown.{host_vals, host_val, host_readouts, host_partial};
ghost use Rattle.host.specs.Ring.{conversion};

use host::ring::HostConversion;
use host::shown::{HostPartial, HostReadouts, HostVal, HostVals};
use state::Pw;
use values::power_vals::PowerVals;

pub fn pw_vals(meter: Pw) -> HostVals
    ensures { result ≡ host_vals (pw_vals meter) }
{
    HostVals::from(values::vals::pw_vals(meter))
}

pub fn pw_state(meter: Pw) -> PowerVals
    ensures { result ≡ pw_state meter }
{
    values::vals::pw_state(meter)
}

pub fn pw_reading_vals(vals: PowerVals) -> HostReadouts
    ensures { result ≡ host_readouts (reading_vals vals) }
{
    HostReadouts::from(readouts::readings::reading_vals(vals))
}

pub fn pw_energy_val(vals: PowerVals) -> HostVal
    ensures { result ≡ host_val (energy_val vals) }
{
    HostVal::from(readouts::readings::energy_val(vals))
}

pub fn pw_bt_main(vals: PowerVals) -> HostVal
    ensures { result ≡ host_val (bt_main vals) }
{
    HostVal::from(readouts::bluetooth::bt_main(vals))
}

pub fn pw_bt_mode_byte(v_auto: bool, vr: u8) -> u8
    ensures { result ≡ bt_mode_byte v_auto vr }
{
    readouts::bluetooth::bt_mode_byte(v_auto, vr)
}

pub fn pw_partial(meter: Pw) -> HostPartial
    ensures { result ≡ host_partial (pw_partial meter) }
{
    HostPartial::from(readouts::partial::pw_partial(meter))
}

pub fn pw_integrating(meter: Pw) -> bool
    ensures { result ≡ integrating meter }
{
    values::vals::integrating(meter)
}

/// The number of the kind of row that the host writes at a mark.
pub fn pw_row(meter: Pw) -> u8
    ensures { result ≡ row_number (row_kind meter.mode.alt meter.mode.dc meter.job.job meter.job.job_step meter.job.job_dc meter.cycle.phase) }
{
    let kind = tables::row::row_kind(
        meter.mode.alt,
        meter.mode.dc,
        meter.job.job,
        meter.job.job_step,
        meter.job.job_dc,
        meter.cycle.phase,
    );
    kind.into()
}

/// One of the sixteen latest conversions, by its age.
pub fn pw_conversion(meter: Pw, age: u8) -> HostConversion
    ensures { result ≡ conversion meter.ring age }
{
    host::ring::conversion(meter.ring, age)
}
