//! What the stock phone program is sent: `bt_mode_byte` and `bt_main` of the source. Its protocol has no
//! power function, so watts go as volts.
ghost use Rattle.std.specs.Prelude.{◌≡◌};
ghost use Rattle.formats.specs.Readout.{tens};
ghost use Rattle.readouts.specs.Bluetooth.{bt_mode_byte, volt_group, too_large, decimals_that_fit, held_number, bt_val, bt_main};

use crate::readings::{any_over, full_scale, main_si};
use formats::format::{Format, p_format};
use formats::readout::{Val, tens};
use formats::units::Unit;
use values::power_vals::PowerVals;

/// The mode byte of DC V: 8 times 5 for an automatic range, else 8 times one more than the V range,
/// where one above 3 counts as 3.
#[tactic(auto, unfolding(crate::specs::Bluetooth::bt_mode_byte, tables::specs::Bounds::at_most))]
pub fn bt_mode_byte(v_auto: bool, vr: u8) -> u8
    ensures { result ≡ bt_mode_byte v_auto vr }
{
    let range = if v_auto { 5 } else { vr.min(3) + 1 };
    range * 8
}

// Watts as volts, milliwatts as millivolts, kilowatts as volts with the point moved.
#[tactic(auto, unfolding(crate::specs::Bluetooth::volt_group))]
fn volt_group(f: Format) -> Format
    ensures { result ≡ volt_group f }
{
    match f.unit {
        Unit::Milliwatt => Format {
            unit: Unit::Millivolt,
            ..f
        },
        Unit::Kilowatt => Format {
            number: f.number * 1e3,
            decimals: f.decimals.saturating_sub(3),
            unit: Unit::Volt,
        },
        _ => Format {
            unit: Unit::Volt,
            ..f
        },
    }
}

// Whether k times x is too large a count for the protocol: 65535 is its mark for no value.
#[tactic(auto, unfolding(crate::specs::Bluetooth::too_large))]
fn too_large(x: f32, k: f32) -> bool
    ensures { result ≡ too_large x k }
{
    numbers::abs(x) * k + 0.5 >= 65535.0
}

/// How many decimals fit, possibly 0, and the factor that goes with them: ten to the most, times 0.1 for
/// each one dropped.
#[derive(Clone, Copy)]
pub struct Fitted {
    pub k: f32,
    pub dec: u8,
}

// At most `most` decimals, and no more than the count has room for.
#[tactic(auto, using(crate::proofs::Cases::goes, crate::proofs::Cases::stays, crate::proofs::Cases::none_left))]
fn decimals_that_fit(x: f32, most: u8) -> Fitted
    ensures { result ≡ decimals_that_fit x (tens most) most }
{
    let mut k = tens(most);
    for dec in (1..=most).rev() {
        if !too_large(x, k) {
            return Fitted { k, dec };
        }
        k *= 0.1;
    }
    Fitted { k, dec: 0 }
}

// The figure that is sent (a quantity, and not the number of a kind): x, or where k times x is too large for the protocol
// 65534 with the sign of x.
#[tactic(auto, unfolding(crate::specs::Bluetooth::held_number))]
fn held_number(x: f32, k: f32) -> f32
    ensures { result ≡ held_number x k }
{
    if too_large(x, k) {
        numbers::signum(x) * 65534.0
    } else {
        x
    }
}

// A figure as the protocol takes it.
#[tactic(auto, unfolding(crate::specs::Bluetooth::bt_val))]
fn bt_val(f: Format) -> Val
    ensures { result ≡ bt_val f }
{
    let fit = decimals_that_fit(f.number, f.decimals);
    let held = Format {
        number: held_number(f.number, fit.k),
        decimals: fit.dec,
        ..f
    };
    held.shown()
}

/// The main value: the power (the apparent one in the alternating method); over where voltage or
/// current is, and where it is not finite.
#[tactic(auto, unfolding(crate::specs::Bluetooth::bt_main))]
pub fn bt_main(pv: PowerVals) -> Val
    ensures { result ≡ bt_main pv }
{
    let f = volt_group(p_format(full_scale(pv.ranges), main_si(pv), true));
    if any_over(pv.limits) || !numbers::is_finite(f.number) {
        Val::ol(f.decimals, f.unit)
    } else {
        bt_val(f)
    }
}
