//! `reading_vals` and `energy_val` of the source: the readouts of a reading.
ghost use Rattle.std.specs.Prelude.{◌≡◌};
ghost use Rattle.readouts.specs.Readings.{full_scale, volt_decimals, main_si, any_over, v_readout, i_format, i_readout, energy_readout, power_readout, main_readout, reading_vals, energy_val};

use formats::format::{Format, energy_format, p_format};
use formats::readout::Val;
use formats::units::Unit;
use state::Ranges;
use tables::constants::{MAIN_P, MAIN_VAH, MAIN_WH};
use tables::lookups::{i_lim, v_lim};
use tables::ranges::iu_ir;
use values::power_vals::{Limits, PowerVals};

/// The main readout, volts and amperes; and the power in W or VA, also where the main readout is an
/// energy, or 0.0 where volts or amperes are over.
#[derive(Clone, Copy)]
pub struct Readouts {
    pub main: Val,
    pub v: Val,
    pub i: Val,
    pub si: f32,
}

/// The full scale of a pair of ranges, in W.
#[tactic(auto, unfolding(crate::specs::Readings::full_scale))]
pub(crate) fn full_scale(ranges: Ranges) -> f32
    ensures { result ≡ full_scale ranges }
{
    v_lim(ranges.vr) * i_lim(ranges.ik)
}

/// The decimals of the volts in a V range.
#[tactic(auto, unfolding(crate::specs::Readings::volt_decimals, tables::specs::Bounds::at_most))]
pub(crate) fn volt_decimals(vr: u8) -> u8
    ensures { result ≡ volt_decimals vr }
{
    4 - vr.min(3)
}

/// The power, or the apparent power in the alternating method.
#[tactic(auto, unfolding(crate::specs::Readings::main_si))]
pub(crate) fn main_si(pv: PowerVals) -> f32
    ensures { result ≡ main_si pv }
{
    if pv.in_force.alt {
        pv.load.s
    } else {
        pv.load.p
    }
}

/// Whether voltage or current is over its range.
#[tactic(auto, unfolding(crate::specs::Readings::any_over))]
pub(crate) fn any_over(limits: Limits) -> bool
    ensures { result ≡ any_over limits }
{
    limits.v_ol || limits.i_ol
}

#[tactic(auto, unfolding(crate::specs::Readings::v_readout))]
fn v_readout(pv: PowerVals) -> Val
    ensures { result ≡ v_readout pv }
{
    let volts = Format {
        number: pv.load.v,
        decimals: volt_decimals(pv.ranges.vr),
        unit: Unit::Volt,
    };
    volts.shown_unless(pv.limits.v_ol)
}

// Amperes in the unit of the current range.
#[tactic(auto, using(tables::proofs::Held::ir_most), unfolding(crate::specs::Readings::i_format))]
fn i_format(ik: u8, i: f32) -> Format
    ensures { result ≡ i_format ik i }
{
    let u = iu_ir(ik);
    let (k, most, unit) = match u.iu {
        0 => (1.0, 4, Unit::Ampere),
        1 => (1e3, 3, Unit::Milliampere),
        _ => (1e6, 2, Unit::Microampere),
    };
    Format {
        number: i * k,
        decimals: most - u.ir,
        unit,
    }
}

#[tactic(auto, unfolding(crate::specs::Readings::i_readout))]
fn i_readout(pv: PowerVals) -> Val
    ensures { result ≡ i_readout pv }
{
    i_format(pv.ranges.ik, pv.load.i).shown_unless(pv.limits.i_ol)
}

// The apparent energy where `va`, else the active one. It is never over: the integral holds. `va` is the mark of the source's
// `energy_format`, which is handed on; a function for each energy would have the same body twice.
#[tactic(auto, unfolding(crate::specs::Readings::energy_readout))]
fn energy_readout(va: bool, pv: PowerVals) -> Val
    ensures { result ≡ energy_readout va pv }
{
    let wh = if va {
        pv.energies.vah
    } else {
        pv.energies.e_wh
    };
    energy_format(wh, va).shown()
}

#[tactic(auto, unfolding(crate::specs::Readings::power_readout))]
fn power_readout(pv: PowerVals) -> Val
    ensures { result ≡ power_readout pv }
{
    let power = p_format(full_scale(pv.ranges), main_si(pv), !pv.in_force.alt);
    power.shown_unless(any_over(pv.limits))
}

// An energy where the main readout is one (in the alternating method the apparent one), else the
// power.
#[tactic(auto, unfolding(crate::specs::Readings::main_readout))]
fn main_readout(pv: PowerVals) -> Val
    ensures { result ≡ main_readout pv }
{
    match pv.in_force.main {
        MAIN_WH => energy_readout(pv.in_force.alt, pv),
        MAIN_VAH => energy_readout(true, pv),
        _ => power_readout(pv),
    }
}

/// The source's `reading_vals`: the readouts of the values.
#[tactic(auto, unfolding(crate::specs::Readings::reading_vals))]
pub fn reading_vals(pv: PowerVals) -> Readouts
    ensures { result ≡ reading_vals pv }
{
    let over = any_over(pv.limits);
    Readouts {
        main: main_readout(pv),
        v: v_readout(pv),
        i: i_readout(pv),
        si: if over { 0.0 } else { main_si(pv) },
    }
}

/// The energy where `main` is MAIN_P; else the power.
#[tactic(auto, unfolding(crate::specs::Readings::energy_val))]
pub fn energy_val(pv: PowerVals) -> Val
    ensures { result ≡ energy_val pv }
{
    if pv.in_force.main == MAIN_P {
        energy_readout(pv.in_force.alt, pv)
    } else {
        power_readout(pv)
    }
}
