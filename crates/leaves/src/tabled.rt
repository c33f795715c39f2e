//! The leaf functions of module 2. C is handed plain structs of numbers: `refusal` stands beside a value in
//! `NumberedCalibration`.
ghost use Rattle.std.specs.Prelude.{◌≡◌};
ghost use Rattle.std.specs.Float.{nan};
ghost use Rattle.tables.specs.Bounds.{entry_at};
ghost use Rattle.tables.specs.Constants.{v_lim, i_lim, shunt_ohm, kv, cycle_at};
ghost use Rattle.tables.specs.Decided.{k_acv, dcv_negk, acv_win, aca_win};
ghost use Rattle.tables.specs.Ranges.{iu_ir, cal_index, coup_of, next_coupling};
ghost use Rattle.tables.specs.Description.{check_description};
ghost use Rattle.tables.specs.Calibration.{calibration_of, cal, factor, offset};
ghost use Rattle.tables.specs.Gain.{v_gain_factory, v_gain};
ghost use Rattle.refusals.specs.Number.{told_number};
ghost use Rattle.leaves.specs.Host.{numbered};

use refusals::told_number;
use tables::calibration::Calibration;
use tables::description::Description;
use tables::ranges::IuIr;

/// `struct leaf_calibration_answer`
#[derive(Clone, Copy)]
#[repr(C)]
pub struct NumberedCalibration {
    pub refusal: u8,
    pub calibration: Calibration,
}

/// `struct leaf_gains`
#[derive(Clone, Copy)]
#[repr(C)]
pub struct Gains {
    pub vgain: [f32; 4],
}

/// C's `struct leaf_iu_ir` is `IuIr`.
#[unsafe(no_mangle)]
pub extern "C" fn leaf_iu_ir(k: u8) -> IuIr
    ensures { result ≡ iu_ir k }
{
    tables::ranges::iu_ir(k)
}

#[unsafe(no_mangle)]
pub extern "C" fn leaf_cal_index(k: u8) -> u8
    ensures { result ≡ cal_index k }
{
    tables::ranges::cal_index(k)
}

#[unsafe(no_mangle)]
pub extern "C" fn leaf_coup_of(c: u32) -> u8
    ensures { result ≡ coup_of c }
{
    tables::ranges::coup_of(c)
}

#[unsafe(no_mangle)]
pub extern "C" fn leaf_next_coupling(c: u8) -> u8
    ensures { result ≡ next_coupling c }
{
    tables::ranges::next_coupling(c)
}

#[unsafe(no_mangle)]
pub extern "C" fn leaf_description_refusal(d: Description) -> u8
    ensures { result ≡ told_number (check_description d) }
{
    told_number(&tables::description::check_description(d))
}

#[unsafe(no_mangle)]
pub extern "C" fn leaf_calibration_of(words: &[u32], valid: bool) -> NumberedCalibration
    ensures { result ≡ numbered (calibration_of words.now valid) }
{
    let answer = tables::calibration::calibration_of(words, valid);
    NumberedCalibration {
        refusal: told_number(&answer),
        calibration: answer.unwrap_or(Calibration::NONE),
    }
}

#[unsafe(no_mangle)]
pub extern "C" fn leaf_cal(c: Calibration, at: u32, default: f32) -> f32
    ensures { result ≡ cal c at default }
{
    c.cal(at, default)
}

#[unsafe(no_mangle)]
pub extern "C" fn leaf_factor(c: Calibration, at: u32) -> f32
    ensures { result ≡ factor c at }
{
    c.factor(at)
}

#[unsafe(no_mangle)]
pub extern "C" fn leaf_offset(c: Calibration, at: u32) -> f32
    ensures { result ≡ offset c at }
{
    c.offset(at)
}

#[unsafe(no_mangle)]
pub extern "C" fn leaf_v_gain_factory(c: Calibration, vr: u8) -> f32
    ensures { result ≡ v_gain_factory c vr }
{
    c.v_gain_factory(vr)
}

#[unsafe(no_mangle)]
pub extern "C" fn leaf_v_gain(c: Calibration, g: Gains, vr: u8) -> f32
    ensures { result ≡ v_gain c g.vgain vr }
{
    c.v_gain(g.vgain, vr)
}

#[unsafe(no_mangle)]
pub extern "C" fn leaf_v_lim(vr: u8) -> f32
    ensures { result ≡ entry_at nan v_lim vr }
{
    tables::lookups::v_lim(vr)
}

#[unsafe(no_mangle)]
pub extern "C" fn leaf_i_lim(ik: u8) -> f32
    ensures { result ≡ entry_at nan i_lim ik }
{
    tables::lookups::i_lim(ik)
}

#[unsafe(no_mangle)]
pub extern "C" fn leaf_shunt_ohm(iu: u8) -> f32
    ensures { result ≡ entry_at nan shunt_ohm iu }
{
    tables::lookups::shunt_ohm(iu)
}

#[unsafe(no_mangle)]
pub extern "C" fn leaf_kv(vr: u8) -> f32
    ensures { result ≡ entry_at nan kv vr }
{
    tables::lookups::kv(vr)
}

#[unsafe(no_mangle)]
pub extern "C" fn leaf_k_acv(vr: u8) -> f32
    ensures { result ≡ entry_at nan k_acv vr }
{
    tables::lookups::k_acv(vr)
}

#[unsafe(no_mangle)]
pub extern "C" fn leaf_dcv_negk(vr: u8) -> f32
    ensures { result ≡ entry_at nan dcv_negk vr }
{
    tables::lookups::dcv_negk(vr)
}

#[unsafe(no_mangle)]
pub extern "C" fn leaf_acv_win(vr: u8) -> f32
    ensures { result ≡ entry_at nan acv_win vr }
{
    tables::lookups::acv_win(vr)
}

#[unsafe(no_mangle)]
pub extern "C" fn leaf_aca_win(ci: u8) -> f32
    ensures { result ≡ entry_at nan aca_win ci }
{
    tables::lookups::aca_win(ci)
}

#[unsafe(no_mangle)]
pub extern "C" fn leaf_cycle_at(phase: u8) -> u8
    ensures { result ≡ cycle_at phase }
{
    tables::lookups::cycle(phase)
}
