//! What codes are multiplied by, and the zeros that are taken off them. Zeros go by current range,
//! words and windows by calibration index, shunts by unit, dividers by gain index.
ghost use Rattle.std.specs.Prelude.{◌≡◌};
ghost use Rattle.takes.specs.Scales.{us, mv_div, shunt, i_scale, v_scale, g_i, g_il, i_win, zero_at, zero_y, code_less, rms_root, gain};

use state::Corrections;
use tables::calibration::Calibration;
use tables::constants::CODE;
use tables::description::Description;
use tables::lookups::{aca_win, kv, shunt_ohm};
use tables::ranges::{cal_index, iu_ir};

/// What a reading is worked out with: description, calibration words, and stored corrections.
#[derive(Clone, Copy)]
pub struct Instrument {
    pub description: Description,
    pub calibration: Calibration,
    pub corrections: Corrections,
}

/// The amperes of a unit: A, mA, uA.
// The unit is a number and no enum: its number also counts in the description's tables and in a calibration index.
#[tactic(auto, unfolding(crate::specs::Scales::us))]
pub(crate) fn us(iu: u8) -> f32
    ensures { result ≡ us iu }
{
    match iu {
        0 => 1.0,
        1 => 1e-3,
        _ => 1e-6,
    }
}

/// The description's `MV_DIV` of a current range, by its gain index.
#[tactic(auto, using(tables::proofs::Held::ir_most), unfolding(crate::specs::Scales::mv_div))]
pub fn mv_div(description: &Description, ik: u8) -> f32
    ensures { result ≡ mv_div description.now ik }
{
    let u = iu_ir(ik);
    description.mv_div[usize::from(u.ir)]
}

impl Instrument {
    /// The same of the instrument's description.
    pub fn mv_div(&self, ik: u8) -> f32
        ensures { result ≡ mv_div self.now.description ik }
    {
        mv_div(&self.description, ik)
    }

    // Apart from `mv_div`: another table, of another length, by another index.
    /// The description's `SHUNT` of a current range, by its unit. It is not `SHUNT_OHM`.
    #[tactic(auto, using(tables::proofs::Held::iu_most), unfolding(crate::specs::Scales::shunt))]
    pub(crate) fn shunt(&self, ik: u8) -> f32
        ensures { result ≡ shunt self.now.description ik }
    {
        let u = iu_ir(ik);
        self.description.shunt[usize::from(u.iu)]
    }

    /// Amperes of one code of the RMS root or the LPF.
    #[tactic(auto, unfolding(crate::specs::Scales::i_scale))]
    pub(crate) fn i_scale(&self, ik: u8) -> f32
        ensures { result ≡ i_scale self.now.description ik }
    {
        CODE / (shunt_ohm(iu_ir(ik).iu) * self.mv_div(ik))
    }

    /// The V channel's gain in force.
    #[tactic(auto, unfolding(crate::specs::Scales::gain))]
    pub fn gain(&self, vr: u8) -> f32
        ensures { result ≡ gain self.now vr }
    {
        self.calibration.v_gain(self.corrections.vgain, vr)
    }

    /// Volts of one code of the RMS root or the LPF.
    #[tactic(auto, unfolding(crate::specs::Scales::v_scale))]
    pub(crate) fn v_scale(&self, vr: u8) -> f32
        ensures { result ≡ v_scale vr (gain self.now vr) }
    {
        CODE * kv(vr) * self.gain(vr)
    }

    /// The factor of the RMS root's amperes.
    #[tactic(auto, unfolding(crate::specs::Scales::g_i))]
    pub(crate) fn g_i(&self, ik: u8) -> f32
        ensures { result ≡ g_i self.now.calibration ik }
    {
        self.calibration.factor(0xC4 + 4 * u32::from(cal_index(ik)))
    }

    /// The factor of the LPF's amperes: its own word, but the RMS root's where that is just 1.0.
    #[tactic(auto, unfolding(crate::specs::Scales::g_il))]
    pub(crate) fn g_il(&self, ik: u8) -> f32
        ensures { result ≡ g_il self.now.calibration ik }
    {
        let g = self.calibration.factor(0xF4 + 4 * u32::from(cal_index(ik)));
        if g == 1.0 { self.g_i(ik) } else { g }
    }
}

/// The jump window of a current range's smoothing, in amperes.
#[tactic(auto, unfolding(crate::specs::Scales::i_win))]
pub(crate) fn i_win(ik: u8) -> f32
    ensures { result ≡ i_win ik }
{
    aca_win(cal_index(ik)) * us(iu_ir(ik).iu)
}

/// The zero of a current range among these, 0 while none is stored. (The mark and the zeros go apart: the corrections
/// hold two tables of zeros, `zx` and `zd`, under one mark, and the caller says which table it reads.)
#[tactic(auto, unfolding(crate::specs::Scales::zero_at))]
pub(crate) fn zero_at(stored: bool, zeros: [i16; 6], ik: u8) -> i16
    ensures { result ≡ zero_at stored zeros ik }
{
    if stored {
        zeros[usize::from(ik.min(5))]
    } else {
        0
    }
}

/// The zero of the LPF's voltage, 0 while none is stored.
#[tactic(auto, unfolding(crate::specs::Scales::zero_y))]
pub fn zero_y(corrections: Corrections) -> i16
    ensures { result ≡ zero_y corrections }
{
    if corrections.zero_ok {
        corrections.zy
    } else {
        0
    }
}

/// A code less its zero, as a float.
#[tactic(auto, unfolding(crate::specs::Scales::code_less))]
pub fn code_less(code: i32, zero: i16) -> f32
    ensures { result ≡ code_less code zero }
{
    numbers::i64_to_f32(i64::from(code) - i64::from(zero))
}

/// The root of the RMS code; one below zero counts as zero.
#[tactic(auto, unfolding(crate::specs::Scales::rms_root))]
pub fn rms_root(rms: i64) -> f32
    ensures { result ≡ rms_root rms }
{
    numbers::sqrt(numbers::i64_to_f32(rms.max(0)))
}
