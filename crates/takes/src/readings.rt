//! What a conversion's codes say before any smoothing, in V, A and W, each in the source's order of
//! operations.
ghost use Rattle.std.specs.Prelude.{◌≡◌};
ghost use Rattle.takes.specs.Scales.{zero_y, gain};
ghost use Rattle.takes.specs.Readings.{ac_volts, dc_volts, power, ac_amps, dc_amps, alt_volts, alt_amps, alt_dc_amps, ad1_offset, ad1_amps};

use crate::scales::{Instrument, code_less, us, zero_at, zero_y};
use state::Ranges;
use tables::constants::CODE;
use tables::decided::AD1_DIV;
use tables::lookups::k_acv;
use tables::ranges::{cal_index, iu_ir};

impl Instrument {
    /// AC volts of the RMS root.
    #[tactic(auto, unfolding(crate::specs::Readings::ac_volts))]
    pub(crate) fn ac_volts(&self, vr: u8, root: f32) -> f32
        ensures { result ≡ ac_volts root vr (gain self.now vr) }
    {
        root * self.v_scale(vr)
    }

    /// DC volts of the LPF code.
    #[tactic(auto, unfolding(crate::specs::Readings::dc_volts))]
    pub(crate) fn dc_volts(&self, vr: u8, lpf: i32) -> f32
        ensures { result ≡ dc_volts lpf (zero_y self.now.corrections) vr (gain self.now vr) }
    {
        code_less(lpf, zero_y(self.corrections)) * self.v_scale(vr)
    }

    /// Watts of the RMS code of X * Y.
    #[tactic(auto, unfolding(crate::specs::Readings::power))]
    pub(crate) fn power(&self, ranges: Ranges, rms: i64) -> f32
        ensures { result ≡ power self.now ranges rms }
    {
        numbers::i64_to_f32(rms)
            * self.i_scale(ranges.ik)
            * self.g_i(ranges.ik)
            * self.v_scale(ranges.vr)
    }

    /// AC amperes of the RMS root.
    #[tactic(auto, unfolding(crate::specs::Readings::ac_amps))]
    pub(crate) fn ac_amps(&self, ik: u8, root: f32) -> f32
        ensures { result ≡ ac_amps self.now.description self.now.calibration ik root }
    {
        root * self.i_scale(ik) * self.g_i(ik)
    }

    /// DC amperes of the LPF code.
    #[tactic(auto, unfolding(crate::specs::Readings::dc_amps))]
    pub(crate) fn dc_amps(&self, ik: u8, lpf: i32) -> f32
        ensures { result ≡ dc_amps self.now ik lpf }
    {
        let zero = zero_at(self.corrections.zero_ok, self.corrections.zx, ik);
        code_less(lpf, zero) * self.i_scale(ik) * self.g_il(ik)
    }

    /// AC volts of the RMS root in the alternating method.
    #[tactic(auto, unfolding(crate::specs::Readings::alt_volts))]
    pub(crate) fn alt_volts(&self, vr: u8, root: f32) -> f32
        ensures { result ≡ alt_volts self.now.calibration vr root }
    {
        let k = u32::from(vr.min(3));
        let g = self.calibration.factor(0x34 + 4 * k);
        let off = self.calibration.offset(0x44 + 4 * k);
        numbers::max(root * (k_acv(vr) * CODE) * g - off, 0.0)
    }

    /// AC amperes of the RMS root in the alternating method.
    #[tactic(auto, unfolding(crate::specs::Readings::alt_amps))]
    pub(crate) fn alt_amps(&self, ik: u8, root: f32) -> f32
        ensures { result ≡ alt_amps self.now.description self.now.calibration ik root }
    {
        let off = self.calibration.offset(0xDC + 4 * u32::from(cal_index(ik)));
        numbers::max(self.ac_amps(ik, root) - off * us(iu_ir(ik).iu), 0.0)
    }

    /// DC amperes of the LPF code in the alternating method: no zero is taken off.
    #[tactic(auto, unfolding(crate::specs::Readings::alt_dc_amps))]
    pub(crate) fn alt_dc_amps(&self, ik: u8, lpf: i32) -> f32
        ensures { result ≡ alt_dc_amps self.now.description self.now.calibration ik lpf }
    {
        let ci = u32::from(cal_index(ik));
        let g = self.calibration.factor(0xF4 + 4 * ci);
        let off = self.calibration.offset(0x10C + 4 * ci);
        code_less(lpf, 0) * self.i_scale(ik) * g - off * us(iu_ir(ik).iu)
    }

    // The factory's offset of AD1, which counts only while no zero is stored.
    #[tactic(auto, unfolding(crate::specs::Readings::ad1_offset))]
    fn ad1_offset(&self, ik: u8) -> f32
        ensures { result ≡ ad1_offset self.now.calibration self.now.corrections.zero_ok ik }
    {
        if self.corrections.zero_ok {
            0.0
        } else {
            self.calibration.offset(0xAC + 4 * u32::from(cal_index(ik)))
        }
    }

    /// DC amperes of the AD1 code. Here the description's `SHUNT` counts.
    #[tactic(auto, unfolding(crate::specs::Readings::ad1_amps))]
    pub(crate) fn ad1_amps(&self, ik: u8, ad1: i32) -> f32
        ensures { result ≡ ad1_amps self.now ik ad1 }
    {
        let code = code_less(
            ad1,
            zero_at(self.corrections.zero_ok, self.corrections.zd, ik),
        );
        let volts = self.shunt(ik) * self.mv_div(ik) * 0.9;
        let g = self.calibration.factor(0x94 + 4 * u32::from(cal_index(ik)));
        (code * 1.25 / volts / AD1_DIV * g - self.ad1_offset(ik)) * us(iu_ir(ik).iu)
    }
}
