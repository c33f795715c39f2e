//! The calibration words, what the source reads of them, and the V channel's gain.
ghost use Rattle.std.specs.Prelude.{◌≡◌};
ghost use Rattle.tables.specs.Calibration.{calibration_of, cal, factor, offset};
ghost use Rattle.tables.specs.Gain.{plausible, factory_words, v_gain_factory, v_gain};

use crate::bounds::within;
use refusals::Refusal;

// How many words a calibration has.
const WORDS: usize = 73;

/// 73 words of 32 bits and a valid mark.
// The mark stands beside the words, and no Option round them: a C host keeps this struct.
#[derive(Clone, Copy)]
#[repr(C)]
pub struct Calibration {
    pub words: [u32; WORDS],
    pub valid: bool,
}

impl Calibration {
    /// Zeros with the mark off, which hold no valid word.
    pub const NONE: Calibration = Calibration {
        words: [0; WORDS],
        valid: false,
    };
}

/// No valid word: what stands for the words where they are refused.
impl Default for Calibration {
    ghost use Rattle.tables.specs.Calibration.{no_calibration};

    ghost is_default = { λ calibration. calibration ≡ no_calibration };

    fn default() -> Calibration {
        Calibration::NONE
    }
}

/// The lent words, which are only read, with their mark. Refusal 8 where they are not 73.
#[tactic(auto, unfolding(crate::specs::Calibration::calibration_of))]
pub fn calibration_of(words: &[u32], valid: bool) -> Result<Calibration, Refusal>
    ensures { result ≡ calibration_of words.now valid }
{
    let words = <[u32; WORDS]>::try_from(words).map_err(|_| Refusal::Words)?;
    Ok(Calibration { words, valid })
}

impl Calibration {
    /// The number whose bits stand in the word that has byte `at`, or the default where the mark is off,
    /// where there is no such word, or where the number is not finite or not below 1.0e6 in size. Bits
    /// whose exponent field is all ones are an infinity's or a NaN's, and are not read as a number.
    #[tactic(auto, using(crate::proofs::Words::readable, crate::proofs::Words::unusable, crate::proofs::Words::sized), unfolding(crate::specs::Calibration::cal))]
    pub fn cal(&self, at: u32, default: f32) -> f32
        ensures { result ≡ cal self.now at default }
    {
        let k = (at / 4) as usize;
        if k >= WORDS || !self.valid {
            return default;
        }
        let word = self.words[k];
        if (word >> 23) & 0xFF == 0xFF {
            return default;
        }
        let x = f32::from_bits(word);
        if numbers::abs(x) < 1.0e6 { x } else { default }
    }

    /// A word that the source multiplies or divides by: 1.0 stands for one that is not there.
    #[tactic(auto, unfolding(crate::specs::Calibration::factor))]
    pub fn factor(&self, at: u32) -> f32
        ensures { result ≡ factor self.now at }
    {
        self.cal(at, 1.0)
    }

    /// A word that the source takes away: 0.0 stands for one that is not there.
    #[tactic(auto, unfolding(crate::specs::Calibration::offset))]
    pub fn offset(&self, at: u32) -> f32
        ensures { result ≡ offset self.now at }
    {
        self.cal(at, 0.0)
    }

    // The V channel's gain of range r by the factory's words. Range 0 has no word of its own.
    #[tactic(auto, unfolding(crate::specs::Gain::factory_words))]
    fn factory_words(&self, r: u8) -> f32
        ensures { result ≡ factory_words self.now r }
    {
        if r == 0 {
            return self.factor(0x04) * self.factor(0x38) / self.factor(0x08);
        }
        self.factor(0x34 + 4 * u32::from(r))
    }

    /// The V channel's gain by the factory's words, or 1.0 where that is not plausible. A range above 3
    /// counts as 3.
    #[tactic(auto, unfolding(crate::specs::Gain::v_gain_factory, crate::specs::Bounds::at_most))]
    pub fn v_gain_factory(&self, vr: u8) -> f32
        ensures { result ≡ v_gain_factory self.now vr }
    {
        let g = self.factory_words(vr.min(3));
        if plausible(g) { g } else { 1.0 }
    }

    /// The gain in force for a range: the stored one where it is above zero, else the factory's.
    #[tactic(auto, unfolding(crate::specs::Gain::v_gain, crate::specs::Bounds::at_most))]
    pub fn v_gain(&self, vgain: [f32; 4], vr: u8) -> f32
        ensures { result ≡ v_gain self.now vgain vr }
    {
        let g = vgain[usize::from(vr.min(3))];
        if g > 0.0 { g } else { self.v_gain_factory(vr) }
    }
}

/// Whether a gain lies from 0.9 to 1.1.
#[tactic(auto, unfolding(crate::specs::Gain::plausible))]
pub fn plausible(g: f32) -> bool
    ensures { result ≡ plausible g }
{
    within(0.9, 1.1, g)
}
