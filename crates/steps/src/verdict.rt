//! What a step's means come to.
ghost use Rattle.std.specs.Prelude.{◌≡◌};
ghost use Rattle.steps.specs.Verdict.{zero_mean, is_dc, part, vcal_max, raw_verdict, rounds_differ, ratio_verdict, gain_verdict};

use crate::error::JobError;
use std::f32::consts::SQRT_2;
use tables::calibration::plausible;
use tables::constants::{VCAL_MAX_AC, VCAL_MAX_DC, VCAL_MIN, VCAL_PEAK_MAX, VCAL_SPREAD};
use tables::lookups::v_lim;

/// A step's two means: a of the main values, b of the second ones.
#[derive(Clone, Copy, Debug, PartialEq)]
pub struct Means {
    pub a: f32,
    pub b: f32,
}

/// The zero of a mean: rounded half away from zero, held to 16 bits.
#[tactic(auto, unfolding(crate::specs::Verdict::zero_mean))]
pub fn zero_mean(mean: f32) -> i16
    ensures { result ≡ zero_mean mean }
{
    numbers::f32_to_i16(numbers::half_away(mean))
}

// The kind of voltage is the mark `job_dc`, which a C host keeps: for an enum in its place `vcal_max`, `part`
// and `raw_verdict` would need it made of the mark, and the mark made of it, at each raw step.

// How much of the range the part that counts may fill.
fn vcal_max(dc: bool) -> f32
    ensures { result ≡ vcal_max dc }
{
    if dc { VCAL_MAX_DC } else { VCAL_MAX_AC }
}

impl Means {
    /// Whether the voltage is DC, by the AC mean a and the DC mean b of step 0.
    #[tactic(auto, unfolding(crate::specs::Verdict::is_dc))]
    pub fn is_dc(self) -> bool
        ensures { result ≡ is_dc self.a self.b }
    {
        numbers::abs(self.b) > self.a
    }

    /// The part that counts, DC or AC.
    pub fn part(self, dc: bool) -> f32
        ensures { result ≡ part dc self.a self.b }
    {
        if dc { self.b } else { self.a }
    }

    /// The verdict on the means of a raw step in the V range `vr`: small is tested before big.
    #[tactic(auto, unfolding(crate::specs::Verdict::raw_verdict))]
    pub fn raw_verdict(self, dc: bool, vr: u8) -> Result<(), JobError>
        ensures { result ≡ raw_verdict dc vr self.a self.b }
    {
        let lim = v_lim(vr);
        let m = numbers::abs(self.part(dc));
        let peak = numbers::abs(self.b) + SQRT_2 * numbers::abs(self.a);
        if m < VCAL_MIN * lim {
            return Err(JobError::Small);
        }
        if m > vcal_max(dc) * lim || peak > VCAL_PEAK_MAX * lim {
            return Err(JobError::Big);
        }
        Ok(())
    }
}

// Whether the two rounds differ, by their ratios r0 and r1, the half sum g of these, which must be
// finite, and whether the raw means are steady.
#[tactic(auto, unfolding(crate::specs::Verdict::rounds_differ))]
fn rounds_differ(r0: f32, r1: f32, g: f32, steady: bool) -> bool
    ensures { result ≡ rounds_differ r0 r1 g steady }
{
    !numbers::is_finite(g) || numbers::abs(r0 - r1) > VCAL_SPREAD * numbers::abs(g) || !steady
}

// The verdict on the same: unstable is tested before the gain's bounds.
#[tactic(auto, unfolding(crate::specs::Verdict::ratio_verdict))]
fn ratio_verdict(r0: f32, r1: f32, g: f32, steady: bool) -> Result<f32, JobError>
    ensures { result ≡ ratio_verdict r0 r1 g steady }
{
    if rounds_differ(r0, r1, g, steady) {
        return Err(JobError::Unstable);
    }
    if plausible(g) {
        Ok(g)
    } else {
        Err(JobError::Range)
    }
}

/// The gain to store, or the verdict against it, by the raw means and the references of both rounds.
#[tactic(auto, unfolding(crate::specs::Verdict::gain_verdict))]
pub fn gain_verdict(raw0: f32, ref0: f32, raw1: f32, ref1: f32) -> Result<f32, JobError>
    ensures { result ≡ gain_verdict raw0 ref0 raw1 ref1 }
{
    let r0 = ref0 / raw0;
    let r1 = ref1 / raw1;
    let g = 0.5 * (r0 + r1);
    let steady = numbers::abs(raw0 - raw1) <= VCAL_SPREAD * numbers::abs(raw0);
    ratio_verdict(r0, r1, g, steady)
}
