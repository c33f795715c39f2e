//! The figures of the load: power, apparent, reactive, factor, volts and amperes.
ghost use Rattle.std.specs.Prelude.{◌≡◌};
ghost use Rattle.figures.specs.Load.{load_volts, power_factor, reactive, totals};

/// W, VA, var, the power factor, V and A.
#[derive(Clone, Copy)]
#[repr(C)]
pub struct Figures {
    pub p: f32,
    pub s: f32,
    pub q: f32,
    pub pf: f32,
    pub v: f32,
    pub i: f32,
}

/// The volts at the load: v_m and p_m are measured in front of the resistance r, where i flows. A
/// square below zero, or a NaN, counts as zero; of an infinite one the root is a NaN.
#[tactic(auto, unfolding(crate::specs::Load::load_volts))]
pub fn load_volts(v_m: f32, p_m: f32, i: f32, r: f32) -> f32
    ensures { result ≡ load_volts v_m p_m i r }
{
    let v2 = v_m * v_m - 2.0 * r * p_m + r * r * i * i;
    numbers::sqrt(numbers::max(v2, 0.0))
}

// p / s, held to -1 to 1, where a NaN stays; 0 where s is not above zero.
#[tactic(auto, unfolding(crate::specs::Load::power_factor))]
fn power_factor(p: f32, s: f32) -> f32
    ensures { result ≡ power_factor p s }
{
    if s > 0.0 {
        numbers::clamp(p / s, -1.0, 1.0)
    } else {
        0.0
    }
}

// The root of s * s - p * p: zero of a difference below zero and of a NaN, a NaN of infinity.
#[tactic(auto, unfolding(crate::specs::Load::reactive))]
fn reactive_power(p: f32, s: f32) -> f32
    ensures { result ≡ reactive p s }
{
    numbers::sqrt(numbers::max(s * s - p * p, 0.0))
}

/// The source's `totals`, for every six floats.
#[tactic(auto, unfolding(crate::specs::Load::totals))]
pub fn totals(p_ac: f32, v_ac: f32, v_dc: f32, i_ac: f32, i_dc: f32, r: f32) -> Figures
    ensures { result ≡ totals p_ac v_ac v_dc i_ac i_dc r }
{
    let p_m = p_ac + v_dc * i_dc;
    let v_m = numbers::hypot(v_ac, v_dc);
    let i = numbers::hypot(i_ac, i_dc);
    let p = p_m - i * i * r;
    let v = load_volts(v_m, p_m, i, r);
    let s = v * i;
    let pf = power_factor(p, s);
    let q = reactive_power(p, s);
    Figures { p, s, q, pf, v, i }
}
