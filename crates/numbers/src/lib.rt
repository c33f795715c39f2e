//! Module 1 of document 01, numbers: what the source takes from Rust's f32 and from dmm.rs. Every
//! public function is total, and its contract is one equation with a definition of specs/ or of std's
//! IEEE 754, where one type of values serves both formats. A method or conversion of the library that
//! means the same is the body. The cuts and `f64_to_f32` shift a float's bits there, and `abs` masks
//! them here; `max` and `clamp` compare; `is_finite` tests whether x - x is zero.
#![tactic(auto)]

ghost use Rattle.std.specs.Prelude.{◌≡◌, ◌^◌, ◌<◌, ◌≤◌, pos};
ghost use Rattle.std.specs.Float.{binary32, binary64};
ghost use Rattle.std.specs.Float.Ieee.{of_int, to_signed};
ghost use Rattle.numbers.specs.Binary32.{is_finite, abs_of, max_of, signum_of, clamp_of};
ghost use Rattle.numbers.specs.Convert.{rounded_quotient, narrow, half_away};
ghost use Rattle.numbers.specs.Root.{heron, sqrt_of, hypot_of};

// ---- Rust's methods of f32

/// No NaN and no infinity.
#[tactic(auto, using(crate::proofs::Methods::finite_is))]
pub fn is_finite(x: f32) -> bool
    ensures { result ≡ is_finite x }
{
    x.is_finite()
}

/// The size of x with a plus sign; a NaN stays a NaN. (By a mask, with one comparison, where the
/// library's `abs` makes two.)
#[tactic(auto, using(crate::proofs::Pattern::abs_of_nan, crate::proofs::Pattern::abs_defined, crate::proofs::Pattern::abs_at))]
pub fn abs(x: f32) -> f32
    ensures { result ≡ abs_of x }
{
    if x.is_nan() {
        return x;
    }
    f32::from_bits(x.to_bits() & 0x7fff_ffff)
}

/// The larger; of a NaN and a number the number; of two NaNs a NaN; of two zeros of unlike sign plus
/// zero.
#[tactic(auto, using(crate::proofs::Methods::equal_number, crate::proofs::Methods::minus_is, crate::proofs::Methods::max_of_equals, crate::proofs::Methods::max_is))]
pub fn max(a: f32, b: f32) -> f32
    ensures { result ≡ max_of a b }
{
    if a == b {
        // of two zeros the method may answer either
        if a.is_sign_negative() { b } else { a }
    } else {
        a.max(b)
    }
}

/// 1.0 or minus 1.0 by the sign, of a zero too; a NaN stays.
#[tactic(auto, using(crate::proofs::Methods::signum_is))]
pub fn signum(x: f32) -> f32
    ensures { result ≡ signum_of x }
{
    x.signum()
}

/// x held to lo..hi; a NaN stays. Where hi is below lo, what is below lo gives lo: the method
/// `clamp` asks for lo <= hi.
#[tactic(auto, unfolding(crate::specs::Binary32::clamp_of))]
pub fn clamp(x: f32, lo: f32, hi: f32) -> f32
    ensures { result ≡ clamp_of x lo hi }
{
    if x < lo {
        lo
    } else if x > hi {
        hi
    } else {
        x
    }
}

// ---- whole numbers to floats

// n / u to the nearest whole number, a tie to the even one.
#[tactic(auto, using(crate::proofs::Quotient::twice_fits, crate::proofs::Quotient::next_fits, crate::proofs::Quotient::below, crate::proofs::Quotient::above, crate::proofs::Quotient::even))]
fn rounded_quotient(n: u64, u: u64) -> u64
    requires { (0 < u) × (u ≤ 2 ^ 63) }
    ensures { result ≡ rounded_quotient n u }
{
    let q = n / u;
    let r = n % u * 2;
    if r < u {
        return q;
    }
    if r > u {
        return q + 1;
    }
    q + q % 2
}

/// Rust's n as f32. The leading zeros tell how many digits n has, and so the exponent: up to 24
/// digits are moved up until the first stands in front; of more, the lowest k are rounded away.
/// (Document 01 asks for the leading zeros, so it is not the library's `nearest_u64_to_f32`.)
#[tactic(auto, using(crate::proofs::Whole::zero_is, crate::proofs::Whole::zeros_le, crate::proofs::Whole::short_lt, crate::proofs::Whole::short_is, crate::proofs::Whole::unit_ok, crate::proofs::Whole::long_le, crate::proofs::Whole::long_is, std::proofs::lemmas::Float::not_nan_f32_bits))]
pub fn u64_to_f32(n: u64) -> f32
    ensures { result ≡ of_int binary32 (pos n) }
{
    if n == 0 {
        return 0.0;
    }
    let z = n.leading_zeros();
    if z >= 40 {
        let s = z - 40;
        return f32::from_bits((149 - s) * 8388608 + ((n << s) as u32));
    }
    let k = 40 - z;
    let m = rounded_quotient(n, 1u64 << k);
    f32::from_bits((149 + k) * 8388608 + (m as u32))
}

/// Rust's n as f32: the size is rounded, and the sign put on after.
#[tactic(auto, using(crate::proofs::Whole::minus_size))]
pub fn i64_to_f32(n: i64) -> f32
    ensures { result ≡ of_int binary32 n }
{
    let size = u64_to_f32(n.unsigned_abs());
    if n < 0 { -size } else { size }
}

/// Rust's n as f64.
pub fn i64_to_f64(n: i64) -> f64
    ensures { result ≡ of_int binary64 n }
{
    std::num::nearest_i64_to_f64(n)
}

// ---- cutting: toward zero, held to the range, 0 for a NaN. One function for each integer, as the
// library has: by `as` a float that loses something cannot be cast.

/// Rust's x as i64. (The library's tests x as an f64, so that a caller's tests of x are made again.)
#[tactic(auto, using(crate::proofs::Ends::cut_past, crate::proofs::Ends::cut_nan, crate::proofs::Ends::cut_short, crate::proofs::Ends::cut_above, crate::proofs::Ends::cut_below))]
pub fn f32_to_i64(x: f32) -> i64
    ensures { result ≡ to_signed 63 x }
{
    if x >= 9223372036854775808.0 {
        i64::MAX
    } else if x >= -9223372036854775808.0 {
        std::num::truncating_f32_to_i64(x)
    } else if x.is_nan() {
        0
    } else {
        i64::MIN
    }
}

/// Rust's x as i32.
pub fn f32_to_i32(x: f32) -> i32
    ensures { result ≡ to_signed 31 x }
{
    std::num::saturating_f32_to_i32(x)
}

/// Rust's x as i16; so is the source's cut to an i32 that is then held to 16 bits.
pub fn f32_to_i16(x: f32) -> i16
    ensures { result ≡ to_signed 15 x }
{
    std::num::saturating_f32_to_i16(x)
}

/// Rust's x as i8.
pub fn f32_to_i8(x: f32) -> i8
    ensures { result ≡ to_signed 7 x }
{
    std::num::saturating_f32_to_i8(x)
}

/// Half further from zero: cut, it is a rounded half away from zero.
#[tactic(auto, unfolding(crate::specs::Convert::half_away))]
pub fn half_away(a: f32) -> f32
    ensures { result ≡ half_away a }
{
    if a < 0.0 { a - 0.5 } else { a + 0.5 }
}

// ---- between the formats

/// Rust's x as f32.
#[tactic(auto, using(crate::proofs::Methods::narrow_is))]
pub fn f64_to_f32(x: f64) -> f32
    ensures { result ≡ narrow x }
{
    std::num::nearest_f64_to_f32_with_nan(x)
}

/// Rust's x as f64, which holds every f32.
pub fn f32_to_f64(x: f32) -> f64
    ensures { result ≡ x }
{
    std::num::f32_to_f64_with_nan(x)
}

// ---- the root and `hypot`, as decided for dmm.rs, which is not at hand

// One step of Heron's iteration toward the root of x.
fn heron_step(x: f32, y: f32) -> f32
    ensures { result ≡ heron x y }
{
    0.5 * (y + x / y)
}

/// Not IEEE 754's square root: four steps from a seed. Zero and below give plus zero; of infinity it
/// is a NaN. Of a subnormal x four steps do not reach the root.
#[tactic(auto, using(crate::proofs::Root::the_nan, crate::proofs::Root::seed_fits, crate::proofs::Root::seed_defined), unfolding(crate::specs::Root::sqrt_of))]
pub fn sqrt(x: f32) -> f32
    ensures { result ≡ sqrt_of x }
{
    if x <= 0.0 {
        return 0.0;
    }
    if x.is_nan() {
        return x;
    }
    let y0 = f32::from_bits((x.to_bits() >> 1) + 0x1fc0_0000);
    let y1 = heron_step(x, y0);
    let y2 = heron_step(x, y1);
    let y3 = heron_step(x, y2);
    heron_step(x, y3)
}

/// The root of a * a + b * b.
#[tactic(auto, unfolding(crate::specs::Root::hypot_of))]
pub fn hypot(a: f32, b: f32) -> f32
    ensures { result ≡ hypot_of a b }
{
    sqrt(a * a + b * b)
}
