//! The leaf functions as C functions, built as libleaves.a: only for the programs that compare them
//! with the published Rust (the root with what was decided for dmm.rs) and with the C compiler's
//! arithmetic. A host needs none of them.
#![tactic(auto)]

ghost use Rattle.std.specs.Prelude.{◌≡◌, pos};
ghost use Rattle.std.specs.Float.{binary32, binary64};
ghost use Rattle.std.specs.Float.Ieee.{of_int, to_signed};
ghost use Rattle.numbers.specs.Binary32.{is_finite, abs_of, max_of, signum_of, clamp_of};
ghost use Rattle.numbers.specs.Convert.{narrow};
ghost use Rattle.numbers.specs.Root.{sqrt_of, hypot_of};
ghost use Rattle.codes.specs.Flags.{holds_ad1, holds_rms_lpf};

pub mod figured;
pub mod jobbed;
pub mod measured;
pub mod numbered;
pub mod tabled;
pub mod valued;

#[unsafe(no_mangle)]
pub extern "C" fn leaf_u64_to_f32(n: u64) -> f32
    ensures { result ≡ of_int binary32 (pos n) }
{
    numbers::u64_to_f32(n)
}

#[unsafe(no_mangle)]
pub extern "C" fn leaf_i64_to_f32(n: i64) -> f32
    ensures { result ≡ of_int binary32 n }
{
    numbers::i64_to_f32(n)
}

#[unsafe(no_mangle)]
pub extern "C" fn leaf_f32_to_i64(x: f32) -> i64
    ensures { result ≡ to_signed 63 x }
{
    numbers::f32_to_i64(x)
}

#[unsafe(no_mangle)]
pub extern "C" fn leaf_f32_to_i32(x: f32) -> i32
    ensures { result ≡ to_signed 31 x }
{
    numbers::f32_to_i32(x)
}

#[unsafe(no_mangle)]
pub extern "C" fn leaf_max(a: f32, b: f32) -> f32
    ensures { result ≡ max_of a b }
{
    numbers::max(a, b)
}

#[unsafe(no_mangle)]
pub extern "C" fn leaf_sqrt(x: f32) -> f32
    ensures { result ≡ sqrt_of x }
{
    numbers::sqrt(x)
}

#[unsafe(no_mangle)]
pub extern "C" fn leaf_hypot(a: f32, b: f32) -> f32
    ensures { result ≡ hypot_of a b }
{
    numbers::hypot(a, b)
}

#[unsafe(no_mangle)]
pub extern "C" fn leaf_is_finite(x: f32) -> bool
    ensures { result ≡ is_finite x }
{
    numbers::is_finite(x)
}

#[unsafe(no_mangle)]
pub extern "C" fn leaf_abs(x: f32) -> f32
    ensures { result ≡ abs_of x }
{
    numbers::abs(x)
}

#[unsafe(no_mangle)]
pub extern "C" fn leaf_signum(x: f32) -> f32
    ensures { result ≡ signum_of x }
{
    numbers::signum(x)
}

#[unsafe(no_mangle)]
pub extern "C" fn leaf_clamp(x: f32, lo: f32, hi: f32) -> f32
    ensures { result ≡ clamp_of x lo hi }
{
    numbers::clamp(x, lo, hi)
}

#[unsafe(no_mangle)]
pub extern "C" fn leaf_i64_to_f64(n: i64) -> f64
    ensures { result ≡ of_int binary64 n }
{
    numbers::i64_to_f64(n)
}

#[unsafe(no_mangle)]
pub extern "C" fn leaf_f32_to_i16(x: f32) -> i16
    ensures { result ≡ to_signed 15 x }
{
    numbers::f32_to_i16(x)
}

#[unsafe(no_mangle)]
pub extern "C" fn leaf_f32_to_i8(x: f32) -> i8
    ensures { result ≡ to_signed 7 x }
{
    numbers::f32_to_i8(x)
}

#[unsafe(no_mangle)]
pub extern "C" fn leaf_f64_to_f32(x: f64) -> f32
    ensures { result ≡ narrow x }
{
    numbers::f64_to_f32(x)
}

#[unsafe(no_mangle)]
pub extern "C" fn leaf_f32_to_f64(x: f32) -> f64
    ensures { result ≡ x }
{
    numbers::f32_to_f64(x)
}

#[unsafe(no_mangle)]
pub extern "C" fn leaf_holds_ad1(flags: u8) -> bool
    ensures { result ≡ holds_ad1 flags }
{
    codes::holds_ad1(flags)
}

#[unsafe(no_mangle)]
pub extern "C" fn leaf_holds_rms_lpf(flags: u8) -> bool
    ensures { result ≡ holds_rms_lpf flags }
{
    codes::holds_rms_lpf(flags)
}
