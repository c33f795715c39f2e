//! The leaf functions of module 6 that libpw.a does not have.
ghost use Rattle.std.specs.Prelude.{◌≡◌};
ghost use Rattle.formats.specs.Readout.{no_neg_zero};
ghost use Rattle.values.specs.PowerVals.{zero_vals};

use values::power_vals::PowerVals;

#[unsafe(no_mangle)]
pub extern "C" fn leaf_no_neg_zero(x: f32, dec: u8) -> f32
    ensures { result ≡ no_neg_zero x dec }
{
    formats::readout::no_neg_zero(x, dec)
}

#[unsafe(no_mangle)]
pub extern "C" fn leaf_zero_vals() -> PowerVals
    ensures { result ≡ zero_vals }
{
    PowerVals::default()
}
