//! A meter is made of a description and calibration words.
ghost use Rattle.std.specs.Prelude.{◌≡◌};
ghost use Rattle.meter.specs.Making.{plain_description, plain_meter, make};

use refusals::Refusal;
use state::Pw;
use tables::calibration::{Calibration, calibration_of};
use tables::description::{Description, check_description};

/// Six numbers of 1.0, and `a_auto` no: `pwline`'s description.
pub fn plain_description() -> Description
    ensures { result ≡ plain_description }
{
    Description::PLAIN
}

/// A meter of that description, just made and so off, with no valid calibration word.
pub fn plain_meter() -> Pw
    ensures { result ≡ plain_meter }
{
    Pw::new(plain_description(), Calibration::NONE)
}

/// The meter; or refusal 7 or 8, and none. The description is tested before the words, which are lent and only read.
/// (Three parameters: a C host hands them in so, in the arguments of `pw_make`.)
#[tactic(auto, unfolding(crate::specs::Making::make))]
pub fn make(description: Description, words: &[u32], valid: bool) -> Result<Pw, Refusal>
    ensures { result ≡ make description words.now valid }
{
    check_description(description)?;
    let calibration = calibration_of(words, valid)?;
    Ok(Pw::new(description, calibration))
}
