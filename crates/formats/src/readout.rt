//! What is shown of a figure: its number, decimals and unit, or that it is over the range.
ghost use Rattle.std.specs.Prelude.{◌≡◌};
ghost use Rattle.formats.specs.Readout.{tens, no_neg_zero};

use crate::units::Unit;

/// A readout.
// The mark stands beside the number, and no Option round it: document 01 says "A `Val` holds number,
// decimals, unit and over mark; over gives number 0.0".
#[derive(Clone, Copy, Debug, PartialEq)]
pub struct Val {
    pub number: f32,
    pub decimals: u8,
    pub unit: Unit,
    pub over: bool,
}

impl Val {
    ghost use Rattle.formats.specs.Readout.{val_of, over_val};

    /// A number that is not over.
    #[tactic(auto, unfolding(crate::specs::Readout::val_of))]
    pub fn new(number: f32, decimals: u8, unit: Unit) -> Val
        ensures { result ≡ val_of number decimals unit }
    {
        Val {
            number,
            decimals,
            unit,
            over: false,
        }
    }

    /// Over the range: the number is 0.0.
    #[tactic(auto, unfolding(crate::specs::Readout::over_val))]
    pub fn ol(decimals: u8, unit: Unit) -> Val
        ensures { result ≡ over_val decimals unit }
    {
        Val {
            number: 0.0,
            decimals,
            unit,
            over: true,
        }
    }
}

/// Ten to the n by n products, which from 39 on is infinite.
#[tactic(auto, unfolding(crate::specs::Readout::tens))]
pub fn tens(n: u8) -> f32
    ensures { result ≡ tens n }
{
    let mut s = 1.0;
    for _ in 0..n {
        s *= 10.0;
    }
    s
}

/// Plus zero where x times ten to the dec, rounded to binary32, is below 0.5 in size; else x.
#[tactic(auto, unfolding(crate::specs::Readout::no_neg_zero))]
pub fn no_neg_zero(x: f32, dec: u8) -> f32
    ensures { result ≡ no_neg_zero x dec }
{
    if numbers::abs(x * tens(dec)) < 0.5 {
        0.0
    } else {
        x
    }
}
