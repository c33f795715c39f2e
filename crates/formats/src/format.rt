//! `energy_format` and `p_format` of the source.
ghost use Rattle.std.specs.Prelude.{◌≡◌};
ghost use Rattle.formats.specs.Formats.{decimals_of, energy_format, p_format};

use crate::readout::{Val, no_neg_zero};
use crate::units::Unit;

/// A figure in its unit, and how many of its decimals are shown.
#[derive(Clone, Copy)]
pub struct Format {
    pub number: f32,
    pub decimals: u8,
    pub unit: Unit,
}

impl Format {
    ghost use Rattle.formats.specs.Formats.{scaled, range_format};
    ghost use Rattle.formats.specs.Readout.{shown, shown_unless};

    // k times a figure, with the decimals that its size gives.
    #[tactic(auto, unfolding(crate::specs::Formats::scaled))]
    fn scaled(x: f32, k: f32, unit: Unit) -> Format
        ensures { result ≡ scaled x k unit }
    {
        let number = x * k;
        let decimals = decimals_of(numbers::abs(number));
        Format {
            number,
            decimals,
            unit,
        }
    }

    // k times a figure, with the decimals that k times the full scale fs, and a twentieth more, gives.
    #[tactic(auto, unfolding(crate::specs::Formats::range_format))]
    fn in_range(fs: f32, si: f32, k: f32, unit: Unit) -> Format
        ensures { result ≡ range_format fs si k unit }
    {
        let decimals = decimals_of(fs * k * 1.05);
        Format {
            number: si * k,
            decimals,
            unit,
        }
    }

    /// The figure as it is shown.
    #[tactic(auto, unfolding(crate::specs::Readout::shown))]
    pub fn shown(self) -> Val
        ensures { result ≡ shown self }
    {
        Val::new(
            no_neg_zero(self.number, self.decimals),
            self.decimals,
            self.unit,
        )
    }

    /// The same, or over where the mark is set: a C host reads that mark of the values.
    #[tactic(auto, unfolding(crate::specs::Readout::shown_unless))]
    pub fn shown_unless(self, over: bool) -> Val
        ensures { result ≡ shown_unless over self }
    {
        if over {
            Val::ol(self.decimals, self.unit)
        } else {
            self.shown()
        }
    }
}

// 4 decimals below 10, 3 below 100, 2 below 1000, else 1, for a NaN too.
#[tactic(auto, unfolding(crate::specs::Formats::decimals_of))]
fn decimals_of(a: f32) -> u8
    ensures { result ≡ decimals_of a }
{
    if a < 10.0 {
        4
    } else if a < 100.0 {
        3
    } else if a < 1000.0 {
        2
    } else {
        1
    }
}

// `va` and `watts` stay marks, with `fs` and `si` beside them: the source's parameters, which the definitions and C name so.

/// The source's `energy_format`: an apparent energy where `va`, else an active one.
#[tactic(auto, unfolding(crate::specs::Formats::energy_format, crate::specs::Formats::energy_at))]
pub fn energy_format(wh: f32, va: bool) -> Format
    ensures { result ≡ energy_format wh va }
{
    let m = numbers::abs(wh);
    if m < 1.0 && !va {
        Format::scaled(wh, 1e3, Unit::MilliwattHour)
    } else if m < 1000.0 || (va && m < 100_000.0) {
        let unit = if va {
            Unit::VoltAmpereHour
        } else {
            Unit::WattHour
        };
        Format::scaled(wh, 1.0, unit)
    } else {
        let unit = if va {
            Unit::KilovoltAmpereHour
        } else {
            Unit::KilowattHour
        };
        Format::scaled(wh, 1e-3, unit)
    }
}

/// The source's `p_format`: a power of si W or VA, in a pair of ranges of fs W or VA full scale.
#[tactic(auto, unfolding(crate::specs::Formats::p_format))]
pub fn p_format(fs: f32, si: f32, watts: bool) -> Format
    ensures { result ≡ p_format fs si watts }
{
    if fs >= 9000.0 {
        let unit = if watts {
            Unit::Kilowatt
        } else {
            Unit::KilovoltAmpere
        };
        Format {
            number: si * 1e-3,
            decimals: 3,
            unit,
        }
    } else if fs < 1.0 {
        let unit = if watts {
            Unit::Milliwatt
        } else {
            Unit::MillivoltAmpere
        };
        Format::in_range(fs, si, 1e3, unit)
    } else {
        let unit = if watts { Unit::Watt } else { Unit::VoltAmpere };
        Format::in_range(fs, si, 1.0, unit)
    }
}
