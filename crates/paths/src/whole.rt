//! The parts of a whole meter that the path of a frame outside a job reads, and those that it may change.
ghost use Rattle.std.specs.Prelude.{◌≡◌};
ghost use Rattle.paths.specs.Whole.{setup_in, measuring_in, with_measuring};

use crate::measuring::{Measuring, Setup};
use state::{Pw, Ring};
use takes::scales::Instrument;

// The meter goes by value here, as everywhere: document 01 has the state go so.

/// What a path reads and never changes: the description, the calibration words and the corrections, which readings are
/// worked out with, and the mode.
impl From<Pw> for Setup {
    ghost from_gives = { λ pw setup. setup ≡ setup_in pw };

    #[tactic(auto, unfolding(crate::specs::Whole::setup_in, crate::specs::Whole::instrument_in))]
    fn from(pw: Pw) -> Setup {
        Setup {
            with: Instrument {
                description: pw.description,
                calibration: pw.calibration,
                corrections: pw.corrections,
            },
            mode: pw.mode,
        }
    }
}

/// What a path may change.
impl From<Pw> for Measuring {
    ghost from_gives = { λ pw measuring. measuring ≡ measuring_in pw };

    #[tactic(auto, unfolding(crate::specs::Whole::measuring_in))]
    fn from(pw: Pw) -> Measuring {
        Measuring {
            ranges: pw.ranges,
            barred: pw.barred,
            cycle: pw.cycle,
            parts: pw.parts,
            phase_cal: pw.phase_cal,
            comparator: pw.comparator,
        }
    }
}

// Field by field: the meter has no `Measuring` in it, since a C host keeps it in the source's groups of fields.
/// The meter with what a path has changed, and with the ring; all else stays.
#[tactic(auto, unfolding(crate::specs::Whole::with_measuring))]
pub fn with_measuring(before: Pw, measuring: Measuring, ring: Ring) -> Pw
    ensures { result ≡ with_measuring before measuring ring }
{
    Pw {
        ranges: measuring.ranges,
        barred: measuring.barred,
        cycle: measuring.cycle,
        parts: measuring.parts,
        phase_cal: measuring.phase_cal,
        comparator: measuring.comparator,
        ring,
        ..before
    }
}
