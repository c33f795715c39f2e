//! The kind of row that the host writes to the chip at a mark. The rows' bytes are not in the text.
ghost use Rattle.std.specs.Prelude.{◌≡◌};
ghost use Rattle.tables.specs.Row.{is_dc, is_reference, row_kind, row_number};

use crate::constants::{JOB_VCAL, JOB_ZERO};

/// The kind of a row, with the number by which the host knows it.
#[derive(Clone, Copy, Debug, PartialEq, Eq)]
pub enum RowKind {
    /// the simultaneous method's, with R34 from `stat`
    Power = 0,
    /// current on AD1 and voltage on LPF at the same time
    Dc = 1,
    /// the alternating method's V phase
    AltV = 2,
    /// its I phase
    AltI = 3,
    /// the gain job's reference, a DC voltage
    DcReference = 4,
    /// the gain job's reference, an AC voltage
    AcReference = 5,
}

impl From<RowKind> for u8 {
    ghost from_gives = { λ kind n. n ≡ row_number kind };

    fn from(kind: RowKind) -> u8 {
        kind as u8
    }
}

// Whether the row is the DC one: in DC coupling outside a job, and in steps 6 to 11 of a zero job.
// The job is a number and no enum: a C host keeps it in the meter's state.
#[tactic(auto, unfolding(crate::specs::Row::is_dc))]
fn is_dc(dc: bool, job: u8, step: u8) -> bool
    ensures { result ≡ is_dc dc job step }
{
    match job {
        0 => dc,
        JOB_ZERO => (6..12).contains(&step),
        _ => false,
    }
}

// Whether the row is a reference's: in the odd steps of a gain job.
#[tactic(auto, unfolding(crate::specs::Row::is_reference))]
fn is_reference(job: u8, step: u8) -> bool
    ensures { result ≡ is_reference job step }
{
    job == JOB_VCAL && step % 2 == 1
}

/// Of the method (`alt`), the coupling in force (`dc`), the job and its step, the reference's kind
/// (`job_dc`) and the phase.
// Six parameters and no struct of them: the exported `pw_row_kind` hands them on one by one, as C calls it.
#[tactic(auto, unfolding(crate::specs::Row::row_kind))]
pub fn row_kind(alt: bool, dc: bool, job: u8, step: u8, job_dc: bool, phase: u8) -> RowKind
    ensures { result ≡ row_kind alt dc job step job_dc phase }
{
    if is_reference(job, step) {
        if job_dc {
            RowKind::DcReference
        } else {
            RowKind::AcReference
        }
    } else if is_dc(dc, job, step) {
        RowKind::Dc
    } else if alt {
        if phase % 2 == 0 {
            RowKind::AltV
        } else {
            RowKind::AltI
        }
    } else {
        RowKind::Power
    }
}
