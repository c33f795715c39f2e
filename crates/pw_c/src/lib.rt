//! The C interface, built as libpw.a: include/pw.h describes each function. Each is that of crates/pw, under its C name.
//! C links a function by its name: so there is one export for each, of one shape.
#![tactic(auto)]

ghost use Rattle.std.specs.Prelude.{◌≡◌};
ghost use Rattle.refusals.specs.Number.{told_number};
ghost use Rattle.codes.specs.Frame.{decoded};
ghost use Rattle.tables.specs.Window.{cmp_window};
ghost use Rattle.tables.specs.Ranges.{r36_of};
ghost use Rattle.tables.specs.Row.{row_kind, row_number};
ghost use Rattle.figures.specs.Exact.{ExactAfter};
ghost use Rattle.figures.specs.Acc.{fresh_acc, add_to, added_acc, watt_hours};
ghost use Rattle.formats.specs.Formats.{energy_format, p_format};
ghost use Rattle.pw.specs.Host.{frame_codes, host_window, host_format};

pub mod calls;
pub mod shown;

use figures::acc::Acc;
use pw::{FrameCodes, HostFormat, HostWindow};

/// The codes of the frame in the host's bytes, which are read and not written.
#[unsafe(no_mangle)]
pub extern "C" fn pw_decode(bytes: &[u8]) -> FrameCodes
    ensures { result ≡ frame_codes (decoded bytes.now) }
{
    pw::pw_decode(bytes)
}

/// The comparator's window for a middle of c volts and a swing of a volts.
#[unsafe(no_mangle)]
pub extern "C" fn pw_cmp_window(c: f32, a: f32) -> HostWindow
    ensures { result ≡ host_window (cmp_window c a) }
{
    pw::pw_cmp_window(c, a)
}

/// The number of the kind of row that the host writes at a mark.
#[unsafe(no_mangle)]
pub extern "C" fn pw_row_kind(alt: bool, dc: bool, job: u8, step: u8, job_dc: bool, phase: u8) -> u8
    ensures { result ≡ row_number (row_kind alt dc job step job_dc phase) }
{
    pw::pw_row_kind(alt, dc, job, step, job_dc, phase)
}

/// R36 of a signed number of phase steps.
#[unsafe(no_mangle)]
pub extern "C" fn pw_r36_of(steps: i8) -> u8
    ensures { result ≡ r36_of steps }
{
    pw::pw_r36_of(steps)
}

/// An accumulator that nothing was added to: `Acc::ZERO`.
#[unsafe(no_mangle)]
pub extern "C" fn pw_acc_fresh() -> Acc
    ensures { result ≡ fresh_acc }
{
    pw::pw_acc_fresh()
}

/// Adds to the host's own accumulator, and answers 0; or 6, full, and it is as it was.
#[unsafe(no_mangle)]
pub extern "C" fn pw_acc_add(acc: &mut Acc, joules: f32) -> u8
    ensures { (result ≡ told_number (add_to acc.old joules)) × (acc.new ≡ added_acc acc.old (add_to acc.old joules)) × ExactAfter acc.old joules result acc.new }
{
    pw::pw_acc_add(acc, joules)
}

/// The watt hours of an accumulator.
#[unsafe(no_mangle)]
pub extern "C" fn pw_acc_wh(acc: Acc) -> f32
    ensures { result ≡ watt_hours acc }
{
    pw::pw_acc_wh(acc)
}

/// `energy_format`: the apparent energy where `va`, else the active one.
#[unsafe(no_mangle)]
pub extern "C" fn pw_energy_format(wh: f32, va: bool) -> HostFormat
    ensures { result ≡ host_format (energy_format wh va) }
{
    pw::pw_energy_format(wh, va)
}

/// `p_format`: a power of si W or VA, in a pair of ranges of fs W or VA full scale.
#[unsafe(no_mangle)]
pub extern "C" fn pw_p_format(fs: f32, si: f32, watts: bool) -> HostFormat
    ensures { result ≡ host_format (p_format fs si watts) }
{
    pw::pw_p_format(fs, si, watts)
}
