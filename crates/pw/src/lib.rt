//! The functions of the C interface, which crates/pw_c exports: include/pw.h describes each. C calls one function for
//! each thing, by its name: so some have one shape. It has no `Result` and no `Option`: so the refusal by its number and
//! the mark `found` stand beside the values. The unit goes by number too, and the two formats are asked for with the
//! marks of the source, `va` and `watts`.
#![tactic(auto)]

ghost use Rattle.std.specs.Prelude.{◌≡◌};
ghost use Rattle.refusals.specs.Number.{told_number};
ghost use Rattle.codes.specs.Frame.{decoded};
ghost use Rattle.tables.specs.Window.{cmp_window};
ghost use Rattle.tables.specs.Ranges.{r36_of};
ghost use Rattle.tables.specs.Row.{row_kind, row_number};
ghost use Rattle.figures.specs.Exact.{ExactAfter};
ghost use Rattle.figures.specs.Acc.{fresh_acc, add_to, added_acc, watt_hours};
ghost use Rattle.formats.specs.Formats.{energy_format, p_format};
ghost use Rattle.pw.specs.Host.{frame_codes, host_window, host_format};

pub mod calls;
pub mod shown;

use codes::Codes;
use figures::acc::Acc;
use formats::format::Format;
use refusals::{Refusal, told_number};

/// `struct pw_codes`: the refusal's number, and the codes of the frame, 0 where it is refused. C has no `Result`.
#[derive(Clone, Copy)]
#[repr(C)]
pub struct FrameCodes {
    pub refusal: u8,
    pub ad1: i32,
    pub lpf: i32,
    pub rms: i64,
}

impl From<Result<Codes, Refusal>> for FrameCodes {
    ghost from_gives = { λ answer codes. codes ≡ frame_codes answer };

    #[tactic(auto, unfolding(crate::specs::Host::frame_codes))]
    fn from(answer: Result<Codes, Refusal>) -> FrameCodes {
        let refusal = told_number(&answer);
        match answer {
            Ok(c) => FrameCodes {
                refusal,
                ad1: c.ad1,
                lpf: c.lpf,
                rms: c.rms,
            },
            Err(_) => FrameCodes {
                refusal,
                ad1: 0,
                lpf: 0,
                rms: 0,
            },
        }
    }
}

/// The codes of the frame in the host's bytes, which are read and not written.
pub fn pw_decode(bytes: &[u8]) -> FrameCodes
    ensures { result ≡ frame_codes (decoded bytes.now) }
{
    FrameCodes::from(codes::decode(bytes))
}

/// `struct pw_window`: whether a window was found, and R21, 0 where none was. C has no `Option`.
#[derive(Clone, Copy)]
#[repr(C)]
pub struct HostWindow {
    pub found: bool,
    pub r21: u8,
}

impl From<Option<u8>> for HostWindow {
    ghost from_gives = { λ window shown. shown ≡ host_window window };

    #[tactic(auto, unfolding(crate::specs::Host::host_window))]
    fn from(window: Option<u8>) -> HostWindow {
        HostWindow {
            found: window.is_some(),
            r21: window.unwrap_or(0),
        }
    }
}

/// The comparator's window for a middle of c volts and a swing of a volts.
pub fn pw_cmp_window(c: f32, a: f32) -> HostWindow
    ensures { result ≡ host_window (cmp_window c a) }
{
    HostWindow::from(tables::window::cmp_window(c, a))
}

/// The number of the kind of row that the host writes at a mark.
pub fn pw_row_kind(alt: bool, dc: bool, job: u8, step: u8, job_dc: bool, phase: u8) -> u8
    ensures { result ≡ row_number (row_kind alt dc job step job_dc phase) }
{
    tables::row::row_kind(alt, dc, job, step, job_dc, phase).into()
}

/// R36 of a signed number of phase steps.
pub fn pw_r36_of(steps: i8) -> u8
    ensures { result ≡ r36_of steps }
{
    tables::ranges::r36_of(steps)
}

/// An accumulator that nothing was added to: `Acc::ZERO`.
pub fn pw_acc_fresh() -> Acc
    ensures { result ≡ fresh_acc }
{
    Acc::ZERO
}

/// Adds to the host's own accumulator, and answers 0; or 6, full, and it is as it was.
#[tactic(auto, using(figures::proofs::Exactly::answer_told))]
pub fn pw_acc_add(acc: &mut Acc, joules: f32) -> u8
    ensures { (result ≡ told_number (add_to acc.old joules)) × (acc.new ≡ added_acc acc.old (add_to acc.old joules)) × ExactAfter acc.old joules result acc.new }
{
    told_number(&acc.add(joules))
}

/// The watt hours of an accumulator.
pub fn pw_acc_wh(acc: Acc) -> f32
    ensures { result ≡ watt_hours acc }
{
    Acc::wh(acc)
}

/// `struct pw_format`: the unit by its number.
#[derive(Clone, Copy)]
#[repr(C)]
pub struct HostFormat {
    pub number: f32,
    pub decimals: u8,
    pub unit: u8,
}

/// A format, its unit by the number.
impl From<Format> for HostFormat {
    ghost use Rattle.pw.specs.Host.{host_format};

    ghost from_gives = { λ format shown. shown ≡ host_format format };

    #[tactic(auto, unfolding(crate::specs::Host::host_format))]
    fn from(format: Format) -> HostFormat {
        HostFormat {
            number: format.number,
            decimals: format.decimals,
            unit: u8::from(format.unit),
        }
    }
}

/// `energy_format`: the apparent energy where `va`, else the active one.
pub fn pw_energy_format(wh: f32, va: bool) -> HostFormat
    ensures { result ≡ host_format (energy_format wh va) }
{
    HostFormat::from(formats::format::energy_format(wh, va))
}

/// `p_format`: a power of si W or VA, in a pair of ranges of fs W or VA full scale.
pub fn pw_p_format(fs: f32, si: f32, watts: bool) -> HostFormat
    ensures { result ≡ host_format (p_format fs si watts) }
{
    HostFormat::from(formats::format::p_format(fs, si, watts))
}
