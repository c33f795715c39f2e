//! Module 1 of document 01, codes: a frame's three converter codes, and its flags.
#![tactic(auto)]

ghost use Rattle.std.specs.Prelude.{◌≡◌, ◌≤◌, ◌<◌};
ghost use Rattle.codes.specs.Frame.{twos_complement, decoded};
ghost use Rattle.codes.specs.Flags.{holds_ad1, holds_rms_lpf};

use refusals::Refusal;

// How many bytes of the register block a frame has.
const FRAME_LEN: usize = 14;

// The flags of `R_INTF`.
const INTF_AD1: u8 = 1 << 2;

const INTF_LPF: u8 = 1 << 3;

const INTF_RMS: u8 = 1 << 4;

/// The converter codes of one frame.
#[derive(Clone, Copy, Debug, PartialEq, Eq)]
pub struct Codes {
    pub ad1: i32,
    pub lpf: i32,
    pub rms: i64,
}

/// A frame: the flags of `R_INTF`, the codes, and its time in ms.
#[derive(Clone, Copy, Debug, PartialEq, Eq)]
pub struct Frame {
    pub flags: u8,
    pub codes: Codes,
    pub now: u64,
}

// The low w bits of raw, as two's complement.
#[tactic(auto, using(crate::proofs::Twos::plain, crate::proofs::Twos::less))]
fn twos_complement(raw: u64, w: u32) -> i64
    requires { (0 < w) × (w ≤ 62) }
    ensures { result ≡ twos_complement w raw }
{
    let span = 1u64 << w;
    let low = raw % span;
    if low < span / 2 {
        low as i64
    } else {
        -1 - ((span - 1 - low) as i64)
    }
}

/// The codes of a lent frame, or refusal 4 for every length but 14. It reads bytes 0..2, 6..8 and
/// 9..13, and of a frame of another length none.
#[tactic(auto, using(crate::proofs::Twos::narrowed_fits, crate::proofs::Twos::narrowed_is), unfolding(crate::specs::Frame::decoded, crate::specs::Frame::little_endian))]
pub fn decode(frame: &[u8]) -> Result<Codes, Refusal>
    ensures { result ≡ decoded frame.now }
{
    if frame.len() != FRAME_LEN {
        return Err(Refusal::Frame);
    }
    let ad1 = u32::from_le_bytes([frame[0], frame[1], frame[2], 0]);
    let lpf = u32::from_le_bytes([frame[6], frame[7], frame[8], 0]);
    let rms = u64::from_le_bytes([
        frame[9], frame[10], frame[11], frame[12], frame[13], 0, 0, 0,
    ]);
    Ok(Codes {
        ad1: twos_complement(u64::from(ad1), 24) as i32,
        lpf: twos_complement(u64::from(lpf), 19) as i32,
        rms: twos_complement(rms, 38),
    })
}

/// Whether the flags hold the AD1 bit.
#[tactic(auto, using(crate::proofs::Bits::ad1_is))]
pub fn holds_ad1(flags: u8) -> bool
    ensures { result ≡ holds_ad1 flags }
{
    flags & INTF_AD1 != 0
}

/// Whether the flags hold both the RMS and the LPF bit.
#[tactic(auto, using(crate::proofs::Bits::rms_set, crate::proofs::Bits::rms_clear))]
pub fn holds_rms_lpf(flags: u8) -> bool
    ensures { result ≡ holds_rms_lpf flags }
{
    flags & INTF_RMS != 0 && flags & INTF_LPF != 0
}
