//! What a frame brings, as a line spells it.
ghost use Rattle.std.specs.Prelude.{◌≡◌, ◌≤◌, length, take};
ghost use Rattle.lines.specs.Spelling.{padded};

/// The bytes that a frame brings: the first `count` of `bytes`, with zeros behind them. (No `ArrayVec`, which is not
/// `Copy`.)
#[derive(Clone, Copy, Debug)]
pub struct FrameBytes {
    bytes: [u8; 32],
    count: usize,
}

impl FrameBytes {
    /// These bytes, with zeros behind them.
    #[tactic(auto, using(crate::proofs::Pairs::zeros_behind), unfolding(crate::specs::Spelling::padded))]
    pub(crate) fn padded(brought: &[u8]) -> FrameBytes
        requires { length brought.now ≤ 32 }
        ensures { result ≡ padded brought.now }
    {
        let mut bytes = [0; 32];
        bytes[..brought.len()].copy_from_slice(brought);
        FrameBytes {
            bytes,
            count: brought.len(),
        }
    }

    /// The bytes that are brought. (No count passes 32: `count_fits` in proofs/Lengths.antt.)
    pub fn as_slice(&self) -> &[u8]
        ensures { result.now ≡ take self.now.count self.now.bytes }
    {
        &self.bytes[..self.count.min(32)]
    }
}
