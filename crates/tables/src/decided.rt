//! Constants of dmm.rs, which is not at hand: every one of them is decided, and stands here and in
//! specs/Decided.antt. Whoever has dmm.rs sets these six right in the two files, and in the tests'
//! own rendering (tests/test_leaves.c); docs/DECISIONS.md gives the reason for each.

/// Volts at the jack for a volt at the converter in the AC V rows, by V range.
pub const K_ACV: [f32; 4] = [10.0, 100.0, 1000.0, 10_000.0];

/// The AD1 code of full scale.
pub const AD1_DIV: f32 = 8_388_608.0;

/// What a negative DC voltage is multiplied by, by V range.
pub const DCV_NEGK: [f32; 4] = [1.0, 1.0, 1.0, 1.0];

/// The jump windows of the smoothing: volts by V range; by calibration index in the unit of the
/// range, which is A, mA or uA.
pub const ACV_WIN: [f32; 4] = [0.3, 3.0, 30.0, 50.0];

pub const ACA_WIN: [f32; 6] = [0.3, 0.5, 3.0, 30.0, 30.0, 300.0];

/// The floor of an AC voltage, as a fraction of its range: AUTO_FLOOR_V[1].
pub const FLOOR_V: f32 = 0.005;
