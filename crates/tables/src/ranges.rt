//! Numbers that the source makes of a range, a coupling or a phase step.
ghost use Rattle.std.specs.Prelude.{◌≡◌};
ghost use Rattle.tables.specs.Ranges.{iu_ir, cal_index, coup_of, next_coupling, r36_of};

use crate::constants::{COUP_AC, COUP_ACDC, COUP_DC};

/// The unit of a current range (0 A, 1 mA, 2 uA) and its amplifier's gain index (0 times ten, 1 times
/// one).
// Both are numbers and no enums: they are indices of the description's tables `shunt` and `mv_div`, and
// `cal_index` counts with them.
#[derive(Clone, Copy, Debug, PartialEq, Eq)]
#[repr(C)]
pub struct IuIr {
    pub iu: u8,
    pub ir: u8,
}

/// Of current range k, where a range above 5 counts as 5.
#[tactic(auto, unfolding(crate::specs::Ranges::iu_ir, crate::specs::Bounds::at_most))]
pub fn iu_ir(k: u8) -> IuIr
    ensures { result ≡ iu_ir k }
{
    let held = k.min(5);
    IuIr {
        iu: 2 - held / 2,
        ir: held % 2,
    }
}

/// The place of current range k among six calibration words: they go by unit, not by range.
#[tactic(auto, using(crate::proofs::Held::iu_most, crate::proofs::Held::ir_most), unfolding(crate::specs::Ranges::cal_index))]
pub fn cal_index(k: u8) -> u8
    ensures { result ≡ cal_index k }
{
    let u = iu_ir(k);
    u.iu * 2 + u.ir
}

// Couplings are numbers and no enum: the source numbers them (`COUP_ACDC` 0, `COUP_DC` 1, `COUP_AC` 3), and a C host
// keeps one in the meter's state.

/// The coupling that a stored or asked number means: its low two bits, with 2 for AC+DC.
#[tactic(auto, unfolding(crate::specs::Ranges::coup_of))]
pub fn coup_of(c: u32) -> u8
    ensures { result ≡ coup_of c }
{
    match c % 4 {
        1 => COUP_DC,
        3 => COUP_AC,
        _ => COUP_ACDC,
    }
}

/// The next coupling in the order DC, AC, AC+DC; DC after any other number.
#[tactic(auto, unfolding(crate::specs::Ranges::next_coupling))]
pub fn next_coupling(c: u8) -> u8
    ensures { result ≡ next_coupling c }
{
    match c {
        COUP_DC => COUP_AC,
        COUP_AC => COUP_ACDC,
        _ => COUP_DC,
    }
}

/// R36 of a signed number of phase steps: the size, at most 127, and bit 7 where it is above zero.
#[tactic(auto, unfolding(crate::specs::Ranges::r36_of, crate::specs::Bounds::at_most))]
pub fn r36_of(steps: i8) -> u8
    ensures { result ≡ r36_of steps }
{
    let size = steps.unsigned_abs().min(127);
    if steps > 0 { 128 + size } else { size }
}
