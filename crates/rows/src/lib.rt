//! Document 01's rows marked P (specs/Rows.antt), and their check, the contract of a function that does nothing.
#![tactic(auto)]

ghost use Rattle.std.specs.Prelude.{◌≡◌, true, length};
ghost use Rattle.rows.specs.Rows.{all, rows};

/// "One computed check over the whole list": each row holds, and none is lost.
#[tactic(auto, using(crate::proofs::Checked::checked))]
pub fn rows_hold()
    ensures held { all rows ≡ true }
    ensures counted { length rows ≡ 12 }
{}
