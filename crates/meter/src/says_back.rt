//! Document 01's table "What the meter says back", rows 0 to 6, of every meter and every call (specs/Table.antt): the
//! contract of a function that does nothing.
ghost use Rattle.std.specs.Prelude.{◌≡◌};
ghost use Rattle.std.specs.Result.{result_err};
ghost use Rattle.state.specs.declared.Pw.{Pw};
ghost use Rattle.meter.specs.Calls.{Call, step};
ghost use Rattle.meter.specs.Table.{refusal_of, left_by, alone_by};

/// A refusal is given "only under its condition", the first in the table's order; of a refused call all is as before, but
/// for a job start that is turned away; and it answers its number alone.
#[tactic(auto, using(crate::proofs::Table::refused_as, crate::proofs::Table::leaves, crate::proofs::Table::told_alone))]
pub fn table_holds()
    ensures refused_as { (m : Pw) (c : Call) → result_err (step m c).answer ≡ refusal_of m c }
    ensures leaves { (m : Pw) (c : Call) → (step m c).pw ≡ left_by (refusal_of m c) m c }
    ensures told_alone { (m : Pw) (c : Call) → (step m c).answer ≡ alone_by (refusal_of m c) (step m c).answer }
{}
