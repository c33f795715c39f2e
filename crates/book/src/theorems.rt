//! The theorems over every list of calls, each the contract of a function that does nothing.
ghost use Rattle.book.specs.Demand3.{Demand3};
ghost use Rattle.book.specs.Earned.{Earned};
ghost use Rattle.book.specs.Last.{Last};
ghost use Rattle.book.specs.Program.{Program};

/// Demand 3: a meter just made agrees with the book after every list of calls.
#[tactic(auto, using(crate::proofs::Demand3::demand3))]
pub fn demand3()
    ensures { Demand3 }
{}

/// What the book holds after a list of calls is none, or was earned in it.
#[tactic(auto, using(crate::proofs::Earned::all_earned))]
pub fn earned()
    ensures { Earned }
{}

/// The zeros and the gains in the book are those that were earned last.
#[tactic(auto, using(crate::proofs::Last::every_last))]
pub fn last()
    ensures { Last }
{}

/// Demand 3, and that all was earned, of a meter that a host keeps by functions with the contracts of the C interface.
#[tactic(auto, using(crate::proofs::Program::program))]
pub fn program()
    ensures { Program }
{}
