//! Module 3 of document 01: the totals, the smoothing, the accumulator and the tally of energies and
//! time.
#![tactic(auto)]

pub mod acc;
pub mod load;
pub mod smoothing;
pub mod tally;
