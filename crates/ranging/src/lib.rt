//! Module 4 of document 01, ranging: the apply, which starts the measuring anew, and the ranges that
//! the meter finds by itself.
#![tactic(auto)]

pub mod apply;
pub mod autorange;
pub mod change;
pub mod cycle;
