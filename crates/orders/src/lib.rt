//! Module 7 of document 01, the orders: each takes a meter and gives it back, with its answer. A refused
//! one says its number alone.
#![tactic(auto)]

pub mod answer;
pub mod apply;
pub mod ranges;
pub mod starts;
pub mod switches;
