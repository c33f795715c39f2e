//! What a C host is handed: plain structs of numbers, with document 01's number for a refusal, and ours for
//! a unit, a text and a range asked for.
#![tactic(auto)]

pub mod ring;
pub mod shown;
pub mod stepped;
