//! Module 4 of document 01, takes: what one conversion's codes say, and the smoothed values that
//! follow. Each path has its own: method B (XY, XX, YY), the alternating rows, and the DC row.
#![tactic(auto)]

pub mod parts;
pub mod readings;
pub mod scales;
pub mod take;
