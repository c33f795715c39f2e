//! Module 2 of document 01: limits, rows, windows, gains. What the source keeps in constants and in
//! its calibration record, and the choices that it makes from them.
#![tactic(auto)]

pub mod bounds;
pub mod calibration;
pub mod constants;
pub mod decided;
pub mod description;
pub mod lookups;
pub mod ranges;
pub mod row;
pub mod window;
pub mod window_rule;
