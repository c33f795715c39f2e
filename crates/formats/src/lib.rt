//! Module 6 of document 01, formats: a figure with its decimals and its unit.
#![tactic(auto)]

pub mod format;
pub mod readout;
pub mod units;
