//! Module 6 of document 01, readouts: the values as figures with decimals and units.
#![tactic(auto)]

pub mod bluetooth;
pub mod partial;
pub mod readings;
