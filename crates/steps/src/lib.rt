//! Module 5 of document 01, steps: what each step of a job measures, what a ready frame says there, and
//! what a step's means come to.
#![tactic(auto)]

pub mod error;
pub mod place;
pub mod reading;
pub mod verdict;
