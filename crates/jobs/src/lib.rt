//! Module 5 of document 01, jobs: here a zero or a gain is measured and stored. A job goes step by step; each step
//! drops some ready frames, then counts three, and its means decide how the job goes on or ends.
#![tactic(auto)]

pub mod bench;
pub mod frame;
pub mod step;
pub mod whole;
