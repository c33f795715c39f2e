//! Module 4 of document 01, a frame's way outside a job, up to its accounting: the ring, the takes of
//! its path, autorange, the comparator, and the next phase.
#![tactic(auto)]

pub mod alternating;
pub mod comparator;
pub mod dc;
pub mod frame;
pub mod measuring;
pub mod method_b;
pub mod ring;
pub mod whole;
