//! Module 7 of document 01: a meter is made, and takes frames; its orders are the crate `orders`. specs/Calls.antt
//! has every call in one definition, `step`, and a list of calls in another, `after`.
#![tactic(auto)]

pub mod frame;
pub mod making;
pub mod says_back;
