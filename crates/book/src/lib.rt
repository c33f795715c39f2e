//! The book of document 01, and demand 3 over every list of calls. No function does anything.
#![tactic(auto)]

pub mod theorems;
