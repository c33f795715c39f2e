//! Module 6 of document 01, values: what a meter shows, worked out from its state. `pw_vals` and
//! `pw_state` of the source, and `integrating`.
#![tactic(auto)]

pub mod energy;
pub mod floors;
pub mod load;
pub mod marks;
pub mod methods;
pub mod power_vals;
pub mod vals;
