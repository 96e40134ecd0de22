//! Defines policies of a problem file, their costs, bounds and cuts, and proves that the problem read from it has the same.
#![tactic(auto)]

pub mod laws;
pub mod worked;
