//! The bounded dual simplex method, warm: turns on a table, answers along a chain, and the start of a chain.
#![tactic(auto)]

mod attempts;
mod going;
mod inspecting;
pub mod turns;
pub mod violations;
pub mod warm;

pub use warm::WarmSimplex;
