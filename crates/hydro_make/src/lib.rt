//! Hydro plants as a problem: plans for them, the problem that is made of them, and the law that both mean the same.
#![tactic(auto)]

mod bounds;
mod columns;
pub mod laws;
mod making;
mod names;
mod nodes;
mod plants;
mod rows;
mod stage;
pub mod worked;

pub use making::make;
