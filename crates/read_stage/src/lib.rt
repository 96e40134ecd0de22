//! Reads one subproblem of a problem file from its JSON value.
#![tactic(auto)]

mod boxes;
mod constraint;
mod decisions;
mod function;
pub mod laws;
mod objective;
mod randoms;
mod role;
mod rows;
mod sides;
mod stage_parts;
mod stage_problem;
mod states;
mod variables;

pub use stage_problem::subproblem;
