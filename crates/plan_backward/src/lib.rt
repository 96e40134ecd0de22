//! The backward part of an iteration of training: cuts along a path, from its last node to its first.
#![tactic(auto)]

mod certified;
mod chains;
mod in_chains;
pub mod passes;
mod places;
mod steps_back;

pub use passes::{Pass, backward_pass};
