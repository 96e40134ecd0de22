//! The parts of a problem file as JSON values, for the crates that make problems.
#![tactic(auto)]

mod names;
mod nodes;
mod stage;

pub use names::{digit, text_of};
pub use nodes::{node, problem, realization, root, version};
pub use stage::{
    affine, bound, least_sum, program, push_bound, push_term, push_text, push_variable, put_whole,
    row, state_between, subproblem, term, variable,
};
