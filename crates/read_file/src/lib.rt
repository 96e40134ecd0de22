//! Reads a problem from JSON in a profile of StochOptFormat, the file format of stochastic programs on a policy graph.
#![tactic(auto)]

pub mod laws;
mod nodes;
mod read;
mod realizations;
mod root;
mod scenarios;
mod subproblems;
mod successors;
mod tables;
mod values;
mod version;
mod weights;
mod whole_file;

pub use problem::{Part, Place, Refusal, RefusalKind};
pub use read::read_problem_parts;
pub use read_json::{ReadRefusal, weight as read_weight};
pub use whole_file::read_problem;
