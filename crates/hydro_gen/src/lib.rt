//! Generated problems: chains of reservoirs with drawn inflows.
#![tactic(auto)]

mod generated;
mod names;
mod nodes;
mod stage;
mod words;

pub use generated::generate;
