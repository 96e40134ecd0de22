//! Stage problems: the linear programs that training solves at a node.
#![tactic(auto)]

mod columns;
mod cut_rows;
mod cut_values;
pub mod laws;
mod orders;
mod out_boxes;
mod outs;
mod own_rows;
mod packed_views;
pub mod planner;
pub mod preparing;
pub mod references;
mod scales;
pub mod solving;
pub mod stage_memory;
pub mod stages;
pub mod warm_starts;
pub mod workspace;
mod written_rows;

pub use planner::Planner;
pub use preparing::prepare;
pub use references::reference;
pub use solving::solve_stage;
pub use stage_memory::StageMemory;
pub use stages::{set_sides, stage_problem};
pub use warm_starts::WarmStarts;
pub use workspace::Workspace;
