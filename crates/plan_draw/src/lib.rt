//! Paths through a problem's graph, drawn from the words of ChaCha20.
#![tactic(auto)]

pub mod paths;
pub mod picks;
pub mod steps;
mod words;

pub use paths::path;
pub use picks::pick;
pub use steps::{PathStep, Trajectory};
