//! The cuts that come in because the point of a table violates them.
#![tactic(auto)]

mod bounds;
mod first;
pub mod greatest;
pub mod packed;
mod refilled;
pub mod scanning;
pub mod values;

pub use scanning::{Room, Scan, scan_cuts};
