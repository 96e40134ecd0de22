//! Decisions that meet their rows: rounded ones are moved until they do.
#![tactic(auto)]

mod amounts;
pub mod deciding;
mod fixing;
pub mod laws;
pub mod mending;
mod moves;
mod order;
mod search;
mod stage;

pub use deciding::decide_mended;
pub use mending::mended;
pub use stage::row_count;
