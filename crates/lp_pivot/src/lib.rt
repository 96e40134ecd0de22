//! The point of a table, its rows by their nonbasic variables, the pivot, and a basis in a clean table.
#![tactic(auto)]

mod clean;
pub mod line;
pub mod moves;
pub mod pivots;
pub mod points;
pub mod rebuilding;
pub mod shift;
mod standings;
pub mod sums;
mod tighten;

pub use line::write_line;
pub use moves::{Swap, move_point};
pub use pivots::pivot;
pub use points::refine;
pub use rebuilding::rebuild;
pub use shift::Shift;
pub use sums::activity;
