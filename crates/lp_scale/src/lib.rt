//! The scaling of the warm simplex: its first table, the rows and cuts that are put behind it, their sides, and which cuts wait.
#![tactic(auto)]

pub mod appending;
pub mod exponents;
pub mod fences;
pub mod laws;
pub mod packed;
pub mod scaling;
pub mod sides;
pub mod slope_digits;
pub mod spans;
pub mod tables;
pub mod waiting;
pub mod whole;
pub mod widening;

pub use appending::append_cut;
pub use sides::set_sides;
pub use tables::first;
pub use whole::whole_scales;
pub use widening::{widen, widen_in_full};
