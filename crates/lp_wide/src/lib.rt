//! The bounded dual simplex method in numbers of 128 bits, with all rows of a program in the table from the beginning.
#![tactic(auto)]

pub mod entering;
pub mod finishing;
pub mod found;
pub mod inspecting;
pub mod line;
pub mod pivots;
pub mod points;
pub mod ray;
pub mod solve;
pub mod sums;
pub mod turns;
pub mod violations;

pub use solve::wide;
