//! The numbers and the table of the warm simplex.
#![tactic(auto)]

pub mod lists;
pub mod numbers;
pub mod ranged_numbers;
pub mod rows;
pub mod square;
pub mod steps;
pub mod table;
pub mod updates;

pub use ranged_numbers::{Cell, Coefficient, Quantity};
pub use rows::Rows;
pub use square::Square;
pub use table::{Basis, Bounds, CutRows, Scales, WarmTable};
