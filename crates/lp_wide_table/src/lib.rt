//! Whole numbers of 256 bits, and the table of a whole program in cells of 128 bits.
#![tactic(auto)]

pub mod appending;
mod double_words;
pub mod making;
pub mod numbers;
pub mod quotients;
pub mod ranged_numbers;
pub mod rows;
pub mod scaling;
pub mod shifting;
pub mod square;
pub mod table;
pub mod tables;
pub mod updates;
pub mod wide;

pub use making::whole_table;
pub use quotients::{bits, inverse};
pub use ranged_numbers::{WideCell, WideQuantity};
pub use rows::WideRows;
pub use shifting::shift;
pub use square::WideSquare;
pub use table::{WideBounds, WideTable};
pub use wide::Wide;
