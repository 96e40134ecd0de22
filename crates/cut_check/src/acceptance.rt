//! Whether a list of certificates is accepted at a node: shapes, signs, places, sums, then the size.
pub mod checker;
pub mod making;
mod walk;
