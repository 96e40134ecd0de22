//! Training: iterations of a batch of paths, forward and backward, with a record of each in the journal.
#![tactic(auto)]

mod drawing;
pub mod iterations;
pub mod laws;
mod opening;
mod pool_counts;
pub mod training;

pub use iterations::{Draw, iteration};
pub use pool_counts::{counts, cut_back};
pub use training::{Training, iteration_body, train};
