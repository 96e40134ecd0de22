//! Paths in a graph of numbered nodes: who reaches whom, ranks, and the order by rank.
#![tactic(auto)]

mod depth_first;
pub mod laws;
pub mod order;
pub mod rank;
pub mod reach;
mod search;
pub mod worked;

pub use order::{by_rank, predecessors};
pub use rank::{RankFault, longest_from, ranks};
pub use reach::first_unreached;
