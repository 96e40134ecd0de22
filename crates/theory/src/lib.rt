//! The cost of a problem's policies, the soundness of cuts, and the laws of the cut arithmetic.
#![tactic(auto)]

pub mod cut;
pub mod laws;
pub mod worked;

pub use cut::{Certificate, Cut, SCALE};
