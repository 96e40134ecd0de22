//! The worst of several lists of weights: the lists of a problem file, and risk cuts that bound the greatest expectation.
#![tactic(auto)]

mod alternatives;
mod base;
mod candidates;
pub mod laws;
mod report;
mod risk_cuts;
mod weights;
pub mod worked;

pub use alternatives::{Alternatives, read_alternatives};
pub use report::robust_report;
pub use risk_cuts::{RobustFault, robust};
