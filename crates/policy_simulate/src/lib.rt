//! Simulation: decisions along drawn and stored scenarios, their residuals, and their costs.
#![tactic(auto)]

mod moments;
mod runs;
mod scenarios;

pub use scenarios::{simulate, validate};
