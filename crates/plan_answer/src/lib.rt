//! What a solver's answers are worth: certificates of their duals, and stages that have no decisions.
#![tactic(auto)]

pub mod classifying;
pub mod farkas;
pub mod laws;
pub mod plan_fault;
pub mod settling;
pub mod settling_laws;
mod sized_sum;
mod sums;
mod terms;
pub mod worked;

pub use classifying::{Classified, Infeasibility, classify};
pub use farkas::refutes;
pub use plan_fault::PlanFault;
pub use settling::certificate_of_duals;
