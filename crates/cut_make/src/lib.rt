//! The cut of a list of certificates, in exact 128-bit arithmetic, and when such a list is accepted.
#![tactic(auto)]

mod constants;
pub mod divided;
pub mod fault;
pub mod node_at;
mod reduced_costs;
mod repeated;
mod same;
mod scaled_costs;
pub mod scales;
pub mod sides;
mod slopes;
mod sums;
mod wrapping;

pub use divided::write_cut_of;
pub use fault::CertFault;
pub use repeated::write_repeated_cut;
pub use same::are_same_cuts;
pub use sides::{is_sign, row_side};
pub use slopes::{repeated_slope_sums, slope_sums};
pub use sums::{constant_over, constant_sum, fixed_constant};
pub use wrapping::wrapping_add_product;
