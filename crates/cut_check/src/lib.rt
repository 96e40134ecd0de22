//! Certificates that are accepted, by their size in exact 128-bit arithmetic, and the cuts of them.
#![tactic(auto)]

pub mod acceptance;
pub mod base_pools;
pub mod magnitudes;
pub mod reweighting;
mod size;

pub use acceptance::checker::accept_with;
pub use acceptance::making::{accept_into, write_cut_in_range};
pub use base_pools::{BaseFault, base, base_certificate, no_slopes};
pub use magnitudes::{absolute, reach};
pub use reweighting::cuts::make_each;
