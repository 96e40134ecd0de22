//! The cuts of one list of certificates with each of several lists of weights.
pub mod cuts;
mod shares;
mod weighted;
