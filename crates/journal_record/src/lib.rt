//! The entries of an iteration as bytes, and back.
#![tactic(auto)]

mod certificates;
mod decoding;
mod encoding;
mod fault;
pub mod laws;
mod numbers;
mod sizes;
mod steps;
pub mod worked;

pub use decoding::{decode, decode_batch, decode_batch_with};
pub use encoding::{encode, encode_batch};
pub use fault::EntryFault;
