//! Loads a journal: the cuts of its records, each checked by its certificates, and the bounds.
#![tactic(auto)]

mod cuts;
mod keeping;
mod loaded;
mod loading;
mod payloads;
mod records;
mod refusal;
mod title;
mod values;
pub mod worked;

pub use loaded::Loaded;
pub use loading::{Asked, first_commit_byte, load, load_keep};
pub use payloads::{add_payload, gathered_base};
pub use records::{Gathered, unanswered};
pub use refusal::{JournalRefusal, LoadFault};
