//! The journal's file: its head, its commit bytes and records, and the writes that make and extend it, each of
//! which a crash may stop at any moment.
#![tactic(auto)]

pub mod commit_byte;
pub mod growth;
pub mod head;
pub mod header_commit;
pub mod laws;
pub mod writing;

pub use commit_byte::{CommitByte, CommitByteFault, PayloadFault, payload, read_commit_byte};
pub use growth::{append, recover};
pub use head::{Head, HeadFault, read_head};
pub use header_commit::commit_header;
pub use writing::{cut_to, put};
