//! The texts of reports, and the writers of the lines that several reports have.
#![tactic(auto)]

mod base;
mod check;
mod cuts;
mod head;
mod iterations;
mod traces;
mod train;

pub use base::base_report;
pub use check::check_report;
pub use cuts::{push_bound, push_cut_words, push_word};
pub use head::push_head;
pub use traces::{push_row, trace_report};
pub use train::train_report;
