//! The program: its words, a problem, a journal and a sink.
#![tactic(auto)]

mod accepted;
mod describing;
mod endings;
mod evaluating;
mod generating;
mod help;
mod journal_lines;
pub mod laws;
mod loading;
mod outcome;
mod outside;
mod over_bytes;
mod program;
mod reading;
mod refusal_lines;
mod risk_cuts;
mod simulating;
mod status;
mod top;
mod training;
mod training_lines;
mod writing;

pub use outside::Outside;
pub use program::{execute, start};
pub use status::{Status, number, status_line};
pub use top::{run, run_safe, run_with};
