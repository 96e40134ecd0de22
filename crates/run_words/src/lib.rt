//! The commands of the program, read from its words.
#![tactic(auto)]

mod command;
mod forms;
pub mod worked;

pub use command::{Command, TrainingNumbers, trains};
pub use forms::read_words;
