//! The worker: a training that stays alive, and takes the records that others made behind the same ones.
#![tactic(auto)]

mod ahead;
mod ending;
mod moving;
mod orders;
mod parts;
mod places;
mod program;
mod reading;
mod rounds;
mod state;
mod writing;

pub use ending::{Ending, RecordAt, number};
pub use program::{run, start};
