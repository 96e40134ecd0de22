//! Cuts, pools of them (one list of cuts per node), and the entries of training that cuts are made from.
#![tactic(auto)]

mod active_cuts;
pub mod box_maxima;
mod coarse;
mod copies;
mod cut_value;
pub mod entry;
mod flat_cuts;
mod pool;
pub mod pools;
mod slope_range;
mod spares;

pub use box_maxima::OutBox;
pub use cut_value::value_of_cut;
pub use entry::{Entry, EntryStep};
pub use pools::{Pools, root_weight};
pub use spares::Spares;
pub use theory::{Certificate, Cut};
