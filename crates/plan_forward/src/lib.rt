//! Decisions along paths through a problem's graph, and their costs.
#![tactic(auto)]

mod amounts;
pub mod costing;
pub mod deciding;
mod forward_pass;
pub mod laws;
mod passes;
pub mod traces;
pub mod worked;

pub use costing::{miss, residual, stage_cost};
pub use deciding::{Decided, StageInput, decide, next_state, scaled};
pub use forward_pass::initial_state;
pub use passes::forward_passes;
pub use plan_draw::Trajectory;
pub use traces::{Trace, TraceStep};
