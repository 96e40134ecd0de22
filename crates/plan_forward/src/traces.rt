// Traces: the decisions along a path, with their residuals and costs.
use base_num::List;
use lp_program::Kind;

/// One step of a trace.
#[derive(Drop)]
pub struct TraceStep {
    /// The node's number.
    pub node: u32,
    /// The kind of the answer to the stage problem.
    pub kind: Kind,
    /// The incoming state, one number per state, at scale 2^24.
    pub state: List<i128>,
    /// One value per random variable.
    pub values: List<i64>,
    /// One number per decision, at scale 2^24.
    pub decisions: List<i128>,
    /// By how much the decisions miss each row, at scale 2^24.
    pub residuals: List<i128>,
    /// The cost of the stage, at scale 2^24.
    pub cost: i128,
}

/// The decisions along a path.
#[derive(Drop)]
pub struct Trace {
    /// The steps, in order.
    pub steps: List<TraceStep>,
    /// The sum of the stages' costs, at scale 2^24.
    pub cost: i128,
}
