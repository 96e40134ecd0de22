// The steps of a path, and the states on the way.
use base_num::List;

/// One step of a path.
#[derive(Clone, Copy, Debug, PartialEq, Eq)]
pub struct PathStep {
    /// The number of the node, from 0.
    pub node: u32,
    /// The number of the node's realization, from 0.
    pub realization: u32,
}

/// The states of one path forward.
#[derive(Drop)]
pub struct Trajectory {
    /// The incoming state of each step: one list per step, with one entry per state, at scale 2^24.
    pub states: List<List<i128>>,
    /// The number of solves on the way whose answers were of no use.
    pub unanswered: u32,
}
