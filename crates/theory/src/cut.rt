// Cuts and the certificates that they are made from.
use base_num::List;

/// S, the scale of cuts and multipliers: 2^24.
pub const SCALE: u32 = 1 << 24;

/// A linear function of a node's incoming state: at the state x it stands for (alpha + beta·x) / 2^24.
#[derive(Drop)]
pub struct Cut {
    /// At scale 2^24.
    pub alpha: i128,
    /// One slope per state, at scale 2^24.
    pub beta: List<i128>,
}

/// Multipliers for one realization of a node.
#[derive(Drop)]
pub struct Certificate {
    /// One multiplier per row of the node's subproblem, at scale 2^24 times the node's successor weight.
    pub rows: List<i64>,
    /// One list per successor, of the places of cuts in the successor's pool and their multipliers.
    pub cuts: List<List<(u32, u64)>>,
}
