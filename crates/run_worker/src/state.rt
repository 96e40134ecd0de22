// The worker between orders.
use journal_load::Gathered;
use lp_program::Solver;
use plan_stage::Workspace;
use problem::Problem;
use std::alloc::Global;

/// The problem, and all else that stays the same for all orders.
#[derive(Clone, Copy)]
pub(crate) struct Task<'a> {
    pub(crate) alloc: Global,
    pub(crate) problem: &'a Problem,
    /// The paths of an iteration, 1 to 64.
    pub(crate) batch: u16,
}

/// The joined records, and memory that orders lend each other.
#[derive(Drop)]
pub(crate) struct Held<V: Solver> {
    pub(crate) found: Gathered,
    pub(crate) work: Workspace<V>,
    /// The payloads of records as they stand joined, each behind the number of its bytes; none where no order asks for them.
    pub(crate) told: Option<Vec<u8>>,
}
