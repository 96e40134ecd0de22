// The memory that calls lend each other.
use crate::stage_memory::StageMemory;
use base_num::Spare;
use cut_pool::Spares;
use lp_program::{Solver, StageLp};
use std::alloc::Global;

/// The allocator, and memory that stage problems, chains of solves and entries are done with. The next ones are written over it;
/// no result depends on it.
#[derive(Drop)]
pub struct Workspace<V: Solver> {
    /// The allocator, and the memory of stage problems.
    pub stages: StageMemory,
    /// The memory of entries, and of the certificates in them.
    pub spares: Spares,
    /// The memory of lists of decisions, which are numbers at scale 2^24.
    pub decisions: Spare<i128>,
    /// The chain that came back last.
    pub(crate) chain: Option<V::Chain>,
}

impl<V: Solver> Workspace<V> {
    /// Starts with nothing kept.
    pub fn new(alloc: Global) -> Workspace<V> {
        Workspace {
            stages: StageMemory::new(alloc),
            spares: Spares::new(alloc),
            decisions: Spare::new(alloc),
            chain: None,
        }
    }

    /// The allocator.
    pub fn alloc(&self) -> Global {
        self.stages.alloc()
    }

    /// Keeps the rows of a stage problem that is done with, in place of those that came back before.
    pub fn give_back(&mut self, lp: StageLp) {
        self.stages.give_back(lp);
    }

    /// Keeps a chain that is done with, in place of the one that came back before.
    pub fn keep_chain(&mut self, chain: V::Chain) {
        self.chain = Some(chain);
    }
}
