// The memory that stage problems are done with.
use base_num::Spare;
use cut_pool::OutBox;
use lp_program::{LpRow, StageLp, blank_row};
use std::alloc::Global;
use std::mem;

/// The allocator, and memory that stage problems are done with. The next stage problem is written over it; no result depends on
/// it.
#[derive(Drop)]
pub struct StageMemory {
    alloc: Global,
    /// The rows of the stage problem that came back last.
    rows: Vec<LpRow>,
    /// Rows that stage problems with fewer rows had no use for.
    left_over: Vec<LpRow>,
    /// The memory of the boxes of states that leave a stage.
    pub(crate) boxes: Spare<OutBox>,
}

impl StageMemory {
    /// Starts with nothing kept.
    pub fn new(alloc: Global) -> StageMemory {
        StageMemory {
            alloc,
            rows: Vec::new(alloc),
            left_over: Vec::new(alloc),
            boxes: Spare::new(alloc),
        }
    }

    /// The allocator.
    pub fn alloc(&self) -> Global {
        self.alloc
    }

    /// Keeps the rows of a stage problem that is done with, in place of those that came back before.
    pub fn give_back(&mut self, lp: StageLp) {
        self.rows = lp.into_rows().into_vec();
    }

    /// Takes the rows of the stage problem that came back last, none where they are taken already.
    pub(crate) fn take_rows(&mut self) -> Vec<LpRow> {
        mem::replace(&mut self.rows, Vec::new(self.alloc))
    }

    /// Takes a row that is left over, or makes one.
    pub(crate) fn take_row(&mut self) -> LpRow {
        match self.left_over.pop() {
            Some(row) => row,
            None => blank_row(self.alloc),
        }
    }

    /// Keeps a row that is left over. Where memory for keeping it is refused, it is dropped.
    pub(crate) fn keep(&mut self, row: LpRow) {
        let _ = self.left_over.push(row);
    }
}
