// Rows that are written over those that are done with.
ghost use Rattle.std.specs.Prelude.{◌≡◌, ◌≤◌, ◌∷◌, ◌++◌, [], length, take, IfOk, OnOk};
ghost use Rattle.lp_program.specs.declared.programs.LpRow.{LpRow};

use crate::stage_memory::StageMemory;
use base_num::{List, Memory};
use lp_program::{Fx, LpRow};
use std::marker::Model;
use std::mem;

/// The rows of a stage problem, from number 0 on, while it is built.
#[derive(Drop)]
pub(crate) struct WrittenRows {
    /// The rows, and behind them those that may be written over.
    rows: Vec<LpRow>,
    /// The number of rows that are written.
    count: usize,
}

impl Model for WrittenRows {
    ghost use Rattle.std.specs.Prelude.{List, length, take, ◌≤◌};
    ghost use Rattle.lp_program.specs.declared.programs.LpRow.{LpRow};

    ghost Value = { List LpRow };

    ghost view = { λ r. take r.count r.rows.items };

    ghost invariant = { λ r. r.count ≤ length r.rows.items };
}

/// The parts that a row is made of.
pub(crate) trait RowParts {
    /// The conditions on the parts.
    ghost fit: { Self → Type 0 };

    /// The row.
    ghost made: { Self → LpRow };

    /// The row, its terms in the memory of a list that is done with. [`Memory`] where memory was refused.
    fn make(&self, terms: List<(u32, Fx)>) -> Result<LpRow, Memory>
        requires { fit self.now }
        ensures { IfOk result (λ found. found ≡ made self.now) };
}

// Lets the rows behind so many go to those that are left over, the last first, so that a stage problem with more rows finds
// each in its place again.
fn let_go(memory: &mut StageMemory, rows: &mut Vec<LpRow>, count: usize)
    requires { count ≤ length rows.old.items }
    ensures { rows.new.items ≡ take count rows.old.items }
{
    for _ in count..rows.len() {
        if let Some(row) = rows.pop() {
            memory.keep(row);
        }
    }
}

/// A list that is done with, without its terms, with room for so many. [`Memory`] where memory was refused.
pub(crate) fn cleared(terms: List<(u32, Fx)>, count: usize) -> Result<List<(u32, Fx)>, Memory>
    ensures { IfOk result (λ found. found ≡ []) }
{
    let mut terms = terms.into_vec();
    terms.clear();
    terms.reserve(count)?;
    Ok(List::from_vec(terms))
}

impl WrittenRows {
    /// Starts with no rows; those that are spare may be written over.
    pub(crate) fn new(memory: &mut StageMemory) -> WrittenRows
        ensures { result ≡ [] }
    {
        WrittenRows {
            rows: memory.take_rows(),
            count: 0,
        }
    }

    /// Writes a row behind the others. [`Memory`] where memory was refused.
    pub(crate) fn push<P: RowParts>(
        &mut self,
        memory: &mut StageMemory,
        parts: &P,
    ) -> Result<(), Memory>
        requires { P.fit parts.now }
        ensures { OnOk result (self.new ≡ self.old ++ P.made parts.now ∷ []) }
    {
        if self.count == self.rows.len() {
            self.rows.push(memory.take_row())?;
        }
        let terms = mem::replace(&mut self.rows[self.count].terms, List::new(memory.alloc()));
        self.rows[self.count] = parts.make(terms)?;
        self.count += 1;
        Ok(())
    }

    /// The rows as a list.
    pub(crate) fn into_list(self, memory: &mut StageMemory) -> List<LpRow>
        ensures { result ≡ self }
    {
        let WrittenRows { mut rows, count } = self;
        let_go(memory, &mut rows, count);
        List::from_vec(rows)
    }
}
