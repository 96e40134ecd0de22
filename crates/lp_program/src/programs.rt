// Linear programs with boxes on columns and rows, and answers to them. All numbers are in fixed point.
ghost use Rattle.std.specs.Prelude.{◌≡◌, IfOk};
ghost use Rattle.lp_program.specs.Answers.{lows_of, zeros_of};

use crate::duals::Duals;
use crate::fixed::Fx;
use base_num::{List, Memory};
use std::alloc::Global;

/// A variable with its box and its cost for each unit.
#[derive(Drop)]
pub struct Column {
    /// The least value.
    pub low: Fx,
    /// The greatest value.
    pub high: Fx,
    /// The cost for each unit.
    pub cost: Fx,
}

/// A row `low <= terms <= high`, where either side may be absent.
#[derive(Drop)]
pub struct LpRow {
    /// The lower side.
    pub low: Option<Fx>,
    /// The upper side.
    pub high: Option<Fx>,
    /// Column numbers, which rise, with their factors.
    pub terms: List<(u32, Fx)>,
}

/// The least cost of columns in their boxes, such that each row keeps its sides.
#[derive(Drop)]
pub struct Program {
    /// The columns: first a node's decisions, then one for the future cost at each of its successors.
    pub columns: List<Column>,
    /// The rows: first a node's own, then its successors' cuts.
    pub rows: List<LpRow>,
    /// The number of columns that are the node's decisions.
    pub decisions: u32,
    /// The number of rows that are the node's own.
    pub own: u32,
}

/// The kind of an answer.
#[derive(Clone, Copy, Debug, PartialEq, Eq)]
pub enum Kind {
    /// A point that keeps all rows, with duals.
    Found,
    /// Duals by which no point keeps all rows.
    Ray,
    /// Nothing was found out.
    Stuck,
}

/// An answer. It is a claim: nothing rests on its being right.
#[derive(Drop)]
pub struct Answer {
    /// The kind of the answer.
    pub kind: Kind,
    /// A value for each column. A missing one stands for the column's least value.
    pub point: List<Fx>,
    /// A dual for each row. A missing one stands for 0.
    pub duals: Duals,
}

/// The least value of each column. [`Memory`] where memory was refused.
pub(crate) fn least_values(alloc: Global, columns: &[Column]) -> Result<List<Fx>, Memory>
    ensures { IfOk result (λ found. found ≡ lows_of columns.now) }
{
    let mut found = List::new(alloc);
    for column in columns {
        found.push(column.low)?;
    }
    Ok(found)
}

impl Program {
    /// The least value of each column. [`Memory`] where memory was refused.
    pub fn lows(&self, alloc: Global) -> Result<List<Fx>, Memory>
        ensures { IfOk result (λ found. found ≡ lows_of self.now.columns) }
    {
        least_values(alloc, self.columns.as_slice())
    }

    /// A dual of 0 for each row.
    pub fn zeros(&self, alloc: Global) -> Duals
        ensures { result ≡ zeros_of self.now.rows }
    {
        Duals::zeros(alloc, self.rows.len())
    }
}
