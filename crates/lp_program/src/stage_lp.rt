// Linear programs whose cuts are listed as rows, or stand side by side where they were made.
ghost use Rattle.std.specs.Prelude.{◌≡◌, ◌≤◌, ◌<◌, length, take, drop, get_or, set, slice_get, Some, IfOk, OnOk};
ghost use Rattle.lp_program.specs.declared.programs.Program.{Program};
ghost use Rattle.lp_program.specs.Answers.{lows_of, zeros_of};
ghost use Rattle.lp_program.specs.Packed.{rows_of, IsView};
ghost use Rattle.lp_program.specs.StageLps.{AreCuts, no_row, with_sides, with_rows};

use crate::duals::Duals;
use crate::fixed::Fx;
use crate::packed::{PackedView, cut_count};
use crate::programs::{Column, LpRow, Program, least_values};
use crate::row_writing::{blank_row, copy_row, write_row_of};
use base_num::{List, Memory};
use std::alloc::Global;
use std::marker::Model;

/// A program of a stage. Contracts see it as the whole program, with a row for each cut.
#[derive(Drop)]
pub struct StageLp<'a> {
    /// The program with the rows that are listed.
    listed: Program,
    /// The cuts that are not.
    packed: Option<PackedView<'a>>,
    /// The number of all rows.
    count: usize,
}

impl<'a> Model for StageLp<'a> {
    ghost use Rattle.lp_program.specs.declared.programs.Program.{Program};
    ghost use Rattle.lp_program.specs.StageLps.{whole_program, IsCounted};

    ghost Value = { Program };

    ghost view = { λ s. whole_program s.listed s.packed };

    ghost invariant = { λ s. IsCounted s.listed s.packed s.count };
}

/// The cuts of a program: rows that are listed, or cuts side by side.
pub enum Cuts<'b, 'a> {
    /// Rows.
    Listed(&'b [LpRow]),
    /// Cuts side by side.
    Packed(&'b PackedView<'a>),
}

fn copied_columns(alloc: Global, columns: &[Column]) -> Result<List<Column>, Memory>
    ensures { IfOk result (λ found. found ≡ columns.now) }
{
    let mut found = List::new(alloc);
    for column in columns {
        found.push(Column {
            low: column.low,
            high: column.high,
            cost: column.cost,
        })?;
    }
    Ok(found)
}

// Gives a row other sides.
fn restate(rows: &mut [LpRow], row: usize, low: Option<Fx>, high: Option<Fx>)
    requires { row < length rows.old }
    ensures { rows.new ≡ set rows.old row (record (get_or rows.old row no_row) { low = low; high = high }) }
{
    rows[row].low = low;
    rows[row].high = high;
}

impl<'a> StageLp<'a> {
    /// A program whose rows are all listed.
    pub fn of(program: Program) -> StageLp<'a>
        requires { program.own ≤ length program.rows }
        ensures { result ≡ program }
    {
        let count = program.rows.len();
        StageLp {
            listed: program,
            packed: None,
            count,
        }
    }

    /// A program of own rows with the cuts of its successors.
    pub fn with_cuts(own: Program, cuts: PackedView<'a>) -> StageLp<'a>
        requires own { own.own ≡ length own.rows }
        requires view { IsView cuts }
        ensures { result ≡ with_rows own (rows_of cuts.entry) }
    {
        let count = own.rows.len() + cut_count(&cuts);
        StageLp {
            listed: own,
            packed: Some(cuts),
            count,
        }
    }

    /// The columns: first the decisions, then one for the future cost at each successor.
    pub fn columns(&self) -> &[Column]
        ensures { result.now ≡ self.now.columns }
    {
        self.listed.columns.as_slice()
    }

    /// The number of columns that are decisions.
    pub fn decisions(&self) -> usize
        ensures { result ≡ self.now.decisions }
    {
        self.listed.decisions as usize
    }

    /// The number of own rows.
    pub fn own(&self) -> usize
        ensures { result ≡ self.now.own }
    {
        self.listed.own as usize
    }

    /// The number of all rows.
    pub fn row_count(&self) -> usize
        ensures { result ≡ length self.now.rows }
    {
        self.count
    }

    /// The own rows.
    pub fn own_rows(&self) -> &[LpRow]
        ensures { result.now ≡ take self.now.own self.now.rows }
    {
        let (own, _) = self
            .listed
            .rows
            .as_slice()
            .split_at(self.listed.own as usize);
        own
    }

    /// The cuts.
    pub fn cuts(&self) -> Cuts<'_, 'a>
        ensures { AreCuts result (drop self.now.own self.now.rows) }
    {
        match &self.packed {
            Some(view) => Cuts::Packed(view),
            None => {
                let (_, cuts) = self
                    .listed
                    .rows
                    .as_slice()
                    .split_at(self.listed.own as usize);
                Cuts::Listed(cuts)
            }
        }
    }

    /// Writes the row at a number over another. [`Memory`] where memory was refused.
    pub fn write_row(&self, number: usize, over: &mut LpRow) -> Result<(), Memory>
        requires { number < length self.now.rows }
        ensures { OnOk result (slice_get self.now.rows number ≡ Some over.new) }
    {
        let listed = self.listed.rows.as_slice();
        if number < listed.len() {
            return copy_row(&listed[number], over);
        }
        match &self.packed {
            Some(view) => write_row_of(view, number - listed.len(), over),
            None => Ok(()),
        }
    }

    /// The whole program with all rows listed. [`Memory`] where memory was refused.
    pub fn program(&self, alloc: Global) -> Result<Program, Memory>
        ensures { IfOk result (λ program. program ≡ self.now) }
    {
        Ok(Program {
            columns: copied_columns(alloc, self.columns())?,
            rows: self.all_rows(alloc)?,
            decisions: self.listed.decisions,
            own: self.listed.own,
        })
    }

    // A copy of each row.
    fn all_rows(&self, alloc: Global) -> Result<List<LpRow>, Memory>
        ensures { IfOk result (λ rows. rows ≡ self.now.rows) }
    {
        let mut found = List::new(alloc);
        for number in 0..self.count {
            let mut row = blank_row(alloc);
            self.write_row(number, &mut row)?;
            found.push(row)?;
        }
        Ok(found)
    }

    /// Gives an own row other sides.
    pub fn set_sides(&mut self, row: usize, low: Option<Fx>, high: Option<Fx>)
        requires { row < self.old.own }
        ensures { self.new ≡ with_sides row low high self.old }
    {
        restate(self.listed.rows.as_mut_slice(), row, low, high);
    }

    /// The rows that are listed, whose memory may serve again. Nothing is said of what they hold.
    pub fn into_rows(self) -> List<LpRow> {
        let StageLp { listed, .. } = self;
        listed.rows
    }

    /// The least value of each column. [`Memory`] where memory was refused.
    pub fn lows(&self, alloc: Global) -> Result<List<Fx>, Memory>
        ensures { IfOk result (λ found. found ≡ lows_of self.now.columns) }
    {
        least_values(alloc, self.columns())
    }

    /// A dual of 0 for each row.
    pub fn zeros(&self, alloc: Global) -> Duals
        ensures { result ≡ zeros_of self.now.rows }
    {
        Duals::zeros(alloc, self.count)
    }
}
