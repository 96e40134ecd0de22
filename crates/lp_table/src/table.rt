// The table of a chain of solves.
ghost use Rattle.std.specs.Prelude.{◌≡◌, ◌<◌, length, IfOk, OnOk};
ghost use Rattle.lp_table.specs.Bounding.{low_bound_of, up_bound_of};

use crate::lists::{copied_with_room, write_over};
use crate::ranged_numbers::{Cell, Quantity};
use crate::rows::Rows;
use crate::square::Square;
use base_num::{List, Memory, copied};
use std::alloc::Global;

/// Exponents of two: what is scaled is the number times 2 to the power of its exponents.
#[derive(Drop)]
pub struct Scales {
    /// The exponent e of each row.
    pub rows: List<i32>,
    /// The exponent f of each column.
    pub columns: List<i32>,
    /// The exponent g of all costs.
    pub costs: i32,
    /// The exponent h of all values.
    pub values: i32,
}

impl Scales {
    // Copies the scales, with memory for so many rows more.
    fn copy(&self, alloc: Global, more: usize) -> Result<Scales, Memory>
        ensures { IfOk result (λ scales. scales ≡ self.now) }
    {
        Ok(Scales {
            rows: copied_with_room(alloc, self.rows.as_slice(), more)?,
            columns: copied(alloc, self.columns.as_slice())?,
            costs: self.costs,
            values: self.values,
        })
    }

    // Writes other scales over these, with memory for so many rows more.
    fn write_over(&mut self, alloc: Global, from: &Scales, more: usize) -> Result<(), Memory>
        ensures { OnOk result (self.new ≡ from.now) }
    {
        write_over(alloc, &mut self.rows, from.rows.as_slice(), more)?;
        write_over(alloc, &mut self.columns, from.columns.as_slice(), 0)?;
        self.costs = from.costs;
        self.values = from.values;
        Ok(())
    }
}

/// Bounds of all variables, scaled: first those of the columns, then those of the slacks, which are
/// the sides of the rows.
#[derive(Drop)]
pub struct Bounds {
    /// The lower bound of each variable, 0 where there is none.
    pub lows: List<Quantity>,
    /// The upper bound of each variable, 0 where there is none.
    pub ups: List<Quantity>,
    /// Whether each variable has a lower bound.
    pub has_low: List<bool>,
    /// Whether each variable has an upper bound.
    pub has_up: List<bool>,
}

impl Bounds {
    /// The lower bound of a variable. None where there is none.
    pub fn low(&self, variable: usize) -> Option<Quantity>
        requires low { variable < length self.now.lows }
        requires flag { variable < length self.now.has_low }
        ensures { result ≡ low_bound_of self.now variable }
    {
        if self.has_low.as_slice()[variable] {
            Some(self.lows.as_slice()[variable])
        } else {
            None
        }
    }

    /// The upper bound of a variable. None where there is none.
    pub fn up(&self, variable: usize) -> Option<Quantity>
        requires up { variable < length self.now.ups }
        requires flag { variable < length self.now.has_up }
        ensures { result ≡ up_bound_of self.now variable }
    {
        if self.has_up.as_slice()[variable] {
            Some(self.ups.as_slice()[variable])
        } else {
            None
        }
    }

    // Copies the bounds, with memory for so many rows more.
    fn copy(&self, alloc: Global, more: usize) -> Result<Bounds, Memory>
        ensures { IfOk result (λ bounds. bounds ≡ self.now) }
    {
        Ok(Bounds {
            lows: copied_with_room(alloc, self.lows.as_slice(), more)?,
            ups: copied_with_room(alloc, self.ups.as_slice(), more)?,
            has_low: copied_with_room(alloc, self.has_low.as_slice(), more)?,
            has_up: copied_with_room(alloc, self.has_up.as_slice(), more)?,
        })
    }

    // Writes other bounds over these, with memory for so many rows more.
    fn write_over(&mut self, alloc: Global, from: &Bounds, more: usize) -> Result<(), Memory>
        ensures { OnOk result (self.new ≡ from.now) }
    {
        write_over(alloc, &mut self.lows, from.lows.as_slice(), more)?;
        write_over(alloc, &mut self.ups, from.ups.as_slice(), more)?;
        write_over(alloc, &mut self.has_low, from.has_low.as_slice(), more)?;
        write_over(alloc, &mut self.has_up, from.has_up.as_slice(), more)
    }
}

/// Which variables are not basic, and where they stand. Variables are numbered: first the columns,
/// then the slack of each row.
#[derive(Drop)]
pub struct Basis {
    /// The variable at each place.
    pub nonbasic: List<usize>,
    /// The place of each variable, none where it is basic.
    pub places: List<Option<usize>>,
    /// Whether the variable at each place stands at its upper bound, and else at its lower one.
    pub high: List<bool>,
}

impl Basis {
    /// Copies the basis. [`Memory`] where memory was refused.
    pub fn copy(&self, alloc: Global) -> Result<Basis, Memory>
        ensures { IfOk result (λ basis. basis ≡ self.now) }
    {
        self.copy_with_room(alloc, 0)
    }

    // Copies the basis, with memory for so many rows more.
    fn copy_with_room(&self, alloc: Global, more: usize) -> Result<Basis, Memory>
        ensures { IfOk result (λ basis. basis ≡ self.now) }
    {
        Ok(Basis {
            nonbasic: copied(alloc, self.nonbasic.as_slice())?,
            places: copied_with_room(alloc, self.places.as_slice(), more)?,
            high: copied(alloc, self.high.as_slice())?,
        })
    }

    // Writes another basis over this one, with memory for so many rows more.
    fn write_over(&mut self, alloc: Global, from: &Basis, more: usize) -> Result<(), Memory>
        ensures { OnOk result (self.new ≡ from.now) }
    {
        write_over(alloc, &mut self.nonbasic, from.nonbasic.as_slice(), 0)?;
        write_over(alloc, &mut self.places, from.places.as_slice(), more)?;
        write_over(alloc, &mut self.high, from.high.as_slice(), 0)
    }
}

/// Which cuts have rows in a table, and which wait until a point violates them.
#[derive(Drop)]
pub struct CutRows {
    /// The program's row of each row behind the own ones, in the order in which these came.
    pub rows: List<usize>,
    /// Whether each column is that of a successor whose cuts come in only as they are asked for.
    pub waiting: List<bool>,
}

impl CutRows {
    // Copies the cuts, with memory for so many rows more.
    fn copy(&self, alloc: Global, more: usize) -> Result<CutRows, Memory>
        ensures { IfOk result (λ cuts. cuts ≡ self.now) }
    {
        Ok(CutRows {
            rows: copied_with_room(alloc, self.rows.as_slice(), more)?,
            waiting: copied(alloc, self.waiting.as_slice())?,
        })
    }

    // Writes other cuts over these, with memory for so many rows more.
    fn write_over(&mut self, alloc: Global, from: &CutRows, more: usize) -> Result<(), Memory>
        ensures { OnOk result (self.new ≡ from.now) }
    {
        write_over(alloc, &mut self.rows, from.rows.as_slice(), more)?;
        write_over(alloc, &mut self.waiting, from.waiting.as_slice(), 0)
    }
}

/// The state of a chain of solves: a program in scaled numbers, with how its basic variables depend on the nonbasic ones. There
/// are as many places, for nonbasic variables, as columns.
#[derive(Drop)]
pub struct WarmTable {
    /// The scales of the numbers.
    pub scales: Scales,
    /// The terms of each row: first the program's own rows, then rows of cuts in the order in which they came.
    pub rows: Rows,
    /// Which cuts these are, and which wait.
    pub cuts: CutRows,
    /// The cost of each column.
    pub costs: List<Cell>,
    /// The bounds of all variables.
    pub bounds: Bounds,
    /// Which variables are not basic.
    pub basis: Basis,
    /// The reduced cost at each place; of a slack, the dual of its row.
    pub reduced: List<Cell>,
    /// For each basic column the cells by which it is a sum over all places; for other columns the cells that were left there.
    pub lines: Square,
    /// The value of each column.
    pub values: List<Quantity>,
    /// Whether the answer that was found last is not to be trusted.
    pub weak: bool,
}

impl WarmTable {
    // The scales, the rows and their cuts, with memory for so many rows more.
    fn copied_rows(&self, alloc: Global, more: usize) -> Result<(Scales, Rows, CutRows), Memory>
        ensures scales { IfOk result (λ copied. copied.0 ≡ self.now.scales) }
        ensures rows { IfOk result (λ copied. copied.1 ≡ self.now.rows) }
        ensures cuts { IfOk result (λ copied. copied.2 ≡ self.now.cuts) }
    {
        let scales = self.scales.copy(alloc, more)?;
        let rows = self.rows.copy(alloc, more)?;
        Ok((scales, rows, self.cuts.copy(alloc, more)?))
    }

    // The bounds and the basis, with memory for so many rows more, and the lines.
    fn copied_variables(
        &self,
        alloc: Global,
        more: usize,
    ) -> Result<(Bounds, Basis, Square), Memory>
        ensures bounds { IfOk result (λ copied. copied.0 ≡ self.now.bounds) }
        ensures basis { IfOk result (λ copied. copied.1 ≡ self.now.basis) }
        ensures lines { IfOk result (λ copied. copied.2 ≡ self.now.lines) }
    {
        let bounds = self.bounds.copy(alloc, more)?;
        let basis = self.basis.copy_with_room(alloc, more)?;
        Ok((bounds, basis, self.lines.copy(alloc)?))
    }

    // The costs, the reduced costs and the values.
    fn copied_columns(
        &self,
        alloc: Global,
    ) -> Result<(List<Cell>, List<Cell>, List<Quantity>), Memory>
        ensures costs { IfOk result (λ copied. copied.0 ≡ self.now.costs) }
        ensures reduced { IfOk result (λ copied. copied.1 ≡ self.now.reduced) }
        ensures values { IfOk result (λ copied. copied.2 ≡ self.now.values) }
    {
        let costs = copied(alloc, self.costs.as_slice())?;
        let reduced = copied(alloc, self.reduced.as_slice())?;
        Ok((costs, reduced, copied(alloc, self.values.as_slice())?))
    }

    /// Copies the table, with memory for so many rows more. [`Memory`] where memory was refused.
    pub fn copy(&self, alloc: Global, more: usize) -> Result<WarmTable, Memory>
        ensures { IfOk result (λ table. table ≡ self.now) }
    {
        let (scales, rows, cuts) = self.copied_rows(alloc, more)?;
        let (bounds, basis, lines) = self.copied_variables(alloc, more)?;
        let (costs, reduced, values) = self.copied_columns(alloc)?;
        Ok(WarmTable {
            scales,
            rows,
            cuts,
            costs,
            bounds,
            basis,
            reduced,
            lines,
            values,
            weak: self.weak,
        })
    }

    /// Writes another table over this one, in its memory where that is large enough, with memory for so many rows more.
    /// [`Memory`] where memory was refused: nothing is promised of the table then.
    pub fn write_over(&mut self, alloc: Global, from: &WarmTable, more: usize) -> Result<(), Memory>
        ensures { OnOk result (self.new ≡ from.now) }
    {
        self.scales.write_over(alloc, &from.scales, more)?;
        self.rows.write_over(&from.rows, more)?;
        self.cuts.write_over(alloc, &from.cuts, more)?;
        self.bounds.write_over(alloc, &from.bounds, more)?;
        self.basis.write_over(alloc, &from.basis, more)?;
        self.lines.write_over(alloc, &from.lines)?;
        write_over(alloc, &mut self.costs, from.costs.as_slice(), 0)?;
        write_over(alloc, &mut self.reduced, from.reduced.as_slice(), 0)?;
        write_over(alloc, &mut self.values, from.values.as_slice(), 0)?;
        self.weak = from.weak;
        Ok(())
    }
}
