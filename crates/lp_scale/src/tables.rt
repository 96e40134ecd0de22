// The first table of a program.
ghost use Rattle.std.specs.Prelude.{◌≡◌, ◌+◌, ◌≤◌, ◌<◌, length, map, replicate, true, false, Some, pos, IfOk, IfSome};
ghost use Rattle.lp_program.specs.Proper.{IsProper};
ghost use Rattle.lp_table.specs.Shape.{IsTable};
ghost use Rattle.lp_scale.specs.Walks.{GivesWalked};
ghost use Rattle.lp_scale.specs.Walks.{run};
ghost use Rattle.lp_scale.specs.First.{first_of};
ghost use Rattle.lp_scale.specs.Fitting.{Suits};
ghost use Rattle.lp_scale.specs.Scaling.{column_step, with_column, blank_with, blank_of, blank_bounds_of, blank_basis_of, blank_cuts_of, columns_table, AreSmall, column_numbers, is_below_zero};

use crate::appending::append;
use crate::exponents::columns;
use crate::scaling::{ScaledColumn, costs_scale, scaled_column, values_scale};
use base_num::{List, Memory};
use lp_program::{Column, LpRow, StageLp};
use lp_table::lists::repeated;
use lp_table::{Basis, Bounds, Cell, CutRows, Quantity, Rows, Scales, Square, WarmTable};
use std::alloc::Global;

fn blank_bounds(alloc: Global, count: usize) -> Result<Bounds, Memory>
    ensures { IfOk result (λ bounds. bounds ≡ blank_bounds_of count) }
{
    Ok(Bounds {
        lows: repeated(alloc, count, Quantity::zero())?,
        ups: repeated(alloc, count, Quantity::zero())?,
        has_low: repeated(alloc, count, true)?,
        has_up: repeated(alloc, count, true)?,
    })
}

fn counted(alloc: Global, count: usize) -> Result<List<usize>, Memory>
    ensures { IfOk result (λ found. found ≡ column_numbers count) }
{
    let mut found = List::new(alloc);
    for j in 0..count {
        found.push(j)?;
    }
    Ok(found)
}

fn counted_places(alloc: Global, count: usize) -> Result<List<Option<usize>>, Memory>
    ensures { IfOk result (λ found. found ≡ map Some (column_numbers count)) }
{
    let mut found = List::new(alloc);
    for j in 0..count {
        found.push(Some(j))?;
    }
    Ok(found)
}

/// The basis of so many columns without rows: each is nonbasic, at the place of its number, at its lower bound.
pub fn blank_basis(alloc: Global, count: usize) -> Result<Basis, Memory>
    ensures { IfOk result (λ basis. basis ≡ blank_basis_of count) }
{
    Ok(Basis {
        nonbasic: counted(alloc, count)?,
        places: counted_places(alloc, count)?,
        high: repeated(alloc, count, false)?,
    })
}

fn blank_cuts(alloc: Global, count: usize) -> Result<CutRows, Memory>
    ensures { IfOk result (λ cuts. cuts ≡ blank_cuts_of count) }
{
    Ok(CutRows {
        rows: List::new(alloc),
        waiting: repeated(alloc, count, false)?,
    })
}

// Bounds, basis and cuts of a table without rows.
fn blank_variables(alloc: Global, count: usize) -> Result<(Bounds, Basis, CutRows), Memory>
    ensures bounds { IfOk result (λ made. made.0 ≡ blank_bounds_of count) }
    ensures basis { IfOk result (λ made. made.1 ≡ blank_basis_of count) }
    ensures cuts { IfOk result (λ made. made.2 ≡ blank_cuts_of count) }
{
    let bounds = blank_bounds(alloc, count)?;
    let basis = blank_basis(alloc, count)?;
    Ok((bounds, basis, blank_cuts(alloc, count)?))
}

// Zeros, one for each column: costs, reduced costs and values.
fn zeros(alloc: Global, count: usize) -> Result<(List<Cell>, List<Cell>, List<Quantity>), Memory>
    ensures costs { IfOk result (λ made. made.0 ≡ replicate count (pos 0)) }
    ensures reduced { IfOk result (λ made. made.1 ≡ replicate count (pos 0)) }
    ensures values { IfOk result (λ made. made.2 ≡ replicate count (pos 0)) }
{
    let costs = repeated(alloc, count, Cell::zero())?;
    let reduced = repeated(alloc, count, Cell::zero())?;
    Ok((costs, reduced, repeated(alloc, count, Quantity::zero())?))
}

// A table without rows, whose columns are 0, with exponents of columns, costs and values.
fn blank_with(
    alloc: Global,
    count: usize,
    columns: List<i32>,
    costs_exponent: i32,
    values_exponent: i32,
) -> Result<WarmTable, Memory>
    requires few { count ≤ 1199 }
    ensures { IfOk result (λ table. table ≡ blank_with count columns costs_exponent values_exponent) }
{
    let (bounds, basis, cuts) = blank_variables(alloc, count)?;
    let (costs, reduced, values) = zeros(alloc, count)?;
    let lines = Square::new(alloc, count)?;
    let scales = Scales {
        rows: List::new(alloc),
        columns,
        costs: costs_exponent,
        values: values_exponent,
    };
    Ok(WarmTable {
        scales,
        rows: Rows::new(alloc),
        cuts,
        costs,
        bounds,
        basis,
        reduced,
        lines,
        values,
        weak: false,
    })
}

// Makes a table without rows, by the exponents for some decisions and rows.
#[tactic(auto, unfolding(crate::specs::Scaling::blank_of))]
fn blank(
    alloc: Global,
    count: usize,
    decisions: &[Column],
    rows: &[LpRow],
) -> Result<WarmTable, Memory>
    requires few { count ≤ 1199 }
    requires decisions { length decisions.now ≤ count }
    ensures value { IfOk result (λ table. table ≡ blank_of count decisions.now rows.now) }
    ensures whole { IfOk result IsTable }
    ensures small { IfOk result (λ table. AreSmall 512 table.scales) }
    ensures count { IfOk result (λ table. length table.costs ≡ count) }
{
    let columns = columns(alloc, count, decisions, rows)?;
    let costs = costs_scale(columns.as_slice(), decisions);
    let values = values_scale(columns.as_slice(), decisions);
    blank_with(alloc, count, columns, costs, values)
}

// Writes the bounds, the cost and the reduced cost of column j, which is nonbasic at place j.
fn write_column(table: &mut WarmTable, j: usize, column: ScaledColumn)
    requires costs { j < length table.old.costs }
    requires reduced { j < length table.old.reduced }
    requires lows { j < length table.old.bounds.lows }
    requires ups { j < length table.old.bounds.ups }
    ensures { table.new ≡ with_column j column table.old }
{
    table.costs.set(j, column.cost);
    table.reduced.set(j, column.cost);
    table.bounds.lows.set(j, column.low);
    table.bounds.ups.set(j, column.up);
}

// Column j of a program, scaled. The answer is false exactly where a number leaves its range: the
// table is then as before.
#[tactic(auto, unfolding(crate::specs::Scaling::column_step))]
fn scale_column(table: &mut WarmTable, j: usize, column: &Column) -> bool
    requires whole { IsTable table.old }
    requires small { AreSmall 1000 table.old.scales }
    requires there { j < length table.old.costs }
    ensures value { GivesWalked result (column_step j column.now table.old) table.new }
    ensures whole { IsTable table.new }
    ensures scales { table.new.scales ≡ table.old.scales }
    ensures count { length table.new.costs ≡ length table.old.costs }
{
    let exponent = table.scales.columns.as_slice()[j];
    match scaled_column(column, exponent, table.scales.costs, table.scales.values) {
        Some(scaled) => {
            write_column(table, j, scaled);
            true
        }
        None => false,
    }
}

/// Scales some columns of a program, from number `first` on: their bounds, costs and reduced costs. The answer is false exactly
/// where a number leaves its range.
pub(crate) fn scale_columns(table: &mut WarmTable, first: usize, columns: &[Column]) -> bool
    requires whole { IsTable table.old }
    requires small { AreSmall 1000 table.old.scales }
    requires there { first + length columns.now ≤ length table.old.costs }
    ensures value { GivesWalked result (run column_step first columns.now table.old) table.new }
    ensures whole { IsTable table.new }
    ensures scales { table.new.scales ≡ table.old.scales }
    ensures count { length table.new.costs ≡ length table.old.costs }
{
    for j in 0..columns.len() {
        if !scale_column(table, first + j, &columns[j]) {
            return false;
        }
    }
    true
}

fn is_negative(cell: Cell) -> bool
    ensures { result ≡ is_below_zero cell }
{
    cell.number() < 0
}

// Sets each column to its upper bound where its reduced cost is negative.
fn stand(high: &mut [bool], reduced: &[Cell])
    requires { length high.old ≡ length reduced.now }
    ensures { high.new ≡ map is_below_zero reduced.now }
{
    for j in 0..reduced.len() {
        high[j] = is_negative(reduced[j]);
    }
}

// The columns of the first table. None where a number leaves its range.
#[tactic(auto, unfolding(crate::specs::Scaling::columns_table))]
fn columns_table(
    alloc: Global,
    count: usize,
    decisions: &[Column],
    rows: &[LpRow],
) -> Result<Option<WarmTable>, Memory>
    requires few { count ≤ 1199 }
    requires decisions { length decisions.now ≤ count }
    ensures value { IfOk result (λ table. table ≡ columns_table count decisions.now rows.now) }
    ensures whole { IfOk result (λ table. IfSome table IsTable) }
    ensures small { IfOk result (λ table. IfSome table (λ t. AreSmall 512 t.scales)) }
    ensures count { IfOk result (λ table. IfSome table (λ t. length t.costs ≡ count)) }
{
    let mut table = blank(alloc, count, decisions, rows)?;
    if !scale_columns(&mut table, 0, decisions) {
        return Ok(None);
    }
    stand(table.basis.high.as_mut_slice(), table.reduced.as_slice());
    Ok(Some(table))
}

/// The first table of a program's own part, which is that of a reference program: of its own rows,
/// with its decisions, where the other columns stand at 0 and cost nothing. None where there are
/// more than 1,199 columns, or where a number leaves its range. [`Memory`] where memory was refused.
#[tactic(auto, unfolding(crate::specs::First::first_of))]
pub fn first(alloc: Global, lp: &StageLp) -> Result<Option<WarmTable>, Memory>
    requires proper { IsProper lp.now }
    ensures value { IfOk result (λ table. table ≡ first_of lp.now) }
    ensures whole { IfOk result (λ table. IfSome table IsTable) }
    ensures small { IfOk result (λ table. IfSome table (λ t. AreSmall 512 t.scales)) }
    ensures columns { IfOk result (λ table. IfSome table (λ t. length t.costs ≡ length lp.now.columns)) }
    ensures suits { IfOk result (λ table. IfSome table (λ t. Suits t lp.now)) }
{
    let count = lp.columns().len();
    if count > 1199 {
        return Ok(None);
    }
    let (decisions, _) = lp.columns().split_at(lp.decisions());
    let own = lp.own_rows();
    let Some(mut table) = columns_table(alloc, count, decisions, own)? else {
        return Ok(None);
    };
    if append(alloc, &mut table, own)? {
        Ok(Some(table))
    } else {
        Ok(None)
    }
}
