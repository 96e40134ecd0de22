// The table of a program's columns.
ghost use Rattle.std.specs.Prelude.{◌≡◌, ◌≤◌, ◌<◌, length, map, replicate, pos, IfOk, IfSome};
ghost use Rattle.lp_table.specs.Updates.{GivesNew};
ghost use Rattle.lp_scale.specs.Walks.{run};
ghost use Rattle.lp_scale.specs.Scaling.{AreSmall, blank_basis_of, is_below_zero};
ghost use Rattle.lp_wide_table.specs.Shape.{IsWideTable};
ghost use Rattle.lp_wide_table.specs.Scaling.{wide_column_step, wide_with_column, wide_blank_of, wide_blank_bounds_of, wide_columns_table};

use crate::ranged_numbers::{WideCell, WideQuantity};
use crate::rows::WideRows;
use crate::scaling::{WideScaledColumn, scaled_column};
use crate::square::WideSquare;
use crate::table::{WideBounds, WideTable};
use base_num::{List, Memory};
use lp_program::Column;
use lp_scale::tables::blank_basis;
use lp_table::lists::repeated;
use lp_table::{Basis, Scales};
use std::alloc::Global;

fn blank_bounds(alloc: Global, count: usize) -> Result<WideBounds, Memory>
    ensures { IfOk result (λ bounds. bounds ≡ wide_blank_bounds_of count) }
{
    Ok(WideBounds {
        lows: repeated(alloc, count, WideQuantity::zero())?,
        ups: repeated(alloc, count, WideQuantity::zero())?,
        has_low: repeated(alloc, count, true)?,
        has_up: repeated(alloc, count, true)?,
    })
}

// WideBounds and basis of a table without rows.
fn blank_variables(alloc: Global, count: usize) -> Result<(WideBounds, Basis), Memory>
    ensures bounds { IfOk result (λ made. made.0 ≡ wide_blank_bounds_of count) }
    ensures basis { IfOk result (λ made. made.1 ≡ blank_basis_of count) }
{
    let bounds = blank_bounds(alloc, count)?;
    Ok((bounds, blank_basis(alloc, count)?))
}

// Zeros, one for each column: costs, reduced costs and values.
fn zeros(
    alloc: Global,
    count: usize,
) -> Result<(List<WideCell>, List<WideCell>, List<WideQuantity>), Memory>
    ensures costs { IfOk result (λ made. made.0 ≡ replicate count (pos 0)) }
    ensures reduced { IfOk result (λ made. made.1 ≡ replicate count (pos 0)) }
    ensures values { IfOk result (λ made. made.2 ≡ replicate count (pos 0)) }
{
    let costs = repeated(alloc, count, WideCell::zero())?;
    let reduced = repeated(alloc, count, WideCell::zero())?;
    Ok((
        costs,
        reduced,
        repeated(alloc, count, WideQuantity::zero())?,
    ))
}

// A table without rows, whose columns are 0, with these exponents.
fn blank(alloc: Global, count: usize, scales: Scales) -> Result<WideTable, Memory>
    requires few { count ≤ 1199 }
    ensures { IfOk result (λ table. table ≡ wide_blank_of count scales) }
{
    let (bounds, basis) = blank_variables(alloc, count)?;
    let (costs, reduced, values) = zeros(alloc, count)?;
    let lines = WideSquare::new(alloc, count)?;
    Ok(WideTable {
        scales,
        rows: WideRows::new(alloc),
        costs,
        bounds,
        basis,
        reduced,
        lines,
        values,
    })
}

// Like `blank`, with the contract that the result is a table.
fn blank_table(alloc: Global, count: usize, scales: Scales) -> Result<WideTable, Memory>
    requires few { count ≤ 1199 }
    requires small { AreSmall 1000 scales }
    requires columns { length scales.columns ≡ count }
    requires rows { length scales.rows ≡ 0 }
    ensures value { IfOk result (λ table. table ≡ wide_blank_of count scales) }
    ensures whole { IfOk result IsWideTable }
    ensures count { IfOk result (λ table. length table.costs ≡ count) }
    ensures rows { IfOk result (λ table. length table.rows ≡ 0) }
{
    blank(alloc, count, scales)
}

// Writes the bounds, the cost and the reduced cost of column j, which is nonbasic at place j.
fn write_column(table: &mut WideTable, j: usize, column: WideScaledColumn)
    requires costs { j < length table.old.costs }
    requires reduced { j < length table.old.reduced }
    requires lows { j < length table.old.bounds.lows }
    requires ups { j < length table.old.bounds.ups }
    ensures { table.new ≡ wide_with_column j column table.old }
{
    table.costs.set(j, column.cost);
    table.reduced.set(j, column.cost);
    table.bounds.lows.set(j, column.low);
    table.bounds.ups.set(j, column.up);
}

// Column j of a program, scaled. The answer is false exactly where a number leaves its range: the
// table is then as before.
#[tactic(auto, unfolding(crate::specs::Scaling::wide_column_step))]
fn scale_column(table: &mut WideTable, j: usize, column: &Column) -> bool
    requires whole { IsWideTable table.old }
    requires there { j < length table.old.costs }
    ensures value { GivesNew result (wide_column_step j column.now table.old) table.new }
    ensures whole { IsWideTable table.new }
    ensures count { length table.new.costs ≡ length table.old.costs }
    ensures rows { table.new.rows ≡ table.old.rows }
{
    let exponent = table.scales.columns.as_slice()[j];
    match scaled_column(column, exponent, table.scales.costs, table.scales.values) {
        Some(scaled) => {
            write_column(table, j, scaled);
            true
        }
        None => false,
    }
}

// The columns of a program, scaled: their bounds, costs and reduced costs. The answer is false
// exactly where a number leaves its range.
fn scale_columns(table: &mut WideTable, columns: &[Column]) -> bool
    requires whole { IsWideTable table.old }
    requires there { length columns.now ≤ length table.old.costs }
    ensures value { GivesNew result (run wide_column_step 0 columns.now table.old) table.new }
    ensures whole { IsWideTable table.new }
    ensures count { length table.new.costs ≡ length table.old.costs }
    ensures rows { table.new.rows ≡ table.old.rows }
{
    for j in 0..columns.len() {
        if !scale_column(table, j, &columns[j]) {
            return false;
        }
    }
    true
}

fn is_negative(cell: WideCell) -> bool
    ensures { result ≡ is_below_zero cell }
{
    cell.number() < 0
}

// Sets each column to its upper bound where its reduced cost is negative.
fn stand(high: &mut [bool], reduced: &[WideCell])
    requires { length high.old ≡ length reduced.now }
    ensures { high.new ≡ map is_below_zero reduced.now }
{
    for j in 0..reduced.len() {
        high[j] = is_negative(reduced[j]);
    }
}

// The table of a program's columns, with these exponents. None where a number leaves its range.
#[tactic(auto, unfolding(crate::specs::Scaling::wide_columns_table))]
pub(crate) fn columns_table(
    alloc: Global,
    count: usize,
    scales: Scales,
    columns: &[Column],
) -> Result<Option<WideTable>, Memory>
    requires few { count ≤ 1199 }
    requires small { AreSmall 1000 scales }
    requires exponents { length scales.columns ≡ count }
    requires rows { length scales.rows ≡ 0 }
    requires columns { length columns.now ≤ count }
    ensures value { IfOk result (λ table. table ≡ wide_columns_table count scales columns.now) }
    ensures whole { IfOk result (λ table. IfSome table IsWideTable) }
    ensures count { IfOk result (λ table. IfSome table (λ t. length t.costs ≡ count)) }
    ensures rows { IfOk result (λ table. IfSome table (λ t. length t.rows ≡ 0)) }
{
    let mut table = blank_table(alloc, count, scales)?;
    if !scale_columns(&mut table, columns) {
        return Ok(None);
    }
    stand(table.basis.high.as_mut_slice(), table.reduced.as_slice());
    Ok(Some(table))
}
