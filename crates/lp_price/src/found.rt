// The answer by a table in which no bound is violated.
ghost use Rattle.std.specs.Prelude.{◌≡◌, ◌<◌, ◌≤◌, ◌+◌, ◌^◌, ◌-ℤ◌, ◌*ℤ◌, pos, length, All, Some, IfOk, IfSome, OnOk, false};
ghost use Rattle.base_num.specs.Sums.{entry, floor_over};
ghost use Rattle.lp_table.specs.Shape.{IsTable, variables};
ghost use Rattle.lp_program.specs.Numbers.{held};
ghost use Rattle.base_num.specs.Each.{each_from};
ghost use Rattle.lp_price.specs.Folds.{fold_from, ReachesNew};
ghost use Rattle.lp_price.specs.Found.{place_of_variable, rounded, clamped_value, basic_point, bound_point, point_value_at, points_of, slack_dual, dual_at, own_duals, dual_step, duals_of, found_answer};

use crate::proving::own_rows;
use crate::shifting::shift_by;
use crate::whole::sum;
use base_num::{List, Memory};
use lp_program::{Answer, Column, Duals, Fx, Kind, LpRow, StageLp};
use lp_table::lists::with_room;
use lp_table::{Scales, WarmTable};
use std::alloc::Global;

// The place of a variable.
pub(crate) fn place_of(table: &WarmTable, variable: usize) -> Option<usize>
    requires sized { IsTable table.now }
    requires there { variable < variables table.now }
    ensures place { result ≡ place_of_variable table.now variable }
    ensures inside { IfSome result (λ j. j < length table.now.costs) }
{
    table.basis.places.as_slice()[variable]
}

// The variable that is the slack of a row.
pub(crate) fn slack_of(table: &WarmTable, row: usize) -> usize
    requires sized { IsTable table.now }
    requires row { row < length table.now.rows }
    ensures { result ≡ length table.now.costs + row }
{
    table.basis.places.len() - table.rows.len() + row
}

// The greatest multiple of 2^8 that is not above a number: 128 bits hold it.
fn multiple_below(x: i128) -> i128
    ensures { held (floor_over x (2 ^ 8) *ℤ pos (2 ^ 8)) ≡ Some result }
{
    (x >> 8) * 256
}

// The nearest multiple of 2^8.
#[tactic(auto, unfolding(crate::specs::Found::rounded))]
fn rounded(x: i128) -> Option<i128>
    ensures { result ≡ rounded x }
{
    let raised = sum(x, 128)?;
    Some(multiple_below(raised))
}

/// A number in a column's box.
#[tactic(auto, unfolding(crate::specs::Found::clamped_value))]
pub fn clamped(column: &Column, x: i128) -> Fx
    ensures { result ≡ clamped_value column.now x }
{
    if x < column.low.0 {
        column.low
    } else if column.high.0 < x {
        column.high
    } else {
        Fx(x)
    }
}

// Gives the power of two by which a column's value is scaled.
fn value_exponent(scales: &Scales, column: usize) -> i64
    requires { column < length scales.now.columns }
    ensures { result ≡ entry scales.now.columns column -ℤ scales.now.values }
{
    i64::from(scales.columns.as_slice()[column]) - i64::from(scales.values)
}

// Gives the power of two by which a row's dual is scaled.
fn dual_exponent(scales: &Scales, row: usize) -> i64
    requires { row < length scales.now.rows }
    ensures { result ≡ (entry scales.now.rows row -ℤ scales.now.costs) -ℤ pos 8 }
{
    i64::from(scales.rows.as_slice()[row]) - i64::from(scales.costs) - 8
}

// The value of a basic column.
#[tactic(auto, unfolding(crate::specs::Found::basic_point))]
fn basic_point(table: &WarmTable, number: usize, column: &Column) -> Option<Fx>
    requires sized { IsTable table.now }
    requires there { number < length table.now.costs }
    ensures { result ≡ basic_point table.now number column.now }
{
    let value = i128::from(table.values.as_slice()[number].number());
    let x = shift_by(value, value_exponent(&table.scales, number))?;
    Some(clamped(column, rounded(x)?))
}

// The value of a nonbasic column.
fn bound_point(table: &WarmTable, column: &Column, place: usize) -> Fx
    requires sized { IsTable table.now }
    requires there { place < length table.now.costs }
    ensures { result ≡ bound_point table.now column.now place }
{
    if table.basis.high.as_slice()[place] {
        column.high
    } else {
        column.low
    }
}

// The value of a column.
fn point_at(table: &WarmTable, number: usize, column: &Column) -> Option<Fx>
    requires sized { IsTable table.now }
    requires there { number < length table.now.costs }
    ensures { result ≡ point_value_at table.now number column.now }
{
    match place_of(table, number) {
        None => basic_point(table, number, column),
        Some(place) => Some(bound_point(table, column, place)),
    }
}

// The values of all columns, put into a list; false where one is absent.
fn fill(table: &WarmTable, columns: &[Column], found: &mut List<Fx>) -> Result<bool, Memory>
    requires sized { IsTable table.now }
    requires columns { length columns.now ≡ length table.now.costs }
    ensures { IfOk result (λ there. ReachesNew there (each_from (point_value_at table.now) 0 columns.now) found.new) }
{
    found.clear();
    for j in 0..columns.len() {
        match point_at(table, j, &columns[j]) {
            Some(x) => found.push(x)?,
            None => return Ok(false),
        }
    }
    Ok(true)
}

/// Writes the value of each column, in the program's numbers, into a list; what the list held is dropped. The value of a
/// column that is not basic is its bound in the program; of a basic one its value in the table, to the nearest multiple
/// of 2^-24, in its box. False where a number on the way leaves 128 bits. [`Memory`] where memory was refused.
#[tactic(auto, unfolding(crate::specs::Found::points_of))]
pub fn points(table: &WarmTable, lp: &StageLp, found: &mut List<Fx>) -> Result<bool, Memory>
    requires sized { IsTable table.now }
    requires columns { length lp.now.columns ≡ length table.now.costs }
    ensures { IfOk result (λ there. ReachesNew there (points_of table.now lp.now) found.new) }
{
    fill(table, lp.columns(), found)
}

// The dual of a row whose slack is at a place.
#[tactic(auto, unfolding(crate::specs::Found::slack_dual))]
fn slack_dual(table: &WarmTable, row: usize, place: usize) -> Option<Fx>
    requires sized { IsTable table.now }
    requires row { row < length table.now.rows }
    requires place { place < length table.now.costs }
    ensures { result ≡ slack_dual table.now row place }
{
    let cost = i128::from(table.reduced.as_slice()[place].number());
    Some(Fx(shift_by(cost, dual_exponent(&table.scales, row))?))
}

// The dual of a row of the table.
#[tactic(auto, unfolding(crate::specs::Found::dual_at))]
fn dual_at(table: &WarmTable, row: usize) -> Option<Fx>
    requires sized { IsTable table.now }
    requires there { row < length table.now.rows }
    ensures { result ≡ dual_at table.now row }
{
    match place_of(table, slack_of(table, row)) {
        None => Some(Fx(0)),
        Some(place) => slack_dual(table, row, place),
    }
}

// The duals of the program's own rows.
fn own_duals(alloc: Global, table: &WarmTable, rows: &[LpRow]) -> Result<Option<List<Fx>>, Memory>
    requires sized { IsTable table.now }
    requires rows { length rows.now ≤ length table.now.rows }
    ensures { IfOk result (λ found. found ≡ each_from (λ i r. dual_at table.now i) 0 rows.now) }
{
    let mut found = with_room(alloc, rows.len())?;
    for i in 0..rows.len() {
        match dual_at(table, i) {
            Some(x) => found.push(x)?,
            None => return Ok(None),
        }
    }
    Ok(Some(found))
}

// Sets the dual of a row of the program to that of a row of the table; false where that is absent. [`Memory`] where memory
// was refused.
#[tactic(auto, unfolding(crate::specs::Found::dual_step))]
fn set_dual(
    duals: &mut Duals,
    table: &WarmTable,
    table_row: usize,
    row: usize,
) -> Result<bool, Memory>
    requires sized { IsTable table.now }
    requires there { table_row < length table.now.rows }
    requires row { row < length duals.old }
    ensures duals { IfOk result (λ there. ReachesNew there (dual_step table.now table_row duals.old row) duals.new) }
    ensures lengths { OnOk result (length duals.new ≡ length duals.old) }
{
    match dual_at(table, table_row) {
        Some(x) => {
            duals.set(row, x)?;
            Ok(true)
        }
        None => Ok(false),
    }
}

// Sets the duals of the program's rows of cuts that have rows in the table, which are those behind the own ones.
fn set_duals(
    duals: &mut Duals,
    table: &WarmTable,
    own: usize,
    rows: &[usize],
) -> Result<bool, Memory>
    requires sized { IsTable table.now }
    requires there { length table.now.rows ≡ own + length rows.now }
    requires rows { All (λ row. row < length duals.old) rows.now }
    ensures { IfOk result (λ there. ReachesNew there (fold_from (dual_step table.now) own duals.old rows.now) duals.new) }
{
    for i in own..table.rows.len() {
        if !set_dual(duals, table, i, rows[i - own])? {
            return Ok(false);
        }
    }
    Ok(true)
}

// A dual for each row of a program.
#[tactic(auto, unfolding(crate::specs::Found::duals_of))]
fn duals(alloc: Global, table: &WarmTable, lp: &StageLp) -> Result<Option<Duals>, Memory>
    requires sized { IsTable table.now }
    requires rows { length table.now.rows ≡ lp.now.own + length table.now.cuts.rows }
    requires cuts { All (λ row. row < length lp.now.rows) table.now.cuts.rows }
    ensures { IfOk result (λ found. found ≡ duals_of table.now lp.now) }
{
    let Some(own) = own_duals(alloc, table, own_rows(lp))? else {
        return Ok(None);
    };
    let mut duals = Duals::padded(alloc, own, lp.row_count());
    if set_duals(&mut duals, table, lp.own(), table.cuts.rows.as_slice())? {
        Ok(Some(duals))
    } else {
        Ok(None)
    }
}

/// Gives the answer to a program by a table in which no bound is violated: the value of each column as [`points`] writes it,
/// and the dual of each row. The dual of an own row, or of a cut that has a row in the table, is the reduced cost of the row's
/// slack, 0 where that is basic; the dual of any other cut is 0. None where a number on the way leaves 128 bits. [`Memory`]
/// where memory was refused.
#[tactic(auto, unfolding(crate::specs::Found::found_answer))]
pub fn found(alloc: Global, table: &WarmTable, lp: &StageLp) -> Result<Option<Answer>, Memory>
    requires sized { IsTable table.now }
    requires columns { length lp.now.columns ≡ length table.now.costs }
    requires rows { length table.now.rows ≡ lp.now.own + length table.now.cuts.rows }
    requires cuts { All (λ row. row < length lp.now.rows) table.now.cuts.rows }
    ensures { IfOk result (λ answer. answer ≡ found_answer table.now lp.now) }
{
    let mut point = with_room(alloc, lp.columns().len())?;
    if !points(table, lp, &mut point)? {
        return Ok(None);
    }
    let Some(duals) = duals(alloc, table, lp)? else {
        return Ok(None);
    };
    Ok(Some(Answer {
        kind: Kind::Found,
        point,
        duals,
    }))
}
