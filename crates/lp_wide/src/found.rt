// The answer by a table in which no bound is violated.
ghost use Rattle.std.specs.Prelude.{◌≡◌, ◌<◌, ◌+◌, ◌^◌, ◌-ℤ◌, ◌*ℤ◌, pos, length, IfOk, IfSome};
ghost use Rattle.std.specs.Option.{option_map, option_and_then};
ghost use Rattle.base_num.specs.Sums.{entry, floor_over};
ghost use Rattle.lp_program.specs.Numbers.{number};
ghost use Rattle.base_num.specs.Each.{each_from};
ghost use Rattle.lp_scale.specs.Scaling.{AreSmall};
ghost use Rattle.lp_wide_table.specs.WideWhole.{held_wide};
ghost use Rattle.lp_wide_table.specs.Numbers.{sum_of, wide_shift_of};
ghost use Rattle.lp_wide_table.specs.Shape.{WideFits, IsWideTable, wide_variables};
ghost use Rattle.lp_wide.specs.Found.{wide_place_of_variable, wide_rounded, wide_basic_point, wide_bound_point, wide_point_value_at, wide_slack_dual, wide_dual_at, wide_found_answer, finished_of};

use crate::finishing::{dual_of, has_costs};
use base_num::{List, Memory, floor_div};
use lp_price::found::clamped;
use lp_program::{Answer, Column, Duals, Fx, Kind, LpRow, StageLp};
use lp_table::Scales;
use lp_table::lists::with_room;
use lp_wide_table::numbers::shift;
use lp_wide_table::{Wide, WideCell, WideTable};
use std::alloc::Global;

// The place of a variable.
pub(crate) fn place_of(table: &WideTable, variable: usize) -> Option<usize>
    requires sized { IsWideTable table.now }
    requires there { variable < wide_variables table.now }
    ensures place { result ≡ wide_place_of_variable table.now variable }
    ensures inside { IfSome result (λ j. j < length table.now.costs) }
{
    table.basis.places.as_slice()[variable]
}

// The variable that is the slack of a row.
pub(crate) fn slack_of(table: &WideTable, row: usize) -> usize
    requires sized { IsWideTable table.now }
    requires row { row < length table.now.rows }
    ensures { result ≡ length table.now.costs + row }
{
    table.basis.places.len() - table.rows.len() + row
}

// A number with 128 added, where 128 bits hold it.
fn raised(x: Wide) -> Option<i128>
    ensures { result ≡ option_and_then (held_wide 127) (sum_of x (pos (2 ^ 7))) }
{
    x.plus(Wide::from_i128(128))?.narrowed()
}

// The nearest multiple of 2^8. None where 128 bits do not hold what is rounded.
#[tactic(auto, unfolding(crate::specs::Found::wide_rounded))]
fn rounded(x: Wide) -> Option<i128>
    ensures { result ≡ wide_rounded x }
{
    Some(whole_part(raised(x)?))
}

// The greatest multiple of 2^8 that is not above a number.
fn whole_part(x: i128) -> i128
    ensures { result ≡ floor_over x (2 ^ 8) *ℤ pos (2 ^ 8) }
{
    floor_div(x, 256) * 256
}

// Gives the power of two by which a column's value is no longer scaled.
fn value_exponent(scales: &Scales, column: usize) -> i32
    requires small { AreSmall 1000 scales.now }
    requires there { column < length scales.now.columns }
    ensures { result ≡ entry scales.now.columns column -ℤ scales.now.values -ℤ pos 32 }
{
    scales.columns.as_slice()[column] - scales.values - 32
}

// Gives the power of two by which a row's dual is no longer scaled.
fn dual_exponent(scales: &Scales, row: usize) -> i32
    requires small { AreSmall 1000 scales.now }
    requires there { row < length scales.now.rows }
    ensures { result ≡ entry scales.now.rows row -ℤ scales.now.costs -ℤ pos 48 }
{
    scales.rows.as_slice()[row] - scales.costs - 48
}

// The value of a basic column.
#[tactic(auto, unfolding(crate::specs::Found::wide_basic_point))]
fn basic_point(table: &WideTable, number: usize, column: &Column) -> Option<Fx>
    requires sized { IsWideTable table.now }
    requires there { number < length table.now.costs }
    ensures { result ≡ wide_basic_point table.now number column.now }
{
    let value = table.values.as_slice()[number].number();
    let x = shift(value, value_exponent(&table.scales, number))?;
    Some(clamped(column, rounded(x)?))
}

// The value of a nonbasic column.
fn bound_point(table: &WideTable, column: &Column, place: usize) -> Fx
    requires sized { IsWideTable table.now }
    requires there { place < length table.now.costs }
    ensures { result ≡ wide_bound_point table.now column.now place }
{
    if table.basis.high.as_slice()[place] {
        column.high
    } else {
        column.low
    }
}

// The value of a column.
fn point_at(table: &WideTable, number: usize, column: &Column) -> Option<Fx>
    requires sized { IsWideTable table.now }
    requires there { number < length table.now.costs }
    ensures { result ≡ wide_point_value_at table.now number column.now }
{
    match place_of(table, number) {
        None => basic_point(table, number, column),
        Some(place) => Some(bound_point(table, column, place)),
    }
}

// The values of all columns.
fn point(alloc: Global, table: &WideTable, columns: &[Column]) -> Result<Option<List<Fx>>, Memory>
    requires sized { IsWideTable table.now }
    requires columns { length columns.now ≡ length table.now.costs }
    ensures { IfOk result (λ found. found ≡ each_from (wide_point_value_at table.now) 0 columns.now) }
{
    let mut found = with_room(alloc, columns.len())?;
    for j in 0..columns.len() {
        match point_at(table, j, &columns[j]) {
            Some(x) => found.push(x)?,
            None => return Ok(None),
        }
    }
    Ok(Some(found))
}

// A dual, no longer scaled. None where 128 bits do not hold it.
fn unscaled(dual: i128, exponent: i32) -> Option<Fx>
    ensures { result ≡ option_map number (option_and_then (held_wide 127) (wide_shift_of dual exponent)) }
{
    Some(Fx(shift(dual, exponent)?.narrowed()?))
}

// The dual of a row whose slack has this reduced cost.
#[tactic(auto, unfolding(crate::specs::Found::wide_slack_dual))]
fn slack_dual(table: &WideTable, row: usize, slack: usize, cost: WideCell) -> Option<Fx>
    requires sized { IsWideTable table.now }
    requires row { row < length table.now.rows }
    requires slack { slack < wide_variables table.now }
    ensures { result ≡ wide_slack_dual table.now row slack cost }
{
    let dual = dual_of(table, slack, cost);
    unscaled(dual.number(), dual_exponent(&table.scales, row))
}

// The dual of a row.
fn dual_at(table: &WideTable, number: usize, row: &LpRow) -> Option<Fx>
    requires sized { IsWideTable table.now }
    requires there { number < length table.now.rows }
    ensures { result ≡ wide_dual_at table.now number row.now }
{
    let slack = slack_of(table, number);
    match place_of(table, slack) {
        None => Some(Fx(0)),
        Some(place) => slack_dual(table, number, slack, table.reduced.as_slice()[place]),
    }
}

// The duals of all rows.
fn duals(alloc: Global, table: &WideTable, rows: &[LpRow]) -> Result<Option<List<Fx>>, Memory>
    requires sized { IsWideTable table.now }
    requires rows { length rows.now ≡ length table.now.rows }
    ensures { IfOk result (λ found. found ≡ each_from (wide_dual_at table.now) 0 rows.now) }
{
    let mut found = with_room(alloc, rows.len())?;
    for i in 0..rows.len() {
        match dual_at(table, i, &rows[i]) {
            Some(x) => found.push(x)?,
            None => return Ok(None),
        }
    }
    Ok(Some(found))
}

// The answer to a program by a table in which no bound is violated. The value of a column that is
// not basic is its bound in the program; of a basic one its value in the table, to the nearest
// multiple of 2^-24, in its box. The dual of a row is the reduced cost of its slack, 0 where that
// is basic. None where a number on the way leaves 128 bits. [`Memory`] where memory was refused.
#[tactic(auto, unfolding(crate::specs::Found::wide_found_answer))]
fn found(alloc: Global, table: &WideTable, lp: &StageLp) -> Result<Option<Answer>, Memory>
    requires fits { WideFits table.now lp.now }
    ensures { IfOk result (λ answer. answer ≡ wide_found_answer table.now lp.now) }
{
    let Some(point) = point(alloc, table, lp.columns())? else {
        return Ok(None);
    };
    let program = lp.program(alloc)?;
    let Some(duals) = duals(alloc, table, program.rows.as_slice())? else {
        return Ok(None);
    };
    Ok(Some(Answer {
        kind: Kind::Found,
        point,
        duals: Duals::new(alloc, duals),
    }))
}

/// The answer to a program by a table in which no bound is violated. The value of a column that is
/// not basic is its bound in the program; of a basic one its value in the table, to the nearest
/// multiple of 2^-24, in its box. The dual of a row is the reduced cost of its slack, 0 where that
/// is basic or where it speaks of a side that is absent. None where a number on the way leaves its
/// range. [`Memory`] where memory was refused.
#[tactic(auto, unfolding(crate::specs::Found::finished_of))]
pub fn finish(alloc: Global, table: &WideTable, lp: &StageLp) -> Result<Option<Answer>, Memory>
    requires fits { WideFits table.now lp.now }
    ensures { IfOk result (λ answer. answer ≡ finished_of table.now lp.now) }
{
    if has_costs(alloc, table)? {
        found(alloc, table, lp)
    } else {
        Ok(None)
    }
}
