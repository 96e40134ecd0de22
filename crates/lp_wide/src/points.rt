// The point of a basis.
ghost use Rattle.std.specs.Prelude.{◌≡◌, ◌<◌, ◌≤◌, length, All, IfOk, IfSome};
ghost use Rattle.base_num.specs.Each.{each_from};
ghost use Rattle.lp_table.specs.Updates.{GivesNew};
ghost use Rattle.lp_wide_table.specs.SameParts.{wide_with_values};
ghost use Rattle.lp_wide_table.specs.Shape.{IsWideTable, wide_variables};
ghost use Rattle.lp_wide.specs.Refine.{AreWideBoundsWhole, wide_stand_of, wide_placed_at_bound, wide_stood, wide_off, wide_shift_at, wide_shifts_of, shifted_value, wide_moved_value, wide_moved_values, wide_stood_table, wide_refined};

use crate::sums::{activity, shares};
use base_num::{List, Memory};
use lp_table::lists::with_room;
use lp_wide_table::numbers::down;
use lp_wide_table::{WideBounds, WideCell, WideQuantity, WideSquare, WideTable};
use std::alloc::Global;

// The upper or the lower bound of a variable, 0 where it is absent.
#[tactic(auto, unfolding(crate::specs::Refine::wide_stand_of))]
fn stand(bounds: &WideBounds, high: bool, variable: usize) -> WideQuantity
    requires whole { AreWideBoundsWhole bounds.now }
    requires there { variable < length bounds.now.lows }
    ensures { result ≡ wide_stand_of bounds.now high variable }
{
    let bound = if high {
        bounds.up(variable)
    } else {
        bounds.low(variable)
    };
    match bound {
        Some(bound) => bound,
        None => WideQuantity::zero(),
    }
}

// Puts the variable at place j at its bound, where it is a column.
#[tactic(auto, unfolding(crate::specs::Refine::wide_placed_at_bound))]
fn place_value(
    values: &mut List<WideQuantity>,
    bounds: &WideBounds,
    high: &[bool],
    j: usize,
    variable: usize,
)
    requires whole { AreWideBoundsWhole bounds.now }
    requires there { variable < length bounds.now.lows }
    requires high { j < length high.now }
    ensures value { values.new ≡ wide_placed_at_bound bounds.now high.now j variable values.old }
    ensures count { length values.new ≡ length values.old }
{
    if variable < values.len() {
        values.set(variable, stand(bounds, high[j], variable));
    }
}

// Puts each nonbasic column at its bound.
fn stand_all(
    values: &mut List<WideQuantity>,
    bounds: &WideBounds,
    high: &[bool],
    nonbasic: &[usize],
)
    requires whole { AreWideBoundsWhole bounds.now }
    requires there { All (λ v. v < length bounds.now.lows) nonbasic.now }
    requires high { length nonbasic.now ≡ length high.now }
    ensures values { values.new ≡ wide_stood bounds.now high.now 0 nonbasic.now values.old }
    ensures count { length values.new ≡ length values.old }
{
    for j in 0..nonbasic.len() {
        place_value(values, bounds, high, j, nonbasic[j]);
    }
}

// The difference of a stand and the value of a row.
fn off(stand: WideQuantity, found: Option<WideQuantity>) -> Option<WideQuantity>
    ensures { result ≡ wide_off stand found }
{
    WideQuantity::narrow(stand.number() - found?.number())
}

// The shift at a place.
#[tactic(auto, unfolding(crate::specs::Refine::wide_shift_at), using(crate::proofs::Inside::whole_bounds))]
fn shift_at(table: &WideTable, j: usize, variable: usize) -> Option<WideQuantity>
    requires sized { IsWideTable table.now }
    requires place { j < length table.now.costs }
    requires there { variable < wide_variables table.now }
    ensures { result ≡ wide_shift_at table.now j variable }
{
    let columns = table.costs.len();
    if variable < columns {
        Some(WideQuantity::zero())
    } else {
        let high = table.basis.high.as_slice()[j];
        let stand = stand(&table.bounds, high, variable);
        off(stand, activity(table, variable - columns))
    }
}

// The shifts of all places. None where one is no quantity.
#[tactic(auto, unfolding(crate::specs::Refine::wide_shifts_of))]
fn shifts(alloc: Global, table: &WideTable) -> Result<Option<List<WideQuantity>>, Memory>
    requires sized { IsWideTable table.now }
    ensures shifts { IfOk result (λ found. found ≡ wide_shifts_of table.now) }
    ensures count { IfOk result (λ found. IfSome found (λ q. length q ≡ length table.now.costs)) }
{
    let nonbasic = table.basis.nonbasic.as_slice();
    let mut found = with_room(alloc, nonbasic.len())?;
    for j in 0..nonbasic.len() {
        match shift_at(table, j, nonbasic[j]) {
            Some(shift) => found.push(shift)?,
            None => return Ok(None),
        }
    }
    Ok(Some(found))
}

// The value of a column with this line after the shifts.
#[tactic(auto, unfolding(crate::specs::Refine::shifted_value))]
fn shifted_value(
    line: &[WideCell],
    shifts: &[WideQuantity],
    x: WideQuantity,
) -> Option<WideQuantity>
    requires { length shifts.now ≡ length line.now }
    ensures { result ≡ shifted_value line.now shifts.now x }
{
    x.plus(down(shares(line, shifts)?)?)
}

// The value of a column after the shifts.
#[tactic(auto, unfolding(crate::specs::Refine::wide_moved_value))]
fn moved_value(
    places: &[Option<usize>],
    lines: &WideSquare,
    shifts: &[WideQuantity],
    v: usize,
    x: WideQuantity,
) -> Option<WideQuantity>
    requires place { v < length places.now }
    requires there { v < length lines.now }
    requires count { length shifts.now ≡ length lines.now }
    ensures { result ≡ wide_moved_value places.now lines.now shifts.now v x }
{
    if places[v].is_none() {
        shifted_value(lines.row(v), shifts, x)
    } else {
        Some(x)
    }
}

// Moves the values of the basic columns by the shifts.
fn move_all(
    values: &mut List<WideQuantity>,
    places: &[Option<usize>],
    lines: &WideSquare,
    shifts: &[WideQuantity],
) -> bool
    requires places { length values.old ≤ length places.now }
    requires there { length values.old ≡ length lines.now }
    requires count { length shifts.now ≡ length lines.now }
    ensures count { length values.new ≡ length values.old }
    ensures moved { GivesNew result
        (each_from (wide_moved_value places.now lines.now shifts.now) 0 values.old) values.new }
{
    for v in 0..values.len() {
        match moved_value(places, lines, shifts, v, values.as_slice()[v]) {
            Some(x) => values.set(v, x),
            None => return false,
        }
    }
    true
}

// Puts each nonbasic column of a table at its bound.
#[tactic(auto, unfolding(crate::specs::Refine::wide_stood_table), using(crate::proofs::Inside::whole_bounds, crate::proofs::Sized::sized_values))]
fn stand_columns(table: &mut WideTable)
    requires sized { IsWideTable table.old }
    ensures sized { IsWideTable table.new }
    ensures stood { table.new ≡ wide_stood_table table.old }
    ensures kept { table.new ≡ wide_with_values table.old table.new.values }
{
    stand_all(
        &mut table.values,
        &table.bounds,
        table.basis.high.as_slice(),
        table.basis.nonbasic.as_slice(),
    );
}

// Moves the values of a table's basic columns by the shifts.
#[tactic(auto, unfolding(crate::specs::Refine::wide_moved_values), using(crate::proofs::Sized::sized_values))]
fn move_columns(table: &mut WideTable, shifts: &[WideQuantity]) -> bool
    requires sized { IsWideTable table.old }
    requires count { length shifts.now ≡ length table.old.costs }
    ensures sized { IsWideTable table.new }
    ensures kept { table.new ≡ wide_with_values table.old table.new.values }
    ensures moved { GivesNew result (wide_moved_values table.old shifts.now) table.new.values }
{
    move_all(
        &mut table.values,
        table.basis.places.as_slice(),
        &table.lines,
        shifts,
    )
}

/// Writes the values of the basis: a nonbasic column stands at its bound, and a basic one is moved
/// by the shifts of all nonbasic slacks, by which their rows are off. The answer is false exactly
/// where a value of a row, a shift or a value of a column is out of range: nothing is promised of
/// the values then. All else of the table stays. [`Memory`] where memory was refused.
#[tactic(auto, unfolding(crate::specs::Refine::wide_refined))]
pub fn refine(alloc: Global, table: &mut WideTable) -> Result<bool, Memory>
    requires sized { IsWideTable table.old }
    ensures sized { IsWideTable table.new }
    ensures kept { table.new ≡ wide_with_values table.old table.new.values }
    ensures refined { IfOk result (λ whole. GivesNew whole (wide_refined table.old) table.new.values) }
{
    stand_columns(table);
    match shifts(alloc, table)? {
        Some(shifts) => Ok(move_columns(table, shifts.as_slice())),
        None => Ok(false),
    }
}
