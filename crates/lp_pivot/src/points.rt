// The point of a basis.
ghost use Rattle.std.specs.Prelude.{◌≡◌, ◌^◌, ◌+◌, ◌*◌, ◌<◌, ◌≤◌, ◌+ℤ◌, [], ◌∷◌, ◌++◌, length, take, nat_abs, All, IfSome};
ghost use Rattle.std.specs.Option.{option_map};
ghost use Rattle.base_num.specs.Each.{each_from};
ghost use Rattle.lp_table.specs.Shape.{IsTable, variables};
ghost use Rattle.lp_table.specs.Updates.{GivesNew};
ghost use Rattle.lp_table.specs.Numbers.{down_of, quantity_of};
ghost use Rattle.lp_table.specs.SameParts.{with_values};
ghost use Rattle.lp_pivot.specs.Refine.{AreBoundsWhole, stand_of, placed_at_bound, stood, off, shift_at, shifts_of, stood_table, refined};
ghost use Rattle.lp_table.specs.Sparse.{sparse};
ghost use Rattle.lp_pivot.specs.Sparse.{moved_by};

use crate::shift::Shift;
use crate::sums::{activity, down_far, shares};
use base_num::List;
use lp_table::{Bounds, Quantity, Square, WarmTable};

// The upper or the lower bound of a variable, 0 where it is absent.
#[tactic(auto, unfolding(crate::specs::Refine::stand_of))]
pub(crate) fn stand(bounds: &Bounds, high: bool, variable: usize) -> Quantity
    requires whole { AreBoundsWhole bounds.now }
    requires there { variable < length bounds.now.lows }
    ensures { result ≡ stand_of bounds.now high variable }
{
    let bound = if high {
        bounds.up(variable)
    } else {
        bounds.low(variable)
    };
    match bound {
        Some(bound) => bound,
        None => Quantity::zero(),
    }
}

// Puts the variable at place j at its bound, where it is a column.
#[tactic(auto, unfolding(crate::specs::Refine::placed_at_bound))]
fn place_value(
    values: &mut List<Quantity>,
    bounds: &Bounds,
    high: &[bool],
    j: usize,
    variable: usize,
)
    requires whole { AreBoundsWhole bounds.now }
    requires there { variable < length bounds.now.lows }
    requires high { j < length high.now }
    ensures value { values.new ≡ placed_at_bound bounds.now high.now j variable values.old }
    ensures count { length values.new ≡ length values.old }
{
    if variable < values.len() {
        values.set(variable, stand(bounds, high[j], variable));
    }
}

// Puts each nonbasic column at its bound.
fn stand_all(values: &mut List<Quantity>, bounds: &Bounds, high: &[bool], nonbasic: &[usize])
    requires whole { AreBoundsWhole bounds.now }
    requires there { All (λ v. v < length bounds.now.lows) nonbasic.now }
    requires high { length nonbasic.now ≡ length high.now }
    ensures values { values.new ≡ stood bounds.now high.now 0 nonbasic.now values.old }
    ensures count { length values.new ≡ length values.old }
{
    for j in 0..nonbasic.len() {
        place_value(values, bounds, high, j, nonbasic[j]);
    }
}

// The difference of a stand and the value of a row.
fn off(stand: Quantity, found: Option<Quantity>) -> Option<Quantity>
    ensures { result ≡ off stand found }
{
    let found = found?;
    Quantity::new(i128::from(stand.number()) - i128::from(found.number()))
}

// The shift at a place.
#[tactic(auto, unfolding(crate::specs::Refine::shift_at), using(crate::proofs::Inside::whole_bounds))]
fn shift_at(table: &WarmTable, j: usize, variable: usize) -> Option<Quantity>
    requires sized { IsTable table.now }
    requires place { j < length table.now.costs }
    requires there { variable < variables table.now }
    ensures { result ≡ shift_at table.now j variable }
{
    let columns = table.costs.len();
    if variable < columns {
        Some(Quantity::zero())
    } else {
        let high = table.basis.high.as_slice()[j];
        let stand = stand(&table.bounds, high, variable);
        off(stand, activity(table, variable - columns))
    }
}

// Puts the shift at place j behind those that count, where it is not 0. The answer is how many count then.
fn keep_shift(shifts: &mut List<(usize, Shift)>, count: usize, j: usize, shift: Quantity) -> usize
    requires room { count < length shifts.old }
    requires fits { count + 1 < 2 ^ 64 }
    ensures lengths { length shifts.new ≡ length shifts.old }
    ensures few { result ≤ count + 1 }
    ensures kept { take result shifts.new ≡ take count shifts.old ++ sparse j (shift ∷ []) }
{
    if shift.number() == 0 {
        count
    } else {
        shifts.set(count, (j, Shift::by(shift)));
        count + 1
    }
}

// Writes the shifts that are not 0, each with its place. The answer is how many these are.
#[tactic(auto, unfolding(crate::specs::Refine::shifts_of))]
fn write_shifts(table: &WarmTable, shifts: &mut List<(usize, Shift)>) -> Option<usize>
    requires sized { IsTable table.now }
    requires count { length shifts.old ≡ length table.now.costs }
    ensures count { length shifts.new ≡ length shifts.old }
    ensures few { IfSome result (λ k. k ≤ length shifts.new) }
    ensures shifts { option_map (sparse 0) (shifts_of table.now) ≡ option_map (λ k. take k shifts.new) result }
{
    let nonbasic = table.basis.nonbasic.as_slice();
    let mut count = 0;
    for j in 0..nonbasic.len() {
        match shift_at(table, j, nonbasic[j]) {
            Some(shift) => count = keep_shift(shifts, count, j, shift),
            None => return None,
        }
    }
    Some(count)
}

// A value with a sum of shares added.
pub(crate) fn shifted(x: Quantity, sum: i128) -> Option<Quantity>
    requires { nat_abs sum ≤ 1199 * 2 ^ 116 }
    ensures { result ≡ quantity_of (x +ℤ down_of sum) }
{
    Quantity::new(i128::from(x.number()) + down_far(sum))
}

// The value of a column after the shifts.
#[tactic(auto, unfolding(crate::specs::Sparse::moved_by))]
fn moved_value(
    places: &[Option<usize>],
    lines: &Square,
    shifts: &[(usize, Shift)],
    v: usize,
    x: Quantity,
) -> Option<Quantity>
    requires place { v < length places.now }
    requires there { v < length lines.now }
    requires inside { All (λ s. s.0 < length lines.now) shifts.now }
    requires few { length shifts.now ≤ 1199 }
    ensures { result ≡ moved_by places.now lines.now shifts.now v x }
{
    if places[v].is_none() {
        shifted(x, shares(shifts, lines.row(v)))
    } else {
        Some(x)
    }
}

// Moves the values of the basic columns by the shifts.
fn move_all(
    values: &mut List<Quantity>,
    places: &[Option<usize>],
    lines: &Square,
    shifts: &[(usize, Shift)],
) -> bool
    requires places { length values.old ≤ length places.now }
    requires there { length values.old ≡ length lines.now }
    requires inside { All (λ s. s.0 < length lines.now) shifts.now }
    requires few { length shifts.now ≤ 1199 }
    ensures count { length values.new ≡ length values.old }
    ensures moved { GivesNew result
        (each_from (moved_by places.now lines.now shifts.now) 0 values.old) values.new }
{
    for v in 0..values.len() {
        match moved_value(places, lines, shifts, v, values.as_slice()[v]) {
            Some(x) => values.set(v, x),
            None => return false,
        }
    }
    true
}

// Puts each nonbasic column of a table at its bound.
#[tactic(auto, unfolding(crate::specs::Refine::stood_table), using(crate::proofs::Inside::whole_bounds, crate::proofs::Sized::sized_values))]
fn stand_columns(table: &mut WarmTable)
    requires sized { IsTable table.old }
    ensures sized { IsTable table.new }
    ensures stood { table.new ≡ stood_table table.old }
    ensures kept { table.new ≡ with_values table.old table.new.values }
{
    stand_all(
        &mut table.values,
        &table.bounds,
        table.basis.high.as_slice(),
        table.basis.nonbasic.as_slice(),
    );
}

// Moves the values of a table's basic columns by the shifts.
#[tactic(auto, using(crate::proofs::Sized::sized_values))]
fn move_columns(table: &mut WarmTable, shifts: &[(usize, Shift)]) -> bool
    requires sized { IsTable table.old }
    requires inside { All (λ s. s.0 < length table.old.lines) shifts.now }
    requires few { length shifts.now ≤ 1199 }
    ensures sized { IsTable table.new }
    ensures kept { table.new ≡ with_values table.old table.new.values }
    ensures moved { GivesNew result (each_from
        (moved_by table.old.basis.places table.old.lines shifts.now) 0 table.old.values)
        table.new.values }
{
    move_all(
        &mut table.values,
        table.basis.places.as_slice(),
        &table.lines,
        shifts,
    )
}

/// Writes the values of the basis: a nonbasic column stands at its bound, and a basic one is moved
/// by the shifts of all nonbasic slacks, by which their rows are off. The answer is false exactly
/// where a value of a row, a shift or a value of a column has an absolute value of 2^55 or more:
/// nothing is promised of the values then. All else of the table stays. `shifts` is for work: as
/// many places with shifts as columns.
#[tactic(auto, unfolding(crate::specs::Refine::refined))]
pub fn refine(table: &mut WarmTable, shifts: &mut List<(usize, Shift)>) -> bool
    requires sized { IsTable table.old }
    requires shifts { length shifts.old ≡ length table.old.costs }
    ensures sized { IsTable table.new }
    ensures shifts { length shifts.new ≡ length shifts.old }
    ensures kept { table.new ≡ with_values table.old table.new.values }
    ensures refined { GivesNew result (refined table.old) table.new.values }
{
    stand_columns(table);
    match write_shifts(table, shifts) {
        Some(count) => move_columns(table, shifts.as_slice().split_at(count).0),
        None => false,
    }
}
