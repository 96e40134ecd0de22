// The point where a variable leaves for another.
ghost use Rattle.std.specs.Prelude.{◌≡◌, ◌^◌, ◌+◌, ◌<◌, ◌≤◌, pos, ◌+ℤ◌, ◌*ℤ◌, length, take, not, get_or, slice_set, false, nat_abs, All};
ghost use Rattle.std.specs.Option.{option_map};
ghost use Rattle.base_num.specs.Sums.{at_terms, entry};
ghost use Rattle.base_num.specs.Each.{each_from};
ghost use Rattle.lp_table.specs.Shape.{IsTable, variables};
ghost use Rattle.lp_table.specs.Updates.{GivesNew};
ghost use Rattle.lp_table.specs.Numbers.{down_of, quantity_of};
ghost use Rattle.lp_table.specs.SameParts.{with_values};
ghost use Rattle.lp_pivot.specs.Move.{length_of, step_of, bound_span, span_at, steps_of, carried, put_at_bound, passed, reached_values, arrived_values, moved_along, moved_of};

use crate::points::{shifted, stand};
use crate::shift::Shift;
use crate::sums::shares;
use base_num::List;
use lp_table::numbers::quotient;
use lp_table::{Cell, Quantity, Square, WarmTable};

/// A variable that leaves, and the place of the one that enters for it.
#[derive(Clone, Copy)]
pub struct Swap {
    /// The basic variable that leaves.
    pub leaving: usize,
    /// Whether it is above its upper bound, and else below its lower one.
    pub above: bool,
    /// The place of the variable that enters.
    pub place: usize,
    /// The violation that is left once those that flip have gone to their other bounds.
    pub tail: i128,
}

// The number times 2^40.
fn raised(tail: i128) -> i128
    requires { nat_abs tail ≤ 2 ^ 80 }
    ensures value { result ≡ tail *ℤ pos (2 ^ 40) }
    ensures small { nat_abs result ≤ 2 ^ 120 }
{
    tail * (1 << 40)
}

// The absolute value of a cell.
fn size(cell: Cell) -> i128
    requires { 0 < nat_abs cell }
    ensures value { result ≡ pos (nat_abs cell) }
    ensures some { 0 < nat_abs result }
{
    let number = i128::from(cell.number());
    if number < 0 { -number } else { number }
}

// Divides the violation that is left by the size of a cell. None where the result is no quantity.
#[tactic(auto, unfolding(crate::specs::Move::length_of))]
fn length_of(tail: i128, cell: Cell) -> Option<Quantity>
    requires { 0 < nat_abs cell }
    ensures { result ≡ length_of tail cell }
{
    if tail.unsigned_abs() <= 1 << 80 {
        Quantity::new(quotient(raised(tail), size(cell)))
    } else {
        None
    }
}

// Gives the step of the entering variable.
#[tactic(auto, unfolding(crate::specs::Move::step_of))]
fn step_of(line: &[Cell], swap: Swap) -> Option<Shift>
    requires place { swap.place < length line.now }
    requires pivot { 0 < nat_abs (entry line.now swap.place) }
    ensures { result ≡ step_of line.now swap.above swap.place swap.tail }
{
    let cell = line[swap.place];
    let length = length_of(swap.tail, cell)?;
    let down = cell.number() < 0;
    Some(Shift::by(length).turned_by(down).turned_by(swap.above))
}

// Gives the distance to a variable's other bound.
#[tactic(auto, unfolding(crate::specs::Move::bound_span), using(crate::proofs::Inside::whole_bounds))]
fn span_of(table: &WarmTable, high: bool, variable: usize) -> Shift
    requires sized { IsTable table.now }
    requires there { variable < variables table.now }
    ensures { result ≡ bound_span table.now high variable }
{
    let here = stand(&table.bounds, high, variable);
    Shift::between(here, stand(&table.bounds, !high, variable))
}

// Like `span_of`, for the variable at a place.
#[tactic(auto, unfolding(crate::specs::Move::span_at))]
fn span_at(table: &WarmTable, place: usize) -> Shift
    requires sized { IsTable table.now }
    requires place { place < length table.now.costs }
    ensures { result ≡ span_at table.now place }
{
    span_of(
        table,
        table.basis.high.as_slice()[place],
        table.basis.nonbasic.as_slice()[place],
    )
}

// Writes how far the variables go that enter and flip, each with its place.
fn write_steps(
    table: &WarmTable,
    shifts: &mut List<(usize, Shift)>,
    place: usize,
    step: Shift,
    flips: &[usize],
)
    requires sized { IsTable table.now }
    requires room { length flips.now < length shifts.old }
    requires flips { All (λ j. j < length table.now.costs) flips.now }
    ensures lengths { length shifts.new ≡ length shifts.old }
    ensures steps { take (length flips.now + 1) shifts.new ≡ steps_of table.now place step flips.now }
{
    shifts.set(0, (place, step));
    for k in 0..flips.len() {
        shifts.set(k + 1, (flips[k], span_at(table, flips[k])));
    }
}

// Moves a value by the steps, whose shares at its line are given. False where the value is no quantity then.
fn carry_by(values: &mut [Quantity], line: &[Cell], steps: &[(usize, Shift)], k: usize) -> bool
    requires place { k < length values.old }
    requires inside { All (λ s. s.0 < length line.now) steps.now }
    requires few { length steps.now ≤ 1199 }
    ensures count { length values.new ≡ length values.old }
    ensures moved { GivesNew result (option_map (slice_set values.old k)
        (quantity_of (entry values.old k +ℤ down_of (at_terms steps.now (entry line.now))))) values.new }
{
    match shifted(values[k], shares(steps, line)) {
        Some(x) => {
            values[k] = x;
            true
        }
        None => false,
    }
}

// Moves the value of a column by the steps, where it is basic and does not leave.
#[tactic(auto, unfolding(crate::specs::Move::carried), using(crate::proofs::Values::kept_value))]
fn carry(
    values: &mut [Quantity],
    places: &[Option<usize>],
    lines: &Square,
    leaving: usize,
    steps: &[(usize, Shift)],
    k: usize,
) -> bool
    requires value { k < length values.old }
    requires place { k < length places.now }
    requires there { k < length lines.now }
    requires inside { All (λ s. s.0 < length lines.now) steps.now }
    requires few { length steps.now ≤ 1199 }
    ensures count { length values.new ≡ length values.old }
    ensures moved { GivesNew result (option_map (slice_set values.old k)
        (carried places.now lines.now leaving steps.now k (entry values.old k))) values.new }
{
    if places[k].is_none() && k != leaving {
        carry_by(values, lines.row(k), steps, k)
    } else {
        true
    }
}

// Moves the values of the basic columns but the one that leaves by the steps.
fn carry_each(
    values: &mut [Quantity],
    places: &[Option<usize>],
    lines: &Square,
    leaving: usize,
    steps: &[(usize, Shift)],
) -> bool
    requires places { length values.old ≤ length places.now }
    requires there { length values.old ≡ length lines.now }
    requires inside { All (λ s. s.0 < length lines.now) steps.now }
    requires few { length steps.now ≤ 1199 }
    ensures count { length values.new ≡ length values.old }
    ensures moved { GivesNew result
        (each_from (carried places.now lines.now leaving steps.now) 0 values.old) values.new }
{
    for k in 0..values.len() {
        if !carry(values, places, lines, leaving, steps, k) {
            return false;
        }
    }
    true
}

// Moves the values of the basic columns, in a list, but the one that leaves by the steps.
fn carry_all(
    values: &mut List<Quantity>,
    places: &[Option<usize>],
    lines: &Square,
    leaving: usize,
    steps: &[(usize, Shift)],
) -> bool
    requires places { length values.old ≤ length places.now }
    requires there { length values.old ≡ length lines.now }
    requires inside { All (λ s. s.0 < length lines.now) steps.now }
    requires few { length steps.now ≤ 1199 }
    ensures count { length values.new ≡ length values.old }
    ensures moved { GivesNew result
        (each_from (carried places.now lines.now leaving steps.now) 0 values.old) values.new }
{
    carry_each(values.as_mut_slice(), places, lines, leaving, steps)
}

// Moves the values of a table's basic columns but the one that leaves by the steps.
#[tactic(auto, using(crate::proofs::Sized::sized_values))]
fn carry_columns(table: &mut WarmTable, leaving: usize, steps: &[(usize, Shift)]) -> bool
    requires sized { IsTable table.old }
    requires inside { All (λ s. s.0 < length table.old.lines) steps.now }
    requires few { length steps.now ≤ 1199 }
    ensures sized { IsTable table.new }
    ensures kept { table.new ≡ with_values table.old table.new.values }
    ensures moved { GivesNew result (each_from
        (carried table.old.basis.places table.old.lines leaving steps.now) 0 table.old.values)
        table.new.values }
{
    carry_all(
        &mut table.values,
        table.basis.places.as_slice(),
        &table.lines,
        leaving,
        steps,
    )
}

// Puts a variable, where it is a column, at a bound.
#[tactic(auto, unfolding(crate::specs::Move::put_at_bound), using(crate::proofs::Inside::whole_bounds, crate::proofs::Sized::sized_values))]
fn put(table: &mut WarmTable, high: bool, variable: usize)
    requires sized { IsTable table.old }
    requires there { variable < variables table.old }
    ensures sized { IsTable table.new }
    ensures kept { table.new ≡ with_values table.old table.new.values }
    ensures put { table.new.values ≡ put_at_bound table.old high variable table.old.values }
{
    if variable < table.values.len() {
        let bound = stand(&table.bounds, high, variable);
        table.values.set(variable, bound);
    }
}

// Puts the variable at a place, where it is a column, at its other bound.
fn pass(table: &mut WarmTable, place: usize)
    requires sized { IsTable table.old }
    requires place { place < length table.old.costs }
    ensures sized { IsTable table.new }
    ensures kept { table.new ≡ with_values table.old table.new.values }
    ensures passed { table.new.values ≡ put_at_bound table.old (not (get_or table.old.basis.high place false))
        (get_or table.old.basis.nonbasic place 0) table.old.values }
{
    let high = table.basis.high.as_slice()[place];
    let variable = table.basis.nonbasic.as_slice()[place];
    put(table, !high, variable);
}

// Puts each column that flips at its other bound.
fn pass_all(table: &mut WarmTable, flips: &[usize])
    requires sized { IsTable table.old }
    requires flips { All (λ j. j < length table.old.costs) flips.now }
    ensures sized { IsTable table.new }
    ensures kept { table.new ≡ with_values table.old table.new.values }
    ensures passed { table.new.values ≡ passed table.old flips.now table.old.values }
{
    for k in 0..flips.len() {
        pass(table, flips[k]);
    }
}

// A bound and a step from there.
fn stepped(bound: Quantity, step: Shift) -> Option<Quantity>
    ensures { result ≡ quantity_of (bound +ℤ step) }
{
    Quantity::new(i128::from(bound.number()) + i128::from(step.number()))
}

// Puts a variable, where it is a column, so far from its bound.
#[tactic(auto, unfolding(crate::specs::Move::reached_values), using(crate::proofs::Inside::whole_bounds, crate::proofs::Sized::sized_values))]
fn reach(table: &mut WarmTable, high: bool, variable: usize, step: Shift) -> bool
    requires sized { IsTable table.old }
    requires there { variable < variables table.old }
    ensures sized { IsTable table.new }
    ensures kept { table.new ≡ with_values table.old table.new.values }
    ensures reached { GivesNew result
        (reached_values table.old high variable step table.old.values) table.new.values }
{
    if variable >= table.values.len() {
        return true;
    }
    match stepped(stand(&table.bounds, high, variable), step) {
        Some(x) => {
            table.values.set(variable, x);
            true
        }
        None => false,
    }
}

// Puts the variable at a place, where it is a column, so far from its bound.
fn enter(table: &mut WarmTable, place: usize, step: Shift) -> bool
    requires sized { IsTable table.old }
    requires place { place < length table.old.costs }
    ensures sized { IsTable table.new }
    ensures kept { table.new ≡ with_values table.old table.new.values }
    ensures reached { GivesNew result (reached_values table.old (get_or table.old.basis.high place false)
        (get_or table.old.basis.nonbasic place 0) step table.old.values) table.new.values }
{
    let high = table.basis.high.as_slice()[place];
    let variable = table.basis.nonbasic.as_slice()[place];
    reach(table, high, variable, step)
}

// Puts the variables that flip, enter and leave where they arrive.
#[tactic(auto, unfolding(crate::specs::Move::arrived_values))]
fn arrive(table: &mut WarmTable, swap: Swap, step: Shift, flips: &[usize]) -> bool
    requires sized { IsTable table.old }
    requires there { swap.leaving < variables table.old }
    requires place { swap.place < length table.old.costs }
    requires flips { All (λ j. j < length table.old.costs) flips.now }
    ensures sized { IsTable table.new }
    ensures kept { table.new ≡ with_values table.old table.new.values }
    ensures arrived { GivesNew result
        (arrived_values table.old swap.leaving swap.above swap.place step flips.now table.old.values)
        table.new.values }
{
    pass_all(table, flips);
    if !enter(table, swap.place, step) {
        return false;
    }
    put(table, swap.above, swap.leaving);
    true
}

// Moves the point where the entering variable goes so far.
#[tactic(auto, unfolding(crate::specs::Move::moved_along))]
fn move_along(
    table: &mut WarmTable,
    shifts: &mut List<(usize, Shift)>,
    swap: Swap,
    step: Shift,
    flips: &[usize],
) -> bool
    requires sized { IsTable table.old }
    requires shifts { length shifts.old ≡ length table.old.costs }
    requires there { swap.leaving < variables table.old }
    requires place { swap.place < length table.old.costs }
    requires flips { All (λ j. j < length table.old.costs) flips.now }
    requires few { length flips.now < length table.old.costs }
    ensures sized { IsTable table.new }
    ensures shifts { length shifts.new ≡ length shifts.old }
    ensures kept { table.new ≡ with_values table.old table.new.values }
    ensures moved { GivesNew result
        (moved_along table.old swap.leaving swap.above swap.place flips.now step)
        table.new.values }
{
    write_steps(table, shifts, swap.place, step, flips);
    let steps = shifts.as_slice().split_at(flips.len() + 1).0;
    if !carry_columns(table, swap.leaving, steps) {
        return false;
    }
    arrive(table, swap, step, flips)
}

/// Moves the point where a basic variable, with its line, leaves for the one at a place, before the basis changes: the
/// variables at some more places, the flips, go to their other bounds, the entering one as far as the rest of the violation
/// asks, and the basic columns along with them; the leaving one comes to the bound that it violates. The answer is false
/// exactly where the distance of the entering one, or a value of a column, has an absolute value of 2^55 or more: nothing is
/// promised of the values then. All else of the table stays. `shifts` is for work: as many places with shifts as columns.
#[tactic(auto, unfolding(crate::specs::Move::moved_of))]
pub fn move_point(
    table: &mut WarmTable,
    line: &[Cell],
    shifts: &mut List<(usize, Shift)>,
    swap: Swap,
    flips: &[usize],
) -> bool
    requires sized { IsTable table.old }
    requires width { length line.now ≡ length table.old.costs }
    requires shifts { length shifts.old ≡ length table.old.costs }
    requires there { swap.leaving < variables table.old }
    requires place { swap.place < length table.old.costs }
    requires pivot { 0 < nat_abs (entry line.now swap.place) }
    requires flips { All (λ j. j < length table.old.costs) flips.now }
    requires few { length flips.now < length table.old.costs }
    ensures sized { IsTable table.new }
    ensures shifts { length shifts.new ≡ length shifts.old }
    ensures kept { table.new ≡ with_values table.old table.new.values }
    ensures moved { GivesNew result (moved_of table.old line.now swap.leaving swap.above swap.place swap.tail flips.now)
        table.new.values }
{
    match step_of(line, swap) {
        Some(step) => move_along(table, shifts, swap, step, flips),
        None => false,
    }
}
