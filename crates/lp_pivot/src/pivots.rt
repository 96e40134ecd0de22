// The pivot.
ghost use Rattle.std.specs.Prelude.{◌≡◌, ◌^◌, ◌+◌, ◌-◌, ◌<◌, ◌≤◌, pos, neg_ℤ, ◌+ℤ◌, ◌*ℤ◌, [], length, get_or, slice_set, nat_abs, false, All};
ghost use Rattle.std.specs.Option.{option_map};
ghost use Rattle.base_num.specs.Sums.{entry, floor_over};
ghost use Rattle.lp_table.specs.Numbers.{bits_of, quotient_of, cell_of};
ghost use Rattle.base_num.specs.Each.{each_from};
ghost use Rattle.lp_table.specs.Shape.{IsTable, variables};
ghost use Rattle.lp_table.specs.SameParts.{with_basis};
ghost use Rattle.lp_table.specs.Updates.{GivesNew, moved_table_row};
ghost use Rattle.lp_table.specs.Sparse.{sparse};
ghost use Rattle.lp_pivot.specs.Pivot.{minus_one, inverse_of, turned_entry, turned_line, moved_or_kept, entered, flipped, exchanged_basis, eliminated, replaced, pivoted};

use crate::moves::Swap;
use crate::sums::plus;
use base_num::List;
use lp_table::numbers::{bits, power, product, quotient};
use lp_table::steps::write_steps;
use lp_table::updates::move_row;
use lp_table::{Basis, Cell, Square, WarmTable};

// The number in 64 bits.
fn short(v: i128) -> i64
    requires { nat_abs v ≤ 2 ^ 57 }
    ensures value { result ≡ v }
    ensures small { nat_abs result ≤ 2 ^ 57 }
{
    v as i64
}

// The number of binary digits of a cell.
#[tactic(auto, using(crate::proofs::Inverses::bits_few))]
fn digits(cell: Cell) -> u32
    ensures value { result ≡ bits_of cell }
    ensures small { result ≤ 60 }
    ensures range { nat_abs cell < 2 ^ 60 }
{
    bits(i128::from(cell.number()))
}

// 2^(k + 56).
#[tactic(auto, using(crate::proofs::Inverses::dividend_small))]
fn dividend(k: u32) -> i128
    requires { k ≤ 60 }
    ensures value { result ≡ pos (2 ^ (k + 56)) }
    ensures small { nat_abs result ≤ 2 ^ 116 }
{
    power(k + 56)
}

// The quotient by a cell, rounded towards zero.
fn ratio(a: i128, cell: Cell) -> i128
    requires small { nat_abs a ≤ 2 ^ 116 }
    requires divisor { 0 < nat_abs cell }
    ensures { result ≡ quotient_of a cell }
{
    quotient(a, i128::from(cell.number()))
}

// 1 over the pivot.
#[tactic(auto, unfolding(crate::specs::Pivot::inverse_of))]
fn inverse(pivot: Cell) -> i64
    requires { 0 < nat_abs pivot }
    ensures value { result ≡ inverse_of pivot }
    ensures small { nat_abs result ≤ 2 ^ 57 }
{
    short(ratio(dividend(digits(pivot)), pivot))
}

// Adds half of 2^k.
#[tactic(auto, using(crate::proofs::Inverses::half_small))]
fn half_added(sum: i128, k: u32) -> i128
    requires few { nat_abs sum ≤ 2 ^ 117 }
    requires places { k ≤ 76 }
    requires some { 1 ≤ k }
    ensures value { result ≡ sum +ℤ pos (2 ^ (k - 1)) }
    ensures small { nat_abs result ≤ 2 ^ 118 }
{
    plus(sum, power(k - 1))
}

// A number over 2^k, rounded down.
#[tactic(auto, using(crate::proofs::Inverses::shift_small))]
fn shifted_down(sum: i128, k: u32) -> i128
    requires few { nat_abs sum ≤ 2 ^ 118 }
    requires places { k ≤ 76 }
    ensures value { result ≡ floor_over sum (2 ^ k) }
    ensures small { nat_abs result ≤ 2 ^ 118 }
{
    sum >> k
}

// The number with the other sign.
fn negated(x: i128) -> i128
    requires { nat_abs x ≤ 2 ^ 118 }
    ensures { result ≡ neg_ℤ x }
{
    -x
}

// A number over 2^k, rounded to the nearest, with the other sign.
fn turned_down(sum: i128, k: u32) -> i128
    requires few { nat_abs sum ≤ 2 ^ 117 }
    requires places { k ≤ 76 }
    requires some { 1 ≤ k }
    ensures { result ≡ neg_ℤ (floor_over (sum +ℤ pos (2 ^ (k - 1))) (2 ^ k)) }
{
    negated(shifted_down(half_added(sum, k), k))
}

// A cell times the inverse of the pivot, with the other sign.
#[tactic(auto, using(crate::proofs::Products::turned_small))]
fn turned_product(inverse: i64, k: u32, x: Cell) -> Option<Cell>
    requires inverse { nat_abs inverse ≤ 2 ^ 57 }
    requires places { k ≤ 76 }
    requires some { 1 ≤ k }
    ensures { result ≡ cell_of
        (neg_ℤ (floor_over (x *ℤ inverse +ℤ pos (2 ^ (k - 1))) (2 ^ k))) }
{
    Cell::new(turned_down(product(x.number(), inverse), k))
}

// Turns a cell by the inverse of the pivot. False where it is no cell then.
fn turn_by(line: &mut [Cell], inverse: i64, k: u32, j: usize) -> bool
    requires inverse { nat_abs inverse ≤ 2 ^ 57 }
    requires places { k ≤ 76 }
    requires some { 1 ≤ k }
    requires there { j < length line.old }
    ensures width { length line.new ≡ length line.old }
    ensures turned { GivesNew result (option_map (slice_set line.old j)
        (cell_of (neg_ℤ (floor_over (entry line.old j *ℤ inverse +ℤ pos (2 ^ (k - 1))) (2 ^ k))))) line.new }
{
    match turned_product(inverse, k, line[j]) {
        Some(x) => {
            line[j] = x;
            true
        }
        None => false,
    }
}

// Turns a cell by the inverse of the pivot, but that 0 stays 0: most cells of a line are 0, and nothing is written there.
#[tactic(auto, unfolding(crate::specs::Pivot::turned_entry), using(crate::proofs::Values::kept_zero))]
fn turn_at(line: &mut [Cell], inverse: i64, k: u32, j: usize) -> bool
    requires inverse { nat_abs inverse ≤ 2 ^ 57 }
    requires places { k ≤ 76 }
    requires some { 1 ≤ k }
    requires there { j < length line.old }
    ensures width { length line.new ≡ length line.old }
    ensures turned { GivesNew result (option_map (slice_set line.old j) (turned_entry inverse k (entry line.old j))) line.new }
{
    if line[j].number() == 0 {
        true
    } else {
        turn_by(line, inverse, k, j)
    }
}

// Turns all cells of a line by the inverse of the pivot.
fn turn_all(line: &mut [Cell], inverse: i64, k: u32) -> bool
    requires inverse { nat_abs inverse ≤ 2 ^ 57 }
    requires places { k ≤ 76 }
    requires some { 1 ≤ k }
    ensures width { length line.new ≡ length line.old }
    ensures turned { GivesNew result (each_from (λ j x. turned_entry inverse k x) 0 line.old) line.new }
{
    for j in 0..line.len() {
        if !turn_at(line, inverse, k, j) {
            return false;
        }
    }
    true
}

// The line of the entering variable in place of that of the leaving one.
#[tactic(auto, unfolding(crate::specs::Pivot::turned_line))]
fn turn(line: &mut [Cell], place: usize) -> bool
    requires place { place < length line.old }
    requires pivot { 0 < nat_abs (entry line.old place) }
    ensures width { length line.new ≡ length line.old }
    ensures turned { GivesNew result (turned_line place line.old) line.new }
{
    let pivot = line[place];
    line[place] = Cell::minus_one();
    turn_all(line, inverse(pivot), digits(pivot) + 16)
}

// Like `turn`, for a list.
fn turn_line(line: &mut List<Cell>, place: usize) -> bool
    requires place { place < length line.old }
    requires pivot { 0 < nat_abs (entry line.old place) }
    ensures width { length line.new ≡ length line.old }
    ensures turned { GivesNew result (turned_line place line.old) line.new }
{
    turn(line.as_mut_slice(), place)
}

/// The entering variable's line, by which the lines of the other basic columns change in a pivot.
#[derive(Clone, Copy)]
struct Elimination<'a> {
    /// The place of each variable that is not basic before the pivot.
    places: &'a [Option<usize>],
    /// The variable that leaves.
    leaving: usize,
    /// The place where it goes.
    place: usize,
    /// The line of the variable that enters.
    entering: &'a [Cell],
    /// The cells of that line that are not 0, with their places.
    steps: &'a [(usize, Cell)],
}

// The line of column k after the pivot.
#[tactic(auto, unfolding(crate::specs::Pivot::moved_or_kept), using(crate::proofs::Lines::kept_line))]
fn move_line(lines: &mut Square, by: &Elimination, k: usize) -> bool
    requires steps { by.now.steps.now ≡ sparse 0 by.now.entering.now }
    requires there { k < length lines.old }
    requires places { k < length by.now.places.now }
    requires place { by.now.place < length lines.old }
    requires width { length by.now.entering.now ≡ length lines.old }
    ensures count { length lines.new ≡ length lines.old }
    ensures moved { GivesNew result (option_map (slice_set lines.old k)
        (moved_or_kept by.now.places.now by.now.leaving by.now.place by.now.entering.now k (get_or lines.old k [])))
        lines.new }
{
    if by.places[k].is_none() && k != by.leaving {
        lines.move_row(k, by.place, by.entering, by.steps)
    } else {
        true
    }
}

// The lines of all columns after the pivot, but for that of the entering one.
fn move_lines(lines: &mut Square, by: &Elimination) -> bool
    requires steps { by.now.steps.now ≡ sparse 0 by.now.entering.now }
    requires places { length lines.old ≤ length by.now.places.now }
    requires place { by.now.place < length lines.old }
    requires width { length by.now.entering.now ≡ length lines.old }
    ensures count { length lines.new ≡ length lines.old }
    ensures moved { GivesNew result
        (each_from (moved_or_kept by.now.places.now by.now.leaving by.now.place by.now.entering.now) 0 lines.old)
        lines.new }
{
    for k in 0..lines.size() {
        if !move_line(lines, by, k) {
            return false;
        }
    }
    true
}

// Writes the line of the entering variable, where it is a column.
#[tactic(auto, unfolding(crate::specs::Pivot::entered))]
fn enter(lines: &mut Square, variable: usize, line: &[Cell])
    requires width { length line.now ≡ length lines.old }
    ensures lines { lines.new ≡ entered lines.old variable line.now }
    ensures count { length lines.new ≡ length lines.old }
{
    if variable < lines.size() {
        lines.set_row(variable, line);
    }
}

// Puts the variables at some places at their other bounds.
fn flip(high: &mut List<bool>, flips: &[usize])
    requires { All (λ j. j < length high.old) flips.now }
    ensures high { high.new ≡ flipped high.old flips.now }
    ensures count { length high.new ≡ length high.old }
{
    for k in 0..flips.len() {
        let stands = high.as_slice()[flips[k]];
        high.set(flips[k], !stands);
    }
}

/// A variable takes a place, and the one that was there is basic.
#[tactic(auto, unfolding(crate::specs::Pivot::exchanged_basis))]
pub fn exchange(basis: &mut Basis, leaving: usize, above: bool, place: usize, flips: &[usize])
    requires leaving { leaving < length basis.old.places }
    requires entering { All (λ v. v < length basis.old.places) basis.old.nonbasic }
    requires place { place < length basis.old.nonbasic }
    requires high { length basis.old.high ≡ length basis.old.nonbasic }
    requires flips { All (λ j. j < length basis.old.high) flips.now }
    ensures { basis.new ≡ exchanged_basis basis.old leaving above place flips.now }
{
    let entering = basis.nonbasic.as_slice()[place];
    basis.places.set(entering, None);
    basis.places.set(leaving, Some(place));
    basis.nonbasic.set(place, leaving);
    flip(&mut basis.high, flips);
    basis.high.set(place, above);
}

// A list of reduced costs after the pivot.
fn move_reduced(
    reduced: &mut List<Cell>,
    place: usize,
    line: &[Cell],
    steps: &[(usize, Cell)],
) -> bool
    requires steps { steps.now ≡ sparse 0 line.now }
    requires place { place < length reduced.old }
    requires width { length line.now ≡ length reduced.old }
    ensures count { length reduced.new ≡ length reduced.old }
    ensures moved { GivesNew result (moved_table_row place line.now reduced.old) reduced.new }
{
    move_row(reduced.as_mut_slice(), place, line, steps)
}

// The lines and the reduced costs after the pivot, but for the line of the entering variable.
#[tactic(auto, unfolding(crate::specs::Pivot::eliminated), using(crate::proofs::Sized::sized_parts))]
fn eliminate_by(
    table: &mut WarmTable,
    line: &[Cell],
    steps: &[(usize, Cell)],
    leaving: usize,
    place: usize,
) -> bool
    requires steps { steps.now ≡ sparse 0 line.now }
    requires sized { IsTable table.old }
    requires width { length line.now ≡ length table.old.costs }
    requires place { place < length table.old.costs }
    ensures sized { IsTable table.new }
    ensures kept { table.new
        ≡ with_basis table.old table.old.basis table.new.reduced table.new.lines }
    ensures eliminated { GivesNew result (eliminated table.old line.now leaving place) table.new }
{
    let places = table.basis.places.as_slice();
    let by = Elimination {
        places,
        leaving,
        place,
        entering: line,
        steps,
    };
    if !move_lines(&mut table.lines, &by) {
        return false;
    }
    move_reduced(&mut table.reduced, place, line, steps)
}

// Like `eliminate_by`. `steps` is for work.
fn eliminate(
    table: &mut WarmTable,
    line: &[Cell],
    steps: &mut List<(usize, Cell)>,
    leaving: usize,
    place: usize,
) -> bool
    requires sized { IsTable table.old }
    requires width { length line.now ≡ length table.old.costs }
    requires steps { length steps.old ≡ length table.old.costs }
    requires place { place < length table.old.costs }
    ensures sized { IsTable table.new }
    ensures steps { length steps.new ≡ length steps.old }
    ensures kept { table.new
        ≡ with_basis table.old table.old.basis table.new.reduced table.new.lines }
    ensures eliminated { GivesNew result (eliminated table.old line.now leaving place) table.new }
{
    let count = write_steps(line, steps);
    eliminate_by(
        table,
        line,
        steps.as_slice().split_at(count).0,
        leaving,
        place,
    )
}

// The variables change places, and the line of the entering one is written.
#[tactic(auto, unfolding(crate::specs::Pivot::replaced))]
fn replace(
    table: &mut WarmTable,
    line: &[Cell],
    leaving: usize,
    above: bool,
    place: usize,
    flips: &[usize],
)
    requires sized { IsTable table.old }
    requires width { length line.now ≡ length table.old.costs }
    requires there { leaving < variables table.old }
    requires place { place < length table.old.costs }
    requires flips { All (λ j. j < length table.old.costs) flips.now }
    ensures replaced { table.new ≡ replaced table.old line.now leaving above place flips.now }
{
    let entering = table.basis.nonbasic.as_slice()[place];
    enter(&mut table.lines, entering, line);
    exchange(&mut table.basis, leaving, above, place, flips);
}

/// Pivots: a basic variable, with its line, leaves for the variable at a place, and stands at its upper bound where it was
/// above that. The variables at some more places, the flips, change their bounds. What the swap says of a violation plays no
/// part. `line` is for work after that, and `steps`, as many places with cells as columns, too. The answer is false exactly
/// where a number of it has an absolute value of 2^60 or more: the basis is then as before, and nothing is promised of the
/// reduced costs and of the lines. All else of the table stays.
#[tactic(auto, unfolding(crate::specs::Pivot::pivoted, crate::specs::Pivot::replaced))]
pub fn pivot(
    table: &mut WarmTable,
    line: &mut List<Cell>,
    steps: &mut List<(usize, Cell)>,
    swap: Swap,
    flips: &[usize],
) -> bool
    requires sized { IsTable table.old }
    requires width { length line.old ≡ length table.old.costs }
    requires steps { length steps.old ≡ length table.old.costs }
    requires there { swap.leaving < variables table.old }
    requires place { swap.place < length table.old.costs }
    requires pivot { 0 < nat_abs (entry line.old swap.place) }
    requires flips { All (λ j. j < length table.old.costs) flips.now }
    ensures sized { IsTable table.new }
    ensures width { length line.new ≡ length line.old }
    ensures steps { length steps.new ≡ length steps.old }
    ensures kept { table.new
        ≡ with_basis table.old table.new.basis table.new.reduced table.new.lines }
    ensures stopped { result ≡ false → table.new.basis ≡ table.old.basis }
    ensures pivoted { GivesNew result (pivoted table.old line.old swap.leaving swap.above swap.place flips.now)
        table.new }
{
    if !turn_line(line, swap.place) {
        return false;
    }
    if !eliminate(table, line.as_slice(), steps, swap.leaving, swap.place) {
        return false;
    }
    replace(
        table,
        line.as_slice(),
        swap.leaving,
        swap.above,
        swap.place,
        flips,
    );
    true
}
