// The pivot.
ghost use Rattle.std.specs.Prelude.{◌≡◌, ◌<◌, ◌≤◌, [], length, get_or, slice_set, nat_abs, All};
ghost use Rattle.std.specs.Option.{option_map};
ghost use Rattle.base_num.specs.Sums.{entry};
ghost use Rattle.base_num.specs.Each.{each_from};
ghost use Rattle.lp_table.specs.Numbers.{bits_of};
ghost use Rattle.lp_table.specs.Updates.{GivesNew};
ghost use Rattle.lp_wide_table.specs.SameParts.{wide_with_basis};
ghost use Rattle.lp_wide_table.specs.Shape.{IsWideTable, wide_variables};
ghost use Rattle.lp_wide_table.specs.Updates.{wide_moved_table_row};
ghost use Rattle.lp_wide.specs.Pivot.{wide_inverse_of, wide_turned_entry, wide_turned_line, wide_moved_or_kept, wide_entered, wide_eliminated, wide_replaced, wide_pivoted};

use base_num::List;
use lp_pivot::pivots::exchange;
use lp_wide_table::numbers::nearest;
use lp_wide_table::updates::move_row;
use lp_wide_table::{Wide, WideCell, WideSquare, WideTable, bits, inverse};

// 1 over the pivot.
#[tactic(auto, unfolding(crate::specs::Pivot::wide_inverse_of))]
fn inverse_of(pivot: WideCell) -> i128
    requires { 0 < nat_abs pivot }
    ensures { result ≡ wide_inverse_of pivot }
{
    inverse(pivot.number())
}

// The number of binary digits of a cell.
fn digits(cell: WideCell) -> u32
    ensures value { result ≡ bits_of cell }
    ensures small { result ≤ 128 }
{
    bits(cell.number())
}

// A cell times the inverse of the pivot, with the other sign; 0 stays 0.
#[tactic(auto, unfolding(crate::specs::Pivot::wide_turned_entry))]
fn turned(inverse: i128, k: u32, x: WideCell) -> Option<WideCell>
    requires least { 1 ≤ k }
    requires greatest { k ≤ 250 }
    ensures { result ≡ wide_turned_entry inverse k x }
{
    if x.number() == 0 {
        Some(WideCell::zero())
    } else {
        let quotient = nearest(Wide::product(x.number(), inverse), k)?;
        Some(WideCell::new(quotient)?.negated())
    }
}

// Multiplies all cells of a line by the inverse of the pivot, with the other sign.
fn turn_all(line: &mut [WideCell], inverse: i128, k: u32) -> bool
    requires least { 1 ≤ k }
    requires greatest { k ≤ 250 }
    ensures width { length line.new ≡ length line.old }
    ensures turned { GivesNew result (each_from (λ j x. wide_turned_entry inverse k x) 0 line.old) line.new }
{
    for j in 0..line.len() {
        match turned(inverse, k, line[j]) {
            Some(x) => line[j] = x,
            None => return false,
        }
    }
    true
}

// The line of the entering variable in place of that of the leaving one.
#[tactic(auto, unfolding(crate::specs::Pivot::wide_turned_line))]
fn turn(line: &mut [WideCell], place: usize) -> bool
    requires place { place < length line.old }
    requires pivot { 0 < nat_abs (entry line.old place) }
    ensures width { length line.new ≡ length line.old }
    ensures turned { GivesNew result (wide_turned_line place line.old) line.new }
{
    let pivot = line[place];
    line[place] = WideCell::minus_one();
    turn_all(line, inverse_of(pivot), digits(pivot) + 44)
}

// Like `turn`, for a list.
fn turn_line(line: &mut List<WideCell>, place: usize) -> bool
    requires place { place < length line.old }
    requires pivot { 0 < nat_abs (entry line.old place) }
    ensures width { length line.new ≡ length line.old }
    ensures turned { GivesNew result (wide_turned_line place line.old) line.new }
{
    turn(line.as_mut_slice(), place)
}

// The line of column k after the pivot.
#[tactic(auto, unfolding(crate::specs::Pivot::wide_moved_or_kept), using(lp_pivot::proofs::Lines::kept_line))]
fn move_line(
    lines: &mut WideSquare,
    places: &[Option<usize>],
    leaving: usize,
    place: usize,
    entering: &[WideCell],
    k: usize,
) -> bool
    requires there { k < length lines.old }
    requires places { k < length places.now }
    requires place { place < length lines.old }
    requires width { length entering.now ≡ length lines.old }
    ensures count { length lines.new ≡ length lines.old }
    ensures moved { GivesNew result (option_map (slice_set lines.old k)
        (wide_moved_or_kept places.now leaving place entering.now k (get_or lines.old k []))) lines.new }
{
    if places[k].is_none() && k != leaving {
        lines.move_row(k, place, entering)
    } else {
        true
    }
}

// The lines of all columns after the pivot, but for that of the entering one.
fn move_lines(
    lines: &mut WideSquare,
    places: &[Option<usize>],
    leaving: usize,
    place: usize,
    entering: &[WideCell],
) -> bool
    requires places { length lines.old ≤ length places.now }
    requires place { place < length lines.old }
    requires width { length entering.now ≡ length lines.old }
    ensures count { length lines.new ≡ length lines.old }
    ensures moved { GivesNew result
        (each_from (wide_moved_or_kept places.now leaving place entering.now) 0 lines.old) lines.new }
{
    for k in 0..lines.size() {
        if !move_line(lines, places, leaving, place, entering, k) {
            return false;
        }
    }
    true
}

// Writes the line of the entering variable, where it is a column.
#[tactic(auto, unfolding(crate::specs::Pivot::wide_entered))]
fn enter(lines: &mut WideSquare, variable: usize, line: &[WideCell])
    requires width { length line.now ≡ length lines.old }
    ensures lines { lines.new ≡ wide_entered lines.old variable line.now }
    ensures count { length lines.new ≡ length lines.old }
{
    if variable < lines.size() {
        lines.set_row(variable, line);
    }
}

// A list of reduced costs after the pivot.
fn move_reduced(reduced: &mut List<WideCell>, place: usize, line: &[WideCell]) -> bool
    requires place { place < length reduced.old }
    requires width { length line.now ≡ length reduced.old }
    ensures count { length reduced.new ≡ length reduced.old }
    ensures moved { GivesNew result (wide_moved_table_row place line.now reduced.old) reduced.new }
{
    move_row(reduced.as_mut_slice(), place, line)
}

// The lines and the reduced costs after the pivot, but for the line of the entering variable.
#[tactic(auto, unfolding(crate::specs::Pivot::wide_eliminated), using(crate::proofs::Sized::sized_parts))]
fn eliminate(table: &mut WideTable, line: &[WideCell], leaving: usize, place: usize) -> bool
    requires sized { IsWideTable table.old }
    requires width { length line.now ≡ length table.old.costs }
    requires place { place < length table.old.costs }
    ensures sized { IsWideTable table.new }
    ensures kept { table.new
        ≡ wide_with_basis table.old table.old.basis table.new.reduced table.new.lines }
    ensures eliminated { GivesNew result (wide_eliminated table.old line.now leaving place) table.new }
{
    let places = table.basis.places.as_slice();
    if !move_lines(&mut table.lines, places, leaving, place, line) {
        return false;
    }
    move_reduced(&mut table.reduced, place, line)
}

// The variables change places, and the line of the entering one is written.
#[tactic(auto, unfolding(crate::specs::Pivot::wide_replaced))]
fn replace(
    table: &mut WideTable,
    line: &[WideCell],
    leaving: usize,
    above: bool,
    place: usize,
    flips: &[usize],
)
    requires sized { IsWideTable table.old }
    requires width { length line.now ≡ length table.old.costs }
    requires there { leaving < wide_variables table.old }
    requires place { place < length table.old.costs }
    requires flips { All (λ j. j < length table.old.costs) flips.now }
    ensures replaced { table.new ≡ wide_replaced table.old line.now leaving above place flips.now }
{
    let entering = table.basis.nonbasic.as_slice()[place];
    enter(&mut table.lines, entering, line);
    exchange(&mut table.basis, leaving, above, place, flips);
}

/// The pivot: a basic variable, with its line, leaves for the variable at a place, and stands at its
/// upper bound where it was above that. The variables at some more places, the flips, change their
/// bounds. `line` is for work after that. The answer is false exactly where a number of it has an
/// absolute value of 2^124 or more: nothing is promised then of the reduced costs and of the lines.
/// All else of the table stays.
#[tactic(auto, unfolding(crate::specs::Pivot::wide_pivoted, crate::specs::Pivot::wide_replaced))]
pub fn pivot(
    table: &mut WideTable,
    line: &mut List<WideCell>,
    leaving: usize,
    above: bool,
    place: usize,
    flips: &[usize],
) -> bool
    requires sized { IsWideTable table.old }
    requires width { length line.old ≡ length table.old.costs }
    requires there { leaving < wide_variables table.old }
    requires place { place < length table.old.costs }
    requires pivot { 0 < nat_abs (entry line.old place) }
    requires flips { All (λ j. j < length table.old.costs) flips.now }
    ensures sized { IsWideTable table.new }
    ensures kept { table.new
        ≡ wide_with_basis table.old table.new.basis table.new.reduced table.new.lines }
    ensures pivoted { GivesNew result (wide_pivoted table.old line.old leaving above place flips.now)
        table.new }
{
    if !turn_line(line, place) {
        return false;
    }
    if !eliminate(table, line.as_slice(), leaving, place) {
        return false;
    }
    replace(table, line.as_slice(), leaving, above, place, flips);
    true
}
