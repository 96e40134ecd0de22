// A basic variable as a sum over the places.
ghost use Rattle.std.specs.Prelude.{◌≡◌, ◌<◌, ◌≤◌, pos, [], length, get_or, slice_set, replicate, All, IfOk, IfSome};
ghost use Rattle.std.specs.Option.{option_map};
ghost use Rattle.base_num.specs.Sums.{entry};
ghost use Rattle.lp_table.specs.Updates.{GivesNew};
ghost use Rattle.lp_wide_table.specs.Numbers.{cell_sum};
ghost use Rattle.lp_wide_table.specs.Shape.{IsWideTable, wide_variables};
ghost use Rattle.lp_wide.specs.Line.{wide_added_term, wide_added_terms, wide_line_of};

use base_num::{List, Memory, copied};
use lp_table::lists::repeated;
use lp_wide_table::updates::add_row;
use lp_wide_table::{Wide, WideCell, WideSquare, WideTable};
use std::alloc::Global;

// The sum of two cells.
fn added(cell: WideCell, a: WideCell) -> Option<WideCell>
    ensures { result ≡ cell_sum cell a }
{
    cell.plus(Wide::from_i128(a.number()))
}

// Adds a coefficient at a place.
fn add_at(line: &mut [WideCell], place: usize, a: WideCell) -> bool
    requires { place < length line.old }
    ensures width { length line.new ≡ length line.old }
    ensures added { GivesNew result
        (option_map (slice_set line.old place) (cell_sum (entry line.old place) a)) line.new }
{
    match added(line[place], a) {
        Some(x) => {
            line[place] = x;
            true
        }
        None => false,
    }
}

// Adds a term by its column's place.
fn add_term(
    line: &mut [WideCell],
    lines: &WideSquare,
    column: usize,
    a: WideCell,
    place: Option<usize>,
) -> bool
    requires width { length line.old ≡ length lines.now }
    requires column { column < length lines.now }
    requires inside { IfSome place (λ j. j < length line.old) }
    ensures width { length line.new ≡ length line.old }
    ensures added { GivesNew result (wide_added_term lines.now line.old column a place) line.new }
{
    match place {
        Some(j) => add_at(line, j, a),
        None => add_row(line, a, lines.row(column)),
    }
}

// Adds terms, one after the other.
fn add_terms(
    line: &mut [WideCell],
    lines: &WideSquare,
    places: &[Option<usize>],
    terms: &[(u32, WideCell)],
) -> bool
    requires width { length line.old ≡ length lines.now }
    requires there { length lines.now ≤ length places.now }
    requires inside { All (λ p. IfSome p (λ j. j < length line.old)) places.now }
    requires columns { All (λ t. t.0 < length lines.now) terms.now }
    ensures width { length line.new ≡ length line.old }
    ensures added { GivesNew result (wide_added_terms places.now lines.now line.old terms.now) line.new }
{
    for k in 0..terms.len() {
        let column = terms[k].0 as usize;
        if !add_term(line, lines, column, terms[k].1, places[column]) {
            return false;
        }
    }
    true
}

// Adds the terms of a row to a line.
#[tactic(auto, using(crate::proofs::Inside::row_columns, crate::proofs::Inside::places_inside))]
fn add_row_terms(table: &WideTable, row: usize, line: &mut [WideCell]) -> bool
    requires sized { IsWideTable table.now }
    requires there { row < length table.now.rows }
    requires width { length line.old ≡ length table.now.costs }
    ensures width { length line.new ≡ length line.old }
    ensures line { GivesNew result (wide_added_terms table.now.basis.places table.now.lines line.old (get_or table.now.rows row [])) line.new }
{
    add_terms(
        line,
        &table.lines,
        table.basis.places.as_slice(),
        table.rows.row(row),
    )
}

// The line of a row's slack. None where one of its numbers is no cell on the way.
fn slack_line(
    alloc: Global,
    table: &WideTable,
    row: usize,
) -> Result<Option<List<WideCell>>, Memory>
    requires sized { IsWideTable table.now }
    requires there { row < length table.now.rows }
    ensures line { IfOk result (λ line. line ≡ wide_added_terms table.now.basis.places table.now.lines
        (replicate (length table.now.costs) (pos 0)) (get_or table.now.rows row [])) }
    ensures width { IfOk result (λ line. IfSome line (λ r. length r ≡ length table.now.costs)) }
{
    let mut line = repeated(alloc, table.costs.len(), WideCell::zero())?;
    if add_row_terms(table, row, line.as_mut_slice()) {
        Ok(Some(line))
    } else {
        Ok(None)
    }
}

/// The line of a basic variable: the cells by which it is a sum over the places. None exactly where a
/// cell of it, on the way too, has an absolute value of 2^124 or more. [`Memory`] where memory was
/// refused.
#[tactic(auto, unfolding(crate::specs::Line::wide_line_of))]
pub fn line(
    alloc: Global,
    table: &WideTable,
    variable: usize,
) -> Result<Option<List<WideCell>>, Memory>
    requires sized { IsWideTable table.now }
    requires there { variable < wide_variables table.now }
    ensures line { IfOk result (λ line. line ≡ wide_line_of table.now variable) }
    ensures width { IfOk result (λ line. IfSome line (λ r. length r ≡ length table.now.costs)) }
{
    let columns = table.costs.len();
    if variable < columns {
        Ok(Some(copied(alloc, table.lines.row(variable))?))
    } else {
        slack_line(alloc, table, variable - columns)
    }
}
