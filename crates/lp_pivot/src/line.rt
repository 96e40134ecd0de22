// A basic variable as a sum over the places.
ghost use Rattle.std.specs.Prelude.{◌≡◌, ◌<◌, ◌≤◌, pos, ◌+ℤ◌, [], length, get_or, slice_set, replicate, All, IfSome};
ghost use Rattle.std.specs.Option.{option_map};
ghost use Rattle.base_num.specs.Sums.{entry};
ghost use Rattle.lp_table.specs.Numbers.{cell_of};
ghost use Rattle.lp_table.specs.Shape.{IsTable, variables};
ghost use Rattle.lp_table.specs.Updates.{GivesNew};
ghost use Rattle.lp_pivot.specs.Line.{added_term, added_terms, line_of};

use base_num::List;
use lp_table::updates::add_row;
use lp_table::{Cell, Coefficient, Square, WarmTable};

// A cell with a coefficient added.
fn added(cell: Cell, a: Coefficient) -> Option<Cell>
    ensures { result ≡ cell_of (cell +ℤ a) }
{
    Cell::narrow(cell.number() + a.number())
}

// Adds a coefficient at a place.
fn add_at(line: &mut [Cell], place: usize, a: Coefficient) -> bool
    requires { place < length line.old }
    ensures width { length line.new ≡ length line.old }
    ensures added { GivesNew result
        (option_map (slice_set line.old place) (cell_of (entry line.old place +ℤ a))) line.new }
{
    match added(line[place], a) {
        Some(x) => {
            line[place] = x;
            true
        }
        None => false,
    }
}

// Adds a term by its column's place.
fn add_term(
    line: &mut [Cell],
    lines: &Square,
    column: usize,
    a: Coefficient,
    place: Option<usize>,
) -> bool
    requires width { length line.old ≡ length lines.now }
    requires column { column < length lines.now }
    requires inside { IfSome place (λ j. j < length line.old) }
    ensures width { length line.new ≡ length line.old }
    ensures added { GivesNew result (added_term lines.now line.old column a place) line.new }
{
    match place {
        Some(j) => add_at(line, j, a),
        None => add_row(line, a.cell(), lines.row(column)),
    }
}

// Adds terms, one after the other.
fn add_terms(
    line: &mut [Cell],
    lines: &Square,
    places: &[Option<usize>],
    terms: &[(u32, Coefficient)],
) -> bool
    requires width { length line.old ≡ length lines.now }
    requires there { length lines.now ≤ length places.now }
    requires inside { All (λ p. IfSome p (λ j. j < length line.old)) places.now }
    requires columns { All (λ t. t.0 < length lines.now) terms.now }
    ensures width { length line.new ≡ length line.old }
    ensures added { GivesNew result (added_terms places.now lines.now line.old terms.now) line.new }
{
    for k in 0..terms.len() {
        let column = terms[k].0 as usize;
        if !add_term(line, lines, column, terms[k].1, places[column]) {
            return false;
        }
    }
    true
}

// Writes zeros.
fn clear(line: &mut [Cell])
    ensures { line.new ≡ replicate (length line.old) (pos 0) }
{
    for j in 0..line.len() {
        line[j] = Cell::zero();
    }
}

// Writes the line of a row's slack.
#[tactic(auto, using(crate::proofs::Inside::row_columns, crate::proofs::Inside::places_inside))]
fn write_slack(table: &WarmTable, row: usize, line: &mut [Cell]) -> bool
    requires sized { IsTable table.now }
    requires there { row < length table.now.rows }
    requires width { length line.old ≡ length table.now.costs }
    ensures width { length line.new ≡ length line.old }
    ensures line { GivesNew result (added_terms table.now.basis.places table.now.lines
        (replicate (length table.now.costs) (pos 0)) (get_or table.now.rows row [])) line.new }
{
    clear(line);
    add_terms(
        line,
        &table.lines,
        table.basis.places.as_slice(),
        table.rows.row(row),
    )
}

// Writes the line of a variable over a slice.
#[tactic(auto, unfolding(crate::specs::Line::line_of))]
fn write_over(table: &WarmTable, variable: usize, line: &mut [Cell]) -> bool
    requires sized { IsTable table.now }
    requires there { variable < variables table.now }
    requires width { length line.old ≡ length table.now.costs }
    ensures width { length line.new ≡ length line.old }
    ensures line { GivesNew result (line_of table.now variable) line.new }
{
    let columns = table.costs.len();
    if variable < columns {
        line.copy_from_slice(table.lines.row(variable));
        true
    } else {
        write_slack(table, variable - columns, line)
    }
}

/// Writes the line of a basic variable: the cells by which it is a sum over the places. The answer
/// is false exactly where a cell of it, on the way too, has an absolute value of 2^60 or more:
/// nothing but its length is promised of the line then.
pub fn write_line(table: &WarmTable, variable: usize, line: &mut List<Cell>) -> bool
    requires sized { IsTable table.now }
    requires there { variable < variables table.now }
    requires width { length line.old ≡ length table.now.costs }
    ensures width { length line.new ≡ length line.old }
    ensures line { GivesNew result (line_of table.now variable) line.new }
{
    write_over(table, variable, line.as_mut_slice())
}
