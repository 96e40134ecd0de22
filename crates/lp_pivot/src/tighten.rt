// The slacks that were not basic leave the basis of a clean table again.
ghost use Rattle.std.specs.Prelude.{◌≡◌, ◌-◌, ◌<◌, [], length, nat_abs, All, IfSome, None};
ghost use Rattle.base_num.specs.Sums.{entry};
ghost use Rattle.lp_table.specs.Shape.{IsTable, variables};
ghost use Rattle.lp_table.specs.Updates.{GivesNew};
ghost use Rattle.lp_table.specs.SameParts.{with_basis};
ghost use Rattle.lp_pivot.specs.Tighten.{was_basic, is_greater, better_place, place_from, large_enough, best_place, left, tight, tightened};

use crate::line::write_line;
use crate::moves::Swap;
use crate::pivots::pivot;
use crate::standings::was_high;
use base_num::List;
use lp_table::{Basis, Cell, WarmTable};

const LEAST: u64 = 1 << 24;

// Tells whether a variable is a column that was basic.
#[tactic(auto, unfolding(crate::specs::Tighten::was_basic))]
fn was_basic(basis: &Basis, columns: usize, variable: usize) -> bool
    requires { variable < length basis.now.places }
    ensures { result ≡ was_basic basis.now columns variable }
{
    variable < columns && basis.places.as_slice()[variable].is_none()
}

// The absolute value of a cell.
fn magnitude(cell: Cell) -> u64
    ensures { result ≡ nat_abs cell }
{
    cell.number().unsigned_abs()
}

// Tells whether the cell at place j is greater than the best one so far.
fn is_greater(line: &[Cell], j: usize, best: Option<usize>) -> bool
    requires place { j < length line.now }
    requires best { IfSome best (λ b. b < length line.now) }
    ensures { result ≡ is_greater line.now j best }
{
    match best {
        None => true,
        Some(b) => magnitude(line[b]) < magnitude(line[j]),
    }
}

// The better of the best place so far and place j.
#[tactic(auto, unfolding(crate::specs::Tighten::better_place))]
fn better_place(
    basis: &Basis,
    line: &[Cell],
    best: Option<usize>,
    j: usize,
    variable: usize,
) -> Option<usize>
    requires there { variable < length basis.now.places }
    requires place { j < length line.now }
    requires best { IfSome best (λ b. b < length line.now) }
    ensures better { result ≡ better_place basis.now line.now best j variable }
    ensures inside { IfSome result (λ b. b < length line.now) }
{
    if was_basic(basis, line.len(), variable) && is_greater(line, j, best) {
        Some(j)
    } else {
        best
    }
}

// The best of all places.
fn place_of(basis: &Basis, nonbasic: &[usize], line: &[Cell]) -> Option<usize>
    requires numbers { All (λ v. v < length basis.now.places) nonbasic.now }
    requires width { length nonbasic.now ≡ length line.now }
    ensures place { result ≡ place_from basis.now line.now None 0 nonbasic.now }
    ensures inside { IfSome result (λ b. b < length line.now) }
{
    let mut best = None;
    for j in 0..nonbasic.len() {
        best = better_place(basis, line, best, j, nonbasic[j]);
    }
    best
}

// The place, where its cell is large enough for a pivot.
fn large_enough(line: &[Cell], place: Option<usize>) -> Option<usize>
    requires { IfSome place (λ b. b < length line.now) }
    ensures large { result ≡ large_enough line.now place }
    ensures inside { IfSome result (λ b. b < length line.now) }
    ensures some { IfSome result (λ b. 0 < nat_abs (entry line.now b)) }
{
    match place {
        Some(b) => {
            if LEAST <= magnitude(line[b]) {
                Some(b)
            } else {
                None
            }
        }
        None => None,
    }
}

// The place with the greatest cell, where that is large enough.
#[tactic(auto, unfolding(crate::specs::Tighten::best_place))]
fn best_place(basis: &Basis, nonbasic: &[usize], line: &[Cell]) -> Option<usize>
    requires numbers { All (λ v. v < length basis.now.places) nonbasic.now }
    requires width { length nonbasic.now ≡ length line.now }
    ensures place { result ≡ best_place basis.now nonbasic.now line.now }
    ensures inside { IfSome result (λ b. b < length line.now) }
    ensures some { IfSome result (λ b. 0 < nat_abs (entry line.now b)) }
{
    large_enough(line, place_of(basis, nonbasic, line))
}

// A slack leaves, where it was not basic and a place is found for it.
#[tactic(auto, unfolding(crate::specs::Tighten::tight, crate::specs::Tighten::left), using(crate::proofs::Sizes::numbers_inside))]
fn tighten(
    table: &mut WarmTable,
    line: &mut List<Cell>,
    steps: &mut List<(usize, Cell)>,
    was: &Basis,
    slack: usize,
) -> bool
    requires sized { IsTable table.old }
    requires width { length line.old ≡ length table.old.costs }
    requires steps { length steps.old ≡ length table.old.costs }
    requires there { slack < variables table.old }
    requires places { length was.now.places ≡ variables table.old }
    requires inside { All (λ p. IfSome p (λ j. j < length was.now.high)) was.now.places }
    ensures sized { IsTable table.new }
    ensures width { length line.new ≡ length line.old }
    ensures steps { length steps.new ≡ length steps.old }
    ensures kept { table.new
        ≡ with_basis table.old table.new.basis table.new.reduced table.new.lines }
    ensures tight { GivesNew result (tight was.now table.old slack) table.new }
{
    if was.places.as_slice()[slack].is_none() {
        return true;
    }
    if !write_line(table, slack, line) {
        return false;
    }
    match best_place(was, table.basis.nonbasic.as_slice(), line.as_slice()) {
        None => true,
        Some(place) => {
            let swap = Swap {
                leaving: slack,
                above: was_high(was, slack),
                place,
                tail: 0,
            };
            pivot(table, line, steps, swap, &[])
        }
    }
}

// Lets all slacks leave that were not basic, in order.
pub(crate) fn tighten_all(
    table: &mut WarmTable,
    line: &mut List<Cell>,
    steps: &mut List<(usize, Cell)>,
    was: &Basis,
) -> bool
    requires sized { IsTable table.old }
    requires width { length line.old ≡ length table.old.costs }
    requires steps { length steps.old ≡ length table.old.costs }
    requires places { length was.now.places ≡ variables table.old }
    requires inside { All (λ p. IfSome p (λ j. j < length was.now.high)) was.now.places }
    ensures sized { IsTable table.new }
    ensures width { length line.new ≡ length line.old }
    ensures steps { length steps.new ≡ length steps.old }
    ensures kept { table.new
        ≡ with_basis table.old table.new.basis table.new.reduced table.new.lines }
    ensures tightened { GivesNew result
        (tightened was.now table.old (length table.old.costs) (length table.old.rows)) table.new }
{
    let columns = table.costs.len();
    let variables = was.places.len();
    for slack in columns..variables {
        if !tighten(table, line, steps, was, slack) {
            return false;
        }
    }
    true
}
