// Whether a program is one that a solver takes.
ghost use Rattle.std.specs.Prelude.{◌≡◌, ◌≤ℤ◌, true, All, IfSome};
ghost use Rattle.lp_program.specs.declared.fixed.Fx.{Fx};
ghost use Rattle.lp_program.specs.declared.programs.Column.{Column};
ghost use Rattle.lp_program.specs.declared.programs.LpRow.{LpRow};
ghost use Rattle.lp_program.specs.Proper.{IsProper, IsReference, IsIdle, AreRising};

use lp_program::{Column, Fx, LpRow, Program};

/// Tells whether some value is in the box.
fn has_box(column: &Column) -> bool
    ensures { result ≡ true → column.now.low.0 ≤ℤ column.now.high.0 }
{
    column.low.0 <= column.high.0
}

/// Tells whether no box is empty.
fn have_boxes(columns: &[Column]) -> bool
    ensures { result ≡ true → All (λ (c : Column). c.low.0 ≤ℤ c.high.0) columns.now }
{
    for column in columns {
        if !has_box(column) {
            return false;
        }
    }
    true
}

/// Tells whether some value keeps both sides.
fn has_value(row: &LpRow) -> bool
    ensures { result ≡ true → IfSome row.now.low (λ low. IfSome row.now.high (λ high. low.0 ≤ℤ high.0)) }
{
    match (row.low, row.high) {
        (Some(low), Some(high)) => low.0 <= high.0,
        _ => true,
    }
}

/// Tells whether some value keeps both sides of each row.
fn have_values(rows: &[LpRow]) -> bool
    ensures { result ≡ true → All (λ (r : LpRow). IfSome r.low (λ low. IfSome r.high (λ high. low.0 ≤ℤ high.0))) rows.now }
{
    for row in rows {
        if !has_value(row) {
            return false;
        }
    }
    true
}

/// Tells whether column numbers rise and are below the number of columns.
fn rises(terms: &[(u32, Fx)], columns: usize) -> bool
    ensures { result ≡ true → AreRising 0 columns terms.now }
{
    let mut least = 0;
    for term in terms {
        let column = term.0 as usize;
        if column < least || column >= columns {
            return false;
        }
        least = column + 1;
    }
    true
}

/// Tells whether the terms of each row rise.
fn rise(rows: &[LpRow], columns: usize) -> bool
    ensures { result ≡ true → All (λ (r : LpRow). AreRising 0 columns r.terms) rows.now }
{
    for row in rows {
        if !rises(row.terms.as_slice(), columns) {
            return false;
        }
    }
    true
}

/// Tells whether no column has another value than 0, nor a cost.
fn are_idle(columns: &[Column]) -> bool
    ensures { result ≡ true → All IsIdle columns.now }
{
    for column in columns {
        if column.low.0 != 0 || column.high.0 != 0 || column.cost.0 != 0 {
            return false;
        }
    }
    true
}

/// Tells whether a program is proper.
pub fn is_proper(lp: &Program) -> bool
    ensures { result ≡ true → IsProper lp.now }
{
    let columns = lp.columns.as_slice();
    let rows = lp.rows.as_slice();
    have_boxes(columns)
        && have_values(rows)
        && rise(rows, columns.len())
        && lp.decisions as usize <= columns.len()
        && lp.own as usize <= rows.len()
}

/// Tells whether a program has own rows alone, and idle columns of successors.
pub fn is_reference(lp: &Program) -> bool
    ensures { result ≡ true → IsReference lp.now }
{
    let columns = lp.columns.as_slice();
    let decisions = lp.decisions as usize;
    lp.own as usize == lp.rows.len()
        && decisions <= columns.len()
        && are_idle(&columns[decisions..])
}
