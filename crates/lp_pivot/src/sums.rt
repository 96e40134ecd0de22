// Sums of products, and the value of a row.
ghost use Rattle.std.specs.Prelude.{◌≡◌, ◌^◌, ◌+◌, ◌*◌, ◌<◌, ◌≤◌, ◌+ℤ◌, ◌*ℤ◌, length, nat_abs, All};
ghost use Rattle.base_num.specs.Sums.{at_terms, entry};
ghost use Rattle.lp_table.specs.Numbers.{down_of};
ghost use Rattle.lp_table.specs.Shape.{IsTable};
ghost use Rattle.lp_pivot.specs.Activity.{row_activity, activity_of};

use crate::shift::Shift;
use lp_table::numbers::{down, product};
use lp_table::{Cell, Coefficient, Quantity, WarmTable};

// A term's value.
#[tactic(auto, using(crate::proofs::Products::term_small))]
fn term(a: Coefficient, x: Quantity) -> i128
    ensures value { result ≡ a *ℤ x }
    ensures small { nat_abs result ≤ 2 ^ 95 }
{
    product(a.number(), x.number())
}

// A shift times a cell.
#[tactic(auto, using(crate::proofs::Products::share_small))]
fn share(q: Shift, t: Cell) -> i128
    ensures value { result ≡ q *ℤ t }
    ensures small { nat_abs result ≤ 2 ^ 116 }
{
    product(q.number(), t.number())
}

// A sum.
pub(crate) fn plus(x: i128, y: i128) -> i128
    requires left { nat_abs x ≤ 1199 * 2 ^ 116 }
    requires right { nat_abs y ≤ 2 ^ 116 }
    ensures value { result ≡ x +ℤ y }
    ensures small { nat_abs result ≤ nat_abs x + nat_abs y }
{
    x + y
}

// The sum of terms at the values x.
fn terms_at(terms: &[(u32, Coefficient)], x: &[Quantity]) -> i128
    requires inside { All (λ t. t.0 < length x.now) terms.now }
    requires few { length terms.now ≤ 2 ^ 11 }
    ensures value { result ≡ at_terms terms.now (entry x.now) }
    ensures small { nat_abs result ≤ 2 ^ 106 }
{
    let mut sum: i128 = 0;
    for k in 0..terms.len() {
        sum = plus(sum, term(terms[k].1, x[terms[k].0 as usize]));
    }
    sum
}

// The sum of shifts, each times the cell at its place.
pub(crate) fn shares(shifts: &[(usize, Shift)], line: &[Cell]) -> i128
    requires inside { All (λ s. s.0 < length line.now) shifts.now }
    requires few { length shifts.now ≤ 1199 }
    ensures value { result ≡ at_terms shifts.now (entry line.now) }
    ensures small { nat_abs result ≤ 1199 * 2 ^ 116 }
{
    let mut sum: i128 = 0;
    for k in 0..shifts.len() {
        sum = plus(sum, share(shifts[k].1, line[shifts[k].0]));
    }
    sum
}

// A sum of shares over 2^40, rounded to the nearest, halves up.
pub(crate) fn down_far(sum: i128) -> i128
    requires { nat_abs sum ≤ 1199 * 2 ^ 116 }
    ensures value { result ≡ down_of sum }
    ensures small { nat_abs result ≤ 2 ^ 87 }
{
    (sum + (1 << 39)) >> 40
}

/// The value of a row with these terms, at the values x. None exactly where its absolute value is 2^55 or more.
pub fn row_value(terms: &[(u32, Coefficient)], x: &[Quantity]) -> Option<Quantity>
    requires inside { All (λ t. t.0 < length x.now) terms.now }
    requires few { length terms.now ≤ 2 ^ 11 }
    ensures { result ≡ row_activity terms.now x.now }
{
    Quantity::new(down(terms_at(terms, x)))
}

/// The value of a row at the columns' values. None exactly where its absolute value is 2^55 or more.
#[tactic(auto, using(crate::proofs::Inside::row_inside, crate::proofs::Inside::row_few))]
pub fn activity(table: &WarmTable, row: usize) -> Option<Quantity>
    requires sized { IsTable table.now }
    requires there { row < length table.now.rows }
    ensures { result ≡ activity_of table.now row }
{
    row_value(table.rows.row(row), table.values.as_slice())
}
