// Rows with a multiple of another row added.
ghost use Rattle.std.specs.Prelude.{◌≡◌, true, ℤ, ◌^◌, ◌<◌, ◌≤◌, pos, ◌+ℤ◌, ◌*ℤ◌, length, nat_abs, All};
ghost use Rattle.base_num.specs.Sums.{floor_over};
ghost use Rattle.lp_table.specs.Numbers.{down_of, cell_of};
ghost use Rattle.lp_table.specs.Updates.{GivesNew, moved_cell, added_row, moved_table_row};
ghost use Rattle.lp_table.specs.Sparse.{sparse, added_at};

use crate::numbers::{down_product, product};
use crate::ranged_numbers::Cell;

fn plus(x: i64, y: i128) -> i128
    requires { nat_abs y ≤ 2 ^ 87 }
    ensures { result ≡ x +ℤ y }
{
    i128::from(x) + y
}

fn added(t: Cell, factor: Cell, n: Cell) -> Option<Cell>
    ensures { result ≡ cell_of (t +ℤ down_of (factor *ℤ n)) }
{
    Cell::new(plus(t.number(), down_product(factor.number(), n.number())))
}

// The cell with a product added.
fn moved(t: Cell, factor: Cell, n: Cell) -> Option<Cell>
    ensures { result ≡ moved_cell factor n t }
{
    let _number = t.number();
    added(t, factor, n)
}

// The number over 2^64, rounded to the nearest.
fn high(sum: i128) -> i64
    requires { nat_abs sum ≤ 2 ^ 126 }
    ensures value { result ≡ floor_over (sum +ℤ pos (2 ^ 63)) (2 ^ 64) }
    ensures small { nat_abs result ≤ 2 ^ 62 }
{
    ((sum + (1 << 63)) >> 64) as i64
}

// The product over 2^64, rounded to the nearest.
fn high_product(x: i64, y: i64) -> i64
    ensures value { result ≡ floor_over (x *ℤ y +ℤ pos (2 ^ 63)) (2 ^ 64) }
    ensures small { nat_abs result ≤ 2 ^ 62 }
{
    high(product(x, y))
}

fn near_cell(t: Cell, step: i64) -> Option<Cell>
    requires { nat_abs step ≤ 2 ^ 62 }
    ensures { result ≡ cell_of (t +ℤ step) }
{
    Cell::narrow(t.number() + step)
}

// Tells whether a factor is below 2^42 in absolute value.
fn is_near(factor: Cell) -> bool
    ensures { result ≡ true → nat_abs factor < 2 ^ 42 }
{
    let number = factor.number();
    -(1 << 42) < number && number < 1 << 42
}

// 2^21 times the factor.
fn scaled(factor: Cell) -> i64
    requires { nat_abs factor < 2 ^ 42 }
    ensures { result ≡ pos (2 ^ 21) *ℤ factor }
{
    (1 << 21) * factor.number()
}

fn eightfold(n: Cell) -> i64
    ensures { result ≡ pos 8 *ℤ n }
{
    8 * n.number()
}

// The cell with a product added, for `scaled` = 2^21 times the factor.
fn moved_near(t: Cell, scaled: i64, n: Cell) -> Option<Cell>
    ensures { (q : ℤ) → scaled ≡ pos (2 ^ 21) *ℤ q → result ≡ moved_cell q n t }
{
    let _number = t.number();
    near_cell(t, high_product(scaled, eightfold(n)))
}

#[tactic(auto, unfolding(crate::specs::Updates::added_row))]
fn add_row_wide(row: &mut [Cell], factor: Cell, addend: &[Cell]) -> bool
    requires lengths { length addend.now ≡ length row.old }
    ensures lengths { length row.new ≡ length row.old }
    ensures moved { GivesNew result (added_row factor addend.now row.old) row.new }
{
    for j in 0..row.len() {
        match moved(row[j], factor, addend[j]) {
            Some(x) => row[j] = x,
            None => return false,
        }
    }
    true
}

// Like `add_row_wide`, for a factor below 2^42 in absolute value, by the high half of a product of 64 bits.
#[tactic(auto, unfolding(crate::specs::Updates::added_row))]
fn add_row_near(row: &mut [Cell], factor: Cell, addend: &[Cell]) -> bool
    requires near { nat_abs factor < 2 ^ 42 }
    requires lengths { length addend.now ≡ length row.old }
    ensures lengths { length row.new ≡ length row.old }
    ensures moved { GivesNew result (added_row factor addend.now row.old) row.new }
{
    let scaled = scaled(factor);
    for j in 0..row.len() {
        match moved_near(row[j], scaled, addend[j]) {
            Some(x) => row[j] = x,
            None => return false,
        }
    }
    true
}

/// Adds to each cell of a row the factor times a cell of the addend, over 2^40, rounded to the
/// nearest. The answer is false exactly where a result leaves the range of cells: nothing but its
/// length is promised of the row then.
pub fn add_row(row: &mut [Cell], factor: Cell, addend: &[Cell]) -> bool
    requires lengths { length addend.now ≡ length row.old }
    ensures lengths { length row.new ≡ length row.old }
    ensures moved { GivesNew result (added_row factor addend.now row.old) row.new }
{
    if is_near(factor) {
        add_row_near(row, factor, addend)
    } else {
        add_row_wide(row, factor, addend)
    }
}

// Adds to some cells of a row, one after the other, the factor times a number over 2^40.
fn add_wide_at(row: &mut [Cell], factor: Cell, steps: &[(usize, Cell)]) -> bool
    requires { All (λ s. s.0 < length row.old) steps.now }
    ensures lengths { length row.new ≡ length row.old }
    ensures added { GivesNew result (added_at factor steps.now row.old) row.new }
{
    for k in 0..steps.len() {
        let step = steps[k];
        match moved(row[step.0], factor, step.1) {
            Some(x) => row[step.0] = x,
            None => return false,
        }
    }
    true
}

// Like `add_wide_at`, for a factor below 2^42 in absolute value.
fn add_near_at(row: &mut [Cell], factor: Cell, steps: &[(usize, Cell)]) -> bool
    requires near { nat_abs factor < 2 ^ 42 }
    requires inside { All (λ s. s.0 < length row.old) steps.now }
    ensures lengths { length row.new ≡ length row.old }
    ensures added { GivesNew result (added_at factor steps.now row.old) row.new }
{
    let scaled = scaled(factor);
    for k in 0..steps.len() {
        let step = steps[k];
        match moved_near(row[step.0], scaled, step.1) {
            Some(x) => row[step.0] = x,
            None => return false,
        }
    }
    true
}

// Like `add_wide_at`, by `add_near_at` where the factor is below 2^42 in absolute value.
fn add_at(row: &mut [Cell], factor: Cell, steps: &[(usize, Cell)]) -> bool
    requires { All (λ s. s.0 < length row.old) steps.now }
    ensures lengths { length row.new ≡ length row.old }
    ensures added { GivesNew result (added_at factor steps.now row.old) row.new }
{
    if is_near(factor) {
        add_near_at(row, factor, steps)
    } else {
        add_wide_at(row, factor, steps)
    }
}

// Like `add_row`, by the addend's cells that are not 0, where it has others.
#[tactic(auto, using(crate::proofs::Stepping::sparse_added))]
fn add_steps(row: &mut [Cell], factor: Cell, addend: &[Cell], steps: &[(usize, Cell)]) -> bool
    requires lengths { length addend.now ≡ length row.old }
    requires steps { steps.now ≡ sparse 0 addend.now }
    ensures lengths { length row.new ≡ length row.old }
    ensures moved { GivesNew result (added_row factor addend.now row.old) row.new }
{
    if steps.len() < addend.len() {
        add_at(row, factor, steps)
    } else {
        add_row(row, factor, addend)
    }
}

/// The row after the variable at a place is replaced by the sum that the addend is. The answer is
/// false exactly where a result leaves the range of cells: nothing but its length is promised of
/// the row then. `steps` are the addend's cells that are not 0, each with its place.
#[tactic(auto, unfolding(crate::specs::Updates::moved_table_row))]
pub fn move_row(row: &mut [Cell], place: usize, addend: &[Cell], steps: &[(usize, Cell)]) -> bool
    requires place { place < length row.old }
    requires lengths { length addend.now ≡ length row.old }
    requires steps { steps.now ≡ sparse 0 addend.now }
    ensures lengths { length row.new ≡ length row.old }
    ensures moved { GivesNew result (moved_table_row place addend.now row.old) row.new }
{
    let factor = row[place];
    if factor.number() == 0 {
        return true;
    }
    row[place] = Cell::zero();
    add_steps(row, factor, addend, steps)
}
