// The duals of a row that nothing brings back to its bound.
ghost use Rattle.std.specs.Prelude.{◌≡◌, ◌<◌, ◌≤◌, ◌+◌, ◌^◌, ◌+ℤ◌, ◌-ℤ◌, pos, nat_abs, length, IfOk, IfSome, Some, None, OnOk};
ghost use Rattle.std.specs.Option.{IsSome};
ghost use Rattle.base_num.specs.Sums.{entry};
ghost use Rattle.lp_table.specs.Shape.{IsTable};
ghost use Rattle.lp_table.specs.Numbers.{bits_of, shift_of};
ghost use Rattle.lp_price.specs.Ray.{own_factor, turned_cell, ray_factor_at, greater, with_digits, greatest_from, top_of_factors, clipped_ray_dual, ray_duals, where_proved, ray_answer};

use crate::found::{place_of, slack_of};
use crate::proving::{clipped, front, own_rows, proves};
use crate::shifting::shift_by;
use base_num::{List, Memory};
use lp_program::{Answer, Duals, Fx, Kind, LpRow, StageLp};
use lp_table::lists::with_room;
use lp_table::numbers::bits;
use lp_table::{Cell, Scales, WarmTable};
use std::alloc::Global;

/// A basic variable of a table that violates a bound, and that nothing brings back to it.
#[derive(Clone, Copy)]
struct Stuck<'a> {
    table: &'a WarmTable,
    /// The cells by which it depends on the nonbasic variables, one for each place.
    line: &'a [Cell],
    variable: usize,
    /// Whether it is above its upper bound, and else below its lower one.
    above: bool,
}

// The factor of the violated variable's own row.
fn own_factor(above: bool) -> i64
    ensures value { result ≡ own_factor above }
    ensures small { nat_abs result < 2 ^ 60 }
{
    if above { -(1 << 40) } else { 1 << 40 }
}

// A cell of the line, with the other sign where the variable is below its bound.
fn turned(above: bool, cell: Cell) -> i64
    ensures value { result ≡ turned_cell above cell }
    ensures small { nat_abs result < 2 ^ 60 }
{
    if above { cell.number() } else { -cell.number() }
}

// The scaled factor of a row.
#[tactic(auto, unfolding(crate::specs::Ray::ray_factor_at))]
fn factor_at(stuck: &Stuck, row: usize) -> i64
    requires sized { IsTable stuck.now.table.now }
    requires line { length stuck.now.line.now ≡ length stuck.now.table.now.costs }
    requires row { row < length stuck.now.table.now.rows }
    ensures value { result ≡ ray_factor_at stuck.now.table.now stuck.now.line.now stuck.now.variable stuck.now.above row }
    ensures small { nat_abs result < 2 ^ 60 }
{
    let slack = slack_of(stuck.table, row);
    if slack == stuck.variable {
        return own_factor(stuck.above);
    }
    match place_of(stuck.table, slack) {
        None => 0,
        Some(place) => turned(stuck.above, stuck.line[place]),
    }
}

// The greater of the greatest so far, if there is one, and a number.
fn greater(best: Option<i64>, x: i64) -> i64
    ensures { result ≡ greater best x }
{
    match best {
        None => x,
        Some(best) => { if best < x { x } else { best } }
    }
}

// The greatest so far of digits and exponent, and those of a factor other than 0.
fn with_digits(best: Option<i64>, factor: i64, exponent: i32) -> Option<i64>
    requires { IfSome best (λ b. nat_abs b ≤ 2 ^ 32) }
    ensures value { result ≡ with_digits best (bits_of factor) exponent }
    ensures small { IfSome result (λ b. nat_abs b ≤ 2 ^ 32) }
{
    let digits = bits(i128::from(factor));
    if digits == 0 {
        best
    } else {
        Some(greater(best, i64::from(digits) + i64::from(exponent)))
    }
}

// The greatest digits and exponent of all factors other than 0.
fn greatest(stuck: &Stuck, exponents: &[i32]) -> Option<i64>
    requires sized { IsTable stuck.now.table.now }
    requires line { length stuck.now.line.now ≡ length stuck.now.table.now.costs }
    requires rows { length exponents.now ≤ length stuck.now.table.now.rows }
    ensures value { result ≡ greatest_from stuck.now.table.now stuck.now.line.now stuck.now.variable stuck.now.above 0 None exponents.now }
    ensures small { IfSome result (λ b. nat_abs b ≤ 2 ^ 32) }
{
    let mut best = None;
    for i in 0..exponents.len() {
        best = with_digits(best, factor_at(stuck, i), exponents[i]);
    }
    best
}

// The most binary digits that a factor of one of the own rows has once it is no longer scaled, if one is not 0.
#[tactic(auto, unfolding(crate::specs::Ray::top_of_factors))]
fn top_of(stuck: &Stuck, own: usize) -> Option<i64>
    requires sized { IsTable stuck.now.table.now }
    requires line { length stuck.now.line.now ≡ length stuck.now.table.now.costs }
    ensures value { result ≡ top_of_factors stuck.now.table.now stuck.now.line.now stuck.now.variable stuck.now.above own }
    ensures small { IfSome result (λ top. nat_abs top ≤ 2 ^ 32) }
{
    greatest(stuck, front(stuck.table.scales.rows.as_slice(), own))
}

// Gives the power of two by which the factor of a row is multiplied.
fn ray_exponent(scales: &Scales, row: usize, top: i64) -> i64
    requires row { row < length scales.now.rows }
    requires small { nat_abs top ≤ 2 ^ 32 }
    ensures { result ≡ (entry scales.now.rows row +ℤ pos 60) -ℤ top }
{
    i64::from(scales.rows.as_slice()[row]) + 60 - top
}

// The factor of a row, no longer scaled, so that the greatest has 60 digits. It is always there.
fn unscaled(stuck: &Stuck, top: i64, own: usize, row: usize) -> Option<i128>
    requires sized { IsTable stuck.now.table.now }
    requires line { length stuck.now.line.now ≡ length stuck.now.table.now.costs }
    requires own { own ≤ length stuck.now.table.now.rows }
    requires row { row < own }
    requires top { Some top ≡ top_of_factors stuck.now.table.now stuck.now.line.now stuck.now.variable stuck.now.above own }
    requires small { nat_abs top ≤ 2 ^ 32 }
    ensures value { result ≡ shift_of (ray_factor_at stuck.now.table.now stuck.now.line.now stuck.now.variable stuck.now.above row) ((entry stuck.now.table.now.scales.rows row +ℤ pos 60) -ℤ top) }
    ensures there { IsSome result }
{
    let factor = i128::from(factor_at(stuck, row));
    shift_by(factor, ray_exponent(&stuck.table.scales, row, top))
}

// The dual of a row. It is always there.
#[tactic(auto, unfolding(crate::specs::Ray::clipped_ray_dual))]
fn ray_dual(stuck: &Stuck, top: i64, own: usize, number: usize, row: &LpRow) -> Option<Fx>
    requires sized { IsTable stuck.now.table.now }
    requires line { length stuck.now.line.now ≡ length stuck.now.table.now.costs }
    requires own { own ≤ length stuck.now.table.now.rows }
    requires row { number < own }
    requires top { Some top ≡ top_of_factors stuck.now.table.now stuck.now.line.now stuck.now.variable stuck.now.above own }
    requires small { nat_abs top ≤ 2 ^ 32 }
    ensures value { result ≡ clipped_ray_dual stuck.now.table.now stuck.now.line.now stuck.now.variable stuck.now.above top number row.now }
    ensures there { IsSome result }
{
    let dual = unscaled(stuck, top, own, number)?;
    Some(clipped(row, Fx(dual)))
}

// The duals of the own rows.
fn ray_duals(
    alloc: Global,
    stuck: &Stuck,
    top: i64,
    lp: &StageLp,
) -> Result<Option<List<Fx>>, Memory>
    requires sized { IsTable stuck.now.table.now }
    requires line { length stuck.now.line.now ≡ length stuck.now.table.now.costs }
    requires own { lp.now.own ≤ length stuck.now.table.now.rows }
    requires top { Some top ≡ top_of_factors stuck.now.table.now stuck.now.line.now stuck.now.variable stuck.now.above lp.now.own }
    requires small { nat_abs top ≤ 2 ^ 32 }
    ensures value { IfOk result (λ found. found ≡ ray_duals stuck.now.table.now stuck.now.line.now stuck.now.variable stuck.now.above lp.now top) }
    ensures there { IfOk result (λ found. IsSome found) }
{
    let own = lp.own();
    let rows = own_rows(lp);
    let mut found = with_room(alloc, rows.len())?;
    for i in 0..rows.len() {
        match ray_dual(stuck, top, own, i, &rows[i]) {
            Some(dual) => found.push(dual)?,
            None => return Ok(None),
        }
    }
    Ok(Some(found))
}

// The answer by duals of own rows, where they prove that no point keeps these.
fn where_proved(alloc: Global, lp: &StageLp, duals: List<Fx>) -> Result<Option<Answer>, Memory>
    ensures { IfOk result (λ answer. answer ≡ where_proved lp.now duals) }
{
    if !proves(alloc, lp, duals.as_slice())? {
        return Ok(None);
    }
    Ok(Some(Answer {
        kind: Kind::Ray,
        point: lp.lows(alloc)?,
        duals: Duals::padded(alloc, duals, lp.row_count()),
    }))
}

/// The answer to a program by a variable that violates its lower bound, or its upper one where `above` is true, and
/// that nothing brings back. The line has the cells by which the variable depends on the nonbasic ones, one for each
/// place. The duals of the own rows are the factors by which a sum of these rows shows that, clipped, as whole numbers;
/// the greatest factor has 60 binary digits, so each of them is there. The duals of all cuts are 0. None where all
/// factors are 0, or where they do not prove that no point keeps all own rows. [`Memory`] where memory was refused.
#[tactic(auto, unfolding(crate::specs::Ray::ray_answer))]
pub fn ray(
    alloc: Global,
    table: &WarmTable,
    line: &[Cell],
    variable: usize,
    above: bool,
    lp: &StageLp,
) -> Result<Option<Answer>, Memory>
    requires sized { IsTable table.now }
    requires line { length line.now ≡ length table.now.costs }
    requires own { lp.now.own ≤ length table.now.rows }
    ensures answer { IfOk result (λ answer. answer ≡ ray_answer table.now line.now variable above lp.now) }
    ensures duals { OnOk result (IfSome (top_of_factors table.now line.now variable above lp.now.own) (λ top. IsSome (ray_duals table.now line.now variable above lp.now top))) }
{
    let stuck = Stuck {
        table: &*table,
        line: &*line,
        variable,
        above,
    };
    let Some(top) = top_of(&stuck, lp.own()) else {
        return Ok(None);
    };
    match ray_duals(alloc, &stuck, top, lp)? {
        None => Ok(None),
        Some(duals) => where_proved(alloc, lp, duals),
    }
}
