// The multipliers of own rows by which a variable that nothing brings back to its bound shows that no point keeps these rows.
ghost use Rattle.std.specs.Prelude.{◌≡◌, ◌<◌, ◌≤◌, ◌^◌, ◌≤ℤ◌, ◌+ℤ◌, ◌-ℤ◌, pos, negsuc, nat_abs, length, None, IfOk, IfSome};
ghost use Rattle.std.specs.Option.{option_and_then};
ghost use Rattle.base_num.specs.Sums.{entry};
ghost use Rattle.base_num.specs.Each.{each_from};
ghost use Rattle.lp_program.specs.Proper.{IsProper};
ghost use Rattle.lp_scale.specs.Scaling.{AreSmall, AreRowScales};
ghost use Rattle.lp_table.specs.Numbers.{bits_of};
ghost use Rattle.lp_wide_table.specs.WideWhole.{held_wide};
ghost use Rattle.lp_wide_table.specs.Numbers.{wide_shift_of};
ghost use Rattle.lp_wide_table.specs.Shape.{WideFits, IsWideTable};
ghost use Rattle.lp_wide.specs.Ray.{wide_own_factor, wide_turned_cell, wide_ray_factor_at, wide_greater, wide_with_digits, wide_greatest_from, wide_top_of_factors, wide_clipped_ray_dual, wide_ray_duals, wide_where_proved, wide_ray_answer};

use crate::found::{place_of, slack_of};
use base_num::{List, Memory};
use lp_price::proving::{clipped, proves};
use lp_program::{Answer, Duals, Fx, Kind, LpRow, StageLp};
use lp_table::Scales;
use lp_table::lists::with_room;
use lp_table::numbers::bits;
use lp_wide_table::numbers::shift;
use lp_wide_table::{WideCell, WideTable};
use std::alloc::Global;

/// A basic variable of a table that violates a bound, and that nothing brings back to it.
#[derive(Clone, Copy)]
struct Stuck<'a> {
    table: &'a WideTable,
    /// The cells by which it depends on the nonbasic variables, one for each place.
    line: &'a [WideCell],
    variable: usize,
    /// Whether it is above its upper bound, and else below its lower one.
    above: bool,
}

// The factor of the violated variable's own row.
fn own_factor(above: bool) -> i128
    ensures value { result ≡ wide_own_factor above }
    ensures small { nat_abs result < 2 ^ 124 }
{
    if above { -(1 << 80) } else { 1 << 80 }
}

// A cell of the line, with the other sign where the variable is below its bound.
fn turned(above: bool, cell: WideCell) -> i128
    ensures value { result ≡ wide_turned_cell above cell }
    ensures small { nat_abs result < 2 ^ 124 }
{
    if above { cell.number() } else { -cell.number() }
}

// The scaled factor of a row.
#[tactic(auto, unfolding(crate::specs::Ray::wide_ray_factor_at))]
fn factor_at(stuck: &Stuck, row: usize) -> i128
    requires sized { IsWideTable stuck.now.table.now }
    requires line { length stuck.now.line.now ≡ length stuck.now.table.now.costs }
    requires row { row < length stuck.now.table.now.rows }
    ensures value { result ≡ wide_ray_factor_at stuck.now.table.now stuck.now.line.now stuck.now.variable stuck.now.above row }
    ensures small { nat_abs result < 2 ^ 124 }
{
    let slack = slack_of(stuck.table, row);
    if slack == stuck.variable {
        return own_factor(stuck.above);
    }
    match place_of(stuck.table, slack) {
        None => 0,
        Some(place) => turned(stuck.above, stuck.line[place]),
    }
}

// The greater of the greatest so far, if there is one, and a number.
fn greater(best: Option<i32>, x: i32) -> i32
    requires best { IfSome best (λ b. nat_abs b ≤ 2000) }
    requires small { nat_abs x ≤ 2000 }
    ensures value { result ≡ wide_greater best x }
    ensures small { nat_abs result ≤ 2000 }
{
    match best {
        None => x,
        Some(best) => { if best < x { x } else { best } }
    }
}

// The digits of a number and an exponent, together.
fn together(number: i128, exponent: i32) -> i32
    requires least { negsuc 1299 ≤ℤ exponent }
    requires greatest { exponent ≤ℤ pos 1300 }
    ensures value { result ≡ pos (bits_of number) +ℤ exponent }
    ensures small { nat_abs result ≤ 2000 }
{
    bits(number) as i32 + exponent
}

// The greatest so far of digits and exponent, and those of a factor other than 0.
fn with_digits(best: Option<i32>, factor: i128, exponent: i32) -> Option<i32>
    requires least { negsuc 1299 ≤ℤ exponent }
    requires greatest { exponent ≤ℤ pos 1300 }
    requires small { IfSome best (λ b. nat_abs b ≤ 2000) }
    ensures value { result ≡ wide_with_digits best (bits_of factor) exponent }
    ensures small { IfSome result (λ b. nat_abs b ≤ 2000) }
{
    if bits(factor) == 0 {
        best
    } else {
        Some(greater(best, together(factor, exponent)))
    }
}

// The greatest digits and exponent of all factors other than 0 of the first rows, which have these exponents.
fn greatest(stuck: &Stuck, exponents: &[i32]) -> Option<i32>
    requires sized { IsWideTable stuck.now.table.now }
    requires line { length stuck.now.line.now ≡ length stuck.now.table.now.costs }
    requires rows { length exponents.now ≤ length stuck.now.table.now.rows }
    requires small { AreRowScales exponents.now }
    ensures value { result ≡ wide_greatest_from stuck.now.table.now stuck.now.line.now stuck.now.variable stuck.now.above 0 None exponents.now }
    ensures small { IfSome result (λ b. nat_abs b ≤ 2000) }
{
    let mut best = None;
    for i in 0..exponents.len() {
        best = with_digits(best, factor_at(stuck, i), exponents[i]);
    }
    best
}

// The most binary digits that a factor of the first `own` rows has once it is no longer scaled.
#[tactic(auto, unfolding(crate::specs::Ray::wide_top_of_factors))]
fn top_of(stuck: &Stuck, own: usize) -> Option<i32>
    requires sized { IsWideTable stuck.now.table.now }
    requires line { length stuck.now.line.now ≡ length stuck.now.table.now.costs }
    requires own { own ≤ length stuck.now.table.now.rows }
    ensures value { result ≡ wide_top_of_factors stuck.now.table.now stuck.now.line.now stuck.now.variable stuck.now.above own }
    ensures small { IfSome result (λ b. nat_abs b ≤ 2000) }
{
    let (exponents, _) = stuck.table.scales.rows.as_slice().split_at(own);
    greatest(stuck, exponents)
}

// Gives the power of two by which the factor of a row is multiplied.
fn ray_exponent(scales: &Scales, row: usize, top: i32) -> i32
    requires scales { AreSmall 1000 scales.now }
    requires row { row < length scales.now.rows }
    requires small { nat_abs top ≤ 2000 }
    ensures { result ≡ entry scales.now.rows row +ℤ pos 60 -ℤ top }
{
    scales.rows.as_slice()[row] + 60 - top
}

// A number times 2^exponent, where 128 bits hold it.
fn narrow_shift(number: i128, exponent: i32) -> Option<i128>
    ensures { result ≡ option_and_then (held_wide 127) (wide_shift_of number exponent) }
{
    shift(number, exponent)?.narrowed()
}

// The multiplier of a row.
#[tactic(auto, unfolding(crate::specs::Ray::wide_clipped_ray_dual))]
fn ray_dual(stuck: &Stuck, top: i32, number: usize, row: &LpRow) -> Option<Fx>
    requires sized { IsWideTable stuck.now.table.now }
    requires line { length stuck.now.line.now ≡ length stuck.now.table.now.costs }
    requires row { number < length stuck.now.table.now.rows }
    requires small { nat_abs top ≤ 2000 }
    ensures { result ≡ wide_clipped_ray_dual stuck.now.table.now stuck.now.line.now stuck.now.variable stuck.now.above top number row.now }
{
    let factor = factor_at(stuck, number);
    let exponent = ray_exponent(&stuck.table.scales, number, top);
    Some(clipped(row, Fx(narrow_shift(factor, exponent)?)))
}

// The multipliers of some rows, which are the first ones. None where 128 bits do not hold one.
fn row_duals(
    alloc: Global,
    stuck: &Stuck,
    top: i32,
    rows: &[LpRow],
) -> Result<Option<List<Fx>>, Memory>
    requires sized { IsWideTable stuck.now.table.now }
    requires line { length stuck.now.line.now ≡ length stuck.now.table.now.costs }
    requires rows { length rows.now ≤ length stuck.now.table.now.rows }
    requires small { nat_abs top ≤ 2000 }
    ensures { IfOk result (λ found. found ≡ each_from (wide_clipped_ray_dual stuck.now.table.now stuck.now.line.now stuck.now.variable stuck.now.above top) 0 rows.now) }
{
    let mut found = with_room(alloc, rows.len())?;
    for i in 0..rows.len() {
        match ray_dual(stuck, top, i, &rows[i]) {
            Some(dual) => found.push(dual)?,
            None => return Ok(None),
        }
    }
    Ok(Some(found))
}

// The multipliers of all own rows.
#[tactic(auto, unfolding(crate::specs::Ray::wide_ray_duals))]
fn ray_duals(
    alloc: Global,
    stuck: &Stuck,
    lp: &StageLp,
    top: i32,
) -> Result<Option<List<Fx>>, Memory>
    requires fits { WideFits stuck.now.table.now lp.now }
    requires proper { IsProper lp.now }
    requires line { length stuck.now.line.now ≡ length stuck.now.table.now.costs }
    requires small { nat_abs top ≤ 2000 }
    ensures { IfOk result (λ found. found ≡ wide_ray_duals stuck.now.table.now stuck.now.line.now stuck.now.variable stuck.now.above lp.now top) }
{
    let own = lp.own_rows();
    row_duals(alloc, stuck, top, own)
}

// The answer by multipliers, where they prove that no point keeps all own rows.
fn where_proved(alloc: Global, lp: &StageLp, duals: List<Fx>) -> Result<Option<Answer>, Memory>
    ensures { IfOk result (λ answer. answer ≡ wide_where_proved lp.now duals) }
{
    if !proves(alloc, lp, duals.as_slice())? {
        return Ok(None);
    }
    Ok(Some(Answer {
        kind: Kind::Ray,
        point: lp.lows(alloc)?,
        duals: Duals::new(alloc, duals),
    }))
}

/// The answer to a program by a variable that violates its lower bound, or its upper one where `above` is true, and
/// that nothing brings back. The line has the cells by which the variable depends on the nonbasic ones, one for each
/// place. The duals of the own rows are whole multipliers of these, the factors by which a sum of the rows shows that,
/// clipped; the greatest factor has 60 binary digits. None where they do not prove that no point keeps all own rows.
/// [`Memory`] where memory was refused.
#[tactic(auto, unfolding(crate::specs::Ray::wide_ray_answer))]
pub fn ray(
    alloc: Global,
    table: &WideTable,
    line: &[WideCell],
    variable: usize,
    above: bool,
    lp: &StageLp,
) -> Result<Option<Answer>, Memory>
    requires fits { WideFits table.now lp.now }
    requires proper { IsProper lp.now }
    requires line { length line.now ≡ length table.now.costs }
    ensures { IfOk result (λ answer. answer ≡ wide_ray_answer table.now line.now variable above lp.now) }
{
    let stuck = Stuck {
        table: &*table,
        line: &*line,
        variable,
        above,
    };
    let Some(top) = top_of(&stuck, lp.own()) else {
        return Ok(None);
    };
    match ray_duals(alloc, &stuck, lp, top)? {
        None => Ok(None),
        Some(duals) => where_proved(alloc, lp, duals),
    }
}
