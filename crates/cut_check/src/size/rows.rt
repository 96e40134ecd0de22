// The size of the rows of a certificate.
ghost use Rattle.std.specs.Prelude.{◌≡◌, ◌≤◌, ◌*◌, ◌^◌, ℕ, ℤ, List, length, min, nat_abs};
ghost use Rattle.problem.specs.declared.parts.Decision.{Decision};
ghost use Rattle.cut_make.specs.SizeByTerms.{AddsSize, row_size_over, rows_amount, FixedRows};

use super::fixed::plus_capped;
use super::terms::{Values, plus_scaled, plus_terms};
use crate::magnitudes::absolute;
use base_num::Size;
use cut_make::row_side;
use problem::Row;

/// Sizes a row's side and its terms of the random variables, beside the part that is the same at all realizations.
fn row_size(row: &Row, multiplier: i64, fixed: u128, values: &Values) -> Option<Size>
    ensures { (amount : ℕ) → fixed ≡ min amount (2 ^ 127) → AddsSize 0 result (row_size_over values.now.values.now (row.now, multiplier) amount) }
{
    let side = Size::zero().plus_product(1, absolute(row_side(row, multiplier)))?;
    let sided = plus_capped(side, fixed)?;
    plus_terms(sided, row.randoms.as_slice(), values)
}

/// A row times its multiplier.
fn plus_row(size: Size, row: &Row, multiplier: i64, fixed: u128, values: &Values) -> Option<Size>
    ensures { (amount : ℕ) → fixed ≡ min amount (2 ^ 127) → AddsSize size.total result (nat_abs multiplier * row_size_over values.now.values.now (row.now, multiplier) amount) }
{
    if multiplier == 0 {
        return Some(size);
    }
    let inner = row_size(row, multiplier, fixed, values);
    plus_scaled(size, absolute(multiplier), inner)
}

/// Sizes the rows times their multipliers, beside the part that is the same at all realizations.
pub(super) fn rows_size(
    rows: &[Row],
    multipliers: &[i64],
    fixed: &[u128],
    values: &Values,
) -> Option<Size>
    requires room { length rows.now ≤ length fixed.now }
    ensures { (ds : List Decision) (low high : List ℤ) → FixedRows ds low high rows.now fixed.now → AddsSize 0 result (rows_amount ds low high values.now.values.now rows.now multipliers.now) }
{
    let mut sum = Size::zero();
    for i in 0..rows.len().min(multipliers.len()) {
        sum = plus_row(sum, &rows[i], multipliers[i], fixed[i], values)?;
    }
    Some(sum)
}
