// Numbers of a program by the scales of a table.
ghost use Rattle.std.specs.Prelude.{◌≡◌, ◌≤ℤ◌, ◌+ℤ◌, ◌-ℤ◌, pos, negsuc};
ghost use Rattle.lp_wide_table.specs.Scaling.{wide_scaled_quantity, wide_scaled_cell, wide_column_of, wide_scaled_column};

use crate::numbers::shift;
use crate::ranged_numbers::{WideCell, WideQuantity};
use lp_program::{Column, Fx};

/// A number times 2^exponent, as a point, a bound or a side. None where it leaves their range.
#[tactic(auto, unfolding(crate::specs::Scaling::wide_scaled_quantity))]
pub fn scaled_value(number: Fx, exponent: i32) -> Option<WideQuantity>
    ensures { result ≡ wide_scaled_quantity number exponent }
{
    WideQuantity::new(shift(number.0, exponent)?)
}

/// A number times 2^exponent, as a cell. None where it leaves the range of cells.
#[tactic(auto, unfolding(crate::specs::Scaling::wide_scaled_cell))]
pub fn scaled_cell(number: Fx, exponent: i32) -> Option<WideCell>
    ensures { result ≡ wide_scaled_cell number exponent }
{
    WideCell::new(shift(number.0, exponent)?)
}

/// The power of two by which a number whose row, or all costs, and whose column have exponents
/// becomes a cell.
pub fn power(row: i32, column: i32) -> i32
    requires row_least { negsuc 1299 ≤ℤ row }
    requires row_greatest { row ≤ℤ pos 1300 }
    requires column_least { pos 0 ≤ℤ column }
    requires column_greatest { column ≤ℤ pos 1000 }
    ensures { result ≡ row +ℤ column +ℤ pos 48 }
{
    row + column + 48
}

/// The bounds and the cost of a column, scaled.
#[derive(Clone, Copy)]
pub struct WideScaledColumn {
    /// The lower bound.
    pub low: WideQuantity,
    /// The upper bound.
    pub up: WideQuantity,
    /// The cost.
    pub cost: WideCell,
}

// A cost, scaled. None where it leaves the range of cells.
fn scaled_cost(cost: Fx, costs: i32, exponent: i32) -> Option<WideCell>
    requires costs_least { negsuc 1299 ≤ℤ costs }
    requires costs_greatest { costs ≤ℤ pos 1300 }
    requires least { pos 0 ≤ℤ exponent }
    requires greatest { exponent ≤ℤ pos 1000 }
    ensures { result ≡ wide_scaled_cell cost (costs +ℤ exponent +ℤ pos 48) }
{
    scaled_cell(cost, power(costs, exponent))
}

// Scales both bounds and the cost. None where one of them is absent.
fn column_of(
    low: Option<WideQuantity>,
    up: Option<WideQuantity>,
    cost: Option<WideCell>,
) -> Option<WideScaledColumn>
    ensures { result ≡ wide_column_of low up cost }
{
    Some(WideScaledColumn {
        low: low?,
        up: up?,
        cost: cost?,
    })
}

// A bound of a column, scaled. None where it leaves the range of bounds.
fn scaled_bound(bound: Fx, values: i32, exponent: i32) -> Option<WideQuantity>
    requires values_least { negsuc 1299 ≤ℤ values }
    requires values_greatest { values ≤ℤ pos 0 }
    requires least { pos 0 ≤ℤ exponent }
    requires greatest { exponent ≤ℤ pos 1000 }
    ensures { result ≡ wide_scaled_quantity bound (values -ℤ exponent +ℤ pos 32) }
{
    scaled_value(bound, values - exponent + 32)
}

// The bounds and the cost of a column with an exponent. None where one leaves its range.
#[tactic(auto, unfolding(crate::specs::Scaling::wide_scaled_column))]
pub(crate) fn scaled_column(
    column: &Column,
    exponent: i32,
    costs: i32,
    values: i32,
) -> Option<WideScaledColumn>
    requires least { pos 0 ≤ℤ exponent }
    requires greatest { exponent ≤ℤ pos 1000 }
    requires costs_least { negsuc 1299 ≤ℤ costs }
    requires costs_greatest { costs ≤ℤ pos 1300 }
    requires values_least { negsuc 1299 ≤ℤ values }
    requires values_greatest { values ≤ℤ pos 0 }
    ensures { result ≡ wide_scaled_column column.now exponent costs values }
{
    let low = scaled_bound(column.low, values, exponent);
    let up = scaled_bound(column.high, values, exponent);
    column_of(low, up, scaled_cost(column.cost, costs, exponent))
}
