// Numbers of a program by the scales of a table, and the columns of the first table.
ghost use Rattle.std.specs.Prelude.{◌≡◌, ◌<◌, ◌≤◌, ◌≤ℤ◌, ◌+◌, ◌+ℤ◌, ◌-ℤ◌, pos, negsuc, Some};
ghost use Rattle.lp_scale.specs.Spans.{AreBetween, span_of};
ghost use Rattle.lp_scale.specs.Exponents.{AreUpTo};
ghost use Rattle.lp_scale.specs.Scaling.{scaled_quantity, scaled_cell, room, cost_weight, costs_scale, box_weight, values_scale, column_of, scaled_column};

use crate::exponents::{exponent_at, reach};
use crate::spans::{Span, join};
use lp_program::{Column, Fx};
use lp_table::numbers::{bits, shift};
use lp_table::{Cell, Quantity};

/// A number times 2^exponent, as a point, a bound or a side. None where it leaves their range.
#[tactic(auto, unfolding(crate::specs::Scaling::scaled_quantity))]
pub fn scaled_value(number: Fx, exponent: i32) -> Option<Quantity>
    ensures { result ≡ scaled_quantity number exponent }
{
    Quantity::new(shift(number.0, exponent)?)
}

/// A number times 2^exponent, as a cell. None where it leaves the range of cells.
#[tactic(auto, unfolding(crate::specs::Scaling::scaled_cell))]
pub fn scaled_cell(number: Fx, exponent: i32) -> Option<Cell>
    ensures { result ≡ scaled_cell number exponent }
{
    Cell::new(shift(number.0, exponent)?)
}

/// Gives by how much the greatest is below a limit; 0 where there is none.
pub fn room(limit: i32, span: Option<Span>) -> i32
    requires least { pos 0 ≤ℤ limit }
    requires greatest { limit ≤ℤ pos 100 }
    requires span { AreBetween (negsuc 511) (pos 1128) span }
    ensures value { result ≡ room limit span }
    ensures least { negsuc 1299 ≤ℤ result }
    ensures greatest { result ≤ℤ pos 1300 }
{
    match span {
        None => 0,
        Some(span) => limit - span.greatest,
    }
}

/// The power of two by which a number whose row, or all costs, and whose column have exponents
/// becomes a cell.
pub fn power(row: i32, column: i32) -> i32
    requires row_least { negsuc 1299 ≤ℤ row }
    requires row_greatest { row ≤ℤ pos 1300 }
    requires column_least { pos 0 ≤ℤ column }
    requires column_greatest { column ≤ℤ pos 1000 }
    ensures { result ≡ row +ℤ column +ℤ pos 8 }
{
    row + column + 8
}

// The binary digits of a scaled cost that is not 0.
fn cost_weight(exponents: &[i32], j: usize, column: &Column) -> Option<i32>
    requires { AreUpTo 1000 exponents.now }
    ensures { result ≡ cost_weight exponents.now j column.now }
{
    if column.cost.0 == 0 {
        None
    } else {
        Some(bits(column.cost.0) as i32 + exponent_at(exponents, j))
    }
}

fn cost_span(exponents: &[i32], decisions: &[Column]) -> Option<Span>
    requires { AreUpTo 1000 exponents.now }
    ensures { result ≡ span_of (cost_weight exponents.now) decisions.now }
{
    let mut span = None;
    for j in 0..decisions.len() {
        span = join(span, cost_weight(exponents, j, &decisions[j]));
    }
    span
}

// The exponent of costs.
#[tactic(auto, unfolding(crate::specs::Scaling::costs_scale))]
pub(crate) fn costs_scale(exponents: &[i32], decisions: &[Column]) -> i32
    requires { AreUpTo 1000 exponents.now }
    ensures value { result ≡ costs_scale exponents.now decisions.now }
    ensures least { negsuc 1299 ≤ℤ result }
    ensures greatest { result ≤ℤ pos 1300 }
{
    room(32, cost_span(exponents, decisions))
}

// The binary digits of a scaled box.
fn box_weight(exponents: &[i32], j: usize, column: &Column) -> Option<i32>
    requires { AreUpTo 1000 exponents.now }
    ensures { result ≡ box_weight exponents.now j column.now }
{
    Some(reach(column) as i32 - exponent_at(exponents, j))
}

fn box_span(exponents: &[i32], decisions: &[Column]) -> Option<Span>
    requires { AreUpTo 1000 exponents.now }
    ensures { result ≡ span_of (box_weight exponents.now) decisions.now }
{
    let mut span = None;
    for j in 0..decisions.len() {
        span = join(span, box_weight(exponents, j, &decisions[j]));
    }
    span
}

// The exponent of values.
#[tactic(auto, unfolding(crate::specs::Scaling::values_scale))]
pub(crate) fn values_scale(exponents: &[i32], decisions: &[Column]) -> i32
    requires { AreUpTo 512 exponents.now }
    ensures value { result ≡ values_scale exponents.now decisions.now }
    ensures least { negsuc 1299 ≤ℤ result }
    ensures greatest { result ≤ℤ pos 0 }
{
    room(54, box_span(exponents, decisions)).min(0)
}

/// The bounds and the cost of a column, scaled.
#[derive(Clone, Copy)]
pub struct ScaledColumn {
    /// The lower bound.
    pub low: Quantity,
    /// The upper bound.
    pub up: Quantity,
    /// The cost.
    pub cost: Cell,
}

// A cost, scaled. None where it leaves the range of cells.
fn scaled_cost(cost: Fx, costs: i32, exponent: i32) -> Option<Cell>
    requires costs_least { negsuc 1299 ≤ℤ costs }
    requires costs_greatest { costs ≤ℤ pos 1300 }
    requires least { pos 0 ≤ℤ exponent }
    requires greatest { exponent ≤ℤ pos 1000 }
    ensures { result ≡ scaled_cell cost (costs +ℤ exponent +ℤ pos 8) }
{
    scaled_cell(cost, power(costs, exponent))
}

// Scales both bounds and the cost. None where one of them is absent.
fn column_of(
    low: Option<Quantity>,
    up: Option<Quantity>,
    cost: Option<Cell>,
) -> Option<ScaledColumn>
    ensures { result ≡ column_of low up cost }
{
    Some(ScaledColumn {
        low: low?,
        up: up?,
        cost: cost?,
    })
}

// A bound of a column, scaled. None where it leaves the range of bounds.
fn scaled_bound(bound: Fx, values: i32, exponent: i32) -> Option<Quantity>
    requires values_least { negsuc 1299 ≤ℤ values }
    requires values_greatest { values ≤ℤ pos 0 }
    requires least { pos 0 ≤ℤ exponent }
    requires greatest { exponent ≤ℤ pos 1000 }
    ensures { result ≡ scaled_quantity bound (values -ℤ exponent) }
{
    scaled_value(bound, values - exponent)
}

// The bounds and the cost of a column with an exponent. None where one leaves its range.
#[tactic(auto, unfolding(crate::specs::Scaling::scaled_column))]
pub(crate) fn scaled_column(
    column: &Column,
    exponent: i32,
    costs: i32,
    values: i32,
) -> Option<ScaledColumn>
    requires least { pos 0 ≤ℤ exponent }
    requires greatest { exponent ≤ℤ pos 1000 }
    requires costs_least { negsuc 1299 ≤ℤ costs }
    requires costs_greatest { costs ≤ℤ pos 1300 }
    requires values_least { negsuc 1299 ≤ℤ values }
    requires values_greatest { values ≤ℤ pos 0 }
    ensures { result ≡ scaled_column column.now exponent costs values }
{
    let low = scaled_bound(column.low, values, exponent);
    let up = scaled_bound(column.high, values, exponent);
    column_of(low, up, scaled_cost(column.cost, costs, exponent))
}
