// A bound of the size of a list of certificates, by the greatest value, row and cut of all realizations.
ghost use Rattle.std.specs.Prelude.{◌≡◌, ◌+◌, ◌*◌, ◌≤◌, ◌<◌, ℕ, length, max, nat_abs, zip, All, IfSome};
ghost use Rattle.std.specs.List.{sum_by};
ghost use Rattle.theory.specs.Problem.{S};
ghost use Rattle.theory.specs.CutOf.{side_of};
ghost use Rattle.cut_make.specs.Sized.{Sized};
ghost use Rattle.cut_make.specs.SizeByTerms.{over_decisions, total_successor_weight, weighted_amount};
ghost use Rattle.cut_check.specs.Bounds.{AreWithin, row_bound, costs_bound, cut_bound, weighted_pairs, weighted_rows, weighted_costs};

use super::fixed::{Boxes, costs_size, row_size};
use super::stages::scale;
use super::tally::{Tally, multipliers_sum, pairs_tally};
use super::terms::{DecisionBoxes, Multiples, StateBox, plus_numbers, plus_terms};
use crate::magnitudes::absolute;
use base_num::{List, Size};
use cut_make::node_at::NodeAt;
use cut_make::scales::divisor;
use problem::{Decision, Row, Subproblem};
use theory::Certificate;

/// One bound for all variables.
#[derive(Clone, Copy)]
struct Uniform {
    bound: u128,
}

impl Multiples for Uniform {
    ghost at = { λ u t. u.bound };

    fn at(&self, _variable: usize) -> u128 {
        self.bound
    }
}

/// The greatest of a number and the absolute values of values.
fn greatest_value(least: u64, values: &[i64]) -> u64
    ensures least { least ≤ result }
    ensures values { AreWithin result values.now }
{
    let mut greatest = least;
    for t in 0..values.len() {
        greatest = greatest.max(values[t].unsigned_abs());
    }
    greatest
}

/// The greatest absolute value of all realizations.
fn greatest_of(values: &[List<i64>]) -> u64
    ensures { All (AreWithin result) values.now }
{
    let mut greatest = 0;
    for r in 0..values.len() {
        greatest = greatest_value(greatest, values[r].as_slice());
    }
    greatest
}

/// The greater of a row's sides.
fn greatest_side(row: &Row) -> u128
    ensures { result ≡ max (nat_abs (side_of row.now.low)) (nat_abs (side_of row.now.high)) }
{
    absolute(row.low.unwrap_or(0)).max(absolute(row.high.unwrap_or(0)))
}

/// Bounds a row.
fn row_most(row: &Row, boxes: &Boxes, values: &Uniform) -> Option<Size>
    ensures { IfSome result (λ size. size.total ≡ row_bound values.now.bound boxes.now.decisions.decisions.now boxes.now.states.low.now boxes.now.states.high.now row.now) }
{
    let fixed = row_size(row, boxes)?;
    let sided = fixed.plus_product(1, greatest_side(row))?;
    plus_terms(sided, row.randoms.as_slice(), values)
}

/// Bounds all rows.
fn rows_most(rows: &[Row], boxes: &Boxes, values: &Uniform) -> Option<u128>
    ensures { IfSome result (λ most. All (λ row. row_bound values.now.bound boxes.now.decisions.decisions.now boxes.now.states.low.now boxes.now.states.high.now row ≤ most) rows.now) }
{
    let mut most = 0;
    for i in 0..rows.len() {
        most = row_most(&rows[i], boxes, values)?.total().max(most);
    }
    Some(most)
}

/// Bounds the rows by the weights of their realizations.
fn rows_bound(here: &NodeAt, values: &Uniform, list: &[Certificate]) -> Option<Size>
    requires list { length list.now ≡ length here.now.weights.now }
    requires values { All (AreWithin values.now.bound) here.now.node.now.values }
    ensures { IfSome result (λ size. weighted_rows here.now.subproblem.now here.now.low.now here.now.high.now here.now.weights.now here.now.node.now.values list.now ≤ size.total) }
{
    let boxes = Boxes {
        decisions: DecisionBoxes {
            decisions: here.subproblem.decisions.as_slice(),
        },
        states: StateBox {
            low: here.low,
            high: here.high,
        },
    };
    let most = rows_most(here.subproblem.rows.as_slice(), &boxes, values)?;
    let multipliers = multipliers_sum(here.weights, list)?;
    Size::zero().plus_product(multipliers, most)
}

/// Bounds the costs of a stage.
fn costs_most(sub: &Subproblem, states: &StateBox, values: &Uniform) -> Option<Size>
    ensures { IfSome result (λ size. size.total ≡ costs_bound values.now.bound sub.now states.now.low.now states.now.high.now) }
{
    plus_numbers(
        costs_size(sub, states)?,
        sub.random_costs.as_slice(),
        values,
    )
}

/// Bounds the costs by the weights of their realizations, times S and the stop weight and the successor weights.
fn costs_bound(here: &NodeAt, values: &Uniform) -> Option<Size>
    requires sized { Sized here.now.pools.now.lists here.now.node.now here.now.subproblem.now here.now.low.now here.now.weights.now }
    requires values { All (AreWithin values.now.bound) here.now.node.now.values }
    ensures { IfSome result (λ size. S * total_successor_weight here.now.node.now * weighted_costs here.now.subproblem.now here.now.low.now here.now.high.now here.now.weights.now here.now.node.now.values ≤ size.total) }
{
    let states = StateBox {
        low: here.low,
        high: here.high,
    };
    let most = costs_most(here.subproblem, &states, values)?;
    let factor = divisor(here.node, here.weights).unsigned_abs();
    Size::zero().plus_product(factor, most.total())
}

/// The ends of the boxes of the decisions that leave the stage.
fn spans_sum(outs: &[u32], decisions: &[Decision]) -> Option<Size>
    ensures { IfSome result (λ size. size.total ≡ sum_by (over_decisions decisions.now) outs.now) }
{
    let boxes = DecisionBoxes { decisions };
    let mut sum = Size::zero();
    for out in outs {
        sum = sum.plus_product(1, boxes.at(*out as usize))?;
    }
    Some(sum)
}

/// Bounds a cut at the ends of the boxes of the decisions that leave the stage.
fn cut_most(tally: &Tally, sub: &Subproblem) -> Option<Size>
    ensures { IfSome result (λ size. size.total ≡ cut_bound sub.now.decisions sub.now.outs tally.now) }
{
    let spans = spans_sum(sub.outs.as_slice(), sub.decisions.as_slice())?;
    Size::zero()
        .plus_product(1, tally.alpha)?
        .plus_product(tally.slope, spans.total())
}

/// Bounds the pairs by the weights of their realizations.
fn pairs_bound(here: &NodeAt, list: &[Certificate]) -> Option<Size>
    requires known { All (λ m. m < length here.now.pools.now.lists) here.now.node.now.successors }
    requires list { length list.now ≡ length here.now.weights.now }
    ensures { IfSome result (λ size. weighted_pairs here.now.node.now here.now.subproblem.now here.now.pools.now.lists here.now.weights.now list.now ≤ size.total) }
{
    let tally = pairs_tally(here, list)?;
    let most = cut_most(&tally, here.subproblem)?;
    Size::zero().plus_product(tally.multipliers, most.total())
}

/// Bounds the rows and the costs by the weights of their realizations.
fn stages_bound(here: &NodeAt, list: &[Certificate]) -> Option<Size>
    requires sized { Sized here.now.pools.now.lists here.now.node.now here.now.subproblem.now here.now.low.now here.now.weights.now }
    requires list { length list.now ≡ length here.now.weights.now }
    ensures { IfSome result (λ size. weighted_rows here.now.subproblem.now here.now.low.now here.now.high.now here.now.weights.now here.now.node.now.values list.now
        + S * total_successor_weight here.now.node.now * weighted_costs here.now.subproblem.now here.now.low.now here.now.high.now here.now.weights.now here.now.node.now.values ≤ size.total) }
{
    let greatest = greatest_of(here.node.values.as_slice());
    let values = Uniform {
        bound: u128::from(greatest),
    };
    let rows = rows_bound(here, &values, list)?;
    let costs = costs_bound(here, &values)?;
    rows.plus_product(1, costs.total())
}

/// Bounds the size of a list of certificates. None where the bound passes 2^127 - 1, which its size may not.
pub(super) fn size_bound(here: &NodeAt, list: &[Certificate]) -> Option<Size>
    requires sized { Sized here.now.pools.now.lists here.now.node.now here.now.subproblem.now here.now.low.now here.now.weights.now }
    requires list { length list.now ≡ length here.now.weights.now }
    ensures { IfSome result (λ size. sum_by (weighted_amount here.now.node.now here.now.subproblem.now here.now.low.now here.now.high.now here.now.pools.now.lists) (zip here.now.weights.now (zip here.now.node.now.values list.now)) ≤ size.total) }
{
    let pairs = pairs_bound(here, list)?;
    let stages = stages_bound(here, list)?;
    pairs.plus_product(scale(), stages.total())
}
