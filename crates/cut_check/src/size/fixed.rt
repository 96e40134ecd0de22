// The part of a certificate's size that is the same at all realizations of its node: rows and costs at the ends of the boxes.
ghost use Rattle.std.specs.Prelude.{◌≡◌, ◌^◌, ◌≤◌, ℕ, length, min};
ghost use Rattle.std.specs.List.{sum_by};
ghost use Rattle.cut_make.specs.SizeByTerms.{AddsSize, decision_amount, fixed_row, FixedRows, fixed_costs, Fixed};

use super::terms::{DecisionBoxes, StateBox, plus_numbers, plus_terms};
use crate::magnitudes::{absolute, reach};
use base_num::Size;
use cut_make::node_at::NodeAt;
use problem::{Decision, Row, Subproblem};

/// The number of rows up to which a shorter list of their amounts is enough, which takes less time to clear.
pub(crate) const FEW_ROWS: usize = 32;

/// The amounts that are the same at all realizations of a node, each 2^127 where it is more.
#[derive(Clone, Copy)]
pub(crate) struct FixedAmounts<'a> {
    /// Each row's terms of the decisions and of the incoming state.
    pub(super) rows: &'a [u128],
    /// The stage costs without the random costs.
    pub(super) costs: u128,
}

/// An amount, 2^127 where it is more.
fn capped(size: Option<Size>) -> u128
    ensures { (amount : ℕ) → AddsSize 0 size amount → result ≡ min amount (2 ^ 127) }
{
    match size {
        Some(size) => size.total(),
        None => 1 << 127,
    }
}

/// Adds an amount to a size; `fixed` is 2^127 where the amount is more.
pub(super) fn plus_capped(size: Size, fixed: u128) -> Option<Size>
    ensures { (amount : ℕ) → fixed ≡ min amount (2 ^ 127) → AddsSize size.total result amount }
{
    size.plus_product(1, fixed)
}

/// The boxes that a row's terms of the decisions and of the incoming state are over.
#[derive(Clone, Copy)]
pub(super) struct Boxes<'a> {
    pub(super) decisions: DecisionBoxes<'a>,
    pub(super) states: StateBox<'a>,
}

/// A row's terms of the decisions and of the incoming state.
pub(super) fn row_size(row: &Row, boxes: &Boxes) -> Option<Size>
    ensures { AddsSize 0 result (fixed_row boxes.now.decisions.decisions.now boxes.now.states.low.now boxes.now.states.high.now row.now) }
{
    let decided = plus_terms(Size::zero(), row.decisions.as_slice(), &boxes.decisions)?;
    plus_terms(decided, row.states.as_slice(), &boxes.states)
}

/// Writes the amounts of rows.
fn write_sizes(rows: &[Row], boxes: &Boxes, amounts: &mut [u128])
    requires room { length rows.now ≤ length amounts.old }
    ensures count { length amounts.new ≡ length amounts.old }
    ensures rows { FixedRows boxes.now.decisions.decisions.now boxes.now.states.low.now boxes.now.states.high.now rows.now amounts.new }
{
    for i in 0..rows.len() {
        amounts[i] = capped(row_size(&rows[i], boxes));
    }
}

/// Writes the amounts of a node's rows.
pub(crate) fn write_rows(here: &NodeAt, amounts: &mut [u128])
    requires room { length here.now.subproblem.now.rows ≤ length amounts.old }
    ensures count { length amounts.new ≡ length amounts.old }
    ensures rows { FixedRows here.now.subproblem.now.decisions here.now.low.now here.now.high.now here.now.subproblem.now.rows amounts.new }
{
    let boxes = Boxes {
        decisions: DecisionBoxes {
            decisions: here.subproblem.decisions.as_slice(),
        },
        states: StateBox {
            low: here.low,
            high: here.high,
        },
    };
    write_sizes(here.subproblem.rows.as_slice(), &boxes, amounts);
}

/// The decisions' costs at the ends of their boxes.
fn plus_decisions(size: Size, decisions: &[Decision]) -> Option<Size>
    ensures { AddsSize size.total result (sum_by decision_amount decisions.now) }
{
    let mut sum = size;
    for decision in decisions {
        sum = sum.plus_product(reach(decision.low, decision.high), absolute(decision.cost))?;
    }
    Some(sum)
}

/// Sizes the stage costs without the random costs.
pub(super) fn costs_size(sub: &Subproblem, states: &StateBox) -> Option<Size>
    ensures { AddsSize 0 result (fixed_costs sub.now states.now.low.now states.now.high.now) }
{
    let constant = Size::zero().plus_product(1, absolute(sub.constant))?;
    let decided = plus_decisions(constant, sub.decisions.as_slice())?;
    plus_numbers(decided, sub.state_costs.as_slice(), states)
}

impl<'a> FixedAmounts<'a> {
    /// The amounts of a node over those of its rows.
    pub(crate) fn of(here: &NodeAt, rows: &'a [u128]) -> FixedAmounts<'a>
        requires room { length here.now.subproblem.now.rows ≤ length rows.now }
        requires rows { FixedRows here.now.subproblem.now.decisions here.now.low.now here.now.high.now here.now.subproblem.now.rows rows.now }
        ensures { Fixed here.now.subproblem.now here.now.low.now here.now.high.now result.rows.now result.costs }
    {
        let states = StateBox {
            low: here.low,
            high: here.high,
        };
        let costs = capped(costs_size(here.subproblem, &states));
        FixedAmounts { rows, costs }
    }
}
