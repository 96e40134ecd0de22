// The size of a certificate: its rows, the costs of its stage and its cuts.
ghost use Rattle.std.specs.Prelude.{◌≡◌, ◌+◌, ◌*◌, ◌^◌, ◌≤◌, ◌<◌, ℕ, length, min, sum, All};
ghost use Rattle.theory.specs.Problem.{S};
ghost use Rattle.cut_make.specs.SizeByTerms.{AddsSize, over_values, numbers_by, Fixed, total_successor_weight, successors_amount, stage_amount, certificate_amount};

use super::cuts::successors_size;
use super::fixed::{FixedAmounts, plus_capped};
use super::rows::rows_size;
use super::terms::{Values, plus_numbers, plus_scaled};
use base_num::Size;
use cut_make::node_at::NodeAt;
use cut_make::scales::successor_weight;
use problem::Node;
use theory::{Certificate, SCALE};

/// Sizes the stage costs: the random costs, and the part that is the same at all realizations.
fn costs_size(random_costs: &[i64], fixed: u128, values: &Values) -> Option<Size>
    ensures { (amount : ℕ) → fixed ≡ min amount (2 ^ 127) → AddsSize 0 result (amount + numbers_by (over_values values.now.values.now) random_costs.now) }
{
    plus_numbers(plus_capped(Size::zero(), fixed)?, random_costs, values)
}

/// S times the stop weight and the successor weights.
#[tactic(auto, unfolding(theory::specs::Problem::S))]
fn unit(node: &Node) -> u128
    requires successors { length node.now.successor_weights ≡ length node.now.successors }
    requires few { length node.now.successors ≤ 2 ^ 16 }
    requires stop { sum node.now.successor_weights + node.now.stop ≤ 65535 }
    requires scale { 0 < total_successor_weight node.now }
    ensures value { result ≡ S * total_successor_weight node.now }
    ensures positive { 1 ≤ result }
{
    u128::from(SCALE) * u128::from(successor_weight(node))
}

/// S.
#[tactic(auto, unfolding(theory::specs::Problem::S))]
pub(super) fn scale() -> u128
    ensures value { result ≡ S }
    ensures positive { 1 ≤ result }
{
    u128::from(SCALE)
}

/// The rows and costs of a realization, without its weight and one scale.
fn stage_size(
    here: &NodeAt,
    fixed: &FixedAmounts,
    values: &[i64],
    multipliers: &[i64],
) -> Option<Size>
    requires successors { length here.now.node.now.successor_weights ≡ length here.now.node.now.successors }
    requires few { length here.now.node.now.successors ≤ 2 ^ 16 }
    requires stop { sum here.now.node.now.successor_weights + here.now.node.now.stop ≤ 65535 }
    requires scale { 0 < total_successor_weight here.now.node.now }
    requires fixed { Fixed here.now.subproblem.now here.now.low.now here.now.high.now fixed.now.rows.now fixed.now.costs }
    ensures { AddsSize 0 result (stage_amount here.now.node.now here.now.subproblem.now here.now.low.now here.now.high.now values.now multipliers.now) }
{
    let values = Values { values };
    let sub = here.subproblem;
    let rows = rows_size(sub.rows.as_slice(), multipliers, fixed.rows, &values)?;
    let costs = costs_size(sub.random_costs.as_slice(), fixed.costs, &values);
    plus_scaled(rows, unit(here.node), costs)
}

/// The pairs of a certificate.
pub(super) fn pairs_size(here: &NodeAt, certificate: &Certificate) -> Option<Size>
    requires known { All (λ m. m < length here.now.pools.now.lists) here.now.node.now.successors }
    ensures { AddsSize 0 result (successors_amount here.now.subproblem.now.decisions here.now.subproblem.now.outs here.now.pools.now.lists here.now.node.now.successors certificate.now.cuts) }
{
    successors_size(
        here.node.successors.as_slice(),
        certificate.cuts.as_slice(),
        here.pools,
        here.subproblem.outs.as_slice(),
        here.subproblem.decisions.as_slice(),
    )
}

/// Sizes a realization over its pairs, without its weight.
pub(super) fn realization_over(
    pairs: Option<Size>,
    here: &NodeAt,
    fixed: &FixedAmounts,
    values: &[i64],
    certificate: &Certificate,
) -> Option<Size>
    requires successors { length here.now.node.now.successor_weights ≡ length here.now.node.now.successors }
    requires few { length here.now.node.now.successors ≤ 2 ^ 16 }
    requires stop { sum here.now.node.now.successor_weights + here.now.node.now.stop ≤ 65535 }
    requires scale { 0 < total_successor_weight here.now.node.now }
    requires fixed { Fixed here.now.subproblem.now here.now.low.now here.now.high.now fixed.now.rows.now fixed.now.costs }
    requires pairs { AddsSize 0 pairs (successors_amount here.now.subproblem.now.decisions here.now.subproblem.now.outs here.now.pools.now.lists here.now.node.now.successors certificate.now.cuts) }
    ensures { AddsSize 0 result (certificate_amount here.now.node.now here.now.subproblem.now here.now.low.now here.now.high.now here.now.pools.now.lists (values.now, certificate.now)) }
{
    let pairs = pairs?;
    let stage = stage_size(here, fixed, values, certificate.rows.as_slice());
    plus_scaled(pairs, scale(), stage)
}

/// Sizes a realization, without its weight.
pub(crate) fn realization_size(
    here: &NodeAt,
    fixed: &FixedAmounts,
    values: &[i64],
    certificate: &Certificate,
) -> Option<Size>
    requires successors { length here.now.node.now.successor_weights ≡ length here.now.node.now.successors }
    requires few { length here.now.node.now.successors ≤ 2 ^ 16 }
    requires stop { sum here.now.node.now.successor_weights + here.now.node.now.stop ≤ 65535 }
    requires scale { 0 < total_successor_weight here.now.node.now }
    requires fixed { Fixed here.now.subproblem.now here.now.low.now here.now.high.now fixed.now.rows.now fixed.now.costs }
    requires known { All (λ m. m < length here.now.pools.now.lists) here.now.node.now.successors }
    ensures { AddsSize 0 result (certificate_amount here.now.node.now here.now.subproblem.now here.now.low.now here.now.high.now here.now.pools.now.lists (values.now, certificate.now)) }
{
    realization_over(
        pairs_size(here, certificate),
        here,
        fixed,
        values,
        certificate,
    )
}
