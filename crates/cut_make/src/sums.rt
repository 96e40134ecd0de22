// The first number of a cut, before the division: A_r of a realization, and their sum.
ghost use Rattle.std.specs.Prelude.{◌≡◌, ◌-◌, ◌^◌, ◌<◌, ◌≤◌, ℕ, ℤ, pos, ◌+ℤ◌, ◌*ℤ◌, ◌≤ℤ◌, List, [], length, get_or, set, All, IfSome};
ghost use Rattle.theory.specs.Problem.{with_weights};
ghost use Rattle.theory.specs.View.{node_of};
ghost use Rattle.theory.specs.declared.cut.Certificate.{Certificate};
ghost use Rattle.theory.specs.CutOf.{scale, alpha_sum};
ghost use Rattle.cut_make.specs.Congruent.{Congruent};
ghost use Rattle.cut_make.specs.FixedParts.{AreFixedBefore, IsFixedAt};
ghost use Rattle.cut_make.specs.Parts.{Limited, PairsThere, ReducedFit, costs_at_scale, over_successors, least_at, constant_at_scale};
ghost use Rattle.cut_make.specs.Tabled.{Tabled, IsScaled};

use crate::constants::{boxes_least, products, sides, successor_constants};
use crate::node_at::NodeAt;
use crate::reduced_costs::add_multipliers;
use crate::same::is_same;
use crate::scaled_costs::{ScaledCosts, write_costs};
use crate::scales::{SCALE, scale};
use crate::wrapping::{wrapping_add, wrapping_add_product};
use problem::{MOST_DECISIONS, MOST_REALIZATIONS};
use theory::Certificate;

/// How many realizations before one are asked whether they have the same certificate.
const NEAR_BY: usize = 16;

/// The number of decisions up to which shorter tables are enough, which take less time to clear.
const FEW_DECISIONS: usize = 32;

/// The sum of the least products of the reduced costs over the decisions' boxes, modulo 2^128. The table has the
/// decisions' costs at the scale before, and the reduced costs behind.
fn least_sum(reduced: &mut [i128], here: &NodeAt, certificate: &Certificate) -> i128
    requires limits { Limited here.now.node.now here.now.subproblem.now }
    requires known { All (λ m. m < length here.now.pools.now.lists) here.now.node.now.successors }
    requires there { PairsThere here.now.pools.now.lists here.now.node.now.successors certificate.now.cuts }
    requires count { length reduced.old ≡ length here.now.subproblem.now.decisions }
    ensures count { length reduced.new ≡ length reduced.old }
    ensures value { (k : ℤ) → Tabled (costs_at_scale k here.now.subproblem.now) reduced.old
        → ReducedFit k here.now.pools.now.lists here.now.node.now here.now.subproblem.now certificate.now
        → Congruent result (least_at k here.now.pools.now.lists here.now.node.now here.now.subproblem.now certificate.now) }
{
    add_multipliers(reduced, here, certificate);
    boxes_least(reduced, here.subproblem.decisions.as_slice())
}

/// The part of A_r that is the same at all values: its pairs and its decisions, modulo 2^128. The table has the
/// decisions' costs at the scale before.
fn fixed_part(reduced: &mut [i128], here: &NodeAt, certificate: &Certificate) -> i128
    requires limits { Limited here.now.node.now here.now.subproblem.now }
    requires known { All (λ m. m < length here.now.pools.now.lists) here.now.node.now.successors }
    requires there { PairsThere here.now.pools.now.lists here.now.node.now.successors certificate.now.cuts }
    requires count { length reduced.old ≡ length here.now.subproblem.now.decisions }
    ensures count { length reduced.new ≡ length reduced.old }
    ensures value { (k : ℤ) → Tabled (costs_at_scale k here.now.subproblem.now) reduced.old
        → ReducedFit k here.now.pools.now.lists here.now.node.now here.now.subproblem.now certificate.now
        → Congruent result (over_successors here.now.pools.now.lists here.now.node.now.successors certificate.now.cuts (λ cut. cut.alpha)
        +ℤ least_at k here.now.pools.now.lists here.now.node.now here.now.subproblem.now certificate.now) }
{
    let least = least_sum(reduced, here, certificate);
    let pairs = successor_constants(
        here.node.successors.as_slice(),
        here.pools,
        certificate.cuts.as_slice(),
    );
    wrapping_add(pairs, least)
}

/// The part of A_r that is the same at all values, modulo 2^128, by a table of zeros with room for the decisions' reduced costs.
fn fixed_constant_by(
    table: &mut [i128],
    scale: i128,
    here: &NodeAt,
    certificate: &Certificate,
) -> i128
    requires limits { Limited here.now.node.now here.now.subproblem.now }
    requires known { All (λ m. m < length here.now.pools.now.lists) here.now.node.now.successors }
    requires there { PairsThere here.now.pools.now.lists here.now.node.now.successors certificate.now.cuts }
    requires small { ReducedFit scale here.now.pools.now.lists here.now.node.now here.now.subproblem.now certificate.now }
    requires zeros { Tabled (λ j. pos 0) table.old }
    requires room { length here.now.subproblem.now.decisions ≤ length table.old }
    ensures { Congruent result (over_successors here.now.pools.now.lists here.now.node.now.successors certificate.now.cuts (λ cut. cut.alpha)
        +ℤ least_at scale here.now.pools.now.lists here.now.node.now here.now.subproblem.now certificate.now) }
{
    let decisions = here.subproblem.decisions.as_slice();
    write_costs(table, scale, decisions);
    fixed_part(&mut table[..decisions.len()], here, certificate)
}

/// Gives the part of A_r that is the same at all values, for one certificate alone, modulo 2^128.
pub fn fixed_constant(scale: i128, here: &NodeAt, certificate: &Certificate) -> i128
    requires limits { Limited here.now.node.now here.now.subproblem.now }
    requires known { All (λ m. m < length here.now.pools.now.lists) here.now.node.now.successors }
    requires there { PairsThere here.now.pools.now.lists here.now.node.now.successors certificate.now.cuts }
    requires small { ReducedFit scale here.now.pools.now.lists here.now.node.now here.now.subproblem.now certificate.now }
    ensures { Congruent result (over_successors here.now.pools.now.lists here.now.node.now.successors certificate.now.cuts (λ cut. cut.alpha)
        +ℤ least_at scale here.now.pools.now.lists here.now.node.now here.now.subproblem.now certificate.now) }
{
    if here.subproblem.decisions.len() <= FEW_DECISIONS {
        fixed_constant_by(&mut [0; FEW_DECISIONS], scale, here, certificate)
    } else {
        fixed_constant_by(&mut [0; MOST_DECISIONS], scale, here, certificate)
    }
}

/// A_r, modulo 2^128, over its fixed part.
pub fn constant_over(
    fixed: i128,
    scale: i128,
    here: &NodeAt,
    values: &[i64],
    certificate: &Certificate,
) -> i128
    requires limits { Limited here.now.node.now here.now.subproblem.now }
    requires values { length values.now ≡ length here.now.subproblem.now.randoms }
    requires fixed { Congruent fixed (over_successors here.now.pools.now.lists here.now.node.now.successors certificate.now.cuts (λ cut. cut.alpha)
        +ℤ least_at scale here.now.pools.now.lists here.now.node.now here.now.subproblem.now certificate.now) }
    ensures { Congruent result (constant_at_scale scale here.now.pools.now.lists here.now.node.now here.now.subproblem.now values.now certificate.now) }
{
    let random = products(here.subproblem.random_costs.as_slice(), values);
    let cost = wrapping_add(i128::from(here.subproblem.constant), random);
    let level = sides(
        here.subproblem.rows.as_slice(),
        certificate.rows.as_slice(),
        values,
    );
    let staged = wrapping_add_product(wrapping_add_product(0, scale, cost), SCALE, level);
    wrapping_add(staged, fixed)
}

/// Finds the last of the realizations near by, before a number, that has the same certificate. None where there is none.
fn same_before(list: &[Certificate], end: usize, certificate: &Certificate) -> Option<usize>
    requires { end ≤ length list.now }
    ensures { IfSome result (λ s. (s < end) × (get_or list.now s certificate.now ≡ certificate.now)) }
{
    for k in 0..end.min(NEAR_BY) {
        let s = end - 1 - k;
        if is_same(&list[s], certificate) {
            return Some(s);
        }
    }
    None
}

/// The part of A_r that is the same at all values, for the certificate of a realization, modulo 2^128. Where a realization
/// near by before it has the same certificate, its part is taken over from those that are known. The table has room for the
/// decisions' reduced costs.
fn fixed_at(
    reduced: &mut [i128],
    known: &[i128],
    costs: &ScaledCosts,
    here: &NodeAt,
    list: &[Certificate],
    realization: usize,
) -> i128
    requires limits { Limited here.now.node.now here.now.subproblem.now }
    requires known { All (λ m. m < length here.now.pools.now.lists) here.now.node.now.successors }
    requires there { All (λ (c : Certificate). PairsThere here.now.pools.now.lists here.now.node.now.successors c.cuts) list.now }
    requires count { length reduced.old ≡ length here.now.subproblem.now.decisions }
    requires costs { IsScaled costs.now here.now.subproblem.now }
    requires small { All (ReducedFit costs.now.scale here.now.pools.now.lists here.now.node.now here.now.subproblem.now) list.now }
    requires inside { realization < length list.now }
    requires before { AreFixedBefore costs.now.scale here.now.pools.now.lists here.now.node.now here.now.subproblem.now list.now realization known.now }
    ensures count { length reduced.new ≡ length reduced.old }
    ensures value { IsFixedAt costs.now.scale here.now.pools.now.lists here.now.node.now here.now.subproblem.now list.now realization result }
{
    let certificate = &list[realization];
    let end = realization.min(known.len());
    if let Some(s) = same_before(list, end, certificate) {
        return known[s];
    }
    costs.copy_into(reduced);
    fixed_part(reduced, here, certificate)
}

/// Keeps what is known of a realization, where there is room.
fn keep(known: &mut [i128], realization: usize, part: i128)
    ensures { known.new ≡ set known.old realization part }
{
    if realization < known.len() {
        known[realization] = part;
    }
}

/// A: the sum over the realizations of the weight times A_r, modulo 2^128. The first table has room for the decisions' reduced
/// costs, the other for what is known of realizations.
fn weighted_constants(
    reduced: &mut [i128],
    known: &mut [i128],
    costs: &ScaledCosts,
    here: &NodeAt,
    list: &[Certificate],
) -> i128
    requires limits { Limited here.now.node.now here.now.subproblem.now }
    requires count { length here.now.weights.now ≡ length here.now.node.now.weights }
    requires list { length list.now ≡ length here.now.node.now.weights }
    requires known { All (λ m. m < length here.now.pools.now.lists) here.now.node.now.successors }
    requires there { All (λ (c : Certificate). PairsThere here.now.pools.now.lists here.now.node.now.successors c.cuts) list.now }
    requires small { All (ReducedFit (scale (node_of here.now.node.now here.now.subproblem.now [] [])) here.now.pools.now.lists here.now.node.now here.now.subproblem.now) list.now }
    requires room { length reduced.old ≡ length here.now.subproblem.now.decisions }
    requires costs { IsScaled costs.now here.now.subproblem.now }
    requires scale { costs.now.scale ≡ scale (node_of here.now.node.now here.now.subproblem.now [] []) }
    ensures { (low high : List ℤ)
        → Congruent result (alpha_sum here.now.pools.now.lists (with_weights here.now.weights.now (node_of here.now.node.now here.now.subproblem.now low high)) list.now) }
{
    let mut sum: i128 = 0;
    for r in 0..here.weights.len() {
        let values = here.node.values.as_slice()[r].as_slice();
        let fixed = fixed_at(reduced, known, costs, here, list, r);
        keep(known, r, fixed);
        let constant = constant_over(fixed, costs.scale, here, values, &list[r]);
        sum = wrapping_add_product(sum, i128::from(here.weights[r]), constant);
    }
    sum
}

/// A, modulo 2^128, by two tables with room for the decisions: one for their reduced costs, and zeros for their costs at the scale.
fn constant_sum_by(
    reduced: &mut [i128],
    costs: &mut [i128],
    here: &NodeAt,
    list: &[Certificate],
) -> i128
    requires limits { Limited here.now.node.now here.now.subproblem.now }
    requires count { length here.now.weights.now ≡ length here.now.node.now.weights }
    requires list { length list.now ≡ length here.now.node.now.weights }
    requires known { All (λ m. m < length here.now.pools.now.lists) here.now.node.now.successors }
    requires there { All (λ (c : Certificate). PairsThere here.now.pools.now.lists here.now.node.now.successors c.cuts) list.now }
    requires small { All (ReducedFit (scale (node_of here.now.node.now here.now.subproblem.now [] [])) here.now.pools.now.lists here.now.node.now here.now.subproblem.now) list.now }
    requires zeros { Tabled (λ j. pos 0) costs.old }
    requires room { length here.now.subproblem.now.decisions ≤ length reduced.old }
    requires room_too { length here.now.subproblem.now.decisions ≤ length costs.old }
    ensures { (low high : List ℤ)
        → Congruent result (alpha_sum here.now.pools.now.lists (with_weights here.now.weights.now (node_of here.now.node.now here.now.subproblem.now low high)) list.now) }
{
    let decisions = here.subproblem.decisions.as_slice();
    let scale = scale(here.node);
    write_costs(costs, scale, decisions);
    let costs = ScaledCosts { scale, costs };
    let mut known = [0; MOST_REALIZATIONS];
    weighted_constants(
        &mut reduced[..decisions.len()],
        &mut known,
        &costs,
        here,
        list,
    )
}

/// A: the sum over the realizations of the weight times A_r, modulo 2^128.
pub fn constant_sum(here: &NodeAt, list: &[Certificate]) -> i128
    requires limits { Limited here.now.node.now here.now.subproblem.now }
    requires count { length here.now.weights.now ≡ length here.now.node.now.weights }
    requires list { length list.now ≡ length here.now.node.now.weights }
    requires known { All (λ m. m < length here.now.pools.now.lists) here.now.node.now.successors }
    requires there { All (λ (c : Certificate). PairsThere here.now.pools.now.lists here.now.node.now.successors c.cuts) list.now }
    requires small { All (ReducedFit (scale (node_of here.now.node.now here.now.subproblem.now [] [])) here.now.pools.now.lists here.now.node.now here.now.subproblem.now) list.now }
    ensures { (low high : List ℤ)
        → Congruent result (alpha_sum here.now.pools.now.lists (with_weights here.now.weights.now (node_of here.now.node.now here.now.subproblem.now low high)) list.now) }
{
    if here.subproblem.decisions.len() <= FEW_DECISIONS {
        let mut reduced: [i128; FEW_DECISIONS] = [0; FEW_DECISIONS];
        constant_sum_by(&mut reduced, &mut [0; FEW_DECISIONS], here, list)
    } else {
        let mut reduced: [i128; MOST_DECISIONS] = [0; MOST_DECISIONS];
        constant_sum_by(&mut reduced, &mut [0; MOST_DECISIONS], here, list)
    }
}
