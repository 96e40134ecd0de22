// The sums of a list of certificates that make the first number of its cut.
ghost use Rattle.std.specs.Prelude.{◌≡◌, ◌-◌, ◌^◌, ◌<◌, ◌≤◌, ℕ, ℤ, pos, ◌+ℤ◌, ◌-ℤ◌, ◌*ℤ◌, ◌≤ℤ◌, List, length, map, zip, All};
ghost use Rattle.std.specs.Int.{int_min};
ghost use Rattle.base_num.specs.Sums.{sum_to, total, entry, dot, at_terms};
ghost use Rattle.problem.specs.declared.parts.Row.{Row};
ghost use Rattle.problem.specs.declared.parts.Decision.{Decision};
ghost use Rattle.theory.specs.Pools.{pool};
ghost use Rattle.theory.specs.CutOf.{side};
ghost use Rattle.theory.specs.Size.{magnitude, reach};
ghost use Rattle.cut_make.specs.Congruent.{Congruent};
ghost use Rattle.cut_make.specs.Parts.{over_pool, over_successors};
ghost use Rattle.cut_make.specs.Tabled.{Tabled};

use crate::sides::row_side;
use crate::wrapping::{wrapping_add, wrapping_add_product, wrapping_product};
use base_num::List;
use cut_pool::{Cut, Pools};
use problem::{Decision, Row};

/// The sum of the products of costs and values, as far as both go, modulo 2^128.
pub(crate) fn products(costs: &[i64], values: &[i64]) -> i128
    ensures { Congruent result (dot costs.now values.now) }
{
    let mut sum: i128 = 0;
    for i in 0..costs.len().min(values.len()) {
        sum = wrapping_add_product(sum, i128::from(costs[i]), i128::from(values[i]));
    }
    sum
}

/// The sum of the terms at the values, modulo 2^128.
fn terms_at(terms: &[(u32, i64)], values: &[i64]) -> i128
    requires { All (λ t. t.0 < length values.now) terms.now }
    ensures { Congruent result (at_terms terms.now (entry values.now)) }
{
    let mut sum: i128 = 0;
    for (variable, factor) in terms {
        sum = wrapping_add_product(
            sum,
            i128::from(*factor),
            i128::from(values[*variable as usize]),
        );
    }
    sum
}

/// The sum with a multiplier times its row's side less the random terms, modulo 2^128.
fn add_side(sum: i128, row: &Row, multiplier: i64, values: &[i64]) -> i128
    requires { All (λ t. t.0 < length values.now) row.now.randoms }
    ensures { Congruent result (sum +ℤ multiplier *ℤ (side row.now multiplier -ℤ at_terms row.now.randoms (entry values.now))) }
{
    if multiplier == 0 {
        return sum;
    }
    let random = terms_at(row.randoms.as_slice(), values);
    let level = wrapping_add_product(i128::from(row_side(row, multiplier)), -1, random);
    wrapping_add_product(sum, i128::from(multiplier), level)
}

/// The sum of the multipliers times their rows' sides less the random terms, modulo 2^128.
pub(crate) fn sides(rows: &[Row], multipliers: &[i64], values: &[i64]) -> i128
    requires { All (λ (row : Row). All (λ (t : ℕ × ℤ). t.0 < length values.now) row.randoms) rows.now }
    ensures { Congruent result (total (λ (q : Row × ℤ). q.1 *ℤ (side q.0 q.1 -ℤ at_terms q.0.randoms (entry values.now))) (zip rows.now multipliers.now)) }
{
    let mut sum: i128 = 0;
    for i in 0..rows.len().min(multipliers.len()) {
        sum = add_side(sum, &rows[i], multipliers[i], values);
    }
    sum
}

/// The sum of the multipliers times the first numbers of their cuts, modulo 2^128.
fn pool_constants(pool: &[Cut], pairs: &[(u32, u64)]) -> i128
    requires { All (λ (s : ℕ × ℕ). s.0 < length pool.now) pairs.now }
    ensures { Congruent result (over_pool pool.now (λ cut. cut.alpha) pairs.now) }
{
    let mut sum: i128 = 0;
    for (place, multiplier) in pairs {
        sum = wrapping_add_product(sum, i128::from(*multiplier), pool[*place as usize].alpha);
    }
    sum
}

/// Sums the multipliers times the first numbers of their cuts, over all successors, modulo 2^128.
pub(crate) fn successor_constants(
    successors: &[u32],
    pools: &Pools,
    cuts: &[List<(u32, u64)>],
) -> i128
    requires known { All (λ m. m < length pools.now.lists) successors.now }
    requires there { All (λ (q : ℕ × List (ℕ × ℕ)). All (λ (s : ℕ × ℕ). s.0 < length (pool pools.now.lists q.0)) q.1) (zip successors.now cuts.now) }
    ensures { Congruent result (over_successors pools.now.lists successors.now cuts.now (λ cut. cut.alpha)) }
{
    let mut sum: i128 = 0;
    for i in 0..successors.len().min(cuts.len()) {
        let pool = pools.cuts(successors[i] as usize);
        sum = wrapping_add(sum, pool_constants(pool, cuts[i].as_slice()));
    }
    sum
}

/// The end of a decision's box at which its product with a reduced cost is least.
fn least_end(reduced: i128, decision: &Decision) -> i64
    ensures { reduced *ℤ result ≡ int_min (reduced *ℤ decision.now.low) (reduced *ℤ decision.now.high) }
{
    let lesser = decision.low.min(decision.high);
    let greater = decision.low.max(decision.high);
    if reduced < 0 { greater } else { lesser }
}

/// The least product of a reduced cost and a value in a decision's box, where both products are in range.
fn box_least(reduced: i128, decision: &Decision) -> i128
    ensures { (magnitude reduced *ℤ magnitude decision.now.low) ≤ℤ pos (2 ^ 127 - 1)
        → (magnitude reduced *ℤ magnitude decision.now.high) ≤ℤ pos (2 ^ 127 - 1)
        → result ≡ int_min (reduced *ℤ decision.now.low) (reduced *ℤ decision.now.high) }
{
    wrapping_product(reduced, i128::from(least_end(reduced, decision)))
}

/// The sum of these over all decisions, modulo 2^128.
pub(crate) fn boxes_least(reduced: &[i128], decisions: &[Decision]) -> i128
    requires { length decisions.now ≤ length reduced.now }
    ensures { (d : ℕ → ℤ) → Tabled d reduced.now
        → ((j : ℕ) → j < length decisions.now → (reach (map (λ (e : Decision). e.low) decisions.now) (map (λ (e : Decision). e.high) decisions.now) j *ℤ magnitude (d j)) ≤ℤ pos (2 ^ 127 - 1))
        → Congruent result (sum_to (length decisions.now)
        (λ j. int_min (d j *ℤ entry (map (λ (e : Decision). e.low) decisions.now) j) (d j *ℤ entry (map (λ (e : Decision). e.high) decisions.now) j))) }
{
    let mut sum: i128 = 0;
    for j in 0..decisions.len() {
        sum = wrapping_add(sum, box_least(reduced[j], &decisions[j]));
    }
    sum
}
