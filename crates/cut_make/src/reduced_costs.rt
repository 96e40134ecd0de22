// The reduced costs of a certificate, in a table with one entry per decision.
ghost use Rattle.std.specs.Prelude.{◌≡◌, ◌<◌, ◌≤◌, ℕ, ℤ, pos, ◌+ℤ◌, ◌-ℤ◌, ◌*ℤ◌, List, length, map, zip, All};
ghost use Rattle.base_num.specs.Sums.{total, entry, coefficient, placed, same_place};
ghost use Rattle.problem.specs.declared.parts.Row.{Row};
ghost use Rattle.problem.specs.declared.parts.Decision.{Decision};
ghost use Rattle.theory.specs.Problem.{S};
ghost use Rattle.theory.specs.Pools.{pool};
ghost use Rattle.cut_make.specs.Parts.{over_pool, over_successors};
ghost use Rattle.cut_make.specs.Tabled.{Tabled};

use crate::node_at::NodeAt;
use crate::scales::SHORT_SCALE;
use crate::wrapping::{wide_product, wrapping_add_product};
use base_num::List;
use cut_pool::{Cut, Pools};
use problem::{Decision, Row};
use theory::Certificate;

/// Adds a product to a decision's sum, modulo 2^128.
pub(super) fn add_at(sums: &mut [i128], decision: usize, x: i128, y: i128)
    requires { decision < length sums.old }
    ensures count { length sums.new ≡ length sums.old }
    ensures value { (f : ℕ → ℤ) → Tabled f sums.old
        → Tabled (λ j. f j +ℤ x *ℤ (y *ℤ same_place decision j)) sums.new }
{
    sums[decision] = wrapping_add_product(sums[decision], x, y);
}

/// Adds a multiple of the terms, each to its decision's sum, modulo 2^128. Numbers of 64 bits take one multiplication each.
fn add_narrow_terms(sums: &mut [i128], multiplier: i64, terms: &[(u32, i64)])
    requires { All (λ t. t.0 < length sums.old) terms.now }
    ensures count { length sums.new ≡ length sums.old }
    ensures value { (f : ℕ → ℤ) → Tabled f sums.old
        → Tabled (λ j. f j +ℤ multiplier *ℤ coefficient terms.now j) sums.new }
{
    for (variable, factor) in terms {
        add_at(
            sums,
            *variable as usize,
            i128::from(multiplier),
            i128::from(*factor),
        );
    }
}

/// Adds a multiple of the terms, each to its decision's sum, modulo 2^128, for a multiplier of 128 bits.
fn add_wide_terms(sums: &mut [i128], multiplier: i128, terms: &[(u32, i64)])
    requires { All (λ t. t.0 < length sums.old) terms.now }
    ensures count { length sums.new ≡ length sums.old }
    ensures value { (f : ℕ → ℤ) → Tabled f sums.old
        → Tabled (λ j. f j +ℤ multiplier *ℤ coefficient terms.now j) sums.new }
{
    for (variable, factor) in terms {
        add_at(sums, *variable as usize, multiplier, i128::from(*factor));
    }
}

/// Adds a product of two numbers times the terms, each to its decision's sum, modulo 2^128.
pub(super) fn add_terms(sums: &mut [i128], x: i64, y: i64, terms: &[(u32, i64)])
    requires { All (λ t. t.0 < length sums.old) terms.now }
    ensures count { length sums.new ≡ length sums.old }
    ensures value { (f : ℕ → ℤ) → Tabled f sums.old
        → Tabled (λ j. f j +ℤ x *ℤ y *ℤ coefficient terms.now j) sums.new }
{
    match x.checked_mul(y) {
        Some(multiplier) => add_narrow_terms(sums, multiplier, terms),
        None => add_wide_terms(sums, wide_product(x, y), terms),
    }
}

/// Adds a multiple of the slopes, each at its state's out variable, modulo 2^128.
fn add_slopes(sums: &mut [i128], multiplier: i128, outs: &[u32], slopes: &[i128])
    requires { All (λ o. o < length sums.old) outs.now }
    ensures count { length sums.new ≡ length sums.old }
    ensures value { (f : ℕ → ℤ) → Tabled f sums.old
        → Tabled (λ j. f j +ℤ multiplier *ℤ coefficient (placed outs.now slopes.now) j) sums.new }
{
    for s in 0..outs.len().min(slopes.len()) {
        add_at(sums, outs[s] as usize, multiplier, slopes[s]);
    }
}

/// Takes S times a multiplier times its row's terms away, modulo 2^128.
fn add_row(sums: &mut [i128], row: &Row, multiplier: i64)
    requires { All (λ t. t.0 < length sums.old) row.now.decisions }
    ensures count { length sums.new ≡ length sums.old }
    ensures value { (f : ℕ → ℤ) → Tabled f sums.old
        → Tabled (λ j. f j -ℤ pos S *ℤ (multiplier *ℤ coefficient row.now.decisions j)) sums.new }
{
    if multiplier != 0 {
        add_terms(sums, -SHORT_SCALE, multiplier, row.decisions.as_slice());
    }
}

/// Takes S times the multipliers times their rows' terms away, modulo 2^128.
fn add_rows(sums: &mut [i128], rows: &[Row], multipliers: &[i64])
    requires { All (λ (row : Row). All (λ (t : ℕ × ℤ). t.0 < length sums.old) row.decisions) rows.now }
    ensures count { length sums.new ≡ length sums.old }
    ensures value { (f : ℕ → ℤ) → Tabled f sums.old
        → Tabled (λ j. f j -ℤ pos S *ℤ total (λ (q : Row × ℤ). q.1 *ℤ coefficient q.0.decisions j) (zip rows.now multipliers.now)) sums.new }
{
    for i in 0..rows.len().min(multipliers.len()) {
        add_row(sums, &rows[i], multipliers[i]);
    }
}

/// Adds the decisions' costs at a scale, modulo 2^128.
pub(super) fn add_costs(sums: &mut [i128], scale: i128, decisions: &[Decision])
    requires { length decisions.now ≤ length sums.old }
    ensures count { length sums.new ≡ length sums.old }
    ensures value { (f : ℕ → ℤ) → Tabled f sums.old
        → Tabled (λ j. f j +ℤ scale *ℤ entry (map (λ (d : Decision). d.cost) decisions.now) j) sums.new }
{
    for j in 0..decisions.len() {
        add_at(sums, j, scale, i128::from(decisions[j].cost));
    }
}

/// Adds the multipliers of the pairs times their cuts' slopes, modulo 2^128.
fn add_pairs(sums: &mut [i128], outs: &[u32], pool: &[Cut], pairs: &[(u32, u64)])
    requires outs { All (λ o. o < length sums.old) outs.now }
    requires there { All (λ (s : ℕ × ℕ). s.0 < length pool.now) pairs.now }
    ensures count { length sums.new ≡ length sums.old }
    ensures value { (f : ℕ → ℤ) → Tabled f sums.old
        → Tabled (λ j. f j +ℤ over_pool pool.now (λ cut. coefficient (placed outs.now cut.beta) j) pairs.now) sums.new }
{
    for (place, multiplier) in pairs {
        add_slopes(
            sums,
            i128::from(*multiplier),
            outs,
            pool[*place as usize].beta.as_slice(),
        );
    }
}

/// Adds the multipliers of all pairs of all successors times their cuts' slopes, modulo 2^128.
fn add_successors(
    sums: &mut [i128],
    outs: &[u32],
    successors: &[u32],
    pools: &Pools,
    cuts: &[List<(u32, u64)>],
)
    requires outs { All (λ o. o < length sums.old) outs.now }
    requires known { All (λ m. m < length pools.now.lists) successors.now }
    requires there { All (λ (q : ℕ × List (ℕ × ℕ)). All (λ (s : ℕ × ℕ). s.0 < length (pool pools.now.lists q.0)) q.1) (zip successors.now cuts.now) }
    ensures count { length sums.new ≡ length sums.old }
    ensures value { (f : ℕ → ℤ) → Tabled f sums.old
        → Tabled (λ j. f j +ℤ over_successors pools.now.lists successors.now cuts.now (λ cut. coefficient (placed outs.now cut.beta) j)) sums.new }
{
    for i in 0..successors.len().min(cuts.len()) {
        add_pairs(
            sums,
            outs,
            pools.cuts(successors[i] as usize),
            cuts[i].as_slice(),
        );
    }
}

/// Adds the part of each decision's reduced cost that the multipliers of a certificate make, modulo 2^128. With the decision's
/// cost at the scale it is d_j.
pub(super) fn add_multipliers(sums: &mut [i128], here: &NodeAt, certificate: &Certificate)
    requires rows { All (λ (row : Row). All (λ (t : ℕ × ℤ). t.0 < length sums.old) row.decisions) here.now.subproblem.now.rows }
    requires outs { All (λ o. o < length sums.old) here.now.subproblem.now.outs }
    requires known { All (λ m. m < length here.now.pools.now.lists) here.now.node.now.successors }
    requires there { All (λ (q : ℕ × List (ℕ × ℕ)). All (λ (s : ℕ × ℕ). s.0 < length (pool here.now.pools.now.lists q.0)) q.1) (zip here.now.node.now.successors certificate.now.cuts) }
    ensures count { length sums.new ≡ length sums.old }
    ensures value { (f : ℕ → ℤ) → Tabled f sums.old
        → Tabled (λ j. f j -ℤ pos S *ℤ total (λ (q : Row × ℤ). q.1 *ℤ coefficient q.0.decisions j) (zip here.now.subproblem.now.rows certificate.now.rows)
        +ℤ over_successors here.now.pools.now.lists here.now.node.now.successors certificate.now.cuts (λ cut. coefficient (placed here.now.subproblem.now.outs cut.beta) j)) sums.new }
{
    add_rows(
        sums,
        here.subproblem.rows.as_slice(),
        certificate.rows.as_slice(),
    );
    add_successors(
        sums,
        here.subproblem.outs.as_slice(),
        here.node.successors.as_slice(),
        here.pools,
        certificate.cuts.as_slice(),
    );
}
