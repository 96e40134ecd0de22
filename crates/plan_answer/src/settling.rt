// Certificates from the duals of a solver's answer, which need not be right.
ghost use Rattle.std.specs.Prelude.{◌≡◌, ℕ, ◌+◌, ◌-◌, ◌*◌, ◌<◌, ◌≤◌, ◌^◌, [], ◌∷◌, ◌++◌, length, map, min, drop, All, IfOk, OnOk};
ghost use Rattle.base_num.specs.Sums.{floor_over};
ghost use Rattle.theory.specs.Problem.{S, node_at};
ghost use Rattle.theory.specs.Pools.{pool};
ghost use Rattle.theory.specs.View.{successors_of, problem_of};
ghost use Rattle.theory.specs.Certificates.{multipliers, RightAt};
ghost use Rattle.cut_pool.specs.AtNodes.{PoolsFit};
ghost use Rattle.lp_program.specs.Duals.{dual_in, not_zero, kept, all_kept};
ghost use Rattle.plan_answer.specs.SharedTargets.{kept_pairs, left_over};
ghost use Rattle.plan_answer.specs.Settling.{row_dual, rescaled_multiplier, clamped_number, row_multiplier_over, row_multipliers_over, settled_rows, cut_multiplier, cut_multipliers, capped, missing, place_of_greatest, pairs_from, raised_pair, raised_first, topped, settled_pairs, settled_successors, used_duals, settled_of};

use base_num::{List, Memory, floor_div};
use cut_make::is_sign;
use cut_pool::{Pools, Spares};
use lp_program::fixed::ONE;
use lp_program::{Answer, Duals, Fx, Kind};
use problem::{Node, Problem, Row, Subproblem};
use std::alloc::Global;
use theory::{Certificate, SCALE};

/// The ratio of the scale of duals to that of multipliers.
const FINER: u64 = (ONE / SCALE as i128) as u64;

/// The dual of a row, 0 where it is missing.
fn dual_at(duals: &Duals, i: usize) -> i128
    ensures { result ≡ row_dual duals.now i }
{
    duals.get(i).0
}

/// A dual at the scale of multipliers, rounded down.
fn rescaled(dual: i128) -> i128
    ensures { result ≡ rescaled_multiplier dual }
{
    floor_div(dual, i128::from(FINER))
}

/// The nearest number of 64 bits.
fn clamped(number: i128) -> i64
    ensures { result ≡ clamped_number number }
{
    number.clamp(i128::from(i64::MIN), i128::from(i64::MAX)) as i64
}

/// A dual over a divisor, rounded down. The divisor of settled certificates is a number that the compiler knows, so that it takes no
/// division.
fn dual_over(dual: i128, divisor: u64) -> i128
    requires { 0 < divisor }
    ensures { result ≡ floor_over dual divisor }
{
    if divisor == FINER {
        floor_div(dual, i128::from(FINER))
    } else {
        floor_div(dual, i128::from(divisor))
    }
}

/// The multiplier of a row: its dual over the divisor, rounded down and clamped, and 0 without the side that it stands
/// on.
fn row_over(row: &Row, dual: i128, divisor: u64) -> i64
    requires { 0 < divisor }
    ensures { result ≡ row_multiplier_over divisor row.now dual }
{
    let multiplier = clamped(dual_over(dual, divisor));
    if is_sign(row, multiplier) {
        multiplier
    } else {
        0
    }
}

/// The multipliers of rows, in the memory of a list without values: their duals over the divisor, as of one row each. [`Memory`]
/// where memory was refused.
pub(crate) fn rows_over(
    over: List<i64>,
    rows: &[Row],
    duals: &Duals,
    divisor: u64,
) -> Result<List<i64>, Memory>
    requires divisor { 0 < divisor }
    requires over { over ≡ [] }
    ensures { IfOk result (λ found. found ≡ row_multipliers_over divisor 0 rows.now duals.now) }
{
    let mut found = over;
    for (i, row) in rows.iter().enumerate() {
        found.push(row_over(row, dual_at(duals, i), divisor))?;
    }
    Ok(found)
}

/// The multiplier that the dual of a cut gives.
fn cut_multiplier(dual: i128) -> u128
    ensures { result ≡ cut_multiplier dual }
{
    u128::try_from(rescaled(dual)).unwrap_or(0)
}

/// Gives a multiplier, or the rest of the target where that is less.
fn share(multiplier: u128, left: u64) -> u64
    ensures { result ≡ min multiplier left }
{
    multiplier.min(u128::from(left)) as u64
}

/// Puts a pair behind the others, unless its multiplier is 0.
fn push_pair(pairs: &mut List<(u32, u64)>, place: u32, multiplier: u64) -> Result<(), Memory>
    ensures { OnOk result (pairs.new ≡ pairs.old ++ pairs_from place (multiplier ∷ [])) }
{
    if multiplier != 0 {
        pairs.push((place, multiplier))?;
    }
    Ok(())
}

/// The pairs of a successor's cuts within its target, and the shortfall.
#[derive(Drop)]
struct Shares {
    pairs: List<(u32, u64)>,
    missing: u64,
}

/// Keeps at most the rest of the target for a cut, by its place and its dual, and gives the rest then. A cut that keeps nothing
/// has no pair.
fn keep(pairs: &mut List<(u32, u64)>, dual: (usize, Fx), left: u64) -> Result<u64, Memory>
    requires { dual.0 < 2 ^ 32 }
    ensures pairs { OnOk result (pairs.new ≡ pairs.old ++ pairs_from dual.0 (min (cut_multiplier dual.1.0) left ∷ [])) }
    ensures left { IfOk result (λ tail. tail ≡ left - cut_multiplier dual.1.0) }
{
    let multiplier = share(cut_multiplier(dual.1.0), left);
    push_pair(pairs, dual.0 as u32, multiplier)?;
    Ok(left - multiplier)
}

/// Keeps in order at most the rest of the target for each cut of a list of duals, and gives the rest then.
fn keep_listed(pairs: &mut List<(u32, u64)>, duals: &[Fx], target: u64) -> Result<u64, Memory>
    requires { length duals.now ≤ 2 ^ 32 }
    ensures pairs { OnOk result (pairs.new ≡ pairs.old ++ kept_pairs target (not_zero (dual_in duals.now) 0 (length duals.now))) }
    ensures left { IfOk result (λ left. left ≡ left_over target (not_zero (dual_in duals.now) 0 (length duals.now))) }
{
    let mut left = target;
    for k in 0..duals.len() {
        left = keep(pairs, (k, duals[k]), left)?;
    }
    Ok(left)
}

/// Like `keep`, for a row with its dual, where it is one of so many rows from one on.
fn keep_within(
    pairs: &mut List<(u32, u64)>,
    pair: (usize, Fx),
    from: usize,
    count: u32,
    left: u64,
) -> Result<u64, Memory>
    ensures pairs { OnOk result (pairs.new ≡ pairs.old ++ kept_pairs left (kept from count pair)) }
    ensures left { IfOk result (λ tail. tail ≡ left_over left (kept from count pair)) }
{
    if from <= pair.0 && pair.0 - from < count as usize {
        keep(pairs, (pair.0 - from, pair.1), left)
    } else {
        Ok(left)
    }
}

/// Like `keep_within`, for rows with their duals, one after another.
fn keep_stored(
    pairs: &mut List<(u32, u64)>,
    stored: &[(usize, Fx)],
    from: usize,
    count: u32,
    target: u64,
) -> Result<u64, Memory>
    ensures pairs { OnOk result (pairs.new ≡ pairs.old ++ kept_pairs target (all_kept from count stored.now)) }
    ensures left { IfOk result (λ left. left ≡ left_over target (all_kept from count stored.now)) }
{
    let mut left = target;
    for i in 0..stored.len() {
        left = keep_within(pairs, stored[i], from, count, left)?;
    }
    Ok(left)
}

/// Shares the target out, in the memory of a list without values: in order each of so many cuts, whose duals begin at a row, keeps
/// at most the rest of the target. The duals of most cuts are 0, and these keep nothing.
fn within_target(
    over: List<(u32, u64)>,
    target: u64,
    count: u32,
    duals: &Duals,
    from: usize,
) -> Result<Shares, Memory>
    requires { over ≡ [] }
    ensures pairs { IfOk result (λ found. found.pairs ≡ pairs_from 0 (capped target (cut_multipliers (drop from duals.now) 0 count))) }
    ensures missing { IfOk result (λ found. found.missing ≡ missing target (cut_multipliers (drop from duals.now) 0 count)) }
{
    let mut pairs = over;
    let part = duals.part(from, count as usize);
    let left = keep_listed(&mut pairs, part.listed, target)?;
    let missing = keep_stored(&mut pairs, part.stored, from, count, left)?;
    Ok(Shares { pairs, missing })
}

/// The number of the pair with the greatest multiplier, the first of equals.
fn greatest_pair(pairs: &[(u32, u64)]) -> usize
    ensures { result ≡ place_of_greatest (map (λ s. s.1) pairs.now) }
{
    let mut best = 0;
    let mut most = 0;
    for (i, pair) in pairs.iter().enumerate() {
        if pair.1 > most {
            best = i;
            most = pair.1;
        }
    }
    best
}

/// Adds so much to the multiplier of a pair.
fn raise_pair(pairs: &mut List<(u32, u64)>, at: usize, more: u64)
    requires there { at < length pairs.old }
    requires room { multipliers pairs.old + more < 2 ^ 64 }
    ensures { pairs.new ≡ raised_pair pairs.old at more }
{
    let (place, multiplier) = pairs.as_slice()[at];
    pairs.set(at, (place, multiplier + more));
}

/// Pairs with one of the first cut in front.
fn with_first(pairs: List<(u32, u64)>, multiplier: u64) -> Result<List<(u32, u64)>, Memory>
    ensures { IfOk result (λ found. found ≡ (0, multiplier) ∷ pairs) }
{
    let mut found = pairs.into_vec();
    match found.insert(0, (0, multiplier)) {
        Ok(()) => Ok(List::from_vec(found)),
        Err(_) => Err(Memory),
    }
}

/// Adds so much to the first cut, which need not have a pair.
fn raise_first(mut pairs: List<(u32, u64)>, more: u64) -> Result<List<(u32, u64)>, Memory>
    requires { multipliers pairs + more < 2 ^ 64 }
    ensures { IfOk result (λ found. found ≡ raised_first pairs more) }
{
    if !pairs.is_empty() && pairs.as_slice()[0].0 == 0 {
        raise_pair(&mut pairs, 0, more);
        Ok(pairs)
    } else {
        with_first(pairs, more)
    }
}

/// Adds the shortfall: more than a unit a pair to the first cut, and else to the greatest.
fn top_up(mut pairs: List<(u32, u64)>, missing: u64) -> Result<List<(u32, u64)>, Memory>
    requires { multipliers pairs + missing < 2 ^ 64 }
    ensures { IfOk result (λ found. found ≡ topped pairs missing) }
{
    if missing > pairs.len() as u64 {
        return raise_first(pairs, missing);
    }
    if !pairs.is_empty() {
        let at = greatest_pair(pairs.as_slice());
        raise_pair(&mut pairs, at, missing);
    }
    Ok(pairs)
}

/// Settles the pairs of a successor with so many cuts, whose duals begin at a row, in the memory of a list without values: in order
/// each cut keeps at most the rest of the target, and the shortfall then goes to the first where it is more than a unit a pair, and
/// else to the greatest.
fn settled_pairs(
    over: List<(u32, u64)>,
    target: u64,
    count: u32,
    duals: &Duals,
    from: usize,
) -> Result<List<(u32, u64)>, Memory>
    requires count { 0 < count }
    requires over { over ≡ [] }
    ensures { IfOk result (λ found. found ≡ settled_pairs target count (drop from duals.now)) }
{
    let Shares { pairs, missing } = within_target(over, target, count, duals, from)?;
    top_up(pairs, missing)
}

/// Gives the target of a successor: all of its weight.
#[tactic(auto, unfolding(theory::specs::Problem::S))]
fn target(weight: u32) -> u64
    ensures { result ≡ S * weight }
{
    u64::from(SCALE) * u64::from(weight)
}

/// The row so many behind another, or the end of the duals where these are fewer.
fn behind(duals: &Duals, from: usize, count: usize) -> usize
    ensures { drop result duals.now ≡ drop count (drop from duals.now) }
{
    let rows = duals.len();
    if from < rows && count < rows - from {
        from + count
    } else {
        rows
    }
}

/// The pairs of successors, the duals of whose cuts follow one another from a row on.
fn settled_successors(
    alloc: Global,
    spares: &mut Spares,
    pools: &Pools,
    successors: &[u32],
    weights: &[u32],
    duals: &Duals,
    from: usize,
) -> Result<List<List<(u32, u64)>>, Memory>
    requires weights { length weights.now ≡ length successors.now }
    requires known { All (λ m. m < length pools.now.lists) successors.now }
    requires some { All (λ m. 0 < length (pool pools.now.lists m)) successors.now }
    ensures { IfOk result (λ found. found ≡ settled_successors pools.now.lists (successors_of successors.now weights.now) (drop from duals.now)) }
{
    let mut found = spares.cuts.take(alloc);
    let mut at = from;
    for i in 0..successors.len() {
        let count = pools.count(successors[i]);
        let over = spares.pairs.take(alloc);
        found.push(settled_pairs(over, target(weights[i]), count, duals, at)?)?;
        at = behind(duals, at, count as usize);
    }
    Ok(found)
}

/// The duals that are made use of: those of a claimed solution, and else none.
fn used_duals<'a>(answer: &'a Answer, none: &'a Duals) -> &'a Duals
    requires { none.now ≡ [] }
    ensures { result.now ≡ used_duals answer.now.kind answer.now.duals }
{
    match answer.kind {
        Kind::Found => &answer.duals,
        Kind::Ray | Kind::Stuck => none,
    }
}

/// The certificate of duals of a node's rows, then of its successors' cuts.
fn settled_duals(
    alloc: Global,
    spares: &mut Spares,
    pools: &Pools,
    node: &Node,
    subproblem: &Subproblem,
    duals: &Duals,
) -> Result<Certificate, Memory>
    requires weights { length node.now.successor_weights ≡ length node.now.successors }
    requires known { All (λ m. m < length pools.now.lists) node.now.successors }
    requires some { All (λ m. 0 < length (pool pools.now.lists m)) node.now.successors }
    ensures { IfOk result (λ c. c ≡ record {
      rows = settled_rows 0 subproblem.now.rows duals.now;
      cuts = settled_successors pools.now.lists (successors_of node.now.successors node.now.successor_weights) (drop (length subproblem.now.rows) duals.now);
    }) }
{
    let over = spares.rows.take(alloc);
    let rows = rows_over(over, subproblem.rows.as_slice(), duals, FINER)?;
    let successors = node.successors.as_slice();
    let weights = node.successor_weights.as_slice();
    let own = subproblem.rows.len();
    let cuts = settled_successors(alloc, spares, pools, successors, weights, duals, own)?;
    Ok(Certificate { rows, cuts })
}

/// Settles an answer at a node over its successors' cuts to a certificate, in the memory of those that are done with; [`Memory`]
/// where memory was refused.
///
/// A multiplier is a dual at scale 2^24, rounded down. The multiplier of a row is clamped to 64 bits, and 0 where the row lacks
/// the side that it stands on. Each cut of a successor keeps, in order, at most what is left of 2^24 times the successor's
/// weight. The shortfall then goes to the first cut where it is more than a unit for each multiplier above 0, and else to the
/// greatest, the first of equals; cuts with 0 are left out. A missing dual counts as 0, and those beyond the rows are ignored.
/// An answer that claims no solution gives the base certificate. The certificate is right for any answer, of any lengths and
/// numbers.
pub fn certificate_of_duals(
    alloc: Global,
    spares: &mut Spares,
    problem: &Problem,
    pools: &Pools,
    node: u32,
    answer: &Answer,
) -> Result<Certificate, Memory>
    requires known { node < length problem.now.parts.nodes }
    requires fit { PoolsFit problem.now pools.now.lists }
    ensures value { IfOk result (λ c. c ≡ settled_of pools.now.lists (node_at (problem_of problem.now) node) answer.now) }
    ensures right { IfOk result (RightAt pools.now.lists (node_at (problem_of problem.now) node)) }
{
    let parts = problem.parts();
    let own = &parts.nodes.as_slice()[node as usize];
    let none = Duals::new(alloc, List::new(alloc));
    settled_duals(
        alloc,
        spares,
        pools,
        own,
        problem.sub(node),
        used_duals(answer, &none),
    )
}
