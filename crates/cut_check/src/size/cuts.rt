// The size of the cuts of a certificate.
ghost use Rattle.std.specs.Prelude.{◌<◌, length, zip, All};
ghost use Rattle.std.specs.List.{sum_by};
ghost use Rattle.cut_make.specs.SizeByTerms.{AddsSize, over_decisions, term_by, terms_by, cut_amount, pair_amount, successor_amount, successors_amount};

use super::terms::{DecisionBoxes, Multiples, plus_scaled};
use base_num::{List, Size};
use cut_pool::{Cut, Pools};
use problem::Decision;

/// A slope at the ends of the box of the decision that leaves the stage.
fn plus_slope(size: Size, out: u32, slope: i128, decisions: &[Decision]) -> Option<Size>
    ensures { AddsSize size.total result (term_by (over_decisions decisions.now) (out, slope)) }
{
    let boxes = DecisionBoxes { decisions };
    size.plus_product(slope.unsigned_abs(), boxes.at(out as usize))
}

/// The slopes of a cut at the ends of the boxes of the decisions that leave the stage.
fn plus_slopes(size: Size, outs: &[u32], slopes: &[i128], decisions: &[Decision]) -> Option<Size>
    ensures { AddsSize size.total result (terms_by (over_decisions decisions.now) (zip outs.now slopes.now)) }
{
    let mut sum = size;
    for k in 0..outs.len().min(slopes.len()) {
        sum = plus_slope(sum, outs[k], slopes[k], decisions)?;
    }
    Some(sum)
}

/// A cut at the ends of the boxes of the decisions that leave the stage.
fn cut_size(cut: &Cut, outs: &[u32], decisions: &[Decision]) -> Option<Size>
    ensures { AddsSize 0 result (cut_amount decisions.now outs.now cut.now) }
{
    let fixed = Size::zero().plus_product(1, cut.alpha.unsigned_abs())?;
    plus_slopes(fixed, outs, cut.beta.as_slice(), decisions)
}

/// A pair's cut times its multiplier.
fn plus_pair(
    size: Size,
    pair: &(u32, u64),
    cuts: &[Cut],
    outs: &[u32],
    decisions: &[Decision],
) -> Option<Size>
    ensures { AddsSize size.total result (pair_amount decisions.now outs.now cuts.now pair.now) }
{
    let (place, multiplier) = *pair;
    if multiplier == 0 {
        return Some(size);
    }
    match cuts.get(place as usize) {
        Some(cut) => plus_scaled(size, u128::from(multiplier), cut_size(cut, outs, decisions)),
        None => Some(size),
    }
}

/// The pairs of a successor.
fn plus_pairs(
    size: Size,
    pairs: &[(u32, u64)],
    cuts: &[Cut],
    outs: &[u32],
    decisions: &[Decision],
) -> Option<Size>
    ensures { AddsSize size.total result (sum_by (pair_amount decisions.now outs.now cuts.now) pairs.now) }
{
    let mut sum = size;
    for pair in pairs {
        sum = plus_pair(sum, pair, cuts, outs, decisions)?;
    }
    Some(sum)
}

/// The pairs of a successor, by its number.
fn plus_successor(
    size: Size,
    successor: u32,
    pairs: &List<(u32, u64)>,
    pools: &Pools,
    outs: &[u32],
    decisions: &[Decision],
) -> Option<Size>
    requires { successor < length pools.now.lists }
    ensures { AddsSize size.total result (successor_amount decisions.now outs.now pools.now.lists (successor, pairs.now)) }
{
    plus_pairs(
        size,
        pairs.as_slice(),
        pools.cuts(successor as usize),
        outs,
        decisions,
    )
}

/// The pairs of all successors.
pub(super) fn successors_size(
    successors: &[u32],
    pairs: &[List<(u32, u64)>],
    pools: &Pools,
    outs: &[u32],
    decisions: &[Decision],
) -> Option<Size>
    requires known { All (λ m. m < length pools.now.lists) successors.now }
    ensures { AddsSize 0 result (successors_amount decisions.now outs.now pools.now.lists successors.now pairs.now) }
{
    let mut sum = Size::zero();
    for i in 0..successors.len().min(pairs.len()) {
        sum = plus_successor(sum, successors[i], &pairs[i], pools, outs, decisions)?;
    }
    Some(sum)
}
