// The multipliers of a list of certificates by the weights of their realizations, and the greatest numbers of the cuts that
// they stand on.
ghost use Rattle.std.specs.Prelude.{◌≡◌, ◌+◌, ◌*◌, ◌≤◌, ◌<◌, ℕ, List, length, slice_get, nat_abs, zip, All, IfSome};
ghost use Rattle.std.specs.List.{sum_by};
ghost use Rattle.base_num.specs.Sums.{entry};
ghost use Rattle.problem.specs.declared.parts.Decision.{Decision};
ghost use Rattle.cut_make.specs.SizeByTerms.{found_amount, pair_amount, successor_amount, successors_amount};
ghost use Rattle.cut_check.specs.Bounds.{cut_bound, Tallies, weighted_multipliers, weighted_pairs};

use base_num::List;
use cut_make::node_at::NodeAt;
use cut_pool::{Cut, Pools};
use theory::Certificate;

/// Adds up pairs, in any order, and keeps the greatest numbers of their cuts.
#[derive(Clone, Copy)]
pub(super) struct Tally {
    /// The multipliers by the weights of their realizations.
    pub(super) multipliers: u128,
    /// The greatest constant of the cuts.
    pub(super) alpha: u128,
    /// The greatest slope of the cuts.
    pub(super) slope: u128,
}

/// A weight times a multiplier.
fn product(weight: u32, multiplier: u64) -> u128
    ensures { result ≡ weight * multiplier }
{
    u128::from(weight) * u128::from(multiplier)
}

/// The greatest of a number and the absolute values of slopes.
fn greatest_slope(least: u128, slopes: &[i128]) -> u128
    ensures least { least ≤ result }
    ensures slopes { (k : ℕ) → nat_abs (entry slopes.now k) ≤ result }
{
    let mut greatest = least;
    for k in 0..slopes.len() {
        greatest = greatest.max(slopes[k].unsigned_abs());
    }
    greatest
}

impl Tally {
    /// The tally with the numbers of a cut, where there is one at the place.
    fn widened(self, cuts: &[Cut], place: u32) -> Tally
        ensures multipliers { result.multipliers ≡ self.multipliers }
        ensures grown { (ds : List Decision) (outs : List ℕ) → cut_bound ds outs self ≤ cut_bound ds outs result }
        ensures cut { (ds : List Decision) (outs : List ℕ) → found_amount ds outs (slice_get cuts.now place) ≤ cut_bound ds outs result }
    {
        match cuts.get(place as usize) {
            Some(cut) => Tally {
                multipliers: self.multipliers,
                alpha: self.alpha.max(cut.alpha.unsigned_abs()),
                slope: greatest_slope(self.slope, cut.beta.as_slice()),
            },
            None => self,
        }
    }

    /// The tally with a pair.
    fn with_pair(self, weight: u32, pair: &(u32, u64), cuts: &[Cut]) -> Option<Tally>
        ensures { IfSome result (λ after. (ds : List Decision) (outs : List ℕ) → Tallies ds outs self after (weight * pair_amount ds outs cuts.now pair.now)) }
    {
        let (place, multiplier) = *pair;
        let multipliers = self.multipliers.checked_add(product(weight, multiplier))?;
        let widened = self.widened(cuts, place);
        Some(Tally {
            multipliers,
            alpha: widened.alpha,
            slope: widened.slope,
        })
    }

    /// The tally with the pairs of a successor.
    fn with_pairs(self, weight: u32, pairs: &[(u32, u64)], cuts: &[Cut]) -> Option<Tally>
        ensures { IfSome result (λ after. (ds : List Decision) (outs : List ℕ) → Tallies ds outs self after (weight * sum_by (pair_amount ds outs cuts.now) pairs.now)) }
    {
        let mut tally = self;
        for pair in pairs {
            tally = tally.with_pair(weight, pair, cuts)?;
        }
        Some(tally)
    }

    /// The tally with the pairs of a successor, by its number.
    fn with_successor(
        self,
        weight: u32,
        successor: u32,
        pairs: &List<(u32, u64)>,
        pools: &Pools,
    ) -> Option<Tally>
        requires { successor < length pools.now.lists }
        ensures { IfSome result (λ after. (ds : List Decision) (outs : List ℕ) → Tallies ds outs self after (weight * successor_amount ds outs pools.now.lists (successor, pairs.now))) }
    {
        self.with_pairs(weight, pairs.as_slice(), pools.cuts(successor as usize))
    }

    /// The tally with the pairs of all successors.
    fn with_successors(
        self,
        weight: u32,
        successors: &[u32],
        pairs: &[List<(u32, u64)>],
        pools: &Pools,
    ) -> Option<Tally>
        requires known { All (λ m. m < length pools.now.lists) successors.now }
        ensures { IfSome result (λ after. (ds : List Decision) (outs : List ℕ) → Tallies ds outs self after (weight * successors_amount ds outs pools.now.lists successors.now pairs.now)) }
    {
        let mut tally = self;
        for i in 0..successors.len().min(pairs.len()) {
            tally = tally.with_successor(weight, successors[i], &pairs[i], pools)?;
        }
        Some(tally)
    }

    /// The tally with the pairs of a realization's certificate.
    fn with_certificate(
        self,
        weight: u32,
        here: &NodeAt,
        certificate: &Certificate,
    ) -> Option<Tally>
        requires known { All (λ m. m < length here.now.pools.now.lists) here.now.node.now.successors }
        ensures { IfSome result (λ after. (ds : List Decision) (outs : List ℕ) → Tallies ds outs self after (weight * successors_amount ds outs here.now.pools.now.lists here.now.node.now.successors certificate.now.cuts)) }
    {
        self.with_successors(
            weight,
            here.node.successors.as_slice(),
            certificate.cuts.as_slice(),
            here.pools,
        )
    }
}

/// The tally of the pairs of all realizations.
pub(super) fn pairs_tally(here: &NodeAt, list: &[Certificate]) -> Option<Tally>
    requires known { All (λ m. m < length here.now.pools.now.lists) here.now.node.now.successors }
    requires list { length list.now ≡ length here.now.weights.now }
    ensures { IfSome result (λ tally. weighted_pairs here.now.node.now here.now.subproblem.now here.now.pools.now.lists here.now.weights.now list.now
        ≤ tally.multipliers * cut_bound here.now.subproblem.now.decisions here.now.subproblem.now.outs tally) }
{
    let mut tally = Tally {
        multipliers: 0,
        alpha: 0,
        slope: 0,
    };
    for r in 0..here.weights.len() {
        tally = tally.with_certificate(here.weights[r], here, &list[r])?;
    }
    Some(tally)
}

/// A sum with the absolute values of multipliers of rows by the weight of their realization.
fn plus_multipliers(before: u128, weight: u32, multipliers: &[i64]) -> Option<u128>
    ensures { IfSome result (λ after. after ≡ before + weight * sum_by nat_abs multipliers.now) }
{
    let mut sum = before;
    for multiplier in multipliers {
        sum = sum.checked_add(product(weight, multiplier.unsigned_abs()))?;
    }
    Some(sum)
}

/// The absolute values of the multipliers of the rows by the weights of their realizations.
pub(super) fn multipliers_sum(weights: &[u32], list: &[Certificate]) -> Option<u128>
    requires list { length list.now ≡ length weights.now }
    ensures { IfSome result (λ sum. sum ≡ weighted_multipliers weights.now list.now) }
{
    let mut sum = 0;
    for r in 0..weights.len() {
        sum = plus_multipliers(sum, weights[r], list[r].rows.as_slice())?;
    }
    Some(sum)
}
