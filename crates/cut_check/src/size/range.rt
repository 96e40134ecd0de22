// The size of a list of certificates, and where it passes its range.
ghost use Rattle.std.specs.Prelude.{◌≡◌, ◌-◌, ◌^◌, ◌<◌, ◌≤◌, ℕ, ℤ, pos, true, None, ◌-ℤ◌, ◌*ℤ◌, ◌≤ℤ◌, List, length, nat_abs, zip, All, MatchResult};
ghost use Rattle.std.specs.List.{sum_by};
ghost use Rattle.base_num.specs.Sums.{floor_over};
ghost use Rattle.theory.specs.declared.cut.Certificate.{Certificate};
ghost use Rattle.theory.specs.Problem.{with_weights};
ghost use Rattle.theory.specs.View.{node_of};
ghost use Rattle.theory.specs.CutOf.{beta_sum};
ghost use Rattle.theory.specs.Range.{range_of};
ghost use Rattle.cut_make.specs.Parts.{slope_size};
ghost use Rattle.cut_make.specs.Sized.{Sized, Passes, unboxed, remainders_amount};
ghost use Rattle.cut_make.specs.SizeByTerms.{AddsSize, weighted_amount};
ghost use Rattle.cut_make.specs.Tabled.{SumsInRange, Tabled};
ghost use Rattle.cut_check.specs.Pairs.{IsPairsAt, IsPairsBefore};

use super::bound::size_bound;
use super::fixed::{FEW_ROWS, FixedAmounts, write_rows};
use super::stages::{pairs_size, realization_over};
use super::terms::plus_scaled;
use crate::magnitudes::absolute;
use base_num::Size;
use cut_make::node_at::NodeAt;
use cut_make::scales::divisor;
use cut_make::{are_same_cuts, slope_sums};
use problem::{MOST_ROWS, MOST_STATES};
use theory::Certificate;

/// The size of the pairs of a realization's certificate. Where those of the one before are the same, their size is taken over.
fn pairs_at(
    here: &NodeAt,
    list: &[Certificate],
    realization: usize,
    before: Option<Size>,
) -> Option<Size>
    requires known { All (λ m. m < length here.now.pools.now.lists) here.now.node.now.successors }
    requires inside { realization < length list.now }
    requires before { IsPairsBefore here.now.node.now here.now.subproblem.now here.now.pools.now.lists list.now realization before }
    ensures { IsPairsAt here.now.node.now here.now.subproblem.now here.now.pools.now.lists list.now realization result }
{
    let certificate = &list[realization];
    let cuts = certificate.cuts.as_slice();
    if 0 < realization && are_same_cuts(list[realization - 1].cuts.as_slice(), cuts) {
        return before;
    }
    pairs_size(here, certificate)
}

/// The sizes of all realizations by their weights, or the first that brings the sum above 2^127 - 1, by a list with room for the
/// amounts of the rows.
fn realizations_size_by(
    rows: &mut [u128],
    here: &NodeAt,
    list: &[Certificate],
) -> Result<Size, usize>
    requires room { length here.now.subproblem.now.rows ≤ length rows.old }
    requires sized { Sized here.now.pools.now.lists here.now.node.now here.now.subproblem.now here.now.low.now here.now.weights.now }
    requires list { length list.now ≡ length here.now.weights.now }
    ensures { MatchResult result
        (λ size. size.total ≡ sum_by (weighted_amount here.now.node.now here.now.subproblem.now here.now.low.now here.now.high.now here.now.pools.now.lists) (zip here.now.weights.now (zip here.now.node.now.values list.now)))
        (Passes (weighted_amount here.now.node.now here.now.subproblem.now here.now.low.now here.now.high.now here.now.pools.now.lists) (zip here.now.weights.now (zip here.now.node.now.values list.now))) }
{
    let values = here.node.values.as_slice();
    write_rows(here, rows);
    let fixed = FixedAmounts::of(here, rows);
    let mut size = Size::zero();
    let mut pairs = Some(size);
    for r in 0..here.weights.len() {
        pairs = pairs_at(here, list, r, pairs);
        let inner = realization_over(pairs, here, &fixed, values[r].as_slice(), &list[r]);
        let Some(sum) = plus_scaled(size, u128::from(here.weights[r]), inner) else {
            return Err(r);
        };
        size = sum;
    }
    Ok(size)
}

/// The sizes of all realizations by their weights, or the first that brings the sum above 2^127 - 1.
fn realizations_size(here: &NodeAt, list: &[Certificate]) -> Result<Size, usize>
    requires sized { Sized here.now.pools.now.lists here.now.node.now here.now.subproblem.now here.now.low.now here.now.weights.now }
    requires list { length list.now ≡ length here.now.weights.now }
    ensures { MatchResult result
        (λ size. size.total ≡ sum_by (weighted_amount here.now.node.now here.now.subproblem.now here.now.low.now here.now.high.now here.now.pools.now.lists) (zip here.now.weights.now (zip here.now.node.now.values list.now)))
        (Passes (weighted_amount here.now.node.now here.now.subproblem.now here.now.low.now here.now.high.now here.now.pools.now.lists) (zip here.now.weights.now (zip here.now.node.now.values list.now))) }
{
    if here.subproblem.rows.len() <= FEW_ROWS {
        realizations_size_by(&mut [0; FEW_ROWS], here, list)
    } else {
        realizations_size_by(&mut [0; MOST_ROWS], here, list)
    }
}

/// Gives the remainder of a number by a positive divisor.
fn tail(a: i128, d: i128) -> u128
    requires { pos 1 ≤ℤ d }
    ensures { result ≡ nat_abs (a -ℤ pos (nat_abs d) *ℤ floor_over a (nat_abs d)) }
{
    a.rem_euclid(d).unsigned_abs()
}

/// The remainders of the slopes at the lower ends of the box, from B modulo 2^128.
fn plus_remainders(size: Size, here: &NodeAt, sums: &[i128]) -> Option<Size>
    requires sized { Sized here.now.pools.now.lists here.now.node.now here.now.subproblem.now here.now.low.now here.now.weights.now }
    requires table { length sums.now ≡ 50 }
    ensures { (list : List Certificate) → Tabled (beta_sum (unboxed here.now.weights.now here.now.node.now here.now.subproblem.now) list) sums.now
        → ((k : ℕ) → k < length here.now.low.now → slope_size (unboxed here.now.weights.now here.now.node.now here.now.subproblem.now) list k ≤ℤ pos (2 ^ 127 - 1))
        → AddsSize size.total result (remainders_amount here.now.weights.now here.now.node.now here.now.subproblem.now here.now.low.now list) }
{
    let under = divisor(here.node, here.weights);
    let mut sum = size;
    for k in 0..here.low.len() {
        let remainder = tail(sums[k], under);
        sum = sum.plus_product(remainder, absolute(here.low[k]))?;
    }
    Some(sum)
}

/// Gives the number of realizations where the remainders of the slopes bring the sum above 2^127 - 1, and else none. The sizes
/// of the realizations are in range, and B is given modulo 2^128.
pub(crate) fn remainders_range(size: Size, here: &NodeAt, sums: &[i128]) -> Option<usize>
    requires sized { Sized here.now.pools.now.lists here.now.node.now here.now.subproblem.now here.now.low.now here.now.weights.now }
    requires table { length sums.now ≡ 50 }
    ensures { (list : List Certificate) → length list ≡ length here.now.weights.now → Tabled (beta_sum (unboxed here.now.weights.now here.now.node.now here.now.subproblem.now) list) sums.now
        → size.total ≡ sum_by (weighted_amount here.now.node.now here.now.subproblem.now here.now.low.now here.now.high.now here.now.pools.now.lists) (zip here.now.weights.now (zip here.now.node.now.values list))
        → result ≡ range_of here.now.pools.now.lists (with_weights here.now.weights.now (node_of here.now.node.now here.now.subproblem.now here.now.low.now here.now.high.now)) list }
{
    match plus_remainders(size, here, sums) {
        Some(_) => None,
        None => Some(here.weights.len()),
    }
}

/// Tells whether a bound of the size shows that it stays in range, with the remainders of the slopes. B is given modulo 2^128.
fn is_bounded(here: &NodeAt, list: &[Certificate], sums: &[i128]) -> bool
    requires sized { Sized here.now.pools.now.lists here.now.node.now here.now.subproblem.now here.now.low.now here.now.weights.now }
    requires list { length list.now ≡ length here.now.weights.now }
    requires count { length sums.now ≡ 50 }
    requires table { Tabled (beta_sum (unboxed here.now.weights.now here.now.node.now here.now.subproblem.now) list.now) sums.now }
    ensures { result ≡ true → range_of here.now.pools.now.lists (with_weights here.now.weights.now (node_of here.now.node.now here.now.subproblem.now here.now.low.now here.now.high.now)) list.now ≡ None }
{
    match size_bound(here, list) {
        Some(size) => plus_remainders(size, here, sums).is_some(),
        None => false,
    }
}

/// B modulo 2^128 where the size of a list of certificates with given weights stays in range. Else the realization at
/// which it passes 2^127 - 1: the least such that the terms of the realizations up to it do, or their number where only
/// the remainders of the slopes bring it there.
pub(crate) fn sums_in_range(
    here: &NodeAt,
    list: &[Certificate],
) -> Result<[i128; MOST_STATES], usize>
    requires sized { Sized here.now.pools.now.lists here.now.node.now here.now.subproblem.now here.now.low.now here.now.weights.now }
    requires list { length list.now ≡ length here.now.weights.now }
    ensures { SumsInRange here.now.weights.now here.now.node.now here.now.subproblem.now list.now (range_of here.now.pools.now.lists (with_weights here.now.weights.now (node_of here.now.node.now here.now.subproblem.now here.now.low.now here.now.high.now)) list.now) result }
{
    let sums = slope_sums(here, list);
    if is_bounded(here, list, &sums) {
        return Ok(sums);
    }
    let size = match realizations_size(here, list) {
        Ok(size) => size,
        Err(realization) => return Err(realization),
    };
    match remainders_range(size, here, &sums) {
        Some(realization) => Err(realization),
        None => Ok(sums),
    }
}
