// Where the size of a certificate that all realizations of a node have passes the range.
ghost use Rattle.std.specs.Prelude.{◌≡◌, ◌≤◌, length, zip, MatchResult};
ghost use Rattle.std.specs.List.{sum_by};
ghost use Rattle.theory.specs.Problem.{with_weights};
ghost use Rattle.theory.specs.View.{node_of};
ghost use Rattle.theory.specs.Range.{range_of};
ghost use Rattle.cut_make.specs.Parts.{repeated};
ghost use Rattle.cut_make.specs.Sized.{Sized, Passes};
ghost use Rattle.cut_make.specs.SizeByTerms.{weighted_amount};

use super::fixed::{FEW_ROWS, FixedAmounts, write_rows};
use super::range::remainders_range;
use super::stages::{pairs_size, realization_over};
use super::terms::plus_scaled;
use base_num::Size;
use cut_make::node_at::NodeAt;
use cut_make::repeated_slope_sums;
use problem::MOST_ROWS;
use theory::Certificate;

/// The sizes of all realizations by their weights, or the first that brings the sum above 2^127 - 1, by a list with room for the
/// amounts of the rows.
fn realizations_size_by(
    rows: &mut [u128],
    here: &NodeAt,
    certificate: &Certificate,
) -> Result<Size, usize>
    requires room { length here.now.subproblem.now.rows ≤ length rows.old }
    requires sized { Sized here.now.pools.now.lists here.now.node.now here.now.subproblem.now here.now.low.now here.now.weights.now }
    ensures { MatchResult result
        (λ size. size.total ≡ sum_by (weighted_amount here.now.node.now here.now.subproblem.now here.now.low.now here.now.high.now here.now.pools.now.lists) (zip here.now.weights.now (zip here.now.node.now.values (repeated certificate.now here.now.weights.now))))
        (Passes (weighted_amount here.now.node.now here.now.subproblem.now here.now.low.now here.now.high.now here.now.pools.now.lists) (zip here.now.weights.now (zip here.now.node.now.values (repeated certificate.now here.now.weights.now)))) }
{
    let values = here.node.values.as_slice();
    let pairs = pairs_size(here, certificate);
    write_rows(here, rows);
    let fixed = FixedAmounts::of(here, rows);
    let mut size = Size::zero();
    for r in 0..here.weights.len() {
        let inner = realization_over(pairs, here, &fixed, values[r].as_slice(), certificate);
        match plus_scaled(size, u128::from(here.weights[r]), inner) {
            Some(sum) => size = sum,
            None => return Err(r),
        }
    }
    Ok(size)
}

/// The sizes of all realizations by their weights, or the first that brings the sum above 2^127 - 1.
fn realizations_size(here: &NodeAt, certificate: &Certificate) -> Result<Size, usize>
    requires sized { Sized here.now.pools.now.lists here.now.node.now here.now.subproblem.now here.now.low.now here.now.weights.now }
    ensures { MatchResult result
        (λ size. size.total ≡ sum_by (weighted_amount here.now.node.now here.now.subproblem.now here.now.low.now here.now.high.now here.now.pools.now.lists) (zip here.now.weights.now (zip here.now.node.now.values (repeated certificate.now here.now.weights.now))))
        (Passes (weighted_amount here.now.node.now here.now.subproblem.now here.now.low.now here.now.high.now here.now.pools.now.lists) (zip here.now.weights.now (zip here.now.node.now.values (repeated certificate.now here.now.weights.now)))) }
{
    if here.subproblem.rows.len() <= FEW_ROWS {
        realizations_size_by(&mut [0; FEW_ROWS], here, certificate)
    } else {
        realizations_size_by(&mut [0; MOST_ROWS], here, certificate)
    }
}

/// The realization at which the size of a certificate that all realizations have passes 2^127 - 1, as of a list. Its
/// pairs are read once.
pub(crate) fn repeated_range(here: &NodeAt, certificate: &Certificate) -> Option<usize>
    requires sized { Sized here.now.pools.now.lists here.now.node.now here.now.subproblem.now here.now.low.now here.now.weights.now }
    ensures { result ≡ range_of here.now.pools.now.lists (with_weights here.now.weights.now (node_of here.now.node.now here.now.subproblem.now here.now.low.now here.now.high.now)) (repeated certificate.now here.now.weights.now) }
{
    match realizations_size(here, certificate) {
        Err(realization) => Some(realization),
        Ok(size) => remainders_range(size, here, &repeated_slope_sums(here, certificate)),
    }
}
