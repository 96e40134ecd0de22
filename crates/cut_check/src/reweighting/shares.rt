// The shares of a list of certificates, which no weight changes.
ghost use Rattle.std.specs.Prelude.{◌≡◌, ◌^◌, ◌<◌, ◌≤◌, List, [], length, min, sum, All, IfOk};
ghost use Rattle.theory.specs.declared.cut.Certificate.{Certificate};
ghost use Rattle.theory.specs.CutOf.{scale};
ghost use Rattle.theory.specs.View.{node_of};
ghost use Rattle.cut_make.specs.Congruent.{Congruent};
ghost use Rattle.cut_make.specs.Parts.{Limited, PairsThere, constant_at_scale};
ghost use Rattle.cut_check.specs.Shares.{Shares};
ghost use Rattle.cut_make.specs.Sized.{Sized};
ghost use Rattle.cut_make.specs.SizeByTerms.{Fixed, certificate_amount};

use crate::size::{FEW_ROWS, FixedAmounts, realization_size, write_rows};
use base_num::{List, Memory};
use cut_make::node_at::NodeAt;
use cut_make::scales::scale;
use cut_make::{constant_over, fixed_constant};
use problem::MOST_ROWS;
use std::alloc::Global;
use theory::Certificate;

/// The share of a realization's certificate, which its weight does not change.
#[derive(Clone, Copy)]
pub struct Share {
    /// All its terms in absolute value, 2^127 where they are more.
    pub size: u128,
    /// A_r modulo 2^128 where the size is below 2^127, else 0.
    pub constant: i128,
}

fn share_of(here: &NodeAt, fixed: &FixedAmounts, values: &[i64], certificate: &Certificate) -> Share
    requires limits { Limited here.now.node.now here.now.subproblem.now }
    requires sized { Sized here.now.pools.now.lists here.now.node.now here.now.subproblem.now here.now.low.now here.now.weights.now }
    requires there { PairsThere here.now.pools.now.lists here.now.node.now.successors certificate.now.cuts }
    requires fixed { Fixed here.now.subproblem.now here.now.low.now here.now.high.now fixed.now.rows.now fixed.now.costs }
    requires values { length values.now ≡ length here.now.subproblem.now.randoms }
    ensures size { result.size ≡ min (certificate_amount here.now.node.now here.now.subproblem.now here.now.low.now here.now.high.now here.now.pools.now.lists (values.now, certificate.now)) (2 ^ 127) }
    ensures constant { result.size < 2 ^ 127 → Congruent result.constant (constant_at_scale (scale (node_of here.now.node.now here.now.subproblem.now [] [])) here.now.pools.now.lists here.now.node.now here.now.subproblem.now values.now certificate.now) }
{
    let Some(size) = realization_size(here, fixed, values, certificate) else {
        return Share {
            size: 1 << 127,
            constant: 0,
        };
    };
    let scale = scale(here.node);
    let fixed = fixed_constant(scale, here, certificate);
    let constant = constant_over(fixed, scale, here, values, certificate);
    Share {
        size: size.total(),
        constant,
    }
}

/// The shares of all realizations, by a list with room for the amounts of the rows.
fn shares_by(
    alloc: Global,
    rows: &mut [u128],
    here: &NodeAt,
    list: &[Certificate],
) -> Result<List<Share>, Memory>
    requires limits { Limited here.now.node.now here.now.subproblem.now }
    requires sized { Sized here.now.pools.now.lists here.now.node.now here.now.subproblem.now here.now.low.now here.now.weights.now }
    requires there { All (λ (c : Certificate). PairsThere here.now.pools.now.lists here.now.node.now.successors c.cuts) list.now }
    requires list { length list.now ≡ length here.now.node.now.values }
    requires room { length here.now.subproblem.now.rows ≤ length rows.old }
    ensures { IfOk result (Shares here.now.pools.now.lists here.now.node.now here.now.subproblem.now here.now.low.now here.now.high.now list.now) }
{
    let values = here.node.values.as_slice();
    write_rows(here, rows);
    let fixed = FixedAmounts::of(here, rows);
    let mut found = List::new(alloc);
    for r in 0..list.len() {
        found.push(share_of(here, &fixed, values[r].as_slice(), &list[r]))?;
    }
    Ok(found)
}

/// The shares of all realizations.
pub(super) fn all_shares(
    alloc: Global,
    here: &NodeAt,
    list: &[Certificate],
) -> Result<List<Share>, Memory>
    requires limits { Limited here.now.node.now here.now.subproblem.now }
    requires sized { Sized here.now.pools.now.lists here.now.node.now here.now.subproblem.now here.now.low.now here.now.weights.now }
    requires there { All (λ (c : Certificate). PairsThere here.now.pools.now.lists here.now.node.now.successors c.cuts) list.now }
    requires list { length list.now ≡ length here.now.node.now.values }
    ensures { IfOk result (Shares here.now.pools.now.lists here.now.node.now here.now.subproblem.now here.now.low.now here.now.high.now list.now) }
{
    if here.subproblem.rows.len() <= FEW_ROWS {
        shares_by(alloc, &mut [0; FEW_ROWS], here, list)
    } else {
        shares_by(alloc, &mut [0; MOST_ROWS], here, list)
    }
}
