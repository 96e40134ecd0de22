// The walk over a list of certificates: shapes, signs, pairs and sums, up to the first fault.
ghost use Rattle.std.specs.Prelude.{◌≡◌, ℕ, ◌<◌, ◌≤◌, ◌^◌, ◌==◌, ◌&&◌, List, length, zip, All};
ghost use Rattle.theory.specs.Problem as problems;
ghost use Rattle.theory.specs.declared.cut.Certificate.{Certificate};
ghost use Rattle.theory.specs.View.{successors_of};
ghost use Rattle.theory.specs.Certificates.{multipliers};
ghost use Rattle.theory.specs.Pools.{pool};
ghost use Rattle.cut_make.specs.Within.{IsWithinLimits};
ghost use Rattle.cut_make.specs.Acceptance.{Accepts, or_then_fault, is_shaped, first_unshaped, shape_fault, sign_fault, is_pair, pair_fault, sum_fault, successors_fault, certificates_fault};

use base_num::List;
use cut_make::node_at::NodeAt;
use cut_make::{CertFault, is_sign};
use cut_pool::Pools;
use problem::Row;
use theory::{Certificate, SCALE};

/// Tells whether there is one multiplier per row and one list of pairs per successor.
fn is_shaped(rows: usize, successors: usize, certificate: &Certificate) -> bool
    ensures { result ≡ (length certificate.now.rows == rows) && (length certificate.now.cuts == successors) }
{
    certificate.rows.len() == rows && certificate.cuts.len() == successors
}

fn check_shapes(rows: usize, successors: usize, list: &[Certificate]) -> Result<(), CertFault>
    ghost n: { problems.Node }
    requires rows { rows ≡ length n.rows }
    requires successors { successors ≡ length n.successors }
    requires few { length list.now ≤ 100 }
    ensures { Accepts result (first_unshaped n 0 list.now) }
{
    for (r, certificate) in list.iter().enumerate() {
        if !is_shaped(rows, successors, certificate) {
            return Err(CertFault::Shape {
                realization: r as u32,
            });
        }
    }
    Ok(())
}

/// Checks that there is one certificate per realization, each of its node's shape.
pub(crate) fn check_count(
    count: usize,
    rows: usize,
    successors: usize,
    list: &[Certificate],
) -> Result<(), CertFault>
    ghost n: { problems.Node }
    requires count { count ≡ length n.realizations }
    requires rows { rows ≡ length n.rows }
    requires successors { successors ≡ length n.successors }
    requires few { count ≤ 100 }
    ensures { Accepts result (shape_fault n list.now) }
{
    if list.len() != count {
        return Err(CertFault::Shape {
            realization: list.len().min(count) as u32,
        });
    }
    check_shapes(rows, successors, list)
}

fn check_signs(r: u32, rows: &[Row], multipliers: &[i64]) -> Result<(), CertFault>
    requires lengths { length multipliers.now ≡ length rows.now }
    requires few { length rows.now ≤ 200 }
    ensures { Accepts result (sign_fault r 0 (zip rows.now multipliers.now)) }
{
    for i in 0..rows.len() {
        if !is_sign(&rows[i], multipliers[i]) {
            return Err(CertFault::Sign {
                realization: r,
                row: i as u32,
            });
        }
    }
    Ok(())
}

/// The place is from `least` on and in the pool, and the multiplier is positive.
fn is_pair(least: u64, count: u32, pair: (u32, u64)) -> bool
    ensures { result ≡ is_pair least count pair }
{
    least <= u64::from(pair.0) && pair.0 < count && pair.1 > 0
}

/// The places rise and are in the pool, and the multipliers are positive.
fn check_pairs(r: u32, i: u32, count: u32, pairs: &[(u32, u64)]) -> Result<(), CertFault>
    requires few { count ≤ 2 ^ 24 }
    ensures { Accepts result (pair_fault r i count 0 0 pairs.now) }
{
    let mut least = 0;
    for (e, pair) in pairs.iter().enumerate() {
        if !is_pair(least, count, *pair) {
            return Err(CertFault::Cutless {
                realization: r,
                successor: i,
                entry: e as u32,
            });
        }
        least = u64::from(pair.0) + 1;
    }
    Ok(())
}

/// The sum of the multipliers.
fn multipliers(pairs: &[(u32, u64)]) -> u128
    ensures { result ≡ multipliers pairs.now }
{
    let mut sum = 0;
    for pair in pairs {
        sum += u128::from(pair.1);
    }
    sum
}

/// The multipliers of a successor sum to the scale times its weight.
#[tactic(auto, unfolding(theory::specs::Problem::S))]
fn check_sum(r: u32, i: u32, weight: u32, pairs: &[(u32, u64)]) -> Result<(), CertFault>
    ensures { (node : ℕ) → Accepts result (sum_fault r i (record { node = node; weight = weight }) pairs.now) }
{
    if multipliers(pairs) == u128::from(SCALE) * u128::from(weight) {
        Ok(())
    } else {
        Err(CertFault::Sum {
            realization: r,
            successor: i,
        })
    }
}

/// The pairs of one successor, then their sum.
fn check_successor(
    pools: &Pools,
    r: u32,
    i: u32,
    node: u32,
    weight: u32,
    pairs: &[(u32, u64)],
) -> Result<(), CertFault>
    requires { node < length pools.now.lists }
    ensures { Accepts result (or_then_fault (pair_fault r i (length (pool pools.now.lists node)) 0 0 pairs.now) (sum_fault r i (record { node = node; weight = weight }) pairs.now)) }
{
    check_pairs(r, i, pools.count(node), pairs)?;
    check_sum(r, i, weight, pairs)
}

/// The successors in order.
fn check_successors(
    pools: &Pools,
    r: u32,
    successors: &[u32],
    weights: &[u32],
    cuts: &[List<(u32, u64)>],
) -> Result<(), CertFault>
    requires weights { length weights.now ≡ length successors.now }
    requires cuts { length cuts.now ≡ length successors.now }
    requires few { length successors.now ≤ 2 ^ 16 }
    requires known { All (λ m. m < length pools.now.lists) successors.now }
    ensures { Accepts result (successors_fault pools.now.lists r 0 (zip (successors_of successors.now weights.now) cuts.now)) }
{
    for i in 0..successors.len() {
        check_successor(
            pools,
            r,
            i as u32,
            successors[i],
            weights[i],
            cuts[i].as_slice(),
        )?;
    }
    Ok(())
}

/// The signs of one certificate, then its successors.
fn check_certificate(here: &NodeAt, r: u32, certificate: &Certificate) -> Result<(), CertFault>
    requires shaped { (length certificate.now.rows ≡ length here.now.subproblem.now.rows)
        × (length certificate.now.cuts ≡ length here.now.node.now.successors) }
    requires within { IsWithinLimits (length here.now.pools.now.lists) here.now.node.now here.now.subproblem.now }
    ensures { Accepts result (or_then_fault (sign_fault r 0 (zip here.now.subproblem.now.rows certificate.now.rows))
        (successors_fault here.now.pools.now.lists r 0 (zip (successors_of here.now.node.now.successors here.now.node.now.successor_weights) certificate.now.cuts))) }
{
    check_signs(
        r,
        here.subproblem.rows.as_slice(),
        certificate.rows.as_slice(),
    )?;
    check_successors(
        here.pools,
        r,
        here.node.successors.as_slice(),
        here.node.successor_weights.as_slice(),
        certificate.cuts.as_slice(),
    )
}

/// The certificates in order.
pub(crate) fn check_certificates(here: &NodeAt, list: &[Certificate]) -> Result<(), CertFault>
    ghost n: { problems.Node }
    requires is_rows { n.rows ≡ here.now.subproblem.now.rows }
    requires is_successors { n.successors ≡ successors_of here.now.node.now.successors here.now.node.now.successor_weights }
    requires shaped { All (λ (c : Certificate). (length c.rows ≡ length here.now.subproblem.now.rows)
        × (length c.cuts ≡ length here.now.node.now.successors)) list.now }
    requires list { length list.now ≤ 100 }
    requires within { IsWithinLimits (length here.now.pools.now.lists) here.now.node.now here.now.subproblem.now }
    ensures { Accepts result (certificates_fault here.now.pools.now.lists n 0 list.now) }
{
    for (r, certificate) in list.iter().enumerate() {
        check_certificate(here, r as u32, certificate)?;
    }
    Ok(())
}
