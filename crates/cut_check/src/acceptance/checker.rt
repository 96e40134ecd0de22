// The checker: whether a list of certificates is accepted at a node.
ghost use Rattle.std.specs.Prelude.{◌≡◌, ◌<◌, ◌≤◌, ◌-◌, ◌^◌, pos, ◌≤ℤ◌, List, None, length, All, sum};
ghost use Rattle.theory.specs.Problem as problems;
ghost use Rattle.theory.specs.Problem.{node_at, with_weights};
ghost use Rattle.theory.specs.View.{node_of, problem_of};
ghost use Rattle.theory.specs.declared.cut.Cut.{Cut};
ghost use Rattle.theory.specs.declared.cut.Certificate.{Certificate};
ghost use Rattle.theory.specs.Pools.{pool};
ghost use Rattle.theory.specs.Certificates.{Right};
ghost use Rattle.theory.specs.CutOf.{divisor};
ghost use Rattle.theory.specs.Size.{size_of};
ghost use Rattle.theory.specs.Range.{range_of};
ghost use Rattle.theory.specs.Base.{base_list};
ghost use Rattle.theory.specs.Fit.{FitFor};
ghost use Rattle.cut_make.specs.Sized.{Sized};
ghost use Rattle.cut_make.specs.Acceptance.{right_fault, range_fault, fault_of, Accepts};
ghost use Rattle.cut_make.specs.Tabled.{SumsInRange};

use super::walk::{check_certificates, check_count};
use crate::size::sums_in_range;
use cut_make::CertFault;
use cut_make::node_at::NodeAt;
use cut_pool::Pools;
use problem::{MOST_STATES, Problem};
use theory::Certificate;

/// B modulo 2^128 where the size stays in range, else the realization at which it does not.
pub(super) fn range_sums(here: &NodeAt, list: &[Certificate]) -> Result<[i128; MOST_STATES], u32>
    requires sized { Sized here.now.pools.now.lists here.now.node.now here.now.subproblem.now here.now.low.now here.now.weights.now }
    requires list { length list.now ≡ length here.now.weights.now }
    ensures { SumsInRange here.now.weights.now here.now.node.now here.now.subproblem.now list.now (range_of here.now.pools.now.lists (with_weights here.now.weights.now (node_of here.now.node.now here.now.subproblem.now here.now.low.now here.now.high.now)) list.now) result }
{
    match sums_in_range(here, list) {
        Ok(sums) => Ok(sums),
        Err(realization) => Err(realization as u32),
    }
}

/// The size stays in range.
fn check_range(here: &NodeAt, list: &[Certificate]) -> Result<(), CertFault>
    requires sized { Sized here.now.pools.now.lists here.now.node.now here.now.subproblem.now here.now.low.now here.now.weights.now }
    requires list { length list.now ≡ length here.now.weights.now }
    ensures { Accepts result (range_fault here.now.pools.now.lists (with_weights here.now.weights.now (node_of here.now.node.now here.now.subproblem.now here.now.low.now here.now.high.now)) list.now) }
{
    match range_sums(here, list) {
        Ok(_) => Ok(()),
        Err(realization) => Err(CertFault::Range { realization }),
    }
}

/// The first fault before the size: shapes, then signs, pairs and sums by realization.
pub(crate) fn check_right(here: &NodeAt, list: &[Certificate]) -> Result<(), CertFault>
    ghost n: { problems.Node }
    requires is { n ≡ with_weights here.now.weights.now (node_of here.now.node.now here.now.subproblem.now here.now.low.now here.now.high.now) }
    requires sized { Sized here.now.pools.now.lists here.now.node.now here.now.subproblem.now here.now.low.now here.now.weights.now }
    ensures { Accepts result (right_fault here.now.pools.now.lists n list.now) }
{
    check_count(
        here.weights.len(),
        here.subproblem.rows.len(),
        here.node.successors.len(),
        list,
    )?;
    check_certificates(here, list)
}

/// The first fault over the parts of a node.
fn check(here: &NodeAt, list: &[Certificate]) -> Result<(), CertFault>
    ghost n: { problems.Node }
    requires is { n ≡ with_weights here.now.weights.now (node_of here.now.node.now here.now.subproblem.now here.now.low.now here.now.high.now) }
    requires sized { Sized here.now.pools.now.lists here.now.node.now here.now.subproblem.now here.now.low.now here.now.weights.now }
    ensures { Accepts result (fault_of here.now.pools.now.lists n list.now) }
{
    check_right(here, list)?;
    check_range(here, list)
}

/// Tells whether a list of certificates is accepted at a node, with given weights in place of the realizations' own: Ok, or the
/// first fault.
///
/// The list has one certificate per realization. There is one weight per realization, each at least 1, of at most 65,535
/// together. No memory is taken.
pub fn accept_with(
    problem: &Problem,
    pools: &Pools,
    node: u32,
    weights: &[u32],
    list: &[Certificate],
) -> Result<(), CertFault>
    requires known { node < length problem.now.parts.nodes }
    requires fit { FitFor (problem_of problem.now) (length problem.now.parts.nodes) pools.now.lists node }
    requires count { length weights.now ≡ length (node_at (problem_of problem.now) node).realizations }
    requires positive { All (λ w. 1 ≤ w) weights.now }
    requires total { sum weights.now ≤ 65535 }
    ensures { Accepts result (fault_of pools.now.lists (with_weights weights.now (node_at (problem_of problem.now) node)) list.now) }
{
    let here = NodeAt::of(problem, pools, node, weights);
    check(&here, list)
}

/// The meaning of acceptance: an accepted list is right and its size is in range, and such a list is accepted. The base
/// certificates of a node whose successors have cuts are accepted, unless their size passes its range.
pub fn acceptance()
    ensures right { (pools : List (List Cut)) (n : problems.Node) (list : List Certificate)
        → fault_of pools n list ≡ None → Right pools n list }
    ensures size { (pools : List (List Cut)) (n : problems.Node) (list : List Certificate)
        → fault_of pools n list ≡ None → size_of pools n list ≤ℤ pos (2 ^ 127 - 1) }
    ensures accepted { (pools : List (List Cut)) (n : problems.Node) (list : List Certificate)
        → 0 < divisor n → Right pools n list → size_of pools n list ≤ℤ pos (2 ^ 127 - 1)
        → fault_of pools n list ≡ None }
    ensures base { (pools : List (List Cut)) (n : problems.Node)
        → All (λ (l : problems.Successor). (0 < l.weight) × (0 < length (pool pools l.node))) n.successors
        → fault_of pools n (base_list n) ≡ range_fault pools n (base_list n) }
{}
