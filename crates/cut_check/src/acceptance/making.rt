// Acceptance of a list of certificates and its cut in one go.
ghost use Rattle.std.specs.Prelude.{◌≡◌, ◌<◌, None, Some, length, IfOk, MatchResult};
ghost use Rattle.theory.specs.Problem as problems;
ghost use Rattle.theory.specs.Problem.{node_at, with_weights};
ghost use Rattle.theory.specs.View.{node_of, problem_of};
ghost use Rattle.theory.specs.CutOf.{beta_sum, cut_of};
ghost use Rattle.theory.specs.Certificates.{Right};
ghost use Rattle.theory.specs.Range.{range_of};
ghost use Rattle.theory.specs.Fit.{CutFits, FitFor};
ghost use Rattle.theory.specs.Pools.{Holds, Sound};
ghost use Rattle.cut_make.specs.Acceptance.{fault_of, Accepts};
ghost use Rattle.cut_make.specs.Parts.{Cuttable, Limited};
ghost use Rattle.cut_make.specs.Sized.{Sized, unboxed};
ghost use Rattle.cut_make.specs.Tabled.{Tabled};

use super::checker::{check_right, range_sums};
use cut_make::node_at::{NodeAt, own_weights};
use cut_make::{CertFault, constant_sum, write_cut_of};
use cut_pool::{Cut, Pools};
use problem::Problem;
use theory::Certificate;

/// Writes the cut of right certificates, whose size is in range, from B modulo 2^128.
fn write_by_sums(here: &NodeAt, list: &[Certificate], sums: &[i128], cut: &mut Cut)
    requires made { Cuttable here.now.pools.now.lists here.now.node.now here.now.subproblem.now here.now.low.now here.now.weights.now list.now }
    requires table { length sums.now ≡ 50 }
    requires sums { Tabled (beta_sum (unboxed here.now.weights.now here.now.node.now here.now.subproblem.now) list.now) sums.now }
    requires slopes { length cut.old.beta ≡ length here.now.low.now }
    ensures { cut.new ≡ cut_of here.now.pools.now.lists (with_weights here.now.weights.now (node_of here.now.node.now here.now.subproblem.now here.now.low.now here.now.high.now)) list.now }
{
    write_cut_of(here, constant_sum(here, list), sums, cut);
}

/// Writes the cut of right certificates over the parts of a node, unless their size passes its range: Err is then the realization
/// at which it does.
fn write_in_range(here: &NodeAt, list: &[Certificate], cut: &mut Cut) -> Result<(), u32>
    ghost n: { problems.Node }
    requires is { n ≡ with_weights here.now.weights.now (node_of here.now.node.now here.now.subproblem.now here.now.low.now here.now.high.now) }
    requires limits { Limited here.now.node.now here.now.subproblem.now }
    requires sized { Sized here.now.pools.now.lists here.now.node.now here.now.subproblem.now here.now.low.now here.now.weights.now }
    requires states { length here.now.low.now ≡ length here.now.subproblem.now.state_costs }
    requires right { Right here.now.pools.now.lists n list.now }
    requires slopes { length cut.old.beta ≡ length here.now.low.now }
    ensures range { MatchResult result
        (λ u. range_of here.now.pools.now.lists n list.now ≡ None)
        (λ r. range_of here.now.pools.now.lists n list.now ≡ Some r) }
    ensures value { IfOk result (λ u. cut.new ≡ cut_of here.now.pools.now.lists n list.now) }
    ensures slopes { length cut.new.beta ≡ length cut.old.beta }
{
    let sums = range_sums(here, list)?;
    write_by_sums(here, list, &sums, cut);
    Ok(())
}

/// Tells whether a list is accepted over the parts of a node; where it is, its cut is written.
fn accept_at(here: &NodeAt, list: &[Certificate], cut: &mut Cut) -> Result<(), CertFault>
    ghost n: { problems.Node }
    requires is { n ≡ with_weights here.now.weights.now (node_of here.now.node.now here.now.subproblem.now here.now.low.now here.now.high.now) }
    requires limits { Limited here.now.node.now here.now.subproblem.now }
    requires sized { Sized here.now.pools.now.lists here.now.node.now here.now.subproblem.now here.now.low.now here.now.weights.now }
    requires states { length here.now.low.now ≡ length here.now.subproblem.now.state_costs }
    requires slopes { length cut.old.beta ≡ length here.now.low.now }
    ensures accepted { Accepts result (fault_of here.now.pools.now.lists n list.now) }
    ensures value { IfOk result (λ u. cut.new ≡ cut_of here.now.pools.now.lists n list.now) }
    ensures slopes { length cut.new.beta ≡ length cut.old.beta }
{
    check_right(here, list)?;
    match write_in_range(here, list, cut) {
        Ok(()) => Ok(()),
        Err(realization) => Err(CertFault::Range { realization }),
    }
}

/// Tells whether a list of certificates is accepted at a node, with its realizations' own weights: Ok, or the first fault. Writes
/// the cut of an accepted list (Neumaier and Shcherbina 2004), with one rounding, downwards over the node's box; over sound pools
/// it holds. The sums that its slopes come of are taken once for both.
///
/// The list has one certificate per realization. No memory is taken.
pub fn accept_into(
    problem: &Problem,
    pools: &Pools,
    node: u32,
    list: &[Certificate],
    cut: &mut Cut,
) -> Result<(), CertFault>
    requires known { node < length problem.now.parts.nodes }
    requires fit { FitFor (problem_of problem.now) (length problem.now.parts.nodes) pools.now.lists node }
    requires slopes { length cut.old.beta ≡ length problem.now.parts.states }
    ensures accepted { Accepts result (fault_of pools.now.lists (node_at (problem_of problem.now) node) list.now) }
    ensures value { IfOk result (λ u. cut.new ≡ cut_of pools.now.lists (node_at (problem_of problem.now) node) list.now) }
    ensures fits { IfOk result (λ u. CutFits (node_at (problem_of problem.now) node) cut.new) }
    ensures holds { IfOk result (λ u. Sound (problem_of problem.now) pools.now.lists → Holds (problem_of problem.now) node cut.new) }
    ensures slopes { length cut.new.beta ≡ length cut.old.beta }
{
    let here = NodeAt::of(problem, pools, node, own_weights(problem, node));
    accept_at(&here, list, cut)
}

/// Writes the cut of a list of right certificates at a node, with its realizations' own weights, unless their size passes
/// 2^127 - 1. Err is then the realization at which it does, or the number of realizations where only the remainders of the slopes
/// bring it there. Where `accept_into` accepts the list, the cut is the one that it writes; the certificates' signs, pairs and sums
/// are not looked at again.
///
/// No memory is taken.
pub fn write_cut_in_range(
    problem: &Problem,
    pools: &Pools,
    node: u32,
    list: &[Certificate],
    cut: &mut Cut,
) -> Result<(), u32>
    requires known { node < length problem.now.parts.nodes }
    requires fit { FitFor (problem_of problem.now) (length problem.now.parts.nodes) pools.now.lists node }
    requires right { Right pools.now.lists (node_at (problem_of problem.now) node) list.now }
    requires slopes { length cut.old.beta ≡ length problem.now.parts.states }
    ensures range { MatchResult result
        (λ u. range_of pools.now.lists (node_at (problem_of problem.now) node) list.now ≡ None)
        (λ r. range_of pools.now.lists (node_at (problem_of problem.now) node) list.now ≡ Some r) }
    ensures value { IfOk result (λ u. cut.new ≡ cut_of pools.now.lists (node_at (problem_of problem.now) node) list.now) }
    ensures fits { IfOk result (λ u. CutFits (node_at (problem_of problem.now) node) cut.new) }
    ensures holds { IfOk result (λ u. Sound (problem_of problem.now) pools.now.lists → Holds (problem_of problem.now) node cut.new) }
    ensures slopes { length cut.new.beta ≡ length cut.old.beta }
{
    let here = NodeAt::of(problem, pools, node, own_weights(problem, node));
    write_in_range(&here, list, cut)
}
