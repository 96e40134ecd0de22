// The cut of a list of certificates with each of several lists of weights.
ghost use Rattle.std.specs.Prelude.{◌≡◌, ◌<◌, ◌≤◌, List, length, map, All, IfOk, IfSome, None, Option};
ghost use Rattle.theory.specs.declared.cut.Cut.{Cut};
ghost use Rattle.theory.specs.Problem as problems;
ghost use Rattle.theory.specs.Problem.{node_at, with_weights};
ghost use Rattle.theory.specs.View.{node_of, problem_of};
ghost use Rattle.theory.specs.Fit.{CutFits, FitFor};
ghost use Rattle.cut_make.specs.Acceptance.{right_fault};
ghost use Rattle.cut_make.specs.Parts.{Limited};
ghost use Rattle.cut_make.specs.Reweighting.{Weighs, cut_with};
ghost use Rattle.cut_check.specs.Shares.{Shares, SharesAt, SharesOf};
ghost use Rattle.cut_make.specs.Sized.{Sized};

use super::shares::{Share, all_shares};
use super::weighted::weighted_sums;
use crate::acceptance::checker::check_right;
use crate::base_pools::no_slopes;
use crate::size::remainders_range;
use base_num::{List, Memory};
use cut_make::node_at::{NodeAt, own_weights};
use cut_make::{slope_sums, write_cut_of};
use cut_pool::{Cut, Pools};
use problem::Problem;
use std::alloc::Global;
use theory::Certificate;

/// The shares of a list of certificates, where nothing but its size may be at fault; none where something else is.
fn shares_of(
    alloc: Global,
    here: &NodeAt,
    list: &[Certificate],
) -> Result<Option<List<Share>>, Memory>
    ghost n: { problems.Node }
    requires is { n ≡ with_weights here.now.weights.now (node_of here.now.node.now here.now.subproblem.now here.now.low.now here.now.high.now) }
    requires limits { Limited here.now.node.now here.now.subproblem.now }
    requires sized { Sized here.now.pools.now.lists here.now.node.now here.now.subproblem.now here.now.low.now here.now.weights.now }
    ensures { IfOk result (SharesOf here.now.pools.now.lists here.now.node.now here.now.subproblem.now here.now.low.now here.now.high.now n list.now) }
{
    match check_right(here, list) {
        Ok(()) => Ok(Some(all_shares(alloc, here, list)?)),
        Err(_) => Ok(None),
    }
}

/// The cut by these shares, where the size of the certificates is in range.
fn cut_by(
    alloc: Global,
    here: &NodeAt,
    list: &[Certificate],
    shares: &[Share],
) -> Result<Option<Cut>, Memory>
    requires limits { Limited here.now.node.now here.now.subproblem.now }
    requires sized { Sized here.now.pools.now.lists here.now.node.now here.now.subproblem.now here.now.low.now here.now.weights.now }
    requires states { length here.now.low.now ≡ length here.now.subproblem.now.state_costs }
    requires right { right_fault here.now.pools.now.lists (with_weights here.now.weights.now (node_of here.now.node.now here.now.subproblem.now here.now.low.now here.now.high.now)) list.now ≡ None }
    requires shares { Shares here.now.pools.now.lists here.now.node.now here.now.subproblem.now here.now.low.now here.now.high.now list.now shares.now }
    ensures { IfOk result (λ cut. cut ≡ cut_with here.now.pools.now.lists (node_of here.now.node.now here.now.subproblem.now here.now.low.now here.now.high.now) list.now here.now.weights.now) }
{
    let Ok(sums) = weighted_sums(here, shares) else {
        return Ok(None);
    };
    let slopes = slope_sums(here, list);
    if remainders_range(sums.size, here, &slopes).is_some() {
        return Ok(None);
    }
    let mut cut = no_slopes(alloc, here.low.len())?;
    write_cut_of(here, sums.constant(), &slopes, &mut cut);
    Ok(Some(cut))
}

/// The cut with these weights, where the certificates are accepted with them.
fn cut_with(
    alloc: Global,
    problem: &Problem,
    pools: &Pools,
    node: u32,
    weights: &[u32],
    list: &[Certificate],
    shares: &Option<List<Share>>,
) -> Result<Option<Cut>, Memory>
    requires known { node < length problem.now.parts.nodes }
    requires fit { FitFor (problem_of problem.now) (length problem.now.parts.nodes) pools.now.lists node }
    requires weighs { Weighs (node_at (problem_of problem.now) node) weights.now }
    requires shares { SharesAt problem.now node pools.now.lists list.now shares.now }
    ensures { IfOk result (λ cut. cut ≡ cut_with pools.now.lists (node_at (problem_of problem.now) node) list.now weights.now) }
{
    let here = NodeAt::of(problem, pools, node, weights);
    let Some(shares) = shares else {
        return Ok(None);
    };
    cut_by(alloc, &here, list, shares.as_slice())
}

/// The shares of a list of certificates at a node.
fn shares_at(
    alloc: Global,
    problem: &Problem,
    pools: &Pools,
    node: u32,
    list: &[Certificate],
) -> Result<Option<List<Share>>, Memory>
    requires known { node < length problem.now.parts.nodes }
    requires fit { FitFor (problem_of problem.now) (length problem.now.parts.nodes) pools.now.lists node }
    ensures { IfOk result (SharesAt problem.now node pools.now.lists list.now) }
{
    let here = NodeAt::of(problem, pools, node, own_weights(problem, node));
    shares_of(alloc, &here, list)
}

/// The cut of a list of certificates with each of several lists of weights in place of the realizations' own, in order;
/// none where it is not accepted with them. The part that no weight changes is computed once.
///
/// Each list has one weight per realization, each at least 1, of at most 65,535 together.
pub fn make_each(
    alloc: Global,
    problem: &Problem,
    pools: &Pools,
    node: u32,
    lists: &[List<u32>],
    list: &[Certificate],
) -> Result<List<Option<Cut>>, Memory>
    requires known { node < length problem.now.parts.nodes }
    requires fit { FitFor (problem_of problem.now) (length problem.now.parts.nodes) pools.now.lists node }
    requires weighs { All (Weighs (node_at (problem_of problem.now) node)) lists.now }
    ensures value { IfOk result (λ cuts. cuts ≡ map (cut_with pools.now.lists (node_at (problem_of problem.now) node) list.now) lists.now) }
    ensures fits { IfOk result (λ cuts. All (λ (cut : Option Cut). IfSome cut (CutFits (node_at (problem_of problem.now) node))) cuts) }
{
    let _ = problem.parts();
    let shares = shares_at(alloc, problem, pools, node, list)?;
    let mut found = List::new(alloc);
    for weights in lists {
        let weights = weights.as_slice();
        found.push(cut_with(alloc, problem, pools, node, weights, list, &shares)?)?;
    }
    Ok(found)
}
