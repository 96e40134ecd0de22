// Cuts that fit, from answers that no solver gave.
ghost use Rattle.std.specs.Prelude.{◌<◌, length, IfOk};
ghost use Rattle.theory.specs.Fit.{CutFits};
ghost use Rattle.theory.specs.Problem.{node_at};
ghost use Rattle.theory.specs.View.{problem_of};
ghost use Rattle.cut_pool.specs.AtNodes.{PoolsFit};

use crate::fault::RowFault;
use crate::stage_answers::answer;
use base_num::{List, Memory};
use cut_check::{accept_into, no_slopes};
use cut_pool::{Cut, Pools, Spares};
use plan_answer::certificate_of_duals;
use problem::Problem;
use std::alloc::Global;
use theory::Certificate;

/// No node gets more cuts.
const MOST_CUTS: u32 = 1 << 20;

/// The certificates of an answer for each of a node's realizations, with all weight on the first cut of each successor.
fn certificates(
    alloc: Global,
    problem: &Problem,
    pools: &Pools,
    node: u32,
    turn: u32,
) -> Result<List<Certificate>, Memory>
    requires known { node < length problem.now.parts.nodes }
    requires fit { PoolsFit problem.now pools.now.lists }
{
    let rows = problem.sub(node).rows.len();
    let answer = answer(alloc, rows, 0, turn)?;
    let mut spares = Spares::new(alloc);
    let mut list = List::new(alloc);
    for _ in problem.node(node).weights.as_slice() {
        let spares = &mut spares;
        list.push(certificate_of_duals(alloc, spares, problem, pools, node, &answer)?)?;
    }
    Ok(list)
}

/// The cut of such certificates.
fn made(
    alloc: Global,
    problem: &Problem,
    pools: &Pools,
    node: u32,
    turn: u32,
) -> Result<Cut, RowFault>
    requires known { node < length problem.now.parts.nodes }
    requires fit { PoolsFit problem.now pools.now.lists }
    ensures { IfOk result (CutFits (node_at (problem_of problem.now) node)) }
{
    let list = certificates(alloc, problem, pools, node, turn)?;
    let mut cut = no_slopes(alloc, problem.parts().states.len())?;
    match accept_into(problem, pools, node, list.as_slice(), &mut cut) {
        Ok(()) => Ok(cut),
        Err(_) => Err(RowFault::Range),
    }
}

/// Puts one cut more into the pool of a node.
#[tactic(auto, using(plan_backward::proofs::Cuts::fit_push))]
fn add_cut(
    alloc: Global,
    problem: &Problem,
    pools: &mut Pools,
    node: u32,
    turn: u32,
) -> Result<(), RowFault>
    requires known { node < length problem.now.parts.nodes }
    requires fit { PoolsFit problem.now pools.old.lists }
    ensures { PoolsFit problem.now pools.new.lists }
{
    if pools.count(node) >= MOST_CUTS {
        return Err(RowFault::Memory);
    }
    let cut = made(alloc, problem, pools, node, turn)?;
    pools.push(node, cut)?;
    Ok(())
}

/// Puts so many cuts more into the pool of a node.
pub fn add_cuts(
    alloc: Global,
    problem: &Problem,
    pools: &mut Pools,
    node: u32,
    count: u32,
) -> Result<(), RowFault>
    requires known { node < length problem.now.parts.nodes }
    requires fit { PoolsFit problem.now pools.old.lists }
    ensures { PoolsFit problem.now pools.new.lists }
{
    for turn in 0..count {
        add_cut(alloc, problem, pools, node, turn)?;
    }
    Ok(())
}
