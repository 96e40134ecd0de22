// Iterations of training from the base cuts.
ghost use Rattle.std.specs.Prelude.{◌≡◌, ◌≤◌, ◌^◌, ℕ, true, length, IfOk};
ghost use Rattle.theory.specs.Pools.{pool};
ghost use Rattle.cut_pool.specs.AtNodes.{PoolsFit};

use crate::fault::RowFault;
use crate::lines::{push_fault, push_sums};
use base_num::List;
use cut_check::base;
use cut_pool::{Entry, Pools, Spares};
use lp_program::Solver;
use plan_answer::PlanFault;
use plan_stage::{Planner, Workspace, prepare};
use plan_train::{Draw, iteration};
use problem::Problem;
use std::alloc::Global;
use std::thread::Threads;

/// The iterations that are trained.
#[derive(Clone, Copy)]
pub struct Plan {
    pub seed: u64,
    /// The paths of an iteration.
    pub batch: u16,
    /// The number of iterations.
    pub count: u32,
}

/// Tells whether no node has more than 2^23 cuts.
fn has_room(pools: &Pools) -> bool
    ensures { result ≡ true → (m : ℕ) → length (pool pools.now.lists m) ≤ 2 ^ 23 }
{
    for node in 0..pools.nodes() {
        if pools.cuts(node).len() > 1 << 23 {
            return false;
        }
    }
    true
}

/// Takes one more iteration, over pools with room for it.
fn step<R: Threads + Sync, V: Solver>(
    rt: &R,
    work: &mut Workspace<V>,
    planner: &Planner<V>,
    pools: &mut Pools,
    draw: Draw,
) -> Result<List<Entry>, PlanFault>
    requires fit { PoolsFit planner.now.problem.now pools.old.lists }
    ensures fit { PoolsFit planner.now.problem.now pools.new.lists }
{
    let draw = Draw {
        seed: draw.seed,
        batch: draw.batch.clamp(1, 64),
        iteration: draw.iteration.clamp(1, 2000),
    };
    if !has_room(pools) {
        return Err(PlanFault::Memory);
    }
    iteration(rt, work, planner, pools, draw)
}

/// Appends how many programs an iteration solved, or the node without decisions that stopped it. The memory of the entries is kept.
fn push_step(
    text: &mut String,
    spares: &mut Spares,
    stepped: Result<List<Entry>, PlanFault>,
) -> Result<(), RowFault> {
    match stepped {
        Ok(entries) => {
            push_sums(text, entries.as_slice())?;
            spares.give_back(entries);
            Ok(())
        }
        Err(fault) => push_fault(text, fault),
    }
}

/// Takes the iterations of a plan, one after another, and appends what is told of them to the text.
pub fn steps<R: Threads + Sync, V: Solver>(
    rt: &R,
    work: &mut Workspace<V>,
    planner: &Planner<V>,
    pools: &mut Pools,
    plan: Plan,
    text: &mut String,
) -> Result<(), RowFault>
    requires fit { PoolsFit planner.now.problem.now pools.old.lists }
    ensures fit { PoolsFit planner.now.problem.now pools.new.lists }
{
    for done in 0..plan.count.min(2000) {
        let draw = Draw {
            seed: plan.seed,
            batch: plan.batch,
            iteration: done + 1,
        };
        let stepped = step(rt, work, planner, pools, draw);
        push_step(text, &mut work.spares, stepped)?;
    }
    Ok(())
}

/// Gives the pools of the base cuts, ready for stage problems.
pub fn base_pools(alloc: Global, problem: &Problem) -> Result<Pools, RowFault>
    ensures { IfOk result (λ p. PoolsFit problem.now p.lists) }
{
    let mut pools = base(alloc, problem)?;
    prepare(alloc, problem, &mut pools)?;
    Ok(pools)
}
