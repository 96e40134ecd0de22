// Iterations behind the joined records, whose cuts are dropped once they are answered.
ghost use Rattle.std.specs.Prelude.{◌≡◌, ◌≤◌, ◌+◌, ◌*◌, ◌-◌, ℕ, length, None, OnOk};
ghost use Rattle.problem.specs.Formulas.{too_much};
ghost use Rattle.theory.specs.Pools.{pool};
ghost use Rattle.cut_pool.specs.AtNodes.{PoolsFit};
ghost use Rattle.plan_train.specs.Growing.{ExtendsPools};

use crate::ending::{Ending, ending_of_plan};
use crate::writing::put;
use base_device::Sink;
use base_num::Memory;
use cut_pool::Pools;
use lp_program::Solver;
use plan_stage::{Planner, Workspace, prepare};
use plan_train::{Draw, counts, cut_back, iteration_body};
use problem::{MOST_ITERATIONS, Problem};
use std::alloc::Global;
use std::thread::Threads;

/// Iterations that go on behind joined records.
#[derive(Clone, Copy)]
pub(crate) struct Stretch {
    pub(crate) seed: u64,
    /// The paths of an iteration, 1 to 64.
    pub(crate) batch: u16,
    /// The number of joined records.
    pub(crate) before: u32,
    pub(crate) count: u32,
}

// An iteration of this number may be taken.
fn check_room(problem: &Problem, iteration: u32, batch: u16) -> Result<(), Ending>
    requires few { iteration ≤ 2000 }
    requires some { 1 ≤ batch }
    requires most { batch ≤ 64 }
    ensures { OnOk result (too_much problem.now iteration batch ≡ None) }
{
    match problem.too_much(iteration, batch) {
        None => Ok(()),
        Some(_) => Err(Ending::TooMuch),
    }
}

// Takes an iteration and answers the payload of its record behind the number of its bytes.
fn answer<R: Threads + Sync, O: Sink, V: Solver>(
    rt: &R,
    work: &mut Workspace<V>,
    planner: &Planner<V>,
    pools: &mut Pools,
    draw: Draw,
    out: &mut O,
) -> Result<(), Ending>
    requires fit { PoolsFit planner.now.problem.now pools.old.lists }
    requires first { 1 ≤ draw.iteration }
    requires last { draw.iteration ≤ 2000 }
    requires paths { 1 ≤ draw.batch }
    requires most { draw.batch ≤ 64 }
    requires cuts { (m : ℕ) → length (pool pools.old.lists m) ≤ 1 + (draw.iteration - 1) * draw.batch }
    ensures extends { OnOk result (ExtendsPools draw.batch pools.old.lists pools.new.lists) }
    ensures fit { OnOk result (PoolsFit planner.now.problem.now pools.new.lists) }
{
    check_room(planner.problem(), draw.iteration, draw.batch)?;
    let body = match iteration_body(rt, work, planner, pools, draw) {
        Ok(body) => body,
        Err(fault) => return Err(ending_of_plan(fault)),
    };
    let last = body.len().saturating_sub(1);
    put(out, &body.as_slice()[..last])
}

// Takes the iterations and answers each.
fn answer_all<R: Threads + Sync, O: Sink, V: Solver>(
    rt: &R,
    work: &mut Workspace<V>,
    planner: &Planner<V>,
    pools: &mut Pools,
    stretch: Stretch,
    out: &mut O,
) -> Result<(), Ending>
    requires fit { PoolsFit planner.now.problem.now pools.old.lists }
    requires last { stretch.before + stretch.count ≤ 2000 }
    requires paths { 1 ≤ stretch.batch }
    requires most { stretch.batch ≤ 64 }
    requires cuts { (m : ℕ) → length (pool pools.old.lists m) ≤ 1 + stretch.before * stretch.batch }
    ensures { OnOk result (ExtendsPools (stretch.count * stretch.batch) pools.old.lists pools.new.lists) }
{
    for done in 0..stretch.count {
        let draw = Draw {
            seed: stretch.seed,
            batch: stretch.batch,
            iteration: stretch.before + done + 1,
        };
        answer(rt, work, planner, pools, draw, out)?;
    }
    Ok(())
}

// Has the pools remember which cuts of each node cover the others, so that they need not be found again once the cuts behind them
// are dropped.
fn mark_all(problem: &Problem, pools: &mut Pools)
    requires { PoolsFit problem.now pools.old.lists }
    ensures { pools.new ≡ pools.old }
{
    let nodes = problem.parts().nodes.len() as u32;
    for node in 0..nodes {
        pools.mark(node);
    }
}

// Makes the pools ready for iterations, whose answers do not depend on it. What was made ready before takes in the cuts that came
// since, and stays when the pools are cut back.
fn make_ready(alloc: Global, problem: &Problem, pools: &mut Pools) -> Result<(), Memory>
    requires { PoolsFit problem.now pools.old.lists }
    ensures { pools.new ≡ pools.old }
{
    prepare(alloc, problem, pools)?;
    mark_all(problem, pools);
    Ok(())
}

/// Takes iterations behind the joined records, answers the payload of each, and cuts the pools back to what they were.
pub(crate) fn go_ahead<R: Threads + Sync, O: Sink, V: Solver>(
    rt: &R,
    work: &mut Workspace<V>,
    planner: &Planner<V>,
    pools: &mut Pools,
    stretch: Stretch,
    out: &mut O,
) -> Result<(), Ending>
    requires fit { PoolsFit planner.now.problem.now pools.old.lists }
    requires before { stretch.before ≤ 2000 }
    requires paths { 1 ≤ stretch.batch }
    requires most { stretch.batch ≤ 64 }
    requires cuts { (m : ℕ) → length (pool pools.old.lists m) ≤ 1 + stretch.before * stretch.batch }
    ensures { OnOk result (pools.new.lists ≡ pools.old.lists) }
{
    if stretch.count > MOST_ITERATIONS - stretch.before {
        return Err(Ending::TooMuch);
    }
    let problem = planner.problem();
    let _ = problem.parts();
    make_ready(work.alloc(), problem, pools)?;
    let counts = counts(work.alloc(), pools)?;
    answer_all(rt, work, planner, pools, stretch, out)?;
    cut_back(pools, counts.as_slice());
    Ok(())
}
