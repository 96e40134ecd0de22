// Forward passes along several paths, in two halves beside each other.
ghost use Rattle.std.specs.Prelude.{◌≡◌, ◌++◌, ◌/◌, List, length, take, drop, All, IfOk, Result};
ghost use Rattle.plan_answer.specs.declared.classifying.Infeasibility.{Infeasibility};
ghost use Rattle.plan_answer.specs.Faults.{GivesOrRefutes, OnNoStage, Refutes};
ghost use Rattle.plan_stage.specs.Ready.{AreReady};
ghost use Rattle.plan_draw.specs.declared.steps.PathStep.{PathStep};
ghost use Rattle.plan_draw.specs.declared.steps.Trajectory.{Trajectory};
ghost use Rattle.plan_draw.specs.Drawn.{IsPath};
ghost use Rattle.plan_forward.specs.Walking.{AreWalks, in_turn, walks_of};
ghost use Rattle.cut_pool.specs.AtNodes.{PoolsFit};

use crate::forward_pass::forward_pass;
use base_num::{List, Memory};
use cut_pool::Pools;
use lp_program::Solver;
use plan_answer::PlanFault;
use plan_draw::{PathStep, Trajectory};
use plan_stage::{Planner, Workspace};
use problem::Problem;
use std::alloc::Global;
use std::thread::{Threads, join};

/// Passes forward along paths, one after another.
fn passes_in_order<V: Solver>(
    work: &mut Workspace<V>,
    planner: &Planner<V>,
    pools: &Pools,
    run: u32,
    paths: &[List<PathStep>],
) -> Result<List<Trajectory>, PlanFault>
    requires paths { All (IsPath planner.now.problem.now) paths.now }
    requires fit { PoolsFit planner.now.problem.now pools.now.lists }
    ensures { GivesOrRefutes result (walks_of (V.does planner.now.solver.now) planner.now.problem.now pools.now.lists run paths.now) }
{
    let mut found = List::new(work.alloc());
    for path in paths {
        found.push(forward_pass(work, planner, pools, run, path.as_slice())?)?;
    }
    Ok(found)
}

/// The first half of the paths, rounded down, and the rest.
fn split<'a>(
    problem: &Problem,
    paths: &'a [List<PathStep>],
) -> (&'a [List<PathStep>], &'a [List<PathStep>])
    requires { All (IsPath problem.now) paths.now }
    ensures front { result.0.now ≡ take (length paths.now / 2) paths.now }
    ensures back { result.1.now ≡ drop (length paths.now / 2) paths.now }
    ensures left { All (IsPath problem.now) result.0.now }
    ensures right { All (IsPath problem.now) result.1.now }
{
    paths.split_at(paths.len() / 2)
}

/// Joins two lists, one after the other.
fn joined(first: List<Trajectory>, tail: List<Trajectory>) -> Result<List<Trajectory>, Memory>
    ensures { IfOk result (λ walks. walks ≡ first ++ tail) }
{
    let mut items = first.into_vec();
    let mut more = tail.into_vec();
    items.append(&mut more)?;
    Ok(List::from_vec(items))
}

/// The trajectories of both parts, or the refusal of the first that refuses.
fn in_turn(
    first: Result<List<Trajectory>, PlanFault>,
    tail: Result<List<Trajectory>, PlanFault>,
) -> Result<List<Trajectory>, PlanFault>
    ensures { (ones others : Result (List Trajectory) Infeasibility) → GivesOrRefutes first ones → GivesOrRefutes tail others → GivesOrRefutes result (in_turn ones others) }
{
    Ok(joined(first?, tail?)?)
}

/// Passes forward along paths, the first half of them, rounded down, beside the rest.
fn passes_beside<R: Threads + Sync, V: Solver>(
    rt: &R,
    alloc: Global,
    planner: &Planner<V>,
    pools: &Pools,
    run: u32,
    paths: &[List<PathStep>],
) -> Result<List<Trajectory>, PlanFault>
    requires paths { All (IsPath planner.now.problem.now) paths.now }
    requires fit { PoolsFit planner.now.problem.now pools.now.lists }
    ensures { GivesOrRefutes result (walks_of (V.does planner.now.solver.now) planner.now.problem.now pools.now.lists run paths.now) }
{
    let (problem, solver, starts) = (planner.problem(), planner.solver(), planner.starts());
    let (front, back) = split(problem, paths);
    let (first, tail) = join(
        rt,
        || -> Result<List<Trajectory>, PlanFault>
            requires paths { All (IsPath problem.now) front.now }
            requires fit { PoolsFit problem.now pools.now.lists }
            requires ready { AreReady (V.does solver.now) (V.suits solver.now) problem.now starts.now.items starts.now.orders }
            ensures { GivesOrRefutes result (walks_of (V.does solver.entry.now) problem.entry.now pools.entry.now.lists run front.entry.now) }
        {
            let planner = Planner::new(problem, solver, starts);
            passes_in_order(&mut Workspace::new(alloc), &planner, pools, run, front)
        },
        || -> Result<List<Trajectory>, PlanFault>
            requires paths { All (IsPath problem.now) back.now }
            requires fit { PoolsFit problem.now pools.now.lists }
            requires ready { AreReady (V.does solver.now) (V.suits solver.now) problem.now starts.now.items starts.now.orders }
            ensures { GivesOrRefutes result (walks_of (V.does solver.entry.now) problem.entry.now pools.entry.now.lists run back.entry.now) }
        {
            let planner = Planner::new(problem, solver, starts);
            passes_in_order(&mut Workspace::new(alloc), &planner, pools, run, back)
        },
    );
    in_turn(first, tail)
}

/// Passes forward along each of these paths, in their order: gives for each the incoming state of each step, from the initial
/// state on, by the decisions at each step over the same pools, as [`decide`](crate::decide) makes them, and the number of
/// answers that were of no use. `run` is the number that an infeasibility carries.
///
/// The first half of the paths, rounded down, and the rest are gone through beside each other, one path alone on no other
/// thread; the answer is that of one path after another. Each path is one of the problem's graph.
///
/// Infeasible exactly at the first step of the first path where [`decide`](crate::decide) gives it; Memory where memory was
/// refused.
pub fn forward_passes<R: Threads + Sync, V: Solver>(
    rt: &R,
    work: &mut Workspace<V>,
    planner: &Planner<V>,
    pools: &Pools,
    run: u32,
    paths: &[List<PathStep>],
) -> Result<List<Trajectory>, PlanFault>
    requires paths { All (IsPath planner.now.problem.now) paths.now }
    requires fit { PoolsFit planner.now.problem.now pools.now.lists }
    ensures value { GivesOrRefutes result (walks_of (V.does planner.now.solver.now) planner.now.problem.now pools.now.lists run paths.now) }
    ensures walks { IfOk result (AreWalks planner.now.problem.now paths.now) }
    ensures infeasible { OnNoStage result (Refutes planner.now.problem.now) }
{
    let _ = planner.problem().parts();
    if paths.len() < 2 {
        return passes_in_order(work, planner, pools, run, paths);
    }
    passes_beside(rt, work.alloc(), planner, pools, run, paths)
}
