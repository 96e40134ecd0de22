// Training with the solvers that rows name.
ghost use Rattle.cut_pool.specs.AtNodes.{PoolsFit};

use crate::chained::Chained;
use crate::fault::RowFault;
use crate::iterations::{Plan, base_pools, steps};
use crate::twice::Twice;
use crate::words::{number, word};
use cut_pool::Pools;
use lp_program::{Solver, Zero};
use lp_solve::WarmSimplex;
use plan_stage::{Planner, WarmStarts, Workspace};
use problem::Problem;
use std::alloc::Global;
use std::fmt::Write;
use std::str::SplitWhitespace;
use std::thread::Threads;

/// SEED BATCH COUNT: 1 to 64 paths, and at most 2,000 iterations.
fn plan(words: &mut SplitWhitespace<'_>) -> Result<Plan, RowFault> {
    let seed = number(words)?;
    let batch = number(words)?.clamp(1, 64) as u16;
    let count = number(words)?.min(2000) as u32;
    Ok(Plan { seed, batch, count })
}

/// Appends what is told of a plan's iterations over pools, and the bound after them.
fn push_iterations<R: Threads + Sync, V: Solver>(
    rt: &R,
    alloc: Global,
    planner: &Planner<V>,
    pools: &mut Pools,
    plan: Plan,
    text: &mut String,
) -> Result<(), RowFault>
    requires { PoolsFit planner.now.problem.now pools.old.lists }
{
    let mut work = Workspace::new(alloc);
    steps(rt, &mut work, planner, pools, plan, text)?;
    writeln!(text, "bound {}", pools.bound(planner.problem()))?;
    Ok(())
}

/// Appends what is told of a plan's iterations from the base cuts with a solver, and the bound after them.
fn push_trained<R: Threads + Sync, V: Solver>(
    rt: &R,
    alloc: Global,
    problem: &Problem,
    solver: &V,
    plan: Plan,
    text: &mut String,
) -> Result<(), RowFault> {
    let mut pools = base_pools(alloc, problem)?;
    let starts = WarmStarts::new(alloc, problem, solver)?;
    let planner = Planner::new(problem, solver, &starts);
    push_iterations(rt, alloc, &planner, &mut pools, plan, text)
}

/// Like `push_trained`, with a solver all in one chain, or in two on two threads.
fn push_chained<R: Threads + Sync, V: Solver>(
    rt: &R,
    alloc: Global,
    problem: &Problem,
    solver: &V,
    two: bool,
    plan: Plan,
    text: &mut String,
) -> Result<(), RowFault> {
    push_trained(rt, alloc, problem, &Chained { solver, two }, plan, text)
}

/// Like `push_trained`, with the solver of a name.
fn push_trained_by<R: Threads + Sync>(
    rt: &R,
    alloc: Global,
    problem: &Problem,
    solver: &str,
    plan: Plan,
    text: &mut String,
) -> Result<(), RowFault> {
    let warm = &WarmSimplex;
    match solver {
        "warm-simplex" => push_trained(rt, alloc, problem, warm, plan, text),
        "warm-one-chain" => push_chained(rt, alloc, problem, warm, false, plan, text),
        "warm-two-chains" => push_chained(rt, alloc, problem, warm, true, plan, text),
        "warm-twice" => push_chained(
            rt,
            alloc,
            problem,
            &Twice { solver: warm },
            false,
            plan,
            text,
        ),
        "zero" => push_trained(rt, alloc, problem, &Zero, plan, text),
        _ => Err(RowFault::Form),
    }
}

/// Writes how many programs so many iterations solved, and the bound after them, by SOLVER SEED BATCH COUNT.
pub fn trained<R: Threads + Sync>(
    rt: &R,
    alloc: Global,
    problem: &Problem,
    words: &str,
) -> Result<String, RowFault> {
    let mut words = words.split_whitespace();
    let solver = word(&mut words)?;
    let plan = plan(&mut words)?;
    let mut text = String::new(alloc);
    push_trained_by(rt, alloc, problem, solver, plan, &mut text)?;
    Ok(text)
}
