// One iteration of training.
ghost use Rattle.std.specs.Prelude.{◌≡◌, ◌<◌, ◌≤◌, ◌^◌, ℕ, length, All, IfErr, OnErr};
ghost use Rattle.base_num.specs.Steps.{GivesOr};
ghost use Rattle.theory.specs.Pools.{pool, Sound};
ghost use Rattle.theory.specs.View.{problem_of};
ghost use Rattle.cut_pool.specs.AtNodes.{PoolsFit};
ghost use Rattle.plan_answer.specs.Faults.{IsInfeasible, Stops};
ghost use Rattle.plan_draw.specs.Drawn.{IsPath};
ghost use Rattle.plan_forward.specs.Walking.{AreWalks, IsWalk};
ghost use Rattle.plan_train.specs.Growing.{ExtendsPools};
ghost use Rattle.plan_train.specs.Stepping.{along, seen_stepped, training_step, with_path, with_walks};

use crate::drawing::{first_stream, paths_from};
use crate::pool_counts::{counts, cut_back};
use base_num::List;
use cut_pool::{Entry, Pools};
use lp_program::Solver;
use plan_answer::PlanFault;
use plan_backward::{Pass, backward_pass};
use plan_draw::{PathStep, Trajectory};
use plan_forward::forward_passes;
use plan_stage::{Planner, Workspace};
use std::thread::Threads;

/// The numbers by which the paths of an iteration are drawn.
#[derive(Clone, Copy)]
pub struct Draw {
    pub seed: u64,
    /// The number of paths.
    pub batch: u16,
    /// Iterations count from 1.
    pub iteration: u32,
}

/// The forward passes of an iteration.
#[derive(Drop)]
struct Forward<'a> {
    iteration: u32,
    paths: &'a [List<PathStep>],
    /// One for each path.
    trajectories: &'a [Trajectory],
}

/// Makes the backward pass of a path, and appends its entry.
#[tactic(auto, unfolding(crate::specs::Stepping::with_path))]
fn add_pass<R: Threads + Sync, V: Solver>(
    rt: &R,
    work: &mut Workspace<V>,
    planner: &Planner<V>,
    pools: &mut Pools,
    pass: &Pass,
    entries: &mut List<Entry>,
) -> Result<(), PlanFault>
    requires fit { PoolsFit planner.now.problem.now pools.old.lists }
    requires few { (m : ℕ) → length (pool pools.old.lists m) < 2 ^ 24 }
    requires path { IsPath planner.now.problem.now pass.now.path.now }
    requires walk { IsWalk planner.now.problem.now pass.now.path.now pass.now.trajectory.now }
    ensures value { GivesOr Stops (λ _. seen_stepped pools.new.lists entries.new) result
        (with_path (V.does planner.now.solver.now) planner.now.problem.now pass.now.iteration (seen_stepped pools.old.lists entries.old) (pass.now.path.now, pass.now.trajectory.now)) }
    ensures extends { ExtendsPools 1 pools.old.lists pools.new.lists }
    ensures infeasible { IfErr result (IsInfeasible planner.now.problem.now) }
    ensures fit { PoolsFit planner.now.problem.now pools.new.lists }
    ensures sound { Sound (problem_of planner.now.problem.now) pools.old.lists → Sound (problem_of planner.now.problem.now) pools.new.lists }
{
    let _ = planner.problem().parts();
    let entry = backward_pass(rt, work, planner, pools, pass)?;
    entries.push(entry)?;
    Ok(())
}

/// Makes the backward passes, one path after another, and gives an entry for each.
#[tactic(auto, unfolding(crate::specs::Stepping::with_walks))]
fn add_passes<R: Threads + Sync, V: Solver>(
    rt: &R,
    work: &mut Workspace<V>,
    planner: &Planner<V>,
    pools: &mut Pools,
    forward: &Forward,
) -> Result<List<Entry>, PlanFault>
    requires fit { PoolsFit planner.now.problem.now pools.old.lists }
    requires few { (m : ℕ) → length (pool pools.old.lists m) ≤ 2 ^ 23 }
    requires batch { length forward.now.paths.now ≤ 64 }
    requires paths { All (IsPath planner.now.problem.now) forward.now.paths.now }
    requires walks { AreWalks planner.now.problem.now forward.now.paths.now forward.now.trajectories.now }
    ensures value { GivesOr Stops (seen_stepped pools.new.lists) result
        (with_walks (V.does planner.now.solver.now) planner.now.problem.now pools.old.lists forward.now.iteration forward.now.paths.now forward.now.trajectories.now) }
    ensures extends { ExtendsPools (length forward.now.paths.now) pools.old.lists pools.new.lists }
    ensures infeasible { IfErr result (IsInfeasible planner.now.problem.now) }
    ensures fit { PoolsFit planner.now.problem.now pools.new.lists }
    ensures sound { Sound (problem_of planner.now.problem.now) pools.old.lists → Sound (problem_of planner.now.problem.now) pools.new.lists }
{
    let mut entries = List::new(work.alloc());
    let (paths, trajectories) = (forward.paths, forward.trajectories);
    for i in 0..paths.len() {
        let pass = Pass {
            iteration: forward.iteration,
            path: paths[i].as_slice(),
            trajectory: &trajectories[i],
        };
        add_pass(rt, work, planner, pools, &pass, &mut entries)?;
    }
    Ok(entries)
}

/// Makes the forward passes of an iteration over the pools as they are, and then the backward passes.
#[tactic(auto, unfolding(crate::specs::Stepping::along))]
fn go_along<R: Threads + Sync, V: Solver>(
    rt: &R,
    work: &mut Workspace<V>,
    planner: &Planner<V>,
    pools: &mut Pools,
    iteration: u32,
    paths: &[List<PathStep>],
) -> Result<List<Entry>, PlanFault>
    requires fit { PoolsFit planner.now.problem.now pools.old.lists }
    requires few { (m : ℕ) → length (pool pools.old.lists m) ≤ 2 ^ 23 }
    requires batch { length paths.now ≤ 64 }
    requires paths { All (IsPath planner.now.problem.now) paths.now }
    ensures value { GivesOr Stops (seen_stepped pools.new.lists) result
        (along (V.does planner.now.solver.now) planner.now.problem.now pools.old.lists iteration paths.now) }
    ensures extends { ExtendsPools (length paths.now) pools.old.lists pools.new.lists }
    ensures infeasible { IfErr result (IsInfeasible planner.now.problem.now) }
    ensures fit { PoolsFit planner.now.problem.now pools.new.lists }
    ensures sound { Sound (problem_of planner.now.problem.now) pools.old.lists → Sound (problem_of planner.now.problem.now) pools.new.lists }
{
    let trajectories = forward_passes(rt, work, planner, pools, iteration, paths)?;
    let forward = Forward {
        iteration,
        paths,
        trajectories: trajectories.as_slice(),
    };
    add_passes(rt, work, planner, pools, &forward)
}

/// Takes one iteration of training (Pereira and Pinto 1991): so many paths, as the seed draws them for this iteration, have
/// their forward passes over the pools as they are, beside each other in two halves; then each has its backward pass, one after
/// another, over the cuts of those before it. Each path adds an entry, and a cut to each of its nodes.
///
/// Iterations count from 1 to 2,000, and a batch is 1 to 64 paths. No node has more than 2^23 cuts.
///
/// Infeasible and Range come exactly where the iteration, one path and one realization after another, meets a node that is
/// shown to have no decisions, or certificates whose size passes 2^127 - 1; [`PlanFault::Memory`] where memory was
/// refused. After each of these the cuts of the pools are as before.
pub fn iteration<R: Threads + Sync, V: Solver>(
    rt: &R,
    work: &mut Workspace<V>,
    planner: &Planner<V>,
    pools: &mut Pools,
    draw: Draw,
) -> Result<List<Entry>, PlanFault>
    requires fit { PoolsFit planner.now.problem.now pools.old.lists }
    requires few { (m : ℕ) → length (pool pools.old.lists m) ≤ 2 ^ 23 }
    requires first { 1 ≤ draw.iteration }
    requires last { draw.iteration ≤ 2000 }
    requires paths { 1 ≤ draw.batch }
    requires most { draw.batch ≤ 64 }
    ensures value { GivesOr Stops (seen_stepped pools.new.lists) result
        (training_step (V.does planner.now.solver.now) planner.now.problem.now pools.old.lists draw.seed draw.batch draw.iteration) }
    ensures extends { ExtendsPools draw.batch pools.old.lists pools.new.lists }
    ensures kept { OnErr result (pools.new.lists ≡ pools.old.lists) }
    ensures infeasible { IfErr result (IsInfeasible planner.now.problem.now) }
    ensures fit { PoolsFit planner.now.problem.now pools.new.lists }
    ensures sound { Sound (problem_of planner.now.problem.now) pools.old.lists → Sound (problem_of planner.now.problem.now) pools.new.lists }
{
    let problem = planner.problem();
    let _ = problem.parts();
    let first = first_stream(draw.batch, draw.iteration);
    let paths = paths_from(work.alloc(), problem, draw.seed, first, draw.batch)?;
    let counts = counts(work.alloc(), pools)?;
    match go_along(rt, work, planner, pools, draw.iteration, paths.as_slice()) {
        Ok(entries) => Ok(entries),
        Err(fault) => {
            cut_back(pools, counts.as_slice());
            Err(fault)
        }
    }
}
