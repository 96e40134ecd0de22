// Cuts along a path, from its last node to its first.
ghost use Rattle.std.specs.Prelude.{◌≡◌, ◌≢◌, ℕ, ◌+◌, ◌<◌, ◌≤◌, ◌^◌, [], List, length, zip, All, IfOk, IfErr, OnOk, OnErr};
ghost use Rattle.base_num.specs.Steps.{GivesOr};
ghost use Rattle.theory.specs.Pools.{pool, Sound};
ghost use Rattle.theory.specs.View.{problem_of};
ghost use Rattle.cut_pool.specs.AtNodes.{PoolsFit};
ghost use Rattle.cut_pool.specs.declared.entry.EntryStep.{EntryStep};
ghost use Rattle.plan_draw.specs.declared.steps.PathStep.{PathStep};
ghost use Rattle.plan_draw.specs.Drawn.{IsInRange, IsPath};
ghost use Rattle.plan_backward.specs.Given.{AreDistinct, IsVisitInside};
ghost use Rattle.plan_answer.specs.Faults.{IsInfeasible, Stops};
ghost use Rattle.plan_backward.specs.Sweeping.{backwards, seen, step_back, swept, taken_back};

use crate::steps_back::{Reached, step_back};
use base_num::List;
use cut_pool::{Entry, EntryStep, Pools};
use lp_program::Solver;
use plan_answer::PlanFault;
use plan_draw::{PathStep, Trajectory};
use plan_stage::{Planner, Workspace};
use std::thread::Threads;

/// Takes back the last cut of each step's node, that of the last step first.
fn take_back(pools: &mut Pools, steps: &[EntryStep])
    requires { All (λ (s : EntryStep). s.node < length pools.old.lists) steps.now }
    ensures { pools.new.lists ≡ taken_back pools.old.lists steps.now }
{
    let mut left = steps.len();
    while left > 0 {
        left -= 1;
        let node = steps[left].node;
        let count = pools.count(node);
        pools.truncate(node, count.saturating_sub(1));
    }
}

/// The path backwards. After a fault the cuts of the entry's steps stand in the pools.
fn go_back<R: Threads, V: Solver>(
    rt: &R,
    work: &mut Workspace<V>,
    planner: &Planner<V>,
    pools: &mut Pools,
    pass: &Pass,
    entry: &mut Entry,
) -> Result<(), PlanFault>
    requires fit { PoolsFit planner.now.problem.now pools.old.lists }
    requires known { All (IsInRange planner.now.problem.now.parts) pass.now.path.now }
    requires distinct { AreDistinct pass.now.path.now }
    requires short { length pass.now.path.now ≤ 1000 }
    requires few { All (λ (s : PathStep). length (pool pools.old.lists s.node) < 2 ^ 24) pass.now.path.now }
    requires states { length pass.now.trajectory.now.states ≡ length pass.now.path.now }
    requires inside { All (IsVisitInside planner.now.problem.now) (zip pass.now.path.now pass.now.trajectory.now.states) }
    requires unanswered { entry.old.unanswered ≤ 1000 }
    requires steps { entry.old.steps ≡ [] }
    ensures value { GivesOr Stops (λ _. seen pools.new.lists entry.new) result
        (backwards (step_back (V.does planner.now.solver.now) planner.now.problem.now entry.old.iteration) (zip pass.now.path.now pass.now.trajectory.now.states) (seen pools.old.lists entry.old)) }
    ensures iteration { entry.new.iteration ≡ entry.old.iteration }
    ensures known { All (λ (s : EntryStep). s.node < length pools.new.lists) entry.new.steps }
    ensures before { taken_back pools.new.lists entry.new.steps ≡ pools.old.lists }
    ensures fit { OnOk result (PoolsFit planner.now.problem.now pools.new.lists) }
    ensures sound { OnOk result (Sound (problem_of planner.now.problem.now) pools.old.lists → Sound (problem_of planner.now.problem.now) pools.new.lists) }
{
    let (path, states) = (pass.path, pass.trajectory.states.as_slice());
    let mut left = path.len();
    while left > 0 {
        left -= 1;
        let reached = Reached {
            step: path[left],
            state: states[left].as_slice(),
        };
        step_back(rt, work, planner, pools, &reached, entry)?;
    }
    Ok(())
}

/// The iteration of a backward pass, and the forward pass that it goes back on.
#[derive(Drop)]
pub struct Pass<'a> {
    pub iteration: u32,
    pub path: &'a [PathStep],
    /// One state per step of the path.
    pub trajectory: &'a Trajectory,
}

/// Makes the backward pass of one path, as an iteration of training does (Pereira and Pinto 1991): from its last step to its
/// first, the realizations of the step's node are solved at the step's incoming state over the pools as they then are, and a
/// cut is appended to the node's pool. The entry holds the certificates of these cuts.
///
/// A node's realizations are solved in an order in which neighbours are alike ([`Planner::order`]). All of it is one chain of
/// solves; but where the solver says so, its first half, rounded down, is one and the rest another, beside each other. The entry
/// has the certificates in the order of the realizations' numbers, and counts the answers that were of no use, those of the
/// forward pass with them.
///
/// Infeasible at the first realization, in the order of solving, that is shown to have no decisions; Range where the size of a
/// node's certificates passes 2^127 - 1; [`PlanFault::Memory`] where memory was refused. After each of these the cuts
/// of the pools are as before.
///
/// The trajectory has one state per step, at scale 2^24, in the box of the step's node, and at most 1000 answers that were of
/// no use.
pub fn backward_pass<R: Threads, V: Solver>(
    rt: &R,
    work: &mut Workspace<V>,
    planner: &Planner<V>,
    pools: &mut Pools,
    pass: &Pass,
) -> Result<Entry, PlanFault>
    requires fit { PoolsFit planner.now.problem.now pools.old.lists }
    requires path { IsPath planner.now.problem.now pass.now.path.now }
    requires few { All (λ (s : PathStep). length (pool pools.old.lists s.node) < 2 ^ 24) pass.now.path.now }
    requires states { length pass.now.trajectory.now.states ≡ length pass.now.path.now }
    requires inside { All (IsVisitInside planner.now.problem.now) (zip pass.now.path.now pass.now.trajectory.now.states) }
    requires unanswered { pass.now.trajectory.now.unanswered ≤ 1000 }
    ensures value { GivesOr Stops (seen pools.new.lists) result
        (swept (V.does planner.now.solver.now) planner.now.problem.now pools.old.lists pass.now.iteration pass.now.path.now pass.now.trajectory.now.states pass.now.trajectory.now.unanswered) }
    ensures iteration { IfOk result (λ entry. entry.iteration ≡ pass.now.iteration) }
    ensures kept { OnErr result (pools.new.lists ≡ pools.old.lists) }
    ensures grown { (m : ℕ) → length (pool pools.new.lists m) ≤ length (pool pools.old.lists m) + 1 }
    ensures others { (m : ℕ) → All (λ (s : PathStep). s.node ≢ m) pass.now.path.now → pool pools.new.lists m ≡ pool pools.old.lists m }
    ensures infeasible { IfErr result (IsInfeasible planner.now.problem.now) }
    ensures fit { PoolsFit planner.now.problem.now pools.new.lists }
    ensures sound { Sound (problem_of planner.now.problem.now) pools.old.lists → Sound (problem_of planner.now.problem.now) pools.new.lists }
{
    let _ = planner.problem().parts();
    let alloc = work.alloc();
    let mut entry = Entry {
        iteration: pass.iteration,
        unanswered: pass.trajectory.unanswered,
        steps: work.spares.steps.take(alloc),
    };
    match go_back(rt, work, planner, pools, pass, &mut entry) {
        Ok(()) => Ok(entry),
        Err(fault) => {
            take_back(pools, entry.steps.as_slice());
            Err(fault)
        }
    }
}
