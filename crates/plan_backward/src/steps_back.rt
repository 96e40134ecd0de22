// A step back along a path: the cut of a node.
ghost use Rattle.std.specs.Prelude.{◌≡◌, ◌≢◌, ℕ, ◌+◌, ◌<◌, ◌≤◌, ◌^◌, length, All, IfOk, OnOk, OnErr};
ghost use Rattle.base_num.specs.Steps.{GivesOr};
ghost use Rattle.theory.specs.Fit.{CutFits, FitFor};
ghost use Rattle.theory.specs.Pools.{pool, Holds, Sound};
ghost use Rattle.theory.specs.Problem.{node_at};
ghost use Rattle.theory.specs.CutOf.{cut_of};
ghost use Rattle.theory.specs.Range.{range_of};
ghost use Rattle.theory.specs.View.{problem_of};
ghost use Rattle.cut_pool.specs.AtNodes.{PoolsFit};
ghost use Rattle.cut_pool.specs.declared.entry.EntryStep.{EntryStep};
ghost use Rattle.theory.specs.Certificates.{Right};
ghost use Rattle.plan_backward.specs.Given.{CanVisit};
ghost use Rattle.plan_answer.specs.Faults.{Stops};
ghost use Rattle.plan_backward.specs.Sweeping.{made_at, seen, step_back, taken_back, within_range};

use crate::certified::{Certified, Visit};
use crate::in_chains::certified;
use base_num::{List, Memory};
use cut_check::write_cut_in_range;
use cut_pool::{Cut, Entry, EntryStep, Pools};
use lp_program::Solver;
use plan_answer::PlanFault;
use plan_draw::PathStep;
use plan_stage::{Planner, Workspace};
use std::alloc::Global;
use std::thread::Threads;
use theory::Certificate;

/// Writes the cut of right certificates, unless their size passes the range.
fn write_cut<V: Solver>(
    here: &Visit<V>,
    list: &[Certificate],
    cut: &mut Cut,
) -> Result<(), PlanFault>
    requires known { here.now.node < length here.now.planner.now.problem.now.parts.nodes }
    requires fit { FitFor (problem_of here.now.planner.now.problem.now) (length here.now.planner.now.problem.now.parts.nodes) here.now.pools.now.lists here.now.node }
    requires right { Right here.now.pools.now.lists (node_at (problem_of here.now.planner.now.problem.now) here.now.node) list.now }
    requires slopes { length cut.old.beta ≡ length here.now.planner.now.problem.now.parts.states }
    ensures value { let n = node_at (problem_of here.now.planner.now.problem.now) here.now.node in
        GivesOr Stops (λ _. cut.new) result (within_range here.now.iteration here.now.node (range_of here.now.pools.now.lists n list.now) (cut_of here.now.pools.now.lists n list.now)) }
    ensures fits { IfOk result (λ _. CutFits (node_at (problem_of here.now.planner.now.problem.now) here.now.node) cut.new) }
    ensures holds { IfOk result (λ _. Sound (problem_of here.now.planner.now.problem.now) here.now.pools.now.lists → Holds (problem_of here.now.planner.now.problem.now) here.now.node cut.new) }
{
    match write_cut_in_range(here.planner.problem(), here.pools, here.node, list, cut) {
        Ok(()) => Ok(()),
        Err(realization) => Err(PlanFault::Range {
            iteration: here.iteration,
            node: here.node,
            realization,
        }),
    }
}

/// A cut of so many slopes, all 0.
fn flat(alloc: Global, states: usize) -> Result<Cut, Memory>
    ensures { IfOk result (λ cut. length cut.beta ≡ states) }
{
    Ok(Cut {
        alpha: 0,
        beta: List::from_vec(vec![in alloc; 0i128; states]?),
    })
}

/// The cut of right certificates.
fn cut_of<V: Solver>(alloc: Global, here: &Visit<V>, list: &[Certificate]) -> Result<Cut, PlanFault>
    requires known { here.now.node < length here.now.planner.now.problem.now.parts.nodes }
    requires fit { FitFor (problem_of here.now.planner.now.problem.now) (length here.now.planner.now.problem.now.parts.nodes) here.now.pools.now.lists here.now.node }
    requires right { Right here.now.pools.now.lists (node_at (problem_of here.now.planner.now.problem.now) here.now.node) list.now }
    ensures value { let n = node_at (problem_of here.now.planner.now.problem.now) here.now.node in
        GivesOr Stops (λ cut. cut) result (within_range here.now.iteration here.now.node (range_of here.now.pools.now.lists n list.now) (cut_of here.now.pools.now.lists n list.now)) }
    ensures fits { IfOk result (CutFits (node_at (problem_of here.now.planner.now.problem.now) here.now.node)) }
    ensures holds { IfOk result (λ cut. Sound (problem_of here.now.planner.now.problem.now) here.now.pools.now.lists → Holds (problem_of here.now.planner.now.problem.now) here.now.node cut) }
{
    let mut cut = flat(alloc, here.planner.problem().parts().states.len())?;
    write_cut(here, list, &mut cut)?;
    Ok(cut)
}

/// The certificates of a node's realizations, and their cut.
#[tactic(auto, unfolding(crate::specs::Sweeping::made_at))]
fn made_at<R: Threads, V: Solver>(
    rt: &R,
    work: &mut Workspace<V>,
    here: &Visit<V>,
) -> Result<(Certified, Cut), PlanFault>
    requires { CanVisit here.now.planner.now.problem.now here.now.pools.now.lists here.now.node here.now.state.now }
    ensures value { GivesOr Stops (λ made. made) result
        (made_at (V.does here.now.planner.now.solver.now) here.now.planner.now.problem.now here.now.pools.now.lists here.now.iteration here.now.node here.now.state.now) }
    ensures few { IfOk result (λ made. made.0.unanswered ≤ 100) }
    ensures fits { IfOk result (λ made. CutFits (node_at (problem_of here.now.planner.now.problem.now) here.now.node) made.1) }
    ensures holds { IfOk result (λ made. Sound (problem_of here.now.planner.now.problem.now) here.now.pools.now.lists → Holds (problem_of here.now.planner.now.problem.now) here.now.node made.1) }
{
    let _ = here.planner.problem().parts();
    let found = certified(rt, work, here)?;
    let cut = cut_of(work.alloc(), here, found.list.as_slice())?;
    Ok((found, cut))
}

/// A step of a path, and the state in which the trajectory reaches it.
#[derive(Drop)]
pub(crate) struct Reached<'a> {
    pub(crate) step: PathStep,
    /// At scale 2^24, one entry per state.
    pub(crate) state: &'a [i128],
}

/// Takes one step back along a path: appends the cut of the step's node at its incoming state to the pools, and its
/// certificates to the entry. Stage problems are in the workspace's memory, which is free again afterwards.
#[tactic(auto, unfolding(crate::specs::Sweeping::step_back))]
pub(crate) fn step_back<R: Threads, V: Solver>(
    rt: &R,
    work: &mut Workspace<V>,
    planner: &Planner<V>,
    pools: &mut Pools,
    reached: &Reached,
    entry: &mut Entry,
) -> Result<(), PlanFault>
    requires visit { CanVisit planner.now.problem.now pools.old.lists reached.now.step.node reached.now.state.now }
    requires few { length (pool pools.old.lists reached.now.step.node) < 2 ^ 24 }
    requires room { entry.old.unanswered + 100 < 2 ^ 32 }
    ensures value { GivesOr Stops (λ _. seen pools.new.lists entry.new) result
        (step_back (V.does planner.now.solver.now) planner.now.problem.now entry.old.iteration (seen pools.old.lists entry.old) (reached.now.step, reached.now.state.now)) }
    ensures kept { OnErr result (pools.new.lists ≡ pools.old.lists) }
    ensures steps { OnErr result (entry.new.steps ≡ entry.old.steps) }
    ensures taken { OnOk result (taken_back pools.new.lists entry.new.steps ≡ taken_back pools.old.lists entry.old.steps) }
    ensures others { OnOk result ((k : ℕ) → k ≢ reached.now.step.node → pool pools.new.lists k ≡ pool pools.old.lists k) }
    ensures known { OnOk result (All (λ (s : EntryStep). s.node < length planner.now.problem.now.parts.nodes) entry.old.steps → All (λ (s : EntryStep). s.node < length planner.now.problem.now.parts.nodes) entry.new.steps) }
    ensures added { OnOk result (entry.new.unanswered ≤ entry.old.unanswered + 100) }
    ensures iteration { entry.new.iteration ≡ entry.old.iteration }
    ensures fit { OnOk result (PoolsFit planner.now.problem.now pools.new.lists) }
    ensures sound { OnOk result (Sound (problem_of planner.now.problem.now) pools.old.lists → Sound (problem_of planner.now.problem.now) pools.new.lists) }
{
    let node = reached.step.node;
    let here = Visit {
        planner,
        pools: &*pools,
        iteration: entry.iteration,
        node,
        state: reached.state,
    };
    let (found, cut) = made_at(rt, work, &here)?;
    pools.reserve(node)?;
    entry.steps.push(EntryStep {
        node,
        list: found.list,
    })?;
    pools.push(node, cut)?;
    entry.unanswered += found.unanswered;
    Ok(())
}
