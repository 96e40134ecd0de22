// Forward passes along paths, by the decisions at each step.
ghost use Rattle.std.specs.Prelude.{◌≡◌, ◌<◌, ◌≤◌, ◌+◌, ◌-◌, ◌^◌, ℕ, List, Ok, length, true, Contains, IfOk};
ghost use Rattle.problem.specs.Limits.{are_values};
ghost use Rattle.problem.specs.Parts.{successors_at};
ghost use Rattle.problem.specs.Validated.{subproblem_of};
ghost use Rattle.theory.specs.Problem.{S};
ghost use Rattle.theory.specs.Tree.{times_all};
ghost use Rattle.theory.specs.View.{problem_of};
ghost use Rattle.cut_pool.specs.AtNodes.{IsStateAt, PoolsFit};
ghost use Rattle.plan_draw.specs.declared.steps.Trajectory.{Trajectory};
ghost use Rattle.plan_draw.specs.Drawn.{IsInRange, IsPath};
ghost use Rattle.plan_answer.specs.Faults.{GivesOrRefutes, GivesSeen, OnNoStage, Refutes};
ghost use Rattle.plan_forward.specs.Walking.{AreStatesInside, decide_step, step_on, values_of, trajectory_of};

use crate::deciding::{StageInput, decide, scaled};
use base_num::{List, Memory};
use cut_pool::Pools;
use lp_program::Solver;
use plan_answer::PlanFault;
use plan_draw::{PathStep, Trajectory};
use plan_stage::{Planner, Workspace};
use problem::Problem;
use std::alloc::Global;
use std::mem;

/// The values of a step's realization.
fn values_of(problem: &Problem, step: PathStep) -> &[i64]
    requires { IsInRange problem.now.parts step }
    ensures value { result.now ≡ values_of problem.now.parts step }
    ensures fit { are_values (subproblem_of problem.now step.node) result.now ≡ true }
{
    let _ = problem.parts();
    let node = problem.node(step.node);
    node.values.as_slice()[step.realization as usize].as_slice()
}

/// Brings whole numbers to the scale of states.
fn scaled_all(alloc: Global, numbers: &[i64]) -> Result<List<i128>, Memory>
    ensures { IfOk result (λ found. found ≡ times_all S numbers.now) }
{
    let mut found = List::from_vec(Vec::with_capacity(alloc, numbers.len())?);
    for number in numbers {
        found.push(scaled(*number))?;
    }
    Ok(found)
}

/// Gives the initial state of a problem, one number per state, at scale 2^24. [`Memory`] where memory was refused.
pub fn initial_state(alloc: Global, problem: &Problem) -> Result<List<i128>, Memory>
    ensures { IfOk result (λ state. state ≡ times_all S (problem_of problem.now).initial) }
{
    scaled_all(alloc, problem.initial())
}

/// How far a forward pass has come.
#[derive(Drop)]
struct Progress {
    trajectory: Trajectory,
    /// The state that comes into the next step.
    state: List<i128>,
}

/// Goes on through a step of a path: adds it to the trajectory, and comes to the state that leaves the step's node.
fn step_on<V: Solver>(
    work: &mut Workspace<V>,
    planner: &Planner<V>,
    pools: &Pools,
    run: u32,
    step: PathStep,
    progress: &mut Progress,
) -> Result<(), PlanFault>
    requires range { IsInRange planner.now.problem.now.parts step }
    requires fit { PoolsFit planner.now.problem.now pools.now.lists }
    requires state { IsStateAt planner.now.problem.now step.node progress.old.state }
    requires room { progress.old.trajectory.unanswered < 2 ^ 32 - 1 }
    ensures value { GivesSeen (λ _. (progress.new.trajectory, progress.new.state)) result (step_on (decide_step (V.does planner.now.solver.now) planner.now.problem.now pools.now.lists run) progress.old.trajectory progress.old.state step) }
    ensures next { IfOk result (λ _. (m : ℕ) → Contains (successors_at planner.now.problem.now.parts step.node) m
        → IsStateAt planner.now.problem.now m progress.new.state) }
    ensures infeasible { OnNoStage result (Refutes planner.now.problem.now) }
{
    let input = StageInput {
        run,
        node: step.node,
        values: values_of(planner.problem(), step),
        state: progress.state.as_slice(),
    };
    let decided = decide(work, planner, pools, &input)?;
    work.decisions.give(decided.decisions);
    let state = mem::replace(&mut progress.state, decided.next);
    progress.trajectory.states.push(state)?;
    progress.trajectory.unanswered += u32::from(decided.unanswered);
    Ok(())
}

/// Passes forward along a path: gives the incoming state of each step, from the initial state on, by the decisions at each step
/// over the same pools, and the number of answers that were of no use. `run` is the number that an infeasibility carries.
///
/// The path is one of the problem's graph. Each state lies in the box of its step's node.
///
/// Infeasible exactly at the first step where [`decide`] gives it; Memory where memory was refused.
#[tactic(auto, unfolding(crate::specs::Walking::trajectory_of))]
pub(crate) fn forward_pass<V: Solver>(
    work: &mut Workspace<V>,
    planner: &Planner<V>,
    pools: &Pools,
    run: u32,
    path: &[PathStep],
) -> Result<Trajectory, PlanFault>
    requires path { IsPath planner.now.problem.now path.now }
    requires fit { PoolsFit planner.now.problem.now pools.now.lists }
    ensures value { GivesOrRefutes result (trajectory_of (V.does planner.now.solver.now) planner.now.problem.now pools.now.lists run path.now) }
    ensures count { IfOk result (λ walk. length walk.states ≡ length path.now) }
    ensures inside { IfOk result (λ walk. AreStatesInside planner.now.problem.now path.now walk.states) }
    ensures unanswered { IfOk result (λ walk. walk.unanswered ≤ length path.now) }
    ensures infeasible { OnNoStage result (Refutes planner.now.problem.now) }
{
    let problem = planner.problem();
    let _ = problem.parts();
    let state = initial_state(work.alloc(), problem)?;
    let mut progress = Progress {
        trajectory: Trajectory {
            states: List::new(work.alloc()),
            unanswered: 0,
        },
        state,
    };
    for step in path {
        step_on(work, planner, pools, run, *step, &mut progress)?;
    }
    let Progress { trajectory, .. } = progress;
    Ok(trajectory)
}
