// The runs of scenarios, and the trace of one run.
ghost use Rattle.std.specs.Prelude.{◌≡◌, ◌<◌, ◌+◌, map, All, IfOk};
ghost use Rattle.cut_pool.specs.AtNodes.{PoolsFit};
ghost use Rattle.plan_draw.specs.Drawn.{IsInRange};
ghost use Rattle.plan_answer.specs.Faults.{GivesOrRefutes, OnNoStage, Refutes};
ghost use Rattle.plan_forward.specs.Walking.{values_of};
ghost use Rattle.policy_simulate.specs.Runs.{IsProblemRun, drawn, moment_of};
ghost use Rattle.policy_simulate.specs.Tracing.{AreKnown, trace_of};

use crate::moments::{Progress, step_on};
use base_num::{List, Memory, copied};
use cut_pool::Pools;
use lp_program::Solver;
use plan_answer::PlanFault;
use plan_draw::{PathStep, path};
use plan_forward::{Trace, initial_state};
use plan_stage::{Planner, Workspace};
use problem::{Moment, Problem};
use std::alloc::Global;

/// The values of a step's realization.
fn values_of(problem: &Problem, step: PathStep) -> &[i64]
    requires { IsInRange problem.now.parts step }
    ensures { result.now ≡ values_of problem.now.parts step }
{
    let _ = problem.parts();
    let node = problem.node(step.node);
    node.values.as_slice()[step.realization as usize].as_slice()
}

/// The node of a step, and the values of its realization.
fn moment_of(alloc: Global, problem: &Problem, step: PathStep) -> Result<Moment, Memory>
    requires { IsInRange problem.now.parts step }
    ensures { IfOk result (λ moment. moment ≡ moment_of problem.now.parts step) }
{
    Ok(Moment {
        node: step.node,
        values: copied(alloc, values_of(problem, step))?,
    })
}

/// The nodes and values of a path.
fn moments_of(alloc: Global, problem: &Problem, path: &[PathStep]) -> Result<List<Moment>, Memory>
    requires { All (IsInRange problem.now.parts) path.now }
    ensures { IfOk result (λ run. run ≡ map (moment_of problem.now.parts) path.now) }
{
    let mut run = List::new(alloc);
    for step in path {
        run.push(moment_of(alloc, problem, *step)?)?;
    }
    Ok(run)
}

/// The run of a scenario: the path of the stream that has the scenario's number behind 2^32.
pub(crate) fn drawn(
    alloc: Global,
    problem: &Problem,
    seed: u64,
    scenario: u32,
) -> Result<List<Moment>, Memory>
    ensures value { IfOk result (λ run. run ≡ drawn problem.now seed scenario) }
    ensures run { IfOk result (IsProblemRun problem.now) }
{
    let _ = problem.parts();
    let path = path(alloc, problem, seed, (1 << 32) + u64::from(scenario))?;
    moments_of(alloc, problem, path.as_slice())
}

/// Gives the trace of the run with a number.
#[tactic(auto, unfolding(crate::specs::Tracing::trace_of))]
pub(crate) fn trace_of<V: Solver>(
    work: &mut Workspace<V>,
    planner: &Planner<V>,
    pools: &Pools,
    run: u32,
    moments: &[Moment],
) -> Result<Trace, PlanFault>
    requires run { IsProblemRun planner.now.problem.now moments.now }
    requires fit { PoolsFit planner.now.problem.now pools.now.lists }
    ensures value { GivesOrRefutes result (trace_of (V.does planner.now.solver.now) planner.now.problem.now pools.now.lists run moments.now) }
    ensures known { IfOk result (AreKnown planner.now.problem.now) }
    ensures infeasible { OnNoStage result (Refutes planner.now.problem.now) }
{
    let problem = planner.problem();
    let _ = problem.parts();
    let state = initial_state(work.alloc(), problem)?;
    let mut progress = Progress {
        trace: Trace {
            steps: List::new(work.alloc()),
            cost: 0,
        },
        state,
    };
    for moment in moments {
        step_on(work, planner, pools, run, moment, &mut progress)?;
    }
    let Progress { trace, .. } = progress;
    Ok(trace)
}
