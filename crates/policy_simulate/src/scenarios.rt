// Traces of drawn scenarios, and of those that a problem stores.
ghost use Rattle.std.specs.Prelude.{◌≡◌, ◌≤◌, length, All, IfOk};
ghost use Rattle.plan_answer.specs.Faults.{GivesOrRefutes, OnNoStage, Refutes};
ghost use Rattle.policy_simulate.specs.Runs.{IsProblemRun, drawn_from};
ghost use Rattle.policy_simulate.specs.Tracing.{AreKnown, traces_of};
ghost use Rattle.cut_pool.specs.AtNodes.{PoolsFit};

use crate::runs::{drawn, trace_of};
use base_num::List;
use cut_pool::Pools;
use lp_program::Solver;
use plan_answer::PlanFault;
use plan_forward::Trace;
use plan_stage::{Planner, Workspace};
use problem::{Moment, Problem};

/// Gives the traces of drawn scenarios, from scenario 0 on: of each step its node and values, the incoming state, the decisions
/// there over these pools, by how much they miss each row, and the cost of the stage; and the sum of these costs. States,
/// decisions, residuals and costs are at scale 2^24, values are whole.
///
/// Scenario i follows the path that the seed and stream 2^32 + i draw, from the initial state, and each step is decided once,
/// as [`plan_mend::decide_mended`] does it: by the answer to the stage problem, rounded down and brought into the boxes, and
/// where that answer is a point, mended to meet the rows as [`plan_mend::mended`] does it.
///
/// One trace per scenario, with one step per node of its path. Infeasible exactly at the first step, in order of
/// scenarios, where no decisions exist, as the multipliers that it carries show; its `run` is the number of the
/// scenario. Memory where memory was refused.
pub fn simulate<V: Solver>(
    work: &mut Workspace<V>,
    planner: &Planner<V>,
    pools: &Pools,
    seed: u64,
    count: u32,
) -> Result<List<Trace>, PlanFault>
    requires fit { PoolsFit planner.now.problem.now pools.now.lists }
    ensures value { GivesOrRefutes result (traces_of (V.does planner.now.solver.now) planner.now.problem.now pools.now.lists (drawn_from planner.now.problem.now seed 0 count)) }
    ensures known { IfOk result (All (AreKnown planner.now.problem.now)) }
    ensures infeasible { OnNoStage result (Refutes planner.now.problem.now) }
{
    let mut traces = List::new(work.alloc());
    for scenario in 0..count {
        let run = drawn(work.alloc(), planner.problem(), seed, scenario)?;
        traces.push(trace_of(work, planner, pools, scenario, run.as_slice())?)?;
    }
    Ok(traces)
}

/// The scenarios that a problem stores.
fn stored(problem: &Problem) -> &[List<Moment>]
    ensures value { result.now ≡ problem.now.parts.scenarios }
    ensures runs { All (IsProblemRun problem.now) result.now }
    ensures few { length result.now ≤ 1000 }
{
    problem.parts().scenarios.as_slice()
}

/// The traces of the scenarios that a problem stores, in their order and with their own values; the rest is as in
/// [`simulate`].
///
/// Infeasible exactly at the first step, in order of scenarios, where no decisions exist, with the number of the scenario as its
/// `run`. Memory where memory was refused.
pub fn validate<V: Solver>(
    work: &mut Workspace<V>,
    planner: &Planner<V>,
    pools: &Pools,
) -> Result<List<Trace>, PlanFault>
    requires fit { PoolsFit planner.now.problem.now pools.now.lists }
    ensures value { GivesOrRefutes result (traces_of (V.does planner.now.solver.now) planner.now.problem.now pools.now.lists planner.now.problem.now.parts.scenarios) }
    ensures known { IfOk result (All (AreKnown planner.now.problem.now)) }
    ensures infeasible { OnNoStage result (Refutes planner.now.problem.now) }
{
    let scenarios = stored(planner.problem());
    let mut traces = List::new(work.alloc());
    for scenario in 0..scenarios.len() as u32 {
        let run = scenarios[scenario as usize].as_slice();
        traces.push(trace_of(work, planner, pools, scenario, run)?)?;
    }
    Ok(traces)
}
