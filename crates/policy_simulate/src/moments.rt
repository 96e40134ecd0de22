// The decisions at one moment of a run.
ghost use Rattle.std.specs.Prelude.{◌≡◌, ◌<◌, ◌≤◌, ◌+◌, ◌^◌, ℕ, ℤ, ◌+ℤ◌, List, length, nat_abs, true, Contains, IfOk};
ghost use Rattle.problem.specs.Limits.{are_values};
ghost use Rattle.problem.specs.Parts.{successors_at};
ghost use Rattle.problem.specs.Validated.{subproblem_of};
ghost use Rattle.theory.specs.Problem.{S, node_at};
ghost use Rattle.theory.specs.Tree.{InBox};
ghost use Rattle.theory.specs.View.{problem_of};
ghost use Rattle.cut_pool.specs.AtNodes.{IsStateAt, PoolsFit};
ghost use Rattle.plan_answer.specs.Faults.{GivesSeen, OnNoStage, Refutes};
ghost use Rattle.plan_forward.specs.Costing.{residuals_of, stage_cost_of};
ghost use Rattle.plan_forward.specs.declared.deciding.Decided.{Decided};
ghost use Rattle.policy_simulate.specs.Tracing.{decide_at, longer, traced_step_on, traced};

use base_num::{List, Memory, copied};
use cut_pool::Pools;
use lp_program::{Kind, Solver};
use plan_answer::PlanFault;
use plan_forward::{Decided, StageInput, Trace, TraceStep, residual, stage_cost};
use plan_mend::{decide_mended, row_count};
use plan_stage::{Planner, Workspace};
use problem::{Moment, Problem};
use std::alloc::Global;
use std::mem;

/// How far a run has come.
#[derive(Drop)]
pub(crate) struct Progress {
    pub(crate) trace: Trace,
    /// The state that comes into the next moment.
    pub(crate) state: List<i128>,
}

/// Gives by how much decisions miss each row of a node.
fn residuals(
    alloc: Global,
    problem: &Problem,
    node: u32,
    decisions: &[i128],
    state: &[i128],
    values: &[i64],
) -> Result<List<i128>, Memory>
    requires known { node < length problem.now.parts.nodes }
    requires decisions { InBox S (node_at (problem_of problem.now) node).decision_low (node_at (problem_of problem.now) node).decision_high decisions.now }
    requires state { IsStateAt problem.now node state.now }
    requires values { are_values (subproblem_of problem.now node) values.now ≡ true }
    ensures { IfOk result (λ found. found ≡ residuals_of (node_at (problem_of problem.now) node) decisions.now state.now values.now) }
{
    let mut found = List::new(alloc);
    for row in 0..row_count(problem, node) {
        found.push(residual(problem, node, row, decisions, state, values))?;
    }
    Ok(found)
}

/// Gives the cost of a stage.
fn cost(problem: &Problem, node: u32, decisions: &[i128], state: &[i128], values: &[i64]) -> i128
    requires known { node < length problem.now.parts.nodes }
    requires decisions { InBox S (node_at (problem_of problem.now) node).decision_low (node_at (problem_of problem.now) node).decision_high decisions.now }
    requires state { IsStateAt problem.now node state.now }
    requires values { are_values (subproblem_of problem.now node) values.now ≡ true }
    ensures value { result ≡ stage_cost_of (node_at (problem_of problem.now) node) decisions.now state.now values.now }
    ensures small { nat_abs result ≤ 2 ^ 115 }
{
    let _ = problem.parts();
    let _ = problem.sub(node);
    stage_cost(problem, node, decisions, state, values)
}

/// Builds the step of a trace from the decisions at a moment.
fn traced(
    alloc: Global,
    problem: &Problem,
    moment: &Moment,
    state: List<i128>,
    kind: Kind,
    decisions: List<i128>,
) -> Result<TraceStep, Memory>
    requires known { moment.now.node < length problem.now.parts.nodes }
    requires decisions { InBox S (node_at (problem_of problem.now) moment.now.node).decision_low (node_at (problem_of problem.now) moment.now.node).decision_high decisions }
    requires state { IsStateAt problem.now moment.now.node state }
    requires values { are_values (subproblem_of problem.now moment.now.node) moment.now.values ≡ true }
    ensures value { IfOk result (λ step. (d : Decided) → d.kind ≡ kind → d.decisions ≡ decisions → step ≡ traced problem.now moment.now state d) }
    ensures small { IfOk result (λ step. nat_abs step.cost ≤ 2 ^ 115) }
{
    let node = moment.node;
    let values = moment.values.as_slice();
    let residuals = residuals(
        alloc,
        problem,
        node,
        decisions.as_slice(),
        state.as_slice(),
        values,
    )?;
    let cost = cost(
        problem,
        node,
        decisions.as_slice(),
        state.as_slice(),
        values,
    );
    Ok(TraceStep {
        node,
        kind,
        state,
        values: copied(alloc, values)?,
        decisions,
        residuals,
        cost,
    })
}

/// Adds the cost of a stage.
fn sum(costs: i128, cost: i128) -> i128
    requires costs { nat_abs costs ≤ 2 ^ 126 }
    requires cost { nat_abs cost ≤ 2 ^ 115 }
    ensures { result ≡ costs +ℤ cost }
{
    costs + cost
}

/// Adds a step to a trace.
fn add_step(trace: &mut Trace, step: TraceStep) -> Result<(), Memory>
    requires costs { nat_abs trace.old.cost ≤ 2 ^ 126 }
    requires cost { nat_abs step.cost ≤ 2 ^ 115 }
    ensures { IfOk result (λ _. trace.new ≡ longer trace.old step) }
{
    trace.cost = sum(trace.cost, step.cost);
    trace.steps.push(step)
}

/// Goes on through a moment of a run: adds it to the trace, and comes to the state that leaves the moment's node. An infeasibility
/// carries the run's number.
pub(crate) fn step_on<V: Solver>(
    work: &mut Workspace<V>,
    planner: &Planner<V>,
    pools: &Pools,
    run: u32,
    moment: &Moment,
    progress: &mut Progress,
) -> Result<(), PlanFault>
    requires known { moment.now.node < length planner.now.problem.now.parts.nodes }
    requires values { are_values (subproblem_of planner.now.problem.now moment.now.node) moment.now.values ≡ true }
    requires state { IsStateAt planner.now.problem.now moment.now.node progress.old.state }
    requires fit { PoolsFit planner.now.problem.now pools.now.lists }
    requires room { nat_abs progress.old.trace.cost ≤ 2 ^ 126 }
    ensures value { GivesSeen (λ _. (progress.new.trace, progress.new.state)) result (traced_step_on planner.now.problem.now (decide_at (V.does planner.now.solver.now) planner.now.problem.now pools.now.lists run) progress.old.trace progress.old.state moment.now) }
    ensures next { IfOk result (λ _. (m : ℕ) → Contains (successors_at planner.now.problem.now.parts moment.now.node) m
        → IsStateAt planner.now.problem.now m progress.new.state) }
    ensures small { IfOk result (λ _. nat_abs progress.new.trace.cost ≤ nat_abs progress.old.trace.cost + 2 ^ 115) }
    ensures infeasible { OnNoStage result (Refutes planner.now.problem.now) }
{
    let input = StageInput {
        run,
        node: moment.node,
        values: moment.values.as_slice(),
        state: progress.state.as_slice(),
    };
    let decided = decide_mended(work, planner, pools, &input)?;
    let state = mem::replace(&mut progress.state, decided.next);
    let step = traced(
        work.alloc(),
        planner.problem(),
        moment,
        state,
        decided.kind,
        decided.decisions,
    )?;
    add_step(&mut progress.trace, step)?;
    Ok(())
}
