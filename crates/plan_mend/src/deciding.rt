// Mended decisions at a node.
ghost use Rattle.std.specs.Prelude.{◌≡◌, ◌<◌, ℕ, true, length, Contains, IfOk};
ghost use Rattle.problem.specs.Limits.{are_values};
ghost use Rattle.problem.specs.Parts.{successors_at};
ghost use Rattle.problem.specs.Validated.{subproblem_of};
ghost use Rattle.theory.specs.Problem.{S, node_at};
ghost use Rattle.theory.specs.Tree.{InBox, next_state};
ghost use Rattle.theory.specs.View.{problem_of};
ghost use Rattle.cut_pool.specs.AtNodes.{IsStateAt, PoolsFit};
ghost use Rattle.plan_answer.specs.Faults.{GivesOrRefutes, OnNoStage, Refutes};
ghost use Rattle.plan_mend.specs.Deciding.{decide_mended_of, decided_as, mend};
ghost use Rattle.plan_mend.specs.Mending.{mended_of};

use crate::mending::mended;
use base_num::{List, Memory};
use cut_pool::Pools;
use lp_program::{Kind, Solver};
use plan_answer::PlanFault;
use plan_forward::{Decided, StageInput, decide, next_state};
use plan_stage::{Planner, Workspace};
use problem::Problem;
use std::alloc::Global;

/// The state that decisions leave a node with.
fn state_after(
    alloc: Global,
    problem: &Problem,
    node: u32,
    decisions: &[i128],
) -> Result<List<i128>, Memory>
    requires { node < length problem.now.parts.nodes }
    ensures { IfOk result (λ found. found ≡ next_state (node_at (problem_of problem.now) node) decisions.now) }
{
    next_state(alloc, problem.sub(node).outs.as_slice(), decisions)
}

/// Decisions by an answer of this kind, and the state that they leave.
fn decided_as(
    alloc: Global,
    problem: &Problem,
    node: u32,
    kind: Kind,
    unanswered: bool,
    decisions: List<i128>,
) -> Result<Decided, Memory>
    requires { node < length problem.now.parts.nodes }
    ensures { IfOk result (λ found. found ≡ decided_as (node_at (problem_of problem.now) node) kind unanswered decisions) }
{
    let next = state_after(alloc, problem, node, decisions.as_slice())?;
    Ok(Decided {
        kind,
        unanswered,
        decisions,
        next,
    })
}

/// Mends the decisions at a node.
fn with_mended(
    alloc: Global,
    problem: &Problem,
    node: u32,
    values: &[i64],
    state: &[i128],
    decided: Decided,
) -> Result<Decided, Memory>
    requires known { node < length problem.now.parts.nodes }
    requires values { are_values (subproblem_of problem.now node) values.now ≡ true }
    requires state { IsStateAt problem.now node state.now }
    requires inside { InBox S (node_at (problem_of problem.now) node).decision_low (node_at (problem_of problem.now) node).decision_high decided.decisions }
    ensures { let n = node_at (problem_of problem.now) node in
        IfOk result (λ found. found ≡ decided_as n decided.kind decided.unanswered (mended_of n values.now state.now decided.decisions)) }
{
    let decisions = mended(alloc, problem, node, values, state, decided.decisions)?;
    decided_as(
        alloc,
        problem,
        node,
        decided.kind,
        decided.unanswered,
        decisions,
    )
}

/// Mends the decisions at a node where a point was found.
fn mend(
    alloc: Global,
    problem: &Problem,
    node: u32,
    values: &[i64],
    state: &[i128],
    decided: Decided,
) -> Result<Decided, Memory>
    requires known { node < length problem.now.parts.nodes }
    requires values { are_values (subproblem_of problem.now node) values.now ≡ true }
    requires state { IsStateAt problem.now node state.now }
    requires inside { InBox S (node_at (problem_of problem.now) node).decision_low (node_at (problem_of problem.now) node).decision_high decided.decisions }
    ensures { IfOk result (λ found. found ≡ mend (node_at (problem_of problem.now) node) values.now state.now decided) }
{
    match decided.kind {
        Kind::Found => with_mended(alloc, problem, node, values, state, decided),
        Kind::Ray | Kind::Stuck => Ok(decided),
    }
}

/// Decides at a node, at values of its random variables and an incoming state, as [`plan_forward::decide`] does it, and
/// mends the decisions where the answer is a point: gives them as [`mended`] does, together with the state that they leave.
/// Decisions by any other answer stay as they are.
///
/// Decisions and states are at scale 2^24, the decisions in 2^24 times their boxes. There is one value per random variable of
/// the node's subproblem, each at most 2^40 in absolute value, and the state lies in the node's box.
///
/// Infeasible exactly where the answer is classified as infeasible: then no decisions exist there, in any fraction of a unit. Memory
/// where memory was refused.
#[tactic(auto, unfolding(crate::specs::Deciding::decide_mended_of))]
pub fn decide_mended<V: Solver>(
    work: &mut Workspace<V>,
    planner: &Planner<V>,
    pools: &Pools,
    input: &StageInput,
) -> Result<Decided, PlanFault>
    requires known { input.now.node < length planner.now.problem.now.parts.nodes }
    requires fit { PoolsFit planner.now.problem.now pools.now.lists }
    requires values { are_values (subproblem_of planner.now.problem.now input.now.node) input.now.values.now ≡ true }
    requires state { IsStateAt planner.now.problem.now input.now.node input.now.state.now }
    ensures value { GivesOrRefutes result (decide_mended_of (V.does planner.now.solver.now) planner.now.problem.now pools.now.lists input.now.run input.now.node input.now.values.now input.now.state.now) }
    ensures inside { let n = node_at (problem_of planner.now.problem.now) input.now.node in
        IfOk result (λ d. InBox S n.decision_low n.decision_high d.decisions) }
    ensures next { IfOk result (λ d. (m : ℕ) → Contains (successors_at planner.now.problem.now.parts input.now.node) m
        → IsStateAt planner.now.problem.now m d.next) }
    ensures infeasible { OnNoStage result (Refutes planner.now.problem.now) }
{
    let problem = planner.problem();
    let _ = problem.parts();
    let decided = decide(work, planner, pools, input)?;
    let StageInput {
        node,
        values,
        state,
        ..
    } = *input;
    Ok(mend(work.alloc(), problem, node, values, state, decided)?)
}
