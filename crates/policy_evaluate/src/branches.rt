// Decisions at one branch of the tree.
ghost use Rattle.std.specs.Prelude.{◌≡◌, ◌<◌, ℕ, length, true, Contains, IfOk, Option, Some, None};
ghost use Rattle.problem.specs.Limits.{are_values};
ghost use Rattle.problem.specs.Parts.{successors_at};
ghost use Rattle.problem.specs.Validated.{subproblem_of};
ghost use Rattle.theory.specs.Problem.{S, node_at};
ghost use Rattle.theory.specs.Tree.{InBox};
ghost use Rattle.theory.specs.View.{problem_of};
ghost use Rattle.cut_pool.specs.AtNodes.{IsStateAt, PoolsFit};
ghost use Rattle.plan_answer.specs.Faults.{Refutes};
ghost use Rattle.plan_forward.specs.Costing.{residuals_of};
ghost use Rattle.policy_evaluate.specs.PolicyTree.{decide_branch, first_missed, unless_missed};
ghost use Rattle.policy_evaluate.specs.Verdicts.{GivesWalk, OnInfeasible};

use crate::walking::{Fault, Missed};
use base_num::List;
use cut_pool::Pools;
use lp_program::Solver;
use plan_draw::PathStep;
use plan_forward::{Decided, StageInput, residual};
use plan_mend::{decide_mended, row_count};
use plan_stage::{Planner, Workspace};
use problem::Problem;
use std::alloc::Global;

/// The fixed parts of a walk: the planner and the pools.
#[derive(Drop)]
pub(crate) struct Course<'a, V: Solver> {
    pub(crate) planner: &'a Planner<'a, V>,
    pub(crate) pools: &'a Pools,
}

/// The first row that decisions miss, and by how much.
fn first_missed(
    problem: &Problem,
    node: u32,
    decisions: &[i128],
    state: &[i128],
    values: &[i64],
) -> Option<(u32, i128)>
    requires known { node < length problem.now.parts.nodes }
    requires decisions { InBox S (node_at (problem_of problem.now) node).decision_low (node_at (problem_of problem.now) node).decision_high decisions.now }
    requires state { IsStateAt problem.now node state.now }
    requires values { are_values (subproblem_of problem.now node) values.now ≡ true }
    ensures { result ≡ first_missed 0 (residuals_of (node_at (problem_of problem.now) node) decisions.now state.now values.now) }
{
    for row in 0..row_count(problem, node) {
        let residual = residual(problem, node, row, decisions, state, values);
        if residual != 0 {
            return Some((row, residual));
        }
    }
    None
}

/// Gives the decisions, unless a row is missed.
fn unless_missed(
    alloc: Global,
    step: PathStep,
    missed: Option<(u32, i128)>,
    decided: Decided,
) -> Result<Decided, Fault>
    ensures { GivesWalk result (unless_missed step missed decided) }
{
    match missed {
        None => Ok(decided),
        Some((row, residual)) => {
            let mut branches = List::new(alloc);
            branches.push(step)?;
            Err(Fault::Missed(Missed {
                branches,
                row,
                residual,
            }))
        }
    }
}

/// Decides at a branch, after as many others as the input's `run` says, and mends the decisions where a point was found.
#[tactic(auto, unfolding(crate::specs::PolicyTree::decide_branch))]
pub(crate) fn decide_branch<V: Solver>(
    work: &mut Workspace<V>,
    course: &Course<V>,
    realization: u32,
    input: &StageInput,
) -> Result<Decided, Fault>
    requires known { input.now.node < length course.now.planner.now.problem.now.parts.nodes }
    requires values { are_values (subproblem_of course.now.planner.now.problem.now input.now.node) input.now.values.now ≡ true }
    requires state { IsStateAt course.now.planner.now.problem.now input.now.node input.now.state.now }
    requires fit { PoolsFit course.now.planner.now.problem.now course.now.pools.now.lists }
    ensures value { GivesWalk result (decide_branch (V.does course.now.planner.now.solver.now) course.now.planner.now.problem.now course.now.pools.now.lists input.now.run (record { node = input.now.node; realization = realization }) input.now.values.now input.now.state.now) }
    ensures inside { let n = node_at (problem_of course.now.planner.now.problem.now) input.now.node in
        IfOk result (λ d. InBox S n.decision_low n.decision_high d.decisions) }
    ensures next { let p = course.now.planner.now.problem.now in
        IfOk result (λ d. (m : ℕ) → Contains (successors_at p.parts input.now.node) m
        → IsStateAt p m d.next) }
    ensures infeasible { OnInfeasible result (Refutes course.now.planner.now.problem.now) }
{
    let decided = decide_mended(work, course.planner, course.pools, input)?;
    let node = input.node;
    let missed = first_missed(
        course.planner.problem(),
        node,
        decided.decisions.as_slice(),
        input.state,
        input.values,
    );
    unless_missed(
        work.alloc(),
        PathStep { node, realization },
        missed,
        decided,
    )
}
