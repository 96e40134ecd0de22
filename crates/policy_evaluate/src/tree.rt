// The cost of the tree, branch by branch.
ghost use Rattle.std.specs.List.{list_all};
ghost use Rattle.std.specs.Prelude.{◌≡◌, ◌<◌, ◌≤◌, ◌+◌, ◌*◌, ℕ, suc, length, nat_lt, nat_abs, true, sum, List, ℤ, Result, Ok, Err, Contains, IfOk};
ghost use Rattle.problem.specs.Limits.{are_values};
ghost use Rattle.problem.specs.Validated.{subproblem_of};
ghost use Rattle.theory.specs.Problem.{S, node_at, successor_weights, realization_weight, successor_weight};
ghost use Rattle.theory.specs.Tree.{InBox};
ghost use Rattle.theory.specs.View.{successors_of, problem_of};
ghost use Rattle.cut_pool.specs.AtNodes.{IsStateAt, PoolsFit};
ghost use Rattle.plan_answer.specs.Faults.{Refutes};
ghost use Rattle.plan_answer.specs.declared.classifying.Infeasibility.{Infeasibility};
ghost use Rattle.plan_answer.specs.declared.plan_fault.PlanFault.TheVariants as plans;
ghost use Rattle.plan_forward.specs.Costing.{stage_cost_of};
ghost use Rattle.policy_evaluate.specs.Costs.{branch_cost, branch_costs, successor_costs, no_cost, tree_cost};
ghost use Rattle.policy_evaluate.specs.PolicyTree.{Stop, stop_behind, decide_branch};
ghost use Rattle.policy_evaluate.specs.declared.walking.Fault.TheVariants as faults;
ghost use Rattle.policy_evaluate.specs.declared.costs.Walked.{Walked};
ghost use Rattle.policy_evaluate.specs.Small.{IsCost, IsSmall, successor_branches, successor_denominator, most_cost};
ghost use Rattle.policy_evaluate.specs.TooBig.{branches, denominator};
ghost use Rattle.policy_evaluate.specs.Verdicts.{GivesWalk, OnInfeasible};

use crate::branches::{Course, decide_branch};
use crate::costs::{Walked, add_branch, add_cost, add_stage, no_cost, share};
use crate::walking::{Fault, Missed};
use lp_program::Solver;
use plan_draw::PathStep;
use plan_forward::{StageInput, stage_cost};
use plan_stage::Workspace;
use problem::total;

/// A stop behind a branch, which goes behind the branches that it came from.
fn behind(step: PathStep, walked: Result<Walked, Fault>) -> Result<Walked, Fault>
    ensures value { (defined : Result Walked Stop) → GivesWalk walked defined → GivesWalk result (stop_behind step defined) }
    ensures ok { (w : Walked) → result ≡ Ok w → walked ≡ Ok w }
    ensures infeasible { (d : Infeasibility) → result ≡ Err (faults.Stopped (plans.Infeasible d)) → walked ≡ Err (faults.Stopped (plans.Infeasible d)) }
{
    match walked {
        Ok(cost) => Ok(cost),
        Err(Fault::Missed(missed)) => {
            let mut branches = missed.branches;
            branches.push(step)?;
            Err(Fault::Missed(Missed {
                branches,
                row: missed.row,
                residual: missed.residual,
            }))
        }
        Err(fault) => Err(fault),
    }
}

/// Nodes with their weights.
#[derive(Drop)]
pub(crate) struct WeightedNodes<'a> {
    pub(crate) nodes: &'a [u32],
    pub(crate) weights: &'a [u32],
}

/// The cost of successors from a state, times their weights, over trees of at most `stages` stages.
#[cycle(walk)]
pub(crate) fn successor_costs<V: Solver>(
    work: &mut Workspace<V>,
    course: &Course<V>,
    stages: u32,
    decided: u32,
    successors: &WeightedNodes,
    state: &[i128],
) -> Result<Walked, Fault>
    requires known { list_all (λ m. nat_lt m (length course.now.planner.now.problem.now.parts.nodes)) successors.now.nodes.now ≡ true }
    requires counted { length successors.now.weights.now ≡ length successors.now.nodes.now }
    requires state { (m : ℕ) → Contains successors.now.nodes.now m → IsStateAt course.now.planner.now.problem.now m state.now }
    requires fit { PoolsFit course.now.planner.now.problem.now course.now.pools.now.lists }
    requires small { let p = course.now.planner.now.problem.now in
        let ls = successors_of successors.now.nodes.now successors.now.weights.now in
        IsSmall p stages (successor_denominator p stages ls) (sum (successor_weights ls)) decided (successor_branches p stages ls) }
    ensures value { let p = course.now.planner.now.problem.now in
        let ls = successors_of successors.now.nodes.now successors.now.weights.now in
        GivesWalk result (successor_costs (tree_cost (decide_branch (V.does course.now.planner.now.solver.now) p course.now.pools.now.lists) (problem_of p) stages state.now) (no_cost decided) ls) }
    ensures cost { let p = course.now.planner.now.problem.now in
        let ls = successors_of successors.now.nodes.now successors.now.weights.now in
        IfOk result (IsCost p stages (successor_denominator p stages ls) (sum (successor_weights ls)) (decided + successor_branches p stages ls)) }
    ensures infeasible { OnInfeasible result (Refutes course.now.planner.now.problem.now) }
{
    let _ = course.planner.problem().parts();
    let mut sum = no_cost(decided);
    for i in 0..successors.nodes.len() {
        let cost = tree_cost(
            work,
            course,
            stages,
            successors.nodes[i],
            sum.decided,
            state,
        )?;
        sum = add_cost(sum, successors.weights[i], cost);
    }
    Ok(sum)
}

/// The cost of a branch of a node, after as many others as the input's `run` says: its stage, and its successors over trees of
/// at most `stages` stages.
#[cycle(walk)]
fn branch_cost<V: Solver>(
    work: &mut Workspace<V>,
    course: &Course<V>,
    stages: u32,
    realization: u32,
    input: &StageInput,
) -> Result<Walked, Fault>
    requires known { input.now.node < length course.now.planner.now.problem.now.parts.nodes }
    requires values { are_values (subproblem_of course.now.planner.now.problem.now input.now.node) input.now.values.now ≡ true }
    requires stage { let p = course.now.planner.now.problem.now in
        (u : List ℤ) → InBox S (node_at (problem_of p) input.now.node).decision_low (node_at (problem_of p) input.now.node).decision_high u
        → nat_abs (stage_cost_of (node_at (problem_of p) input.now.node) u input.now.state.now input.now.values.now) ≤ most_cost p 1 }
    requires state { IsStateAt course.now.planner.now.problem.now input.now.node input.now.state.now }
    requires fit { PoolsFit course.now.planner.now.problem.now course.now.pools.now.lists }
    requires small { let p = course.now.planner.now.problem.now in
        let n = node_at (problem_of p) input.now.node in
        IsSmall p (suc stages) (successor_weight n * successor_denominator p stages n.successors) 1 input.now.run (1 + successor_branches p stages n.successors) }
    ensures value { let p = course.now.planner.now.problem.now in
        let n = node_at (problem_of p) input.now.node in
        let decide = decide_branch (V.does course.now.planner.now.solver.now) p course.now.pools.now.lists in
        GivesWalk result (branch_cost decide (tree_cost decide (problem_of p) stages) n input.now.run (record { node = input.now.node; realization = realization }) input.now.values.now input.now.state.now) }
    ensures cost { let p = course.now.planner.now.problem.now in
        let n = node_at (problem_of p) input.now.node in
        IfOk result (IsCost p (suc stages) (successor_weight n * successor_denominator p stages n.successors) 1 (input.now.run + (1 + successor_branches p stages n.successors))) }
    ensures infeasible { OnInfeasible result (Refutes course.now.planner.now.problem.now) }
{
    let problem = course.planner.problem();
    let _ = problem.parts();
    let found = decide_branch(work, course, realization, input)?;
    let node = input.node;
    let own = problem.node(node);
    let successors = WeightedNodes {
        nodes: own.successors.as_slice(),
        weights: own.successor_weights.as_slice(),
    };
    let next = found.next.as_slice();
    let costs = successor_costs(work, course, stages, input.run + 1, &successors, next);
    let costs = behind(PathStep { node, realization }, costs)?;
    let decisions = found.decisions.as_slice();
    let stage = stage_cost(problem, node, decisions, input.state, input.values);
    Ok(add_stage(problem.q(node), stage, costs))
}

/// The costs of the branches of a node from a state, times their weights.
#[cycle(walk)]
fn branch_costs<V: Solver>(
    work: &mut Workspace<V>,
    course: &Course<V>,
    stages: u32,
    decided: u32,
    node: u32,
    state: &[i128],
) -> Result<Walked, Fault>
    requires known { node < length course.now.planner.now.problem.now.parts.nodes }
    requires state { IsStateAt course.now.planner.now.problem.now node state.now }
    requires fit { PoolsFit course.now.planner.now.problem.now course.now.pools.now.lists }
    requires small { let p = course.now.planner.now.problem.now in
        let n = node_at (problem_of p) node in
        IsSmall p (suc stages) (successor_weight n * successor_denominator p stages n.successors) (realization_weight n) decided (length n.realizations * (1 + successor_branches p stages n.successors)) }
    ensures value { let p = course.now.planner.now.problem.now in
        let n = node_at (problem_of p) node in
        let decide = decide_branch (V.does course.now.planner.now.solver.now) p course.now.pools.now.lists in
        GivesWalk result (branch_costs decide (tree_cost decide (problem_of p) stages) n node (no_cost decided) 0 n.realizations state.now) }
    ensures cost { let p = course.now.planner.now.problem.now in
        let n = node_at (problem_of p) node in
        IfOk result (IsCost p (suc stages) (successor_weight n * successor_denominator p stages n.successors) (realization_weight n) (decided + length n.realizations * (1 + successor_branches p stages n.successors))) }
    ensures infeasible { OnInfeasible result (Refutes course.now.planner.now.problem.now) }
{
    let problem = course.planner.problem();
    let _ = problem.parts();
    let weights = problem.node(node).weights.as_slice();
    let values = problem.node(node).values.as_slice();
    let mut sum = no_cost(decided);
    for realization in 0..weights.len() as u32 {
        let input = StageInput {
            run: sum.decided,
            node,
            values: values[realization as usize].as_slice(),
            state,
        };
        let cost = branch_cost(work, course, stages, realization, &input)?;
        sum = add_branch(sum, weights[realization as usize], cost);
    }
    Ok(sum)
}

/// The cost of the tree of a node from a state, of at most `stages` stages.
#[cycle(walk)]
fn tree_cost<V: Solver>(
    work: &mut Workspace<V>,
    course: &Course<V>,
    stages: u32,
    node: u32,
    decided: u32,
    state: &[i128],
) -> Result<Walked, Fault>
    requires known { node < length course.now.planner.now.problem.now.parts.nodes }
    requires state { IsStateAt course.now.planner.now.problem.now node state.now }
    requires fit { PoolsFit course.now.planner.now.problem.now course.now.pools.now.lists }
    requires small { let p = course.now.planner.now.problem.now in
        IsSmall p stages (denominator (problem_of p) stages node) 1 decided (branches (problem_of p) stages node) }
    ensures value { let p = course.now.planner.now.problem.now in
        GivesWalk result (tree_cost (decide_branch (V.does course.now.planner.now.solver.now) p course.now.pools.now.lists) (problem_of p) stages state.now decided node) }
    ensures cost { let p = course.now.planner.now.problem.now in
        IfOk result (IsCost p stages (denominator (problem_of p) stages node) 1 (decided + branches (problem_of p) stages node)) }
    ensures infeasible { OnInfeasible result (Refutes course.now.planner.now.problem.now) }
{
    let problem = course.planner.problem();
    let _ = problem.parts();
    if stages == 0 {
        return Ok(no_cost(decided));
    }
    let sum = branch_costs(work, course, stages - 1, decided, node, state)?;
    Ok(share(total(problem.node(node).weights.as_slice()), sum))
}
