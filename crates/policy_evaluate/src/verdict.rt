// The cost of the whole policy from above, or where it misses a row.
ghost use Rattle.std.specs.Prelude.{◌≡◌, ◌<◌, ◌≤◌, ◌^◌, ℤ, ◌≤ℤ◌, nat_abs, reverse, Result, None, IfOk};
ghost use Rattle.problem.specs.Validated.{Validated};
ghost use Rattle.theory.specs.Bound.{bound};
ghost use Rattle.theory.specs.Pools.{Sound};
ghost use Rattle.theory.specs.Problem.{S};
ghost use Rattle.theory.specs.Tree.{Forest, Policy};
ghost use Rattle.theory.specs.View.{problem_of};
ghost use Rattle.cut_pool.specs.AtNodes.{PoolsFit};
ghost use Rattle.plan_answer.specs.Faults.{GivesOrRefutes, OnNoStage, Refutes};
ghost use Rattle.policy_evaluate.specs.Costs.{root_cost};
ghost use Rattle.policy_evaluate.specs.PolicyTree.{Stop, decide_branch, verdict_of};
ghost use Rattle.policy_evaluate.specs.TooBig.{too_big_of};
ghost use Rattle.policy_evaluate.specs.Upper.{IsLeastUpper, ceiling_over};
ghost use Rattle.policy_evaluate.specs.Verdicts.{GivesWalk, OnCost, OnInfeasible, rounded_verdict};
ghost use Rattle.policy_evaluate.specs.declared.costs.Walked.{Walked};

use crate::branches::Course;
use crate::costs::{Walked, share};
use crate::tree::{WeightedNodes, successor_costs};
use crate::walking::{Fault, Verdict};
use base_num::{List, floor_div};
use cut_pool::Pools;
use lp_program::Solver;
use plan_answer::PlanFault;
use plan_draw::PathStep;
use plan_forward::initial_state;
use plan_stage::{Planner, Workspace};
use problem::total;

/// The quotient, rounded up.
fn ceiling(up: i128, under: u64) -> i128
    requires some { 0 < under }
    requires small { nat_abs up ≤ 2 ^ 126 }
    ensures { result ≡ ceiling_over up under }
{
    -floor_div(-up, i128::from(under))
}

/// Puts the branches in reverse order.
fn reversed(branches: List<PathStep>) -> List<PathStep>
    ensures { result ≡ reverse branches }
{
    let mut items = branches.into_vec();
    items.reverse();
    List::from_vec(items)
}

/// The cost of the policy, from above; or why there is none.
fn rounded(walked: Result<Walked, Fault>) -> Result<Verdict, PlanFault>
    requires some { IfOk walked (λ w. 0 < w.under) }
    requires small { IfOk walked (λ w. nat_abs w.up ≤ 2 ^ 126) }
    ensures value { (defined : Result Walked Stop) → GivesWalk walked defined → GivesOrRefutes result (rounded_verdict defined) }
    ensures infeasible { (p : Validated) → OnInfeasible walked (Refutes p) → OnNoStage result (Refutes p) }
{
    match walked {
        Ok(cost) => Ok(Verdict::Cost {
            upper: ceiling(cost.up, cost.under),
        }),
        Err(Fault::Missed(missed)) => Ok(Verdict::Missed {
            branches: reversed(missed.branches),
            row: missed.row,
            residual: missed.residual,
        }),
        Err(Fault::Stopped(fault)) => Err(fault),
    }
}

/// The cost of the whole policy, over its least common denominator.
fn whole_cost<V: Solver>(
    work: &mut Workspace<V>,
    planner: &Planner<V>,
    pools: &Pools,
) -> Result<Walked, Fault>
    requires fit { PoolsFit planner.now.problem.now pools.now.lists }
    requires small { too_big_of planner.now.problem.now ≡ None }
    ensures value { GivesWalk result (root_cost (decide_branch (V.does planner.now.solver.now) planner.now.problem.now pools.now.lists) (problem_of planner.now.problem.now) planner.now.problem.now.longest) }
    ensures some { IfOk result (λ w. 0 < w.under) }
    ensures small { IfOk result (λ w. nat_abs w.up ≤ 2 ^ 126) }
    ensures infeasible { OnInfeasible result (Refutes planner.now.problem.now) }
{
    let problem = planner.problem();
    let parts = problem.parts();
    let state = initial_state(work.alloc(), problem)?;
    let course = Course { planner, pools };
    let successors = WeightedNodes {
        nodes: parts.root.as_slice(),
        weights: parts.root_weights.as_slice(),
    };
    let stages = problem.longest();
    let sum = successor_costs(work, &course, stages, 0, &successors, state.as_slice())?;
    Ok(share(total(successors.weights), sum))
}

/// Gives the cost of the whole policy over these pools, at scale 2^24, rounded up once. Each node of the graph is decided at
/// each of its realizations and each state that comes into it, from the initial state on, as [`plan_mend::decide_mended`] does
/// it: by the answer to the stage problem, rounded down and brought into the boxes, and where that answer is a point, mended to
/// meet the rows as [`plan_mend::mended`] does it. No branch is left out, and no cost is rounded on the way.
///
/// No formula of the problem is above its limit.
///
/// Cost where each branch meets its rows: then these decisions are a policy, `upper` is the least whole number that is not
/// below its cost, and over sound pools their bound is at most `upper`. Missed at the first branch, in order of the root's
/// successors and then of the realizations, each before the trees behind it, whose decisions miss a row. Infeasible exactly
/// at the first branch where no decisions exist, if no branch before it misses a row; its `run` is the number of the
/// branches that were decided before. Memory where memory was refused.
pub fn evaluate<V: Solver>(
    work: &mut Workspace<V>,
    planner: &Planner<V>,
    pools: &Pools,
) -> Result<Verdict, PlanFault>
    requires fit { PoolsFit planner.now.problem.now pools.now.lists }
    requires small { too_big_of planner.now.problem.now ≡ None }
    ensures value { GivesOrRefutes result (verdict_of (V.does planner.now.solver.now) planner.now.problem.now pools.now.lists) }
    ensures two_sided { OnCost result (λ upper. (f : Forest) × Policy (problem_of planner.now.problem.now) S f × IsLeastUpper (problem_of planner.now.problem.now) f upper
        × (Sound (problem_of planner.now.problem.now) pools.now.lists → bound (problem_of planner.now.problem.now) pools.now.lists ≤ℤ upper)) }
    ensures infeasible { OnNoStage result (Refutes planner.now.problem.now) }
{
    let _ = planner.problem().parts();
    rounded(whole_cost(work, planner, pools))
}
