// Decisions at a node.
ghost use Rattle.std.specs.Prelude.{◌≡◌, ◌<◌, ◌≤◌, ◌^◌, ◌/◌, ℕ, ℤ, pos, ◌*ℤ◌, true, [], length, get_or, map, nat_abs, Contains, Some, IfOk};
ghost use Rattle.base_num.specs.Sums.{entry, floor_over, table};
ghost use Rattle.problem.specs.declared.parts.Decision.{Decision};
ghost use Rattle.problem.specs.Limits.{are_values};
ghost use Rattle.problem.specs.Parts.{successors_at};
ghost use Rattle.problem.specs.Validated.{subproblem_of};
ghost use Rattle.theory.specs.Problem.{S, node_at};
ghost use Rattle.theory.specs.Tree.{InBox, next_state};
ghost use Rattle.theory.specs.View.{problem_of};
ghost use Rattle.cut_pool.specs.AtNodes.{IsStateAt, PoolsFit};
ghost use Rattle.plan_answer.specs.declared.classifying.Classified.{Classified};
ghost use Rattle.plan_stage.specs.Stage.{whole_fixed};
ghost use Rattle.plan_forward.specs.Deciding.{boxed_decision, decide_by, decide_of, decided_of, decision_from_point, rescaled_decision};
ghost use Rattle.plan_answer.specs.Faults.{GivesOrRefutes, OnNoStage, Refutes};

use base_num::{List, Memory, floor_div};
use cut_pool::Pools;
use lp_program::fixed::ONE;
use lp_program::{Answer, Fx, Kind, Solver};
use plan_answer::{Classified, Infeasibility, PlanFault, classify};
use plan_stage::{Planner, Workspace, solve_stage};
use problem::{Decision, Problem, Subproblem};
use std::alloc::Global;
use theory::SCALE;

/// The ratio of the scale of a solver's numbers to that of decisions.
const FINER: i128 = ONE / SCALE as i128;

/// The input of a stage.
#[derive(Clone, Copy)]
pub struct StageInput<'a> {
    /// The number that an infeasibility carries: that of the iteration or of the scenario.
    pub run: u32,
    /// The node's number.
    pub node: u32,
    /// One value per random variable.
    pub values: &'a [i64],
    /// The incoming state, one number per state, at scale 2^24.
    pub state: &'a [i128],
}

/// The decisions at a node, and the state that leaves it.
#[derive(Drop)]
pub struct Decided {
    /// The kind of the answer to the stage problem.
    pub kind: Kind,
    /// The answer is of no use: no point was found, and nothing was shown.
    pub unanswered: bool,
    /// One number per decision, at scale 2^24, in 2^24 times its box.
    pub decisions: List<i128>,
    /// The state that leaves the node, one number per state, at scale 2^24.
    pub next: List<i128>,
}

/// The value of a decision in a point, and its least value where it is missing.
fn value_at(point: &[Fx], at: usize, low: i64) -> i128
    ensures { result ≡ (get_or point.now at (whole_fixed low)).0 }
{
    match point.get(at) {
        Some(value) => value.0,
        None => ONE * i128::from(low),
    }
}

/// A number at the scale of decisions.
#[tactic(auto, unfolding(theory::specs::Problem::S))]
pub fn scaled(number: i64) -> i128
    ensures value { result ≡ pos S *ℤ number }
    ensures small { nat_abs result ≤ 2 ^ 87 }
{
    i128::from(SCALE) * i128::from(number)
}

/// A solver's number at the scale of decisions, rounded down.
fn rescaled(value: i128) -> i128
    ensures { result ≡ floor_over value (2 ^ 32 / 2 ^ 24) }
{
    floor_div(value, FINER)
}

/// The nearest number in the box.
fn boxed(decision: &Decision, number: i128) -> i128
    ensures { result ≡ boxed_decision decision.now.low decision.now.high number }
{
    number.min(scaled(decision.high)).max(scaled(decision.low))
}

fn decision_at(point: &[Fx], at: usize, decision: &Decision) -> i128
    ensures { result ≡ decision_from_point point.now at decision.now.low decision.now.high }
{
    boxed(decision, rescaled(value_at(point, at, decision.low)))
}

/// The decisions at a point, in the memory of a list without values.
fn decisions_at(
    over: List<i128>,
    decisions: &[Decision],
    point: &[Fx],
) -> Result<List<i128>, Memory>
    requires { over ≡ [] }
    ensures { let lows = map (λ (d : Decision). d.low) decisions.now in
        let highs = map (λ (d : Decision). d.high) decisions.now in
        IfOk result (λ found. found ≡ table (length lows) (λ j. decision_from_point point.now j (entry lows j) (entry highs j))) }
{
    let mut found = over;
    for (j, decision) in decisions.iter().enumerate() {
        found.push(decision_at(point, j, decision))?;
    }
    Ok(found)
}

/// The decision with a number, 0 where there is none.
fn number_at(decisions: &[i128], at: usize) -> i128
    ensures { result ≡ entry decisions.now at }
{
    match decisions.get(at) {
        Some(number) => *number,
        None => 0,
    }
}

/// The decisions that leave a node as states, one per number in `outs`, in order and at the scale of the decisions; a
/// number past the last decision gives 0. Memory where memory was refused.
pub fn next_state(alloc: Global, outs: &[u32], decisions: &[i128]) -> Result<List<i128>, Memory>
    ensures { IfOk result (λ found. found ≡ map (λ o. entry decisions.now o) outs.now) }
{
    let mut found = List::from_vec(Vec::with_capacity(alloc, outs.len())?);
    for out in outs {
        found.push(number_at(decisions, *out as usize))?;
    }
    Ok(found)
}

/// Gives the decisions by an answer, in the memory of a list without values, and the state that leaves the node.
fn decided_of(
    alloc: Global,
    over: List<i128>,
    subproblem: &Subproblem,
    answer: &Answer,
    unanswered: bool,
) -> Result<Decided, Memory>
    requires { over ≡ [] }
    ensures { let lows = map (λ (d : Decision). d.low) subproblem.now.decisions in
        let highs = map (λ (d : Decision). d.high) subproblem.now.decisions in
        let u = table (length lows) (λ j. decision_from_point answer.now.point j (entry lows j) (entry highs j)) in
        IfOk result (λ found. found ≡ record { kind = answer.now.kind; unanswered = unanswered; decisions = u; next = map (λ o. entry u o) subproblem.now.outs }) }
{
    let decisions = decisions_at(
        over,
        subproblem.decisions.as_slice(),
        answer.point.as_slice(),
    )?;
    let next = next_state(alloc, subproblem.outs.as_slice(), decisions.as_slice())?;
    Ok(Decided {
        kind: answer.kind,
        unanswered,
        decisions,
        next,
    })
}

/// Gives the infeasibility, or the decisions, in the memory of a list without values.
fn decide_by(
    alloc: Global,
    over: List<i128>,
    problem: &Problem,
    input: &StageInput,
    answer: &Answer,
    classified: Classified,
) -> Result<Decided, PlanFault>
    requires known { input.now.node < length problem.now.parts.nodes }
    requires over { over ≡ [] }
    ensures { GivesOrRefutes result (decide_by problem.now input.now.run input.now.node input.now.values.now input.now.state.now answer.now classified) }
{
    match classified {
        Classified::Found => Ok(decided_of(alloc, over, problem.sub(input.node), answer, false)?),
        Classified::Unanswered => Ok(decided_of(
            alloc,
            over,
            problem.sub(input.node),
            answer,
            true,
        )?),
        Classified::Infeasibility(rows) => {
            let StageInput {
                run,
                node,
                values,
                state,
            } = *input;
            Err(PlanFault::Infeasible(Infeasibility::new(alloc, run, node, values, state, rows)?))
        }
    }
}

/// Decides at a node, at values of its random variables and an incoming state, by a solver's answer to the stage problem, which
/// is solved in a chain of its own.
///
/// A decision is the answer's number at scale 2^24, rounded down, and then the nearest in 2^24 times the decision's box;
/// a missing number counts as the decision's least.
///
/// There is one value per random variable of the node's subproblem, each at most 2^40 in absolute value, and the state, at
/// scale 2^24, lies in the node's box.
///
/// Infeasible exactly where the answer is classified as infeasible: then no decisions exist there, in any fraction of a unit. Memory
/// where memory was refused.
#[tactic(auto, unfolding(crate::specs::Deciding::decide_of))]
pub fn decide<V: Solver>(
    work: &mut Workspace<V>,
    planner: &Planner<V>,
    pools: &Pools,
    input: &StageInput,
) -> Result<Decided, PlanFault>
    requires known { input.now.node < length planner.now.problem.now.parts.nodes }
    requires fit { PoolsFit planner.now.problem.now pools.now.lists }
    requires values { are_values (subproblem_of planner.now.problem.now input.now.node) input.now.values.now ≡ true }
    requires state { IsStateAt planner.now.problem.now input.now.node input.now.state.now }
    ensures value { GivesOrRefutes result (decide_of (V.does planner.now.solver.now) planner.now.problem.now pools.now.lists input.now.run input.now.node input.now.values.now input.now.state.now) }
    ensures inside { let n = node_at (problem_of planner.now.problem.now) input.now.node in
        IfOk result (λ d. InBox S n.decision_low n.decision_high d.decisions) }
    ensures next { IfOk result (λ d. (m : ℕ) → Contains (successors_at planner.now.problem.now.parts input.now.node) m
        → IsStateAt planner.now.problem.now m d.next) }
    ensures infeasible { OnNoStage result (Refutes planner.now.problem.now) }
{
    let problem = planner.problem();
    let _ = problem.parts();
    let StageInput {
        node,
        values,
        state,
        ..
    } = *input;
    let answer = solve_stage(work, planner, pools, node, values, state)?;
    let classified = classify(work.alloc(), problem, node, values, state, &answer)?;
    let alloc = work.alloc();
    let over = work.decisions.take(alloc);
    decide_by(alloc, over, problem, input, &answer, classified)
}
