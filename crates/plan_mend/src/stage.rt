// The stage that decisions are of.
ghost use Rattle.std.specs.Prelude.{◌≡◌, ◌<◌, ◌≤◌, ◌^◌, [], false, length, get_or, nat_abs};
ghost use Rattle.base_num.specs.Sums.{entry};
ghost use Rattle.theory.specs.Problem.{node_at};
ghost use Rattle.theory.specs.View.{problem_of};
ghost use Rattle.plan_mend.specs.Moves.{is_met};
ghost use Rattle.plan_mend.specs.Stages.{no_decision, frame_at, IsNodeStage, AreDecisionsInside, IsWithout};

use plan_forward::miss;
use problem::{Decision, Problem};

/// A node at values of its random variables and an incoming state.
#[derive(Clone, Copy)]
pub(crate) struct MendedStage<'a> {
    pub(crate) problem: &'a Problem,
    pub(crate) node: u32,
    /// One value per random variable.
    pub(crate) values: &'a [i64],
    /// One number per state, at scale 2^24.
    pub(crate) state: &'a [i128],
}

/// The number of rows of a node.
pub fn row_count(problem: &Problem, node: u32) -> u32
    requires { node < length problem.now.parts.nodes }
    ensures { result ≡ length (node_at (problem_of problem.now) node).rows }
{
    let _ = problem.parts();
    problem.sub(node).rows.len() as u32
}

/// The number of rows of a stage.
pub(crate) fn stage_row_count(stage: &MendedStage) -> u32
    requires { IsNodeStage stage.now }
    ensures { result ≡ length (frame_at stage.now).rows }
{
    row_count(stage.problem, stage.node)
}

/// The box of a decision, 0 and 0 where there is none.
fn box_in(decisions: &[Decision], at: u32) -> (i64, i64)
    ensures low { result.0 ≡ (get_or decisions.now at no_decision).low }
    ensures high { result.1 ≡ (get_or decisions.now at no_decision).high }
{
    match decisions.get(at as usize) {
        Some(decision) => (decision.low, decision.high),
        None => (0, 0),
    }
}

/// The cost of a decision, 0 where there is none.
fn cost_in(decisions: &[Decision], at: u32) -> i64
    ensures { result ≡ (get_or decisions.now at no_decision).cost }
{
    match decisions.get(at as usize) {
        Some(decision) => decision.cost,
        None => 0,
    }
}

/// The box of a decision of a stage.
pub(crate) fn box_at(stage: &MendedStage, at: u32) -> (i64, i64)
    requires { IsNodeStage stage.now }
    ensures low { result.0 ≡ entry (frame_at stage.now).lows at }
    ensures high { result.1 ≡ entry (frame_at stage.now).highs at }
{
    box_in(stage.problem.sub(stage.node).decisions.as_slice(), at)
}

/// The cost of a decision of a stage.
pub(crate) fn cost_at(stage: &MendedStage, at: u32) -> i64
    requires { IsNodeStage stage.now }
    ensures value { result ≡ entry (frame_at stage.now).costs at }
    ensures small { nat_abs result ≤ 2 ^ 40 }
{
    let _ = stage.problem.parts();
    cost_in(stage.problem.sub(stage.node).decisions.as_slice(), at)
}

/// The terms of decisions of a row.
pub(crate) fn terms_at<'a>(stage: &MendedStage<'a>, row: u32) -> &'a [(u32, i64)]
    requires stage { IsNodeStage stage.now }
    requires row { row < length (frame_at stage.now).rows }
    ensures { result.now ≡ get_or (frame_at stage.now).rows row [] }
{
    stage.problem.sub(stage.node).rows.as_slice()[row as usize]
        .decisions
        .as_slice()
}

/// Tells whether a row has a term of a decision.
pub(crate) fn has_term(stage: &MendedStage, row: u32, at: u32) -> bool
    requires stage { IsNodeStage stage.now }
    requires row { row < length (frame_at stage.now).rows }
    ensures { result ≡ false → IsWithout at (get_or (frame_at stage.now).rows row []) }
{
    let terms = terms_at(stage, row);
    for k in 0..terms.len() {
        if terms[k].0 == at {
            return true;
        }
    }
    false
}

/// Gives the miss of a row: by how much its left side has to rise for the decisions to meet it, negative where it has to fall.
pub(crate) fn miss_at(stage: &MendedStage, numbers: &[i128], row: u32) -> i128
    requires stage { IsNodeStage stage.now }
    requires inside { AreDecisionsInside stage.now numbers.now }
    requires row { row < length (frame_at stage.now).rows }
    ensures value { result ≡ (frame_at stage.now).miss numbers.now row }
    ensures small { nat_abs result ≤ 2 ^ 115 }
{
    let MendedStage {
        problem,
        node,
        values,
        state,
    } = *stage;
    miss(problem, node, row, numbers, state, values)
}

/// Tells whether decisions meet a row.
pub(crate) fn is_met(stage: &MendedStage, numbers: &[i128], row: u32) -> bool
    requires stage { IsNodeStage stage.now }
    requires inside { AreDecisionsInside stage.now numbers.now }
    requires row { row < length (frame_at stage.now).rows }
    ensures { result ≡ is_met (frame_at stage.now) numbers.now row }
{
    miss_at(stage, numbers, row) == 0
}
