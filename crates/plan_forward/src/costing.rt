// Residuals of rows, and costs of stages.
ghost use Rattle.std.specs.Prelude.{◌≡◌, ◌<◌, ◌≤◌, ◌^◌, ℤ, List, pos, ◌+ℤ◌, length, get_or, nat_abs, true};
ghost use Rattle.problem.specs.Limits.{are_values};
ghost use Rattle.problem.specs.Validated.{subproblem_of};
ghost use Rattle.problem.specs.declared.parts.Node as nodes;
ghost use Rattle.theory.specs.Problem.{S, node_at};
ghost use Rattle.theory.specs.Tree.{InBox, left_side};
ghost use Rattle.theory.specs.View.{node_of, problem_of};
ghost use Rattle.plan_forward.specs.Amounts.{AreCosts, AreStageAmounts, AreTermsOver};
ghost use Rattle.plan_forward.specs.Costing.{above_high, below_low, miss_of, misses_of, residual_of, residuals_of, stage_cost_of};
ghost use Rattle.cut_pool.specs.AtNodes.{IsStateAt};

use crate::amounts::{Costs, Given, Raised, Scaled, products_sum, terms_sum};
use crate::deciding::scaled;
use problem::{Problem, Row, Subproblem};

/// The sum of three numbers.
fn sum_of_three(a: i128, b: i128, c: i128) -> i128
    requires a { nat_abs a ≤ 2 ^ 112 }
    requires b { nat_abs b ≤ 2 ^ 112 }
    requires c { nat_abs c ≤ 2 ^ 112 }
    ensures value { result ≡ a +ℤ b +ℤ c }
    ensures small { nat_abs result ≤ 2 ^ 114 }
{
    a + b + c
}

/// The sum of two numbers.
fn sum_of_two(a: i128, b: i128) -> i128
    requires a { nat_abs a ≤ 2 ^ 114 }
    requires b { nat_abs b ≤ 2 ^ 112 }
    ensures { result ≡ a +ℤ b }
{
    a + b
}

/// The left side of a row, at scale 2^24.
fn left_side(row: &Row, decisions: &[i128], state: &[i128], values: &[i64]) -> i128
    requires given { AreStageAmounts decisions.now state.now values.now }
    requires over { AreTermsOver decisions.now state.now values.now row.now }
    ensures value { result ≡ left_side S values.now state.now decisions.now row.now }
    ensures small { nat_abs result ≤ 2 ^ 114 }
{
    let of_decisions = terms_sum(row.decisions.as_slice(), &Scaled { numbers: decisions });
    let of_state = terms_sum(row.states.as_slice(), &Scaled { numbers: state });
    let of_values = terms_sum(row.randoms.as_slice(), &Raised { values });
    sum_of_three(of_decisions, of_state, of_values)
}

/// Gives by how much the left side lies below the lower side.
fn below(low: Option<i64>, left: i128) -> i128
    requires { nat_abs left ≤ 2 ^ 114 }
    ensures value { result ≡ below_low low left }
    ensures small { nat_abs result ≤ 2 ^ 115 }
{
    match low {
        Some(low) => scaled(low) - left,
        None => 0,
    }
}

/// Gives by how much the left side lies above the upper side.
fn above(high: Option<i64>, left: i128) -> i128
    requires { nat_abs left ≤ 2 ^ 114 }
    ensures value { result ≡ above_high high left }
    ensures small { nat_abs result ≤ 2 ^ 115 }
{
    match high {
        Some(high) => left - scaled(high),
        None => 0,
    }
}

/// Gives by how much the decisions miss a row.
#[tactic(auto, unfolding(crate::specs::Costing::residual_of))]
fn residual_of(row: &Row, decisions: &[i128], state: &[i128], values: &[i64]) -> i128
    requires given { AreStageAmounts decisions.now state.now values.now }
    requires over { AreTermsOver decisions.now state.now values.now row.now }
    ensures { result ≡ residual_of row.now decisions.now state.now values.now }
{
    let left = left_side(row, decisions, state, values);
    below(row.low, left).max(above(row.high, left)).max(0)
}

/// Gives by how much decisions miss a row of a node at an incoming state and values, at scale 2^24, and 0 exactly where they
/// meet it. No memory is taken.
///
/// The decisions, at scale 2^24, lie in 2^24 times their boxes, the state, at the same scale, in the node's box, and
/// there is one value per random variable, each at most 2^40 in absolute value.
pub fn residual(
    problem: &Problem,
    node: u32,
    row: u32,
    decisions: &[i128],
    state: &[i128],
    values: &[i64],
) -> i128
    requires known { node < length problem.now.parts.nodes }
    requires row { row < length (node_at (problem_of problem.now) node).rows }
    requires decisions { InBox S (node_at (problem_of problem.now) node).decision_low (node_at (problem_of problem.now) node).decision_high decisions.now }
    requires state { IsStateAt problem.now node state.now }
    requires values { are_values (subproblem_of problem.now node) values.now ≡ true }
    ensures { result ≡ get_or (residuals_of (node_at (problem_of problem.now) node) decisions.now state.now values.now) row (pos 0) }
{
    let _ = problem.parts();
    let own = &problem.sub(node).rows.as_slice()[row as usize];
    residual_of(own, decisions, state, values)
}

/// Gives by how much the left side of a row has to rise to meet it, negative where it has to fall.
#[tactic(auto, unfolding(crate::specs::Costing::miss_of))]
fn miss_of(row: &Row, decisions: &[i128], state: &[i128], values: &[i64]) -> i128
    requires given { AreStageAmounts decisions.now state.now values.now }
    requires over { AreTermsOver decisions.now state.now values.now row.now }
    ensures value { result ≡ miss_of row.now decisions.now state.now values.now }
    ensures small { nat_abs result ≤ 2 ^ 115 }
{
    let left = left_side(row, decisions, state, values);
    let rise = below(row.low, left);
    if rise > 0 {
        rise
    } else {
        -above(row.high, left).max(0)
    }
}

/// Gives by how much the left side of a row of a node has to rise at an incoming state and values for the decisions to meet it,
/// at scale 2^24: negative where it has to fall, and 0 exactly where they meet it. No memory is taken. The decisions, the state
/// and the values are as in [`residual`].
pub fn miss(
    problem: &Problem,
    node: u32,
    row: u32,
    decisions: &[i128],
    state: &[i128],
    values: &[i64],
) -> i128
    requires known { node < length problem.now.parts.nodes }
    requires row { row < length (node_at (problem_of problem.now) node).rows }
    requires decisions { InBox S (node_at (problem_of problem.now) node).decision_low (node_at (problem_of problem.now) node).decision_high decisions.now }
    requires state { IsStateAt problem.now node state.now }
    requires values { are_values (subproblem_of problem.now node) values.now ≡ true }
    ensures value { result ≡ get_or (misses_of (node_at (problem_of problem.now) node) decisions.now state.now values.now) row (pos 0) }
    ensures small { nat_abs result ≤ 2 ^ 115 }
{
    let _ = problem.parts();
    let own = &problem.sub(node).rows.as_slice()[row as usize];
    miss_of(own, decisions, state, values)
}

/// Gives the cost of a stage of a subproblem.
fn cost_of(subproblem: &Subproblem, decisions: &[i128], state: &[i128], values: &[i64]) -> i128
    requires given { AreStageAmounts decisions.now state.now values.now }
    requires costs { AreCosts decisions.now state.now values.now subproblem.now }
    ensures { (n : nodes.Node) (low high : List ℤ)
        → result ≡ stage_cost_of (node_of n subproblem.now low high) decisions.now state.now values.now }
{
    let numbers = Raised { values };
    let factors = Given {
        factors: subproblem.random_costs.as_slice(),
    };
    let of_values = products_sum(factors.factors.len(), &factors, &numbers);
    let costs = Costs {
        decisions: subproblem.decisions.as_slice(),
    };
    let of_decisions = products_sum(
        costs.decisions.len(),
        &costs,
        &Scaled { numbers: decisions },
    );
    let factors = Given {
        factors: subproblem.state_costs.as_slice(),
    };
    let of_state = products_sum(factors.factors.len(), &factors, &Scaled { numbers: state });
    sum_of_two(
        sum_of_three(scaled(subproblem.constant), of_values, of_decisions),
        of_state,
    )
}

/// Gives the cost of a stage at decisions, an incoming state and values, at scale 2^24: the constant, and the costs of the
/// random variables, the decisions and the state. No memory is taken. The decisions, the state and the values are as in
/// [`residual`].
pub fn stage_cost(
    problem: &Problem,
    node: u32,
    decisions: &[i128],
    state: &[i128],
    values: &[i64],
) -> i128
    requires known { node < length problem.now.parts.nodes }
    requires decisions { InBox S (node_at (problem_of problem.now) node).decision_low (node_at (problem_of problem.now) node).decision_high decisions.now }
    requires state { IsStateAt problem.now node state.now }
    requires values { are_values (subproblem_of problem.now node) values.now ≡ true }
    ensures { result ≡ stage_cost_of (node_at (problem_of problem.now) node) decisions.now state.now values.now }
{
    let _ = problem.parts();
    cost_of(problem.sub(node), decisions, state, values)
}
