// Upper bounds on the absolute costs of a problem's stages.
ghost use Rattle.std.specs.Prelude.{◌≡◌, ◌<◌, ◌+◌, ◌*◌, length, map, min, nat_abs};
ghost use Rattle.problem.specs.declared.parts.Decision.{Decision};
ghost use Rattle.problem.specs.declared.parts.Node as nodes;
ghost use Rattle.theory.specs.View.{node_of, problem_of};
ghost use Rattle.policy_evaluate.specs.TooBig.{most_size, node_size, box_reach, reaches, sizes, stage_cost_size};

use crate::capped::{capped_product, capped_sum};
use problem::{Decision, Problem, Subproblem};

/// The greatest absolute value in a box, and at least 1.
fn reach(low: i64, high: i64) -> u64
    ensures { result ≡ box_reach low high }
{
    low.unsigned_abs().max(high.unsigned_abs()).max(1)
}

/// A sum with the absolute cost times a size more, and the cap where it is above that.
fn add_size(total: u64, cost: i64, size: u64, cap: u64) -> u64
    ensures { result ≡ min (total + nat_abs cost * size) cap }
{
    capped_sum(total, capped_product(cost.unsigned_abs(), size, cap), cap)
}

/// The sum of the absolute costs times the absolute values, and the cap where it is above that.
fn sizes(costs: &[i64], values: &[i64], cap: u64) -> u64
    requires { length values.now ≡ length costs.now }
    ensures { result ≡ min (sizes costs.now values.now) cap }
{
    let mut total = 0;
    for i in 0..costs.len() {
        total = add_size(total, costs[i], values[i].unsigned_abs(), cap);
    }
    total
}

/// The sum of the absolute costs times the reach of their boxes, and the cap where it is above that.
fn state_reaches(costs: &[i64], lows: &[i64], highs: &[i64], cap: u64) -> u64
    requires lows { length lows.now ≡ length costs.now }
    requires highs { length highs.now ≡ length costs.now }
    ensures { result ≡ min (reaches costs.now lows.now highs.now) cap }
{
    let mut total = 0;
    for i in 0..costs.len() {
        total = add_size(total, costs[i], reach(lows[i], highs[i]), cap);
    }
    total
}

/// The sum of the absolute costs of decisions times the reach of their boxes, and the cap where it is above that.
fn decision_reaches(decisions: &[Decision], cap: u64) -> u64
    ensures { result ≡ min (reaches (map (λ (d : Decision). d.cost) decisions.now) (map (λ (d : Decision). d.low) decisions.now) (map (λ (d : Decision). d.high) decisions.now)) cap }
{
    let mut total = 0;
    for decision in decisions {
        let reach = reach(decision.low, decision.high);
        total = add_size(total, decision.cost, reach, cap);
    }
    total
}

/// The absolute stage cost sum of a subproblem at some values, over a box of its incoming state, and the cap where it is
/// above that.
fn stage_size(subproblem: &Subproblem, lows: &[i64], highs: &[i64], values: &[i64], cap: u64) -> u64
    requires values { length values.now ≡ length subproblem.now.random_costs }
    requires lows { length lows.now ≡ length subproblem.now.state_costs }
    requires highs { length highs.now ≡ length subproblem.now.state_costs }
    ensures { (n : nodes.Node) → result ≡ min (stage_cost_size (node_of n subproblem.now lows.now highs.now) values.now) cap }
{
    let of_values = sizes(subproblem.random_costs.as_slice(), values, cap);
    let of_decisions = decision_reaches(subproblem.decisions.as_slice(), cap);
    let of_states = state_reaches(subproblem.state_costs.as_slice(), lows, highs, cap);
    let given = capped_sum(subproblem.constant.unsigned_abs(), of_values, cap);
    capped_sum(capped_sum(given, of_decisions, cap), of_states, cap)
}

/// The greatest absolute stage cost sum of a node, and the cap where it is above that.
fn node_size(problem: &Problem, node: u32, cap: u64) -> u64
    requires { node < length problem.now.parts.nodes }
    ensures { result ≡ min (node_size (problem_of problem.now) node) cap }
{
    let _ = problem.parts();
    let subproblem = problem.sub(node);
    let (lows, highs) = (problem.lo(node), problem.hi(node));
    let mut most = 0u64;
    for values in problem.node(node).values.as_slice() {
        let size = stage_size(subproblem, lows, highs, values.as_slice(), cap);
        most = most.max(size);
    }
    most
}

/// The greatest absolute stage cost sum of all nodes, and the cap where it is above that.
fn most_size(problem: &Problem, cap: u64) -> u64
    ensures { result ≡ min (most_size problem.now) cap }
{
    let count = problem.parts().nodes.len() as u32;
    let mut most = 0u64;
    for node in 0..count {
        most = most.max(node_size(problem, node, cap));
    }
    most
}

/// The greatest absolute stage cost sum times the number of nodes on the longest path, and the cap where it is above
/// that.
pub(crate) fn path_size(problem: &Problem, cap: u64) -> u64
    ensures { result ≡ min (problem.now.longest * most_size problem.now) cap }
{
    capped_product(u64::from(problem.longest()), most_size(problem, cap), cap)
}
