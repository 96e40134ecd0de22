// The stored scenarios: paths through the graph with the values of their random variables.
ghost use Rattle.std.specs.Prelude.{◌≡◌, ◌==◌, slice_get};
ghost use Rattle.std.specs.List.{list_all, list_any};
ghost use Rattle.problem.specs.Limits.{are_values, scenario_fits, scenarios_fit, step_fits, steps_fit};
ghost use Rattle.problem.specs.Parts.{subproblem_at, successors_at};

use crate::limits::{MOST_SCENARIOS, are_numbers};
use crate::parts::{Moment, ProblemParts, Subproblem};
use base_num::List;

fn successors_at(parts: &ProblemParts, node: u32) -> &[u32]
    ensures { result.now ≡ successors_at parts.now node }
{
    match parts.nodes.as_slice().get(node as usize) {
        Some(node) => node.successors.as_slice(),
        None => &[],
    }
}

// Tells whether there is a value for each random variable of a subproblem.
fn are_values(subproblems: &[Subproblem], subproblem: u32, values: &List<i64>) -> bool
    ensures { result ≡ are_values (slice_get subproblems.now subproblem) values.now }
{
    match subproblems.get(subproblem as usize) {
        Some(subproblem) => are_numbers(values, subproblem.randoms.len()),
        None => false,
    }
}

fn values_fit(step: &Moment, parts: &ProblemParts) -> bool
    ensures { result ≡ are_values (subproblem_at parts.now step.now.node) step.now.values }
{
    match parts.nodes.as_slice().get(step.node as usize) {
        Some(node) => are_values(parts.subs.as_slice(), node.sub, &step.values),
        None => false,
    }
}

fn is_among(node: u32, nodes: &[u32]) -> bool
    ensures { result ≡ list_any (λ m. m == node) nodes.now }
{
    nodes.iter().any(|other| *other == node)
}

fn step_fits(step: &Moment, successors: &[u32], parts: &ProblemParts) -> bool
    ensures { result ≡ step_fits parts.now successors.now step.now }
{
    is_among(step.node, successors) && values_fit(step, parts)
}

// Tells whether the steps go from the root along its successors and theirs.
fn steps_fit(steps: &[Moment], parts: &ProblemParts) -> bool
    ensures { result ≡ steps_fit parts.now parts.now.root steps.now }
{
    let mut successors = parts.root.as_slice();
    for step in steps {
        if !step_fits(step, successors, parts) {
            return false;
        }
        successors = successors_at(parts, step.node);
    }
    true
}

fn scenario_fits(steps: &List<Moment>, parts: &ProblemParts) -> bool
    ensures { result ≡ scenario_fits parts.now steps.now }
{
    0 < steps.len() && steps_fit(steps.as_slice(), parts)
}

fn all_fit(scenarios: &[List<Moment>], parts: &ProblemParts) -> bool
    ensures { result ≡ list_all (scenario_fits parts.now) scenarios.now }
{
    scenarios.iter().all(|steps| scenario_fits(steps, parts))
}

/// Tells whether there are at most 1000 stored scenarios, and each is a path from the root with at least one step and the
/// values of each node's random variables.
#[tactic(auto, unfolding(crate::specs::Limits::scenarios_fit))]
pub(crate) fn scenarios_fit(parts: &ProblemParts) -> bool
    ensures { result ≡ scenarios_fit parts.now }
{
    parts.scenarios.len() <= MOST_SCENARIOS && all_fit(parts.scenarios.as_slice(), parts)
}
