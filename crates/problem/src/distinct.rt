// Names and numbers that rise, and names and numbers of which none comes twice.
ghost use Rattle.std.specs.Prelude.{◌≡◌, ◌==◌, ◌&&◌, length, nat_lt, not};
ghost use Rattle.std.specs.List.{list_all, list_any, zip};
ghost use Rattle.std.specs.Str.{bytes_eq};
ghost use Rattle.problem.specs.Distinct.{are_distinct, is_before, rises};
ghost use Rattle.problem.specs.Limits.{is_name, names_fit, names_rise, outs_differ};

use crate::limits::is_name;
use crate::parts::{Decision, Node, ProblemParts, State, Subproblem};
use base_num::Name;

fn is_before(name: &Name, next: &Name) -> bool
    ensures { result ≡ is_before name.now next.now }
{
    name.as_str() < next.as_str()
}

// Tells whether each state comes before the one beside it.
fn states_before(states: &[State], others: &[State]) -> bool
    ensures { result ≡ list_all (λ p. is_before p.0.name p.1.name) (zip states.now others.now) }
{
    states
        .iter()
        .zip(others)
        .all(|(state, other)| is_before(&state.name, &other.name))
}

#[tactic(auto, unfolding(crate::specs::Distinct::rises))]
fn states_rise(states: &[State]) -> bool
    ensures { result ≡ rises (λ a b. is_before a.name b.name) states.now }
{
    match states {
        [] => true,
        [_, tail @ ..] => states_before(states, tail),
    }
}

// Tells whether each node comes before the one beside it.
fn nodes_before(nodes: &[Node], others: &[Node]) -> bool
    ensures { result ≡ list_all (λ p. is_before p.0.name p.1.name) (zip nodes.now others.now) }
{
    nodes
        .iter()
        .zip(others)
        .all(|(node, other)| is_before(&node.name, &other.name))
}

#[tactic(auto, unfolding(crate::specs::Distinct::rises))]
fn nodes_rise(nodes: &[Node]) -> bool
    ensures { result ≡ rises (λ a b. is_before a.name b.name) nodes.now }
{
    match nodes {
        [] => true,
        [_, tail @ ..] => nodes_before(nodes, tail),
    }
}

/// Tells whether the states and the nodes stand in the byte order of their names, each name once.
#[tactic(auto, unfolding(crate::specs::Limits::names_rise))]
pub(crate) fn names_rise(parts: &ProblemParts) -> bool
    ensures { result ≡ names_rise parts.now }
{
    states_rise(parts.states.as_slice()) && nodes_rise(parts.nodes.as_slice())
}

// Tells whether each number is below the one beside it.
fn numbers_below(numbers: &[u32], others: &[u32]) -> bool
    ensures { result ≡ list_all (λ p. nat_lt p.0 p.1) (zip numbers.now others.now) }
{
    numbers
        .iter()
        .zip(others)
        .all(|(number, other)| *number < *other)
}

/// Tells whether each number is above the one before it.
#[tactic(auto, unfolding(crate::specs::Distinct::rises))]
pub(crate) fn numbers_rise(numbers: &[u32]) -> bool
    ensures { result ≡ rises nat_lt numbers.now }
{
    match numbers {
        [] => true,
        [_, tail @ ..] => numbers_below(numbers, tail),
    }
}

fn is_same(name: &Name, other: &Name) -> bool
    ensures { result ≡ bytes_eq name.now other.now }
{
    name.as_str() == other.as_str()
}

fn is_among(name: &Name, names: &[Name]) -> bool
    ensures { result ≡ list_any (bytes_eq name.now) names.now }
{
    names.iter().any(|other| is_same(name, other))
}

fn is_name_among(decision: &Decision, decisions: &[Decision]) -> bool
    ensures { result ≡ list_any (λ d. bytes_eq decision.now.name d.name) decisions.now }
{
    decisions
        .iter()
        .any(|other| is_same(&decision.name, &other.name))
}

#[tactic(auto, unfolding(crate::specs::Distinct::are_distinct))]
fn decisions_differ(decisions: &[Decision]) -> bool
    ensures { result ≡ are_distinct (λ a b. bytes_eq a.name b.name) decisions.now }
{
    for (at, decision) in decisions.iter().enumerate() {
        if is_name_among(decision, &decisions[at + 1..]) {
            return false;
        }
    }
    true
}

#[tactic(auto, unfolding(crate::specs::Distinct::are_distinct))]
fn names_differ(names: &[Name]) -> bool
    ensures { result ≡ are_distinct bytes_eq names.now }
{
    for (at, name) in names.iter().enumerate() {
        if is_among(name, &names[at + 1..]) {
            return false;
        }
    }
    true
}

// Tells whether no decision has one of these names.
fn are_apart(decisions: &[Decision], names: &[Name]) -> bool
    ensures { result ≡ list_all (λ d. not (list_any (bytes_eq d.name) names.now)) decisions.now }
{
    decisions
        .iter()
        .all(|decision| !is_among(&decision.name, names))
}

fn are_names(names: &[Name]) -> bool
    ensures { result ≡ list_all is_name names.now }
{
    names.iter().all(|name| is_name(name))
}

/// Tells whether no two decisions and random variables have the same name, and the names of random variables are short.
#[tactic(auto, unfolding(crate::specs::Limits::names_fit))]
pub(crate) fn names_fit(subproblem: &Subproblem) -> bool
    ensures { result ≡ names_fit subproblem.now }
{
    decisions_differ(subproblem.decisions.as_slice())
        && names_differ(subproblem.randoms.as_slice())
        && are_apart(
            subproblem.decisions.as_slice(),
            subproblem.randoms.as_slice(),
        )
        && are_names(subproblem.randoms.as_slice())
}

fn is_number_among(number: u32, numbers: &[u32]) -> bool
    ensures { result ≡ list_any (λ n. number == n) numbers.now }
{
    numbers.iter().any(|other| number == *other)
}

#[tactic(auto, unfolding(crate::specs::Distinct::are_distinct))]
fn numbers_differ(numbers: &[u32]) -> bool
    ensures { result ≡ are_distinct (λ a b. a == b) numbers.now }
{
    for (at, number) in numbers.iter().enumerate() {
        if is_number_among(*number, &numbers[at + 1..]) {
            return false;
        }
    }
    true
}

/// Tells whether no decision is the outgoing state of two states.
#[tactic(auto, unfolding(crate::specs::Limits::outs_differ))]
pub(crate) fn outs_differ(subproblem: &Subproblem) -> bool
    ensures { result ≡ outs_differ subproblem.now }
{
    numbers_differ(subproblem.outs.as_slice())
}
