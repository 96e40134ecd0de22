// The limits that the parts of a problem keep.
ghost use Rattle.std.specs.Prelude.{◌≡◌, ◌&&◌, ℕ, ◌+◌, ◌≤◌, ◌^◌, ◌<◌, nat_lt, nat_le, length, sum, slice_get};
ghost use Rattle.std.specs.List.{list_all, zip};
ghost use Rattle.problem.specs.Limits.{is_small, are_small, is_name, are_numbers, is_bound, sides_fit, state_fits, decision_fits, term_fits, terms_fit, row_fits, are_weights, counts_fit, costs_fit, subproblem_fits, realizations_fit, successors_in_order_fit, values_fit, node_fits, root_fits, root_successors_fit, successors_fit, parts_are_lawful, bounds_fit, names_fit, names_rise, outs_differ, scenarios_fit};

use crate::distinct::{names_fit, names_rise, numbers_rise, outs_differ};
use crate::parts::{Decision, Node, ProblemParts, Row, State, Subproblem};
use crate::scenarios::scenarios_fit;
use base_num::{List, Name};

/// The most bytes of a problem file.
pub const PROBLEM_BYTES: usize = 1 << 24;

/// The greatest absolute value of a number in a problem.
pub const GREATEST_NUMBER: u64 = 1 << 40;

/// The most bytes of a name.
pub const NAME_BYTES: usize = 128;

/// The most nodes of a problem.
pub const MOST_NODES: usize = 1000;

/// The most subproblems of a problem.
pub const MOST_SUBPROBLEMS: usize = 1000;

/// The most stored scenarios of a problem.
pub const MOST_SCENARIOS: usize = 1000;

/// The most realizations of a node.
pub const MOST_REALIZATIONS: usize = 100;

/// The greatest total of a node's realization weights, of its successors' weights and its stop weight, and of the
/// weights of the root's successors.
pub const GREATEST_TOTAL_WEIGHT: u64 = 65535;

/// The most decisions of a subproblem.
pub const MOST_DECISIONS: usize = 200;

/// The most rows of a subproblem.
pub const MOST_ROWS: usize = 200;

/// The most states of a problem.
pub const MOST_STATES: usize = 50;

/// The most random variables of a subproblem.
pub const MOST_RANDOMS: usize = 50;

/// The most iterations of training, and so the most records of a journal.
pub const MOST_ITERATIONS: u32 = 2000;

/// The most paths of an iteration of training; there is at least 1.
pub const MOST_PATHS: u16 = 64;

/// The most simulated scenarios.
pub const MOST_SIMULATIONS: u32 = 1000;

/// The most stages of a generated problem.
pub const MOST_GENERATED_STAGES: u32 = 500;

/// The most reservoirs of a generated problem.
pub const MOST_GENERATED_RESERVOIRS: u32 = 10;

/// The most lists of alternative weights of a node.
pub const MOST_ALTERNATIVES: usize = 10;

/// The most bytes of a record's payload in a journal.
pub const PAYLOAD_BYTES: u64 = 1 << 26;

pub(crate) fn is_small(number: i64) -> bool
    ensures { result ≡ is_small number }
{
    number.unsigned_abs() <= GREATEST_NUMBER
}

pub(crate) fn is_name(name: &Name) -> bool
    ensures { result ≡ is_name name.now }
{
    name.as_str().len() <= NAME_BYTES
}

fn are_small(numbers: &[i64]) -> bool
    ensures { result ≡ are_small numbers.now }
{
    numbers.iter().all(|number| is_small(*number))
}

pub(crate) fn are_numbers(numbers: &List<i64>, count: usize) -> bool
    ensures { result ≡ are_numbers count numbers.now }
{
    numbers.len() == count && are_small(numbers.as_slice())
}

fn is_bound(side: &Option<i64>) -> bool
    ensures { result ≡ is_bound side.now }
{
    match side {
        None => true,
        Some(side) => is_small(*side),
    }
}

fn sides_fit(low: Option<i64>, high: Option<i64>) -> bool
    ensures { result ≡ sides_fit low high }
{
    match (low, high) {
        (None, high) => is_bound(&high),
        (Some(low), None) => is_small(low),
        (Some(low), Some(high)) => is_small(low) && is_small(high) && low <= high,
    }
}

fn state_fits(state: &State) -> bool
    ensures { result ≡ state_fits state.now }
{
    is_name(&state.name) && is_small(state.initial)
}

fn decision_fits(decision: &Decision) -> bool
    ensures { result ≡ decision_fits decision.now }
{
    is_name(&decision.name)
        && is_small(decision.low)
        && is_small(decision.high)
        && decision.low <= decision.high
        && is_small(decision.cost)
}

fn term_fits(term: &(u32, i64), least: u64, count: usize) -> bool
    ensures { result ≡ term_fits count least term.now }
{
    let (number, factor) = *term;
    least <= number as u64 && (number as usize) < count && is_small(factor) && factor != 0
}

fn terms_fit(terms: &[(u32, i64)], count: usize) -> bool
    ensures { result ≡ terms_fit count 0 terms.now }
{
    let mut least = 0u64;
    for term in terms {
        if !term_fits(term, least, count) {
            return false;
        }
        least = term.0 as u64 + 1;
    }
    true
}

fn row_fits(row: &Row, states: usize, subproblem: &Subproblem) -> bool
    ensures { result ≡ row_fits states subproblem.now row.now }
{
    sides_fit(row.low, row.high)
        && terms_fit(row.decisions.as_slice(), subproblem.decisions.len())
        && terms_fit(row.states.as_slice(), states)
        && terms_fit(row.randoms.as_slice(), subproblem.randoms.len())
}

fn rows_fit(rows: &[Row], states: usize, subproblem: &Subproblem) -> bool
    ensures { result ≡ list_all (row_fits states subproblem.now) rows.now }
{
    rows.iter().all(|row| row_fits(row, states, subproblem))
}

fn decisions_fit(decisions: &[Decision]) -> bool
    ensures { result ≡ list_all decision_fits decisions.now }
{
    decisions.iter().all(|decision| decision_fits(decision))
}

fn are_below(numbers: &[u32], count: usize) -> bool
    ensures { result ≡ list_all (λ n. nat_lt n count) numbers.now }
{
    numbers.iter().all(|number| (*number as usize) < count)
}

fn are_bounds(sides: &[Option<i64>]) -> bool
    ensures { result ≡ list_all is_bound sides.now }
{
    sides.iter().all(|side| is_bound(side))
}

fn all_sides_fit(lows: &[Option<i64>], highs: &[Option<i64>]) -> bool
    ensures { result ≡ list_all (λ b. sides_fit b.0 b.1) (zip lows.now highs.now) }
{
    lows.iter()
        .zip(highs)
        .all(|(low, high)| sides_fit(*low, *high))
}

#[tactic(auto, unfolding(crate::specs::Limits::bounds_fit))]
fn bounds_fit(subproblem: &Subproblem) -> bool
    ensures { result ≡ bounds_fit subproblem.now }
{
    all_sides_fit(subproblem.low.as_slice(), subproblem.high.as_slice())
}

fn counts_fit(subproblem: &Subproblem, states: usize) -> bool
    ensures { result ≡ counts_fit states subproblem.now }
{
    subproblem.decisions.len() <= MOST_DECISIONS
        && subproblem.rows.len() <= MOST_ROWS
        && subproblem.randoms.len() <= MOST_RANDOMS
        && subproblem.outs.len() == states
        && subproblem.low.len() == states
        && subproblem.high.len() == states
}

fn costs_fit(subproblem: &Subproblem, states: usize) -> bool
    ensures { result ≡ costs_fit states subproblem.now }
{
    is_small(subproblem.constant)
        && are_numbers(&subproblem.state_costs, states)
        && are_numbers(&subproblem.random_costs, subproblem.randoms.len())
}

// Tells whether names and outgoing states differ, and the bounds of the incoming states do not pass each other.
fn variables_fit(subproblem: &Subproblem) -> bool
    ensures { result ≡ (names_fit subproblem.now && bounds_fit subproblem.now && outs_differ subproblem.now) }
{
    names_fit(subproblem) && bounds_fit(subproblem) && outs_differ(subproblem)
}

fn subproblem_fits(subproblem: &Subproblem, states: usize) -> bool
    ensures { result ≡ subproblem_fits states subproblem.now }
{
    variables_fit(subproblem)
        && counts_fit(subproblem, states)
        && costs_fit(subproblem, states)
        && decisions_fit(subproblem.decisions.as_slice())
        && are_below(subproblem.outs.as_slice(), subproblem.decisions.len())
        && are_bounds(subproblem.low.as_slice())
        && are_bounds(subproblem.high.as_slice())
        && rows_fit(subproblem.rows.as_slice(), states, subproblem)
}

fn are_weights(weights: &[u32]) -> bool
    ensures { result ≡ are_weights weights.now }
{
    weights.iter().all(|weight| *weight > 0)
}

fn sum(weights: &[u32]) -> u64
    requires { length weights.now ≤ 2 ^ 16 }
    ensures { result ≡ sum weights.now }
{
    weights.iter().map(|weight| *weight as u64).sum()
}

fn realizations_fit(node: &Node, randoms: usize) -> bool
    ensures { result ≡ realizations_fit randoms node.now }
{
    0 < node.weights.len()
        && node.weights.len() <= MOST_REALIZATIONS
        && node.values.len() == node.weights.len()
        && are_weights(node.weights.as_slice())
        && sum(node.weights.as_slice()) <= GREATEST_TOTAL_WEIGHT
        && all_numbers(node.values.as_slice(), randoms)
}

pub fn all_numbers(lists: &[List<i64>], count: usize) -> bool
    ensures { result ≡ list_all (are_numbers count) lists.now }
{
    lists.iter().all(|numbers| are_numbers(numbers, count))
}

fn successors_fit(node: &Node, nodes: usize) -> bool
    requires { nodes ≤ 1000 }
    ensures { result ≡ successors_fit nodes node.now }
{
    node.successors.len() <= nodes
        && node.successor_weights.len() == node.successors.len()
        && are_below(node.successors.as_slice(), nodes)
        && are_weights(node.successor_weights.as_slice())
        && total_fits(sum(node.successor_weights.as_slice()), node.stop)
}

fn successors_in_order_fit(node: &Node, nodes: usize) -> bool
    requires { nodes ≤ 1000 }
    ensures { result ≡ successors_in_order_fit nodes node.now }
{
    numbers_rise(node.successors.as_slice()) && successors_fit(node, nodes)
}

fn total_fits(weight: u64, stop: u32) -> bool
    ensures { result ≡ nat_le (weight + stop) 65535 }
{
    weight <= GREATEST_TOTAL_WEIGHT && weight + stop as u64 <= GREATEST_TOTAL_WEIGHT
}

fn values_fit(node: &Node, subproblems: &[Subproblem]) -> bool
    ensures { result ≡ values_fit (slice_get subproblems.now node.now.sub) node.now }
{
    match subproblems.get(node.sub as usize) {
        Some(subproblem) => realizations_fit(node, subproblem.randoms.len()),
        None => false,
    }
}

fn node_fits(node: &Node, parts: &ProblemParts) -> bool
    requires { length parts.now.nodes ≤ 1000 }
    ensures { result ≡ node_fits parts.now node.now }
{
    is_name(&node.name)
        && values_fit(node, parts.subs.as_slice())
        && successors_in_order_fit(node, parts.nodes.len())
}

fn nodes_fit(nodes: &[Node], parts: &ProblemParts) -> bool
    requires { length parts.now.nodes ≤ 1000 }
    ensures { result ≡ list_all (node_fits parts.now) nodes.now }
{
    nodes.iter().all(|node| node_fits(node, parts))
}

fn subproblems_fit(subproblems: &[Subproblem], states: usize) -> bool
    ensures { result ≡ list_all (subproblem_fits states) subproblems.now }
{
    subproblems
        .iter()
        .all(|subproblem| subproblem_fits(subproblem, states))
}

fn states_fit(states: &[State]) -> bool
    ensures { result ≡ list_all state_fits states.now }
{
    states.iter().all(|state| state_fits(state))
}

fn root_successors_fit(parts: &ProblemParts) -> bool
    requires { length parts.now.nodes ≤ 1000 }
    ensures { result ≡ root_successors_fit parts.now }
{
    0 < parts.root.len()
        && parts.root.len() <= parts.nodes.len()
        && parts.root_weights.len() == parts.root.len()
        && are_below(parts.root.as_slice(), parts.nodes.len())
        && are_weights(parts.root_weights.as_slice())
        && sum(parts.root_weights.as_slice()) <= GREATEST_TOTAL_WEIGHT
}

fn root_fits(parts: &ProblemParts) -> bool
    requires { length parts.now.nodes ≤ 1000 }
    ensures { result ≡ root_fits parts.now }
{
    numbers_rise(parts.root.as_slice()) && root_successors_fit(parts)
}

/// Tells whether all parts keep the limits.
///
/// There are at most 50 states, 1000 nodes with 1 to 100 realizations each, and 1000 subproblems with at most 200
/// decisions, 200 rows and 50 random variables each. Names have at most 128 bytes, those of the states and of the nodes
/// rise in byte order, and no two decisions and random variables of a subproblem have the same. Numbers are at most
/// 2^40 either way. The low side of a decision, of a row or of an incoming state is at most its high side, and no
/// decision is the outgoing state of two states. The numbers of a row's terms rise, and no factor is 0. Weights are at
/// least 1, and those of one list, with the stop weight beside successors, make at most 65535. Successors rise in their
/// numbers, and the root leads somewhere. There are at most 1000 stored scenarios, and each is a path from the root
/// with at least one step and the values of each node's random variables. Each list has an entry for each part that it
/// speaks of, and each number of a part is that of a part that is there.
#[tactic(auto, unfolding(crate::specs::Limits::parts_are_lawful))]
pub fn parts_are_lawful(parts: &ProblemParts) -> bool
    ensures { result ≡ parts_are_lawful parts.now }
{
    few_parts(parts)
        && states_fit(parts.states.as_slice())
        && subproblems_fit(parts.subs.as_slice(), parts.states.len())
        && nodes_fit(parts.nodes.as_slice(), parts)
        && root_fits(parts)
}

// Tells whether names rise, the stored scenarios are paths, and there are not too many states, nodes and subproblems.
fn few_parts(parts: &ProblemParts) -> bool
    ensures { result ≡ (names_rise parts.now && scenarios_fit parts.now && nat_le (length parts.now.states) 50 && nat_le (length parts.now.nodes) 1000 && nat_le (length parts.now.subs) 1000) }
{
    names_rise(parts)
        && scenarios_fit(parts)
        && parts.states.len() <= MOST_STATES
        && parts.nodes.len() <= MOST_NODES
        && parts.subs.len() <= MOST_SUBPROBLEMS
}
