// The weights of a node, and the formulas that bound the numbers and bytes of training and simulation.
ghost use Rattle.std.specs.Prelude.{◌≡◌, ◌≤◌, ◌<◌, ◌+◌, ◌*◌, ◌^◌, ℕ, true, length, map, sum, slice_get, IfSome};
ghost use Rattle.std.specs.List.{list_all, sum_by};
ghost use Rattle.base_graph.specs.Ranks.{greatest};
ghost use Rattle.problem.specs.Limits.{node_fits, parts_are_lawful, subproblem_fits};
ghost use Rattle.problem.specs.Parts.{own_subproblem};
ghost use Rattle.problem.specs.Formulas.{above, decision_count, dictionary, first_dictionary, or_then, record_bytes, row_count, step_bytes, step_numbers, successor_total, too_much, too_wide, total_weight};

use crate::validated::{Problem, item_at};
use crate::{Node, PAYLOAD_BYTES, ProblemParts, Subproblem};

const MOST_CUT_NUMBERS: u64 = 1 << 24;

const MOST_DICTIONARY_NUMBERS: u64 = 1 << 22;

const MOST_TRACE_NUMBERS: u64 = 1 << 22;

/// A formula that passes its limit.
#[derive(Clone, Copy, Debug, PartialEq, Eq)]
pub struct TooMuch {
    /// The number of the formula: 1 for the numbers of the cuts along a path, 2 for a node's dictionary, 3 for the
    /// bytes of a record, 4 for the numbers of the traces, 5 for the branches of a whole policy, 6 for the number over
    /// which its cost stands, 7 for the size of its costs along a path.
    pub which: u8,
    /// The value of the formula.
    pub value: u64,
}

/// The sum of the weights, and 1 without any.
pub fn total(weights: &[u32]) -> u32
    requires { sum weights.now ≤ 65535 }
    ensures { result ≡ total_weight weights.now }
{
    if weights.is_empty() {
        return 1;
    }
    weights.iter().sum()
}

fn successor_total(stop: u32, weights: &[u32]) -> u32
    requires { sum weights.now + stop ≤ 65535 }
    ensures { result ≡ successor_total stop weights.now }
{
    if weights.is_empty() {
        return 1;
    }
    stop + total(weights)
}

/// The formula of this number with its value, where the value is above the limit; None where it is not.
pub fn above(which: u8, limit: u64, value: u64) -> Option<TooMuch>
    ensures { result ≡ above which limit value }
{
    if limit < value {
        Some(TooMuch { which, value })
    } else {
        None
    }
}

// The sizes of a node's subproblem.
#[derive(Clone, Copy)]
struct Sizes {
    rows: u64,
    decisions: u64,
}

fn sizes_of(parts: &ProblemParts, node: &Node) -> Sizes
    ensures rows { result.rows ≡ row_count (own_subproblem parts.now node.now) }
    ensures decisions { result.decisions ≡ decision_count (own_subproblem parts.now node.now) }
{
    match parts.subs.as_slice().get(node.sub as usize) {
        Some(subproblem) => Sizes {
            rows: subproblem.rows.len() as u64,
            decisions: subproblem.decisions.len() as u64,
        },
        None => Sizes {
            rows: 0,
            decisions: 0,
        },
    }
}

// The numbers of the cuts along a path.
fn cut_numbers(cuts: u64, longest: u64, states: u64) -> u64
    requires cuts { cuts ≤ 128064 }
    requires longest { longest ≤ 1001 }
    requires states { states ≤ 50 }
    ensures { result ≡ cuts * longest * (states + 1) }
{
    cuts * longest * (states + 1)
}

// The numbers of a dictionary with these counts.
fn dictionary_numbers(rows: u64, decisions: u64, successors: u64, cuts: u64) -> u64
    requires rows { rows ≤ 200 }
    requires decisions { decisions ≤ 200 }
    requires successors { successors ≤ 1000 }
    requires cuts { cuts ≤ 128064 }
    ensures { result ≡ (rows + (cuts + 1) * successors) * (decisions + successors) }
{
    (rows + (cuts + 1) * successors) * (decisions + successors)
}

// The bytes of a certificate with these counts.
fn certificate_bytes(rows: u64, successors: u64, cuts: u64) -> u64
    requires rows { rows ≤ 200 }
    requires successors { successors ≤ 1000 }
    requires cuts { cuts ≤ 128064 }
    ensures value { result ≡ 8 * rows + successors * (4 + 12 * (cuts + 1)) }
    ensures small { result ≤ 2 ^ 31 }
{
    8 * rows + successors * (4 + 12 * (cuts + 1))
}

#[tactic(auto, using(crate::proofs::Bounds::few_successors, crate::proofs::Bounds::few_rows, crate::proofs::Bounds::few_decisions))]
fn dictionary(parts: &ProblemParts, cuts: u64, node: &Node) -> u64
    requires parts { parts_are_lawful parts.now ≡ true }
    requires node { node_fits parts.now node.now ≡ true }
    requires cuts { cuts ≤ 128064 }
    ensures { result ≡ dictionary parts.now cuts node.now }
{
    let successors = node.successors.len() as u64;
    let sizes = sizes_of(parts, node);
    dictionary_numbers(sizes.rows, sizes.decisions, successors, cuts)
}

#[tactic(auto, using(crate::proofs::Bounds::few_successors, crate::proofs::Bounds::few_rows, crate::proofs::Bounds::few_realizations))]
fn step_bytes(parts: &ProblemParts, cuts: u64, node: &Node) -> u64
    requires parts { parts_are_lawful parts.now ≡ true }
    requires node { node_fits parts.now node.now ≡ true }
    requires cuts { cuts ≤ 128064 }
    ensures value { result ≡ step_bytes parts.now cuts node.now }
    ensures small { result ≤ 2 ^ 38 }
{
    let successors = node.successors.len() as u64;
    let realizations = node.weights.len() as u64;
    2 + realizations * certificate_bytes(sizes_of(parts, node).rows, successors, cuts)
}

// The first node whose dictionary is too large.
fn first_dictionary(parts: &ProblemParts, cuts: u64, nodes: &[Node]) -> Option<TooMuch>
    requires parts { parts_are_lawful parts.now ≡ true }
    requires nodes { list_all (node_fits parts.now) nodes.now ≡ true }
    requires cuts { cuts ≤ 128064 }
    ensures { result ≡ first_dictionary parts.now cuts nodes.now }
{
    for node in nodes {
        let found = above(2, MOST_DICTIONARY_NUMBERS, dictionary(parts, cuts, node));
        if found.is_some() {
            return found;
        }
    }
    None
}

fn bytes_of_steps(parts: &ProblemParts, cuts: u64, nodes: &[Node]) -> u64
    requires parts { parts_are_lawful parts.now ≡ true }
    requires nodes { list_all (node_fits parts.now) nodes.now ≡ true }
    requires count { length nodes.now ≤ 1000 }
    requires cuts { cuts ≤ 128064 }
    ensures value { result ≡ sum_by (step_bytes parts.now cuts) nodes.now }
    ensures small { result ≤ 2 ^ 48 }
{
    let mut bytes = 0;
    for node in nodes {
        bytes += step_bytes(parts, cuts, node);
    }
    bytes
}

#[tactic(auto, using(crate::proofs::ValidatedFacts::nodes_fit, crate::proofs::ValidatedFacts::few_nodes))]
fn record_bytes(parts: &ProblemParts, cuts: u64, batch: u64) -> u64
    requires parts { parts_are_lawful parts.now ≡ true }
    requires cuts { cuts ≤ 128064 }
    requires batch { batch ≤ 64 }
    ensures { result ≡ record_bytes parts.now cuts batch }
{
    batch * (10 + bytes_of_steps(parts, cuts, parts.nodes.as_slice()))
}

fn step_numbers(subproblem: &Subproblem, states: u64) -> u64
    requires fits { subproblem_fits states subproblem.now ≡ true }
    requires states { states ≤ 50 }
    ensures value { result ≡ step_numbers states subproblem.now }
    ensures small { result ≤ 504 }
{
    let decisions = subproblem.decisions.len() as u64;
    let rows = subproblem.rows.len() as u64;
    let randoms = subproblem.randoms.len() as u64;
    decisions + rows + randoms + states + 4
}

fn most_step_numbers(subproblems: &[Subproblem], states: u64) -> u64
    requires fits { list_all (subproblem_fits states) subproblems.now ≡ true }
    requires states { states ≤ 50 }
    ensures value { result ≡ greatest (map (step_numbers states) subproblems.now) }
    ensures small { result ≤ 504 }
{
    let mut most = 0u64;
    for subproblem in subproblems {
        most = most.max(step_numbers(subproblem, states));
    }
    most
}

// The numbers of traces with these counts.
fn trace_numbers(count: u32, longest: u64, numbers: u64) -> u64
    requires longest { longest ≤ 1001 }
    requires numbers { numbers ≤ 504 }
    ensures { result ≡ count * longest * numbers }
{
    u64::from(count) * longest * numbers
}

// The first of formulas 1 to 3 that passes its limit.
#[tactic(auto, using(crate::proofs::ValidatedFacts::nodes_fit, crate::proofs::ValidatedFacts::few_states))]
fn first_above(parts: &ProblemParts, longest: u64, iterations: u64, batch: u64) -> Option<TooMuch>
    requires parts { parts_are_lawful parts.now ≡ true }
    requires longest { longest ≤ 1001 }
    requires iterations { iterations ≤ 2001 }
    requires batch { batch ≤ 64 }
    ensures { let cuts = iterations * batch in
        result ≡ or_then (above 1 (2 ^ 24) (cuts * longest * (length parts.now.states + 1)))
        (or_then (first_dictionary parts.now cuts parts.now.nodes) (above 3 (2 ^ 26) (record_bytes parts.now cuts batch))) }
{
    let cuts = iterations * batch;
    let states = parts.states.len() as u64;
    let along_a_path = above(1, MOST_CUT_NUMBERS, cut_numbers(cuts, longest, states));
    if along_a_path.is_some() {
        return along_a_path;
    }
    let at_a_node = first_dictionary(parts, cuts, parts.nodes.as_slice());
    if at_a_node.is_some() {
        return at_a_node;
    }
    above(3, PAYLOAD_BYTES, record_bytes(parts, cuts, batch))
}

// Formula 4, where it passes its limit.
#[tactic(auto, using(crate::proofs::ValidatedFacts::subproblems_fit, crate::proofs::ValidatedFacts::few_states))]
fn traces_above(parts: &ProblemParts, longest: u64, count: u32) -> Option<TooMuch>
    requires parts { parts_are_lawful parts.now ≡ true }
    requires longest { longest ≤ 1001 }
    ensures { result ≡ above 4 (2 ^ 22) (count * longest * greatest (map (step_numbers (length parts.now.states)) parts.now.subs)) }
{
    let numbers = most_step_numbers(parts.subs.as_slice(), parts.states.len() as u64);
    above(
        4,
        MOST_TRACE_NUMBERS,
        trace_numbers(count, longest, numbers),
    )
}

impl Problem {
    /// The weight that leaves a node: its stop weight and the weights of its successors together, and 1 at a node
    /// without successors.
    pub fn q(&self, node: u32) -> u32
        requires { node < length self.now.parts.nodes }
        ensures { IfSome (slice_get self.now.parts.nodes node) (λ n. result ≡ successor_total n.stop n.successor_weights) }
    {
        let node = item_at(self.parts().nodes.as_slice(), node as usize);
        successor_total(node.stop, node.successor_weights.as_slice())
    }

    /// The first of formulas 1 to 3 that passes its limit after `k` iterations of `batch` paths each: with C the
    /// product of the two, the numbers of the cuts along the longest path, `C * longest * (states + 1)`, above 2^24;
    /// those of the dictionary of the least node where they are above 2^22,
    /// `(rows + (C + 1) * successors) * (decisions + successors)`; the bytes of a record, above 2^26.
    pub fn too_much(&self, k: u32, batch: u16) -> Option<TooMuch>
        requires k { k ≤ 2001 }
        requires some { 1 ≤ batch }
        requires batch { batch ≤ 64 }
        ensures { result ≡ too_much self.now k batch }
    {
        let longest = u64::from(self.longest());
        first_above(self.parts(), longest, u64::from(k), u64::from(batch))
    }

    /// Formula 4, where it is above 2^22 for `count` scenarios: `count * longest` times the greatest sum, over the
    /// subproblems, of `decisions + rows + randoms + states + 4`.
    pub fn too_wide(&self, count: u32) -> Option<TooMuch>
        ensures { result ≡ too_wide self.now count }
    {
        traces_above(self.parts(), u64::from(self.longest()), count)
    }
}
