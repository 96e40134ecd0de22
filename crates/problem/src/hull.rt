// The hull and the box of the states that come into a node.
ghost use Rattle.std.specs.Prelude.{◌≡◌, ◌≤◌, ◌<◌, [], List, length, map, IfOk, slice_get, option_and_then, unwrap_or, ◌==◌, if◌then◌else◌, Option, Some, None, get_or};
ghost use Rattle.std.specs.List.{list_any, fold, cons_option};
ghost use Rattle.base_graph.specs.Paths.{numbers};
ghost use Rattle.base_graph.specs.Ranks.{predecessors};
ghost use Rattle.problem.specs.Validated.{graph_of, initial_values};
ghost use Rattle.problem.specs.Hull.{outer, outermost, hull_ends, end_at, start_at, hull, hulls};

use crate::side::{Side, outer};
use crate::{Node, ProblemParts, out_highs, out_lows};
use base_num::{List, Memory};
use std::alloc::Global;

// Gives one list per subproblem with one entry per state.
pub(crate) fn ends(
    alloc: Global,
    side: Side,
    parts: &ProblemParts,
) -> Result<List<List<i64>>, Memory>
    ensures { IfOk result (λ l. l ≡ hull_ends side parts.now) }
{
    match side {
        Side::Low => out_lows(alloc, parts.subs.as_slice()),
        Side::High => out_highs(alloc, parts.subs.as_slice()),
    }
}

fn found_end(nodes: &[Node], ends: &[List<i64>], state: usize, node: u32) -> Option<i64>
    ensures { result ≡ option_and_then (λ n. option_and_then (λ es. slice_get es state) (slice_get ends.now n.sub)) (slice_get nodes.now node) }
{
    let node = nodes.get(node as usize)?;
    let ends = ends.get(node.sub as usize)?;
    ends.as_slice().get(state).copied()
}

fn end_at(nodes: &[Node], ends: &[List<i64>], state: usize, node: u32) -> i64
    ensures { result ≡ end_at nodes.now ends.now state node }
{
    found_end(nodes, ends, state, node).unwrap_or(0)
}

// Finds the outermost of the first number and of the ends that the nodes let out.
fn outermost_from(
    side: Side,
    first: i64,
    nodes: &[Node],
    ends: &[List<i64>],
    state: usize,
    into: &[u32],
) -> i64
    ensures { result ≡ fold (outer side) first (map (end_at nodes.now ends.now state) into.now) }
{
    let mut found = first;
    for node in into {
        found = outer(side, found, end_at(nodes, ends, state, *node));
    }
    found
}

fn leads_to(root: &[u32], node: u32) -> bool
    ensures { result ≡ list_any (λ m. m == node) root.now }
{
    root.iter().any(|successor| *successor == node)
}

fn initial_value(parts: &ProblemParts, state: usize) -> Option<i64>
    ensures { result ≡ slice_get (initial_values parts.now) state }
{
    match parts.states.as_slice().get(state) {
        Some(state) => Some(state.initial),
        None => None,
    }
}

fn start_at(parts: &ProblemParts, node: u32, state: usize) -> Option<i64>
    ensures { result ≡ start_at parts.now node state }
{
    if leads_to(parts.root.as_slice(), node) {
        initial_value(parts, state)
    } else {
        None
    }
}

// Finds the outermost end of the state that comes into a node: its start, where there is one, and the ends that the nodes
// `into` let out.
fn outermost(
    side: Side,
    start: Option<i64>,
    nodes: &[Node],
    ends: &[List<i64>],
    state: usize,
    into: &[u32],
) -> i64
    ensures { result ≡ outermost side (cons_option start (map (end_at nodes.now ends.now state) into.now)) }
{
    match (start, into) {
        (Some(start), into) => outermost_from(side, start, nodes, ends, state, into),
        (None, [first, tail @ ..]) => {
            let first = end_at(nodes, ends, state, *first);
            outermost_from(side, first, nodes, ends, state, tail)
        }
        (None, []) => 0,
    }
}

#[tactic(auto, unfolding(crate::specs::Hull::hull), using(base_graph::proofs::Numbers::map_more))]
// The hull of a node, one entry per state; `into` are its predecessors.
fn hull_of(
    alloc: Global,
    side: Side,
    parts: &ProblemParts,
    outs: &[List<i64>],
    node: u32,
    into: &[u32],
) -> Result<List<i64>, Memory>
    requires outs { outs.now ≡ hull_ends side parts.now }
    requires into { into.now ≡ predecessors (graph_of parts.now) node }
    ensures { IfOk result (λ l. l ≡ hull side parts.now node) }
{
    let mut found = List::new(alloc);
    for state in 0..parts.states.len() {
        let start = start_at(parts, node, state);
        let nodes = parts.nodes.as_slice();
        found.push(outermost(side, start, nodes, outs, state, into))?;
    }
    Ok(found)
}

pub(crate) fn list_at<T>(lists: &[List<T>], at: usize) -> &[T]
    requires { at < length lists.now }
    ensures { result.now ≡ get_or lists.now at [] }
{
    lists[at].as_slice()
}

#[tactic(auto, using(base_graph::proofs::Numbers::map_more))]
/// The hulls, one list per node with one entry per state. `into` has the predecessors of each node.
pub(crate) fn hulls(
    alloc: Global,
    side: Side,
    parts: &ProblemParts,
    into: &[List<u32>],
) -> Result<List<List<i64>>, Memory>
    requires into { into.now ≡ map (predecessors (graph_of parts.now)) (numbers (length parts.now.nodes)) }
    requires count { length parts.now.nodes ≤ 1000 }
    ensures { IfOk result (λ l. l ≡ hulls side parts.now) }
{
    let outs = ends(alloc, side, parts)?;
    let mut found = List::new(alloc);
    for node in 0..parts.nodes.len() {
        let into = list_at(into, node);
        found.push(hull_of(alloc, side, parts, outs.as_slice(), node as u32, into)?)?;
    }
    Ok(found)
}
