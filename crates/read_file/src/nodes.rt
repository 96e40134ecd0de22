// The nodes of the policy graph.
ghost use Rattle.std.specs.Prelude.{◌≡◌, ◌≤◌, ◌^◌, length, option_map};
ghost use Rattle.serde_json.specs.View.{view, members_view};
ghost use Rattle.read_json.specs.Steps.{Gives};
ghost use Rattle.read_file.specs.Nodes.{stop_at, transitions_at, read_node_at, nodes_at};

use crate::realizations::read_realizations;
use crate::subproblems::SubproblemTable;
use crate::successors::{known, read_successors};
use crate::values::randoms;
use crate::weights::weights;
use base_num::List;
use problem::{Node, Part, Place, Refusal, RefusalKind};
use read_json::{
    Names, ReadRefusal, count, few, items, key, members, object, present, string, whole,
};
use serde_json::{Map, Value};
use std::alloc::Global;

// Where a path may go on from a node, or end.
#[derive(Drop)]
struct Transitions {
    nodes: List<u32>,
    weights: List<u32>,
    stop: u32,
}

/// The weight with which the horizon ends at a node, 0 where it is absent: a whole number, and Weight
/// below 0.
#[tactic(auto, unfolding(crate::specs::Nodes::stop_at))]
fn stop(value: Option<&Value>, place: Place) -> Result<u64, Refusal>
    ensures { result ≡ stop_at place (option_map (λ v. view v.now) value.entry) }
{
    let Some(value) = value else {
        return Ok(0);
    };
    let stop = whole(value, place)?;
    if stop < 0 {
        return Err(RefusalKind::Weight.at(place));
    }
    Ok(stop.unsigned_abs())
}

#[tactic(auto, unfolding(crate::specs::Nodes::transitions_at))]
fn read_transitions(
    alloc: Global,
    names: &Names,
    n: u32,
    members: &Map<String, Value>,
    ending: Option<&Value>,
) -> Result<Transitions, ReadRefusal>
    requires { length names.now ≤ 2 ^ 32 }
    ensures { Gives (λ b. b) result (transitions_at names.now n (members_view members.now.entries)
        (option_map (λ v. view v.now) ending.entry)) }
{
    let place = Place::new(Part::Node, n, 0, 0);
    let successors = read_successors(alloc, names, Part::Successor, n, members)?;
    let stop = stop(ending, place)?;
    let weights = weights(alloc, stop, successors.weights.as_slice(), place)?;
    Ok(Transitions {
        nodes: successors.nodes,
        weights,
        stop: stop as u32,
    })
}

// The nodes and the subproblems that a node may name.
#[derive(Clone, Copy)]
struct Nameable<'a> {
    names: &'a Names,
    subproblems: &'a SubproblemTable,
}

#[tactic(auto, unfolding(crate::specs::Nodes::read_node_at))]
fn node(
    alloc: Global,
    parts: Nameable,
    found: &mut List<Node>,
    n: u32,
    name: &str,
    value: &Value,
) -> Result<(), ReadRefusal>
    requires few_nodes { length parts.names.now ≤ 2 ^ 32 }
    requires few_subproblems { length parts.subproblems.now.names ≤ 2 ^ 32 }
    ensures { Gives (λ _. found.new) result
        (read_node_at parts.entry.names.now parts.entry.subproblems.now found.old n name.now (view value.now)) }
{
    let Nameable { names, subproblems } = parts;
    let place = Place::new(Part::Node, n, 0, 0);
    let none = Map::new(alloc);
    let name = key(alloc, name, place)?;
    object(value, place)?;
    let sub_name = string(present(value.get("subproblem"), place)?, place)?;
    let all_realizations = items(value.get("realizations"), place)?;
    let all_successors = members(value.get("successors"), &none, place)?;
    let sub = known(&subproblems.names, sub_name, place)?;
    let randoms = randoms(subproblems.subs.as_slice(), sub);
    let realizations = read_realizations(alloc, randoms, n, all_realizations)?;
    let weights = weights(alloc, 0, realizations.weights.as_slice(), place)?;
    let transitions = read_transitions(alloc, names, n, all_successors, value.get("stop"))?;
    found.push(Node {
        name,
        sub,
        weights,
        values: realizations.values,
        successors: transitions.nodes,
        successor_weights: transitions.weights,
        stop: transitions.stop,
    })?;
    Ok(())
}

/// The nodes, in the byte order of their `names`: for each its subproblem, its realizations, its
/// successors and the weight with which the horizon ends there.
pub(crate) fn nodes(
    alloc: Global,
    names: &Names,
    subproblems: &SubproblemTable,
    table: &Map<String, Value>,
) -> Result<List<Node>, ReadRefusal>
    requires few_nodes { length names.now ≤ 2 ^ 32 }
    requires few_subproblems { length subproblems.now.names ≤ 2 ^ 32 }
    ensures { Gives (λ l. l) result
        (nodes_at names.now subproblems.now (members_view table.now.entries)) }
{
    few(count(table))?;
    let mut found = List::new(alloc);
    let mut n = 0u32;
    for (name, value) in table.iter() {
        let parts = Nameable { names, subproblems };
        node(alloc, parts, &mut found, n, name.as_str(), value)?;
        n += 1;
    }
    Ok(found)
}
