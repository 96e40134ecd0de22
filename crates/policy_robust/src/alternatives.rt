// The lists of weights that a problem file gives for the realizations of its nodes.
ghost use Rattle.std.specs.Prelude.{◌≡◌, ◌≤◌, length, option_map, Ok, IfOk};
ghost use Rattle.serde_json.specs.Events.{items_len};
ghost use Rattle.serde_json.specs.View.{view, members_view, items_view};
ghost use Rattle.read_json.specs.Steps.{Gives, Shows};
ghost use Rattle.read_file.specs.Tables.{table_at};
ghost use Rattle.read_file.specs.Problem.{problem_at};
ghost use Rattle.policy_robust.specs.Alternatives.{one_weight_at, all_weights_at, alternative_at, next_alternative_at, alternatives_at, node_lists_at, next_node_at, all_lists_at, alternatives_of};
ghost use Rattle.policy_robust.specs.Listed.{Listed};

use crate::weights::weights;
use base_num::{List, copied};
use problem::{Node, Part, Place, Problem, Refusal, RefusalKind};
use read_json::{ReadRefusal, array, few, items, json, member, object, present, weight};
use serde_json::{Map, Value};
use std::alloc::Global;

/// The most lists of weights that a node has beside its own.
const MOST_ALTERNATIVES: usize = 10;

/// For each node its lists of weights, with one weight per realization: its own weights first, then the listed ones.
#[derive(Drop)]
pub struct Alternatives {
    /// One list of lists per node.
    pub lists: List<List<List<u32>>>,
}

// Counts the items.
#[tactic(auto, using(read_json::proofs::InOrder::counts))]
fn count(items: &[Value]) -> usize
    ensures { result ≡ items_len (items_view items.now) }
{
    items.len()
}

// The weight r of the alternative a of the node n.
#[tactic(auto, unfolding(crate::specs::Alternatives::one_weight_at))]
fn one_weight(
    found: &mut List<u64>,
    n: u32,
    a: u32,
    r: u32,
    value: &Value,
) -> Result<(), ReadRefusal>
    ensures { Gives (λ _. found.new) result (one_weight_at n a found.old r (view value.now)) }
{
    let weight = weight(value, Place::new(Part::Alternative, n, a, r))?;
    found.push(weight.unsigned_abs())?;
    Ok(())
}

// The weights of the alternative a of the node n.
fn all_weights(alloc: Global, n: u32, a: u32, items: &[Value]) -> Result<List<u64>, ReadRefusal>
    ensures { Gives (λ l. l) result (all_weights_at n a (items_view items.now)) }
{
    few(items.len())?;
    let mut found = List::new(alloc);
    for (r, value) in items.iter().enumerate() {
        one_weight(&mut found, n, a, r as u32, value)?;
    }
    Ok(found)
}

// Reads one weight for each of so many realizations, of at most 65,535 together.
#[tactic(auto, unfolding(crate::specs::Alternatives::alternative_at))]
fn alternative(
    alloc: Global,
    n: u32,
    a: u32,
    realizations: usize,
    value: &Value,
) -> Result<List<u32>, ReadRefusal>
    ensures { Gives (λ l. l) result (alternative_at n a realizations (view value.now)) }
{
    let place = Place::new(Part::Alternative, n, a, 0);
    let items = array(value, place)?;
    if count(items) != realizations {
        return Err(ReadRefusal::Refused(RefusalKind::Shape.at(place)));
    }
    let found = all_weights(alloc, n, a, items)?;
    weights(alloc, found.as_slice(), place)
}

// The alternative that comes after i others.
#[tactic(auto, unfolding(crate::specs::Alternatives::next_alternative_at))]
fn next_alternative(
    alloc: Global,
    found: &mut List<List<u32>>,
    n: u32,
    realizations: usize,
    i: u32,
    value: &Value,
) -> Result<(), ReadRefusal>
    requires { i ≤ 10 }
    ensures { Gives (λ _. found.new) result
        (next_alternative_at n realizations found.old i (view value.now)) }
{
    let weights = alternative(alloc, n, i + 1, realizations, value)?;
    found.push(weights)?;
    Ok(())
}

// The node's own weights, and its alternatives.
fn own_and_listed(
    alloc: Global,
    n: u32,
    own: &[u32],
    items: &[Value],
) -> Result<List<List<u32>>, ReadRefusal>
    requires { length items.now ≤ 10 }
    ensures { Gives (λ l. l) result (alternatives_at n own.now (items_view items.now)) }
{
    let mut found = List::new(alloc);
    found.push(copied(alloc, own)?)?;
    for (i, value) in items.iter().enumerate() {
        next_alternative(alloc, &mut found, n, own.len(), i as u32, value)?;
    }
    Ok(found)
}

// The lists of the node n: its own weights, and at most ten alternatives.
#[tactic(auto, unfolding(crate::specs::Alternatives::node_lists_at), using(read_json::proofs::InOrder::counts))]
fn node_lists(
    alloc: Global,
    n: u32,
    own: &[u32],
    listed: Option<&Value>,
) -> Result<List<List<u32>>, ReadRefusal>
    ensures { Gives (λ l. l) result
        (node_lists_at n own.now (option_map (λ v. view v.now) listed.entry)) }
{
    let place = Place::new(Part::Alternative, n, 0, 0);
    let items = items(listed, place)?;
    if items.len() > MOST_ALTERNATIVES {
        return Err(ReadRefusal::Refused(RefusalKind::TooLarge.at(place)));
    }
    own_and_listed(alloc, n, own, items)
}

// Appends the lists of the next node.
#[tactic(auto, unfolding(crate::specs::Alternatives::next_node_at))]
fn next_node(
    alloc: Global,
    nodes: &Map<String, Value>,
    found: &mut List<List<List<u32>>>,
    n: u32,
    node: &Node,
) -> Result<(), ReadRefusal>
    ensures { Gives (λ _. found.new) result
        (next_node_at (members_view nodes.now.entries) found.old n node.now) }
{
    let value = present(member(nodes, node.name.as_str()), Place::WHOLE)?;
    let own = node.weights.as_slice();
    let lists = node_lists(alloc, n, own, value.get("alternatives"))?;
    found.push(lists)?;
    Ok(())
}

// The lists of all nodes.
fn all_lists(
    alloc: Global,
    table: &Map<String, Value>,
    nodes: &[Node],
) -> Result<List<List<List<u32>>>, ReadRefusal>
    ensures { Gives (λ l. l) result (all_lists_at (members_view table.now.entries) nodes.now) }
{
    few(nodes.len())?;
    let mut found = List::new(alloc);
    for (n, node) in nodes.iter().enumerate() {
        next_node(alloc, table, &mut found, n as u32, node)?;
    }
    Ok(found)
}

// An object under a name.
#[tactic(auto, unfolding(read_file::specs::Tables::table_at))]
fn table<'v>(value: &'v Value, name: &str) -> Result<&'v Map<String, Value>, Refusal>
    ensures { Shows (λ m. members_view m.now.entries) result (table_at name.now (view value.now)) }
{
    object(present(value.get(name), Place::WHOLE)?, Place::WHOLE)
}

// The lists that the bytes give for the nodes of a problem.
#[tactic(auto, unfolding(crate::specs::Alternatives::alternatives_of))]
fn read_lists(alloc: Global, problem: &Problem, bytes: &[u8]) -> Result<Alternatives, ReadRefusal>
    ensures { Gives (λ x. x) result (alternatives_of problem.now bytes.now) }
{
    let value = json(alloc, bytes)?;
    let table = table(&value, "nodes")?;
    let nodes = problem.parts().nodes.as_slice();
    let lists = all_lists(alloc, table, nodes)?;
    Ok(Alternatives { lists })
}

/// The lists of weights that the bytes of a problem's file give for its nodes, or the first refusal, node by node: Shape
/// where `alternatives` is no array, TooLarge for more than ten of them; then of each, numbered from 1, Shape where it is
/// no array or has not one weight per realization, each weight by the rule of weights, and Weight where they are more
/// than 65,535 together.
pub fn read_alternatives(
    alloc: Global,
    problem: &Problem,
    bytes: &[u8],
) -> Result<Alternatives, ReadRefusal>
    requires { problem_at bytes.now ≡ Ok problem.now }
    ensures value { Gives (λ x. x) result (alternatives_of problem.now bytes.now) }
    ensures listed { IfOk result (λ x. Listed problem.now x.lists) }
{
    let _ = problem.parts();
    read_lists(alloc, problem, bytes)
}
