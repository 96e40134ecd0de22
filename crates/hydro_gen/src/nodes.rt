// The nodes, with the inflows that are drawn.
ghost use Rattle.std.specs.Prelude.{◌≡◌, ◌+◌, ◌*◌, ◌^◌, ◌<◌, ◌≤◌, map, IfOk};
ghost use Rattle.serde_json.specs.View.{view, members_view};
ghost use Rattle.plan_draw.specs.Drawn.{word_in};
ghost use Rattle.hydro_gen.specs.Nodes.{inflow, inflow_support, generated_realization, realizations, kind_weight, pair, successors, generated_node, generated_nodes};

use crate::names::{node_name, reservoir_name};
use crate::words::next;
use hydro_form::text_of;
use rand_chacha::ChaCha20Rng;
use serde_json::{Map, Value};
use std::alloc::{AllocError, Global};

// The inflow that the next word gives at a node of this kind.
#[tactic(auto, unfolding(crate::specs::Nodes::inflow))]
fn inflow(words: &mut ChaCha20Rng, kind: u32) -> u32
    requires { words.old.word_pos < 2 ^ 40 }
    ensures value { result ≡ inflow kind (word_in words.old words.old.word_pos) }
    ensures later { words.new ≡ record words.old { word_pos = words.old.word_pos + 1 } }
{
    let word = next(words);
    if kind == 0 { word % 11 } else { 10 + word % 21 }
}

// Builds a realization: one inflow per reservoir.
#[tactic(auto, unfolding(crate::specs::Nodes::inflow_support))]
fn support(
    alloc: Global,
    words: &mut ChaCha20Rng,
    kind: u32,
    reservoirs: u32,
) -> Result<Map<String, Value>, AllocError>
    requires few { reservoirs ≤ 10 }
    requires place { words.old.word_pos + reservoirs ≤ 2 ^ 40 }
    ensures value { IfOk result (λ m. members_view m.entries
        ≡ inflow_support (word_in words.old) words.old.word_pos kind reservoirs) }
    ensures later { IfOk result (λ _. words.new
        ≡ record words.old { word_pos = words.old.word_pos + reservoirs }) }
{
    let mut map = Map::new(alloc);
    for reservoir in 0..reservoirs {
        let name = reservoir_name(b'w', reservoir);
        let value = Value::from(inflow(words, kind));
        serde_json::put(&mut map, alloc, text_of(&name), value)?;
    }
    Ok(map)
}

#[tactic(auto, unfolding(crate::specs::Nodes::generated_realization))]
fn realization(
    alloc: Global,
    words: &mut ChaCha20Rng,
    kind: u32,
    reservoirs: u32,
) -> Result<Value, AllocError>
    requires few { reservoirs ≤ 10 }
    requires place { words.old.word_pos + reservoirs ≤ 2 ^ 40 }
    ensures value { IfOk result (λ v. view v
        ≡ generated_realization (word_in words.old) words.old.word_pos kind reservoirs) }
    ensures later { IfOk result (λ _. words.new
        ≡ record words.old { word_pos = words.old.word_pos + reservoirs }) }
{
    let support = support(alloc, words, kind, reservoirs)?;
    let value = hydro_form::realization(alloc, 1, support)?;
    Ok(value)
}

// Ten realizations.
#[tactic(auto, using(hydro_form::proofs::Counted::map_more), unfolding(crate::specs::Nodes::realizations))]
fn realizations(
    alloc: Global,
    words: &mut ChaCha20Rng,
    kind: u32,
    reservoirs: u32,
) -> Result<Vec<Value>, AllocError>
    requires few { reservoirs ≤ 10 }
    requires place { words.old.word_pos + 10 * reservoirs ≤ 2 ^ 40 }
    ensures value { IfOk result (λ list. map view list.items
        ≡ realizations (word_in words.old) words.old.word_pos kind reservoirs) }
    ensures later { IfOk result (λ _. words.new
        ≡ record words.old { word_pos = words.old.word_pos + 10 * reservoirs }) }
{
    let mut list = Vec::new(alloc);
    for _k in 0..10u32 {
        list.push(realization(alloc, words, kind, reservoirs)?)?;
    }
    Ok(list)
}

// The weight of a successor of one kind after a node of another.
fn weight(kind: u32, next: u32) -> u32
    ensures { result ≡ kind_weight kind next }
{
    if kind == next { 3 } else { 1 }
}

// Builds two nodes of one stage, the dry one first, with their weights.
pub(crate) fn pair(
    alloc: Global,
    first: u32,
    dry: u32,
    wet: u32,
) -> Result<Map<String, Value>, AllocError>
    requires { first < 999 }
    ensures { IfOk result (λ m. members_view m.entries ≡ pair first dry wet) }
{
    let dry_name = node_name(first);
    let wet_name = node_name(first + 1);
    let mut map = Map::new(alloc);
    serde_json::put(&mut map, alloc, text_of(&dry_name), Value::from(dry))?;
    serde_json::put(&mut map, alloc, text_of(&wet_name), Value::from(wet))?;
    Ok(map)
}

// Builds the successors: both nodes of the next stage, none after the last one.
#[tactic(auto, unfolding(crate::specs::Nodes::successors))]
fn successors(alloc: Global, stages: u32, node: u32) -> Result<Map<String, Value>, AllocError>
    requires node { node < 2 * stages }
    requires stages { stages ≤ 500 }
    ensures { IfOk result (λ m. members_view m.entries ≡ successors stages node) }
{
    let stage = node / 2 + 1;
    if stage < stages {
        pair(alloc, 2 * stage, weight(node % 2, 0), weight(node % 2, 1))
    } else {
        Ok(Map::new(alloc))
    }
}

// A node, with the next words.
#[tactic(auto, unfolding(crate::specs::Nodes::generated_node))]
fn node(
    alloc: Global,
    words: &mut ChaCha20Rng,
    stages: u32,
    reservoirs: u32,
    number: u32,
) -> Result<Value, AllocError>
    requires few { reservoirs ≤ 10 }
    requires stages { stages ≤ 500 }
    requires number { number < 2 * stages }
    requires place { words.old.word_pos ≡ number * (10 * reservoirs) }
    ensures value { IfOk result (λ v. view v ≡ generated_node (word_in words.old) stages reservoirs number) }
    ensures later { IfOk result (λ _. words.new
        ≡ record words.old { word_pos = words.old.word_pos + 10 * reservoirs }) }
{
    let realizations = realizations(alloc, words, number % 2, reservoirs)?;
    let successors = successors(alloc, stages, number)?;
    let value = hydro_form::node(alloc, realizations, successors)?;
    Ok(value)
}

// Builds all nodes, stage by stage.
#[tactic(auto, unfolding(crate::specs::Nodes::generated_nodes))]
pub(crate) fn nodes(
    alloc: Global,
    words: &mut ChaCha20Rng,
    stages: u32,
    reservoirs: u32,
) -> Result<Map<String, Value>, AllocError>
    requires few { reservoirs ≤ 10 }
    requires stages { stages ≤ 500 }
    requires place { words.old.word_pos ≡ 0 }
    ensures { IfOk result (λ m. members_view m.entries
        ≡ generated_nodes (word_in words.old) stages reservoirs) }
{
    let mut map = Map::new(alloc);
    for number in 0..2 * stages {
        let name = node_name(number);
        let value = node(alloc, words, stages, reservoirs, number)?;
        serde_json::put(&mut map, alloc, text_of(&name), value)?;
    }
    Ok(map)
}
