// The nodes: one for each stage.
ghost use Rattle.std.specs.Prelude.{◌≡◌, ◌≤◌, ◌<◌, length, map, IfOk, OnOk, IsAscii};
ghost use Rattle.serde_json.specs.Data.{put};
ghost use Rattle.serde_json.specs.View.{view, members_view};
ghost use Rattle.base_num.specs.Sums.{entry};
ghost use Rattle.base_graph.specs.Paths.{numbers};
ghost use Rattle.hydro_form.specs.Listed.{put_by, integer};
ghost use Rattle.hydro_read.specs.Described.{IsPlants, IsStage};
ghost use Rattle.hydro_make.specs.Columns.{chance_name};
ghost use Rattle.hydro_make.specs.Nodes.{node_name, support, node_realization, successor_to, node, nodes};
ghost use Rattle.hydro_make.specs.Seen.{chance_of};

use crate::columns::Random;
use crate::names::random_name;
use hydro_form::{digit, put_whole, text_of};
use hydro_read::{Inflow, Plants, Stage};
use serde_json::{Map, Value};
use std::alloc::{AllocError, Global};

// The name of a node: its stage with three digits, from 001.
#[tactic(auto, unfolding(crate::specs::Nodes::node_name))]
fn node_name(node: u32) -> [u8; 4]
    requires { node < 999 }
    ensures value { result ≡ node_name node }
    ensures ascii { IsAscii result }
{
    let stage = node + 1;
    [b's', digit(stage / 100), digit(stage / 10), digit(stage)]
}

// Gives one of some numbers.
fn number(numbers: &[i64], at: usize) -> i64
    requires { at < length numbers.now }
    ensures { result ≡ entry numbers.now at }
{
    numbers[at]
}

// The value of a random variable.
fn put_value(
    alloc: Global,
    plants: &Plants,
    random: Random,
    values: &[i64],
    at: usize,
    map: &mut Map<String, Value>,
) -> Result<(), AllocError>
    requires { at < length values.now }
    ensures { OnOk result (members_view map.new.entries ≡ put (chance_name plants.now (chance_of random at))
        (integer (entry values.now at)) (members_view map.old.entries)) }
{
    let name = random_name(alloc, plants, random, at)?;
    put_whole(alloc, map, name.as_str(), number(values, at))
}

// The values of all random variables of a kind.
fn put_values(
    alloc: Global,
    plants: &Plants,
    random: Random,
    values: &[i64],
    map: &mut Map<String, Value>,
) -> Result<(), AllocError>
    ensures { OnOk result (members_view map.new.entries
        ≡ put_by (λ n. chance_name plants.now (chance_of random n)) (λ n. integer (entry values.now n)) (numbers (length values.now)) (members_view map.old.entries)) }
{
    for at in 0..values.len() {
        put_value(alloc, plants, random, values, at, map)?;
    }
    Ok(())
}

// The demands of a stage and the water of one of its inflows.
fn support(
    alloc: Global,
    plants: &Plants,
    demand: &[i64],
    water: &[i64],
) -> Result<Map<String, Value>, AllocError>
    requires plants { IsPlants plants.now }
    requires demand { length demand.now ≡ length plants.now.buses }
    requires water { length water.now ≡ length plants.now.reservoirs }
    ensures { IfOk result (λ m. members_view m.entries ≡ support plants.now demand.now water.now) }
{
    let mut map = Map::new(alloc);
    put_values(alloc, plants, Random::Demand, demand, &mut map)?;
    put_values(alloc, plants, Random::Inflow, water, &mut map)?;
    Ok(map)
}

#[tactic(auto, unfolding(crate::specs::Nodes::node_realization))]
fn realization(
    alloc: Global,
    plants: &Plants,
    demand: &[i64],
    inflow: &Inflow,
) -> Result<Value, AllocError>
    requires plants { IsPlants plants.now }
    requires demand { length demand.now ≡ length plants.now.buses }
    requires water { length inflow.now.water ≡ length plants.now.reservoirs }
    ensures { IfOk result (λ v. view v ≡ node_realization plants.now demand.now inflow.now) }
{
    let support = support(alloc, plants, demand, inflow.water.as_slice())?;
    hydro_form::realization(alloc, inflow.weight, support)
}

// A realization for each inflow of a stage.
fn realizations(alloc: Global, plants: &Plants, stage: &Stage) -> Result<Vec<Value>, AllocError>
    requires plants { IsPlants plants.now }
    requires stage { IsStage (length plants.now.buses) (length plants.now.reservoirs) stage.now }
    ensures { IfOk result (λ list. map view list.items
        ≡ map (node_realization plants.now stage.now.demand) stage.now.inflows) }
{
    let mut list = Vec::new(alloc);
    for inflow in stage.inflows.as_slice() {
        list.push(realization(alloc, plants, stage.demand.as_slice(), inflow)?)?;
    }
    Ok(list)
}

/// The node of a number with weight 1, none after the last one. [`AllocError`] where memory was refused, as of all
/// functions here.
#[tactic(auto, unfolding(crate::specs::Nodes::successor_to))]
pub(crate) fn successor_to(
    alloc: Global,
    plants: &Plants,
    node: usize,
) -> Result<Map<String, Value>, AllocError>
    requires { length plants.now.stages ≤ 100 }
    ensures { IfOk result (λ m. members_view m.entries ≡ successor_to plants.now node) }
{
    let mut map = Map::new(alloc);
    if node >= plants.stages.len() {
        return Ok(map);
    }
    let name = node_name(node as u32);
    serde_json::put(&mut map, alloc, text_of(&name), Value::from(1u32))?;
    Ok(map)
}

// The node of a stage, which the next one follows.
#[tactic(auto, unfolding(crate::specs::Nodes::node))]
fn node(alloc: Global, plants: &Plants, m: usize) -> Result<Value, AllocError>
    requires plants { IsPlants plants.now }
    requires known { m < length plants.now.stages }
    ensures { IfOk result (λ v. view v ≡ node plants.now m) }
{
    let realizations = realizations(alloc, plants, &plants.stages.as_slice()[m])?;
    let next = successor_to(alloc, plants, m + 1)?;
    hydro_form::node(alloc, realizations, next)
}

/// Builds all nodes, stage by stage.
#[tactic(auto, unfolding(crate::specs::Nodes::nodes))]
pub(crate) fn nodes(alloc: Global, plants: &Plants) -> Result<Map<String, Value>, AllocError>
    requires { IsPlants plants.now }
    ensures { IfOk result (λ m. members_view m.entries ≡ nodes plants.now) }
{
    let mut map = Map::new(alloc);
    for m in 0..plants.stages.len() {
        let name = node_name(m as u32);
        let value = node(alloc, plants, m)?;
        serde_json::put(&mut map, alloc, text_of(&name), value)?;
    }
    Ok(map)
}
