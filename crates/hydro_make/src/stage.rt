// The subproblem of each stage.
ghost use Rattle.std.specs.Prelude.{◌≡◌, ◌≤◌, ◌++◌, map, IfOk, OnOk};
ghost use Rattle.std.specs.List.{flat_map};
ghost use Rattle.serde_json.specs.Data.{string, no_members, put};
ghost use Rattle.serde_json.specs.View.{view, members_view};
ghost use Rattle.hydro_form.specs.Listed.{put_by};
ghost use Rattle.base_graph.specs.Paths.{numbers};
ghost use Rattle.hydro_read.specs.Described.{IsPlants};
ghost use Rattle.hydro_make.specs.Layout.{all_reservoirs, all_buses, travel, stores};
ghost use Rattle.hydro_make.specs.Columns.{state_name, chance_name, columns};
ghost use Rattle.hydro_make.specs.Stage.{water_sum, bus_sum, zero_row, way_constraints, rows, constraints, objective, column_variable, state, states, random_variables, program, subproblem};
ghost use Rattle.hydro_make.specs.Chances.{chance_count};
ghost use Rattle.hydro_make.specs.Seen.{seen_store, seen_column, chance_of};

use crate::bounds::push_bounds;
use crate::columns::{Column, Random, Store, columns, stores};
use crate::names::{after_name, before_name, column_name, random_name, state_name};
use crate::plants::travel;
use crate::rows::{bus_row, cost_terms, water_row, way_row};
use hydro_form::{least_sum, push_text, push_variable, state_between};
use hydro_read::Plants;
use serde_json::{Map, Value};
use std::alloc::{AllocError, Global};

// ---- constraints

fn push_water_rows(alloc: Global, plants: &Plants, list: &mut Vec<Value>) -> Result<(), AllocError>
    ensures { OnOk result (map view list.new.items ≡ map view list.old.items
        ++ map (λ j. zero_row plants.now (water_sum plants.now j)) (all_reservoirs plants.now)) }
{
    for j in 0..plants.reservoirs.len() {
        list.push(water_row(alloc, plants, j)?)?;
    }
    Ok(())
}

// The rows of the water under way from a reservoir.
#[tactic(auto, unfolding(crate::specs::Stage::way_constraints))]
fn push_way_rows(
    alloc: Global,
    plants: &Plants,
    list: &mut Vec<Value>,
    j: usize,
) -> Result<(), AllocError>
    requires { travel plants.now j ≤ 3 }
    ensures { OnOk result (map view list.new.items
        ≡ map view list.old.items ++ way_constraints plants.now j) }
{
    for k in 0..travel(plants, j) {
        list.push(way_row(alloc, plants, j, k + 1)?)?;
    }
    Ok(())
}

fn push_all_way_rows(
    alloc: Global,
    plants: &Plants,
    list: &mut Vec<Value>,
) -> Result<(), AllocError>
    requires { IsPlants plants.now }
    ensures { OnOk result (map view list.new.items
        ≡ map view list.old.items ++ flat_map (way_constraints plants.now) (all_reservoirs plants.now)) }
{
    for j in 0..plants.reservoirs.len() {
        push_way_rows(alloc, plants, list, j)?;
    }
    Ok(())
}

fn push_bus_rows(alloc: Global, plants: &Plants, list: &mut Vec<Value>) -> Result<(), AllocError>
    ensures { OnOk result (map view list.new.items ≡ map view list.old.items
        ++ map (λ b. zero_row plants.now (bus_sum plants.now b)) (all_buses plants.now)) }
{
    for b in 0..plants.buses.len() {
        list.push(bus_row(alloc, plants, b)?)?;
    }
    Ok(())
}

#[tactic(auto, unfolding(crate::specs::Stage::rows))]
fn rows(alloc: Global, plants: &Plants) -> Result<Vec<Value>, AllocError>
    requires { IsPlants plants.now }
    ensures { IfOk result (λ list. map view list.items ≡ rows plants.now) }
{
    let mut list = Vec::new(alloc);
    push_water_rows(alloc, plants, &mut list)?;
    push_all_way_rows(alloc, plants, &mut list)?;
    push_bus_rows(alloc, plants, &mut list)?;
    Ok(list)
}

#[tactic(auto, unfolding(crate::specs::Stage::constraints))]
fn constraints(alloc: Global, plants: &Plants, all: &[Column]) -> Result<Vec<Value>, AllocError>
    requires plants { IsPlants plants.now }
    requires columns { map seen_column all.now ≡ columns plants.now }
    ensures { IfOk result (λ list. map view list.items ≡ constraints plants.now) }
{
    let mut list = rows(alloc, plants)?;
    push_bounds(alloc, plants, &mut list, all)?;
    Ok(list)
}

// ---- the program

fn variables(alloc: Global, plants: &Plants, columns: &[Column]) -> Result<Vec<Value>, AllocError>
    ensures { IfOk result (λ list. map view list.items
        ≡ map (column_variable plants.now) (map seen_column columns.now)) }
{
    let mut list = Vec::new(alloc);
    for column in columns {
        let name = column_name(alloc, plants, *column)?;
        push_variable(alloc, &mut list, name.as_str())?;
    }
    Ok(list)
}

#[tactic(auto, unfolding(crate::specs::Stage::objective))]
fn objective(alloc: Global, plants: &Plants) -> Result<Value, AllocError>
    ensures { IfOk result (λ v. view v ≡ objective plants.now) }
{
    let terms = cost_terms(alloc, plants)?;
    least_sum(alloc, terms)
}

#[tactic(auto, unfolding(crate::specs::Stage::program))]
fn program(alloc: Global, plants: &Plants) -> Result<Value, AllocError>
    requires { IsPlants plants.now }
    ensures { IfOk result (λ v. view v ≡ program plants.now) }
{
    let columns = columns(alloc, plants)?;
    let variables = variables(alloc, plants, columns.as_slice())?;
    let objective = objective(alloc, plants)?;
    let constraints = constraints(alloc, plants, columns.as_slice())?;
    hydro_form::program(alloc, constraints, objective, variables)
}

// ---- states and random variables

fn state(alloc: Global, plants: &Plants, store: Store) -> Result<Value, AllocError>
    ensures { IfOk result (λ v. view v ≡ state plants.now (seen_store store)) }
{
    let incoming = before_name(alloc, plants, store)?;
    let outgoing = after_name(alloc, plants, store)?;
    state_between(alloc, incoming.as_str(), outgoing.as_str())
}

fn put_state(
    alloc: Global,
    plants: &Plants,
    store: Store,
    map: &mut Map<String, Value>,
) -> Result<(), AllocError>
    ensures { OnOk result (members_view map.new.entries ≡ put (state_name plants.now (seen_store store))
        (state plants.now (seen_store store)) (members_view map.old.entries)) }
{
    let name = state_name(alloc, plants, store)?;
    let value = state(alloc, plants, store)?;
    serde_json::put(map, alloc, name.as_str(), value)
}

fn put_states(
    alloc: Global,
    plants: &Plants,
    stores: &[Store],
) -> Result<Map<String, Value>, AllocError>
    ensures { IfOk result (λ m. members_view m.entries
        ≡ put_by (state_name plants.now) (state plants.now) (map seen_store stores.now) no_members) }
{
    let mut map = Map::new(alloc);
    for store in stores {
        put_state(alloc, plants, *store, &mut map)?;
    }
    Ok(map)
}

#[tactic(auto, unfolding(crate::specs::Stage::states))]
fn states(alloc: Global, plants: &Plants) -> Result<Map<String, Value>, AllocError>
    requires { IsPlants plants.now }
    ensures { IfOk result (λ m. members_view m.entries ≡ states plants.now) }
{
    let stores = stores(alloc, plants)?;
    let map = put_states(alloc, plants, stores.as_slice())?;
    Ok(map)
}

// Counts the random variables of a kind.
fn random_count(plants: &Plants, random: Random) -> usize
    ensures { result ≡ chance_count plants.now random }
{
    match random {
        Random::Inflow => plants.reservoirs.len(),
        Random::Demand => plants.buses.len(),
    }
}

// The names of the random variables of a kind.
fn push_names(
    alloc: Global,
    plants: &Plants,
    list: &mut Vec<Value>,
    random: Random,
) -> Result<(), AllocError>
    ensures { OnOk result (map view list.new.items ≡ map view list.old.items
        ++ map (λ n. string (chance_name plants.now (chance_of random n))) (numbers (chance_count plants.now random))) }
{
    for at in 0..random_count(plants, random) {
        let name = random_name(alloc, plants, random, at)?;
        push_text(list, name)?;
    }
    Ok(())
}

#[tactic(auto, unfolding(crate::specs::Stage::random_variables))]
fn random_variables(alloc: Global, plants: &Plants) -> Result<Vec<Value>, AllocError>
    ensures { IfOk result (λ list. map view list.items ≡ random_variables plants.now) }
{
    let mut list = Vec::new(alloc);
    push_names(alloc, plants, &mut list, Random::Inflow)?;
    push_names(alloc, plants, &mut list, Random::Demand)?;
    Ok(list)
}

/// The subproblem of each stage. [`AllocError`] where memory was refused.
#[tactic(auto, unfolding(crate::specs::Stage::subproblem))]
pub(crate) fn subproblem(alloc: Global, plants: &Plants) -> Result<Value, AllocError>
    requires { IsPlants plants.now }
    ensures { IfOk result (λ v. view v ≡ subproblem plants.now) }
{
    let randoms = random_variables(alloc, plants)?;
    let states = states(alloc, plants)?;
    let program = program(alloc, plants)?;
    hydro_form::subproblem(alloc, randoms, states, program)
}
