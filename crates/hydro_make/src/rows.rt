// The rows of a stage and its objective: each variable with its factor.
ghost use Rattle.std.specs.Prelude.{◌≡◌, ◌<◌, [], ◌∷◌, ◌++◌, length, map, IfOk, OnOk, if◌then◌else◌};
ghost use Rattle.serde_json.specs.View.{view};
ghost use Rattle.hydro_make.specs.Stage.{column_term, coming, water_sum, way_source, way_sum, bus_sum, hydro_cost_sum, zero_row};
ghost use Rattle.hydro_make.specs.Parts.{count_of, sum_at, part_sum};
ghost use Rattle.hydro_make.specs.Seen.{seen_column};

use crate::columns::{Column, Store};
use crate::names::column_name;
use crate::plants::{bus, line, reservoir, thermal, travel};
use hydro_form::{push_term, row};
use hydro_read::Plants;
use serde_json::Value;
use std::alloc::{AllocError, Global};

// Appends a term.
fn push(
    alloc: Global,
    plants: &Plants,
    list: &mut Vec<Value>,
    coefficient: i64,
    column: Column,
) -> Result<(), AllocError>
    ensures { OnOk result (map view list.new.items
        ≡ map view list.old.items ++ column_term plants.now (coefficient, seen_column column) ∷ []) }
{
    let name = column_name(alloc, plants, column)?;
    push_term(alloc, list, coefficient, name.as_str())
}

// Appends a term, where there is one.
fn push_where(
    alloc: Global,
    plants: &Plants,
    list: &mut Vec<Value>,
    there: bool,
    coefficient: i64,
    column: Column,
) -> Result<(), AllocError>
    ensures { OnOk result (map view list.new.items ≡ map view list.old.items
        ++ map (column_term plants.now) (if there then (coefficient, seen_column column) ∷ [] else [])) }
{
    if !there {
        return Ok(());
    }
    push(alloc, plants, list, coefficient, column)
}

// ---- the terms of a sum, for each plant of a kind

// A part of a sum, with the number of the reservoir or of the bus whose sum it is.
#[derive(Clone, Copy)]
enum Part {
    // The water that comes into a reservoir, from each reservoir.
    Coming(usize),
    // The energy that each reservoir's turbine gives to a bus.
    Turbined(usize),
    // The energy that each thermal gives to a bus.
    Burned(usize),
    // The energy that each line brings to a bus.
    Arriving(usize),
    // The energy that each line takes from a bus.
    Leaving(usize),
    // The cost of each thermal's energy.
    ThermalCost,
    // The cost of each bus's deficit.
    DeficitCost,
    // The cost of each reservoir's spill.
    SpillCost,
}

// Counts the plants of the kind.
fn count(plants: &Plants, part: Part) -> usize
    ensures { result ≡ count_of plants.now part }
{
    match part {
        Part::Coming(_) | Part::Turbined(_) | Part::SpillCost => plants.reservoirs.len(),
        Part::Burned(_) | Part::ThermalCost => plants.thermals.len(),
        Part::Arriving(_) | Part::Leaving(_) => plants.lines.len(),
        Part::DeficitCost => plants.buses.len(),
    }
}

// Appends the water that comes into reservoir `j` from reservoir `i`.
#[tactic(auto, unfolding(crate::specs::Stage::coming))]
fn push_coming(
    alloc: Global,
    plants: &Plants,
    list: &mut Vec<Value>,
    j: usize,
    i: usize,
) -> Result<(), AllocError>
    requires { i < length plants.now.reservoirs }
    ensures { OnOk result (map view list.new.items
        ≡ map view list.old.items ++ map (column_term plants.now) (coming plants.now j i)) }
{
    let Some(travel) = reservoir(plants, i).downstream else {
        return Ok(());
    };
    if travel.target as usize != j {
        return Ok(());
    }
    if travel.stages != 0 {
        return push(alloc, plants, list, -1, Column::Before(Store::Way(i, 1)));
    }
    push(alloc, plants, list, -1, Column::Turbine(i))?;
    push(alloc, plants, list, -1, Column::Spill(i))
}

// Appends the terms of one plant.
#[tactic(auto, unfolding(crate::specs::Stage::turbined_at, crate::specs::Stage::burned_at, crate::specs::Stage::arriving_at, crate::specs::Stage::leaving_at, crate::specs::Stage::spill_cost_at))]
fn push_part(
    alloc: Global,
    plants: &Plants,
    list: &mut Vec<Value>,
    part: Part,
    at: usize,
) -> Result<(), AllocError>
    requires { at < count_of plants.now part }
    ensures { OnOk result (map view list.new.items ≡ map view list.old.items ++ map (column_term plants.now) (sum_at plants.now part at)) }
{
    match part {
        Part::Coming(j) => push_coming(alloc, plants, list, j, at),
        Part::Turbined(b) => {
            let from = reservoir(plants, at);
            let here = from.bus as usize == b;
            push_where(alloc, plants, list, here, from.factor, Column::Turbine(at))
        }
        Part::Burned(b) => {
            let here = thermal(plants, at).bus as usize == b;
            push_where(alloc, plants, list, here, 1, Column::Thermal(at))
        }
        Part::Arriving(b) => {
            let here = line(plants, at).target as usize == b;
            push_where(alloc, plants, list, here, 1, Column::Line(at))
        }
        Part::Leaving(b) => {
            let here = line(plants, at).source as usize == b;
            push_where(alloc, plants, list, here, -1, Column::Line(at))
        }
        Part::ThermalCost => {
            let cost = thermal(plants, at).cost;
            push(alloc, plants, list, cost, Column::Thermal(at))
        }
        Part::DeficitCost => {
            let cost = bus(plants, at).deficit_cost;
            push(alloc, plants, list, cost, Column::Deficit(at))
        }
        Part::SpillCost => {
            let cost = reservoir(plants, at).spill_cost;
            push_where(alloc, plants, list, cost != 0, cost, Column::Spill(at))
        }
    }
}

// Appends the terms of all plants of the kind.
fn push_all(
    alloc: Global,
    plants: &Plants,
    list: &mut Vec<Value>,
    part: Part,
) -> Result<(), AllocError>
    ensures { OnOk result (map view list.new.items
        ≡ map view list.old.items ++ map (column_term plants.now) (part_sum plants.now part)) }
{
    for at in 0..count(plants, part) {
        push_part(alloc, plants, list, part, at)?;
    }
    Ok(())
}

// ---- water of a reservoir

#[tactic(auto, unfolding(crate::specs::Stage::water_sum))]
fn water_terms(alloc: Global, plants: &Plants, j: usize) -> Result<Vec<Value>, AllocError>
    ensures { IfOk result (λ list. map view list.items
        ≡ map (column_term plants.now) (water_sum plants.now j)) }
{
    let mut list = Vec::new(alloc);
    push(alloc, plants, &mut list, 1, Column::After(Store::Volume(j)))?;
    push(alloc, plants, &mut list, 1, Column::Turbine(j))?;
    push(alloc, plants, &mut list, 1, Column::Spill(j))?;
    push(
        alloc,
        plants,
        &mut list,
        -1,
        Column::Before(Store::Volume(j)),
    )?;
    push(alloc, plants, &mut list, -1, Column::Inflow(j))?;
    push_all(alloc, plants, &mut list, Part::Coming(j))?;
    Ok(list)
}

/// Gives the water balance of a reservoir. [`AllocError`] where memory was refused, as of all functions here.
#[tactic(auto, unfolding(crate::specs::Stage::zero_row))]
pub(crate) fn water_row(alloc: Global, plants: &Plants, j: usize) -> Result<Value, AllocError>
    ensures { IfOk result (λ v. view v ≡ zero_row plants.now (water_sum plants.now j)) }
{
    let terms = water_terms(alloc, plants, j)?;
    row(alloc, 0, terms)
}

// ---- water under way

// Appends the source of the water of reservoir `j` that is `away` stages away: the water that was one stage further away, or at
// the full travel the turbined water and the spill.
fn push_way_source(
    alloc: Global,
    plants: &Plants,
    list: &mut Vec<Value>,
    j: usize,
    away: u32,
) -> Result<(), AllocError>
    requires { away < 4 }
    ensures { OnOk result (map view list.new.items
        ≡ map view list.old.items ++ map (column_term plants.now) (way_source plants.now j away)) }
{
    if away < travel(plants, j) {
        return push(
            alloc,
            plants,
            list,
            -1,
            Column::Before(Store::Way(j, away + 1)),
        );
    }
    push(alloc, plants, list, -1, Column::Turbine(j))?;
    push(alloc, plants, list, -1, Column::Spill(j))
}

#[tactic(auto, unfolding(crate::specs::Stage::way_sum))]
fn way_terms(alloc: Global, plants: &Plants, j: usize, away: u32) -> Result<Vec<Value>, AllocError>
    requires { away < 4 }
    ensures { IfOk result (λ list. map view list.items
        ≡ map (column_term plants.now) (way_sum plants.now j away)) }
{
    let mut list = Vec::new(alloc);
    push(
        alloc,
        plants,
        &mut list,
        1,
        Column::After(Store::Way(j, away)),
    )?;
    push_way_source(alloc, plants, &mut list, j, away)?;
    Ok(list)
}

/// Gives the row that brings the water under way from a reservoir one stage nearer.
#[tactic(auto, unfolding(crate::specs::Stage::zero_row))]
pub(crate) fn way_row(
    alloc: Global,
    plants: &Plants,
    j: usize,
    away: u32,
) -> Result<Value, AllocError>
    requires { away < 4 }
    ensures { IfOk result (λ v. view v ≡ zero_row plants.now (way_sum plants.now j away)) }
{
    let terms = way_terms(alloc, plants, j, away)?;
    row(alloc, 0, terms)
}

// ---- energy at a bus

#[tactic(auto, unfolding(crate::specs::Stage::bus_sum))]
fn bus_terms(alloc: Global, plants: &Plants, b: usize) -> Result<Vec<Value>, AllocError>
    ensures { IfOk result (λ list. map view list.items
        ≡ map (column_term plants.now) (bus_sum plants.now b)) }
{
    let mut list = Vec::new(alloc);
    push_all(alloc, plants, &mut list, Part::Turbined(b))?;
    push_all(alloc, plants, &mut list, Part::Burned(b))?;
    push_all(alloc, plants, &mut list, Part::Arriving(b))?;
    push_all(alloc, plants, &mut list, Part::Leaving(b))?;
    push(alloc, plants, &mut list, 1, Column::Deficit(b))?;
    push(alloc, plants, &mut list, -1, Column::Demand(b))?;
    Ok(list)
}

/// Gives the energy balance of a bus.
#[tactic(auto, unfolding(crate::specs::Stage::zero_row))]
pub(crate) fn bus_row(alloc: Global, plants: &Plants, b: usize) -> Result<Value, AllocError>
    ensures { IfOk result (λ v. view v ≡ zero_row plants.now (bus_sum plants.now b)) }
{
    let terms = bus_terms(alloc, plants, b)?;
    row(alloc, 0, terms)
}

// ---- costs

/// Gives the costs of thermals, of deficits and of spills.
#[tactic(auto, unfolding(crate::specs::Stage::hydro_cost_sum))]
pub(crate) fn cost_terms(alloc: Global, plants: &Plants) -> Result<Vec<Value>, AllocError>
    ensures { IfOk result (λ list. map view list.items
        ≡ map (column_term plants.now) (hydro_cost_sum plants.now)) }
{
    let mut list = Vec::new(alloc);
    push_all(alloc, plants, &mut list, Part::ThermalCost)?;
    push_all(alloc, plants, &mut list, Part::DeficitCost)?;
    push_all(alloc, plants, &mut list, Part::SpillCost)?;
    Ok(list)
}
