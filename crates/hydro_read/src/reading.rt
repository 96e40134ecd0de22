// A description of plants from its bytes.
ghost use Rattle.std.specs.Prelude.{IfOk};
ghost use Rattle.serde_json.specs.View.{view};
ghost use Rattle.hydro_read.specs.Described.{IsPlants};
ghost use Rattle.hydro_read.specs.Plants.{described_at, plants_of, plants_at};
ghost use Rattle.hydro_read.specs.Shown.{shown_hydro_tables};
ghost use Rattle.hydro_read.specs.Steps.{HydroGives};

use crate::buses::buses;
use crate::json_value::json;
use crate::lines::lines;
use crate::names::AllNames;
use crate::plants::Plants;
use crate::refusal::HydroFault;
use crate::reservoirs::{reservoirs, states};
use crate::stages::stages;
use crate::tables::{HydroTables, tables_of};
use crate::thermals::thermals;
use read_json::{Names, few, keys};
use serde_json::{Map, Value};
use std::alloc::Global;

// Reads the description that the tables hold. `bus_names` and `reservoir_names` are the names of all buses and of all
// reservoirs.
#[tactic(auto, unfolding(crate::specs::Plants::described_at))]
fn described(
    alloc: Global,
    bus_names: &Names,
    reservoir_names: &Names,
    tables: &HydroTables,
) -> Result<Plants, HydroFault>
    ensures { HydroGives (λ p. p) result (described_at bus_names.now reservoir_names.now (shown_hydro_tables tables.now)) }
{
    few(bus_names.len())?;
    few(reservoir_names.len())?;
    let names = AllNames {
        buses: bus_names,
        reservoirs: reservoir_names,
    };
    let buses = buses(alloc, tables.buses)?;
    let reservoirs = reservoirs(alloc, &names, tables.reservoirs)?;
    let thermals = thermals(alloc, bus_names, tables.thermals)?;
    let lines = lines(alloc, bus_names, tables.lines)?;
    states(reservoirs.as_slice())?;
    let stages = stages(alloc, bus_names, reservoir_names, tables.stages)?;
    Ok(Plants {
        buses,
        reservoirs,
        thermals,
        lines,
        stages,
    })
}

// Reads the description that a JSON value gives, or the first refusal.
#[tactic(auto, unfolding(crate::specs::Plants::plants_of))]
fn plants(alloc: Global, value: &Value) -> Result<Plants, HydroFault>
    ensures { HydroGives (λ p. p) result (plants_of (view value.now)) }
{
    let none = Map::new(alloc);
    let tables = tables_of(value, &none)?;
    let bus_names = keys(alloc, tables.buses)?;
    let reservoir_names = keys(alloc, tables.reservoirs)?;
    described(alloc, &bus_names, &reservoir_names, &tables)
}

// Reads the description that the bytes give, or the first refusal.
#[tactic(auto, unfolding(crate::specs::Plants::plants_at))]
fn read(alloc: Global, bytes: &[u8]) -> Result<Plants, HydroFault>
    ensures { HydroGives (λ p. p) result (plants_at bytes.now) }
{
    let value = json(alloc, bytes)?;
    plants(alloc, &value)
}

/// Reads the description of plants that the bytes give. The error is the first refusal, or Memory where memory was refused.
pub fn read_plants(alloc: Global, bytes: &[u8]) -> Result<Plants, HydroFault>
    ensures value { HydroGives (λ p. p) result (plants_at bytes.now) }
    ensures known { IfOk result IsPlants }
{
    let plants = read(alloc, bytes)?;
    Ok(plants)
}
