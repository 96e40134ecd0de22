// Names of states and variables.
ghost use Rattle.std.specs.Prelude.{◌≡◌, ◌<◌, IfOk, string_bytes};
ghost use Rattle.hydro_make.specs.Layout.{inflow_of, demand_of};
ghost use Rattle.hydro_make.specs.Columns.{named, staged, state_name, before_name, after_name, column_name, chance_name, variable_name};
ghost use Rattle.hydro_make.specs.Seen.{seen_store, seen_column, chance_of};

use crate::columns::{Column, Random, Store};
use crate::plants::{bus_name, line_name, reservoir_name, thermal_name};
use hydro_form::{digit, text_of};
use hydro_read::Plants;
use std::alloc::{AllocError, Global};

// Builds the name of a quantity of a plant or a bus: letters, a colon and the name of the plant or the bus.
#[tactic(auto, unfolding(crate::specs::Columns::named))]
fn named(alloc: Global, letters: &str, name: &str) -> Result<String, AllocError>
    ensures { IfOk result (λ s. string_bytes s ≡ named letters.now name.now) }
{
    let mut text = String::from_str(alloc, letters)?;
    text.push_str(":")?;
    text.push_str(name)?;
    Ok(text)
}

// Builds the name of a quantity of water under way: a letter and the number of stages, a colon and the reservoir's name.
fn staged(alloc: Global, letter: u8, stages: u32, name: &str) -> Result<String, AllocError>
    requires { letter < 128 }
    ensures { IfOk result (λ s. string_bytes s ≡ named (staged letter stages) name.now) }
{
    let letters = [letter, digit(stages)];
    named(alloc, text_of(&letters), name)
}

/// Gives the name of a state. [`AllocError`] where memory was refused, as of all functions here.
#[tactic(auto, unfolding(crate::specs::Columns::state_name))]
pub(crate) fn state_name(alloc: Global, plants: &Plants, store: Store) -> Result<String, AllocError>
    ensures { IfOk result (λ s. string_bytes s ≡ state_name plants.now (seen_store store)) }
{
    match store {
        Store::Volume(j) => named(alloc, "v", reservoir_name(plants, j)),
        Store::Way(j, away) => staged(alloc, b'p', away, reservoir_name(plants, j)),
    }
}

/// Gives the name of the variable that is a state before the stage.
#[tactic(auto, unfolding(crate::specs::Columns::before_name))]
pub(crate) fn before_name(
    alloc: Global,
    plants: &Plants,
    store: Store,
) -> Result<String, AllocError>
    ensures { IfOk result (λ s. string_bytes s ≡ before_name plants.now (seen_store store)) }
{
    match store {
        Store::Volume(j) => named(alloc, "i", reservoir_name(plants, j)),
        Store::Way(j, away) => staged(alloc, b'a', away, reservoir_name(plants, j)),
    }
}

/// Gives the name of the variable that is a state after the stage.
#[tactic(auto, unfolding(crate::specs::Columns::after_name))]
pub(crate) fn after_name(alloc: Global, plants: &Plants, store: Store) -> Result<String, AllocError>
    ensures { IfOk result (λ s. string_bytes s ≡ after_name plants.now (seen_store store)) }
{
    match store {
        Store::Volume(j) => named(alloc, "o", reservoir_name(plants, j)),
        Store::Way(j, away) => staged(alloc, b'b', away, reservoir_name(plants, j)),
    }
}

/// Gives the name of the inflow into a reservoir.
#[tactic(auto, unfolding(crate::specs::Columns::chance_name))]
pub(crate) fn inflow_name(alloc: Global, plants: &Plants, j: usize) -> Result<String, AllocError>
    ensures { IfOk result (λ s. string_bytes s ≡ chance_name plants.now (inflow_of j)) }
{
    named(alloc, "w", reservoir_name(plants, j))
}

/// Gives the name of the demand at a bus.
#[tactic(auto, unfolding(crate::specs::Columns::chance_name))]
pub(crate) fn demand_name(alloc: Global, plants: &Plants, b: usize) -> Result<String, AllocError>
    ensures { IfOk result (λ s. string_bytes s ≡ chance_name plants.now (demand_of b)) }
{
    named(alloc, "d", bus_name(plants, b))
}

/// Gives the name of a random variable of a reservoir or of a bus.
pub(crate) fn random_name(
    alloc: Global,
    plants: &Plants,
    random: Random,
    at: usize,
) -> Result<String, AllocError>
    ensures { IfOk result (λ s. string_bytes s ≡ chance_name plants.now (chance_of random at)) }
{
    match random {
        Random::Inflow => inflow_name(alloc, plants, at),
        Random::Demand => demand_name(alloc, plants, at),
    }
}

/// Gives the name of a variable.
#[tactic(auto, unfolding(crate::specs::Columns::column_name, crate::specs::Columns::variable_name))]
pub(crate) fn column_name(
    alloc: Global,
    plants: &Plants,
    column: Column,
) -> Result<String, AllocError>
    ensures { IfOk result (λ s. string_bytes s ≡ column_name plants.now (seen_column column)) }
{
    match column {
        Column::Before(store) => before_name(alloc, plants, store),
        Column::After(store) => after_name(alloc, plants, store),
        Column::Inflow(j) => inflow_name(alloc, plants, j),
        Column::Demand(b) => demand_name(alloc, plants, b),
        Column::Turbine(j) => named(alloc, "q", reservoir_name(plants, j)),
        Column::Spill(j) => named(alloc, "z", reservoir_name(plants, j)),
        Column::Thermal(i) => named(alloc, "g", thermal_name(plants, i)),
        Column::Line(l) => named(alloc, "l", line_name(plants, l)),
        Column::Deficit(b) => named(alloc, "u", bus_name(plants, b)),
    }
}
