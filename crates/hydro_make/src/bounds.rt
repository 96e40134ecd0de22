// The bounds of the decisions of a stage and of its states.
ghost use Rattle.std.specs.Prelude.{◌≡◌, ◌++◌, [], ◌∷◌, map, OnOk};
ghost use Rattle.std.specs.List.{flat_map};
ghost use Rattle.serde_json.specs.View.{view};
ghost use Rattle.hydro_form.specs.Stage.{variable_bound};
ghost use Rattle.hydro_read.specs.Described.{IsPlants};
ghost use Rattle.hydro_make.specs.Layout.{numbered_reservoir, thermal, line, way_of, store_low, store_high, store_initial};
ghost use Rattle.hydro_make.specs.Columns.{column_name};
ghost use Rattle.hydro_make.specs.Stage.{bounds_of};
ghost use Rattle.hydro_make.specs.Seen.{seen_store, seen_column};

use crate::columns::{Column, Store};
use crate::names::column_name;
use crate::plants::{line, reservoir, thermal};
use hydro_form::push_bound;
use hydro_read::Plants;
use serde_json::Value;
use std::alloc::{AllocError, Global};

/// The most energy that is missing at a bus.
const GREATEST_DEFICIT: i64 = 1_048_576;

// The amounts of a reservoir.
#[derive(Clone, Copy)]
struct Amounts {
    low: i64,
    high: i64,
    initial: i64,
    turbine: i64,
    spill: i64,
}

// The amounts of a reservoir; nothing where none has this number.
fn amounts_of(plants: &Plants, j: usize) -> Amounts
    ensures low { result.low ≡ (numbered_reservoir plants.now j).low }
    ensures high { result.high ≡ (numbered_reservoir plants.now j).high }
    ensures initial { result.initial ≡ (numbered_reservoir plants.now j).initial }
    ensures turbine { result.turbine ≡ (numbered_reservoir plants.now j).turbine }
    ensures spill { result.spill ≡ (numbered_reservoir plants.now j).spill }
{
    if j >= plants.reservoirs.len() {
        return Amounts {
            low: 0,
            high: 0,
            initial: 0,
            turbine: 0,
            spill: 0,
        };
    }
    let all = reservoir(plants, j);
    Amounts {
        low: all.low,
        high: all.high,
        initial: all.initial,
        turbine: all.turbine,
        spill: all.spill,
    }
}

// The most that leaves a reservoir in a stage.
fn most_released(plants: &Plants, j: usize) -> i64
    requires { IsPlants plants.now }
    ensures { result ≡ store_high plants.now (way_of j 0) }
{
    let amounts = amounts_of(plants, j);
    amounts.turbine + amounts.spill
}

/// The least of a state.
pub(crate) fn store_low(plants: &Plants, store: Store) -> i64
    ensures { result ≡ store_low plants.now (seen_store store) }
{
    match store {
        Store::Volume(j) => amounts_of(plants, j).low,
        Store::Way(_, _) => 0,
    }
}

/// The most of a state.
pub(crate) fn store_high(plants: &Plants, store: Store) -> i64
    requires { IsPlants plants.now }
    ensures { result ≡ store_high plants.now (seen_store store) }
{
    match store {
        Store::Volume(j) => amounts_of(plants, j).high,
        Store::Way(j, _) => most_released(plants, j),
    }
}

/// A state before the first stage.
pub(crate) fn store_initial(plants: &Plants, store: Store) -> i64
    ensures { result ≡ store_initial plants.now (seen_store store) }
{
    match store {
        Store::Volume(j) => amounts_of(plants, j).initial,
        Store::Way(_, _) => 0,
    }
}

// The most energy of a thermal.
fn thermal_high(plants: &Plants, i: usize) -> i64
    ensures { result ≡ (thermal plants.now i).high }
{
    if i < plants.thermals.len() {
        thermal(plants, i).high
    } else {
        0
    }
}

// The most energy on a line.
fn line_high(plants: &Plants, l: usize) -> i64
    ensures { result ≡ (line plants.now l).high }
{
    if l < plants.lines.len() {
        line(plants, l).high
    } else {
        0
    }
}

// Appends a bound: a variable is from `low` to `high`.
fn push_between(
    alloc: Global,
    plants: &Plants,
    list: &mut Vec<Value>,
    column: Column,
    low: i64,
    high: i64,
) -> Result<(), AllocError>
    ensures { OnOk result (map view list.new.items
        ≡ map view list.old.items ++ variable_bound (column_name plants.now (seen_column column)) low high ∷ []) }
{
    let name = column_name(alloc, plants, column)?;
    push_bound(alloc, list, name.as_str(), low, high)
}

// The bounds of a state, before the stage or after it.
fn push_store_bounds(
    alloc: Global,
    plants: &Plants,
    list: &mut Vec<Value>,
    column: Column,
    store: Store,
) -> Result<(), AllocError>
    requires { IsPlants plants.now }
    ensures { OnOk result (map view list.new.items ≡ map view list.old.items
        ++ variable_bound (column_name plants.now (seen_column column)) (store_low plants.now (seen_store store)) (store_high plants.now (seen_store store)) ∷ []) }
{
    let low = store_low(plants, store);
    let high = store_high(plants, store);
    push_between(alloc, plants, list, column, low, high)
}

// Appends the bounds of a variable; a random variable has none.
#[tactic(auto, unfolding(crate::specs::Stage::bounds_of, crate::specs::Columns::column_name))]
fn push_bounds_of(
    alloc: Global,
    plants: &Plants,
    list: &mut Vec<Value>,
    column: Column,
) -> Result<(), AllocError>
    requires { IsPlants plants.now }
    ensures { OnOk result (map view list.new.items
        ≡ map view list.old.items ++ bounds_of plants.now (seen_column column)) }
{
    match column {
        Column::Before(store) => push_store_bounds(alloc, plants, list, column, store),
        Column::After(store) => push_store_bounds(alloc, plants, list, column, store),
        Column::Inflow(_) => Ok(()),
        Column::Demand(_) => Ok(()),
        Column::Turbine(j) => {
            push_between(
                alloc,
                plants,
                list,
                column,
                0,
                amounts_of(plants, j).turbine,
            )
        }
        Column::Spill(j) => push_between(
            alloc,
            plants,
            list,
            column,
            0,
            amounts_of(plants, j).spill,
        ),
        Column::Thermal(i) => push_between(alloc, plants, list, column, 0, thermal_high(plants, i)),
        Column::Line(l) => push_between(alloc, plants, list, column, 0, line_high(plants, l)),
        Column::Deficit(_) => push_between(alloc, plants, list, column, 0, GREATEST_DEFICIT),
    }
}

/// The bounds of all variables, in order. [`AllocError`] where memory was refused.
pub(crate) fn push_bounds(
    alloc: Global,
    plants: &Plants,
    list: &mut Vec<Value>,
    columns: &[Column],
) -> Result<(), AllocError>
    requires { IsPlants plants.now }
    ensures { OnOk result (map view list.new.items
        ≡ map view list.old.items ++ flat_map (bounds_of plants.now) (map seen_column columns.now)) }
{
    for column in columns {
        push_bounds_of(alloc, plants, list, *column)?;
    }
    Ok(())
}
