// The states and the variables of a stage, in the order in which they are written.
ghost use Rattle.std.specs.Prelude.{◌≡◌, ◌++◌, map, IfOk, OnOk};
ghost use Rattle.std.specs.List.{flat_map};
ghost use Rattle.hydro_make.specs.Layout.{all_reservoirs, all_thermals, all_lines, all_buses, volume_of, thermal_of, line_of, travel, steps, way_at, ways, stores};
ghost use Rattle.hydro_make.specs.Columns.{decided, way_columns, reservoir_columns, bus_columns, columns};
ghost use Rattle.hydro_make.specs.Seen.{seen_store, seen_column};

use crate::plants::travel;
use hydro_read::Plants;
use std::alloc::{AllocError, Global};

/// A state: a quantity that is carried from stage to stage.
#[derive(Clone, Copy)]
pub(crate) enum Store {
    /// The volume of a reservoir.
    Volume(usize),
    /// The water of a reservoir that arrives with the stage of this number, where 1 is the next one.
    Way(usize, u32),
}

/// A variable of a stage. Reservoirs, thermals, lines and buses stand by their numbers.
#[derive(Clone, Copy)]
pub(crate) enum Column {
    /// A state before the stage.
    Before(Store),
    /// A state after the stage.
    After(Store),
    /// The inflow into a reservoir.
    Inflow(usize),
    /// The demand at a bus.
    Demand(usize),
    /// The water through the turbine of a reservoir.
    Turbine(usize),
    /// The spill of a reservoir.
    Spill(usize),
    /// The energy of a thermal.
    Thermal(usize),
    /// The energy on a line.
    Line(usize),
    /// The deficit at a bus.
    Deficit(usize),
}

/// A kind of random variable, which is drawn before a stage is decided.
#[derive(Clone, Copy)]
pub(crate) enum Random {
    /// The inflow into each reservoir.
    Inflow,
    /// The demand at each bus.
    Demand,
}

// The water that is so many stages away from a reservoir whose water travels so far.
fn push_way(list: &mut Vec<Store>, plants: &Plants, away: u32, j: usize) -> Result<(), AllocError>
    ensures { OnOk result (map seen_store list.new.items
        ≡ map seen_store list.old.items ++ way_at plants.now away j) }
{
    if away > travel(plants, j) {
        return Ok(());
    }
    Ok(list.push(Store::Way(j, away))?)
}

// The water that is so many stages away, from each reservoir whose water travels so far.
fn push_ways(list: &mut Vec<Store>, plants: &Plants, away: u32) -> Result<(), AllocError>
    ensures { OnOk result (map seen_store list.new.items
        ≡ map seen_store list.old.items ++ ways plants.now away) }
{
    for j in 0..plants.reservoirs.len() {
        push_way(list, plants, away, j)?;
    }
    Ok(())
}

fn push_volumes(list: &mut Vec<Store>, plants: &Plants) -> Result<(), AllocError>
    ensures { OnOk result (map seen_store list.new.items
        ≡ map seen_store list.old.items ++ map volume_of (all_reservoirs plants.now)) }
{
    for j in 0..plants.reservoirs.len() {
        list.push(Store::Volume(j))?;
    }
    Ok(())
}

/// Gives all states, in the order of their names. [`AllocError`] where memory was refused.
pub(crate) fn stores(alloc: Global, plants: &Plants) -> Result<Vec<Store>, AllocError>
    ensures { IfOk result (λ list. map seen_store list.items ≡ stores plants.now) }
{
    let mut list = Vec::new(alloc);
    push_ways(&mut list, plants, 1)?;
    push_ways(&mut list, plants, 2)?;
    push_ways(&mut list, plants, 3)?;
    push_volumes(&mut list, plants)?;
    Ok(list)
}

// Appends the columns of the water under way from a reservoir.
fn push_way_columns(list: &mut Vec<Column>, plants: &Plants, j: usize) -> Result<(), AllocError>
    ensures { OnOk result (map seen_column list.new.items
        ≡ map seen_column list.old.items ++ flat_map (way_columns j) (steps (travel plants.now j))) }
{
    for k in 0..travel(plants, j) {
        let store = Store::Way(j, k + 1);
        list.push(Column::Before(store))?;
        list.push(Column::After(store))?;
    }
    Ok(())
}

#[tactic(auto, unfolding(crate::specs::Columns::reservoir_columns))]
fn push_reservoir_columns(
    list: &mut Vec<Column>,
    plants: &Plants,
    j: usize,
) -> Result<(), AllocError>
    ensures { OnOk result (map seen_column list.new.items
        ≡ map seen_column list.old.items ++ reservoir_columns plants.now j) }
{
    list.push(Column::Before(Store::Volume(j)))?;
    list.push(Column::Inflow(j))?;
    list.push(Column::After(Store::Volume(j)))?;
    list.push(Column::Turbine(j))?;
    list.push(Column::Spill(j))?;
    push_way_columns(list, plants, j)
}

fn push_all_reservoirs(list: &mut Vec<Column>, plants: &Plants) -> Result<(), AllocError>
    ensures { OnOk result (map seen_column list.new.items
        ≡ map seen_column list.old.items ++ flat_map (reservoir_columns plants.now) (all_reservoirs plants.now)) }
{
    for j in 0..plants.reservoirs.len() {
        push_reservoir_columns(list, plants, j)?;
    }
    Ok(())
}

fn push_all_thermals(list: &mut Vec<Column>, plants: &Plants) -> Result<(), AllocError>
    ensures { OnOk result (map seen_column list.new.items
        ≡ map seen_column list.old.items ++ map (λ i. decided (thermal_of i)) (all_thermals plants.now)) }
{
    for i in 0..plants.thermals.len() {
        list.push(Column::Thermal(i))?;
    }
    Ok(())
}

fn push_all_lines(list: &mut Vec<Column>, plants: &Plants) -> Result<(), AllocError>
    ensures { OnOk result (map seen_column list.new.items
        ≡ map seen_column list.old.items ++ map (λ l. decided (line_of l)) (all_lines plants.now)) }
{
    for l in 0..plants.lines.len() {
        list.push(Column::Line(l))?;
    }
    Ok(())
}

fn push_all_buses(list: &mut Vec<Column>, plants: &Plants) -> Result<(), AllocError>
    ensures { OnOk result (map seen_column list.new.items
        ≡ map seen_column list.old.items ++ flat_map bus_columns (all_buses plants.now)) }
{
    for b in 0..plants.buses.len() {
        list.push(Column::Demand(b))?;
        list.push(Column::Deficit(b))?;
    }
    Ok(())
}

/// Gives all variables of a stage. [`AllocError`] where memory was refused.
#[tactic(auto, unfolding(crate::specs::Columns::columns))]
pub(crate) fn columns(alloc: Global, plants: &Plants) -> Result<Vec<Column>, AllocError>
    ensures { IfOk result (λ list. map seen_column list.items ≡ columns plants.now) }
{
    let mut list = Vec::new(alloc);
    push_all_reservoirs(&mut list, plants)?;
    push_all_thermals(&mut list, plants)?;
    push_all_lines(&mut list, plants)?;
    push_all_buses(&mut list, plants)?;
    Ok(list)
}
