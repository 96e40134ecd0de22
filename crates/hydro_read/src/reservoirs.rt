// The reservoirs of a description.
ghost use Rattle.std.specs.Prelude.{◌≡◌, ◌≤◌, ◌^◌, length, option_map};
ghost use Rattle.serde_json.specs.View.{view, members_view};
ghost use Rattle.hydro_read.specs.Steps.{HydroGives};
ghost use Rattle.hydro_read.specs.Grid.{travel_at, levels_at, read_reservoir_at, reservoirs_at, travel_stages, state_count_at};

use crate::field::{amount, amount_or_zero, natural};
use crate::names::{AllNames, key, named};
use crate::place::HydroPlace;
use crate::plants::{Reservoir, Travel};
use crate::refusal::{HydroFault, HydroKind, HydroPart, HydroRefusal};
use base_num::List;
use read_json::{Names, count, few, object_or};
use serde_json::{Map, Value};
use std::alloc::Global;

/// The most stages over which water is on its way.
const LONGEST_TRAVEL: u32 = 3;
/// The most states of the problem that is made of a description.
const MOST_STATES: usize = 50;

// Reads the way of the water that leaves a reservoir, none where it has no downstream.
#[tactic(auto, unfolding(crate::specs::Grid::travel_at))]
fn travel(
    reservoirs: &Names,
    value: &Value,
    downstream: Option<&Value>,
    place: HydroPlace,
) -> Result<Option<Travel>, HydroRefusal>
    requires { length reservoirs.now ≤ 2 ^ 32 }
    ensures { result ≡ travel_at place reservoirs.now (view value.now)
        (option_map (λ v. view v.now) downstream.entry) }
{
    if downstream.is_none() {
        return Ok(None);
    }
    let target = named(reservoirs, downstream, place)?;
    let stages = natural(value.get("travel"), 0, LONGEST_TRAVEL, place)?;
    Ok(Some(Travel { target, stages }))
}

// Refuses a low volume above the high one, and an initial one outside both: Limit.
#[tactic(auto, unfolding(crate::specs::Grid::levels_at))]
fn levels(low: i64, high: i64, initial: i64, place: HydroPlace) -> Result<(), HydroRefusal>
    ensures { result ≡ levels_at place low high initial }
{
    if low <= high && low <= initial && initial <= high {
        return Ok(());
    }
    Err(HydroKind::Limit.at(place))
}

#[tactic(auto, unfolding(crate::specs::Grid::read_reservoir_at, crate::specs::Fields::hydro_object_at))]
fn reservoir(
    alloc: Global,
    names: &AllNames,
    found: &mut List<Reservoir>,
    i: u32,
    name: &str,
    value: &Value,
) -> Result<(), HydroFault>
    requires few_buses { length names.now.buses.now ≤ 2 ^ 32 }
    requires few_reservoirs { length names.now.reservoirs.now ≤ 2 ^ 32 }
    ensures { HydroGives (λ _. found.new) result
        (read_reservoir_at names.now.buses.now names.now.reservoirs.now found.old i name.now (view value.now)) }
{
    let place = HydroPlace::new(HydroPart::Reservoir, i, 0);
    let name = key(alloc, name, place)?;
    object_or(value, HydroKind::Shape.at(place))?;
    let bus = named(names.buses, value.get("bus"), place)?;
    let low = amount(value.get("low"), place)?;
    let high = amount(value.get("high"), place)?;
    let initial = amount(value.get("initial"), place)?;
    let turbine = amount(value.get("turbine"), place)?;
    let spill = amount(value.get("spill"), place)?;
    let factor = amount(value.get("factor"), place)?;
    let spill_cost = amount_or_zero(value.get("spill_cost"), place)?;
    let downstream = travel(names.reservoirs, value, value.get("downstream"), place)?;
    levels(low, high, initial, place)?;
    found.push(Reservoir {
        name,
        bus,
        low,
        high,
        initial,
        turbine,
        spill,
        factor,
        spill_cost,
        downstream,
    })?;
    Ok(())
}

/// The reservoirs, in the byte order of their names.
pub(crate) fn reservoirs(
    alloc: Global,
    names: &AllNames,
    table: &Map<String, Value>,
) -> Result<List<Reservoir>, HydroFault>
    requires few_buses { length names.now.buses.now ≤ 2 ^ 32 }
    requires few_reservoirs { length names.now.reservoirs.now ≤ 2 ^ 32 }
    ensures { HydroGives (λ l. l) result
        (reservoirs_at names.now.buses.now (members_view table.now.entries) names.now.reservoirs.now) }
{
    few(count(table))?;
    let mut found = List::new(alloc);
    let mut i = 0u32;
    for (name, value) in table.iter() {
        reservoir(alloc, names, &mut found, i, name.as_str(), value)?;
        i += 1;
    }
    Ok(found)
}

// Counts the stages over which water is on its way.
fn travel_stages(downstream: Option<Travel>) -> usize
    ensures { result ≡ travel_stages downstream }
{
    match downstream {
        Some(travel) => travel.stages as usize,
        None => 0,
    }
}

/// States where the reservoirs and the sum of all travels are more than 50.
#[tactic(auto, unfolding(crate::specs::Grid::state_count_at, crate::specs::Grid::state_count))]
pub(crate) fn states(reservoirs: &[Reservoir]) -> Result<(), HydroRefusal>
    ensures { result ≡ state_count_at reservoirs.now }
{
    let too_many = HydroKind::States.at(HydroPlace::WHOLE);
    let Some(mut left) = MOST_STATES.checked_sub(reservoirs.len()) else {
        return Err(too_many);
    };
    for reservoir in reservoirs {
        let Some(tail) = left.checked_sub(travel_stages(reservoir.downstream)) else {
            return Err(too_many);
        };
        left = tail;
    }
    Ok(())
}
