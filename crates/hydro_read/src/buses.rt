// The buses of a description.
ghost use Rattle.serde_json.specs.View.{view, members_view};
ghost use Rattle.hydro_read.specs.Steps.{HydroGives};
ghost use Rattle.hydro_read.specs.Grid.{bus_at, buses_at};

use crate::field::amount;
use crate::names::key;
use crate::place::HydroPlace;
use crate::plants::Bus;
use crate::refusal::{HydroFault, HydroKind, HydroPart};
use base_num::List;
use read_json::{count, few, object_or};
use serde_json::{Map, Value};
use std::alloc::Global;

#[tactic(auto, unfolding(crate::specs::Grid::bus_at, crate::specs::Fields::hydro_object_at))]
fn bus(
    alloc: Global,
    found: &mut List<Bus>,
    i: u32,
    name: &str,
    value: &Value,
) -> Result<(), HydroFault>
    ensures { HydroGives (λ _. found.new) result (bus_at found.old i name.now (view value.now)) }
{
    let place = HydroPlace::new(HydroPart::Bus, i, 0);
    let name = key(alloc, name, place)?;
    object_or(value, HydroKind::Shape.at(place))?;
    let deficit_cost = amount(value.get("deficit_cost"), place)?;
    found.push(Bus { name, deficit_cost })?;
    Ok(())
}

/// The buses, in the byte order of their names.
pub(crate) fn buses(alloc: Global, table: &Map<String, Value>) -> Result<List<Bus>, HydroFault>
    ensures { HydroGives (λ l. l) result (buses_at (members_view table.now.entries)) }
{
    few(count(table))?;
    let mut found = List::new(alloc);
    let mut i = 0u32;
    for (name, value) in table.iter() {
        bus(alloc, &mut found, i, name.as_str(), value)?;
        i += 1;
    }
    Ok(found)
}
