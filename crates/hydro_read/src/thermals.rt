// The thermal plants of a description.
ghost use Rattle.std.specs.Prelude.{◌≤◌, ◌^◌, length};
ghost use Rattle.serde_json.specs.View.{view, members_view};
ghost use Rattle.hydro_read.specs.Steps.{HydroGives};
ghost use Rattle.hydro_read.specs.Grid.{thermal_at, thermals_at};

use crate::field::amount;
use crate::names::{key, named};
use crate::place::HydroPlace;
use crate::plants::Thermal;
use crate::refusal::{HydroFault, HydroKind, HydroPart};
use base_num::List;
use read_json::{Names, count, few, object_or};
use serde_json::{Map, Value};
use std::alloc::Global;

#[tactic(auto, unfolding(crate::specs::Grid::thermal_at, crate::specs::Fields::hydro_object_at))]
fn thermal(
    alloc: Global,
    buses: &Names,
    found: &mut List<Thermal>,
    i: u32,
    name: &str,
    value: &Value,
) -> Result<(), HydroFault>
    requires { length buses.now ≤ 2 ^ 32 }
    ensures { HydroGives (λ _. found.new) result
        (thermal_at buses.now found.old i name.now (view value.now)) }
{
    let place = HydroPlace::new(HydroPart::Thermal, i, 0);
    let name = key(alloc, name, place)?;
    object_or(value, HydroKind::Shape.at(place))?;
    let bus = named(buses, value.get("bus"), place)?;
    let high = amount(value.get("high"), place)?;
    let cost = amount(value.get("cost"), place)?;
    found.push(Thermal {
        name,
        bus,
        high,
        cost,
    })?;
    Ok(())
}

/// The thermals, in the byte order of their names, where `buses` are the names of all buses.
pub(crate) fn thermals(
    alloc: Global,
    buses: &Names,
    table: &Map<String, Value>,
) -> Result<List<Thermal>, HydroFault>
    requires { length buses.now ≤ 2 ^ 32 }
    ensures { HydroGives (λ l. l) result (thermals_at buses.now (members_view table.now.entries)) }
{
    few(count(table))?;
    let mut found = List::new(alloc);
    let mut i = 0u32;
    for (name, value) in table.iter() {
        thermal(alloc, buses, &mut found, i, name.as_str(), value)?;
        i += 1;
    }
    Ok(found)
}
