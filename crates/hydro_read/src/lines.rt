// The lines of a description.
ghost use Rattle.std.specs.Prelude.{◌≤◌, ◌^◌, length};
ghost use Rattle.serde_json.specs.View.{view, members_view};
ghost use Rattle.hydro_read.specs.Steps.{HydroGives};
ghost use Rattle.hydro_read.specs.Grid.{line_at, lines_at};

use crate::field::amount;
use crate::names::{key, named};
use crate::place::HydroPlace;
use crate::plants::Line;
use crate::refusal::{HydroFault, HydroKind, HydroPart};
use base_num::List;
use read_json::{Names, count, few, object_or};
use serde_json::{Map, Value};
use std::alloc::Global;

#[tactic(auto, unfolding(crate::specs::Grid::line_at, crate::specs::Fields::hydro_object_at))]
fn line(
    alloc: Global,
    buses: &Names,
    found: &mut List<Line>,
    i: u32,
    name: &str,
    value: &Value,
) -> Result<(), HydroFault>
    requires { length buses.now ≤ 2 ^ 32 }
    ensures { HydroGives (λ _. found.new) result
        (line_at buses.now found.old i name.now (view value.now)) }
{
    let place = HydroPlace::new(HydroPart::Line, i, 0);
    let name = key(alloc, name, place)?;
    object_or(value, HydroKind::Shape.at(place))?;
    let source = named(buses, value.get("from"), place)?;
    let target = named(buses, value.get("to"), place)?;
    let high = amount(value.get("high"), place)?;
    found.push(Line {
        name,
        source,
        target,
        high,
    })?;
    Ok(())
}

/// The lines, in the byte order of their names, where `buses` are the names of all buses.
pub(crate) fn lines(
    alloc: Global,
    buses: &Names,
    table: &Map<String, Value>,
) -> Result<List<Line>, HydroFault>
    requires { length buses.now ≤ 2 ^ 32 }
    ensures { HydroGives (λ l. l) result (lines_at buses.now (members_view table.now.entries)) }
{
    few(count(table))?;
    let mut found = List::new(alloc);
    let mut i = 0u32;
    for (name, value) in table.iter() {
        line(alloc, buses, &mut found, i, name.as_str(), value)?;
        i += 1;
    }
    Ok(found)
}
