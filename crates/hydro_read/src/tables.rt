// The tables of a description.
ghost use Rattle.std.specs.Prelude.{◌≡◌, []};
ghost use Rattle.serde_json.specs.View.{view};
ghost use Rattle.read_json.specs.Steps.{Shows};
ghost use Rattle.hydro_read.specs.Tables.{hydro_counts_at, parts_at, hydro_tables_at};
ghost use Rattle.hydro_read.specs.Shown.{shown_hydro_tables};

use crate::field::{items, table};
use crate::place::HydroPlace;
use crate::refusal::{HydroKind, HydroRefusal};
use read_json::{count, members_or, object_or};
use serde_json::{Map, Value};

const MOST_BUSES: usize = 20;

const MOST_RESERVOIRS: usize = 20;

const MOST_THERMALS: usize = 40;

const MOST_LINES: usize = 40;

const MOST_STAGES: usize = 100;

/// The tables and the list of stages in a description.
#[derive(Clone, Copy)]
pub(crate) struct HydroTables<'v> {
    pub(crate) buses: &'v Map<String, Value>,
    pub(crate) reservoirs: &'v Map<String, Value>,
    pub(crate) thermals: &'v Map<String, Value>,
    pub(crate) lines: &'v Map<String, Value>,
    pub(crate) stages: &'v [Value],
}

// Refuses a count outside its range: Limit.
#[tactic(auto, unfolding(crate::specs::Tables::hydro_counts_at), using(read_json::proofs::InOrder::counts))]
fn counts(tables: &HydroTables) -> Result<(), HydroRefusal>
    ensures { result ≡ hydro_counts_at (shown_hydro_tables tables.now) }
{
    if 0 < count(tables.buses)
        && count(tables.buses) <= MOST_BUSES
        && count(tables.reservoirs) <= MOST_RESERVOIRS
        && count(tables.thermals) <= MOST_THERMALS
        && count(tables.lines) <= MOST_LINES
        && 0 < tables.stages.len()
        && tables.stages.len() <= MOST_STAGES
    {
        return Ok(());
    }
    Err(HydroKind::Limit.at(HydroPlace::WHOLE))
}

// The tables, where `none` has no members.
#[tactic(auto, unfolding(crate::specs::Tables::parts_at, crate::specs::Fields::hydro_object_at, crate::specs::Fields::hydro_members_at))]
fn parts<'v>(
    value: &'v Value,
    none: &'v Map<String, Value>,
) -> Result<HydroTables<'v>, HydroRefusal>
    requires { none.now.entries ≡ [] }
    ensures { Shows shown_hydro_tables result (parts_at (view value.now)) }
{
    let shape = HydroKind::Shape.at(HydroPlace::WHOLE);
    object_or(value, shape)?;
    let buses = table(value.get("buses"), HydroPlace::WHOLE)?;
    let reservoirs = members_or(value.get("reservoirs"), none, shape)?;
    let thermals = members_or(value.get("thermals"), none, shape)?;
    let lines = members_or(value.get("lines"), none, shape)?;
    let stages = items(value.get("stages"), HydroPlace::WHOLE)?;
    Ok(HydroTables {
        buses,
        reservoirs,
        thermals,
        lines,
        stages,
    })
}

/// The tables of a description, where `none` has no members: Shape where one is absent that has to be there, or
/// of the wrong type, and Limit where a count is outside its range.
#[tactic(auto, unfolding(crate::specs::Tables::hydro_tables_at))]
pub(crate) fn tables_of<'v>(
    value: &'v Value,
    none: &'v Map<String, Value>,
) -> Result<HydroTables<'v>, HydroRefusal>
    requires { none.now.entries ≡ [] }
    ensures { Shows shown_hydro_tables result (hydro_tables_at (view value.now)) }
{
    let tables = parts(value, none)?;
    counts(&tables)?;
    Ok(tables)
}
