// The stages of a description.
ghost use Rattle.std.specs.Prelude.{◌≡◌, ◌≤◌, OnOk};
ghost use Rattle.serde_json.specs.View.{view, items_view};
ghost use Rattle.hydro_read.specs.Steps.{HydroGives};
ghost use Rattle.hydro_read.specs.Stages.{inflow_count_at, hydro_stage_at, stages_at};

use crate::entries::entries;
use crate::field::{items, table};
use crate::inflows::{inflows, total};
use crate::place::HydroPlace;
use crate::plants::Stage;
use crate::refusal::{HydroFault, HydroKind, HydroPart, HydroRefusal};
use base_num::List;
use read_json::{Names, few, object_or};
use serde_json::Value;
use std::alloc::Global;

/// The most inflows of a stage.
const MOST_INFLOWS: usize = 100;

// Refuses no inflow, and more than 100: Limit.
#[tactic(auto, unfolding(crate::specs::Stages::inflow_count_at))]
fn counted(count: usize, place: HydroPlace) -> Result<(), HydroRefusal>
    ensures value { result ≡ inflow_count_at place count }
    ensures few { OnOk result (count ≤ 100) }
{
    if 0 < count && count <= MOST_INFLOWS {
        return Ok(());
    }
    Err(HydroKind::Limit.at(place))
}

#[tactic(auto, unfolding(crate::specs::Stages::hydro_stage_at, crate::specs::Fields::hydro_object_at), using(read_json::proofs::InOrder::counts))]
fn stage(
    alloc: Global,
    buses: &Names,
    reservoirs: &Names,
    found: &mut List<Stage>,
    t: u32,
    value: &Value,
) -> Result<(), HydroFault>
    ensures { HydroGives (λ _. found.new) result
        (hydro_stage_at buses.now reservoirs.now found.old t (view value.now)) }
{
    let place = HydroPlace::new(HydroPart::Stage, t, 0);
    object_or(value, HydroKind::Shape.at(place))?;
    let demands = table(value.get("demand"), place)?;
    let items = items(value.get("inflows"), place)?;
    counted(items.len(), place)?;
    let demand = entries(alloc, 0, buses, demands, place)?;
    let inflows = inflows(alloc, reservoirs, t, items)?;
    total(inflows.as_slice(), place)?;
    found.push(Stage { demand, inflows })?;
    Ok(())
}

/// The stages, where `buses` and `reservoirs` are the names of all buses and of all reservoirs.
pub(crate) fn stages(
    alloc: Global,
    buses: &Names,
    reservoirs: &Names,
    items: &[Value],
) -> Result<List<Stage>, HydroFault>
    ensures { HydroGives (λ l. l) result
        (stages_at buses.now reservoirs.now (items_view items.now)) }
{
    few(items.len())?;
    let mut found = List::new(alloc);
    for (t, value) in items.iter().enumerate() {
        stage(alloc, buses, reservoirs, &mut found, t as u32, value)?;
    }
    Ok(found)
}
