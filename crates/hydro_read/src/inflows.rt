// The inflows of a stage.
ghost use Rattle.std.specs.Prelude.{◌≡◌, ◌≤◌, ◌<◌, length};
ghost use Rattle.serde_json.specs.View.{view, items_view};
ghost use Rattle.hydro_read.specs.Steps.{HydroGives};
ghost use Rattle.hydro_read.specs.Stages.{inflow_at, inflows_at, total_at};

use crate::entries::entries;
use crate::field::{GREATEST, natural, table};
use crate::place::HydroPlace;
use crate::plants::Inflow;
use crate::refusal::{HydroFault, HydroKind, HydroPart, HydroRefusal};
use base_num::List;
use read_json::{Names, object_or};
use serde_json::Value;
use std::alloc::Global;

/// The greatest weight.
const GREATEST_WEIGHT: u32 = 1_048_576;
/// The greatest total of the weights of a stage.
const GREATEST_TOTAL_WEIGHT: u32 = 65_535;

#[tactic(auto, unfolding(crate::specs::Stages::inflow_at, crate::specs::Fields::hydro_object_at))]
fn inflow(
    alloc: Global,
    reservoirs: &Names,
    t: u32,
    found: &mut List<Inflow>,
    k: u32,
    value: &Value,
) -> Result<(), HydroFault>
    requires { k < 100 }
    ensures { HydroGives (λ _. found.new) result
        (inflow_at reservoirs.now t found.old k (view value.now)) }
{
    let place = HydroPlace::new(HydroPart::Stage, t, k + 1);
    object_or(value, HydroKind::Shape.at(place))?;
    let weight = natural(value.get("weight"), 1, GREATEST_WEIGHT, place)?;
    let inflow = table(value.get("inflow"), place)?;
    let water = entries(alloc, -GREATEST, reservoirs, inflow, place)?;
    found.push(Inflow { weight, water })?;
    Ok(())
}

/// The inflows of stage t, in the order of the description.
pub(crate) fn inflows(
    alloc: Global,
    reservoirs: &Names,
    t: u32,
    items: &[Value],
) -> Result<List<Inflow>, HydroFault>
    requires { length items.now ≤ 100 }
    ensures { HydroGives (λ l. l) result (inflows_at reservoirs.now t (items_view items.now)) }
{
    let mut found = List::new(alloc);
    for (k, value) in items.iter().enumerate() {
        inflow(alloc, reservoirs, t, &mut found, k as u32, value)?;
    }
    Ok(found)
}

/// Refuses weights that add up to more than 65,535: Limit.
#[tactic(auto, unfolding(crate::specs::Stages::total_at, crate::specs::Stages::total_inflow_weight))]
pub(crate) fn total(inflows: &[Inflow], place: HydroPlace) -> Result<(), HydroRefusal>
    ensures { result ≡ total_at place inflows.now }
{
    let mut left = GREATEST_TOTAL_WEIGHT;
    for inflow in inflows {
        let Some(tail) = left.checked_sub(inflow.weight) else {
            return Err(HydroKind::Limit.at(place));
        };
        left = tail;
    }
    Ok(())
}
