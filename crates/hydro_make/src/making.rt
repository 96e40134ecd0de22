// The text of the problem that is made of hydro plants.
ghost use Rattle.std.specs.Prelude.{◌≡◌, map, IfOk, OnOk};
ghost use Rattle.serde_json.specs.Data.{no_members, put};
ghost use Rattle.serde_json.specs.View.{view, members_view};
ghost use Rattle.hydro_form.specs.Listed.{put_by, integer};
ghost use Rattle.hydro_read.specs.Described.{IsPlants};
ghost use Rattle.hydro_read.specs.Steps.{HydroGives};
ghost use Rattle.hydro_make.specs.Layout.{store_initial};
ghost use Rattle.hydro_make.specs.Columns.{state_name};
ghost use Rattle.hydro_make.specs.Text.{hydro_initial_values, hydro_root, hydro_data, hydro_text, hydro_at};
ghost use Rattle.hydro_make.specs.Seen.{seen_store};

use crate::bounds::store_initial;
use crate::columns::{Store, stores};
use crate::names::state_name;
use crate::nodes::{nodes, successor_to};
use crate::stage::subproblem;
use hydro_form::put_whole;
use hydro_read::{HydroFault, Plants, read_plants};
use serde_json::{Map, Value};
use std::alloc::{AllocError, Global};

fn put_initial(
    alloc: Global,
    plants: &Plants,
    store: Store,
    map: &mut Map<String, Value>,
) -> Result<(), AllocError>
    ensures { OnOk result (members_view map.new.entries ≡ put (state_name plants.now (seen_store store))
        (integer (store_initial plants.now (seen_store store))) (members_view map.old.entries)) }
{
    let name = state_name(alloc, plants, store)?;
    put_whole(alloc, map, name.as_str(), store_initial(plants, store))
}

fn put_all_initial(
    alloc: Global,
    plants: &Plants,
    stores: &[Store],
) -> Result<Map<String, Value>, AllocError>
    ensures { IfOk result (λ m. members_view m.entries
        ≡ put_by (state_name plants.now) (λ s. integer (store_initial plants.now s)) (map seen_store stores.now) no_members) }
{
    let mut map = Map::new(alloc);
    for store in stores {
        put_initial(alloc, plants, *store, &mut map)?;
    }
    Ok(map)
}

#[tactic(auto, unfolding(crate::specs::Text::hydro_initial_values))]
fn initial_values(alloc: Global, plants: &Plants) -> Result<Map<String, Value>, AllocError>
    requires { IsPlants plants.now }
    ensures { IfOk result (λ m. members_view m.entries ≡ hydro_initial_values plants.now) }
{
    let stores = stores(alloc, plants)?;
    let map = put_all_initial(alloc, plants, stores.as_slice())?;
    Ok(map)
}

#[tactic(auto, unfolding(crate::specs::Text::hydro_root))]
fn root(alloc: Global, plants: &Plants) -> Result<Value, AllocError>
    requires { IsPlants plants.now }
    ensures { IfOk result (λ v. view v ≡ hydro_root plants.now) }
{
    let initial = initial_values(alloc, plants)?;
    let first = successor_to(alloc, plants, 0)?;
    hydro_form::root(alloc, initial, first)
}

#[tactic(auto, unfolding(crate::specs::Text::hydro_data))]
fn problem(alloc: Global, plants: &Plants) -> Result<Value, AllocError>
    requires { IsPlants plants.now }
    ensures { IfOk result (λ v. view v ≡ hydro_data plants.now) }
{
    let nodes = nodes(alloc, plants)?;
    let root = root(alloc, plants)?;
    let stage = subproblem(alloc, plants)?;
    hydro_form::problem(alloc, nodes, root, stage)
}

fn text(alloc: Global, plants: &Plants) -> Result<Vec<u8>, AllocError>
    requires { IsPlants plants.now }
    ensures { IfOk result (λ text. text.items ≡ hydro_text plants.now) }
{
    let value = problem(alloc, plants)?;
    let mut text = value.to_vec(alloc)?;
    text.push(b'\n')?;
    Ok(text)
}

/// Makes the problem that a description of hydro plants means, as a problem file: compact JSON with its keys in byte order, and
/// a newline.
///
/// Each stage is a node, and the next one's predecessor. A state is the volume of a reservoir, or the water from it that is
/// one, two or three stages away. The decisions are the water through each turbine and past it, the energy of each thermal and
/// on each line, and the deficit at each bus, which costs. The rows keep the water of each reservoir, bring water under way
/// nearer, and serve each bus.
///
/// The first refusal of the description, exactly as [`read_plants`] gives it; Memory where memory was refused.
#[tactic(auto, unfolding(crate::specs::Text::hydro_at))]
pub fn make(alloc: Global, bytes: &[u8]) -> Result<Vec<u8>, HydroFault>
    ensures { HydroGives (λ text. text.items) result (hydro_at bytes.now) }
{
    let plants = read_plants(alloc, bytes)?;
    let text = text(alloc, &plants)?;
    Ok(text)
}
