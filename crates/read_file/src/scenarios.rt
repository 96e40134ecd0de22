// The stored scenarios: paths through the graph with the values of their random variables.
ghost use Rattle.std.specs.Prelude.{◌≡◌, ◌≤◌, ◌-◌, ◌^◌, length, slice_get};
ghost use Rattle.serde_json.specs.View.{view, items_view};
ghost use Rattle.read_json.specs.Steps.{Gives, Shows};
ghost use Rattle.problem.specs.Parts.{subproblem_at};
ghost use Rattle.read_file.specs.Values.{randoms_in};
ghost use Rattle.read_file.specs.Scenarios.{successors_after, follows_at, scenario_step_at, path_at, scenario_steps_at, some_at, scenario_at, scenarios_at};

use crate::successors::known;
use crate::values::{randoms, values};
use base_num::{List, Name};
use problem::{Moment, Part, Place, ProblemParts, Refusal, RefusalKind};
use read_json::{Names, ReadRefusal, array, few, members, object, present, string};
use serde_json::{Map, Value};
use std::alloc::Global;

// The nodes that a path may go on to: the root's successors at first, then those of its last node.
fn successors_after<'r>(parts: &'r ProblemParts, path: &[Moment]) -> &'r [u32]
    ensures { result.now ≡ successors_after parts.now (slice_get path.now (length path.now - 1)) }
{
    match path.last() {
        Some(last) => match parts.nodes.as_slice().get(last.node as usize) {
            Some(node) => node.successors.as_slice(),
            None => &[],
        },
        None => parts.root.as_slice(),
    }
}

#[tactic(auto, unfolding(crate::specs::Scenarios::follows_at))]
fn follows(parts: &ProblemParts, path: &[Moment], node: u32, place: Place) -> Result<(), Refusal>
    ensures { result ≡ follows_at place parts.now path.now node }
{
    if successors_after(parts, path).contains(&node) {
        Ok(())
    } else {
        Err(RefusalKind::Scenario.at(place))
    }
}

fn node_randoms(parts: &ProblemParts, node: u32) -> &[Name]
    ensures { result.now ≡ randoms_in (subproblem_at parts.now node) }
{
    match parts.nodes.as_slice().get(node as usize) {
        Some(node) => randoms(parts.subs.as_slice(), node.sub),
        None => &[],
    }
}

// The number of a scenario, and that of a step of it.
#[derive(Clone, Copy)]
struct StepNumber {
    k: u32,
    t: u32,
}

#[tactic(auto, unfolding(crate::specs::Scenarios::scenario_step_at))]
fn read_step(
    alloc: Global,
    names: &Names,
    parts: &ProblemParts,
    path: &mut List<Moment>,
    number: StepNumber,
    value: &Value,
) -> Result<(), ReadRefusal>
    requires { length names.now ≤ 2 ^ 32 }
    ensures { Gives (λ _. path.new) result
        (scenario_step_at names.now parts.now number.k path.old number.t (view value.now)) }
{
    let StepNumber { k, t } = number;
    let place = Place::new(Part::Step, k, t, 0);
    let none = Map::new(alloc);
    object(value, place)?;
    let name = string(present(value.get("node"), place)?, place)?;
    let support = members(value.get("support"), &none, place)?;
    let node = known(names, name, place)?;
    follows(parts, path.as_slice(), node, place)?;
    let values = values(alloc, Part::Step, k, t, node_randoms(parts, node), support)?;
    path.push(Moment { node, values })?;
    Ok(())
}

fn read_path(
    alloc: Global,
    names: &Names,
    parts: &ProblemParts,
    k: u32,
    items: &[Value],
) -> Result<List<Moment>, ReadRefusal>
    requires { length names.now ≤ 2 ^ 32 }
    ensures { Gives (λ l. l) result (path_at names.now parts.now k (items_view items.now)) }
{
    few(items.len())?;
    let mut path = List::new(alloc);
    for (t, value) in items.iter().enumerate() {
        let number = StepNumber { k, t: t as u32 };
        read_step(alloc, names, parts, &mut path, number, value)?;
    }
    Ok(path)
}

#[tactic(auto, unfolding(crate::specs::Scenarios::scenario_steps_at))]
fn steps(value: &Value, place: Place) -> Result<&[Value], Refusal>
    ensures { Shows (λ items. items_view items.now) result (scenario_steps_at place (view value.now)) }
{
    match value {
        Value::Array(items) => Ok(items.as_slice()),
        Value::Object(_) => array(present(value.get("scenario"), place)?, place),
        _ => Err(RefusalKind::Shape.at(place)),
    }
}

#[tactic(auto, unfolding(crate::specs::Scenarios::some_at), using(read_json::proofs::InOrder::counts))]
fn some(items: &[Value], place: Place) -> Result<&[Value], Refusal>
    ensures { Shows (λ items. items_view items.now) result (some_at place (items_view items.now)) }
{
    if items.is_empty() {
        Err(RefusalKind::Scenario.at(place))
    } else {
        Ok(items)
    }
}

#[tactic(auto, unfolding(crate::specs::Scenarios::scenario_at))]
fn scenario(
    alloc: Global,
    names: &Names,
    parts: &ProblemParts,
    found: &mut List<List<Moment>>,
    k: u32,
    value: &Value,
) -> Result<(), ReadRefusal>
    requires { length names.now ≤ 2 ^ 32 }
    ensures { Gives (λ _. found.new) result
        (scenario_at names.now parts.now found.old k (view value.now)) }
{
    let place = Place::new(Part::Scenario, k, 0, 0);
    let steps = some(steps(value, place)?, place)?;
    let path = read_path(alloc, names, parts, k, steps)?;
    found.push(path)?;
    Ok(())
}

/// The stored scenarios of a problem whose other parts are there: each a path of known nodes that
/// begins at a successor of the root, where each node leads to the next, with the values of the
/// random variables at each.
pub(crate) fn scenarios(
    alloc: Global,
    names: &Names,
    parts: &ProblemParts,
    items: &[Value],
) -> Result<List<List<Moment>>, ReadRefusal>
    requires { length names.now ≤ 2 ^ 32 }
    ensures { Gives (λ l. l) result (scenarios_at names.now parts.now (items_view items.now)) }
{
    few(items.len())?;
    let mut found = List::new(alloc);
    for (k, value) in items.iter().enumerate() {
        scenario(alloc, names, parts, &mut found, k as u32, value)?;
    }
    Ok(found)
}
