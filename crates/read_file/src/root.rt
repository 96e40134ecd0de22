// The root: the states with their initial values, and the nodes that the horizon may begin with.
ghost use Rattle.std.specs.Prelude.{◌≡◌, ◌≤◌, ◌^◌, length, OnOk};
ghost use Rattle.serde_json.specs.Events.{members_len};
ghost use Rattle.serde_json.specs.View.{view, members_view};
ghost use Rattle.read_json.specs.Steps.{Gives};
ghost use Rattle.read_file.specs.Root.{initial_at, state_at, states_at, counts_at, root_at};

use crate::successors::read_successors;
use crate::weights::weights;
use base_num::List;
use problem::{MOST_STATES, Part, Place, Refusal, RefusalKind, State};
use read_json::{Names, ReadRefusal, count, key, member, members, object, present, whole};
use serde_json::{Map, Value};
use std::alloc::Global;

/// The root of a problem: its states, and the nodes that may come first.
#[derive(Drop)]
pub(crate) struct Root {
    pub(crate) states: List<State>,
    /// The numbers of the nodes that may come first.
    pub(crate) nodes: List<u32>,
    /// One weight per such node, each at least 1.
    pub(crate) weights: List<u32>,
}

#[tactic(auto, unfolding(crate::specs::Root::initial_at))]
fn initial(value: &Value, place: Place) -> Result<i64, Refusal>
    ensures { result ≡ initial_at place (view value.now) }
{
    match value {
        Value::Object(_) => {
            let inner = present(value.get("initial_value"), place)?;
            whole(inner, place)
        }
        _ => whole(value, place),
    }
}

#[tactic(auto, unfolding(crate::specs::Root::state_at))]
fn state(
    alloc: Global,
    found: &mut List<State>,
    s: u32,
    name: &str,
    value: &Value,
) -> Result<(), ReadRefusal>
    ensures { Gives (λ _. found.new) result (state_at found.old s name.now (view value.now)) }
{
    let place = Place::new(Part::Root, 1, s, 0);
    let name = key(alloc, name, place)?;
    let initial = initial(value, place)?;
    found.push(State { name, initial })?;
    Ok(())
}

fn states(alloc: Global, members: &Map<String, Value>) -> Result<List<State>, ReadRefusal>
    requires { members_len (members_view members.now.entries) ≤ 50 }
    ensures { Gives (λ l. l) result (states_at (members_view members.now.entries)) }
{
    let mut found = List::new(alloc);
    let mut s = 0u32;
    for (name, value) in members.iter() {
        state(alloc, &mut found, s, name.as_str(), value)?;
        s += 1;
    }
    Ok(found)
}

#[tactic(auto, unfolding(crate::specs::Root::counts_at))]
fn counts(states: usize, successors: usize, place: Place) -> Result<(), Refusal>
    ensures value { result ≡ counts_at place states successors }
    ensures few { OnOk result (states ≤ 50) }
{
    if successors == 0 {
        return Err(RefusalKind::Shape.at(place));
    }
    if states > MOST_STATES {
        return Err(RefusalKind::TooLarge.at(place));
    }
    Ok(())
}

/// The root: its states, then its successors, which are known nodes.
#[tactic(auto, unfolding(crate::specs::Root::root_at))]
pub(crate) fn read_root(
    alloc: Global,
    names: &Names,
    table: &Map<String, Value>,
) -> Result<Root, ReadRefusal>
    requires { length names.now ≤ 2 ^ 32 }
    ensures { Gives (λ s. s) result (root_at names.now (members_view table.now.entries)) }
{
    let place = Place::new(Part::Root, 0, 0, 0);
    let none = Map::new(alloc);
    let all_states = members(member(table, "state_variables"), &none, place)?;
    let all_successors = object(present(member(table, "successors"), place)?, place)?;
    counts(count(all_states), count(all_successors), place)?;
    let states = states(alloc, all_states)?;
    let successors = read_successors(alloc, names, Part::Root, 2, all_successors)?;
    let weights = weights(alloc, 0, successors.weights.as_slice(), place)?;
    Ok(Root {
        states,
        nodes: successors.nodes,
        weights,
    })
}
