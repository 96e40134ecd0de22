// The variables that the states use.
ghost use Rattle.std.specs.Prelude.{◌≡◌, ◌≤◌, ◌^◌};
ghost use Rattle.serde_json.specs.Events.{members_len};
ghost use Rattle.serde_json.specs.View.{view, members_view};
ghost use Rattle.read_json.specs.Steps.{Gives};
ghost use Rattle.read_stage.specs.States.{are_keys, uses_of_state_at, each_state_at, uses_of_states_at};

use crate::role::{Role, Uses, take};
use problem::{Part, Place, RefusalKind, State};
use read_json::{Names, ReadRefusal, count, few, known, present, string};
use serde_json::{Map, Value};

fn are_states(states: &[State], members: &Map<String, Value>) -> bool
    ensures { result ≡ are_keys states.now (members_view members.now.entries) }
{
    let mut left = states;
    for (name, _) in members.iter() {
        let Some((state, more)) = left.split_first() else {
            return false;
        };
        if name.as_str() != state.name.as_str() {
            return false;
        }
        left = more;
    }
    left.is_empty()
}

#[tactic(auto, unfolding(crate::specs::States::uses_of_state_at))]
fn state(
    names: &Names,
    p: u32,
    found: &mut Uses,
    s: u32,
    name: &str,
    value: &Value,
) -> Result<(), ReadRefusal>
    ensures { Gives (λ _. found.new) result (uses_of_state_at names.now p found.old s name.now (view value.now)) }
{
    let place = Place::new(Part::State, p, s, 0);
    let first = string(present(value.get("in"), place)?, place)?;
    let second = string(present(value.get("out"), place)?, place)?;
    let incoming = known(names.position(first), place)?;
    let outgoing = known(names.position(second), place)?;
    take(&mut found.roles, incoming, Role::Incoming, place)?;
    take(&mut found.roles, outgoing, Role::Outgoing, place)?;
    found.incoming.push(incoming)?;
    found.outgoing.push(outgoing)?;
    Ok(())
}

fn each_state(
    names: &Names,
    p: u32,
    found: &mut Uses,
    members: &Map<String, Value>,
) -> Result<(), ReadRefusal>
    requires { members_len (members_view members.now.entries) ≤ 2 ^ 24 }
    ensures { Gives (λ _. found.new) result (each_state_at names.now p found.old (members_view members.now.entries)) }
{
    let mut s = 0u32;
    for (name, value) in members.iter() {
        state(names, p, found, s, name.as_str(), value)?;
        s += 1;
    }
    Ok(())
}

/// The variables of each state: the keys are the names of the states, else States.
#[tactic(auto, unfolding(crate::specs::States::uses_of_states_at))]
pub(crate) fn states(
    states: &[State],
    names: &Names,
    p: u32,
    found: &mut Uses,
    members: &Map<String, Value>,
) -> Result<(), ReadRefusal>
    ensures { Gives (λ _. found.new) result
        (uses_of_states_at states.now names.now p found.old (members_view members.now.entries)) }
{
    if !are_states(states, members) {
        let place = Place::new(Part::Subproblem, p, 0, 0);
        return Err(ReadRefusal::Refused(RefusalKind::States.at(place)));
    }
    few(count(members))?;
    each_state(names, p, found, members)
}
