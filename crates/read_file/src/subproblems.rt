// The subproblems of a problem file.
ghost use Rattle.std.specs.Prelude.{◌≡◌, length, IfOk};
ghost use Rattle.serde_json.specs.Events.{members_len};
ghost use Rattle.serde_json.specs.View.{view, members_view};
ghost use Rattle.read_json.specs.Steps.{Gives};
ghost use Rattle.read_file.specs.Subproblems.{another_at, listed_subproblems_at, subproblems_at};

use base_num::List;
use problem::{State, Subproblem};
use read_json::{Names, ReadRefusal, count, few, keys};
use read_stage::subproblem;
use serde_json::{Map, Value};
use std::alloc::Global;

/// Subproblems with the names by which they are known, in the byte order of the names.
#[derive(Drop)]
pub(crate) struct SubproblemTable {
    pub(crate) names: Names,
    pub(crate) subs: List<Subproblem>,
}

#[tactic(auto, unfolding(crate::specs::Subproblems::another_at))]
fn another(
    alloc: Global,
    states: &[State],
    found: &mut List<Subproblem>,
    p: u32,
    name: &str,
    value: &Value,
) -> Result<(), ReadRefusal>
    ensures { Gives (λ _. found.new) result
        (another_at states.now found.old p name.now (view value.now)) }
{
    let sub = subproblem(alloc, states, p, name, value)?;
    found.push(sub)?;
    Ok(())
}

fn listed(
    alloc: Global,
    states: &[State],
    table: &Map<String, Value>,
) -> Result<List<Subproblem>, ReadRefusal>
    ensures { Gives (λ l. l) result
        (listed_subproblems_at states.now (members_view table.now.entries)) }
{
    few(count(table))?;
    let mut found = List::new(alloc);
    let mut p = 0u32;
    for (name, value) in table.iter() {
        another(alloc, states, &mut found, p, name.as_str(), value)?;
        p += 1;
    }
    Ok(found)
}

/// The subproblems with their names, in the byte order of the names.
#[tactic(auto, unfolding(crate::specs::Subproblems::subproblems_at), using(read_json::proofs::InOrder::counts))]
pub(crate) fn subproblems(
    alloc: Global,
    states: &[State],
    table: &Map<String, Value>,
) -> Result<SubproblemTable, ReadRefusal>
    ensures value { Gives (λ d. d) result
        (subproblems_at states.now (members_view table.now.entries)) }
    ensures few { IfOk result (λ d. length d.names ≡ members_len (members_view table.now.entries)) }
{
    let subs = listed(alloc, states, table)?;
    let names = keys(alloc, table)?;
    Ok(SubproblemTable { names, subs })
}
