// The tables of a problem file.
ghost use Rattle.std.specs.Prelude.{◌≡◌, ◌≤◌, OnOk, IfOk};
ghost use Rattle.serde_json.specs.Events.{members_len};
ghost use Rattle.serde_json.specs.View.{view, members_view, items_view};
ghost use Rattle.read_json.specs.Steps.{Shows};
ghost use Rattle.read_file.specs.Tables.{table_at, sizes_at, tables_at};
ghost use Rattle.read_file.specs.Shown.{shown_tables};

use crate::version::version;
use problem::{MOST_NODES, MOST_SCENARIOS, MOST_SUBPROBLEMS, Place, Refusal, RefusalKind};
use read_json::{count, items, object, present};
use serde_json::{Map, Value};

/// The tables of a problem file, and its list of scenarios.
#[derive(Clone, Copy)]
pub(crate) struct Tables<'v> {
    pub(crate) root: &'v Map<String, Value>,
    pub(crate) nodes: &'v Map<String, Value>,
    pub(crate) subproblems: &'v Map<String, Value>,
    pub(crate) scenarios: &'v [Value],
}

#[tactic(auto, unfolding(crate::specs::Tables::table_at))]
fn table<'v>(value: &'v Value, name: &str) -> Result<&'v Map<String, Value>, Refusal>
    ensures { Shows (λ m. members_view m.now.entries) result (table_at name.now (view value.now)) }
{
    object(present(value.get(name), Place::WHOLE)?, Place::WHOLE)
}

#[tactic(auto, unfolding(crate::specs::Tables::sizes_at), using(read_json::proofs::InOrder::counts))]
fn sizes(
    nodes: &Map<String, Value>,
    subproblems: &Map<String, Value>,
    scenarios: &[Value],
) -> Result<(), Refusal>
    ensures value { result ≡ sizes_at (members_view nodes.now.entries)
        (members_view subproblems.now.entries) (items_view scenarios.now) }
    ensures few_nodes { OnOk result (members_len (members_view nodes.now.entries) ≤ 1000) }
    ensures few_subproblems { OnOk result
        (members_len (members_view subproblems.now.entries) ≤ 1000) }
{
    if count(nodes) > MOST_NODES
        || count(subproblems) > MOST_SUBPROBLEMS
        || scenarios.len() > MOST_SCENARIOS
    {
        return Err(RefusalKind::TooLarge.at(Place::WHOLE));
    }
    Ok(())
}

/// The tables of a problem file of version 1: Shape where one is absent or of the wrong type, and
/// TooLarge for more than 1,000 nodes, subproblems or stored scenarios.
#[tactic(auto, unfolding(crate::specs::Tables::tables_at))]
pub(crate) fn tables_of(value: &Value) -> Result<Tables<'_>, Refusal>
    ensures value { Shows shown_tables result (tables_at (view value.now)) }
    ensures few_nodes { IfOk result (λ f. members_len (members_view f.nodes.now.entries) ≤ 1000) }
    ensures few_subproblems { IfOk result
        (λ f. members_len (members_view f.subproblems.now.entries) ≤ 1000) }
{
    object(value, Place::WHOLE)?;
    version(value)?;
    let root = table(value, "root")?;
    let nodes = table(value, "nodes")?;
    let subproblems = table(value, "subproblems")?;
    let scenarios = items(value.get("validation_scenarios"), Place::WHOLE)?;
    sizes(nodes, subproblems, scenarios)?;
    Ok(Tables {
        root,
        nodes,
        subproblems,
        scenarios,
    })
}
