// The nodes and the file as a whole.
ghost use Rattle.std.specs.Prelude.{◌≡◌, map, IfOk};
ghost use Rattle.serde_json.specs.View.{view, members_view};
ghost use Rattle.hydro_form.specs.Nodes.{realization_form, node_form, root_of, version, problem_form};

use serde_json::{Map, Value, json};
use std::alloc::{AllocError, Global};

/// A realization of some weight. [`AllocError`] where memory was refused, as of all functions here.
#[tactic(auto, unfolding(crate::specs::Nodes::realization_form))]
pub fn realization(
    alloc: Global,
    weight: u32,
    support: Map<String, Value>,
) -> Result<Value, AllocError>
    ensures { IfOk result (λ v. view v ≡ realization_form weight (members_view support.entries)) }
{
    let support = Value::Object(support);
    json!(in alloc; {"probability": weight, "support": support})
}

/// A node with the subproblem `p`.
#[tactic(auto, unfolding(crate::specs::Nodes::node_form))]
pub fn node(
    alloc: Global,
    realizations: Vec<Value>,
    successors: Map<String, Value>,
) -> Result<Value, AllocError>
    ensures { IfOk result (λ v. view v
        ≡ node_form (map view realizations.items) (members_view successors.entries)) }
{
    let successors = Value::Object(successors);
    json!(in alloc; {
        "subproblem": "p", "realizations": realizations, "successors": successors
    })
}

/// The root: the states before the first node, and the nodes that may be first.
#[tactic(auto, unfolding(crate::specs::Nodes::root_of))]
pub fn root(
    alloc: Global,
    initial: Map<String, Value>,
    successors: Map<String, Value>,
) -> Result<Value, AllocError>
    ensures { IfOk result (λ v. view v
        ≡ root_of (members_view initial.entries) (members_view successors.entries)) }
{
    let initial = Value::Object(initial);
    let successors = Value::Object(successors);
    json!(in alloc; {"state_variables": initial, "successors": successors})
}

/// The version of the form of problem files.
#[tactic(auto, unfolding(crate::specs::Nodes::version))]
pub fn version(alloc: Global) -> Result<Value, AllocError>
    ensures { IfOk result (λ v. view v ≡ version) }
{
    json!(in alloc; {"major": 1u32, "minor": 0u32})
}

/// A problem file whose nodes all have the subproblem `p`.
#[tactic(auto, unfolding(crate::specs::Nodes::problem_form))]
pub fn problem(
    alloc: Global,
    nodes: Map<String, Value>,
    root: Value,
    subproblem: Value,
) -> Result<Value, AllocError>
    ensures { IfOk result (λ v. view v
        ≡ problem_form (members_view nodes.entries) (view root) (view subproblem)) }
{
    let nodes = Value::Object(nodes);
    let version = version(alloc)?;
    json!(in alloc; {
        "version": version, "root": root, "nodes": nodes, "subproblems": {"p": subproblem}
    })
}
