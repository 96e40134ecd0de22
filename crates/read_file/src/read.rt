// The parts of a problem from the bytes of its file.
ghost use Rattle.std.specs.Prelude.{◌≡◌, ◌≤◌, ◌^◌, true, length, IfOk};
ghost use Rattle.serde_json.specs.Events.{members_len};
ghost use Rattle.serde_json.specs.View.{members_view};
ghost use Rattle.problem.specs.Limits.{parts_are_lawful};
ghost use Rattle.read_json.specs.Steps.{Gives};
ghost use Rattle.read_file.specs.Read.{graph_at, problem_parts_of};
ghost use Rattle.read_file.specs.Shown.{shown_tables};

use crate::nodes::nodes;
use crate::root::read_root;
use crate::scenarios::scenarios;
use crate::subproblems::subproblems;
use crate::tables::{Tables, tables_of};
use base_num::List;
use problem::ProblemParts;
use read_json::{Names, ReadRefusal, json, keys};
use std::alloc::Global;

// A problem without its scenarios, where `names` are those of the nodes.
#[tactic(auto, unfolding(crate::specs::Read::graph_at))]
fn graph(alloc: Global, names: &Names, tables: &Tables) -> Result<ProblemParts, ReadRefusal>
    requires few_nodes { length names.now ≤ 2 ^ 32 }
    requires few_subproblems { members_len (members_view tables.now.subproblems.now.entries) ≤ 2 ^ 32 }
    ensures { Gives (λ r. r) result (graph_at names.now (shown_tables tables.now)) }
{
    let start = read_root(alloc, names, tables.root)?;
    let subproblems = subproblems(alloc, start.states.as_slice(), tables.subproblems)?;
    let nodes = nodes(alloc, names, &subproblems, tables.nodes)?;
    Ok(ProblemParts {
        states: start.states,
        root: start.nodes,
        root_weights: start.weights,
        nodes,
        subs: subproblems.subs,
        scenarios: List::new(alloc),
    })
}

/// Reads the parts of a problem from the bytes of its file, or the first refusal. The parts keep the limits.
#[tactic(auto, unfolding(crate::specs::Read::problem_parts_of), using(read_json::proofs::InOrder::counts))]
pub fn read_problem_parts(alloc: Global, bytes: &[u8]) -> Result<ProblemParts, ReadRefusal>
    ensures value { Gives (λ r. r) result (problem_parts_of bytes.now) }
    ensures fits { IfOk result (λ parts. parts_are_lawful parts ≡ true) }
{
    let value = json(alloc, bytes)?;
    let tables = tables_of(&value)?;
    let names = keys(alloc, tables.nodes)?;
    let graph = graph(alloc, &names, &tables)?;
    let scenarios = scenarios(alloc, &names, &graph, tables.scenarios)?;
    Ok(ProblemParts { scenarios, ..graph })
}
