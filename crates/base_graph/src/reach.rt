// Who reaches whom.
ghost use Rattle.std.specs.Prelude.{◌≡◌, ◌≤◌, true, ◌<◌, length, IfOk};
ghost use Rattle.base_graph.specs.Paths.{are_known, is_graph, in_cycle, first_in_cycle, first_unreached};

use crate::search::{marks, successors};
use base_num::{List, Memory};
use std::alloc::Global;

/// The least node that none of the starts reaches, and None where each is reached. `graph` has for each node the
/// numbers of its successors. [`Memory`] where memory was refused.
#[tactic(auto, using(crate::proofs::Least::tables, crate::proofs::Least::least), unfolding(crate::specs::Paths::first_unreached))]
pub fn first_unreached(
    alloc: Global,
    graph: &[List<u32>],
    starts: &[u32],
) -> Result<Option<u32>, Memory>
    requires known { is_graph graph.now ≡ true }
    requires starts { are_known (length graph.now) starts.now ≡ true }
    requires count { length graph.now ≤ 1000 }
    ensures { IfOk result (λ o. o ≡ first_unreached graph.now starts.now) }
{
    let marks = marks(alloc, graph, starts)?;
    for (node, marked) in marks.as_slice().iter().enumerate() {
        if !*marked {
            return Ok(Some(node as u32));
        }
    }
    Ok(None)
}

// Tells whether a path of at least one step leads from a node to itself.
#[tactic(auto, using(crate::proofs::Least::tables))]
fn reaches_itself(alloc: Global, graph: &[List<u32>], node: u32) -> Result<bool, Memory>
    requires known { is_graph graph.now ≡ true }
    requires node { node < length graph.now }
    ensures { IfOk result (λ b. b ≡ in_cycle graph.now node) }
{
    let marks = marks(alloc, graph, successors(graph, node))?;
    Ok(marks.as_slice()[node as usize])
}

// The least node that can reach itself.
#[tactic(auto, using(crate::proofs::Least::least), unfolding(crate::specs::Paths::first_in_cycle))]
pub(crate) fn least_in_cycle(alloc: Global, graph: &[List<u32>]) -> Result<Option<u32>, Memory>
    requires known { is_graph graph.now ≡ true }
    requires count { length graph.now ≤ 1000 }
    ensures { IfOk result (λ o. o ≡ first_in_cycle graph.now) }
{
    for node in 0..graph.len() as u32 {
        if reaches_itself(alloc, graph, node)? {
            return Ok(Some(node));
        }
    }
    Ok(None)
}
