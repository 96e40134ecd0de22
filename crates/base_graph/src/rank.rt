// The ranks of the nodes of a graph, their order by rank, and their predecessors.
ghost use Rattle.std.specs.Prelude.{◌≡◌, ◌≤◌, ◌<◌, true, length, IfOk, Err, nat_lt, suc, get_or, replicate};
ghost use Rattle.std.specs.List.{list_all};
ghost use Rattle.base_graph.specs.Paths.{is_graph};
ghost use Rattle.base_graph.specs.DepthFirst.{HasCycle};
ghost use Rattle.base_graph.specs.Ranks.{longest_from, RanksTo};
ghost use Rattle.base_graph.specs.declared.depth_first.Mark.TheVariants.{Unseen};
ghost use Rattle.base_graph.specs.declared.rank.RankFault.TheVariants as faults;

use crate::depth_first::{Mark, rank_all, ranks_of, unseen};
use crate::reach::least_in_cycle;
use base_num::{List, Memory};
use std::alloc::Global;

/// Why a graph has no ranks.
#[derive(Clone, Copy, Debug, PartialEq, Eq)]
pub enum RankFault {
    /// The least node that can reach itself.
    Cycle { node: u32 },
    /// Memory was refused.
    Memory,
}

impl From<Memory> for RankFault {
    ghost from_gives = { λ _ e. e ≡ faults.Memory };

    fn from(_: Memory) -> Self {
        RankFault::Memory
    }
}

// The least node of a graph with a cycle, or that memory was refused.
fn cycle_in(alloc: Global, graph: &[List<u32>]) -> RankFault
    requires known { is_graph graph.now ≡ true }
    requires count { length graph.now ≤ 1000 }
    requires cycle { HasCycle graph.now }
    ensures { RanksTo graph.now (Err result) }
{
    match least_in_cycle(alloc, graph) {
        Ok(Some(node)) => RankFault::Cycle { node },
        Ok(None) => unreachable!(),
        Err(_) => RankFault::Memory,
    }
}

// The ranks, with a table of marks to find them in; no node is seen yet.
fn ranks_in(alloc: Global, graph: &[List<u32>], marks: &mut [Mark]) -> Result<List<u32>, RankFault>
    requires known { is_graph graph.now ≡ true }
    requires count { length graph.now ≤ 1000 }
    requires fresh { marks.old ≡ replicate (length graph.now) Unseen }
    ensures value { RanksTo graph.now result }
    ensures below { IfOk result (λ rs. list_all (λ r. nat_lt r (length graph.now)) rs ≡ true) }
{
    match rank_all(graph, marks) {
        Some(()) => Ok(ranks_of(alloc, marks)?),
        None => Err(cycle_in(alloc, graph)),
    }
}

/// Gives one rank per node: the number of steps of the longest path from there. `graph` has for each node the numbers of its
/// successors. A depth-first search (Tarjan 1972) sees each arc once. Cycle exactly where a node can reach itself, with the
/// least such node; Memory where memory was refused.
pub fn ranks(alloc: Global, graph: &[List<u32>]) -> Result<List<u32>, RankFault>
    requires known { is_graph graph.now ≡ true }
    requires count { length graph.now ≤ 1000 }
    ensures value { RanksTo graph.now result }
    ensures below { IfOk result (λ rs. list_all (λ r. nat_lt r (length graph.now)) rs ≡ true) }
{
    let mut marks = unseen(alloc, graph.len())?;
    ranks_in(alloc, graph, marks.as_mut_slice())
}

// The number of nodes on the longest path from a node.
fn nodes_from(ranks: &[u32], node: u32) -> u32
    requires below { list_all (λ r. nat_lt r (length ranks.now)) ranks.now ≡ true }
    requires count { length ranks.now ≤ 1000 }
    ensures { result ≡ suc (get_or ranks.now node 0) }
{
    ranks.get(node as usize).copied().unwrap_or(0) + 1
}

/// The number of nodes on the longest path from one of the starts; 0 without starts. `ranks` has one rank per node;
/// a start that is no node counts as one of rank 0.
pub fn longest_from(ranks: &[u32], starts: &[u32]) -> u32
    requires below { list_all (λ r. nat_lt r (length ranks.now)) ranks.now ≡ true }
    requires count { length ranks.now ≤ 1000 }
    ensures { result ≡ longest_from ranks.now starts.now }
{
    let mut most = 0u32;
    for start in starts {
        most = most.max(nodes_from(ranks, *start));
    }
    most
}
