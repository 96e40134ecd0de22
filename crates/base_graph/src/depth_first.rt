// Ranks by depth-first search: each node gets its rank once those that it leads to have theirs.
ghost use Rattle.std.specs.Prelude.{◌≡◌, ◌≤◌, ◌<◌, ◌∷◌, [], true, length, map, replicate, IfOk, MatchOption};
ghost use Rattle.base_graph.specs.Paths.{are_known, is_graph};
ghost use Rattle.base_graph.specs.DepthFirst.{mark_at, rank_of, AreRanks, LeadTo, GoesOn, HasCycle, RankAbove, AllRanked};
ghost use Rattle.base_graph.specs.declared.depth_first.Mark.TheVariants.{Unseen, Ranked};

use crate::search::successors;
use base_num::{List, Memory};
use std::alloc::Global;

// The mark of a node: it is not seen yet, the search is below it, or it has its rank.
#[derive(Clone, Copy)]
pub(crate) enum Mark {
    Unseen,
    Open,
    Ranked { rank: u32 },
}

// The rank of a node, which the search finds out if it is not known yet; None where a node reaches itself.
#[cycle(search)]
fn visit(graph: &[List<u32>], marks: &mut [Mark], node: u32) -> Option<u32>
    requires known { is_graph graph.now ≡ true }
    requires count { length graph.now ≤ 1000 }
    requires whole { length marks.old ≡ length graph.now }
    requires inside { node < length graph.now }
    requires right { AreRanks graph.now marks.old }
    requires lead { LeadTo graph.now marks.old (node ∷ []) }
    ensures { MatchOption result (HasCycle graph.now) (λ rank. GoesOn graph.now marks.old marks.new × (mark_at marks.new node ≡ Ranked rank)) }
{
    match marks[node as usize] {
        Mark::Unseen => {
            marks[node as usize] = Mark::Open;
            let rank = rank_above(graph, marks, successors(graph, node))?;
            marks[node as usize] = Mark::Ranked { rank };
            Some(rank)
        }
        Mark::Open => None,
        Mark::Ranked { rank } => Some(rank),
    }
}

// Gives one more than the greatest rank of these nodes, 0 without nodes; None where a node reaches itself.
#[cycle(search)]
fn rank_above(graph: &[List<u32>], marks: &mut [Mark], nodes: &[u32]) -> Option<u32>
    requires known { is_graph graph.now ≡ true }
    requires count { length graph.now ≤ 1000 }
    requires whole { length marks.old ≡ length graph.now }
    requires inside { are_known (length graph.now) nodes.now ≡ true }
    requires right { AreRanks graph.now marks.old }
    requires lead { LeadTo graph.now marks.old nodes.now }
    ensures { MatchOption result (HasCycle graph.now) (λ rank. GoesOn graph.now marks.old marks.new × RankAbove marks.new nodes.now rank) }
{
    let mut most = 0u32;
    for node in nodes {
        most = most.max(visit(graph, marks, *node)? + 1);
    }
    Some(most)
}

/// Makes so many marks of nodes not seen yet. [`Memory`] where memory was refused.
pub(crate) fn unseen(alloc: Global, count: usize) -> Result<Vec<Mark>, Memory>
    ensures { IfOk result (λ marks. marks.items ≡ replicate count Unseen) }
{
    Ok(vec![in alloc; Mark::Unseen; count]?)
}

/// Finds the rank of each node, where none is seen yet; None where a node reaches itself.
pub(crate) fn rank_all(graph: &[List<u32>], marks: &mut [Mark]) -> Option<()>
    requires known { is_graph graph.now ≡ true }
    requires count { length graph.now ≤ 1000 }
    requires fresh { marks.old ≡ replicate (length graph.now) Unseen }
    ensures { MatchOption result (HasCycle graph.now) (λ _. AllRanked graph.now marks.new) }
{
    for node in 0..graph.len() as u32 {
        let _rank = visit(graph, marks, node)?;
    }
    Some(())
}

// The rank that a mark holds, 0 where it holds none.
fn rank_of(mark: Mark) -> u32
    ensures { result ≡ rank_of mark }
{
    match mark {
        Mark::Unseen | Mark::Open => 0,
        Mark::Ranked { rank } => rank,
    }
}

/// The ranks that the marks hold. [`Memory`] where memory was refused.
pub(crate) fn ranks_of(alloc: Global, marks: &[Mark]) -> Result<List<u32>, Memory>
    ensures { IfOk result (λ ranks. ranks ≡ map rank_of marks.now) }
{
    let mut ranks = List::new(alloc);
    for mark in marks {
        ranks.push(rank_of(*mark))?;
    }
    Ok(ranks)
}
