// The graph of a problem: who leads to whom, and whether an order and a length are those of its nodes.
ghost use Rattle.std.specs.Prelude.{◌≡◌, ◌&&◌, ◌==◌, ◌≤◌, true, length, map, IfOk, is_none};
ghost use Rattle.base_graph.specs.Paths.{are_known, first_in_cycle, first_unreached, is_graph};
ghost use Rattle.base_graph.specs.Ranks.{ranks, longest_from};
ghost use Rattle.problem.specs.Limits.{parts_are_lawful};
ghost use Rattle.problem.specs.Validated.{graph_fits, graph_of, is_order};

use crate::{Node, ProblemParts};
use base_graph::{RankFault, by_rank, first_unreached, longest_from, ranks};
use base_num::{List, Memory, copied};
use std::alloc::Global;

/// Gives one list per node: the numbers of its successors. Memory where memory was refused.
pub fn successors(alloc: Global, nodes: &[Node]) -> Result<List<List<u32>>, Memory>
    ensures { IfOk result (λ l. l ≡ map (λ n. n.successors) nodes.now) }
{
    let mut found = List::new(alloc);
    for node in nodes {
        let successors = copied(alloc, node.successors.as_slice())?;
        found.push(successors)?;
    }
    Ok(found)
}

// Tells whether these are the nodes by rank.
fn is_order(alloc: Global, order: &[u32], ranks: &[u32]) -> Result<bool, Memory>
    requires { length ranks.now ≤ 1000 }
    ensures { IfOk result (λ b. b ≡ is_order order.now ranks.now) }
{
    let by_rank = by_rank(alloc, ranks)?;
    Ok(order == by_rank.as_slice())
}

// An order of a graph's nodes, and a length of the longest path from some starts.
#[derive(Drop)]
struct Ranking<'a> {
    starts: &'a [u32],
    order: &'a [u32],
    longest: u32,
}

// Tells whether the starts reach each node, and the order and the length of the longest path from them are those of the ranks.
fn ranked_fits(
    alloc: Global,
    graph: &[List<u32>],
    ranks: &[u32],
    ranking: &Ranking,
) -> Result<bool, Memory>
    requires known { is_graph graph.now ≡ true }
    requires starts { are_known (length graph.now) ranking.now.starts.now ≡ true }
    requires count { length graph.now ≤ 1000 }
    requires ranked { length ranks.now ≤ 1000 }
    requires below { are_known (length ranks.now) ranks.now ≡ true }
    ensures { IfOk result (λ b. b ≡ (is_none (first_unreached graph.now ranking.now.starts.now) && is_order ranking.now.order.now ranks.now && (ranking.now.longest == longest_from ranks.now ranking.now.starts.now))) }
{
    let unreached = first_unreached(alloc, graph, ranking.starts)?;
    if unreached.is_some() || ranking.longest != longest_from(ranks, ranking.starts) {
        return Ok(false);
    }
    is_order(alloc, ranking.order, ranks)
}

// Like `ranked_fits`, with the graph's ranks; false, too, where a node reaches itself.
fn successors_in_order_fit(
    alloc: Global,
    graph: &[List<u32>],
    ranking: &Ranking,
) -> Result<bool, Memory>
    requires known { is_graph graph.now ≡ true }
    requires starts { are_known (length graph.now) ranking.now.starts.now ≡ true }
    requires count { length graph.now ≤ 1000 }
    ensures { IfOk result (λ b. b ≡ (is_none (first_in_cycle graph.now) && is_none (first_unreached graph.now ranking.now.starts.now) && is_order ranking.now.order.now (ranks graph.now) && (ranking.now.longest == longest_from (ranks graph.now) ranking.now.starts.now))) }
{
    match ranks(alloc, graph) {
        Ok(ranks) => ranked_fits(alloc, graph, ranks.as_slice(), ranking),
        Err(RankFault::Cycle { .. }) => Ok(false),
        Err(RankFault::Memory) => Err(Memory),
    }
}

/// Tells whether no node reaches itself, the root reaches each node, and the order and the length of the longest path from the
/// root are those of the nodes' ranks.
#[tactic(auto, unfolding(crate::specs::Validated::graph_fits), using(crate::proofs::ValidatedFacts::known_root))]
pub(crate) fn graph_fits(
    alloc: Global,
    parts: &ProblemParts,
    order: &[u32],
    longest: u32,
) -> Result<bool, Memory>
    requires { parts_are_lawful parts.now ≡ true }
    ensures { IfOk result (λ b. b ≡ graph_fits parts.now order.now longest) }
{
    let graph = successors(alloc, parts.nodes.as_slice())?;
    let ranking = Ranking {
        starts: parts.root.as_slice(),
        order,
        longest,
    };
    successors_in_order_fit(alloc, graph.as_slice(), &ranking)
}
