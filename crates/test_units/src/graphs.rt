// Who is reached in small graphs, cycles and ranks.
ghost use Rattle.std.specs.Prelude.{◌≡◌};
ghost use Rattle.base_graph.specs.Paths.{are_known, is_graph};

use base_graph::{RankFault, first_unreached, ranks};
use base_num::{List, Memory};
use std::alloc::Global;
use std::test::Fail;

fn are_known(count: usize, nodes: &[u32]) -> bool
    ensures { result ≡ are_known count nodes.now }
{
    nodes.iter().all(|node| (*node as usize) < count)
}

fn is_graph(graph: &[List<u32>]) -> bool
    ensures { result ≡ is_graph graph.now }
{
    graph
        .iter()
        .all(|successors| are_known(graph.len(), successors.as_slice()))
}

fn copy_of(alloc: Global, nodes: &[u32]) -> Result<List<u32>, Memory> {
    let mut copy = List::new(alloc);
    for node in nodes {
        copy.push(*node)?;
    }
    Ok(copy)
}

fn graph_of(alloc: Global, lists: &[&[u32]]) -> Result<List<List<u32>>, Memory> {
    let mut graph = List::new(alloc);
    for successors in lists {
        graph.push(copy_of(alloc, successors)?)?;
    }
    Ok(graph)
}

// The first node that the starts do not reach, where this is a graph of at most 1000 nodes.
fn unreached(
    alloc: Global,
    lists: &[&[u32]],
    starts: &[u32],
) -> Result<Option<Option<u32>>, Memory> {
    let graph = graph_of(alloc, lists)?;
    let graph = graph.as_slice();
    if graph.len() <= 1000 && is_graph(graph) && are_known(graph.len(), starts) {
        return Ok(Some(first_unreached(alloc, graph, starts)?));
    }
    Ok(None)
}

// Graphs with starts, and the first node that is not reached.
const REACHED: [(&[&[u32]], &[u32], Option<Option<u32>>); 9] = [
    (&[&[1], &[0], &[]], &[0], Some(Some(2))),
    (&[&[1], &[2], &[]], &[0], Some(None)),
    (&[&[1], &[2], &[1]], &[0], Some(None)),
    (&[&[], &[], &[2]], &[0, 1], Some(Some(2))),
    (&[&[2], &[2], &[]], &[0], Some(Some(1))),
    (&[&[2, 1, 1], &[2, 2], &[]], &[0], Some(None)),
    (&[&[1], &[2], &[]], &[2, 1], Some(Some(0))),
    (&[&[], &[], &[]], &[], Some(Some(0))),
    (&[&[], &[3], &[]], &[0], None),
];

#[test]
fn finds_who_is_not_reached(rt: HostRuntime) -> Result<(), Fail> {
    for (lists, starts, expected) in &REACHED {
        assert_eq!(rt; unreached(rt.alloc(), lists, starts)?, *expected);
    }
    Ok(())
}

// The node of a cycle, or else the ranks, of a graph of at most 1000 nodes.
fn ranked(alloc: Global, lists: &[&[u32]]) -> Result<(Option<u32>, List<u32>), Memory> {
    let graph = graph_of(alloc, lists)?;
    let graph = graph.as_slice();
    if graph.len() > 1000 || !is_graph(graph) {
        return Ok((None, List::new(alloc)));
    }
    match ranks(alloc, graph) {
        Ok(ranks) => Ok((None, ranks)),
        Err(RankFault::Cycle { node }) => Ok((Some(node), List::new(alloc))),
        Err(RankFault::Memory) => Err(Memory),
    }
}

// Graphs, the node of a cycle, or else the ranks.
const RANKED: [(&[&[u32]], Option<u32>, &[u32]); 13] = [
    (&[&[1], &[2], &[]], None, &[2, 1, 0]),
    (&[&[], &[0], &[1, 0]], None, &[0, 1, 2]),
    (&[&[2, 1], &[2], &[]], None, &[2, 1, 0]),
    (&[&[1, 2, 1], &[], &[]], None, &[1, 0, 0]),
    (&[&[], &[], &[]], None, &[0, 0, 0]),
    (&[&[2], &[2], &[]], None, &[1, 1, 0]),
    (&[&[2, 1, 1], &[2, 2], &[]], None, &[2, 1, 0]),
    (&[&[1], &[0], &[]], Some(0), &[]),
    (&[&[1], &[2], &[1]], Some(1), &[]),
    (&[&[2], &[], &[2]], Some(2), &[]),
    (&[&[2, 1], &[2], &[0]], Some(0), &[]),
    (&[&[], &[1], &[2]], Some(1), &[]),
    (&[&[], &[], &[2]], Some(2), &[]),
];

#[test]
fn ranks_small_graphs(rt: HostRuntime) -> Result<(), Fail> {
    for (lists, cycle, expected) in &RANKED {
        let (met, ranks) = ranked(rt.alloc(), lists)?;
        assert_eq!(rt; met, *cycle);
        assert_eq!(rt; ranks.as_slice(), *expected);
    }
    Ok(())
}
