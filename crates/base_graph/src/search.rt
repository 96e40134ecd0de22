// A search through a graph: each node that the starts reach, once.
ghost use Rattle.std.specs.Prelude.{◌≡◌, ◌<◌, true, [], length, get_or, map, IfOk};
ghost use Rattle.base_graph.specs.Paths.{numbers, arcs_from, are_known, is_graph, reached};
ghost use Rattle.base_graph.specs.Search.{come, come_all, marks_of};

use base_num::{List, Memory};
use std::alloc::Global;
use std::marker::Model;

// The nodes that a search has come to, in the order in which it came to them.
#[derive(Drop)]
struct Search {
    found: List<u32>,
    marks: List<bool>,
}

impl Model for Search {
    ghost use Rattle.std.specs.Prelude.{◌≡◌, length};
    ghost use Rattle.base_graph.specs.Search.{Progress, marks_of};

    ghost Value = { Progress };

    ghost view = { λ s. record { count = length s.marks; found = s.found } };

    ghost invariant = { λ s. s.marks ≡ marks_of (length s.marks) s.found };
}

impl Search {
    // A search that has come to no node yet.
    #[tactic(auto, using(crate::proofs::Marks::marks_none))]
    fn new(alloc: Global, count: usize) -> Result<Search, Memory>
        ensures { IfOk result (λ s. s ≡ record { count = count; found = [] }) }
    {
        Ok(Search {
            found: List::new(alloc),
            marks: List::from_vec(vec![in alloc; false; count]?),
        })
    }

    // Comes to a node, unless it has before.
    #[tactic(auto, using(crate::proofs::Marks::coming))]
    fn come(&mut self, node: u32) -> Result<(), Memory>
        requires { node < self.old.count }
        ensures count { self.new.count ≡ self.old.count }
        ensures found { IfOk result (λ _. self.new.found ≡ come self.old.found node) }
    {
        if self.marks.as_slice()[node as usize] {
            return Ok(());
        }
        self.found.push(node)?;
        self.marks.set(node as usize, true);
        Ok(())
    }

    // Comes to each of these.
    #[tactic(auto, using(crate::proofs::Paths::known_at))]
    fn come_all(&mut self, nodes: &[u32]) -> Result<(), Memory>
        requires { are_known self.old.count nodes.now ≡ true }
        ensures count { self.new.count ≡ self.old.count }
        ensures found { IfOk result (λ _. self.new.found ≡ come_all self.old.found nodes.now) }
    {
        for node in nodes {
            self.come(*node)?;
        }
        Ok(())
    }

    // Counts the nodes that the search has come to.
    fn len(&self) -> usize
        ensures { result ≡ length self.now.found }
    {
        self.found.len()
    }

    // The node that the search came to at a place.
    fn node(&self, at: usize) -> u32
        requires { at < length self.now.found }
        ensures { result ≡ get_or self.now.found at 0 }
    {
        self.found.as_slice()[at]
    }

    // Gives for each node whether the search has come to it.
    fn into_marks(self) -> List<bool>
        ensures { result ≡ marks_of self.count self.found }
    {
        let Search { found: _, marks } = self;
        marks
    }
}

// The successors of a node.
pub(crate) fn successors(graph: &[List<u32>], node: u32) -> &[u32]
    requires { node < length graph.now }
    ensures { result.now ≡ arcs_from graph.now node }
{
    graph[node as usize].as_slice()
}

// Gives for each node whether one of the starts reaches it. The time is linear in the number of nodes and in the arcs of those
// that are reached.
pub(crate) fn marks(
    alloc: Global,
    graph: &[List<u32>],
    starts: &[u32],
) -> Result<List<bool>, Memory>
    requires known { is_graph graph.now ≡ true }
    requires starts { are_known (length graph.now) starts.now ≡ true }
    ensures { IfOk result (λ l. l ≡ map (reached graph.now starts.now) (numbers (length graph.now))) }
{
    let mut search = Search::new(alloc, graph.len())?;
    search.come_all(starts)?;
    let mut at = 0;
    while at < search.len() {
        search.come_all(successors(graph, search.node(at)))?;
        at += 1;
    }
    Ok(search.into_marks())
}
