// Where the cuts of a round's parts stand, once they are joined.
use crate::ending::{Ending, RecordAt};
use base_num::{List, Memory, copied};
use std::alloc::Global;

/// Where the cuts of a round's parts stand, once they are joined.
#[derive(Drop)]
pub(crate) struct Places {
    /// How many cuts each node had when the round began: these stand at the same places in all parts.
    shared: List<u32>,
    /// How many cuts each node has by now.
    joined: List<u32>,
    /// For each part, and there for each node, where the cuts stand that the part made of it, in the order in which they were made.
    moved: Vec<Vec<u32>>,
}

/// Where the cuts of one node stand that a part knows of.
#[derive(Clone, Copy)]
pub(crate) struct NodePlaces<'a> {
    shared: u32,
    moved: &'a [u32],
}

impl<'a> NodePlaces<'a> {
    /// Where the cut stands that has a place in the part; none where the part has no such cut.
    pub(crate) fn now(&self, place: u32) -> Option<u32> {
        if place < self.shared {
            return Some(place);
        }
        self.moved.get((place - self.shared) as usize).copied()
    }
}

// Makes so many empty lists.
fn empty_lists(alloc: Global, count: usize) -> Result<Vec<Vec<u32>>, Memory> {
    let mut lists = Vec::new(alloc);
    for _ in 0..count {
        lists.push(Vec::new(alloc))?;
    }
    Ok(lists)
}

impl Places {
    /// The places at the beginning of a round of so many parts, where the nodes have so many cuts. [`Memory`] where memory was
    /// refused.
    pub(crate) fn new(alloc: Global, counts: List<u32>, parts: u16) -> Result<Places, Memory> {
        let joined = copied(alloc, counts.as_slice())?;
        let moved = empty_lists(alloc, counts.len().saturating_mul(usize::from(parts)))?;
        Ok(Places {
            shared: counts,
            joined,
            moved,
        })
    }

    // Gives the number of the list of a part and a node.
    fn slot(&self, part: u16, node: u32) -> Option<usize> {
        usize::from(part)
            .checked_mul(self.shared.len())?
            .checked_add(node as usize)
    }

    /// Where the cuts of a node stand that a part knows of.
    pub(crate) fn of(&self, part: u16, node: u32) -> Option<NodePlaces<'_>> {
        let slot = self.slot(part, node)?;
        let shared = self.shared.as_slice().get(node as usize)?;
        let moved = self.moved.as_slice().get(slot)?;
        Some(NodePlaces {
            shared: *shared,
            moved: moved.as_slice(),
        })
    }

    // Takes the next place of a node.
    fn next(&mut self, node: u32) -> Option<u32> {
        let at = node as usize;
        if at >= self.joined.len() {
            return None;
        }
        let place = self.joined.as_slice()[at];
        self.joined.set(at, place.saturating_add(1));
        Some(place)
    }

    // Puts a place behind those of a list.
    fn keep(&mut self, slot: usize, place: u32) -> Result<(), Memory> {
        if slot < self.moved.len() {
            self.moved[slot].push(place)?;
        }
        Ok(())
    }

    /// The next cut of the joined pools at a node is that of a part.
    pub(crate) fn count(&mut self, part: u16, node: u32, at: RecordAt) -> Result<(), Ending> {
        let (Some(slot), Some(place)) = (self.slot(part, node), self.next(node)) else {
            return Err(Ending::RecordRefused(at));
        };
        self.keep(slot, place)?;
        Ok(())
    }
}
