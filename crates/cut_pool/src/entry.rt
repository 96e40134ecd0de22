// The certificates that one iteration of training adds along one path.
use base_num::List;
use theory::Certificate;

/// The certificates of one cut, which one node of a path adds.
#[derive(Drop)]
pub struct EntryStep {
    /// The number of the node.
    pub node: u32,
    /// One certificate per realization of the node.
    pub list: List<Certificate>,
}

/// The steps that one path of an iteration adds: one step per node of the path, from its last node back to its first.
#[derive(Drop)]
pub struct Entry {
    /// The number of the iteration, from 1.
    pub iteration: u32,
    /// The number of solves of the path, forward and backward, that gave an answer that was of no use.
    pub unanswered: u32,
    /// One step per node of the path, the last node first.
    pub steps: List<EntryStep>,
}
