// The outcome of loading a journal.
use base_num::List;
use cut_pool::Pools;

/// A loaded journal: the cuts of its records, the bounds, and where it ends.
#[derive(Drop)]
pub struct Loaded {
    /// The base cuts, and the cuts of all records.
    pub pools: Pools,
    /// The bound after each record, at scale 2^24.
    pub bounds: List<i128>,
    /// The number of solves with an answer that was of no use, as the records state it.
    pub unanswered: u64,
    /// Whether the file is a journal already.
    pub committed: bool,
    /// The place of the commit byte of 0 behind the last record, 0 where the journal is not committed.
    pub end: u64,
    /// The number of bytes behind that commit byte, 0 where the journal is not committed.
    pub tail: u64,
    /// 1, or 2 of a journal that states its batch; of one that is not committed the version that it is begun with.
    pub version: u16,
    /// The number of paths of an iteration, 1 to 64.
    pub batch: u16,
}
