// Objects in memory whose calls fail as a row says.
use crate::fault::RowFault;
use base_device::{MemDisk, MemSink, MemSource};
use std::alloc::Global;

/// The space for the bytes that are written to a sink.
const OUTPUT: usize = 1 << 20;

/// The space for the bytes that are written to a journal.
const ROOM: usize = 1 << 12;

/// The number of writes, cuts and syncs that a journal takes.
const CHANGES: usize = 1 << 10;

/// The behaviour of a source and a sink: the most bytes that a call takes, and the calls that fail.
#[derive(Clone, Copy)]
pub struct Devices<'a> {
    pub most_read: usize,
    pub most_written: usize,
    pub failing_reads: &'a [u64],
    pub failing_writes: &'a [u64],
}

/// Devices that take all at once and never fail.
pub const FAULTLESS: Devices<'static> = Devices {
    most_read: usize::MAX,
    most_written: usize::MAX,
    failing_reads: &[],
    failing_writes: &[],
};

/// A source of a problem's text.
pub fn source(alloc: Global, devices: Devices<'_>, problem: &str) -> Result<MemSource, RowFault> {
    let failing = devices.failing_reads.to_vec(alloc)?;
    let mut source = MemSource::new(problem.as_bytes().to_vec(alloc)?, failing);
    source.chunk(devices.most_read.max(1));
    Ok(source)
}

/// An empty sink.
pub fn sink(alloc: Global, devices: Devices<'_>) -> Result<MemSink, RowFault> {
    let failing = devices.failing_writes.to_vec(alloc)?;
    let mut sink = MemSink::new(alloc, failing, OUTPUT)?;
    sink.chunk(devices.most_written.max(1));
    Ok(sink)
}

/// A journal of these bytes, of whose calls those of these numbers fail.
pub fn disk(alloc: Global, journal: &[u8], failing: &[u64]) -> Result<MemDisk, RowFault> {
    let bytes = journal.to_vec(alloc)?;
    let failing = failing.to_vec(alloc)?;
    Ok(MemDisk::new(alloc, bytes, failing, ROOM, CHANGES)?)
}
