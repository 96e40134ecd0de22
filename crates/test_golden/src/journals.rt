// The output of the check of a journal.
use crate::devices::{Devices, disk};
use crate::fault::RowFault;
use crate::runs::{Task, report};
use base_device::MemDisk;
use std::alloc::Global;
use std::thread::Threads;

/// A journal that is checked.
#[derive(Clone, Copy)]
pub struct Asked<'a> {
    /// The number of the disk's call that fails, where it is one.
    disk: &'a str,
    /// The number of the sink's call that fails, where it is one.
    sink: &'a str,
    /// The number of further bytes behind it.
    pub further: usize,
    /// The bytes in hexadecimal digits.
    digits: &'a str,
}

/// The journal of a question `DISK SINK MORE HEX`.
pub fn parsed(question: &str) -> Option<Asked<'_>> {
    let (disk, tail) = question.split_once(" ")?;
    let (sink, tail) = tail.split_once(" ")?;
    let (further, digits) = tail.split_once(" ")?;
    Some(Asked {
        disk,
        sink,
        further: further.parse::<usize>().ok()?,
        digits,
    })
}

/// The one number that a word spells, or none.
fn calls(alloc: Global, word: &str) -> Result<Vec<u64>, RowFault> {
    let mut failing = Vec::new(alloc);
    if let Ok(call) = word.parse::<u64>() {
        failing.push(call)?;
    }
    Ok(failing)
}

fn bytes(alloc: Global, asked: Asked<'_>) -> Result<Vec<u8>, RowFault> {
    let mut bytes = hex::decode(alloc, asked.digits).map_err(|_| RowFault::Form)?;
    for _ in 0..asked.further {
        bytes.push(0)?;
    }
    Ok(bytes)
}

/// The disk of a journal that is checked.
pub fn asked_disk(alloc: Global, asked: Asked<'_>) -> Result<MemDisk, RowFault> {
    let bytes = bytes(alloc, asked)?;
    let failing = calls(alloc, asked.disk)?;
    disk(alloc, bytes.as_slice(), failing.as_slice())
}

/// Gives the output of the check of a journal over its disk, with a sink that takes 10 bytes a call.
pub fn checked<R: Threads + Sync>(
    rt: &R,
    alloc: Global,
    problem: &str,
    asked: Asked<'_>,
    journal: &mut MemDisk,
) -> Result<String, RowFault> {
    let failing = calls(alloc, asked.sink)?;
    let devices = Devices {
        most_read: usize::MAX,
        most_written: 10,
        failing_reads: &[],
        failing_writes: failing.as_slice(),
    };
    let task = Task {
        problem,
        command: "check J",
        devices,
    };
    report(rt, alloc, task, journal)
}
