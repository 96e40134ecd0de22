// Runs whose journal fails, and runs that resume what they leave.
use crate::devices::disk;
use crate::fault::RowFault;
use crate::runs::{Task, outcome, report};
use base_device::{Crash, MemDisk};
use std::alloc::{AllocError, Global};
use std::fmt::Write;
use std::thread::Threads;

/// More calls than a row makes.
const MOST: u64 = 10_000;

/// The harm to the calls of a journal from some number on.
#[derive(Clone, Copy)]
pub enum Harm {
    /// All fail.
    Stop,
    /// The first of them fails, and no other.
    Fault,
}

/// A task, and its outcome over a journal of which no call fails.
#[derive(Clone, Copy)]
struct Unharmed<'a> {
    task: Task<'a>,
    outcome: &'a str,
}

/// A disk of these bytes that is harmed from this call on.
pub fn harmed(alloc: Global, journal: &[u8], harm: Harm, call: u64) -> Result<MemDisk, RowFault> {
    match harm {
        Harm::Stop => {
            let mut disk = disk(alloc, journal, &[])?;
            disk.stop_after(call);
            Ok(disk)
        }
        Harm::Fault => disk(alloc, journal, &[call]),
    }
}

/// Tells whether what a crash leaves can be checked.
fn is_checked<R: Threads + Sync>(
    rt: &R,
    alloc: Global,
    task: Task<'_>,
    harmed: &MemDisk,
    how: Crash,
) -> Result<bool, RowFault> {
    let look = Task {
        command: "check J",
        ..task
    };
    let mut left = harmed.crash(alloc, how)?;
    let seen = report(rt, alloc, look, &mut left)?;
    Ok(seen.starts_with("hydroplan 1\n"))
}

/// Tells whether the task run on what a crash leaves gives what it gives unharmed.
fn is_resumed<R: Threads + Sync>(
    rt: &R,
    alloc: Global,
    unharmed: Unharmed<'_>,
    harmed: &MemDisk,
    how: Crash,
) -> Result<bool, RowFault> {
    let mut left = harmed.crash(alloc, how)?;
    let again = outcome(rt, alloc, unharmed.task, &mut left)?;
    Ok(again.as_str() == unharmed.outcome)
}

/// Tells whether both hold after each kind of crash.
fn are_resumed<R: Threads + Sync>(
    rt: &R,
    alloc: Global,
    unharmed: Unharmed<'_>,
    harmed: &MemDisk,
) -> Result<bool, RowFault> {
    for how in [Crash::Kept, Crash::Lost, Crash::Torn] {
        if !is_checked(rt, alloc, unharmed.task, harmed, how)? {
            return Ok(false);
        }
        if !is_resumed(rt, alloc, unharmed, harmed, how)? {
            return Ok(false);
        }
    }
    Ok(true)
}

/// Tells whether a run ends as the failure of its journal with nothing written, or, where it made no call that fails, as an
/// unharmed one.
fn is_told(found: &str, failed: bool, unharmed: &str) -> bool {
    if failed {
        found.starts_with("hydroplan: journal device failed\njournal ")
    } else {
        found == unharmed
    }
}

/// Goes through the run that is harmed from a call on, and shows it where it did not end as told, or was not resumed. Whether
/// it made a call that fails.
fn fails<R: Threads + Sync>(
    rt: &R,
    alloc: Global,
    unharmed: Unharmed<'_>,
    disk: &mut MemDisk,
    call: u64,
    shown: &mut String,
) -> Result<bool, RowFault> {
    let found = outcome(rt, alloc, unharmed.task, disk)?;
    let failed = disk.calls() > call;
    let told = is_told(found.as_str(), failed, unharmed.outcome);
    if !told || !are_resumed(rt, alloc, unharmed, disk)? {
        write!(shown, "not resumed after call {call}: {found}")?;
    }
    Ok(failed)
}

/// Gives the lines that were shown, or a line `resumed after each call` where there were none.
fn summary(alloc: Global, shown: String) -> Result<String, AllocError> {
    if shown.is_empty() {
        return String::from_str(alloc, "resumed after each call\n");
    }
    Ok(shown)
}

/// Goes through the runs that are harmed from call 0 on, from call 1 on, and so forth, to the first that makes no call that
/// fails. Says so where each ended as the failure of its journal, and what each kind of crash left then could be checked and
/// resumed to the unharmed outcome; otherwise at which calls not.
pub fn resumed<R: Threads + Sync>(
    rt: &R,
    alloc: Global,
    task: Task<'_>,
    journal: &[u8],
    harm: Harm,
    unharmed: &str,
) -> Result<String, RowFault> {
    let unharmed = Unharmed {
        task,
        outcome: unharmed,
    };
    let mut shown = String::new(alloc);
    for call in 0..MOST {
        let mut disk = harmed(alloc, journal, harm, call)?;
        if !fails(rt, alloc, unharmed, &mut disk, call, &mut shown)? {
            return Ok(summary(alloc, shown)?);
        }
    }
    Err(RowFault::Form)
}
