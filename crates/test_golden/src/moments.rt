// The bytes of a journal while a run goes on.
use crate::fault::RowFault;
use crate::harm::{Harm, harmed};
use crate::runs::{Task, report};
use std::alloc::{AllocError, Global};
use std::fmt::Write;
use std::thread::Threads;

/// More calls than a row makes.
const MOST: u64 = 10_000;

/// Adds bytes as a line, where the last line is another.
fn push_change(alloc: Global, shown: &mut String, bytes: &[u8]) -> Result<(), AllocError> {
    let digits = hex::encode(alloc, bytes)?;
    if shown.lines().last() != Some(digits.as_str()) {
        writeln!(shown, "{digits}")?;
    }
    Ok(())
}

/// Adds what the journal reads after so many calls of a run. Whether the run made more.
fn goes_on<R: Threads + Sync>(
    rt: &R,
    alloc: Global,
    task: Task<'_>,
    journal: &[u8],
    call: u64,
    shown: &mut String,
) -> Result<bool, RowFault> {
    let mut disk = harmed(alloc, journal, Harm::Stop, call)?;
    let _ = report(rt, alloc, task, &mut disk)?;
    push_change(alloc, shown, disk.bytes())?;
    Ok(disk.calls() > call)
}

/// Shows the bytes of the journal at first, and after each call that changes them.
pub fn moments<R: Threads + Sync>(
    rt: &R,
    alloc: Global,
    task: Task<'_>,
    journal: &[u8],
) -> Result<String, RowFault> {
    let mut shown = String::new(alloc);
    for call in 0..MOST {
        if !goes_on(rt, alloc, task, journal, call, &mut shown)? {
            return Ok(shown);
        }
    }
    Err(RowFault::Form)
}
