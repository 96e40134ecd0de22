// A run of a command line over objects in memory.
use crate::devices::{Devices, disk, sink, source};
use crate::fault::RowFault;
use crate::solvers::{Named, wild};
use base_device::{FaultlessDisk, FaultlessSink, FaultlessSource, MemDisk, MemSink};
use lp_program::{Kind, Liar, Meeting, Solver, Zero};
use run_program::{Outside, Status, number, run, run_safe, run_with, status_line};
use std::alloc::Global;
use std::fmt::Write;
use std::thread::Threads;

/// The most looks that each of two solves that are to meet takes for the other.
const LOOKS: u64 = 1 << 30;

/// A command line and its problem.
#[derive(Clone, Copy)]
pub struct Task<'a> {
    pub problem: &'a str,
    pub command: &'a str,
    pub devices: Devices<'a>,
}

/// The words that stand in a text.
fn words(alloc: Global, text: &str) -> Result<Vec<String>, RowFault> {
    let mut words = Vec::new(alloc);
    for word in text.split_whitespace() {
        words.push(String::from_str(alloc, word)?)?;
    }
    Ok(words)
}

/// Runs the task with the program's own solver.
fn own<R: Threads + Sync>(
    rt: &R,
    alloc: Global,
    task: Task<'_>,
    journal: &mut MemDisk,
    sink: &mut MemSink,
) -> Result<Status, RowFault> {
    let words = words(alloc, task.command)?;
    let mut source = source(alloc, task.devices, task.problem)?;
    let outside = Outside {
        problem: &mut source,
        journal,
        out: sink,
    };
    Ok(run(rt, alloc, words.as_slice(), outside))
}

/// Runs the task with another solver.
fn other<R: Threads + Sync, V: Solver>(
    rt: &R,
    alloc: Global,
    task: Task<'_>,
    solver: &V,
    journal: &mut MemDisk,
    sink: &mut MemSink,
) -> Result<Status, RowFault> {
    let words = words(alloc, task.command)?;
    let mut source = source(alloc, task.devices, task.problem)?;
    let outside = Outside {
        problem: &mut source,
        journal,
        out: sink,
    };
    Ok(run_with(rt, alloc, words.as_slice(), outside, solver))
}

fn push_bytes(text: &mut String, bytes: &[u8]) -> Result<(), RowFault> {
    let found = str::from_utf8(bytes).map_err(|_| RowFault::Form)?;
    text.push_str(found)?;
    Ok(())
}

/// Appends the line of a status, where it has one, then what was written.
fn push_written(
    alloc: Global,
    status: &Status,
    written: &[u8],
    text: &mut String,
) -> Result<(), RowFault> {
    let line = status_line(alloc, status)?;
    push_bytes(text, line.as_slice())?;
    push_bytes(text, written)
}

/// Appends the line of the task's status, where it has one, then what was written.
pub fn push_report<R: Threads + Sync>(
    rt: &R,
    alloc: Global,
    task: Task<'_>,
    journal: &mut MemDisk,
    text: &mut String,
) -> Result<(), RowFault> {
    let mut sink = sink(alloc, task.devices)?;
    let status = own(rt, alloc, task, journal, &mut sink)?;
    push_written(alloc, &status, sink.bytes(), text)
}

/// Like `push_report`, with another solver.
fn push_other<R: Threads + Sync, V: Solver>(
    rt: &R,
    alloc: Global,
    task: Task<'_>,
    solver: &V,
    journal: &mut MemDisk,
    text: &mut String,
) -> Result<(), RowFault> {
    let mut sink = sink(alloc, task.devices)?;
    let status = other(rt, alloc, task, solver, journal, &mut sink)?;
    push_written(alloc, &status, sink.bytes(), text)
}

/// Like `push_report`, with a solver of which two solves are to meet, after so many; and appends a line that says whether they
/// met.
fn push_met<R: Threads + Sync>(
    rt: &R,
    alloc: Global,
    task: Task<'_>,
    after: u64,
    journal: &mut MemDisk,
    text: &mut String,
) -> Result<(), RowFault> {
    let meeting = Meeting::new(after, LOOKS);
    push_other(rt, alloc, task, &meeting, journal, text)?;
    writeln!(text, "met {}", meeting.met())?;
    Ok(())
}

/// Like `push_report`, with wild answers of a kind.
fn push_lied<R: Threads + Sync>(
    rt: &R,
    alloc: Global,
    task: Task<'_>,
    kind: Kind,
    journal: &mut MemDisk,
    text: &mut String,
) -> Result<(), RowFault> {
    let liar = Liar::new(wild(alloc, kind)?);
    push_other(rt, alloc, task, &liar, journal, text)
}

/// Appends a line `journal` with the bytes that the journal reads.
fn push_journal(alloc: Global, journal: &MemDisk, text: &mut String) -> Result<(), RowFault> {
    let bytes = hex::encode(alloc, journal.bytes())?;
    writeln!(text, "journal {bytes}")?;
    Ok(())
}

/// The report of the task over a journal.
pub fn report<R: Threads + Sync>(
    rt: &R,
    alloc: Global,
    task: Task<'_>,
    journal: &mut MemDisk,
) -> Result<String, RowFault> {
    let mut text = String::new(alloc);
    push_report(rt, alloc, task, journal, &mut text)?;
    Ok(text)
}

/// The report of the task over an empty journal.
pub fn fresh<R: Threads + Sync>(rt: &R, alloc: Global, task: Task<'_>) -> Result<String, RowFault> {
    let mut journal = disk(alloc, &[], &[])?;
    report(rt, alloc, task, &mut journal)
}

/// The report of the task, then a line `journal` with the bytes that the journal reads afterwards.
pub fn outcome<R: Threads + Sync>(
    rt: &R,
    alloc: Global,
    task: Task<'_>,
    journal: &mut MemDisk,
) -> Result<String, RowFault> {
    let mut text = report(rt, alloc, task, journal)?;
    push_journal(alloc, journal, &mut text)?;
    Ok(text)
}

fn push_solved<R: Threads + Sync>(
    rt: &R,
    alloc: Global,
    task: Task<'_>,
    solver: Named,
    journal: &mut MemDisk,
    text: &mut String,
) -> Result<(), RowFault> {
    match solver {
        Named::Zero => push_other(rt, alloc, task, &Zero, journal, text)?,
        Named::Meeting(after) => push_met(rt, alloc, task, after, journal, text)?,
        Named::Liar(kind) => push_lied(rt, alloc, task, kind, journal, text)?,
    }
    push_journal(alloc, journal, text)
}

/// The outcome of the task with another solver, over an empty journal.
pub fn with_solver<R: Threads + Sync>(
    rt: &R,
    alloc: Global,
    task: Task<'_>,
    solver: Named,
) -> Result<String, RowFault> {
    let mut journal = disk(alloc, &[], &[])?;
    let mut text = String::new(alloc);
    push_solved(rt, alloc, task, solver, &mut journal, &mut text)?;
    Ok(text)
}

fn safe_status<R: Threads + Sync>(
    rt: &R,
    alloc: Global,
    words: &[String],
    problem: &str,
) -> Result<Status, RowFault> {
    let mut source = FaultlessSource::new(problem.as_bytes().to_vec(alloc)?);
    let mut journal = FaultlessDisk::new(alloc, &[], 0)?;
    let mut sink = FaultlessSink::new();
    let outside = Outside {
        problem: &mut source,
        journal: &mut journal,
        out: &mut sink,
    };
    Ok(run_safe(rt, alloc, words, outside))
}

/// The number of the status of the task over objects of which no call fails.
pub fn safe<R: Threads + Sync>(rt: &R, alloc: Global, task: Task<'_>) -> Result<String, RowFault> {
    let words = words(alloc, task.command)?;
    let status = safe_status(rt, alloc, words.as_slice(), task.problem)?;
    Ok(format!(in alloc; "status {}\n", number(&status))?)
}
