// Tables of one problem: the outcome of each line.
use crate::devices::{Devices, FAULTLESS};
use crate::edits::edited;
use crate::fault::RowFault;
use crate::journals::{asked_disk, checked, parsed};
use crate::runs::{Task, fresh};
use std::alloc::{AllocError, Global};
use std::fmt::Write;
use std::thread::Threads;

/// The question of a table's lines to their problem.
#[derive(Clone, Copy)]
pub enum Question {
    /// The last line of the report of an edited problem.
    Edits,
    /// The report over devices of which a call fails.
    Devices,
    /// The last line of the check of a journal.
    Journals,
    /// All that the check of a journal writes.
    Checks,
}

/// The last line of a report, which is the status's line where the status has one and nothing was written.
fn last_line(report: &str) -> &str {
    report.lines().last().unwrap_or("")
}

/// The report of a problem's base cuts.
fn base<R: Threads + Sync>(
    rt: &R,
    alloc: Global,
    problem: &str,
    devices: Devices<'_>,
) -> Result<String, RowFault> {
    let task = Task {
        problem,
        command: "base",
        devices,
    };
    fresh(rt, alloc, task)
}

/// The last line of the report of an edited problem's base cuts.
fn edited_line<R: Threads + Sync>(
    rt: &R,
    alloc: Global,
    problem: &str,
    edits: &str,
) -> Result<String, RowFault> {
    let text = edited(alloc, problem, edits)?;
    let report = base(rt, alloc, text.as_str(), FAULTLESS)?;
    Ok(String::from_str(alloc, last_line(report.as_str()))?)
}

/// The numbers `MOST READ WRITE`: what a read takes at most, and the numbers of a read and a write that fail.
fn three(text: &str) -> Option<(usize, u64, u64)> {
    let (most, tail) = text.split_once(" ")?;
    let (read, write) = tail.split_once(" ")?;
    Some((
        most.parse::<usize>().ok()?,
        read.parse::<u64>().ok()?,
        write.parse::<u64>().ok()?,
    ))
}

/// The report of a problem's base cuts over devices of which a read and a write fail, in quotation marks.
fn interrupted<R: Threads + Sync>(
    rt: &R,
    alloc: Global,
    problem: &str,
    numbers: &str,
) -> Result<String, RowFault> {
    let (most_read, read, write) = three(numbers).ok_or(RowFault::Form)?;
    let devices = Devices {
        most_read,
        most_written: 10,
        failing_reads: &[read],
        failing_writes: &[write],
    };
    let report = base(rt, alloc, problem, devices)?;
    Ok(format!(in alloc; "{:?}", report.as_str())?)
}

/// The last line of the check of a journal, and behind further bytes whether no read of its disk was longer than 64 bytes.
fn check_line<R: Threads + Sync>(
    rt: &R,
    alloc: Global,
    problem: &str,
    question: &str,
) -> Result<String, RowFault> {
    let asked = parsed(question).ok_or(RowFault::Form)?;
    let mut disk = asked_disk(alloc, asked)?;
    let report = checked(rt, alloc, problem, asked, &mut disk)?;
    let line = last_line(report.as_str());
    if asked.further == 0 {
        return Ok(String::from_str(alloc, line)?);
    }
    Ok(format!(in alloc; "{line} short reads {}", disk.longest_read() <= 64)?)
}

/// Gives all that the check of a journal writes, in quotation marks.
fn whole_check<R: Threads + Sync>(
    rt: &R,
    alloc: Global,
    problem: &str,
    question: &str,
) -> Result<String, RowFault> {
    let asked = parsed(question).ok_or(RowFault::Form)?;
    let mut disk = asked_disk(alloc, asked)?;
    let report = checked(rt, alloc, problem, asked, &mut disk)?;
    Ok(format!(in alloc; "{:?}", report.as_str())?)
}

fn answer<R: Threads + Sync>(
    rt: &R,
    alloc: Global,
    question: Question,
    problem: &str,
    line: &str,
) -> Result<String, RowFault> {
    match question {
        Question::Edits => edited_line(rt, alloc, problem, line),
        Question::Devices => interrupted(rt, alloc, problem, line),
        Question::Journals => check_line(rt, alloc, problem, line),
        Question::Checks => whole_check(rt, alloc, problem, line),
    }
}

/// The answer, or the name of the fault that leaves none.
fn told<R: Threads + Sync>(
    rt: &R,
    alloc: Global,
    question: Question,
    problem: &str,
    line: &str,
) -> Result<String, AllocError> {
    match answer(rt, alloc, question, problem, line) {
        Ok(text) => Ok(text),
        Err(fault) => format!(in alloc; "{fault:?}"),
    }
}

/// Tells whether an answer is the expected one; otherwise both are shown.
fn is_expected(
    shown: &mut String,
    asked: &str,
    found: &str,
    expected: &str,
) -> Result<bool, AllocError> {
    if found == expected {
        return Ok(true);
    }
    write!(shown, "\n{asked} gives {found}, expected {expected}")?;
    Ok(false)
}

/// Tells whether a line `QUESTION -> ANSWER` is as expected; otherwise it is shown.
fn is_answered<R: Threads + Sync>(
    rt: &R,
    alloc: Global,
    question: Question,
    problem: &str,
    line: &str,
    shown: &mut String,
) -> Result<bool, AllocError> {
    let Some((asked, expected)) = line.rsplit_once(" -> ") else {
        return Ok(false);
    };
    let found = told(rt, alloc, question, problem, asked)?;
    is_expected(shown, asked, found.as_str(), expected)
}

/// Says how many lines `QUESTION -> ANSWER` are as expected, and shows each of the others.
pub fn compared<R: Threads + Sync>(
    rt: &R,
    alloc: Global,
    question: Question,
    problem: &str,
    table: &str,
) -> Result<String, AllocError> {
    let mut shown = String::new(alloc);
    let mut count = 0u32;
    for line in table.lines() {
        if is_answered(rt, alloc, question, problem, line, &mut shown)? {
            count = count.saturating_add(1);
        }
    }
    format!(in alloc; "{count} as expected{}\n", shown.as_str())
}
