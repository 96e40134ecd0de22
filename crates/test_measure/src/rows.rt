// One row.
use crate::fault::RowFault;
use crate::payload::decoded;
use crate::stage_parts::measured;
use crate::training::trained;
use problem::Problem;
use read_file::read_problem;
use std::alloc::Global;
use std::fs;
use std::rt::Files;
use std::thread::Threads;

/// A line of the index.
#[derive(Clone, Copy)]
struct Row<'a> {
    kind: &'a str,
    problem: &'a str,
    words: &'a str,
}

/// KIND NAME PROBLEM, and further words.
fn parsed(line: &str) -> Option<Row<'_>> {
    let (kind, tail) = line.split_once(" ")?;
    let (_name, tail) = tail.split_once(" ")?;
    let (problem, words) = tail.split_once(" ")?;
    Some(Row {
        kind,
        problem,
        words,
    })
}

/// Gives the answer to a row of a kind on its problem: iterations of training, parts of a stage problem, or a large payload.
fn answer<R: Threads + Sync>(
    rt: &R,
    alloc: Global,
    problem: &Problem,
    kind: &str,
    words: &str,
) -> Result<String, RowFault> {
    match kind {
        "measure" => trained(rt, alloc, problem, words),
        "stage" => measured(alloc, problem, words),
        "payload" => decoded(alloc, problem, words),
        _ => Err(RowFault::Form),
    }
}

/// Gives the answer of a row on its problem's text.
fn of_text<R: Threads + Sync>(
    rt: &R,
    alloc: Global,
    row: Row<'_>,
    text: &str,
) -> Result<String, RowFault> {
    let problem = read_problem(alloc, text.as_bytes())?;
    answer(rt, alloc, &problem, row.kind, row.words)
}

/// Gives the answer to the row of a line: whole lines.
pub fn outcome<R: Threads + Sync + Files + AllocGlobal>(
    rt: &R,
    alloc: Global,
    line: &str,
) -> Result<String, RowFault> {
    let row = parsed(line).ok_or(RowFault::Form)?;
    let text = fs::read_to_string(rt, row.problem)?;
    of_text(rt, alloc, row, text.as_str())
}
