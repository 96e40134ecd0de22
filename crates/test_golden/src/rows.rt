// One row.
use crate::chain::solved;
use crate::devices::FAULTLESS;
use crate::fault::RowFault;
use crate::harm::{Harm, resumed};
use crate::moments::moments;
use crate::parts::parts;
use crate::runs::{Task, fresh, safe, with_solver};
use crate::solvers::{Named, by_name};
use crate::tables::{Question, compared};
use std::alloc::Global;
use std::fs;
use std::rt::Files;
use std::thread::Threads;

/// The text of one run, or of one after another.
#[derive(Clone, Copy)]
enum Run {
    /// The report.
    Report,
    /// The status over objects of which no call fails.
    Safe,
    /// The report with another solver, and the journal.
    Solver(Named),
}

/// The course of runs over a journal.
#[derive(Clone, Copy)]
enum Course {
    /// Runs are harmed and resumed.
    Harmed(Harm),
    /// All that the journal reads is shown.
    Moments,
}

/// The kind of a row over a problem, for which something is expected.
#[derive(Clone, Copy)]
enum Commands {
    /// Its text is shown.
    Shown(Run),
    /// Its text is compared.
    Compared(Run),
    /// The lines of a table are compared.
    Table(Question),
    /// Something is done over a journal of the row's own.
    Journal(Course),
}

/// The kind of a row.
#[derive(Clone, Copy)]
enum Kind {
    /// The linear programs of a chain are solved.
    Programs,
    /// The parts of a problem are shown.
    Parts,
    /// A command, or many, is run over a problem.
    Command(Commands),
}

/// A line of the index.
#[derive(Clone, Copy)]
struct Row<'a> {
    kind: Kind,
    name: &'a str,
    file: &'a str,
    words: &'a str,
}

/// The kind of a row of commands. A word that is none of the others is the name of a solver.
fn command_by(word: &str) -> Option<Commands> {
    match word {
        "print" => Some(Commands::Shown(Run::Report)),
        "safe" => Some(Commands::Compared(Run::Safe)),
        "edits" => Some(Commands::Table(Question::Edits)),
        "devices" => Some(Commands::Table(Question::Devices)),
        "journals" => Some(Commands::Table(Question::Journals)),
        "checks" => Some(Commands::Table(Question::Checks)),
        "stops" => Some(Commands::Journal(Course::Harmed(Harm::Stop))),
        "faults" => Some(Commands::Journal(Course::Harmed(Harm::Fault))),
        "moments" => Some(Commands::Journal(Course::Moments)),
        _ => Some(Commands::Compared(Run::Solver(by_name(word)?))),
    }
}

fn kind_of(word: &str) -> Option<Kind> {
    match word {
        "solve" => Some(Kind::Programs),
        "parts" => Some(Kind::Parts),
        _ => Some(Kind::Command(command_by(word)?)),
    }
}

/// KIND NAME FILE, and further words.
fn parsed(line: &str) -> Option<Row<'_>> {
    let (first, tail) = line.split_once(" ")?;
    let (name, tail) = tail.split_once(" ")?;
    let (file, words) = tail.split_once(" ").unwrap_or((tail, ""));
    let kind = kind_of(first)?;
    Some(Row {
        kind,
        name,
        file,
        words,
    })
}

/// Says that a text is as expected, or shows both.
fn verdict(alloc: Global, found: &str, expected: &str) -> Result<String, RowFault> {
    if found == expected {
        return Ok(String::from_str(alloc, "as expected\n")?);
    }
    Ok(format!(in alloc; "gives\n{found}expected\n{expected}")?)
}

/// The text of a run.
fn text_of<R: Threads + Sync>(
    rt: &R,
    alloc: Global,
    kind: Run,
    task: Task<'_>,
) -> Result<String, RowFault> {
    match kind {
        Run::Report => fresh(rt, alloc, task),
        Run::Safe => safe(rt, alloc, task),
        Run::Solver(solver) => with_solver(rt, alloc, task, solver),
    }
}

/// Takes a course over a journal with these bytes.
fn over<R: Threads + Sync>(
    rt: &R,
    alloc: Global,
    course: Course,
    task: Task<'_>,
    journal: &[u8],
    expected: &str,
) -> Result<String, RowFault> {
    match course {
        Course::Harmed(harm) => resumed(rt, alloc, task, journal, harm, expected),
        Course::Moments => {
            let found = moments(rt, alloc, task, journal)?;
            verdict(alloc, found.as_str(), expected)
        }
    }
}

/// The text of a run, compared.
fn classified<R: Threads + Sync>(
    rt: &R,
    alloc: Global,
    kind: Run,
    task: Task<'_>,
    expected: &str,
) -> Result<String, RowFault> {
    let found = text_of(rt, alloc, kind, task)?;
    verdict(alloc, found.as_str(), expected)
}

/// The task of a command line over a problem.
fn task<'a>(problem: &'a str, command: &'a str) -> Task<'a> {
    Task {
        problem,
        command,
        devices: FAULTLESS,
    }
}

/// Takes a course over the journal of the file that the first of the words names, by the command that they go on with.
fn over_file<R: Threads + Sync + Files + AllocGlobal>(
    rt: &R,
    alloc: Global,
    course: Course,
    problem: &str,
    words: &str,
    expected: &str,
) -> Result<String, RowFault> {
    let (file, command) = words.split_once(" ").ok_or(RowFault::Form)?;
    let digits = fs::read_to_string(rt, file)?;
    let journal = hex::decode(alloc, digits.trim_end()).map_err(|_| RowFault::Form)?;
    over(
        rt,
        alloc,
        course,
        task(problem, command),
        journal.as_slice(),
        expected,
    )
}

/// Reads the text that is expected of a row.
fn expected<R: Files + AllocGlobal>(rt: &R, alloc: Global, name: &str) -> Result<String, RowFault> {
    let path = format!(in alloc; "{name}.txt")?;
    Ok(fs::read_to_string(rt, path.as_str())?)
}

/// Gives the answer of commands over a problem, given the expected text.
fn answer<R: Threads + Sync + Files + AllocGlobal>(
    rt: &R,
    alloc: Global,
    kind: Commands,
    problem: &str,
    words: &str,
    expected: &str,
) -> Result<String, RowFault> {
    let task = task(problem, words);
    match kind {
        Commands::Shown(kind) => text_of(rt, alloc, kind, task),
        Commands::Compared(kind) => classified(rt, alloc, kind, task, expected),
        Commands::Table(question) => Ok(compared(rt, alloc, question, problem, expected)?),
        Commands::Journal(course) => over_file(rt, alloc, course, problem, words, expected),
    }
}

/// Tells whether what commands over a problem give is as expected in the file of this name.
fn command_outcome<R: Threads + Sync + Files + AllocGlobal>(
    rt: &R,
    alloc: Global,
    kind: Commands,
    row: Row<'_>,
    problem: &str,
) -> Result<String, RowFault> {
    let expected = expected(rt, alloc, row.name)?;
    answer(rt, alloc, kind, problem, row.words, expected.as_str())
}

/// Gives the answer of a row on its file's text.
fn of_text<R: Threads + Sync + Files + AllocGlobal>(
    rt: &R,
    alloc: Global,
    row: Row<'_>,
    text: &str,
) -> Result<String, RowFault> {
    match row.kind {
        Kind::Programs => solved(alloc, text),
        Kind::Parts => parts(alloc, text),
        Kind::Command(kind) => command_outcome(rt, alloc, kind, row, text),
    }
}

/// Gives the answer to the row of a line: whole lines.
pub fn outcome<R: Threads + Sync + Files + AllocGlobal>(
    rt: &R,
    alloc: Global,
    line: &str,
) -> Result<String, RowFault> {
    let row = parsed(line).ok_or(RowFault::Form)?;
    let text = fs::read_to_string(rt, row.file)?;
    of_text(rt, alloc, row, text.as_str())
}
