// The program over the objects that stand for the world outside.
ghost use Rattle.std.specs.Prelude.{◌≡◌, ◌⊎◌, IfErr, IfOk};
ghost use Rattle.std.specs.Process.{exit_status};
ghost use Rattle.run_words.specs.Commands.{texts};
ghost use Rattle.run_program.specs.OwnSolver.{own_solver};
ghost use Rattle.run_program.specs.Run.{AnswersWords, CannotStart, IsRun, RunsOver, SaysLine, ShowsText, Starts, after, before, journal_of, telling};
ghost use Rattle.run_program.specs.Status.{status_number};
ghost use Rattle.run_program.specs.Words.{asked_command, journal_name, writes_journal};

use crate::help::own_text;
use crate::outside::Outside;
use crate::status::{Status, number, status_line};
use crate::top::run;
use crate::writing::{put, put_front};
use base_device::{Disk, FileDisk, Lock, Obstacle, Sink, Source, StdSink, StdSource};
use base_num::{Memory, Name};
use run_words::{read_words, trains};
use std::alloc::Global;
use std::env::{self, Env};
use std::fs::OpenOptions;
use std::io::{self, Read, Write};
use std::process::ExitCode;
use std::rt::Files;
use std::thread::Threads;

const MEMORY_LINE: &[u8] = b"hydroplan: memory\n";

// Writes the line of a status, where it has one; where the line itself finds no memory, the line of `Memory`.
#[tactic(auto, unfolding(crate::specs::Status::memory_line))]
fn write_line<E: Write>(alloc: Global, status: &Status, errors: &mut E)
    ensures { SaysLine (E.contents errors.old) (E.contents errors.new) status.now }
{
    match status_line(alloc, status) {
        Ok(line) => put_front(errors, line.as_slice()),
        Err(_) => put_front(errors, MEMORY_LINE),
    }
}

// Writes the line of a status, and gives its number as the exit status.
fn ended<E: Write>(alloc: Global, status: &Status, errors: &mut E) -> ExitCode
    ensures number { exit_status result ≡ status_number status.now }
    ensures line { SaysLine (E.contents errors.old) (E.contents errors.new) status.now }
{
    write_line(alloc, status, errors);
    ExitCode::from(number(status))
}

/// Does what the words say, as `run`, and writes the line of a status other than Done to `errors`. The exit status is the
/// number of the status with which that run ended, and `errors` took a front of its line.
pub fn execute<R: Threads + Sync, I: Source, D: Disk, O: Sink, E: Write>(
    rt: &R,
    alloc: Global,
    words: &[String],
    outside: Outside<I, D, O>,
    errors: &mut E,
) -> ExitCode
    ensures { (status : Status) × (exit_status result ≡ status_number status)
        × IsRun own_solver (asked_command words.now) (telling I.left I.faults D.store D.faults O.taken O.faults) (before outside.entry) (after outside.exit) status
        × SaysLine (E.contents errors.old) (E.contents errors.new) status }
{
    let status = run(rt, alloc, words, outside);
    ended(alloc, &status, errors)
}

// The status where the words of the command line cannot be had.
fn status_of_words(error: &io::Error) -> Status
    ensures { CannotStart result }
{
    match error.kind() {
        io::ErrorKind::OutOfMemory => Status::Memory,
        _ => Status::Usage,
    }
}

/// The words after the program's name, or the status where they cannot be had.
fn words_given<R: Env + AllocGlobal>(rt: &R) -> Result<Vec<String>, Status>
    ensures { IfErr result CannotStart }
{
    let all = match env::args(rt) {
        Ok(all) => all,
        Err(error) => return Err(status_of_words(&error)),
    };
    let mut words = Vec::new(rt.alloc());
    for word in all.skip(1) {
        if words.push(word).is_err() {
            return Err(Status::Memory);
        }
    }
    Ok(words)
}

// The name of the journal: the second word, and empty where there are fewer.
fn journal_name(alloc: Global, words: &[String]) -> Result<Name, Memory>
    ensures { IfOk result (λ name. name ≡ journal_name (texts words.now)) }
{
    match words {
        [_, name, ..] => Name::new(alloc, name.as_str()),
        _ => Name::new(alloc, ""),
    }
}

// Tells whether the journal is written.
fn writes_journal(words: &[String]) -> bool
    ensures { result ≡ writes_journal (texts words.now) }
{
    match read_words(words) {
        Some(command) => trains(command),
        None => false,
    }
}

/// The journal: the file that the second word names, opened for writing exactly where the words ask for training. [`Memory`]
/// where memory was refused.
fn journal_of<'a, R: Files>(
    rt: &'a R,
    alloc: Global,
    words: &[String],
) -> Result<FileDisk<'a, R>, Memory>
    ensures { IfOk result (λ disk. disk ≡ journal_of (texts words.now)) }
{
    let name = journal_name(alloc, words)?;
    Ok(FileDisk::at(rt, name, writes_journal(words)))
}

/// Writes a text of the program's own.
fn show<O: Sink>(out: &mut O, text: &[u8]) -> Status
    ensures { ShowsText text.now (O.taken out.old) (O.taken out.new) (O.faults out.old) (O.faults out.new) result }
{
    match put(out, text) {
        Ok(()) => Status::Done,
        Err(_) => Status::WriteFault,
    }
}

// Opens the root folder three times, so that the descriptors of standard input, output and error are open: each that was closed
// is the root folder then, which can be neither read nor written, and no file opened later is taken for it.
fn with_streams<R: Files>(rt: &R) -> io::Result<(R::File, R::File, R::File)> {
    let mut how = OpenOptions::new();
    how.read(true);
    Ok((how.open(rt, "/")?, how.open(rt, "/")?, how.open(rt, "/")?))
}

// Gives the line that says why the journal was not opened, or no longer written.
fn obstacle_line(obstacle: Obstacle) -> &'static [u8] {
    match obstacle {
        Obstacle::NoFile => b"hydroplan: the journal is no regular file\n",
        Obstacle::Folder => b"hydroplan: the journal's folder cannot be opened\n",
        Obstacle::Held => b"hydroplan: another run writes this journal\n",
        Obstacle::Changed =>
            b"hydroplan: the journal was removed or changed while it was written\n",
    }
}

// Writes why the journal was not opened or no longer written, where more is known than its status says.
fn write_obstacle<E: Write>(obstacle: Option<Obstacle>, errors: &mut E) {
    if let Some(obstacle) = obstacle {
        let _ = errors.write_all(obstacle_line(obstacle));
    }
}

// The program over the file that the second word names.
fn over_file<R, I, O, E>(
    rt: &R,
    words: &[String],
    problem: &mut StdSource<I>,
    out: &mut StdSink<O>,
    errors: &mut E,
) -> ExitCode
where
    R: Files + Threads + Sync + AllocGlobal,
    R::File: Lock,
    I: Read,
    O: Write,
    E: Write,
    ensures { (status : Status) × (exit_status result ≡ status_number status)
        × (((status ≡ Status.Memory) × (problem.new ≡ problem.old) × (out.new ≡ out.old))
        ⊎ RunsOver I.remaining O.contents words.now problem.old problem.new out.old out.new status) }
{
    match journal_of(rt, rt.alloc(), words) {
        Ok(mut journal) => {
            let outside = Outside {
                problem,
                journal: &mut journal,
                out,
            };
            let end = execute(rt, rt.alloc(), words, outside, errors);
            write_obstacle(journal.obstacle(), errors);
            end
        }
        Err(_) => ended(rt.alloc(), &Status::Memory, errors),
    }
}

// The program on these words, of which those that ask what it is are answered at once.
fn on_words<R, I, O, E>(
    rt: &R,
    words: &[String],
    problem: &mut StdSource<I>,
    out: &mut StdSink<O>,
    errors: &mut E,
) -> ExitCode
where
    R: Files + Threads + Sync + AllocGlobal,
    R::File: Lock,
    I: Read,
    O: Write,
    E: Write,
    ensures { (status : Status) × (exit_status result ≡ status_number status) × AnswersWords I.remaining O.contents words.now problem.old problem.new out.old out.new status }
{
    match own_text(words) {
        Some(text) => ended(rt.alloc(), &show(out, text), errors),
        None => over_file(rt, words, problem, out, errors),
    }
}

/// The program: the words of the command line, over these streams and the file that the second word names. The words `--help`
/// and `--version` alone are answered here, and nothing is read. A stream that was closed fails at its first call; where that
/// cannot be made sure of, the run ends as WriteFault before anything is read.
pub fn start<R, I, O, E>(rt: &R, input: I, output: O, errors: &mut E) -> ExitCode
where
    R: Env + Files + Threads + Sync + AllocGlobal,
    R::File: Lock,
    I: Read + Drop,
    O: Write + Drop,
    E: Write,
    ensures { (status : Status) × (exit_status result ≡ status_number status) × Starts I.remaining O.contents input output status }
{
    let Ok(_streams) = with_streams(rt) else {
        return ended(rt.alloc(), &Status::WriteFault, errors);
    };
    let mut problem = StdSource::new(input);
    let mut out = StdSink::new(output);
    match words_given(rt) {
        Ok(words) => on_words(rt, words.as_slice(), &mut problem, &mut out, errors),
        Err(status) => ended(rt.alloc(), &status, errors),
    }
}
