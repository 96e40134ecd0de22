// The top call.
ghost use Rattle.std.specs.Prelude.{◌≡◌, Some, IfSome, IsSomeAnd, false, true};
ghost use Rattle.base_device.specs.Disks.{Stays};
ghost use Rattle.run_program.specs.Causes.{Explains, ExplainsTask};
ghost use Rattle.run_program.specs.Journals.{JournalGrows, IfTraining, RunLeavesPrefix, OfTraining, OnlyReads};
ghost use Rattle.run_program.specs.Kinds.{precedes_journal, writes_nothing};
ghost use Rattle.run_program.specs.Outcome.{ReadsJournal};
ghost use Rattle.run_program.specs.OwnSolver.{own_solver};
ghost use Rattle.run_program.specs.Run.{IsRun, after, before, ends_of, telling};
ghost use Rattle.run_program.specs.Words.{IsTaskWithin, asked_command, reads_source};

use crate::describing::write_described;
use crate::generating::write_problem;
use crate::outcome::report_of;
use crate::outside::Outside;
use crate::reading::{GatherFault, gather};
use crate::status::Status;
use crate::writing::put;
use base_device::{Disk, FaultlessSource, Sink, Source};
use lp_program::Solver;
use lp_solve::WarmSimplex;
use run_words::{Command, read_words};
use std::alloc::Global;
use std::thread::Threads;

/// Does what the words say, with this solver, over the problem that the source holds to its end. `base` writes the report of
/// its base cuts. `train` trains on the journal, and writes the report of training. `check` reads the journal, checks each
/// certificate of its records, and writes the report of what it gives. `simulate` and `validate` read it so too, and write the
/// traces of drawn and of stored scenarios over its cuts; `evaluate` writes what the whole policy over them costs, and `robust`
/// the risk cuts of its certificates for the worst of the weights that the problem lists. `hydro` takes the source for a
/// description of hydro plants, and writes the problem that it means. `gen` reads nothing, and writes a generated problem.
/// Other words are Usage.
///
/// `IsRun` has a name and a sentence for each thing that is promised: what each status tells, and which comes; that what was
/// written is sound; what is left as it was; and what becomes of the journal.
pub fn run_with<R: Threads + Sync, I: Source, D: Disk, O: Sink, V: Solver>(
    rt: &R,
    alloc: Global,
    words: &[String],
    outside: Outside<I, D, O>,
    solver: &V,
) -> Status
    ensures { IsRun (V.does solver.now) (asked_command words.now) (telling I.left I.faults D.store D.faults O.taken O.faults) (before outside.entry) (after outside.exit) result }
{
    act(rt, alloc, words, outside, solver)
}

/// Does what the words say, as [`run_with`] by the warm simplex.
pub fn run<R: Threads + Sync, I: Source, D: Disk, O: Sink>(
    rt: &R,
    alloc: Global,
    words: &[String],
    outside: Outside<I, D, O>,
) -> Status
    ensures { IsRun own_solver (asked_command words.now) (telling I.left I.faults D.store D.faults O.taken O.faults) (before outside.entry) (after outside.exit) result }
{
    run_with(rt, alloc, words, outside, &WarmSimplex)
}

/// Does what the words say, as [`run`], over bytes in memory as the problem: it never ends as ReadFault.
pub fn run_safe<R: Threads + Sync, D: Disk, O: Sink>(
    rt: &R,
    alloc: Global,
    words: &[String],
    outside: Outside<FaultlessSource, D, O>,
) -> Status
    ensures run { IsRun own_solver (asked_command words.now) (telling (λ s. Some s) (λ s. 0) D.store D.faults O.taken O.faults) (before outside.entry) (after outside.exit) result }
    ensures safe { ¬ (result ≡ Status.ReadFault) }
{
    run(rt, alloc, words, outside)
}

// Like `run_with`, with a clause for each promise that does not follow from another.
fn act<R: Threads + Sync, I: Source, D: Disk, O: Sink, V: Solver>(
    rt: &R,
    alloc: Global,
    words: &[String],
    outside: Outside<I, D, O>,
    solver: &V,
) -> Status
    ensures cause { Explains (V.does solver.now) (asked_command words.now) (ends_of (telling I.left I.faults D.store D.faults O.taken O.faults) (before outside.entry) (after outside.exit)) result }
    ensures unwritten { writes_nothing result ≡ true → (after outside.exit).out ≡ (before outside.entry).out }
    ensures unread { reads_source (asked_command words.now) ≡ false → (after outside.exit).problem ≡ (before outside.entry).problem }

    // The journal.
    ensures journal { IfSome (asked_command words.now) (λ c. OnlyReads c result) → Stays (D.store (before outside.entry).journal) (D.store (after outside.exit).journal) }
    ensures journal_unread { ¬ (IsSomeAnd (asked_command words.now) ReadsJournal) → (after outside.exit).journal ≡ (before outside.entry).journal }
    ensures journal_later { precedes_journal result ≡ true → (after outside.exit).journal ≡ (before outside.entry).journal }
    ensures grown { OfTraining (I.left (before outside.entry).problem) (D.store (before outside.entry).journal).reads (asked_command words.now) (λ bytes kept. JournalGrows (V.does solver.now) result bytes kept (D.store (after outside.exit).journal)) }
    ensures any_moment { OfTraining (I.left (before outside.entry).problem) (D.store (before outside.entry).journal).reads (asked_command words.now) (λ bytes kept. RunLeavesPrefix (V.does solver.now) bytes kept (D.store (before outside.entry).journal) (D.store (after outside.exit).journal)) }
{
    let Outside {
        problem,
        journal,
        out,
    } = outside;
    match read_words(words) {
        None => Status::Usage,
        Some(Command::Hydro) => write_described(alloc, problem, out),
        Some(
            Command::Gen {
                seed,
                stages,
                reservoirs,
            },
        ) => write_problem(alloc, seed, stages, reservoirs, out),
        Some(command) => {
            let outside = Outside {
                problem,
                journal,
                out,
            };
            plan(rt, alloc, command, outside, solver)
        }
    }
}

/// Plans over the problem that the source holds to its end.
fn plan<R: Threads + Sync, I: Source, D: Disk, O: Sink, V: Solver>(
    rt: &R,
    alloc: Global,
    command: Command,
    outside: Outside<I, D, O>,
    solver: &V,
) -> Status
    requires { IsTaskWithin command }
    ensures cause { ExplainsTask (V.does solver.now) command (ends_of (telling I.left I.faults D.store D.faults O.taken O.faults) (before outside.entry) (after outside.exit)) result }
    ensures unwritten { writes_nothing result ≡ true → (after outside.exit).out ≡ (before outside.entry).out }

    // The journal.
    ensures journal { OnlyReads command result → Stays (D.store (before outside.entry).journal) (D.store (after outside.exit).journal) }
    ensures journal_unread { ¬ (ReadsJournal command) → (after outside.exit).journal ≡ (before outside.entry).journal }
    ensures journal_later { precedes_journal result ≡ true → (after outside.exit).journal ≡ (before outside.entry).journal }
    ensures grown { IfTraining command (λ t. IfSome (I.left (before outside.entry).problem) (λ bytes. IfSome (D.store (before outside.entry).journal).reads (λ kept. JournalGrows (V.does solver.now) result bytes kept (D.store (after outside.exit).journal) t))) }
    ensures any_moment { IfTraining command (λ t. IfSome (I.left (before outside.entry).problem) (λ bytes. IfSome (D.store (before outside.entry).journal).reads (λ kept. RunLeavesPrefix (V.does solver.now) bytes kept (D.store (before outside.entry).journal) (D.store (after outside.exit).journal) t))) }
{
    let Outside {
        problem,
        journal,
        out,
    } = outside;
    let bytes = match gather(alloc, problem) {
        Ok(bytes) => bytes,
        Err(GatherFault::ReadFault) => return Status::ReadFault,
        Err(GatherFault::TooLong) => return Status::TooLong,
        Err(GatherFault::Memory) => return Status::Memory,
    };
    let text = match report_of(rt, alloc, command, bytes.as_slice(), journal, solver) {
        Ok(text) => text,
        Err(status) => return status,
    };
    match put(out, text.as_slice()) {
        Ok(()) => Status::Done,
        Err(_) => Status::WriteFault,
    }
}
