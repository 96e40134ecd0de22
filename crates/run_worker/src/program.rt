// The worker over the objects that stand for the world outside.
ghost use Rattle.std.specs.Prelude.{◌≡◌, ◌≤◌, Ok, IfOk};
ghost use Rattle.theory.specs.Range.{based};
ghost use Rattle.run_worker.specs.Holding.{Holds};

use crate::ending::{Ending, line, number};
use crate::orders::serve;
use crate::reading::{problem_from, u16_from};
use crate::state::{Held, Task};
use base_device::{Sink, Source, StdSink, StdSource};
use cut_check::{BaseFault, base};
use cut_pool::Pools;
use journal_load::gathered_base;
use lp_program::Solver;
use lp_solve::WarmSimplex;
use plan_stage::{Planner, WarmStarts, Workspace};
use problem::{MOST_PATHS, Problem};
use read_file::read_problem;
use read_json::ReadRefusal;
use std::alloc::Global;
use std::io::{Read, Write};
use std::process::ExitCode;
use std::thread::Threads;

// Reads the paths of an iteration.
fn batch_from<I: Source>(input: &mut I) -> Result<u16, Ending>
    ensures { IfOk result (λ batch. (1 ≤ batch) × (batch ≤ 64)) }
{
    let batch = u16_from(input)?;
    if batch < 1 || MOST_PATHS < batch {
        return Err(Ending::Usage);
    }
    Ok(batch)
}

// The problem that bytes give.
fn problem_of(alloc: Global, bytes: &[u8]) -> Result<Problem, Ending> {
    match read_problem(alloc, bytes) {
        Ok(problem) => Ok(problem),
        Err(ReadRefusal::Refused(_)) => Err(Ending::ProblemRefused),
        Err(ReadRefusal::Memory) => Err(Ending::Memory),
    }
}

// The base cuts of a problem.
fn base_of(alloc: Global, problem: &Problem) -> Result<Pools, Ending>
    ensures { IfOk result (λ pools. based problem.now ≡ Ok pools.lists) }
{
    match base(alloc, problem) {
        Ok(pools) => Ok(pools),
        Err(BaseFault::Range { .. }) => Err(Ending::ProblemRefused),
        Err(BaseFault::Memory) => Err(Ending::Memory),
    }
}

// Begins with the base cuts alone, before the first order.
fn held_at_first<V: Solver>(task: Task) -> Result<Held<V>, Ending>
    requires some { 1 ≤ task.batch }
    requires most { task.batch ≤ 64 }
    ensures { IfOk result (λ held. Holds task.entry.problem.now task.entry.batch held.found) }
{
    let pools = base_of(task.alloc, task.problem)?;
    let found = gathered_base(task.alloc, task.problem, pools)?;
    Ok(Held {
        found,
        work: Workspace::new(task.alloc),
        told: None,
    })
}

// Takes the orders over a problem.
fn over_problem<R: Threads + Sync, I: Source, O: Sink, V: Solver>(
    rt: &R,
    task: Task,
    solver: &V,
    input: &mut I,
    out: &mut O,
) -> Result<(), Ending>
    requires some { 1 ≤ task.batch }
    requires most { task.batch ≤ 64 }
{
    let mut held = held_at_first(task)?;
    let starts = WarmStarts::new(task.alloc, task.problem, solver)?;
    let planner = Planner::new(task.problem, solver, &starts);
    serve(rt, &planner, task, &mut held, input, out)
}

/// The worker: the paths of an iteration, a problem, and orders, from a source until it ends; records to a sink.
///
/// Its pools hold only cuts whose certificates were checked over those before them. What is said of the records that it writes
/// is what is said of the functions that make them: nobody has to believe this.
pub fn run<R: Threads + Sync, I: Source, O: Sink, V: Solver>(
    rt: &R,
    alloc: Global,
    solver: &V,
    input: &mut I,
    out: &mut O,
) -> Result<(), Ending> {
    let batch = batch_from(input)?;
    let bytes = problem_from(alloc, input)?;
    let problem = problem_of(alloc, bytes.as_slice())?;
    let task = Task {
        alloc,
        problem: &problem,
        batch,
    };
    over_problem(rt, task, solver, input, out)
}

// Writes why the worker ended.
fn write_line<E: Write>(alloc: Global, ending: Ending, errors: &mut E) {
    let _ = match line(alloc, ending) {
        Ok(text) => errors.write_all(text.as_slice()),
        Err(_) => errors.write_all(b"hydroplan_worker: memory\n"),
    };
}

/// The program: the worker over standard input and output. The exit status is the number of why it ended, which it writes to
/// `errors`, and 0 where the input ended behind an order.
pub fn start<R, I, O, E>(rt: &R, input: I, output: O, errors: &mut E) -> ExitCode
where
    R: Threads + Sync + AllocGlobal,
    I: Read + Drop,
    O: Write + Drop,
    E: Write,
{
    let mut source = StdSource::new(input);
    let mut sink = StdSink::new(output);
    match run(rt, rt.alloc(), &WarmSimplex, &mut source, &mut sink) {
        Ok(()) => ExitCode::from(0),
        Err(ending) => {
            write_line(rt.alloc(), ending, errors);
            ExitCode::from(number(ending))
        }
    }
}
