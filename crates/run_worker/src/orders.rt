// The orders, one after another until the input ends.
ghost use Rattle.std.specs.Prelude.{◌≡◌, OnOk};
ghost use Rattle.run_worker.specs.Holding.{Holds};

use crate::ahead::{Stretch, go_ahead};
use crate::ending::Ending;
use crate::reading::{order_from, u32_from, u64_from};
use crate::rounds::join;
use crate::state::{Held, Task};
use crate::writing::put;
use base_device::{Sink, Source};
use lp_program::Solver;
use plan_stage::Planner;
use std::thread::Threads;

const MOST_ORDERS: u64 = 1 << 32;

// Takes the iterations that an order asks for.
fn train<R: Threads + Sync, I: Source, O: Sink, V: Solver>(
    rt: &R,
    planner: &Planner<V>,
    task: Task,
    held: &mut Held<V>,
    input: &mut I,
    out: &mut O,
) -> Result<(), Ending>
    requires same { planner.now.problem.now ≡ task.problem.now }
    requires holds { Holds task.problem.now task.batch held.old.found }
    ensures { OnOk result (Holds task.entry.problem.now task.entry.batch held.new.found) }
{
    let seed = u64_from(input)?;
    let count = u32_from(input)?;
    let stretch = Stretch {
        seed,
        batch: task.batch,
        before: held.found.bounds.len() as u32,
        count,
    };
    let pools = &mut held.found.pools;
    go_ahead(rt, &mut held.work, planner, pools, stretch, out)?;
    Ok(())
}

// Joins records, and writes each as it stands joined.
fn tell<I: Source, O: Sink, V: Solver>(
    task: Task,
    held: &mut Held<V>,
    input: &mut I,
    out: &mut O,
) -> Result<(), Ending>
    requires { Holds task.problem.now task.batch held.old.found }
    ensures { OnOk result (Holds task.entry.problem.now task.entry.batch held.new.found) }
{
    held.told = Some(Vec::new(task.alloc));
    join(task, held, input)?;
    match held.told.take() {
        Some(bytes) => put(out, bytes.as_slice()),
        None => Ok(()),
    }
}

// Takes the next order, and says whether there was one.
fn next<R: Threads + Sync, I: Source, O: Sink, V: Solver>(
    rt: &R,
    planner: &Planner<V>,
    task: Task,
    held: &mut Held<V>,
    input: &mut I,
    out: &mut O,
) -> Result<bool, Ending>
    requires same { planner.now.problem.now ≡ task.problem.now }
    requires holds { Holds task.problem.now task.batch held.old.found }
    ensures { OnOk result (Holds task.entry.problem.now task.entry.batch held.new.found) }
{
    match order_from(input)? {
        None => return Ok(false),
        Some(b'J') => join(task, held, input)?,
        Some(b'E') => tell(task, held, input, out)?,
        Some(b'T') => train(rt, planner, task, held, input, out)?,
        Some(_) => return Err(Ending::Usage),
    }
    Ok(true)
}

/// Takes orders until the input ends, at most 2^32 of them.
pub(crate) fn serve<R: Threads + Sync, I: Source, O: Sink, V: Solver>(
    rt: &R,
    planner: &Planner<V>,
    task: Task,
    held: &mut Held<V>,
    input: &mut I,
    out: &mut O,
) -> Result<(), Ending>
    requires same { planner.now.problem.now ≡ task.problem.now }
    requires holds { Holds task.problem.now task.batch held.old.found }
{
    for _ in 0..MOST_ORDERS {
        if !next(rt, planner, task, held, input, out)? {
            return Ok(());
        }
    }
    Err(Ending::Usage)
}
