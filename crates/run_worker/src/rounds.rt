// Rounds: the records that parts made behind the joined ones, taken in turns.
ghost use Rattle.std.specs.Prelude.{◌≡◌, ◌≤◌, ◌^◌, length, IfOk, OnOk};
ghost use Rattle.run_worker.specs.Holding.{Holds};

use crate::ending::{Ending, RecordAt, ending_of_record};
use crate::moving::{Move, move_record};
use crate::parts::{Round, payload_at, turns};
use crate::places::Places;
use crate::reading::{payload_from, u16_from, u32_from};
use crate::state::{Held, Task};
use base_device::Source;
use journal_load::add_payload;
use lp_program::Solver;
use plan_train::counts;
use problem::{MOST_ITERATIONS, PAYLOAD_BYTES};

const MOST_PARTS: u16 = 64;

// Keeps a payload behind the number of its bytes, where an order asks for it.
fn keep(told: &mut Option<Vec<u8>>, payload: &[u8]) -> Result<(), Ending>
    requires { length payload.now ≤ 2 ^ 26 }
{
    if let Some(bytes) = told {
        let count = (payload.len() as u32).to_be_bytes();
        bytes.extend_from_slice(&count).map_err(|_| Ending::Memory)?;
        bytes
            .extend_from_slice(payload)
            .map_err(|_| Ending::Memory)?;
    }
    Ok(())
}

// Checks and adds a record, and keeps it where an order asks for it.
fn add<V: Solver>(
    task: Task,
    held: &mut Held<V>,
    payload: &[u8],
    at: RecordAt,
) -> Result<(), Ending>
    requires holds { Holds task.problem.now task.batch held.old.found }
    requires short { length payload.now ≤ 2 ^ 26 }
    ensures { OnOk result (Holds task.entry.problem.now task.entry.batch held.new.found) }
{
    if held.found.bounds.len() >= MOST_ITERATIONS as usize {
        return Err(Ending::RecordRefused(at));
    }
    match add_payload(
        task.alloc,
        &mut held.work.spares,
        task.problem,
        task.batch,
        payload,
        &mut held.found,
    ) {
        Ok(()) => keep(&mut held.told, payload),
        Err(fault) => Err(ending_of_record(fault, at)),
    }
}

// Reads the records of the only part and adds them, one after another.
fn join_one<I: Source, V: Solver>(
    task: Task,
    held: &mut Held<V>,
    input: &mut I,
) -> Result<(), Ending>
    requires { Holds task.problem.now task.batch held.old.found }
    ensures { OnOk result (Holds task.entry.problem.now task.entry.batch held.new.found) }
{
    let count = u32_from(input)?;
    for done in 0..count {
        let at = RecordAt {
            part: 1,
            record: done + 1,
        };
        let payload = payload_from(task.alloc, input, at)?;
        add(task, held, payload.as_slice(), at)?;
    }
    Ok(())
}

// Moves a record of a part to where it stands once joined, checks it and adds it.
fn join_record<V: Solver>(
    task: Task,
    held: &mut Held<V>,
    places: &mut Places,
    moving: Move,
    payload: &[u8],
) -> Result<(), Ending>
    requires { Holds task.problem.now task.batch held.old.found }
    ensures { OnOk result (Holds task.entry.problem.now task.entry.batch held.new.found) }
{
    if payload.len() as u64 > PAYLOAD_BYTES {
        return Err(Ending::RecordRefused(moving.at));
    }
    let Ok(mut moved) = Vec::from_slice(task.alloc, payload) else {
        return Err(Ending::Memory);
    };
    move_record(
        task.problem,
        places,
        moving,
        task.batch,
        moved.as_mut_slice(),
    )?;
    add(task, held, moved.as_slice(), moving.at)
}

// Gives what becomes of the record that a part made in a turn, where so many were joined when the round began and are by now.
fn moving(part: u16, turn: u32, before: usize, now: usize) -> Move
    requires before { before ≤ 2000 }
    requires now { now ≤ 2000 }
{
    Move {
        part,
        was: (before as u32 + 1).saturating_add(turn),
        becomes: now as u32 + 1,
        at: RecordAt {
            part: u32::from(part) + 1,
            record: turn.saturating_add(1),
        },
    }
}

// A round that is being joined: where cuts stand, the records that wait for their turn, and the number of records before it.
#[derive(Drop)]
struct Joining {
    places: Places,
    waiting: Round,
    before: usize,
}

// Reads the records of a part, and joins the first of them at once. The others wait for those of other parts.
fn take_part<I: Source, V: Solver>(
    task: Task,
    held: &mut Held<V>,
    input: &mut I,
    joining: &mut Joining,
    part: u16,
) -> Result<(), Ending>
    requires holds { Holds task.problem.now task.batch held.old.found }
    requires before { joining.old.before ≤ 2000 }
    ensures holds { OnOk result (Holds task.entry.problem.now task.entry.batch held.new.found) }
    ensures before { joining.new.before ≡ joining.old.before }
{
    let count = u32_from(input)?;
    if count > 0 {
        let moving = moving(part, 0, joining.before, held.found.bounds.len());
        let payload = payload_from(task.alloc, input, moving.at)?;
        join_record(task, held, &mut joining.places, moving, payload.as_slice())?;
    }
    let others = count.saturating_sub(1);
    joining.waiting.read_part(task.alloc, input, part, others)
}

// Takes the records of all parts, the first of each in their order.
fn take_parts<I: Source, V: Solver>(
    task: Task,
    held: &mut Held<V>,
    input: &mut I,
    joining: &mut Joining,
    parts: u16,
) -> Result<(), Ending>
    requires holds { Holds task.problem.now task.batch held.old.found }
    requires before { joining.old.before ≤ 2000 }
    ensures holds { OnOk result (Holds task.entry.problem.now task.entry.batch held.new.found) }
    ensures before { joining.new.before ≡ joining.old.before }
{
    for part in 0..parts {
        take_part(task, held, input, joining, part)?;
    }
    Ok(())
}

// Takes the records of a turn behind the first, in the order of the parts.
fn take_turn<V: Solver>(
    task: Task,
    held: &mut Held<V>,
    joining: &mut Joining,
    turn: u32,
) -> Result<(), Ending>
    requires holds { Holds task.problem.now task.batch held.old.found }
    requires before { joining.old.before ≤ 2000 }
    ensures holds { OnOk result (Holds task.entry.problem.now task.entry.batch held.new.found) }
    ensures before { joining.new.before ≡ joining.old.before }
{
    for part in 0..MOST_PARTS {
        if let Some(payload) = payload_at(&joining.waiting, part, turn) {
            let now = held.found.bounds.len();
            let moving = moving(part, turn.saturating_add(1), joining.before, now);
            join_record(task, held, &mut joining.places, moving, payload)?;
        }
    }
    Ok(())
}

// Takes the records of all turns behind the first.
fn take_turns<V: Solver>(
    task: Task,
    held: &mut Held<V>,
    joining: &mut Joining,
) -> Result<(), Ending>
    requires holds { Holds task.problem.now task.batch held.old.found }
    requires before { joining.old.before ≤ 2000 }
    ensures { OnOk result (Holds task.entry.problem.now task.entry.batch held.new.found) }
{
    for turn in 0..turns(&joining.waiting) {
        take_turn(task, held, joining, turn)?;
    }
    Ok(())
}

// Reads the records of so many parts and joins them, each as soon as it is there and its turn has come.
fn join_parts<I: Source, V: Solver>(
    task: Task,
    held: &mut Held<V>,
    input: &mut I,
    parts: u16,
) -> Result<(), Ending>
    requires { Holds task.problem.now task.batch held.old.found }
    ensures { OnOk result (Holds task.entry.problem.now task.entry.batch held.new.found) }
{
    let _ = task.problem.parts();
    let counts = counts(task.alloc, &held.found.pools)?;
    let mut joining = Joining {
        places: Places::new(task.alloc, counts, parts)?,
        waiting: Round::new(task.alloc),
        before: held.found.bounds.len(),
    };
    take_parts(task, held, input, &mut joining, parts)?;
    take_turns(task, held, &mut joining)
}

/// Joins the records of a round behind those that are held, each checked by its certificates.
pub(crate) fn join<I: Source, V: Solver>(
    task: Task,
    held: &mut Held<V>,
    input: &mut I,
) -> Result<(), Ending>
    requires { Holds task.problem.now task.batch held.old.found }
    ensures { OnOk result (Holds task.entry.problem.now task.entry.batch held.new.found) }
{
    match u16_from(input)? {
        1 => join_one(task, held, input),
        parts if 1 < parts && parts <= MOST_PARTS => join_parts(task, held, input, parts),
        _ => Err(Ending::Usage),
    }
}
