// Turns of the bounded dual simplex method on a table in place.
ghost use Rattle.std.specs.Prelude.{◌≡◌, false, length, IfOk, OnOk};
ghost use Rattle.lp_program.specs.Proper.{IsProper};
ghost use Rattle.lp_table.specs.Shape.{IsTable};
ghost use Rattle.lp_table.specs.SameParts.{KeepsProgram};
ghost use Rattle.lp_table.specs.Updates.{GivesNew};
ghost use Rattle.lp_pivot.specs.Refine.{refined};
ghost use Rattle.lp_scale.specs.Fitting.{Fits};
ghost use Rattle.lp_solve.specs.Fitting.{IsHeld, KeepsOwn, IsRoomy};
ghost use Rattle.lp_solve.specs.Turns.{swapped, by_values, closed_of, finishing, asked, turn_without_violation, turn_on_table, turns_on_table};
ghost use Rattle.lp_solve.specs.Steps.{Enters, TakesTurn, EndsTurns};

use crate::inspecting::{Fitted, Survey, inspect_all};
use crate::violations::{Violation, violations};
use base_num::{List, Memory};
use lp_pivot::{Shift, Swap, move_point, pivot, refine};
use lp_price::entering::Rank;
use lp_price::finishing::finish;
use lp_price::found::found;
use lp_program::{Answer, StageLp};
use lp_scan::{Room as ScanRoom, Scan, scan_cuts};
use lp_table::{Cell, WarmTable};
use std::alloc::Global;

// Lists for work. No answer depends on what they hold.
#[derive(Drop)]
pub struct WorkRoom {
    // The violations of a table.
    pub(crate) violations: List<Violation>,
    // The line of one of them, a cell for each place.
    pub(crate) line: List<Cell>,
    // Its cells that are not 0, with their places; room for as many as there are places.
    pub(crate) steps: List<(usize, Cell)>,
    // Places with their shifts, as many as there are places.
    pub(crate) shifts: List<(usize, Shift)>,
    // The places that flip.
    pub(crate) flips: List<usize>,
    // The places that may enter, with their sort keys.
    pub(crate) candidates: List<Rank>,
    // Lists of scans.
    pub(crate) scan: ScanRoom,
}

// The outcome of a turn.
pub(crate) enum Turn {
    // Two variables changed places.
    Pivots,
    // The point is as exact as the table: it was refined, or rows of cuts came in.
    Settles,
    // A point is found, or no point keeps all bounds.
    Ends(Answer),
    // A number is out of range.
    Stops,
}

// Moves the point along the line of the variable that leaves, and then exchanges the variables.
fn exchange(table: &mut WarmTable, room: &mut WorkRoom, swap: Swap) -> Turn
    requires sized { IsTable table.old }
    requires room { IsRoomy room.old table.old }
    requires enters { Enters table.old room.old.line room.old.flips swap }
    ensures sized { IsTable table.new }
    ensures room { IsRoomy room.new table.new }
    ensures worked { KeepsProgram table.old table.new }
    ensures turn { TakesTurn result (swapped table.old swap room.old.line room.old.flips) table.new }
{
    let flips = room.flips.as_slice();
    if !move_point(table, room.line.as_slice(), &mut room.shifts, swap, flips) {
        return Turn::Stops;
    }
    if !pivot(table, &mut room.line, &mut room.steps, swap, flips) {
        return Turn::Stops;
    }
    Turn::Pivots
}

// The point of a table afresh.
fn settle(table: &mut WarmTable, shifts: &mut List<(usize, Shift)>) -> Turn
    requires sized { IsTable table.old }
    requires shifts { length shifts.old ≡ length table.old.costs }
    ensures sized { IsTable table.new }
    ensures shifts { length shifts.new ≡ length shifts.old }
    ensures worked { KeepsProgram table.old table.new }
    ensures turn { TakesTurn result (by_values table.old (refined table.old)) table.new }
{
    if refine(table, shifts) {
        Turn::Settles
    } else {
        Turn::Stops
    }
}

// Computes the reduced costs afresh. An answer is not to be trusted where a violation was passed over.
#[tactic(auto, unfolding(crate::specs::Turns::closed_of))]
fn close(alloc: Global, lp: &StageLp, table: &mut WarmTable, passed: bool) -> Result<bool, Memory>
    requires fits { Fits table.old lp.now }
    ensures fits { OnOk result (Fits table.new lp.now) }
    ensures held { OnOk result (IsHeld table.old table.new) }
    ensures closed { IfOk result (λ done. GivesNew done (closed_of passed table.old) table.new) }
{
    if !finish(alloc, table)? {
        return Ok(false);
    }
    table.weak = table.weak || passed;
    Ok(true)
}

// The answer by a table on which nothing is left to do.
#[tactic(auto, unfolding(crate::specs::Turns::finishing), using(crate::proofs::Fitting::cuts_inside, crate::proofs::Ending::held_worked))]
fn finishing(
    alloc: Global,
    lp: &StageLp,
    table: &mut WarmTable,
    passed: bool,
) -> Result<Turn, Memory>
    requires fits { Fits table.old lp.now }
    ensures fits { OnOk result (Fits table.new lp.now) }
    ensures worked { OnOk result (KeepsProgram table.old table.new) }
    ensures turn { IfOk result (λ turn. TakesTurn turn (finishing lp.now passed table.old) table.new) }
{
    if !close(alloc, lp, table, passed)? {
        return Ok(Turn::Stops);
    }
    match found(alloc, table, lp)? {
        Some(answer) => Ok(Turn::Ends(answer)),
        None => Ok(Turn::Stops),
    }
}

// Asks for cuts that the point of a table violates. Where none come in there is an answer.
#[tactic(auto, unfolding(crate::specs::Turns::asked))]
fn ask(
    alloc: Global,
    lp: &StageLp,
    table: &mut WarmTable,
    room: &mut WorkRoom,
    passed: bool,
) -> Result<Turn, Memory>
    requires proper { IsProper lp.now }
    requires fits { Fits table.old lp.now }
    requires room { IsRoomy room.old table.old }
    ensures fits { OnOk result (Fits table.new lp.now) }
    ensures room { OnOk result (IsRoomy room.new table.new) }
    ensures own { OnOk result (KeepsOwn lp.now table.old table.new) }
    ensures turn { IfOk result (λ turn. TakesTurn turn (asked lp.now passed table.old) table.new) }
{
    match scan_cuts(lp, table, &mut room.scan)? {
        Scan::Adds => Ok(Turn::Settles),
        Scan::Rests => finishing(alloc, lp, table, passed),
        Scan::Stops => Ok(Turn::Stops),
    }
}

// A turn in which no violation is mended: the point is refined, and once that is so, cuts are asked for.
#[tactic(auto, using(crate::proofs::Fitting::still_fits))]
fn tail(
    alloc: Global,
    lp: &StageLp,
    table: &mut WarmTable,
    room: &mut WorkRoom,
    fresh: bool,
    passed: bool,
) -> Result<Turn, Memory>
    requires proper { IsProper lp.now }
    requires fits { Fits table.old lp.now }
    requires room { IsRoomy room.old table.old }
    ensures fits { OnOk result (Fits table.new lp.now) }
    ensures room { OnOk result (IsRoomy room.new table.new) }
    ensures own { OnOk result (KeepsOwn lp.now table.old table.new) }
    ensures turn { IfOk result (λ turn. TakesTurn turn (turn_without_violation lp.now fresh passed table.old) table.new) }
{
    if fresh {
        return ask(alloc, lp, table, room, passed);
    }
    Ok(settle(table, &mut room.shifts))
}

// Takes one turn, on a table whose point is fresh, that is refined since the last pivot, or not.
#[tactic(auto, unfolding(crate::specs::Turns::turn_on_table, crate::specs::Turns::survey_of), using(crate::proofs::Fitting::still_fits))]
fn take_turn(
    alloc: Global,
    lp: &StageLp,
    table: &mut WarmTable,
    room: &mut WorkRoom,
    fresh: bool,
) -> Result<Turn, Memory>
    requires proper { IsProper lp.now }
    requires fits { Fits table.old lp.now }
    requires room { IsRoomy room.old table.old }
    ensures fits { OnOk result (Fits table.new lp.now) }
    ensures room { OnOk result (IsRoomy room.new table.new) }
    ensures own { OnOk result (KeepsOwn lp.now table.old table.new) }
    ensures turn { IfOk result (λ turn. TakesTurn turn (turn_on_table lp.now fresh table.old) table.new) }
{
    if !violations(table, &mut room.violations)? {
        return Ok(Turn::Stops);
    }
    let all = room.violations.as_slice();
    let fitted = Fitted {
        lp: &*lp,
        table: &*table,
    };
    match inspect_all(
        alloc,
        &fitted,
        all,
        &mut room.line,
        &mut room.flips,
        &mut room.candidates,
    )? {
        Survey::Rests(passed) => tail(alloc, lp, table, room, fresh, passed),
        Survey::Mends(swap) => Ok(exchange(table, room, swap)),
        Survey::Shows(answer) => Ok(Turn::Ends(answer)),
        Survey::Stops => Ok(Turn::Stops),
    }
}

// Takes at most so many turns. None where a number is out of range, or where all are used up.
pub(crate) fn take_turns(
    alloc: Global,
    lp: &StageLp,
    table: &mut WarmTable,
    room: &mut WorkRoom,
    limit: usize,
) -> Result<Option<Answer>, Memory>
    requires proper { IsProper lp.now }
    requires fits { Fits table.old lp.now }
    requires room { IsRoomy room.old table.old }
    ensures fits { OnOk result (Fits table.new lp.now) }
    ensures room { OnOk result (IsRoomy room.new table.new) }
    ensures own { OnOk result (KeepsOwn lp.now table.old table.new) }
    ensures went { IfOk result (λ answer. EndsTurns answer (turns_on_table lp.now limit false table.old) table.new) }
{
    let mut fresh = false;
    for _turn in 0..limit {
        match take_turn(alloc, lp, table, room, fresh)? {
            Turn::Pivots => fresh = false,
            Turn::Settles => fresh = true,
            Turn::Ends(answer) => return Ok(Some(answer)),
            Turn::Stops => return Ok(None),
        }
    }
    Ok(None)
}
