// Attempts at an answer: on the table of a chain, on its basis in a clean table, on a table from nothing, and in wide
// numbers.
ghost use Rattle.std.specs.Prelude.{◌≡◌, Option, Some, None, IfOk, IfSome, OnOk, if◌then◌else◌};
ghost use Rattle.lp_program.specs.Proper.{IsProper};
ghost use Rattle.lp_table.specs.Shape.{IsTable};
ghost use Rattle.lp_scale.specs.Widening.{widened, widened_in_full};
ghost use Rattle.lp_scale.specs.Fitting.{Suits, Fits};
ghost use Rattle.lp_solve.specs.Fitting.{IsRoomy};
ghost use Rattle.lp_solve.specs.Going.{go_of, restored_of};
ghost use Rattle.lp_solve.specs.Violations.{violations_of};
ghost use Rattle.lp_solve.specs.Chains.{is_ray, is_good, is_violated_by, is_poor, replaced_attempt, tried, unless_good, warm_attempt, by_chain, new_table, then_anew, stuck_answer, wide_unless, or_stuck, table_left, last_resort, next_of_chain};

use crate::going::{go, restore};
use crate::turns::WorkRoom;
use crate::violations::{Violation, violations};
use base_num::{List, Memory};
use lp_price::finishing::is_far;
use lp_program::{Answer, Kind, StageLp};
use lp_scale::{first, widen, widen_in_full};
use lp_table::WarmTable;
use lp_wide::wide;
use std::alloc::Global;

// The outcome of attempts.
#[derive(Drop)]
pub(crate) struct Attempt {
    // An answer, if there is one.
    pub(crate) answer: Option<Answer>,
    // True for a ray, or a point that is to be trusted: one that is not weak, or behind the chain's table one that is not poor.
    pub(crate) good: bool,
    // The table that the chain goes on with, if there is one.
    pub(crate) table: Option<WarmTable>,
}

fn is_ray(kind: Kind) -> bool
    ensures { result ≡ is_ray kind }
{
    match kind {
        Kind::Found => false,
        Kind::Ray => true,
        Kind::Stuck => false,
    }
}

// Tells whether there is an answer that is a ray, or a point that is to be trusted.
pub(crate) fn is_good(answer: &Option<Answer>, weak: bool) -> bool
    ensures { result ≡ is_good answer.now weak }
{
    match answer {
        None => false,
        Some(answer) => is_ray(answer.kind) || !weak,
    }
}

// Tells whether a basic variable violates a bound, or one has no value in range.
fn is_violated(table: &WarmTable, found: &mut List<Violation>) -> Result<bool, Memory>
    requires table { IsTable table.now }
    ensures { IfOk result (λ violated. violated ≡ is_violated_by (violations_of table.now)) }
{
    let whole = violations(table, found)?;
    Ok(!whole || 0 < found.len())
}

// Tells whether the point of a table is poor: it is weak, and a violation was passed over or it is far from the best one.
#[tactic(auto, unfolding(crate::specs::Chains::is_poor))]
fn is_poor(alloc: Global, table: &WarmTable, room: &mut WorkRoom) -> Result<bool, Memory>
    requires table { IsTable table.now }
    ensures { IfOk result (λ poor. poor ≡ is_poor table.now) }
{
    if !table.weak {
        return Ok(false);
    }
    if is_violated(table, &mut room.violations)? {
        return Ok(true);
    }
    is_far(alloc, table)
}

// Turns on another table. The answer before stays where they have none.
#[tactic(auto, using(crate::proofs::Trying::replaced_on))]
fn go_on(
    alloc: Global,
    lp: &StageLp,
    before: Option<Answer>,
    mut table: WarmTable,
    room: &mut WorkRoom,
) -> Result<Attempt, Memory>
    requires proper { IsProper lp.now }
    requires fits { Fits table lp.now }
    ensures attempt { IfOk result (λ attempt. attempt ≡ replaced_attempt before (go_of lp.now table)) }
    ensures fits { IfOk result (λ attempt. IfSome attempt.table (λ t. Fits t lp.now)) }
{
    let answer = go(alloc, lp, &mut table, room)?;
    if answer.is_none() {
        return Ok(Attempt {
            answer: before,
            good: false,
            table: None,
        });
    }
    let poor = is_poor(alloc, &table, room)?;
    let good = is_good(&answer, poor);
    Ok(Attempt {
        answer,
        good,
        table: Some(table),
    })
}

// Turns on the same basis in a clean table.
fn go_restored(
    alloc: Global,
    lp: &StageLp,
    before: Option<Answer>,
    mut table: WarmTable,
    room: &mut WorkRoom,
) -> Result<Attempt, Memory>
    requires proper { IsProper lp.now }
    requires fits { Fits table lp.now }
    requires room { IsRoomy room.old table }
    ensures attempt { IfOk result (λ attempt. attempt ≡ tried lp.now before (restored_of table)) }
    ensures fits { IfOk result (λ attempt. IfSome attempt.table (λ t. Fits t lp.now)) }
{
    if !restore(alloc, lp, &mut table, room)? {
        return Ok(Attempt {
            answer: before,
            good: false,
            table: None,
        });
    }
    go_on(alloc, lp, before, table, room)
}

// The table of turns where these came to something good, else turns on its basis in a clean table.
fn unless_good(
    alloc: Global,
    lp: &StageLp,
    answer: Option<Answer>,
    table: WarmTable,
    room: &mut WorkRoom,
) -> Result<Attempt, Memory>
    requires proper { IsProper lp.now }
    requires fits { Fits table lp.now }
    requires room { IsRoomy room.old table }
    ensures attempt { IfOk result (λ attempt. attempt ≡ unless_good lp.now answer table) }
    ensures fits { IfOk result (λ attempt. IfSome attempt.table (λ t. Fits t lp.now)) }
{
    if !is_good(&answer, table.weak) {
        return go_restored(alloc, lp, answer, table, room);
    }
    Ok(Attempt {
        answer,
        good: true,
        table: Some(table),
    })
}

// Turns on the table of a chain.
#[tactic(auto, using(crate::proofs::Trying::warm_on))]
fn go_warm(
    alloc: Global,
    lp: &StageLp,
    mut table: WarmTable,
    room: &mut WorkRoom,
) -> Result<Attempt, Memory>
    requires proper { IsProper lp.now }
    requires fits { Fits table lp.now }
    ensures attempt { IfOk result (λ attempt. attempt ≡ warm_attempt lp.now (go_of lp.now table)) }
    ensures fits { IfOk result (λ attempt. IfSome attempt.table (λ t. Fits t lp.now)) }
{
    let answer = go(alloc, lp, &mut table, room)?;
    unless_good(alloc, lp, answer, table, room)
}

// Turns on the table of a chain, if it has one.
fn by_chain(
    alloc: Global,
    lp: &StageLp,
    table: Option<WarmTable>,
    room: &mut WorkRoom,
) -> Result<Attempt, Memory>
    requires proper { IsProper lp.now }
    requires fits { IfSome table (λ t. Fits t lp.now) }
    ensures attempt { IfOk result (λ attempt. attempt ≡ by_chain lp.now table) }
    ensures fits { IfOk result (λ attempt. IfSome attempt.table (λ t. Fits t lp.now)) }
{
    match table {
        None => Ok(Attempt {
            answer: None,
            good: false,
            table: None,
        }),
        Some(table) => go_warm(alloc, lp, table, room),
    }
}

// The table, where it is made.
fn where_made(made: bool, table: WarmTable) -> Option<WarmTable>
    ensures { result ≡ (if made then Some table else None) }
{
    if made { Some(table) } else { None }
}

// A table of the own part of a program, widened by the program, whose cuts wait where they may. None where a number is out of
// range.
#[tactic(auto, using(crate::proofs::Trying::made_is, crate::proofs::Trying::made_fits))]
pub(crate) fn widened(
    alloc: Global,
    mut table: WarmTable,
    lp: &StageLp,
) -> Result<Option<WarmTable>, Memory>
    requires proper { IsProper lp.now }
    requires suits { Suits table lp.now }
    ensures table { IfOk result (λ wide. wide ≡ widened lp.now table) }
    ensures fits { IfOk result (λ wide. IfSome wide (λ t. Fits t lp.now)) }
{
    let made = widen(alloc, &mut table, lp)?;
    Ok(where_made(made, table))
}

// Widens the table where no cut waits.
#[tactic(auto, using(crate::proofs::Trying::made_is, crate::proofs::Trying::made_fits))]
fn widened_in_full(
    alloc: Global,
    mut table: WarmTable,
    lp: &StageLp,
) -> Result<Option<WarmTable>, Memory>
    requires proper { IsProper lp.now }
    requires suits { Suits table lp.now }
    ensures table { IfOk result (λ wide. wide ≡ widened_in_full lp.now table) }
    ensures fits { IfOk result (λ wide. IfSome wide (λ t. Fits t lp.now)) }
{
    let made = widen_in_full(alloc, &mut table, lp)?;
    Ok(where_made(made, table))
}

// The table of a program from nothing, with the rows of all cuts.
#[tactic(auto, unfolding(crate::specs::Chains::new_table))]
fn new_table(alloc: Global, lp: &StageLp) -> Result<Option<WarmTable>, Memory>
    requires proper { IsProper lp.now }
    ensures table { IfOk result (λ table. table ≡ new_table lp.now) }
    ensures fits { IfOk result (λ table. IfSome table (λ t. Fits t lp.now)) }
{
    match first(alloc, lp)? {
        None => Ok(None),
        Some(table) => widened_in_full(alloc, table, lp),
    }
}

// Turns on another table, if there is one.
fn try_on(
    alloc: Global,
    lp: &StageLp,
    before: Option<Answer>,
    table: Option<WarmTable>,
    room: &mut WorkRoom,
) -> Result<Attempt, Memory>
    requires proper { IsProper lp.now }
    requires fits { IfSome table (λ t. Fits t lp.now) }
    ensures attempt { IfOk result (λ attempt. attempt ≡ tried lp.now before table) }
    ensures fits { IfOk result (λ attempt. IfSome attempt.table (λ t. Fits t lp.now)) }
{
    match table {
        None => Ok(Attempt {
            answer: before,
            good: false,
            table: None,
        }),
        Some(table) => go_on(alloc, lp, before, table, room),
    }
}

// Turns on a table from nothing. The answer before stays where they have none.
fn anew(
    alloc: Global,
    lp: &StageLp,
    before: Option<Answer>,
    room: &mut WorkRoom,
) -> Result<Attempt, Memory>
    requires proper { IsProper lp.now }
    ensures attempt { IfOk result (λ attempt. attempt ≡ tried lp.now before (new_table lp.now)) }
    ensures fits { IfOk result (λ attempt. IfSome attempt.table (λ t. Fits t lp.now)) }
{
    let table = new_table(alloc, lp)?;
    try_on(alloc, lp, before, table, room)
}

// Turns on a table from nothing, where nothing good was found.
fn then_anew(
    alloc: Global,
    lp: &StageLp,
    before: Attempt,
    room: &mut WorkRoom,
) -> Result<Attempt, Memory>
    requires proper { IsProper lp.now }
    requires fits { IfSome before.table (λ t. Fits t lp.now) }
    ensures attempt { IfOk result (λ attempt. attempt ≡ then_anew lp.now before) }
    ensures fits { IfOk result (λ attempt. IfSome attempt.table (λ t. Fits t lp.now)) }
{
    if before.good {
        return Ok(before);
    }
    anew(alloc, lp, before.answer, room)
}

// The answer where nothing was found out.
#[tactic(auto, unfolding(crate::specs::Chains::stuck_answer))]
fn stuck(alloc: Global, lp: &StageLp) -> Result<Answer, Memory>
    ensures { IfOk result (λ answer. answer ≡ stuck_answer lp.now) }
{
    let point = lp.lows(alloc)?;
    Ok(Answer {
        kind: Kind::Stuck,
        point,
        duals: lp.zeros(alloc),
    })
}

// The answer in wide numbers, which is asked for where nothing good was found.
fn wide_unless(alloc: Global, lp: &StageLp, good: bool) -> Result<Option<Answer>, Memory>
    requires proper { IsProper lp.now }
    ensures { IfOk result (λ answer. answer ≡ wide_unless good lp.now) }
{
    if good {
        return Ok(None);
    }
    wide(alloc, lp)
}

// The answer in wide numbers, else that of attempts.
fn or_stuck(
    alloc: Global,
    lp: &StageLp,
    wide: Option<Answer>,
    answer: Option<Answer>,
) -> Result<Answer, Memory>
    ensures { IfOk result (λ found. found ≡ or_stuck lp.now wide answer) }
{
    match wide.or(answer) {
        Some(answer) => Ok(answer),
        None => stuck(alloc, lp),
    }
}

// Lets go of the table of attempts, but where their answer stays.
fn leave(attempt: &mut Attempt, wide: &Option<Answer>)
    ensures { attempt.new ≡ record attempt.old { table = table_left wide.now attempt.old.answer attempt.old.table } }
{
    if wide.is_some() || attempt.answer.is_none() {
        attempt.table = None;
    }
}

// The answer of attempts, or the one in wide numbers where they came to nothing good. The table that is left is the chain's.
#[tactic(auto, using(crate::proofs::Trying::left_fits))]
fn resort(alloc: Global, lp: &StageLp, attempt: &mut Attempt) -> Result<Answer, Memory>
    requires proper { IsProper lp.now }
    requires fits { IfSome attempt.old.table (λ t. Fits t lp.now) }
    ensures answer { IfOk result (λ found. (found, attempt.new.table) ≡ last_resort lp.now attempt.old) }
    ensures fits { OnOk result (IfSome attempt.new.table (λ t. Fits t lp.now)) }
{
    let wide = wide_unless(alloc, lp, attempt.good)?;
    leave(attempt, &wide);
    or_stuck(alloc, lp, wide, attempt.answer.take())
}

// Gives that answer, with that table.
fn resorted(
    alloc: Global,
    lp: &StageLp,
    mut attempt: Attempt,
) -> Result<(Answer, Option<WarmTable>), Memory>
    requires proper { IsProper lp.now }
    requires fits { IfSome attempt.table (λ t. Fits t lp.now) }
    ensures answer { IfOk result (λ found. found ≡ last_resort lp.now attempt) }
    ensures fits { IfOk result (λ found. IfSome found.1 (λ t. Fits t lp.now)) }
{
    let answer = resort(alloc, lp, &mut attempt)?;
    Ok((answer, attempt.table))
}

/// The answer to a program of a chain that has this table, if it has one, and the table that it has then. [`Memory`]
/// where memory was refused.
#[tactic(auto, unfolding(crate::specs::Chains::next_of_chain))]
pub(crate) fn next_answer(
    alloc: Global,
    lp: &StageLp,
    table: Option<WarmTable>,
    room: &mut WorkRoom,
) -> Result<(Answer, Option<WarmTable>), Memory>
    requires proper { IsProper lp.now }
    requires fits { IfSome table (λ t. Fits t lp.now) }
    ensures answer { IfOk result (λ found. found ≡ next_of_chain table lp.now) }
    ensures fits { IfOk result (λ found. IfSome found.1 (λ t. Fits t lp.now)) }
{
    let warm = by_chain(alloc, lp, table, room)?;
    let found = then_anew(alloc, lp, warm, room)?;
    resorted(alloc, lp, found)
}
