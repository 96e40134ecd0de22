// Fixing a row by moves.
ghost use Rattle.std.specs.Prelude.{◌≡◌, ◌<◌, length, IfOk};
ghost use Rattle.plan_mend.specs.Fixing.{begun_where_allowed, ended, fixer_below, harmed_rows_fixed, attempt_move, tried_moves, fixed};
ghost use Rattle.plan_mend.specs.Stages.{frame_at, IsNodeStage, AreDecisionsInside};

use crate::moves::{is_harmed, may_move, moved_to, moves_of, number_at};
use crate::order::ordered;
use crate::search::{Move, Search, put};
use crate::stage::{MendedStage, is_met, stage_row_count};
use base_num::{List, Memory, copied};
use std::alloc::Global;

/// Begins a try where the move is allowed: moves the decision, holds it, and takes one of the tries. Whether it is.
fn begin(stage: &MendedStage, search: &mut Search, own: &Move) -> bool
    requires stage { IsNodeStage stage.now }
    requires inside { AreDecisionsInside stage.now search.old.numbers }
    ensures value { (result, search.new) ≡ begun_where_allowed (frame_at stage.now) search.old own.now }
    ensures inside { AreDecisionsInside stage.now search.new.numbers }
{
    let amount = own.amount.number();
    if !may_move(stage, search, own.decision, amount) {
        return false;
    }
    let number = number_at(search.numbers.as_slice(), own.decision);
    put(
        &mut search.numbers,
        own.decision as usize,
        moved_to(number, amount),
    );
    put(&mut search.held, own.decision as usize, true);
    search.tries = search.tries.saturating_sub(1);
    true
}

/// Ends a try: the decision is held no longer, and where a row could not be fixed the decisions are as before.
fn end(search: &mut Search, before: List<i128>, own: &Move, done: bool)
    ensures { (done, search.new) ≡ ended before own.now (done, search.old) }
{
    put(&mut search.held, own.decision as usize, false);
    if !done {
        search.numbers = before;
    }
}

/// Fixes a row that a move harmed, on the level below; on the last level there is none.
#[cycle(fixing)]
fn fix_below(
    alloc: Global,
    stage: &MendedStage,
    search: &mut Search,
    row: u32,
    depth: u32,
) -> Result<bool, Memory>
    requires stage { IsNodeStage stage.now }
    requires inside { AreDecisionsInside stage.now search.old.numbers }
    requires there { row < length (frame_at stage.now).rows }
    ensures value { IfOk result (λ done. (done, search.new) ≡ fixer_below (frame_at stage.now) depth row search.old) }
    ensures inside { IfOk result (λ done. AreDecisionsInside stage.now search.new.numbers) }
{
    if depth == 0 {
        return Ok(false);
    }
    fix(alloc, stage, search, row, depth - 1)
}

/// Fixes each row that a move harmed, in order.
#[cycle(fixing)]
fn keep_rows(
    alloc: Global,
    stage: &MendedStage,
    search: &mut Search,
    row: u32,
    depth: u32,
    before: &[i128],
) -> Result<bool, Memory>
    requires stage { IsNodeStage stage.now }
    requires inside { AreDecisionsInside stage.now search.old.numbers }
    requires before { AreDecisionsInside stage.now before.now }
    ensures value { let f = frame_at stage.now in
        IfOk result (λ done. (done, search.new) ≡ harmed_rows_fixed f (fixer_below f depth) row before.now 0 (length f.rows) search.old) }
    ensures inside { IfOk result (λ done. AreDecisionsInside stage.now search.new.numbers) }
{
    for other in 0..stage_row_count(stage) {
        if is_harmed(stage, row, before, search.numbers.as_slice(), other)
            && !fix_below(alloc, stage, search, other, depth)?
        {
            return Ok(false);
        }
    }
    Ok(true)
}

/// Tries a move: it is kept where each row that it harms can be fixed, and else undone.
#[cycle(fixing)]
fn try_move(
    alloc: Global,
    stage: &MendedStage,
    search: &mut Search,
    row: u32,
    depth: u32,
    own: &Move,
) -> Result<bool, Memory>
    requires stage { IsNodeStage stage.now }
    requires inside { AreDecisionsInside stage.now search.old.numbers }
    ensures value { let f = frame_at stage.now in
        IfOk result (λ done. (done, search.new) ≡ attempt_move f (fixer_below f depth) row own.now search.old) }
    ensures inside { IfOk result (λ done. AreDecisionsInside stage.now search.new.numbers) }
{
    let before = copied(alloc, search.numbers.as_slice())?;
    if !begin(stage, search, own) {
        return Ok(false);
    }
    let done = keep_rows(alloc, stage, search, row, depth, before.as_slice())?;
    end(search, before, own, done);
    Ok(done)
}

/// Tries moves in order until one is kept or no tries are left.
#[cycle(fixing)]
fn try_moves(
    alloc: Global,
    stage: &MendedStage,
    search: &mut Search,
    row: u32,
    depth: u32,
    moves: &[Move],
) -> Result<bool, Memory>
    requires stage { IsNodeStage stage.now }
    requires inside { AreDecisionsInside stage.now search.old.numbers }
    ensures value { let f = frame_at stage.now in
        IfOk result (λ done. (done, search.new) ≡ tried_moves f (fixer_below f depth) row moves.now search.old) }
    ensures inside { IfOk result (λ done. AreDecisionsInside stage.now search.new.numbers) }
{
    for own in moves {
        if search.tries == 0 {
            return Ok(false);
        }
        if try_move(alloc, stage, search, row, depth, own)? {
            return Ok(true);
        }
    }
    Ok(false)
}

/// Fixes a row: moves single decisions until it is met and no row that was met is missed. Whether that could be done; where
/// not, the decisions are as before. On level 0 moves harm no row, and `depth` levels are left below.
#[cycle(fixing)]
pub(crate) fn fix(
    alloc: Global,
    stage: &MendedStage,
    search: &mut Search,
    row: u32,
    depth: u32,
) -> Result<bool, Memory>
    requires stage { IsNodeStage stage.now }
    requires inside { AreDecisionsInside stage.now search.old.numbers }
    requires there { row < length (frame_at stage.now).rows }
    ensures value { IfOk result (λ done. (done, search.new) ≡ fixed (frame_at stage.now) depth row search.old) }
    ensures inside { IfOk result (λ done. AreDecisionsInside stage.now search.new.numbers) }
{
    if is_met(stage, search.numbers.as_slice(), row) {
        return Ok(true);
    }
    let listed = moves_of(alloc, stage, search, depth > 0, row)?;
    let moves = ordered(alloc, listed.as_slice())?;
    try_moves(alloc, stage, search, row, depth, moves.as_slice())
}
