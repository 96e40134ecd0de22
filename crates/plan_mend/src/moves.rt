// Moves of single decisions that bring a row nearer to its sides.
ghost use Rattle.std.specs.Ordering.{int_eq};
ghost use Rattle.std.specs.Prelude.{◌≡◌, ◌≢◌, ◌+◌, ◌<◌, ◌≤◌, ◌^◌, ◌++◌, pos, ◌+ℤ◌, ◌*ℤ◌, int_lt, int_le, ◌&&◌, true, false, length, get_or, nat_abs, IfOk, OnOk};
ghost use Rattle.theory.specs.Problem.{S};
ghost use Rattle.base_num.specs.Sums.{entry};
ghost use Rattle.plan_mend.specs.Moves.{may_move, moved_decision, is_harmed, harm_from, is_other, move_of, moves_by, both_moves, moves_at, moves_of};
ghost use Rattle.plan_mend.specs.Stages.{frame_at, IsNodeStage, AreDecisionsInside, AreSameBut};

use crate::amounts::{Amount, directed, reaching, short_of};
use crate::search::{Move, Search, put};
use crate::stage::{
    MendedStage, box_at, cost_at, has_term, is_met, miss_at, stage_row_count, terms_at,
};
use base_num::{List, Memory, copied};
use plan_forward::scaled;
use std::alloc::Global;

/// A row for whose sake decisions move, on a level of a search.
#[derive(Clone, Copy)]
struct Aim<'a> {
    stage: &'a MendedStage<'a>,
    search: &'a Search,
    /// Rows that a move harms can be fixed below.
    deep: bool,
    row: u32,
}

/// The decision of a number, 0 where there is none.
pub(crate) fn number_at(numbers: &[i128], at: u32) -> i128
    ensures { result ≡ entry numbers.now at }
{
    match numbers.get(at as usize) {
        Some(number) => *number,
        None => 0,
    }
}

/// Tells whether a decision is held; one that is not there is.
fn is_held(held: &[bool], at: u32) -> bool
    ensures { result ≡ get_or held.now at true }
{
    match held.get(at as usize) {
        Some(held) => *held,
        None => true,
    }
}

/// Tells whether the value of a decision is inside its box, which is no point.
fn is_inside(bounds: (i64, i64), number: i128) -> bool
    ensures { result ≡ int_lt bounds.0 bounds.1 && (int_le (pos S *ℤ bounds.0) number && int_le number (pos S *ℤ bounds.1)) }
{
    bounds.0 < bounds.1 && scaled(bounds.0) <= number && number <= scaled(bounds.1)
}

/// Gives the value of a decision after a move.
pub(crate) fn moved_to(number: i128, amount: i128) -> i128
    requires number { nat_abs number ≤ 2 ^ 64 }
    requires amount { nat_abs amount ≤ 2 ^ 116 }
    ensures { result ≡ number +ℤ amount }
{
    number + amount
}

/// Tells whether a decision may move by so much: it is not held, and stays in its box, which is no point.
pub(crate) fn may_move(stage: &MendedStage, search: &Search, at: u32, amount: i128) -> bool
    requires stage { IsNodeStage stage.now }
    requires inside { AreDecisionsInside stage.now search.now.numbers }
    requires small { nat_abs amount ≤ 2 ^ 116 }
    ensures value { result ≡ may_move (frame_at stage.now) search.now at amount }
    ensures small { result ≡ true → nat_abs amount ≤ 2 ^ 66 }
    ensures number { result ≡ true → nat_abs (entry search.now.numbers at) ≤ 2 ^ 64 }
    ensures inside { result ≡ true → AreDecisionsInside stage.now (moved_decision search.now.numbers at amount) }
{
    let _ = stage.problem.parts();
    let _ = stage.problem.sub(stage.node);
    !is_held(search.held.as_slice(), at)
        && is_inside(
            box_at(stage, at),
            moved_to(number_at(search.numbers.as_slice(), at), amount),
        )
}

/// A copy of decisions with one of them moved.
fn moved(alloc: Global, numbers: &[i128], at: u32, amount: i128) -> Result<List<i128>, Memory>
    requires small { nat_abs amount ≤ 2 ^ 116 }
    requires number { nat_abs (entry numbers.now at) ≤ 2 ^ 64 }
    ensures { IfOk result (λ found. found ≡ moved_decision numbers.now at amount) }
{
    let mut found = copied(alloc, numbers)?;
    put(
        &mut found,
        at as usize,
        moved_to(number_at(numbers, at), amount),
    );
    Ok(found)
}

/// Tells whether a row has to be met for the sake of another one, and is not met afterwards.
pub(crate) fn is_harmed(
    stage: &MendedStage,
    row: u32,
    before: &[i128],
    after: &[i128],
    other: u32,
) -> bool
    requires stage { IsNodeStage stage.now }
    requires before { AreDecisionsInside stage.now before.now }
    requires after { AreDecisionsInside stage.now after.now }
    requires there { other < length (frame_at stage.now).rows }
    ensures { result ≡ is_harmed (frame_at stage.now) row before.now after.now other }
{
    (other == row || is_met(stage, before, other)) && !is_met(stage, after, other)
}

/// Tells whether a row is harmed where one decision alone was moved. A row without a term of it is met as before.
fn is_harmed_by(
    stage: &MendedStage,
    row: u32,
    before: &[i128],
    after: &[i128],
    at: u32,
    other: u32,
) -> bool
    requires stage { IsNodeStage stage.now }
    requires before { AreDecisionsInside stage.now before.now }
    requires after { AreDecisionsInside stage.now after.now }
    requires moved { AreSameBut at before.now after.now }
    requires there { other < length (frame_at stage.now).rows }
    ensures { result ≡ is_harmed (frame_at stage.now) row before.now after.now other }
{
    (other == row || has_term(stage, other, at)) && is_harmed(stage, row, before, after, other)
}

/// Counts the rows that are harmed where one decision alone was moved.
fn harm(stage: &MendedStage, row: u32, before: &[i128], after: &[i128], at: u32) -> u32
    requires stage { IsNodeStage stage.now }
    requires before { AreDecisionsInside stage.now before.now }
    requires after { AreDecisionsInside stage.now after.now }
    requires moved { AreSameBut at before.now after.now }
    ensures { result ≡ harm_from (frame_at stage.now) row before.now after.now 0 (length (frame_at stage.now).rows) }
{
    let mut count = 0;
    for other in 0..stage_row_count(stage) {
        if is_harmed_by(stage, row, before, after, at, other) {
            count += 1;
        }
    }
    count
}

/// Gives the cost of a move.
fn product(cost: i64, amount: i128) -> i128
    requires cost { nat_abs cost ≤ 2 ^ 40 }
    requires amount { nat_abs amount ≤ 2 ^ 66 }
    ensures { result ≡ cost *ℤ amount }
{
    i128::from(cost) * amount
}

/// Builds a move of a decision for the sake of a row, with its harm and its cost.
fn move_of(
    alloc: Global,
    stage: &MendedStage,
    search: &Search,
    row: u32,
    at: u32,
    amount: i128,
) -> Result<Move, Memory>
    requires stage { IsNodeStage stage.now }
    requires inside { AreDecisionsInside stage.now search.now.numbers }
    requires small { nat_abs amount ≤ 2 ^ 66 }
    requires stays { AreDecisionsInside stage.now (moved_decision search.now.numbers at amount) }
    ensures { IfOk result (λ own. own ≡ move_of (frame_at stage.now) search.now row at amount) }
{
    let _ = stage.problem.parts();
    let _ = stage.problem.sub(stage.node);
    let numbers = search.numbers.as_slice();
    let after = moved(alloc, numbers, at, amount)?;
    Ok(Move {
        decision: at,
        amount: Amount::new(amount),
        harm: harm(stage, row, numbers, after.as_slice(), at),
        cost: product(cost_at(stage, at), amount),
    })
}

/// Puts a move behind others, where it is allowed; where rows below cannot be fixed, only if it harms none.
fn push_move(
    alloc: Global,
    moves: &mut List<Move>,
    aim: &Aim,
    at: u32,
    amount: i128,
) -> Result<(), Memory>
    requires stage { IsNodeStage aim.now.stage.now }
    requires inside { AreDecisionsInside aim.now.stage.now aim.now.search.now.numbers }
    requires small { nat_abs amount ≤ 2 ^ 116 }
    ensures { OnOk result (moves.new ≡ moves.old ++ moves_by (frame_at aim.now.stage.now) aim.now.deep aim.now.search.now aim.now.row at amount) }
{
    let Aim {
        stage,
        search,
        deep,
        row,
    } = *aim;
    if may_move(stage, search, at, amount) {
        let own = move_of(alloc, stage, search, row, at, amount)?;
        if deep || own.harm == 0 {
            moves.push(own)?;
        }
    }
    Ok(())
}

/// Tells whether falling short of a side is another move than going beyond it.
fn is_other(least: u128, most: u128) -> bool
    ensures { result ≡ is_other least most }
{
    least != 0 && least != most
}

/// Tells whether a factor is 0.
fn is_zero(factor: i64) -> bool
    ensures value { result ≡ int_eq factor (pos 0) }
    ensures some { result ≡ false → factor ≢ pos 0 }
{
    factor == 0
}

/// Appends the moves of a term of a row: one beyond the miss of the row, and one short of it where that is another.
fn push_both(
    alloc: Global,
    moves: &mut List<Move>,
    aim: &Aim,
    miss: i128,
    term: (u32, i64),
) -> Result<(), Memory>
    requires stage { IsNodeStage aim.now.stage.now }
    requires inside { AreDecisionsInside aim.now.stage.now aim.now.search.now.numbers }
    requires small { nat_abs miss ≤ 2 ^ 115 }
    requires some { term.1 ≢ pos 0 }
    ensures { OnOk result (moves.new ≡ moves.old ++ both_moves (frame_at aim.now.stage.now) aim.now.deep aim.now.search.now aim.now.row miss term) }
{
    let (at, factor) = term;
    let most = reaching(miss, factor);
    let beyond = directed(miss, factor, most);
    push_move(alloc, moves, aim, at, beyond)?;
    let least = short_of(miss, factor);
    if is_other(least, most) {
        let short = directed(miss, factor, least);
        push_move(alloc, moves, aim, at, short)?;
    }
    Ok(())
}

/// Puts the moves of a term of a row behind others, none where its factor is 0.
fn push_moves(
    alloc: Global,
    moves: &mut List<Move>,
    aim: &Aim,
    miss: i128,
    term: (u32, i64),
) -> Result<(), Memory>
    requires stage { IsNodeStage aim.now.stage.now }
    requires inside { AreDecisionsInside aim.now.stage.now aim.now.search.now.numbers }
    requires small { nat_abs miss ≤ 2 ^ 115 }
    ensures { OnOk result (moves.new ≡ moves.old ++ moves_at (frame_at aim.now.stage.now) aim.now.deep aim.now.search.now aim.now.row miss term) }
{
    if is_zero(term.1) {
        return Ok(());
    }
    push_both(alloc, moves, aim, miss, term)
}

/// The moves of single decisions for the sake of a row, as its terms list them.
pub(crate) fn moves_of(
    alloc: Global,
    stage: &MendedStage,
    search: &Search,
    deep: bool,
    row: u32,
) -> Result<List<Move>, Memory>
    requires stage { IsNodeStage stage.now }
    requires inside { AreDecisionsInside stage.now search.now.numbers }
    requires there { row < length (frame_at stage.now).rows }
    ensures { IfOk result (λ moves. moves ≡ moves_of (frame_at stage.now) deep search.now row) }
{
    let miss = miss_at(stage, search.numbers.as_slice(), row);
    let aim = Aim {
        stage,
        search,
        deep,
        row,
    };
    let mut moves = List::new(alloc);
    for term in terms_at(stage, row) {
        push_moves(alloc, &mut moves, &aim, miss, *term)?;
    }
    Ok(moves)
}
