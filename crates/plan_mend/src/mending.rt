// Decisions that meet their rows.
ghost use Rattle.std.specs.Prelude.{◌≡◌, ◌<◌, true, false, length, replicate, IfOk};
ghost use Rattle.problem.specs.Limits.{are_values};
ghost use Rattle.problem.specs.Validated.{subproblem_of};
ghost use Rattle.theory.specs.Problem.{S, node_at};
ghost use Rattle.theory.specs.Tree.{InBox};
ghost use Rattle.theory.specs.View.{problem_of};
ghost use Rattle.cut_pool.specs.AtNodes.{IsStateAt};
ghost use Rattle.plan_mend.specs.Fixing.{all_fixed};
ghost use Rattle.plan_mend.specs.Mending.{fresh_search, all_met, mended_of};
ghost use Rattle.plan_mend.specs.Stages.{node_of_stage, frame_at, IsNodeStage, AreDecisionsInside};

use crate::fixing::fix;
use crate::search::Search;
use crate::stage::{MendedStage, is_met, stage_row_count};
use base_num::{List, Memory, copied};
use problem::Problem;
use std::alloc::Global;

/// The number of moves that may be tried for a node's rows.
const TRIES: u32 = 256;

/// The number of levels of rows that may be fixed below one another.
const LEVELS: u32 = 3;

/// Makes a list for so many decisions, none of which is held.
fn none_held(alloc: Global, count: usize) -> Result<List<bool>, Memory>
    ensures { IfOk result (λ found. found ≡ replicate count false) }
{
    let mut found = List::new(alloc);
    for _made in 0..count {
        found.push(false)?;
    }
    Ok(found)
}

/// A search that begins with these decisions.
fn fresh(alloc: Global, decisions: &[i128]) -> Result<Search, Memory>
    ensures { IfOk result (λ found. found ≡ fresh_search decisions.now) }
{
    let numbers = copied(alloc, decisions)?;
    let held = none_held(alloc, decisions.len())?;
    Ok(Search {
        numbers,
        held,
        tries: TRIES,
    })
}

/// Fixes each row in turn, until one cannot be fixed.
fn fix_all(alloc: Global, stage: &MendedStage, search: &mut Search) -> Result<bool, Memory>
    requires stage { IsNodeStage stage.now }
    requires inside { AreDecisionsInside stage.now search.old.numbers }
    ensures value { let f = frame_at stage.now in
        IfOk result (λ done. (done, search.new) ≡ all_fixed f 0 (length f.rows) search.old) }
    ensures inside { IfOk result (λ done. AreDecisionsInside stage.now search.new.numbers) }
{
    for row in 0..stage_row_count(stage) {
        if !fix(alloc, stage, search, row, LEVELS)? {
            return Ok(false);
        }
    }
    Ok(true)
}

/// Tells whether decisions meet all rows.
fn are_met(stage: &MendedStage, numbers: &[i128]) -> bool
    requires stage { IsNodeStage stage.now }
    requires inside { AreDecisionsInside stage.now numbers.now }
    ensures { result ≡ all_met (node_of_stage stage.now) stage.now.values.now stage.now.state.now numbers.now }
{
    for row in 0..stage_row_count(stage) {
        if !is_met(stage, numbers, row) {
            return false;
        }
    }
    true
}

/// Gives the numbers of a search.
fn numbers_of(search: Search) -> List<i128>
    ensures { result ≡ search.numbers }
{
    let Search { numbers, .. } = search;
    numbers
}

/// Decisions of a node at values of its random variables and an incoming state at scale 2^24 that meet each of its rows
/// exactly, where moves of single decisions lead from the given ones there, and else the given ones; one number per
/// decision, at scale 2^24, in 2^24 times its box. [`Memory`] where memory was refused.
///
/// Each row that is missed is fixed in turn: a decision with a term in it moves as far as the row's side or just short of
/// it, and each row that this harms is fixed the same way, three levels deep. Moves that harm few rows come first, then
/// those of little cost. 256 moves are tried at most.
///
/// There is one value per random variable, each at most 2^40 in absolute value, the state lies in the node's box, and the
/// given decisions lie in theirs.
#[tactic(auto, unfolding(crate::specs::Mending::mended_of))]
pub fn mended(
    alloc: Global,
    problem: &Problem,
    node: u32,
    values: &[i64],
    state: &[i128],
    decisions: List<i128>,
) -> Result<List<i128>, Memory>
    requires known { node < length problem.now.parts.nodes }
    requires values { are_values (subproblem_of problem.now node) values.now ≡ true }
    requires state { IsStateAt problem.now node state.now }
    requires inside { InBox S (node_at (problem_of problem.now) node).decision_low (node_at (problem_of problem.now) node).decision_high decisions }
    ensures value { IfOk result (λ found. found ≡ mended_of (node_at (problem_of problem.now) node) values.now state.now decisions) }
    ensures inside { IfOk result (λ found. InBox S (node_at (problem_of problem.now) node).decision_low (node_at (problem_of problem.now) node).decision_high found) }
{
    let stage = MendedStage {
        problem,
        node,
        values,
        state,
    };
    let mut search = fresh(alloc, decisions.as_slice())?;
    fix_all(alloc, &stage, &mut search)?;
    if are_met(&stage, search.numbers.as_slice()) {
        Ok(numbers_of(search))
    } else {
        Ok(decisions)
    }
}
