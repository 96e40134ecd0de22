// The columns of a stage problem: its decisions, and the cost of the future at each successor.
ghost use Rattle.std.specs.Prelude.{◌≡◌, ◌<◌, ◌≤◌, ◌^◌, ◌++◌, true, length, map, nat_lt, nat_abs, All, IfOk, OnOk};
ghost use Rattle.std.specs.List.{list_all};
ghost use Rattle.theory.specs.Pools.{pool};
ghost use Rattle.plan_stage.specs.Stage.{decision_column, future_column, future_columns, box_maximum_of};
ghost use Rattle.plan_stage.specs.OutBoxes.{out_boxes};
ghost use Rattle.plan_stage.specs.Spans.{Spans};

use crate::cut_values::{greatest_value, least_value, most_from};
use crate::out_boxes::out_boxes;
use crate::scales::{scaled, weighted, whole};
use crate::stage_memory::StageMemory;
use base_num::{List, Memory};
use cut_pool::{OutBox, Pools};
use lp_program::Column;
use problem::{Decision, Subproblem};
use std::alloc::Global;

fn decision_column(weight: u32, decision: &Decision) -> Column
    ensures { result ≡ decision_column weight decision.now }
{
    Column {
        low: whole(decision.low),
        high: whole(decision.high),
        cost: weighted(weight, decision.cost),
    }
}

/// The decisions' columns, whose costs count as often as the weight says, with room for those of so many successors.
pub(crate) fn decision_columns(
    alloc: Global,
    weight: u32,
    decisions: &[Decision],
    successors: usize,
) -> Result<List<Column>, Memory>
    ensures { IfOk result (λ found. found ≡ map (decision_column weight) decisions.now) }
{
    let room = decisions.len().saturating_add(successors);
    let mut found = List::from_vec(Vec::with_capacity(alloc, room)?);
    for decision in decisions {
        found.push(decision_column(weight, decision))?;
    }
    Ok(found)
}

/// Gives the greatest value of a successor's cuts over the states that may leave the stage: the box maximum that the pools keep, and
/// where they keep none, that of a walk over the cuts.
fn box_maximum(subproblem: &Subproblem, boxes: &[OutBox], pools: &Pools, successor: usize) -> i128
    requires there { successor < length pools.now.lists }
    requires some { 0 < length (pool pools.now.lists successor) }
    requires spans { All (Spans subproblem.now) (pool pools.now.lists successor) }
    requires few { length subproblem.now.outs ≤ 50 }
    requires boxes { boxes.now ≡ out_boxes subproblem.now }
    ensures value { result ≡ box_maximum_of subproblem.now (pool pools.now.lists successor) }
    ensures small { nat_abs result ≤ 2 ^ 110 }
{
    if let Some(box_maximum) = pools.box_maximum(successor, boxes) {
        return box_maximum;
    }
    let cuts = pools.cuts(successor);
    let first = greatest_value(subproblem, boxes, &cuts[0]);
    most_from(subproblem, boxes, first, cuts)
}

/// The cost of the future at a successor with a weight.
fn future_column(
    subproblem: &Subproblem,
    boxes: &[OutBox],
    weight: u32,
    pools: &Pools,
    successor: usize,
) -> Column
    requires there { successor < length pools.now.lists }
    requires some { 0 < length (pool pools.now.lists successor) }
    requires spans { All (Spans subproblem.now) (pool pools.now.lists successor) }
    requires few { length subproblem.now.outs ≤ 50 }
    requires known { list_all (λ o. nat_lt o (length subproblem.now.decisions)) subproblem.now.outs ≡ true }
    requires boxes { boxes.now ≡ out_boxes subproblem.now }
    ensures { result ≡ future_column subproblem.now weight (pool pools.now.lists successor) }
{
    let base = &pools.cuts(successor)[0];
    Column {
        low: scaled(least_value(subproblem, base)),
        high: scaled(box_maximum(subproblem, boxes, pools, successor)),
        cost: whole(i64::from(weight)),
    }
}

/// Appends the columns of the successors, in the memory that is lent.
pub(crate) fn push_future_columns(
    memory: &mut StageMemory,
    columns: &mut List<Column>,
    subproblem: &Subproblem,
    pools: &Pools,
    successors: &[u32],
    weights: &[u32],
) -> Result<(), Memory>
    requires counts { length weights.now ≡ length successors.now }
    requires there { All (λ m. m < length pools.now.lists) successors.now }
    requires some { All (λ m. 0 < length (pool pools.now.lists m)) successors.now }
    requires spans { All (λ m. All (Spans subproblem.now) (pool pools.now.lists m)) successors.now }
    requires few { length subproblem.now.outs ≤ 50 }
    requires known { list_all (λ o. nat_lt o (length subproblem.now.decisions)) subproblem.now.outs ≡ true }
    ensures { OnOk result (columns.new ≡ columns.old ++ future_columns subproblem.now pools.now.lists successors.now weights.now) }
{
    let alloc = memory.alloc();
    let boxes = out_boxes(memory.boxes.take(alloc), subproblem)?;
    for i in 0..successors.len() {
        let successor = successors[i] as usize;
        let column = future_column(subproblem, boxes.as_slice(), weights[i], pools, successor);
        columns.push(column)?;
    }
    memory.boxes.give(boxes);
    Ok(())
}
