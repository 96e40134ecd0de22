// Parts of a stage problem, each done many times.
ghost use Rattle.std.specs.Prelude.{◌<◌, length, IfOk};
ghost use Rattle.plan_stage.specs.Nodes.{IsStageAt};
ghost use Rattle.test_measure.specs.StageMoments.{MayStand};
ghost use Rattle.cut_pool.specs.AtNodes.{PoolsFit};

use crate::fault::RowFault;
use crate::iterations::base_pools;
use crate::stage_answers::answer;
use crate::stage_cuts::add_cuts;
use crate::stage_moments::{Moment, first, last};
use crate::stage_texts::{push_certificate, push_program};
use crate::words::count;
use base_num::Memory;
use cut_pool::{Pools, Spares};
use lp_program::{Answer, StageLp};
use plan_answer::certificate_of_duals;
use plan_stage::{StageMemory, set_sides, stage_problem};
use problem::Problem;
use std::alloc::Global;
use theory::Certificate;

/// How many cuts there are beside the base cut, and how often each part is done beside once.
#[derive(Clone, Copy)]
struct Counts {
    cuts: u32,
    builds: u32,
    sides: u32,
    settles: u32,
}

/// The node whose stage problem is measured.
const NODE: u32 = 0;

/// Builds the stage problem at a moment, in the workspace's memory.
fn stage_at<'a>(
    memory: &mut StageMemory,
    problem: &Problem,
    pools: &'a Pools,
    moment: &Moment,
) -> Result<StageLp<'a>, Memory>
    requires fit { PoolsFit problem.now pools.now.lists }
    requires moment { MayStand problem.now 0 moment.now.values.now moment.now.state }
    ensures { IfOk result (IsStageAt problem.now 0) }
{
    stage_problem(
        memory,
        problem,
        pools,
        NODE,
        moment.values,
        moment.state.as_slice(),
    )
}

/// The stage problem, built so many times and once, each time in the memory of the one before, as along a path of
/// training.
fn built<'a>(
    memory: &mut StageMemory,
    problem: &Problem,
    pools: &'a Pools,
    moment: &Moment,
    builds: u32,
) -> Result<StageLp<'a>, Memory>
    requires fit { PoolsFit problem.now pools.now.lists }
    requires moment { MayStand problem.now 0 moment.now.values.now moment.now.state }
    ensures { IfOk result (IsStageAt problem.now 0) }
{
    for _ in 0..builds {
        let lp = stage_at(memory, problem, pools, moment)?;
        memory.give_back(lp);
    }
    stage_at(memory, problem, pools, moment)
}

/// Gives the stage problem the sides of a moment.
fn turn_to(problem: &Problem, moment: &Moment, lp: &mut StageLp)
    requires moment { MayStand problem.now 0 moment.now.values.now moment.now.state }
    requires stage { IsStageAt problem.now 0 lp.old }
    ensures { IsStageAt problem.now 0 lp.new }
{
    set_sides(problem, NODE, moment.values, moment.state.as_slice(), lp);
}

/// Gives the stage problem the sides of one moment and of the other, so many times in turn.
fn turned(problem: &Problem, first: &Moment, last: &Moment, sides: u32, lp: &mut StageLp)
    requires first { MayStand problem.now 0 first.now.values.now first.now.state }
    requires last { MayStand problem.now 0 last.now.values.now last.now.state }
    requires stage { IsStageAt problem.now 0 lp.old }
{
    for turn in 0..sides {
        if turn % 2 == 0 {
            turn_to(problem, last, lp);
        } else {
            turn_to(problem, first, lp);
        }
    }
}

/// The certificate of an answer, settled so many times and once.
fn settled(
    alloc: Global,
    problem: &Problem,
    pools: &Pools,
    answer: &Answer,
    settles: u32,
) -> Result<Certificate, Memory>
    requires known { 0 < length problem.now.parts.nodes }
    requires fit { PoolsFit problem.now pools.now.lists }
{
    let mut spares = Spares::new(alloc);
    for _ in 0..settles {
        certificate_of_duals(alloc, &mut spares, problem, pools, NODE, answer)?;
    }
    certificate_of_duals(alloc, &mut spares, problem, pools, NODE, answer)
}

/// The first successor of the node.
fn successor(problem: &Problem) -> Result<u32, RowFault>
    ensures { IfOk result (λ m. m < length problem.now.parts.nodes) }
{
    let nodes = problem.parts().nodes.as_slice();
    let node = nodes.first().ok_or(RowFault::NoSuccessor)?;
    let successor = *node
        .successors
        .as_slice()
        .first()
        .ok_or(RowFault::NoSuccessor)?;
    if (successor as usize) < nodes.len() {
        Ok(successor)
    } else {
        Err(RowFault::NoSuccessor)
    }
}

/// An answer for so many own rows of a stage problem with so many rows.
fn answer_for(alloc: Global, own: usize, rows: usize) -> Result<Answer, Memory> {
    answer(alloc, own, rows.saturating_sub(own), 1)
}

/// Appends the figures of the certificate of an answer of a stage problem's size.
fn push_settled(
    alloc: Global,
    problem: &Problem,
    pools: &Pools,
    lp: &StageLp,
    settles: u32,
    text: &mut String,
) -> Result<(), RowFault>
    requires known { 0 < length problem.now.parts.nodes }
    requires fit { PoolsFit problem.now pools.now.lists }
{
    let answer = answer_for(alloc, lp.own(), lp.row_count())?;
    let certificate = settled(alloc, problem, pools, &answer, settles)?;
    push_certificate(text, &certificate)
}

/// Appends the figures after each part, at two moments.
fn push_parts(
    memory: &mut StageMemory,
    problem: &Problem,
    pools: &Pools,
    first: &Moment,
    last: &Moment,
    counts: Counts,
    text: &mut String,
) -> Result<(), RowFault>
    requires known { 0 < length problem.now.parts.nodes }
    requires fit { PoolsFit problem.now pools.now.lists }
    requires first { MayStand problem.now 0 first.now.values.now first.now.state }
    requires last { MayStand problem.now 0 last.now.values.now last.now.state }
{
    let alloc = memory.alloc();
    let mut lp = built(memory, problem, pools, first, counts.builds)?;
    push_program(alloc, text, &lp)?;
    turned(problem, first, last, counts.sides, &mut lp);
    push_program(alloc, text, &lp)?;
    push_settled(alloc, problem, pools, &lp, counts.settles, text)
}

/// Gives the figures after each part over pools.
fn stage(
    alloc: Global,
    problem: &Problem,
    pools: &Pools,
    counts: Counts,
) -> Result<String, RowFault>
    requires known { 0 < length problem.now.parts.nodes }
    requires fit { PoolsFit problem.now pools.now.lists }
{
    let first = first(alloc, problem, NODE)?;
    let last = last(alloc, problem, NODE)?;
    let mut memory = StageMemory::new(alloc);
    let mut text = String::new(alloc);
    push_parts(
        &mut memory,
        problem,
        pools,
        &first,
        &last,
        counts,
        &mut text,
    )?;
    Ok(text)
}

fn counts_of(words: &str) -> Result<Counts, RowFault> {
    let mut words = words.split_whitespace();
    Ok(Counts {
        cuts: count(&mut words)?,
        builds: count(&mut words)?,
        sides: count(&mut words)?,
        settles: count(&mut words)?,
    })
}

/// Gives the figures after each part of the first node's stage problem, by the words CUTS BUILDS SIDES SETTLES. So many cuts
/// are put behind the base cut of the node's first successor; the stage problem is built, is given other sides, and an answer
/// of its size is settled, each so often and once.
pub fn measured(alloc: Global, problem: &Problem, words: &str) -> Result<String, RowFault> {
    let counts = counts_of(words)?;
    let node = successor(problem)?;
    let mut pools = base_pools(alloc, problem)?;
    add_cuts(alloc, problem, &mut pools, node, counts.cuts)?;
    stage(alloc, problem, &pools, counts)
}
