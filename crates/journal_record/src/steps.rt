// The steps of an entry, read from the front of bytes, with the bytes behind them.
ghost use Rattle.std.specs.Prelude.{◌≡◌, ◌<◌, length, Some, None};
ghost use Rattle.journal_record.specs.Shape.{leads_on, may_stand, sizes_of};
ghost use Rattle.journal_record.specs.Reading.{ReadingGives, entry_node_at, entry_step_at, entry_steps_at};

use crate::certificates::certificates;
use crate::fault::ReadFault;
use crate::numbers::u16_at;
use crate::sizes::sizes_of;
use base_num::List;
use cut_pool::{EntryStep, Spares};
use problem::Problem;
use std::alloc::Global;

// Tells whether the node leads to the one of the step before.
#[tactic(auto, using(crate::proofs::NodeParts::successors_are))]
fn leads_on(problem: &Problem, node: u32, before: Option<u32>) -> bool
    requires { node < length problem.now.parts.nodes }
    ensures { result ≡ leads_on problem.now node before }
{
    match before {
        None => true,
        Some(next) => problem.node(node).successors.as_slice().contains(&next),
    }
}

// Tells whether this may be the node of a step, after the node of the step before.
fn may_stand(problem: &Problem, before: Option<u32>, last: bool, node: u32) -> bool
    ensures { result ≡ may_stand problem.now before last node }
{
    (node as usize) < problem.parts().nodes.len()
        && leads_on(problem, node, before)
        && (!last || problem.parts().root.as_slice().contains(&node))
}

#[tactic(auto, unfolding(crate::specs::Reading::entry_node_at))]
fn node_at<'a>(
    problem: &Problem,
    before: Option<u32>,
    last: bool,
    bytes: &'a [u8],
) -> Result<(u32, &'a [u8]), ReadFault>
    ensures { ReadingGives (λ x. (x.0, x.1.now)) result (entry_node_at problem.now before last bytes.now) }
{
    let (node, tail) = u16_at(bytes)?;
    let node = node as u32;
    if !may_stand(problem, before, last, node) {
        return Err(ReadFault::Bad { left: bytes.len() });
    }
    Ok((node, tail))
}

#[tactic(auto, unfolding(crate::specs::Reading::entry_step_at))]
fn step<'a>(
    alloc: Global,
    spares: &mut Spares,
    problem: &Problem,
    before: Option<u32>,
    last: bool,
    bytes: &'a [u8],
) -> Result<(EntryStep, &'a [u8]), ReadFault>
    ensures { ReadingGives (λ x. (x.0, x.1.now)) result (entry_step_at problem.now before last bytes.now) }
{
    let (node, tail) = node_at(problem, before, last, bytes)?;
    let (list, tail) = certificates(alloc, spares, sizes_of(problem, node), tail)?;
    Ok((EntryStep { node, list }, tail))
}

// Reads so many steps, of which the last one's node is a successor of the root.
pub(crate) fn steps<'a>(
    alloc: Global,
    spares: &mut Spares,
    problem: &Problem,
    count: usize,
    bytes: &'a [u8],
) -> Result<(List<EntryStep>, &'a [u8]), ReadFault>
    ensures { ReadingGives (λ x. (x.0, x.1.now)) result (entry_steps_at problem.now None count bytes.now) }
{
    let mut found = spares.steps.take(alloc).into_vec();
    found.reserve_exact(count.min(bytes.len() / 2))?;
    let mut before = None;
    let mut tail = bytes;
    for i in 0..count {
        let (step, after) = step(alloc, spares, problem, before, i + 1 == count, tail)?;
        before = Some(step.node);
        found.push(step)?;
        tail = after;
    }
    Ok((List::from_vec(found), tail))
}
