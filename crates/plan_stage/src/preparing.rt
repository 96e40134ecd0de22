// Pools that are made ready for the stage problems of all nodes.
ghost use Rattle.std.specs.Prelude.{◌≡◌, ◌<◌, length};
ghost use Rattle.cut_pool.specs.AtNodes.{PoolsFit};

use crate::out_boxes::out_boxes;
use crate::stages::StageNode;
use base_num::{List, Memory};
use cut_pool::Pools;
use problem::Problem;
use std::alloc::Global;

// Makes the cuts of a node's successors ready for its stage problems.
fn prepare_at(alloc: Global, problem: &Problem, pools: &mut Pools, node: u32) -> Result<(), Memory>
    requires known { node < length problem.now.parts.nodes }
    requires fit { PoolsFit problem.now pools.old.lists }
    ensures { pools.new ≡ pools.old }
{
    let stage = StageNode::of(problem, node);
    let boxes = out_boxes(List::new(alloc), stage.subproblem)?;
    for successor in stage.node.successors.as_slice() {
        pools.prepare(alloc, *successor, boxes.as_slice())?;
    }
    Ok(())
}

/// Makes the pools ready for the stage problems of all nodes from now on, so that these are built in less time. Each node's
/// cuts are kept side by side, with those of them that cover the others over the states that may leave a predecessor, and for
/// each of its predecessors the greatest of their values over the states that may leave it. Cuts that are appended later come
/// in. [`Memory`] where memory was refused. The cuts and their room stay in either case.
pub fn prepare(alloc: Global, problem: &Problem, pools: &mut Pools) -> Result<(), Memory>
    requires fit { PoolsFit problem.now pools.old.lists }
    ensures { pools.new ≡ pools.old }
{
    let nodes = problem.parts().nodes.len() as u32;
    for node in 0..nodes {
        prepare_at(alloc, problem, pools, node)?;
    }
    Ok(())
}
