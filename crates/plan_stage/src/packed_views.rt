// The cuts of a node's successors, side by side, as a stage problem sees them.
ghost use Rattle.std.specs.Prelude.{◌≡◌, ◌<◌, length, map, All, IfOk, IfSome};
ghost use Rattle.theory.specs.Pools.{pool};
ghost use Rattle.cut_pool.specs.FlatCuts.{packed_cut};
ghost use Rattle.lp_program.specs.Packed.{rows_of, IsView};
ghost use Rattle.plan_stage.specs.Stage.{cut_rows};
ghost use Rattle.plan_stage.specs.Given.{AreNodePartsWithin};

use crate::outs::outs_in_order;
use crate::stages::StageNode;
use base_num::{List, Memory};
use cut_pool::Pools;
use lp_program::{PackedCuts, PackedView};
use std::alloc::Global;

// The cuts of some nodes side by side; none where the pools do not keep all of them.
fn packed_cuts<'a>(
    alloc: Global,
    pools: &'a Pools,
    successors: &[u32],
) -> Result<Option<List<PackedCuts<'a>>>, Memory>
    requires { All (λ m. m < length pools.now.lists) successors.now }
    ensures { IfOk result (λ found. IfSome found (λ cuts. cuts ≡ map (λ m. map packed_cut (pool pools.now.lists m)) successors.now)) }
{
    let mut found = List::from_vec(Vec::with_capacity(alloc, successors.len())?);
    for successor in successors {
        match pools.packed(*successor as usize) {
            Some(cuts) => found.push(cuts)?,
            None => return Ok(None),
        }
    }
    Ok(Some(found))
}

/// The cuts of a node's successors side by side; none where the pools do not keep all of them. [`Memory`] where memory was
/// refused.
pub(crate) fn packed_view<'a>(
    alloc: Global,
    stage: &StageNode,
    pools: &'a Pools,
) -> Result<Option<PackedView<'a>>, Memory>
    requires { AreNodePartsWithin pools.now.lists stage.now.node.now stage.now.subproblem.now }
    ensures cuts { IfOk result (λ found. IfSome found (λ v. rows_of v ≡ cut_rows stage.now.subproblem.now pools.now.lists (length stage.now.subproblem.now.decisions) stage.now.node.now.successors)) }
    ensures view { IfOk result (λ found. IfSome found IsView) }
{
    let Some(cuts) = packed_cuts(alloc, pools, stage.node.successors.as_slice())? else {
        return Ok(None);
    };
    Ok(Some(PackedView {
        outs: outs_in_order(alloc, stage.subproblem)?,
        first: stage.subproblem.decisions.len() as u32,
        cuts,
    }))
}
