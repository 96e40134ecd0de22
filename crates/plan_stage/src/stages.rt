// The stage problem of a node.
ghost use Rattle.std.specs.Prelude.{◌≡◌, ◌<◌, ◌≤◌, ◌++◌, ℤ, true, List, length, map, Some, IfOk};
ghost use Rattle.problem.specs.Formulas.{successor_total};
ghost use Rattle.problem.specs.Limits.{are_values};
ghost use Rattle.problem.specs.Validated.{subproblem_of};
ghost use Rattle.theory.specs.declared.cut.Cut.{Cut};
ghost use Rattle.cut_pool.specs.AtNodes.{IsStateAt, PoolsFit};
ghost use Rattle.lp_program.specs.Packed.{rows_of, IsView};
ghost use Rattle.lp_program.specs.Proper.{IsProper, IsLike};
ghost use Rattle.plan_stage.specs.Stage.{decision_column, future_columns, own_row, cut_rows, stage_program};
ghost use Rattle.plan_stage.specs.Nodes.{Stands, stage_in, IsStageAt};
ghost use Rattle.plan_stage.specs.Given.{AreOf, AreNodePartsWithin};

use crate::columns::{decision_columns, push_future_columns};
use crate::cut_rows::push_cut_rows;
use crate::own_rows::{push_own_rows, set_own_sides};
use crate::packed_views::packed_view;
use crate::stage_memory::StageMemory;
use crate::written_rows::WrittenRows;
use base_num::{List, Memory};
use cut_pool::Pools;
use lp_program::{Column, LpRow, PackedView, Program, StageLp};
use problem::{Node, Problem, Subproblem};

/// A node with its subproblem.
#[derive(Clone, Copy)]
pub(crate) struct StageNode<'a> {
    pub(crate) node: &'a Node,
    pub(crate) subproblem: &'a Subproblem,
    /// The stop weight and the successors' weights together.
    pub(crate) weight: u32,
}

impl<'a> StageNode<'a> {
    /// The node with a number.
    pub(crate) fn of(problem: &'a Problem, node: u32) -> StageNode<'a>
        requires { node < length problem.now.parts.nodes }
        ensures stands { Stands problem.now node result.node.now result.subproblem.now }
        ensures weight { result.weight ≡ successor_total result.node.now.stop result.node.now.successor_weights }
    {
        StageNode {
            node: &problem.parts().nodes.as_slice()[node as usize],
            subproblem: problem.sub(node),
            weight: problem.q(node),
        }
    }
}

// The decisions' columns, and then the successors'.
fn columns(
    memory: &mut StageMemory,
    stage: &StageNode,
    pools: &Pools,
) -> Result<List<Column>, Memory>
    requires { AreNodePartsWithin pools.now.lists stage.now.node.now stage.now.subproblem.now }
    ensures { IfOk result (λ found. found ≡ map (decision_column stage.now.weight) stage.now.subproblem.now.decisions
        ++ future_columns stage.now.subproblem.now pools.now.lists stage.now.node.now.successors stage.now.node.now.successor_weights) }
{
    let mut found = decision_columns(
        memory.alloc(),
        stage.weight,
        stage.subproblem.decisions.as_slice(),
        stage.node.successors.len(),
    )?;
    push_future_columns(
        memory,
        &mut found,
        stage.subproblem,
        pools,
        stage.node.successors.as_slice(),
        stage.node.successor_weights.as_slice(),
    )?;
    Ok(found)
}

// The node's own rows.
fn own_rows(
    memory: &mut StageMemory,
    stage: &StageNode,
    values: &[i64],
    state: &[i128],
) -> Result<List<LpRow>, Memory>
    requires { AreOf stage.now.subproblem.now values.now state.now }
    ensures { IfOk result (λ found. found ≡ map (own_row values.now state.now) stage.now.subproblem.now.rows) }
{
    let mut found = WrittenRows::new(memory);
    push_own_rows(
        memory,
        &mut found,
        stage.subproblem.rows.as_slice(),
        values,
        state,
    )?;
    Ok(found.into_list(memory))
}

// The node's own rows, and then the successors' cuts.
fn rows(
    memory: &mut StageMemory,
    stage: &StageNode,
    pools: &Pools,
    values: &[i64],
    state: &[i128],
) -> Result<List<LpRow>, Memory>
    requires within { AreNodePartsWithin pools.now.lists stage.now.node.now stage.now.subproblem.now }
    requires given { AreOf stage.now.subproblem.now values.now state.now }
    ensures { IfOk result (λ found. found ≡ map (own_row values.now state.now) stage.now.subproblem.now.rows
        ++ cut_rows stage.now.subproblem.now pools.now.lists (length stage.now.subproblem.now.decisions) stage.now.node.now.successors) }
{
    let mut found = WrittenRows::new(memory);
    push_own_rows(
        memory,
        &mut found,
        stage.subproblem.rows.as_slice(),
        values,
        state,
    )?;
    push_cut_rows(
        memory,
        &mut found,
        stage.subproblem,
        pools,
        stage.node.successors.as_slice(),
    )?;
    Ok(found.into_list(memory))
}

// The columns with some rows, of which the first are the node's own.
fn program(stage: &StageNode, columns: List<Column>, rows: List<LpRow>) -> Program
    requires decisions { length stage.now.subproblem.now.decisions ≤ 200 }
    requires own { length stage.now.subproblem.now.rows ≤ 200 }
    ensures { result ≡ record { columns = columns; rows = rows; decisions = length stage.now.subproblem.now.decisions; own = length stage.now.subproblem.now.rows } }
{
    Program {
        columns,
        rows,
        decisions: stage.subproblem.decisions.len() as u32,
        own: stage.subproblem.rows.len() as u32,
    }
}

// The stage problem of the node with its cuts as rows.
#[tactic(auto, unfolding(crate::specs::Stage::stage_program))]
fn listed_stage<'a>(
    memory: &mut StageMemory,
    stage: &StageNode,
    pools: &Pools,
    values: &[i64],
    state: &[i128],
) -> Result<StageLp<'a>, Memory>
    requires weight { stage.now.weight ≡ successor_total stage.now.node.now.stop stage.now.node.now.successor_weights }
    requires within { AreNodePartsWithin pools.now.lists stage.now.node.now stage.now.subproblem.now }
    requires given { AreOf stage.now.subproblem.now values.now state.now }
    ensures { IfOk result (λ lp. lp ≡ stage_program pools.now.lists stage.now.node.now stage.now.subproblem.now values.now state.now) }
{
    let columns = columns(memory, stage, pools)?;
    let rows = rows(memory, stage, pools, values, state)?;
    Ok(StageLp::of(program(stage, columns, rows)))
}

// The stage problem of the node with its cuts side by side.
#[tactic(auto, unfolding(crate::specs::Stage::stage_program))]
fn packed_stage<'a>(
    memory: &mut StageMemory,
    stage: &StageNode,
    pools: &Pools,
    cuts: PackedView<'a>,
    values: &[i64],
    state: &[i128],
) -> Result<StageLp<'a>, Memory>
    requires weight { stage.now.weight ≡ successor_total stage.now.node.now.stop stage.now.node.now.successor_weights }
    requires within { AreNodePartsWithin pools.now.lists stage.now.node.now stage.now.subproblem.now }
    requires given { AreOf stage.now.subproblem.now values.now state.now }
    requires cuts { rows_of cuts ≡ cut_rows stage.now.subproblem.now pools.now.lists (length stage.now.subproblem.now.decisions) stage.now.node.now.successors }
    requires view { IsView cuts }
    ensures { IfOk result (λ lp. lp ≡ stage_program pools.now.lists stage.now.node.now stage.now.subproblem.now values.now state.now) }
{
    let columns = columns(memory, stage, pools)?;
    let rows = own_rows(memory, stage, values, state)?;
    Ok(StageLp::with_cuts(program(stage, columns, rows), cuts))
}

// The stage problem of the node.
fn stage_of<'a>(
    memory: &mut StageMemory,
    stage: &StageNode,
    pools: &'a Pools,
    values: &[i64],
    state: &[i128],
) -> Result<StageLp<'a>, Memory>
    requires weight { stage.now.weight ≡ successor_total stage.now.node.now.stop stage.now.node.now.successor_weights }
    requires within { AreNodePartsWithin pools.now.lists stage.now.node.now stage.now.subproblem.now }
    requires given { AreOf stage.now.subproblem.now values.now state.now }
    ensures { IfOk result (λ lp. lp ≡ stage_program pools.now.lists stage.now.node.now stage.now.subproblem.now values.now state.now) }
{
    match packed_view(memory.alloc(), stage, pools)? {
        Some(cuts) => packed_stage(memory, stage, pools, cuts, values, state),
        None => listed_stage(memory, stage, pools, values, state),
    }
}

/// Builds the stage problem of a node (Pereira and Pinto 1991): the cheapest decisions at these values and this state, with the
/// cost of the future at each successor at least as high as its cuts. Its rows are in the memory that is lent, until
/// [`StageMemory::give_back`]. [`Memory`] where memory was refused.
///
/// There is one value per random variable of the node's subproblem, each at most 2^40 in absolute value, and the state,
/// at scale 2^24, lies in the node's box.
pub fn stage_problem<'a>(
    memory: &mut StageMemory,
    problem: &Problem,
    pools: &'a Pools,
    node: u32,
    values: &[i64],
    state: &[i128],
) -> Result<StageLp<'a>, Memory>
    requires known { node < length problem.now.parts.nodes }
    requires fit { PoolsFit problem.now pools.now.lists }
    requires values { are_values (subproblem_of problem.now node) values.now ≡ true }
    requires state { IsStateAt problem.now node state.now }
    ensures value { IfOk result (λ lp. stage_in problem.now pools.now.lists node values.now state.now ≡ Some lp) }
    ensures proper { IfOk result IsProper }
{
    let stage = StageNode::of(problem, node);
    stage_of(memory, &stage, pools, values, state)
}

/// Gives a stage problem of a node the sides of other values and another state: it is then the stage problem of these, over the
/// same pools. Values and state are as in [`stage_problem`]. No memory is taken.
pub fn set_sides(problem: &Problem, node: u32, values: &[i64], state: &[i128], lp: &mut StageLp)
    requires known { node < length problem.now.parts.nodes }
    requires values { are_values (subproblem_of problem.now node) values.now ≡ true }
    requires state { IsStateAt problem.now node state.now }
    requires stage { IsStageAt problem.now node lp.old }
    ensures value { (pools : List (List Cut)) → (before now : List ℤ) → stage_in problem.now pools node before now ≡ Some lp.old
        → stage_in problem.now pools node values.now state.now ≡ Some lp.new }
    ensures like { IsLike lp.old lp.new }
{
    let stage = StageNode::of(problem, node);
    set_own_sides(stage.subproblem.rows.as_slice(), values, state, lp);
}
