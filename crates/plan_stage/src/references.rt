// The reference programs of the nodes: their stage problems without cuts.
ghost use Rattle.std.specs.Prelude.{◌≡◌, ◌<◌, ◌++◌, ℕ, List, [], length, map, get_or, Some, IfOk, OnOk};
ghost use Rattle.problem.specs.Formulas.{successor_total};
ghost use Rattle.lp_program.specs.Proper.{IsProper, IsReference};
ghost use Rattle.plan_stage.specs.Stage.{own_row};
ghost use Rattle.plan_stage.specs.Nodes.{idle_column, quarter, quarters, reference_of, reference_in};
ghost use Rattle.plan_stage.specs.Given.{HasReference};

use crate::columns::decision_columns;
use crate::own_rows::push_own_rows;
use crate::stage_memory::StageMemory;
use crate::stages::StageNode;
use crate::written_rows::WrittenRows;
use base_num::{List, Memory};
use lp_program::{Column, Fx, LpRow, Program, StageLp};
use problem::Problem;
use std::alloc::Global;

/// A quarter of the scale of states.
const QUARTER: i128 = 1 << 22;

fn quarter(low: i64, high: i64) -> i128
    ensures { result ≡ quarter (low, high) }
{
    QUARTER * (3 * i128::from(low) + i128::from(high))
}

// The state a quarter of the way from the lower ends of the boxes to the upper ones, at scale 2^24.
fn quarters(alloc: Global, low: &[i64], high: &[i64]) -> Result<List<i128>, Memory>
    ensures { IfOk result (λ found. found ≡ quarters low.now high.now) }
{
    let mut found = List::from_vec(Vec::with_capacity(alloc, low.len())?);
    for k in 0..low.len().min(high.len()) {
        found.push(quarter(low[k], high[k]))?;
    }
    Ok(found)
}

// Appends a column that stands at 0 and costs nothing for each successor.
fn push_idle_columns(columns: &mut List<Column>, successors: &[u32]) -> Result<(), Memory>
    ensures { OnOk result (columns.new ≡ columns.old ++ map (λ (m : ℕ). idle_column) successors.now) }
{
    for _ in successors {
        columns.push(Column {
            low: Fx(0),
            high: Fx(0),
            cost: Fx(0),
        })?;
    }
    Ok(())
}

// The values of the first realization.
fn first_values<'a>(stage: &StageNode<'a>) -> &'a [i64]
    requires { 0 < length stage.now.node.now.values }
    ensures { result.now ≡ get_or stage.now.node.now.values 0 [] }
{
    stage.node.values.as_slice()[0].as_slice()
}

// The node's own rows at the values of its first realization, a quarter of the way up the box.
fn reference_rows(
    alloc: Global,
    stage: &StageNode,
    low: &[i64],
    high: &[i64],
) -> Result<List<LpRow>, Memory>
    requires { HasReference stage.now.node.now stage.now.subproblem.now low.now high.now }
    ensures { IfOk result (λ found. found ≡ map (own_row (get_or stage.now.node.now.values 0 []) (quarters low.now high.now)) stage.now.subproblem.now.rows) }
{
    let state = quarters(alloc, low, high)?;
    let mut memory = StageMemory::new(alloc);
    let mut rows = WrittenRows::new(&mut memory);
    push_own_rows(
        &mut memory,
        &mut rows,
        stage.subproblem.rows.as_slice(),
        first_values(stage),
        state.as_slice(),
    )?;
    Ok(rows.into_list(&mut memory))
}

// The reference program of the node in a box.
#[tactic(auto, unfolding(crate::specs::Nodes::reference_of))]
fn reference_of<'a>(
    alloc: Global,
    stage: &StageNode,
    low: &[i64],
    high: &[i64],
) -> Result<StageLp<'a>, Memory>
    requires weight { stage.now.weight ≡ successor_total stage.now.node.now.stop stage.now.node.now.successor_weights }
    requires parts { HasReference stage.now.node.now stage.now.subproblem.now low.now high.now }
    ensures { IfOk result (λ lp. lp ≡ reference_of stage.now.node.now stage.now.subproblem.now low.now high.now) }
{
    let mut columns = decision_columns(
        alloc,
        stage.weight,
        stage.subproblem.decisions.as_slice(),
        stage.node.successors.len(),
    )?;
    push_idle_columns(&mut columns, stage.node.successors.as_slice())?;
    Ok(StageLp::of(Program {
        columns,
        rows: reference_rows(alloc, stage, low, high)?,
        decisions: stage.subproblem.decisions.len() as u32,
        own: stage.subproblem.rows.len() as u32,
    }))
}

/// Builds the reference program of a node, by which a solver makes its start: the stage problem without cuts, at the values of
/// the first realization and the state a quarter of the way up the box. The columns of the successors stand at 0 and cost
/// nothing. [`Memory`] where memory was refused.
pub fn reference<'a>(alloc: Global, problem: &Problem, node: u32) -> Result<StageLp<'a>, Memory>
    requires { node < length problem.now.parts.nodes }
    ensures value { IfOk result (λ lp. reference_in problem.now node ≡ Some lp) }
    ensures proper { IfOk result IsProper }
    ensures reference { IfOk result IsReference }
{
    let stage = StageNode::of(problem, node);
    reference_of(alloc, &stage, problem.lo(node), problem.hi(node))
}
