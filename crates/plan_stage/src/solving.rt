// Answers to the stage problem of a node.
ghost use Rattle.std.specs.Prelude.{◌≡◌, ◌<◌, true, length, IfOk};
ghost use Rattle.problem.specs.Limits.{are_values};
ghost use Rattle.problem.specs.Validated.{subproblem_of};
ghost use Rattle.cut_pool.specs.AtNodes.{IsStateAt, PoolsFit};
ghost use Rattle.plan_stage.specs.Chained.{stage_answer};

use crate::planner::Planner;
use crate::stages::stage_problem;
use crate::workspace::Workspace;
use base_num::Memory;
use cut_pool::Pools;
use lp_program::{Answer, Solver};

/// Solves the stage problem of a node at values and a state, in a chain of its own, and gives the answer. Values and state are
/// as in [`stage_problem`]. [`Memory`] where memory was refused.
pub fn solve_stage<V: Solver>(
    work: &mut Workspace<V>,
    planner: &Planner<V>,
    pools: &Pools,
    node: u32,
    values: &[i64],
    state: &[i128],
) -> Result<Answer, Memory>
    requires known { node < length planner.now.problem.now.parts.nodes }
    requires fit { PoolsFit planner.now.problem.now pools.now.lists }
    requires values { are_values (subproblem_of planner.now.problem.now node) values.now ≡ true }
    requires state { IsStateAt planner.now.problem.now node state.now }
    ensures { IfOk result (λ a. a ≡ stage_answer (V.does planner.now.solver.now) planner.now.problem.now pools.now.lists node values.now state.now) }
{
    let lp = stage_problem(
        &mut work.stages,
        planner.problem(),
        pools,
        node,
        values,
        state,
    )?;
    let mut chain = planner.begin(work, node, &lp)?;
    let answer = planner.solver().solve(work.alloc(), &mut chain, &lp);
    work.keep_chain(chain);
    work.give_back(lp);
    answer
}
