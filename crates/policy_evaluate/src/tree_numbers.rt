// Tables with a number of each node's trees, which is made of those of its successors.
ghost use Rattle.std.specs.Prelude.{◌≡◌, ℕ, ◌<◌, Contains, IfOk, get_or, length};
ghost use Rattle.problem.specs.Parts.{successors_at};
ghost use Rattle.problem.specs.Validated.{Validated};
ghost use Rattle.policy_evaluate.specs.Tables.{IsNodeTable, StandsForNode};

use crate::table_sums::zeros;
use base_num::{List, Memory};
use problem::Problem;
use std::alloc::Global;

/// A number of each node's trees.
pub(crate) trait TreeNumber {
    /// The number of the trees of a node, of at most so many stages.
    ghost number_of: { Self → Validated → ℕ → ℕ → ℕ };

    /// Gives the number of a node, from those of its successors in a table, and the cap where it is above that.
    fn at_node(&self, problem: &Problem, table: &[u64], node: u32, cap: u64) -> u64
        requires known { node < length problem.now.parts.nodes }
        requires counted { length table.now ≡ length problem.now.parts.nodes }
        requires cap { 0 < cap }
        requires behind { (m : ℕ) → Contains (successors_at problem.now.parts node) m
            → StandsForNode problem.now (number_of self.now problem.now) cap m (get_or table.now m 0) }
        ensures { StandsForNode problem.now (number_of self.now problem.now) cap node result };
}

/// The number of each node's trees, one per node, and the cap where it is above that.
pub(crate) fn tree_table<N: TreeNumber>(
    alloc: Global,
    problem: &Problem,
    number: &N,
    cap: u64,
) -> Result<List<u64>, Memory>
    requires { 0 < cap }
    ensures { IfOk result (IsNodeTable problem.now (N.number_of number.now problem.now) cap) }
{
    let order = problem.order();
    let mut table = zeros(alloc, problem.parts().nodes.len())?;
    for node in order {
        let value = number.at_node(problem, table.as_slice(), *node, cap);
        table.set(*node as usize, value);
    }
    Ok(table)
}
