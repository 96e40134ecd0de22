// The number of branches of the whole policy.
ghost use Rattle.std.specs.Prelude.{◌≡◌, ◌<◌, IfOk, min};
ghost use Rattle.theory.specs.View.{problem_of};
ghost use Rattle.policy_evaluate.specs.TooBig.{branch_count, branches};

use crate::capped::{capped_product, capped_sum};
use crate::table_sums::sum_at;
use crate::tree_numbers::{TreeNumber, tree_table};
use base_num::Memory;
use problem::Problem;
use std::alloc::Global;

/// The branches of each node's trees.
#[derive(Clone, Copy)]
struct BranchCount;

impl TreeNumber for BranchCount {
    ghost number_of = { λ _ p. branches (problem_of p) };

    fn at_node(&self, problem: &Problem, table: &[u64], node: u32, cap: u64) -> u64 {
        let _ = problem.parts();
        let own = problem.node(node);
        let behind = sum_at(table, own.successors.as_slice(), cap);
        let each = capped_sum(1, behind, cap);
        capped_product(own.weights.len() as u64, each, cap)
    }
}

/// The branches of the whole policy, and the cap where they are more.
pub(crate) fn branch_count(alloc: Global, problem: &Problem, cap: u64) -> Result<u64, Memory>
    requires { 0 < cap }
    ensures { IfOk result (λ count. count ≡ min (branch_count problem.now) cap) }
{
    let table = tree_table(alloc, problem, &BranchCount, cap)?;
    let root = problem.parts().root.as_slice();
    Ok(sum_at(table.as_slice(), root, cap))
}
