// The number over which the cost of the whole policy stands.
ghost use Rattle.std.specs.Prelude.{◌≡◌, ◌<◌, IfOk, min};
ghost use Rattle.theory.specs.View.{problem_of};
ghost use Rattle.policy_evaluate.specs.TooBig.{denominator, root_denominator};

use crate::capped::capped_product;
use crate::table_sums::multiple_at;
use crate::tree_numbers::{TreeNumber, tree_table};
use base_num::Memory;
use problem::{Problem, total};
use std::alloc::Global;

/// The denominator of each node's trees.
#[derive(Clone, Copy)]
struct Denominator;

impl TreeNumber for Denominator {
    ghost number_of = { λ _ p. denominator (problem_of p) };

    fn at_node(&self, problem: &Problem, table: &[u64], node: u32, cap: u64) -> u64 {
        let _ = problem.parts();
        let own = problem.node(node);
        let common = multiple_at(table, own.successors.as_slice(), cap);
        let behind = capped_product(u64::from(problem.q(node)), common, cap);
        capped_product(u64::from(total(own.weights.as_slice())), behind, cap)
    }
}

/// The number over which the cost of the whole policy stands, and the cap where it is above that.
pub(crate) fn root_denominator(alloc: Global, problem: &Problem, cap: u64) -> Result<u64, Memory>
    requires { 0 < cap }
    ensures { IfOk result (λ under. under ≡ min (root_denominator problem.now) cap) }
{
    let table = tree_table(alloc, problem, &Denominator, cap)?;
    let parts = problem.parts();
    let common = multiple_at(table.as_slice(), parts.root.as_slice(), cap);
    let weight = total(parts.root_weights.as_slice());
    Ok(capped_product(u64::from(weight), common, cap))
}
