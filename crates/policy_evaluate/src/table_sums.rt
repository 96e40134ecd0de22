// Sums and least common multiples over some nodes of a table with one number per node.
ghost use Rattle.std.specs.Prelude.{◌≡◌, ℕ, ◌<◌, Contains, IfOk, get_or, length, map, min, sum, true};
ghost use Rattle.base_graph.specs.Paths.{are_known};
ghost use Rattle.policy_evaluate.specs.Multiples.{lcm_all};

use crate::capped::{capped_multiple, capped_sum};
use base_num::{List, Memory};
use std::alloc::Global;

/// The sum of the numbers of some nodes, and the cap where it is above that.
pub(crate) fn sum_at(table: &[u64], nodes: &[u32], cap: u64) -> u64
    requires { are_known (length table.now) nodes.now ≡ true }
    ensures { result ≡ min (sum (map (λ m. get_or table.now m 0) nodes.now)) cap }
{
    let mut total = 0;
    for node in nodes {
        total = capped_sum(total, table[*node as usize], cap);
    }
    total
}

/// The least common multiple of the numbers of some nodes, which are positive, and the cap where it is above that.
pub(crate) fn multiple_at(table: &[u64], nodes: &[u32], cap: u64) -> u64
    requires known { are_known (length table.now) nodes.now ≡ true }
    requires some { (m : ℕ) → Contains nodes.now m → 0 < get_or table.now m 0 }
    requires cap { 0 < cap }
    ensures { result ≡ min (lcm_all 1 (map (λ m. get_or table.now m 0) nodes.now)) cap }
{
    let mut multiple = 1;
    for node in nodes {
        multiple = capped_multiple(multiple, table[*node as usize], cap);
    }
    multiple
}

/// A table of zeros.
pub(crate) fn zeros(alloc: Global, count: usize) -> Result<List<u64>, Memory>
    ensures { IfOk result (λ table. length table ≡ count) }
{
    let mut table = List::new(alloc);
    for _ in 0..count {
        table.push(0)?;
    }
    Ok(table)
}
