// The number of cuts of each node, and pools that are cut back to that.
ghost use Rattle.std.specs.Prelude.{◌≡◌, ◌≤◌, ℕ, List, length, map, take, get_or, IfOk};
ghost use Rattle.theory.specs.Pools.{pool};
ghost use Rattle.theory.specs.declared.cut.Cut.{Cut};

use base_num::{List, Memory};
use cut_pool::Pools;
use std::alloc::Global;

/// The number of each node's cuts. [`Memory`] where memory was refused.
pub fn counts(alloc: Global, pools: &Pools) -> Result<List<u32>, Memory>
    requires { length pools.now.lists ≤ 1000 }
    ensures { IfOk result (λ found. found ≡ map (λ (cuts : List Cut). length cuts) pools.now.lists) }
{
    let mut found = List::new(alloc);
    for node in 0..pools.nodes() {
        found.push(pools.count(node as u32))?;
    }
    Ok(found)
}

/// Keeps the first cuts of each node, as many as the counts say.
pub fn cut_back(pools: &mut Pools, counts: &[u32])
    requires count { length counts.now ≡ length pools.old.lists }
    requires nodes { length counts.now ≤ 1000 }
    ensures count { length pools.new.lists ≡ length pools.old.lists }
    ensures cuts { (m : ℕ) → pool pools.new.lists m ≡ take (get_or counts.now m 0) (pool pools.old.lists m) }
{
    for node in 0..counts.len() {
        pools.truncate(node as u32, counts[node]);
    }
}
