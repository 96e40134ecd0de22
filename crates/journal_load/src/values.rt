// The values of the root's successors at the initial state, kept up as cuts come, and the bound that is made of them.
ghost use Rattle.std.specs.Prelude.{◌≡◌, ◌<◌, ◌^◌, pos, length, get_or, set, if◌then◌else◌, is_ok, IfOk, OnOk};
ghost use Rattle.std.specs.Int.{int_max};
ghost use Rattle.problem.specs.Validated.{initial_values};
ghost use Rattle.theory.specs.Problem.{node_at};
ghost use Rattle.theory.specs.Fit.{CutFits};
ghost use Rattle.theory.specs.Pools.{pool, push};
ghost use Rattle.theory.specs.Bound.{bound, value_of_cut, weighted_value};
ghost use Rattle.theory.specs.View.{problem_of};
ghost use Rattle.cut_pool.specs.AtNodes.{PoolsFit};
ghost use Rattle.journal_load.specs.RootValues.{raised_values, root_values};

use base_num::{List, Memory, add_product, floor_div};
use cut_pool::{Cut, Pools, root_weight, value_of_cut};
use problem::Problem;
use std::alloc::Global;

/// The values of the root's successors at the initial state, by all of their cuts.
#[tactic(auto, unfolding(crate::specs::RootValues::root_values))]
pub(crate) fn root_values(
    alloc: Global,
    problem: &Problem,
    pools: &Pools,
) -> Result<List<i128>, Memory>
    requires { PoolsFit problem.now pools.now.lists }
    ensures { IfOk result (λ values. values ≡ root_values problem.now pools.now.lists) }
{
    let state = problem.initial();
    let mut values = List::new(alloc);
    for node in problem.parts().root.as_slice() {
        values.push(pools.value_at(problem, *node, state))?;
    }
    Ok(values)
}

// The value at a place is at least this one.
fn raise_at(values: &mut List<i128>, at: usize, value: i128)
    requires { at < length values.old }
    ensures { values.new ≡ set values.old at (int_max (get_or values.old at (pos 0)) value) }
{
    let greater = values.as_slice()[at].max(value);
    values.set(at, greater);
}

// The value of a node, where it is one of the root's successors, is at least that of the cut.
fn raise(problem: &Problem, values: &mut List<i128>, node: u32, cut: &Cut)
    requires fits { CutFits (node_at (problem_of problem.now) node) cut.now }
    requires count { length values.old ≡ length problem.now.parts.root }
    ensures { values.new ≡ raised_values node (value_of_cut cut.now (initial_values problem.now.parts)) problem.now.parts.root values.old }
{
    let root = problem.parts().root.as_slice();
    for i in 0..root.len() {
        if root[i] == node {
            raise_at(values, i, value_of_cut(cut, problem.initial()));
        }
    }
}

/// Appends a cut to those of a node, and keeps up the values of the root's successors. After [`Memory`] the pools are as
/// before.
pub(crate) fn push_cut(
    problem: &Problem,
    pools: &mut Pools,
    values: &mut List<i128>,
    node: u32,
    cut: Cut,
) -> Result<(), Memory>
    requires known { node < length problem.now.parts.nodes }
    requires fit { PoolsFit problem.now pools.old.lists }
    requires fits { CutFits (node_at (problem_of problem.now) node) cut }
    requires few { length (pool pools.old.lists node) < 2 ^ 24 }
    requires values { values.old ≡ root_values problem.now pools.old.lists }
    ensures cuts { pools.new.lists ≡ (if is_ok result then push pools.old.lists node cut else pools.old.lists) }
    ensures values { OnOk result (values.new ≡ root_values problem.now pools.new.lists) }
{
    raise(problem, values, node, &cut);
    pools.push(node, cut)
}

// The sum of the weights of the root's successors times their values.
fn weighted(problem: &Problem, pools: &Pools, values: &[i128]) -> i128
    requires fit { PoolsFit problem.now pools.now.lists }
    requires values { values.now ≡ root_values problem.now pools.now.lists }
    ensures { result ≡ weighted_value pools.now.lists (problem_of problem.now).initial (problem_of problem.now).root }
{
    let _ = pools;
    let weights = problem.parts().root_weights.as_slice();
    let mut sum: i128 = 0;
    for i in 0..values.len() {
        sum = add_product(sum, i128::from(weights[i]), values[i]);
    }
    sum
}

/// The bound of pools of which these are the values of the root's successors, at scale 2^24.
pub(crate) fn bound(problem: &Problem, pools: &Pools, values: &[i128]) -> i128
    requires fit { PoolsFit problem.now pools.now.lists }
    requires values { values.now ≡ root_values problem.now pools.now.lists }
    ensures { result ≡ bound (problem_of problem.now) pools.now.lists }
{
    floor_div(weighted(problem, pools, values), root_weight(problem))
}
