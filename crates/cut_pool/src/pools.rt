// Pools of cuts.
ghost use Rattle.std.specs.Prelude.{◌≡◌, ◌≢◌, ◌+◌, ◌-◌, ◌<◌, ◌≤◌, ◌^◌, ◌*◌, ℕ, ℤ, pos, ◌≤ℤ◌, [], length, map, sum, true, replicate, get_or, set, take, if◌then◌else◌, is_ok, IfOk, IfSome, OnOk, IsOk};
ghost use Rattle.base_num.specs.Sums.{total};
ghost use Rattle.problem.specs.Validated.{is_validated};
ghost use Rattle.theory.specs.Problem.{node_at, successor_weights};
ghost use Rattle.theory.specs.Tree.{InBox};
ghost use Rattle.theory.specs.Size.{magnitude};
ghost use Rattle.theory.specs.Pools.{pool, no_cut, push, Sound};
ghost use Rattle.theory.specs.Bound.{value, weighted_value, bound, Under};
ghost use Rattle.theory.specs.View.{problem_of};
ghost use Rattle.cut_pool.specs.AtNodes.{PoolsFit};
ghost use Rattle.cut_pool.specs.FlatCuts.{packed_cut};
ghost use Rattle.cut_pool.specs.BoxMaxima.{box_maximum_over};

use crate::box_maxima::OutBox;
use crate::cut_value::greatest;
use crate::pool::Pool;
use base_num::{Memory, add_product, floor_div};
use lp_program::PackedCuts;
use problem::Problem;
use std::alloc::Global;
use std::marker::Model;
use theory::Cut;

/// One list of cuts per node, over the values of its incoming state, at scale 2^24. A list has at most
/// 2^24 cuts.
#[derive(Drop)]
pub struct Pools {
    lists: Vec<Pool>,
}

impl Model for Pools {
    ghost use Rattle.std.specs.Prelude.{map};
    ghost use Rattle.cut_pool.specs.Pooled.{Pooled, PooledCuts};

    ghost Value = { Pooled };

    ghost view = { λ p. record { lists = map (λ (v : PooledCuts). v.cuts) p.lists.items; spare = map (λ (v : PooledCuts). v.spare) p.lists.items } };
}

impl Pools {
    /// Empty lists, one per node. [`Memory`] where memory was refused.
    pub fn new(alloc: Global, nodes: u32) -> Result<Pools, Memory>
        ensures { IfOk result (λ p. p.lists ≡ replicate nodes []) }
    {
        let mut lists = Vec::new(alloc);
        for _ in 0..nodes {
            lists.push(Pool::new(alloc))?;
        }
        Ok(Pools { lists })
    }

    /// Makes room for one more cut of a node. [`Memory`] where memory was refused. The cuts stay in
    /// either case, and no node loses room.
    pub fn reserve(&mut self, node: u32) -> Result<(), Memory>
        requires { node < length self.old.lists }
        ensures cuts { self.new.lists ≡ self.old.lists }
        ensures room { OnOk result (1 ≤ get_or self.new.spare node 0) }
        ensures grown { get_or self.old.spare node 0 ≤ get_or self.new.spare node 0 }
        ensures others { (k : ℕ) → k ≢ node → get_or self.new.spare k 0 ≡ get_or self.old.spare k 0 }
    {
        self.reserve_many(node, 1)
    }

    /// Makes room for so many more cuts of a node. [`Memory`] where memory was refused. The cuts
    /// stay in either case, and no node loses room.
    pub fn reserve_many(&mut self, node: u32, count: u32) -> Result<(), Memory>
        requires { node < length self.old.lists }
        ensures cuts { self.new.lists ≡ self.old.lists }
        ensures room { OnOk result (count ≤ get_or self.new.spare node 0) }
        ensures grown { get_or self.old.spare node 0 ≤ get_or self.new.spare node 0 }
        ensures others { (k : ℕ) → k ≢ node → get_or self.new.spare k 0 ≡ get_or self.old.spare k 0 }
    {
        self.lists[node as usize].reserve(count)
    }

    /// Appends a cut to a node's list. [`Memory`] comes only where there was no room, and then the
    /// cut is dropped and the lists are as before. A cut takes the room of one at most.
    pub fn push(&mut self, node: u32, cut: Cut) -> Result<(), Memory>
        requires known { node < length self.old.lists }
        requires few { length (pool self.old.lists node) < 2 ^ 24 }
        ensures cuts { self.new.lists ≡ (if is_ok result then push self.old.lists node cut else self.old.lists) }
        ensures room { 1 ≤ get_or self.old.spare node 0 → IsOk result }
        ensures taken { get_or self.old.spare node 0 ≤ get_or self.new.spare node 0 + 1 }
        ensures others { (k : ℕ) → k ≢ node → get_or self.new.spare k 0 ≡ get_or self.old.spare k 0 }
    {
        self.lists[node as usize].push(cut)
    }

    /// Keeps the first cuts of a node, as many as the count says. The room of those that go is free.
    pub fn truncate(&mut self, node: u32, count: u32)
        requires { node < length self.old.lists }
        ensures cuts { self.new.lists ≡ set self.old.lists node (take count (pool self.old.lists node)) }
        ensures freed { get_or self.old.spare node 0 + (length (pool self.old.lists node) - count) ≡ get_or self.new.spare node 0 }
        ensures others { (k : ℕ) → k ≢ node → get_or self.new.spare k 0 ≡ get_or self.old.spare k 0 }
    {
        self.lists[node as usize].truncate(count);
    }

    /// Remembers which cuts of a node cover the others now, so that they are known when the node is cut back to as many cuts. It is
    /// a matter of time alone.
    pub fn mark(&mut self, node: u32)
        requires { node < length self.old.lists }
        ensures { self.new ≡ self.old }
    {
        self.lists[node as usize].mark();
    }

    /// The number of nodes.
    pub fn nodes(&self) -> usize
        ensures { result ≡ length self.now.lists }
    {
        self.lists.len()
    }

    /// The number of a node's cuts.
    pub fn count(&self, node: u32) -> u32
        requires { node < length self.now.lists }
        ensures value { result ≡ length (pool self.now.lists node) }
        ensures few { result ≤ 2 ^ 24 }
    {
        self.lists[node as usize].count()
    }

    /// The cut of a node at a place, from 0.
    pub fn cut(&self, node: u32, place: u32) -> &Cut
        requires known { node < length self.now.lists }
        requires there { place < length (pool self.now.lists node) }
        ensures { result.now ≡ get_or (pool self.now.lists node) place no_cut }
    {
        &self.cuts(node as usize)[place as usize]
    }

    /// The cuts of a node.
    pub fn cuts(&self, node: usize) -> &[Cut]
        requires { node < length self.now.lists }
        ensures { result.now ≡ pool self.now.lists node }
    {
        self.lists[node].cuts()
    }

    /// Makes a node's cuts ready for stage problems of a predecessor from now on. Keeps them side by side once more, where they
    /// have few binary digits, with the ends of their slopes. Keeps those by which all are covered over the states that may leave the predecessor, one box per
    /// state, and the greatest of their values there. It is a matter of time alone. Where a node's cuts are cut back, those by which
    /// all are covered are dropped, unless so many cuts were marked, and the other lists stay. [`Memory`] where memory was refused.
    /// The cuts and their room stay in either case.
    pub fn prepare(&mut self, alloc: Global, node: u32, boxes: &[OutBox]) -> Result<(), Memory>
        requires { node < length self.old.lists }
        ensures { self.new ≡ self.old }
    {
        let pool = &mut self.lists[node as usize];
        pool.keep_flat(alloc);
        pool.keep_range(alloc);
        pool.keep_active(alloc, boxes)?;
        pool.keep_box_maximum(alloc, boxes)
    }

    /// The greatest value of a node's cuts over a box, one entry per state, at scale 2^24, where it is kept.
    pub fn box_maximum(&self, node: usize, boxes: &[OutBox]) -> Option<i128>
        requires { node < length self.now.lists }
        ensures { IfSome result (λ box_maximum. box_maximum ≡ box_maximum_over boxes.now (pool self.now.lists node)) }
    {
        self.lists[node].box_maximum(boxes)
    }

    /// The cuts of a node side by side, where they are kept.
    pub fn packed(&self, node: usize) -> Option<PackedCuts<'_>>
        requires { node < length self.now.lists }
        ensures { IfSome result (λ packed. packed ≡ map packed_cut (pool self.now.lists node)) }
    {
        self.lists[node].packed()
    }

    /// The greatest value of a node's cuts at a whole state inside its box, at scale 2^24.
    pub fn value_at(&self, problem: &Problem, node: u32, state: &[i64]) -> i128
        requires fit { PoolsFit problem.now self.now.lists }
        requires known { node < length problem.now.parts.nodes }
        requires inside { InBox 1 (node_at (problem_of problem.now) node).low
            (node_at (problem_of problem.now) node).high state.now }
        ensures value { result ≡ value self.now.lists node state.now }
        ensures small { magnitude result ≤ℤ pos (2 ^ 104) }
    {
        let _ = problem;
        greatest(self.cuts(node as usize), state)
    }

    // The sum of the weights of the root's successors times their values at the initial state.
    fn weighted(&self, problem: &Problem) -> i128
        requires { PoolsFit problem.now self.now.lists }
        ensures { result ≡ weighted_value self.now.lists (problem_of problem.now).initial (problem_of problem.now).root }
    {
        let parts = problem.parts();
        let state = problem.initial();
        let nodes = parts.root.as_slice();
        let weights = parts.root_weights.as_slice();
        let mut sum: i128 = 0;
        for i in 0..nodes.len() {
            let value = self.value_at(problem, nodes[i], state);
            sum = add_product(sum, i128::from(weights[i]), value);
        }
        sum
    }

    /// The bound of the pools, at scale 2^24: the average of the values of the root's successors at
    /// the initial state by the root's weights, rounded down (Pereira and Pinto 1991).
    pub fn bound(&self, problem: &Problem) -> i128
        requires { PoolsFit problem.now self.now.lists }
        ensures value { result ≡ bound (problem_of problem.now) self.now.lists }
        ensures sound { Sound (problem_of problem.now) self.now.lists → Under (problem_of problem.now) result }
    {
        floor_div(self.weighted(problem), root_weight(problem))
    }
}

/// The sum of the weights of the root's successors.
pub fn root_weight(problem: &Problem) -> i128
    ensures value { result ≡ pos (sum (successor_weights (problem_of problem.now).root)) }
    ensures some { pos 1 ≤ℤ result }
    ensures validated { is_validated problem.now ≡ true }
{
    i128::from(total(problem.parts().root_weights.as_slice()))
}

fn total(weights: &[u32]) -> u64
    requires { length weights.now ≤ 2 ^ 16 }
    ensures { result ≡ sum weights.now }
{
    weights.iter().map(|weight| u64::from(*weight)).sum()
}
