// A node with its subproblem, the box of its incoming state, the pools, and weights for its realizations.
ghost use Rattle.std.specs.Prelude.{◌≡◌, ◌<◌, true, length};
ghost use Rattle.problem.specs.Validated.{is_validated};
ghost use Rattle.theory.specs.Fit.{FitFor};
ghost use Rattle.theory.specs.Problem.{node_at, with_weights};
ghost use Rattle.theory.specs.View.{problem_of};
ghost use Rattle.cut_make.specs.NodeParts.{NodeParts};
ghost use Rattle.cut_make.specs.Reweighting.{Weighs};

use cut_pool::Pools;
use problem::{Node, Problem, Subproblem};

/// A node at its pools, with a weight for each of its realizations.
#[derive(Clone, Copy)]
pub struct NodeAt<'a> {
    pub node: &'a Node,
    pub subproblem: &'a Subproblem,
    /// The lower ends of the box of the incoming state.
    pub low: &'a [i64],
    /// The upper ends of the box.
    pub high: &'a [i64],
    /// One weight per realization.
    pub weights: &'a [u32],
    /// The cuts of all nodes.
    pub pools: &'a Pools,
}

impl<'a> NodeAt<'a> {
    /// The node with a number, with given weights.
    pub fn of(problem: &'a Problem, pools: &'a Pools, node: u32, weights: &'a [u32]) -> NodeAt<'a>
        requires known { node < length problem.now.parts.nodes }
        requires fit { FitFor (problem_of problem.now) (length problem.now.parts.nodes) pools.now.lists node }
        requires weighs { Weighs (node_at (problem_of problem.now) node) weights.now }
        ensures parts { NodeParts problem.now node result.pools.now.lists result.weights.now result.node.now result.subproblem.now result.low.now result.high.now }
        ensures weights { result.weights.now ≡ weights.now }
        ensures pools { result.pools.now ≡ pools.now }
    {
        NodeAt {
            node: &problem.parts().nodes.as_slice()[node as usize],
            subproblem: problem.sub(node),
            low: problem.lo(node),
            high: problem.hi(node),
            weights,
            pools,
        }
    }
}

/// The weights of a node's realizations.
pub fn own_weights(problem: &Problem, node: u32) -> &[u32]
    requires { node < length problem.now.parts.nodes }
    ensures validated { is_validated problem.now ≡ true }
    ensures weighs { Weighs (node_at (problem_of problem.now) node) result.now }
    ensures own { with_weights result.now (node_at (problem_of problem.now) node) ≡ node_at (problem_of problem.now) node }
{
    problem.parts().nodes.as_slice()[node as usize]
        .weights
        .as_slice()
}
