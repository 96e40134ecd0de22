// Keeps what a solver makes ready for each node of a problem.
ghost use Rattle.std.specs.Prelude.{◌≡◌, ◌<◌, ℕ, [], length, get_or, slice_get, IfOk, Some};
ghost use Rattle.plan_stage.specs.Ready.{AreReady, AreStarts};

use crate::orders::solving_orders;
use crate::references::reference;
use base_num::{List, Memory};
use lp_program::Solver;
use problem::Problem;
use std::alloc::Global;

/// What is made ready for the nodes of a problem before any solve: the start that a solver makes for each, and the order in
/// which its realizations are solved.
#[derive(Drop)]
pub struct WarmStarts<V: Solver> {
    items: List<V::Start>,
    // For each node the numbers of its realizations.
    orders: List<List<usize>>,
}

impl<V: Solver> WarmStarts<V> {
    /// Has the solver make the start of each node, by the node's reference program, and puts the node's realizations in order. A
    /// chain may begin from there with each stage problem of the node. [`Memory`] where memory was refused.
    pub fn new(alloc: Global, problem: &Problem, solver: &V) -> Result<WarmStarts<V>, Memory>
        ensures { IfOk result (λ made. AreReady (V.does solver.now) (V.suits solver.now) problem.now made.items made.orders) }
    {
        Ok(WarmStarts {
            items: started(alloc, problem, solver)?,
            orders: solving_orders(alloc, problem)?,
        })
    }

    /// Lends the numbers of a node's realizations, in the order in which they are solved.
    pub(crate) fn order(&self, node: u32) -> &[usize]
        requires { node < length self.now.orders }
        ensures { result.now ≡ get_or self.now.orders node [] }
    {
        self.orders.as_slice()[node as usize].as_slice()
    }

    /// Lends the start of a node.
    pub(crate) fn at(&self, node: u32) -> &V::Start
        requires { node < length self.now.items }
        ensures { slice_get self.now.items node ≡ Some result.now }
    {
        &self.items.as_slice()[node as usize]
    }
}

// Has the solver make a start for each node.
fn started<V: Solver>(
    alloc: Global,
    problem: &Problem,
    solver: &V,
) -> Result<List<V::Start>, Memory>
    ensures { IfOk result (λ made. AreStarts (V.does solver.now) (V.suits solver.now) problem.now made) }
{
    let nodes = problem.parts().nodes.len() as u32;
    let mut made = List::from_vec(Vec::with_capacity(alloc, nodes as usize)?);
    for node in 0..nodes {
        let program = reference(alloc, problem, node)?;
        made.push(solver.start(alloc, &program)?)?;
    }
    Ok(made)
}
