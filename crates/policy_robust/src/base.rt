// The base certificates of a node.
ghost use Rattle.std.specs.Prelude.{◌≡◌, ◌<◌, IfOk, length};
ghost use Rattle.theory.specs.Problem.{node_at};
ghost use Rattle.theory.specs.Base.{base_list};
ghost use Rattle.theory.specs.View.{problem_of};
ghost use Rattle.cut_check.specs.Bases.{certificate_of};
ghost use Rattle.cut_make.specs.Parts.{repeated};

use base_num::{List, Memory};
use cut_check::base_certificate;
use problem::{Node, Problem, Subproblem};
use std::alloc::Global;
use theory::Certificate;

// Gives the base certificate of a node once for each realization.
fn certificates(
    alloc: Global,
    node: &Node,
    sub: &Subproblem,
    weights: &[u32],
) -> Result<List<Certificate>, Memory>
    ensures { IfOk result (λ list. list ≡ repeated (certificate_of node.now sub.now) weights.now) }
{
    let mut list = List::new(alloc);
    for _ in weights {
        list.push(base_certificate(alloc, node, sub)?)?;
    }
    Ok(list)
}

/// The base certificates of a node, one per realization.
pub(crate) fn base_list(
    alloc: Global,
    problem: &Problem,
    node: u32,
) -> Result<List<Certificate>, Memory>
    requires { node < length problem.now.parts.nodes }
    ensures { IfOk result (λ list. list ≡ base_list (node_at (problem_of problem.now) node)) }
{
    let _ = problem.parts();
    let _ = problem.lo(node);
    let _ = problem.hi(node);
    let here = problem.node(node);
    let sub = problem.sub(node);
    certificates(alloc, here, sub, here.weights.as_slice())
}
