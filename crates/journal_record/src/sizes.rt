// The lengths of the lists of a node's certificates.
ghost use Rattle.std.specs.Prelude.{◌≡◌, ◌<◌, length, true};
ghost use Rattle.problem.specs.Validated.{is_validated};
ghost use Rattle.journal_record.specs.Shape.{sizes_of};

use problem::Problem;

/// The lengths of the lists of a node's certificates.
#[derive(Clone, Copy, Debug)]
pub(crate) struct Sizes {
    /// One certificate per realization.
    pub(crate) realizations: usize,
    /// One multiplier per row.
    pub(crate) rows: usize,
    /// One list of pairs per successor.
    pub(crate) successors: usize,
}

#[tactic(auto, using(crate::proofs::NodeParts::weights_are, crate::proofs::NodeParts::successors_are))]
pub(crate) fn sizes_of(problem: &Problem, node: u32) -> Sizes
    requires { node < length problem.now.parts.nodes }
    ensures { result ≡ sizes_of problem.now node }
{
    let rows = problem.sub(node).rows.len();
    let node = problem.node(node);
    Sizes {
        realizations: node.weights.len(),
        rows,
        successors: node.successors.len(),
    }
}

// States that each problem's parts fit together. It does nothing.
pub(crate) fn validated(problem: &Problem)
    ensures { is_validated problem.now ≡ true }
{
    problem.parts();
}
