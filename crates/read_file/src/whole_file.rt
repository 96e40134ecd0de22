// A problem from the bytes of its file.
ghost use Rattle.std.specs.Prelude.{◌≡◌, true};
ghost use Rattle.problem.specs.Limits.{parts_are_lawful};
ghost use Rattle.read_json.specs.Steps.{Gives};
ghost use Rattle.problem.specs.Arranged.{arranged};
ghost use Rattle.read_file.specs.Problem.{problem_at};

use crate::read::read_problem_parts;
use problem::{ArrangeFault, Part, Place, Problem, ProblemParts, RefusalKind, arrange};
use read_json::ReadRefusal;
use std::alloc::Global;

// The problem of these parts, or the first refusal of its graph.
fn arranged(alloc: Global, parts: ProblemParts) -> Result<Problem, ReadRefusal>
    requires { parts_are_lawful parts ≡ true }
    ensures { Gives (λ p. p) result (arranged parts) }
{
    match arrange(alloc, parts) {
        Ok(problem) => Ok(problem),
        Err(ArrangeFault::Cycle { node }) => Err(ReadRefusal::Refused(RefusalKind::Cycle.at(
            Place::new(Part::Node, node, 0, 0),
        ))),
        Err(ArrangeFault::Unreachable { node }) => Err(ReadRefusal::Refused(
            RefusalKind::Unreachable.at(Place::new(Part::Node, node, 0, 0)),
        )),
        Err(ArrangeFault::BoxGap { node, state }) => Err(ReadRefusal::Refused(
            RefusalKind::BoxGap.at(Place::new(Part::Node, node, state, 0)),
        )),
        Err(ArrangeFault::Memory) => Err(ReadRefusal::Memory),
    }
}

/// The problem that the bytes of its file give, or the first refusal of the reading and of the graph.
#[tactic(auto, unfolding(crate::specs::Problem::problem_at))]
pub fn read_problem(alloc: Global, bytes: &[u8]) -> Result<Problem, ReadRefusal>
    ensures { Gives (λ p. p) result (problem_at bytes.now) }
{
    let parts = read_problem_parts(alloc, bytes)?;
    arranged(alloc, parts)
}
