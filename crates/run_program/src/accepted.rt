// A problem that is accepted, with its base cuts.
ghost use Rattle.std.specs.Prelude.{◌≡◌, IfOk, Ok};
ghost use Rattle.cut_pool.specs.AtNodes.{PoolsFit};
ghost use Rattle.read_json.specs.Steps.{Gives};
ghost use Rattle.run_program.specs.Outcome.{based_at, based_of};
ghost use Rattle.read_file.specs.Problem.{problem_at};
ghost use Rattle.theory.specs.Pools.{Sound};
ghost use Rattle.theory.specs.Range.{based};
ghost use Rattle.theory.specs.View.{problem_of};

use cut_check::{BaseFault, base};
use cut_pool::Pools;
use problem::{Part, Place, Problem, RefusalKind};
use read_file::{ReadRefusal, read_problem};
use std::alloc::Global;

/// A problem that is accepted: the bytes that it was read from, the problem itself, and its base cuts.
#[derive(Drop)]
pub(crate) struct Accepted<'a> {
    pub(crate) bytes: &'a [u8],
    pub(crate) problem: &'a Problem,
    pub(crate) pools: Pools,
}

/// A problem with its base cuts.
#[tactic(auto, unfolding(crate::specs::Outcome::based_of))]
fn based_of(alloc: Global, problem: Problem) -> Result<(Problem, Pools), ReadRefusal>
    ensures value { Gives (λ b. record { problem = b.0; pools = b.1.lists }) result (based_of problem) }
    ensures same { IfOk result (λ b. b.0 ≡ problem) }
    ensures base { IfOk result (λ b. based b.0 ≡ Ok b.1.lists) }
    ensures fit { IfOk result (λ b. PoolsFit b.0 b.1.lists) }
    ensures sound { IfOk result (λ b. Sound (problem_of b.0) b.1.lists) }
{
    match base(alloc, &problem) {
        Ok(pools) => Ok((problem, pools)),
        Err(BaseFault::Range { node, realization }) => Err(ReadRefusal::Refused(
            RefusalKind::Range.at(Place::new(Part::Realization, node, realization, 0)),
        )),
        Err(BaseFault::Memory) => Err(ReadRefusal::Memory),
    }
}

/// The problem that bytes give, with its base cuts, or their first refusal.
#[tactic(auto, unfolding(crate::specs::Outcome::based_at))]
pub(crate) fn based_at(alloc: Global, bytes: &[u8]) -> Result<(Problem, Pools), ReadRefusal>
    ensures value { Gives (λ b. record { problem = b.0; pools = b.1.lists }) result (based_at bytes.now) }
    ensures read { IfOk result (λ b. problem_at bytes.now ≡ Ok b.0) }
    ensures base { IfOk result (λ b. based b.0 ≡ Ok b.1.lists) }
    ensures fit { IfOk result (λ b. PoolsFit b.0 b.1.lists) }
    ensures sound { IfOk result (λ b. Sound (problem_of b.0) b.1.lists) }
{
    let problem = read_problem(alloc, bytes)?;
    based_of(alloc, problem)
}
