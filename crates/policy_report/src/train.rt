// The report of training.
ghost use Rattle.std.specs.Prelude.{◌≡◌, All, IfOk};
ghost use Rattle.policy_report.specs.Report.{train_text};
ghost use Rattle.policy_report.specs.SoundLines.{SoundLines};
ghost use Rattle.theory.specs.Bound.{Under};
ghost use Rattle.theory.specs.Pools.{Sound};
ghost use Rattle.theory.specs.View.{problem_of};
ghost use Rattle.cut_pool.specs.AtNodes.{PoolsFit};

use crate::cuts::push_bound;
use crate::head::push_head;
use crate::iterations::push_iterations;
use base_num::Memory;
use journal_load::Loaded;
use problem::Problem;
use std::alloc::Global;

/// The report of training: the head, a line for the bound after each iteration, their total, and the line of the bound.
/// It is sound line by line where the cuts and the bounds are.
#[tactic(auto, unfolding(crate::specs::Report::train_text))]
pub fn train_report(alloc: Global, problem: &Problem, loaded: &Loaded) -> Result<Vec<u8>, Memory>
    requires { PoolsFit problem.now loaded.now.pools.lists }
    ensures text { IfOk result (λ v. v.items ≡ train_text problem.now loaded.now.pools.lists loaded.now.bounds loaded.now.unanswered) }
    ensures sound { Sound (problem_of problem.now) loaded.now.pools.lists → All (Under (problem_of problem.now)) loaded.now.bounds
        → IfOk result (λ v. SoundLines (problem_of problem.now) v.items) }
{
    let mut out = Vec::new(alloc);
    push_head(&mut out, problem.parts())?;
    push_iterations(&mut out, loaded.bounds.as_slice(), loaded.unanswered)?;
    push_bound(&mut out, loaded.pools.bound(problem))?;
    Ok(out)
}
