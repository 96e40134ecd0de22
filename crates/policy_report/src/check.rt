// The report of a journal.
ghost use Rattle.std.specs.Prelude.{◌≡◌, IfOk};
ghost use Rattle.journal_load.specs.Accepted.{IsSafe};
ghost use Rattle.policy_report.specs.Report.{check_text};
ghost use Rattle.policy_report.specs.SoundLines.{SoundLines};
ghost use Rattle.theory.specs.View.{problem_of};
ghost use Rattle.cut_pool.specs.AtNodes.{PoolsFit};

use crate::cuts::{push_bound, push_cuts};
use crate::head::push_head;
use crate::iterations::{push_iterations, push_rest};
use base_num::Memory;
use journal_load::Loaded;
use problem::Problem;
use std::alloc::Global;

/// The report of a journal: the head, a line for each cut, one for the bound after each iteration, their total, the line
/// of the bound, and that of the bytes behind the last commit byte. It is sound line by line, whatever disk was loaded.
#[tactic(auto, unfolding(crate::specs::Report::check_text))]
pub fn check_report(alloc: Global, problem: &Problem, loaded: &Loaded) -> Result<Vec<u8>, Memory>
    requires { PoolsFit problem.now loaded.now.pools.lists }
    ensures text { IfOk result (λ v. v.items ≡ check_text problem.now loaded.now.pools.lists loaded.now.bounds loaded.now.unanswered loaded.now.tail) }
    ensures sound { IsSafe problem.now loaded.now → IfOk result (λ v. SoundLines (problem_of problem.now) v.items) }
{
    let mut out = Vec::new(alloc);
    push_head(&mut out, problem.parts())?;
    push_cuts(&mut out, &loaded.pools)?;
    push_iterations(&mut out, loaded.bounds.as_slice(), loaded.unanswered)?;
    push_bound(&mut out, loaded.pools.bound(problem))?;
    push_rest(&mut out, loaded.tail)?;
    Ok(out)
}
