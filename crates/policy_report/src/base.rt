// The report of the base cuts.
ghost use Rattle.std.specs.Prelude.{◌≡◌, IfOk};
ghost use Rattle.policy_report.specs.Report.{base_text};
ghost use Rattle.cut_pool.specs.AtNodes.{PoolsFit};

use crate::cuts::{push_bound, push_cuts};
use crate::head::push_head;
use base_num::Memory;
use cut_pool::Pools;
use problem::Problem;
use std::alloc::Global;

/// The report of the base cuts: the head, a line for each cut, and the line of the bound.
#[tactic(auto, unfolding(crate::specs::Report::base_text))]
pub fn base_report(alloc: Global, problem: &Problem, pools: &Pools) -> Result<Vec<u8>, Memory>
    requires { PoolsFit problem.now pools.now.lists }
    ensures { IfOk result (λ v. v.items ≡ base_text problem.now pools.now.lists) }
{
    let mut out = Vec::new(alloc);
    push_head(&mut out, problem.parts())?;
    push_cuts(&mut out, pools)?;
    push_bound(&mut out, pools.bound(problem))?;
    Ok(out)
}
