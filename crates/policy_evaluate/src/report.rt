// The report of a verdict.
ghost use Rattle.std.specs.Prelude.{◌≡◌, ◌++◌, OnOk, IfOk, codes};
ghost use Rattle.std.specs.List.{flat_map};
ghost use Rattle.policy_report.specs.Report.{word};
ghost use Rattle.policy_evaluate.specs.Report.{branch_line, verdict_lines, verdict_text};
ghost use Rattle.cut_pool.specs.AtNodes.{PoolsFit};

use crate::walking::Verdict;
use base_num::{Memory, push_bytes};
use cut_pool::Pools;
use plan_draw::PathStep;
use policy_report::{push_bound, push_head, push_row, push_word};
use problem::Problem;
use std::alloc::Global;

fn push_branch(out: &mut Vec<u8>, step: PathStep) -> Result<(), Memory>
    ensures { OnOk result (out.new.items ≡ out.old.items ++ branch_line step) }
{
    push_bytes(out, b"branch")?;
    push_word(out, i128::from(step.node))?;
    push_word(out, i128::from(step.realization))?;
    push_bytes(out, b"\n")
}

fn push_branches(out: &mut Vec<u8>, branches: &[PathStep]) -> Result<(), Memory>
    ensures { OnOk result (out.new.items ≡ out.old.items ++ flat_map branch_line branches.now) }
{
    for step in branches {
        push_branch(out, *step)?;
    }
    Ok(())
}

fn push_upper(out: &mut Vec<u8>, upper: i128) -> Result<(), Memory>
    ensures { OnOk result (out.new.items ≡ out.old.items ++ (codes "upper" ++ word upper ++ codes "\n")) }
{
    push_bytes(out, b"upper")?;
    push_word(out, upper)?;
    push_bytes(out, b"\n")
}

fn push_verdict(out: &mut Vec<u8>, verdict: &Verdict) -> Result<(), Memory>
    ensures { OnOk result (out.new.items ≡ out.old.items ++ verdict_lines verdict.now) }
{
    match verdict {
        Verdict::Cost { upper } => push_upper(out, *upper),
        Verdict::Missed {
            branches,
            row,
            residual,
        } => {
            push_branches(out, branches.as_slice())?;
            push_row(out, *row as usize, *residual)
        }
    }
}

/// The report of a verdict: the head; then the cost of the policy from above, or a line for each branch from the root to
/// the one that misses a row and one for that row and its residual; then the line of the bound over the pools. All numbers
/// are at scale 2^24, but those of nodes, realizations and rows.
#[tactic(auto, unfolding(crate::specs::Report::verdict_text))]
pub fn verdict_report(
    alloc: Global,
    problem: &Problem,
    pools: &Pools,
    verdict: &Verdict,
) -> Result<Vec<u8>, Memory>
    requires { PoolsFit problem.now pools.now.lists }
    ensures { IfOk result (λ v. v.items ≡ verdict_text problem.now pools.now.lists verdict.now) }
{
    let mut out = Vec::new(alloc);
    push_head(&mut out, problem.parts())?;
    push_verdict(&mut out, verdict)?;
    push_bound(&mut out, pools.bound(problem))?;
    Ok(out)
}
