// The report of risk cuts.
ghost use Rattle.std.specs.Prelude.{◌≡◌, ◌++◌, IfOk, OnOk};
ghost use Rattle.policy_robust.specs.Report.{risk_cut_line, node_risk_cuts, risk_cut_lines, worst_line, robust_text};
ghost use Rattle.cut_pool.specs.AtNodes.{PoolsFit};

use base_num::{Memory, push_bytes};
use cut_pool::{Cut, Pools};
use policy_report::{push_cut_words, push_head, push_word};
use problem::Problem;
use std::alloc::Global;

fn push_risk_cut(out: &mut Vec<u8>, node: usize, place: usize, risk_cut: &Cut) -> Result<(), Memory>
    ensures { OnOk result (out.new.items ≡ out.old.items ++ risk_cut_line node place risk_cut.now) }
{
    push_bytes(out, b"plane")?;
    push_word(out, node as i128)?;
    push_word(out, place as i128)?;
    push_cut_words(out, risk_cut)?;
    push_bytes(out, b"\n")
}

fn push_node_risk_cuts(out: &mut Vec<u8>, node: usize, risk_cuts: &[Cut]) -> Result<(), Memory>
    ensures { OnOk result (out.new.items ≡ out.old.items ++ node_risk_cuts node risk_cuts.now) }
{
    for (place, risk_cut) in risk_cuts.iter().enumerate() {
        push_risk_cut(out, node, place, risk_cut)?;
    }
    Ok(())
}

fn push_risk_cuts(out: &mut Vec<u8>, risk_cuts: &Pools) -> Result<(), Memory>
    ensures { OnOk result (out.new.items ≡ out.old.items ++ risk_cut_lines risk_cuts.now.lists) }
{
    for node in 0..risk_cuts.nodes() {
        push_node_risk_cuts(out, node, risk_cuts.cuts(node))?;
    }
    Ok(())
}

fn push_worst(out: &mut Vec<u8>, bound: i128) -> Result<(), Memory>
    ensures { OnOk result (out.new.items ≡ out.old.items ++ worst_line bound) }
{
    push_bytes(out, b"worst")?;
    push_word(out, bound)?;
    push_bytes(out, b"\n")
}

/// The report of risk cuts: the head, a line for each risk cut, and the line of the bound over the risk cuts, at scale 2^24.
#[tactic(auto, unfolding(crate::specs::Report::robust_text))]
pub fn robust_report(alloc: Global, problem: &Problem, risk_cuts: &Pools) -> Result<Vec<u8>, Memory>
    requires { PoolsFit problem.now risk_cuts.now.lists }
    ensures { IfOk result (λ v. v.items ≡ robust_text problem.now risk_cuts.now.lists) }
{
    let mut out = Vec::new(alloc);
    push_head(&mut out, problem.parts())?;
    push_risk_cuts(&mut out, risk_cuts)?;
    push_worst(&mut out, risk_cuts.bound(problem))?;
    Ok(out)
}
