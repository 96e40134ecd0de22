// The cuts of a list of certificates with each list of weights, and the best of them.
ghost use Rattle.std.specs.Prelude.{◌≡◌, ◌<◌, length, All, IfOk, IfSome, None, Some, Option};
ghost use Rattle.theory.specs.Problem.{node_at, with_weights};
ghost use Rattle.theory.specs.View.{problem_of};
ghost use Rattle.theory.specs.Fit.{FitFor};
ghost use Rattle.cut_pool.specs.Reaches.{CutReaches};
ghost use Rattle.cut_make.specs.Acceptance.{fault_of};
ghost use Rattle.cut_make.specs.Reweighting.{Weighs};
ghost use Rattle.theory.specs.declared.cut.Cut.{Cut};
ghost use Rattle.policy_robust.specs.RiskCuts.{better, best_from, risk_cut_of, realization_in, failing_realization};

use base_num::{List, Memory};
use cut_check::{accept_with, make_each};
use cut_make::CertFault;
use cut_pool::{Cut, Pools, value_of_cut};
use problem::Problem;
use std::alloc::Global;
use theory::Certificate;

// The one of greater value at the state, the first where they are equal.
fn better(state: &[i64], best: Option<Cut>, next: Option<Cut>) -> Option<Cut>
    requires best { IfSome best (CutReaches state.now) }
    requires next { IfSome next (CutReaches state.now) }
    ensures { result ≡ better state.now best next }
{
    let Some(next) = next else {
        return best;
    };
    let Some(best) = best else {
        return Some(next);
    };
    if value_of_cut(&best, state) < value_of_cut(&next, state) {
        Some(next)
    } else {
        Some(best)
    }
}

// The best of several cuts, by their values at the state.
fn best_of(state: &[i64], cuts: List<Option<Cut>>) -> Option<Cut>
    requires reach { All (λ (cut : Option Cut). IfSome cut (CutReaches state.now)) cuts }
    ensures { result ≡ best_from state.now None cuts }
{
    let mut best = None;
    for cut in cuts.into_vec() {
        best = better(state, best, cut);
    }
    best
}

/// The risk cut of a list of certificates at a node: of the cuts with each list of weights with which they are accepted the
/// one of greatest value at the lower end of the node's box, the first where values are equal. None where they are
/// accepted with no list.
pub(crate) fn risk_cut(
    alloc: Global,
    problem: &Problem,
    risk_cuts: &Pools,
    node: u32,
    list: &[Certificate],
    lists: &[List<u32>],
) -> Result<Option<Cut>, Memory>
    requires known { node < length problem.now.parts.nodes }
    requires fit { FitFor (problem_of problem.now) (length problem.now.parts.nodes) risk_cuts.now.lists node }
    requires weighs { All (Weighs (node_at (problem_of problem.now) node)) lists.now }
    ensures { IfOk result (λ c. c ≡ risk_cut_of risk_cuts.now.lists (node_at (problem_of problem.now) node) list.now lists.now) }
{
    let _ = problem.parts();
    let cuts = make_each(alloc, problem, risk_cuts, node, lists, list)?;
    Ok(best_of(problem.lo(node), cuts))
}

// The realization that a fault names.
fn realization_in(fault: CertFault) -> u32
    ensures { result ≡ realization_in (Some fault) }
{
    match fault {
        CertFault::Shape { realization } => realization,
        CertFault::Sign { realization, .. } => realization,
        CertFault::Cutless { realization, .. } => realization,
        CertFault::Sum { realization, .. } => realization,
        CertFault::Range { realization } => realization,
    }
}

// The realization at which a list of weights fails, 0 where it does not.
fn failing_with(
    problem: &Problem,
    risk_cuts: &Pools,
    node: u32,
    list: &[Certificate],
    weights: &[u32],
) -> u32
    requires known { node < length problem.now.parts.nodes }
    requires fit { FitFor (problem_of problem.now) (length problem.now.parts.nodes) risk_cuts.now.lists node }
    requires weighs { Weighs (node_at (problem_of problem.now) node) weights.now }
    ensures { result ≡ realization_in (fault_of risk_cuts.now.lists (with_weights weights.now (node_at (problem_of problem.now) node)) list.now) }
{
    match accept_with(problem, risk_cuts, node, weights, list) {
        Ok(()) => 0,
        Err(fault) => realization_in(fault),
    }
}

/// The realization at which the first list of weights fails.
pub(crate) fn failing(
    problem: &Problem,
    risk_cuts: &Pools,
    node: u32,
    list: &[Certificate],
    lists: &[List<u32>],
) -> u32
    requires known { node < length problem.now.parts.nodes }
    requires fit { FitFor (problem_of problem.now) (length problem.now.parts.nodes) risk_cuts.now.lists node }
    requires some { 0 < length lists.now }
    requires weighs { All (Weighs (node_at (problem_of problem.now) node)) lists.now }
    ensures { result ≡ failing_realization risk_cuts.now.lists (node_at (problem_of problem.now) node) list.now lists.now }
{
    failing_with(problem, risk_cuts, node, list, lists[0].as_slice())
}
