// Realizations of a node, solved one after another in a chain.
ghost use Rattle.std.specs.Prelude.{◌≡◌, ◌+◌, ◌-◌, ◌^◌, ◌<◌, ◌≤◌, ℤ, true, List, [], length, get_or, map, All, Some, IfOk, OnOk};
ghost use Rattle.base_num.specs.Steps.{GivesOr};
ghost use Rattle.problem.specs.Limits.{are_values};
ghost use Rattle.problem.specs.Validated.{subproblem_of};
ghost use Rattle.theory.specs.Problem.{node_at};
ghost use Rattle.theory.specs.View.{problem_of};
ghost use Rattle.lp_program.specs.declared.programs.Program.{Program};
ghost use Rattle.lp_program.specs.Proper.{IsLike, IsProper};
ghost use Rattle.lp_program.specs.Chains.{answers};
ghost use Rattle.plan_stage.specs.Nodes.{stage_at, stage_in};
ghost use Rattle.plan_stage.specs.Orders.{node_values_at};
ghost use Rattle.plan_backward.specs.Certifying.{certify, certify_all, in_chain, nothing_certified, values_of};
ghost use Rattle.plan_answer.specs.Faults.{Stops};
ghost use Rattle.plan_backward.specs.Given.{CanVisit, IsStageOver};

use crate::certified::{Certified, Visit};
use base_num::List;
use cut_pool::Spares;
use lp_program::{Solver, StageLp};
use plan_answer::PlanFault;
use plan_stage::{Workspace, set_sides};
use std::alloc::Global;

/// Gives a stage problem of the node the sides of these values, where it does not have them.
fn turn_to<V: Solver>(here: &Visit<V>, own: &[i64], has_them: bool, lp: &mut StageLp)
    requires visit { CanVisit here.now.planner.now.problem.now here.now.pools.now.lists here.now.node here.now.state.now }
    requires values { are_values (subproblem_of here.now.planner.now.problem.now here.now.node) own.now ≡ true }
    requires stage { IsStageOver here.now.planner.now.problem.now here.now.pools.now.lists here.now.node lp.old }
    requires there { has_them ≡ true → stage_in here.now.planner.now.problem.now here.now.pools.now.lists here.now.node own.now here.now.state.now ≡ Some lp.old }
    ensures stage { stage_in here.now.planner.now.problem.now here.now.pools.now.lists here.now.node own.now here.now.state.now ≡ Some lp.new }
    ensures like { IsLike lp.old lp.new }
{
    let problem = here.planner.problem();
    let _ = problem.parts();
    if !has_them {
        set_sides(problem, here.node, own, here.state, lp);
    }
}

/// Certifies the realization with these values, by the next solve of a chain, of the stage problem at them.
fn certify_next<V: Solver>(
    alloc: Global,
    spares: &mut Spares,
    here: &Visit<V>,
    own: &[i64],
    lp: &StageLp,
    chain: &mut V::Chain,
    found: &mut Certified,
) -> Result<(), PlanFault>
    requires visit { CanVisit here.now.planner.now.problem.now here.now.pools.now.lists here.now.node here.now.state.now }
    requires few { found.old.unanswered < 2 ^ 32 - 1 }
    requires stage { stage_in here.now.planner.now.problem.now here.now.pools.now.lists here.now.node own.now here.now.state.now ≡ Some lp.now }
    requires proper { IsProper lp.now }
    requires fits { V.fits here.now.planner.now.solver.now chain.old lp.now }
    ensures value { GivesOr Stops (λ _. found.new) result
        (certify here.now.pools.now.lists (node_at (problem_of here.now.planner.now.problem.now) here.now.node) here.now.iteration here.now.node here.now.state.now found.old own.now
        ((V.does here.now.planner.now.solver.now).next chain.old (stage_at here.now.planner.now.problem.now here.now.pools.now.lists here.now.node own.now here.now.state.now)).0) }
    ensures chain { OnOk result (chain.new ≡ ((V.does here.now.planner.now.solver.now).next chain.old (stage_at here.now.planner.now.problem.now here.now.pools.now.lists here.now.node own.now here.now.state.now)).1) }
    ensures few { found.new.unanswered ≤ found.old.unanswered + 1 }
    ensures fits { OnOk result ((other : Program) → IsLike lp.now other → V.fits here.now.planner.now.solver.now chain.new other) }
{
    let answer = here.planner.solver().solve(alloc, chain, lp)?;
    here.certify(alloc, spares, own, &answer, found)
}

/// Certifies these realizations, in a chain that has begun with the stage problem of the first one. The chain's memory goes to
/// the workspace afterwards.
fn certify_in_chain<V: Solver>(
    work: &mut Workspace<V>,
    here: &Visit<V>,
    order: &[usize],
    lp: &mut StageLp,
    chain: V::Chain,
) -> Result<Certified, PlanFault>
    requires visit { CanVisit here.now.planner.now.problem.now here.now.pools.now.lists here.now.node here.now.state.now }
    requires known { All (λ i. i < length (node_values_at here.now.planner.now.problem.now.parts here.now.node)) order.now }
    requires few { length order.now ≤ 100 }
    requires stage { IsStageOver here.now.planner.now.problem.now here.now.pools.now.lists here.now.node lp.old }
    requires first { stage_in here.now.planner.now.problem.now here.now.pools.now.lists here.now.node (get_or (values_of here.now.planner.now.problem.now.parts here.now.node order.now) 0 []) here.now.state.now ≡ Some lp.old }
    requires fits { (other : Program) → IsLike lp.old other → V.fits here.now.planner.now.solver.now chain other }
    ensures value { GivesOr Stops (λ found. found) result
        (certify_all (certify here.now.pools.now.lists (node_at (problem_of here.now.planner.now.problem.now) here.now.node) here.now.iteration here.now.node here.now.state.now) nothing_certified (values_of here.now.planner.now.problem.now.parts here.now.node order.now)
        (answers (V.does here.now.planner.now.solver.now).next chain (map (λ (own : List ℤ). stage_at here.now.planner.now.problem.now here.now.pools.now.lists here.now.node own here.now.state.now) (values_of here.now.planner.now.problem.now.parts here.now.node order.now)))) }
    ensures few { IfOk result (λ found. found.unanswered ≤ length order.now) }
{
    let alloc = work.alloc();
    let mut chain = chain;
    let mut found = Certified::nothing(alloc, &mut work.spares);
    for k in 0..order.len() {
        let own = here.own(order[k]);
        turn_to(here, own, k == 0, lp);
        certify_next(
            alloc,
            &mut work.spares,
            here,
            own,
            lp,
            &mut chain,
            &mut found,
        )?;
    }
    work.keep_chain(chain);
    Ok(found)
}

/// Certifies these realizations, of which there are some, in a chain of their own, by the stage problem of the first one, whose
/// sides are set anew for each other one. The chain's memory is the workspace's, and free again afterwards.
pub(crate) fn certify_over<V: Solver>(
    work: &mut Workspace<V>,
    here: &Visit<V>,
    order: &[usize],
    lp: &mut StageLp,
) -> Result<Certified, PlanFault>
    requires visit { CanVisit here.now.planner.now.problem.now here.now.pools.now.lists here.now.node here.now.state.now }
    requires known { All (λ i. i < length (node_values_at here.now.planner.now.problem.now.parts here.now.node)) order.now }
    requires some { 0 < length order.now }
    requires few { length order.now ≤ 100 }
    requires stage { stage_in here.now.planner.now.problem.now here.now.pools.now.lists here.now.node (get_or (values_of here.now.planner.now.problem.now.parts here.now.node order.now) 0 []) here.now.state.now ≡ Some lp.old }
    ensures value { GivesOr Stops (λ found. found) result
        (in_chain (V.does here.now.planner.now.solver.now) here.now.planner.now.problem.now here.now.pools.now.lists here.now.iteration here.now.node here.now.state.now (values_of here.now.planner.now.problem.now.parts here.now.node order.now)) }
    ensures few { IfOk result (λ found. found.unanswered ≤ length order.now) }
{
    let chain = here.planner.begin(work, here.node, lp)?;
    certify_in_chain(work, here, order, lp, chain)
}

/// Like `certify_over`, with a stage problem of its own. Without realizations nothing is begun.
pub(crate) fn certify_each<V: Solver>(
    alloc: Global,
    here: &Visit<V>,
    order: &[usize],
) -> Result<Certified, PlanFault>
    requires visit { CanVisit here.now.planner.now.problem.now here.now.pools.now.lists here.now.node here.now.state.now }
    requires known { All (λ i. i < length (node_values_at here.now.planner.now.problem.now.parts here.now.node)) order.now }
    requires few { length order.now ≤ 100 }
    ensures value { GivesOr Stops (λ found. found) result
        (in_chain (V.does here.now.planner.now.solver.now) here.now.planner.now.problem.now here.now.pools.now.lists here.now.iteration here.now.node here.now.state.now (values_of here.now.planner.now.problem.now.parts here.now.node order.now)) }
    ensures few { IfOk result (λ found. found.unanswered ≤ length order.now) }
{
    let mut work = Workspace::new(alloc);
    if order.is_empty() {
        return Ok(Certified::nothing(alloc, &mut work.spares));
    }
    let mut lp = here.stage(&mut work.stages, here.own(order[0]))?;
    certify_over(&mut work, here, order, &mut lp)
}
