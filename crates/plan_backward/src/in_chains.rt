// The realizations of a node in one chain, or in two beside each other.
ghost use Rattle.std.specs.Prelude.{◌≡◌, ◌+◌, ◌<◌, ◌≤◌, [], length, get_or, All, Result, IfOk, Some};
ghost use Rattle.plan_backward.specs.declared.certified.Certified.{Certified};
ghost use Rattle.plan_answer.specs.declared.plan_fault.PlanFault.{PlanFault};
ghost use Rattle.base_num.specs.Steps.{GivesOr};
ghost use Rattle.plan_stage.specs.Nodes.{stage_in};
ghost use Rattle.plan_stage.specs.Orders.{node_values_at};
ghost use Rattle.plan_stage.specs.Ready.{AreReady};
ghost use Rattle.plan_backward.specs.Certifying.{both_certified, certified, certified_in_order, first_half, in_chain, in_turn, order_at, second_half, values_of};
ghost use Rattle.plan_answer.specs.Faults.{Stops};
ghost use Rattle.plan_backward.specs.Given.{CanVisit, IsStageOver};

use crate::certified::{Certified, Visit};
use crate::chains::{certify_each, certify_over};
use crate::places::in_places;
use base_num::{List, Memory};
use cut_pool::Spares;
use lp_program::{Solver, StageLp};
use plan_answer::PlanFault;
use plan_stage::{Planner, Workspace};
use std::alloc::Global;
use std::thread::{Threads, join};

/// A list up to its middle, rounded down, and from there on.
fn halves(order: &[usize]) -> (&[usize], &[usize])
    ensures first { result.0.now ≡ first_half order.now }
    ensures second { result.1.now ≡ second_half order.now }
    ensures whole { length result.0.now + length result.1.now ≡ length order.now }
{
    order.split_at(order.len() / 2)
}

/// The certificates of two parts, one after the other. The memory of the second part's list is kept.
fn joined(spares: &mut Spares, first: Certified, second: Certified) -> Result<Certified, Memory>
    requires { first.unanswered + second.unanswered ≤ 100 }
    ensures { IfOk result (λ found. found ≡ both_certified first second) }
{
    let mut list = first.list.into_vec();
    let mut tail = second.list.into_vec();
    list.append(&mut tail)?;
    spares.certificates.give(List::from_vec(tail));
    Ok(Certified {
        list: List::from_vec(list),
        unanswered: first.unanswered + second.unanswered,
    })
}

/// Joins the certificates of two parts, one after the other. Where both refuse, the first part's fault comes.
fn both(
    spares: &mut Spares,
    first: Result<Certified, PlanFault>,
    second: Result<Certified, PlanFault>,
) -> Result<Certified, PlanFault>
    requires { IfOk first (λ f. IfOk second (λ g. f.unanswered + g.unanswered ≤ 100)) }
    ensures value { (one other : Result Certified PlanFault)
        → GivesOr Stops (λ f. f) first one → GivesOr Stops (λ g. g) second other
        → GivesOr Stops (λ found. found) result (in_turn one other) }
    ensures few { IfOk result (λ found. found.unanswered ≤ 100) }
{
    Ok(joined(spares, first?, second?)?)
}

/// Certifies two parts of a node's realizations, each in a chain of its own, the chains beside each other.
fn beside_each_other<R: Threads, V: Solver>(
    rt: &R,
    alloc: Global,
    spares: &mut Spares,
    here: &Visit<V>,
    left: &[usize],
    right: &[usize],
) -> Result<Certified, PlanFault>
    requires visit { CanVisit here.now.planner.now.problem.now here.now.pools.now.lists here.now.node here.now.state.now }
    requires left { All (λ i. i < length (node_values_at here.now.planner.now.problem.now.parts here.now.node)) left.now }
    requires right { All (λ i. i < length (node_values_at here.now.planner.now.problem.now.parts here.now.node)) right.now }
    requires few { length left.now + length right.now ≤ 100 }
    ensures value { GivesOr Stops (λ found. found) result (in_turn
        (in_chain (V.does here.now.planner.now.solver.now) here.now.planner.now.problem.now here.now.pools.now.lists here.now.iteration here.now.node here.now.state.now (values_of here.now.planner.now.problem.now.parts here.now.node left.now))
        (in_chain (V.does here.now.planner.now.solver.now) here.now.planner.now.problem.now here.now.pools.now.lists here.now.iteration here.now.node here.now.state.now (values_of here.now.planner.now.problem.now.parts here.now.node right.now))) }
    ensures few { IfOk result (λ found. found.unanswered ≤ 100) }
{
    let planner = here.planner;
    let (problem, solver, starts) = (planner.problem(), planner.solver(), planner.starts());
    let (pools, iteration, node, state) = (here.pools, here.iteration, here.node, here.state);
    let (first, second) = join(
        rt,
        || -> Result<Certified, PlanFault>
            requires ready { AreReady (V.does solver.now) (V.suits solver.now) problem.now starts.now.items starts.now.orders }
            requires visit { CanVisit problem.now pools.now.lists node state.now }
            requires known { All (λ i. i < length (node_values_at problem.now.parts node)) left.now }
            requires few { length left.now ≤ 100 }
            ensures value { GivesOr Stops (λ found. found) result
                (in_chain (V.does solver.entry.now) problem.entry.now pools.entry.now.lists iteration node state.entry.now (values_of problem.entry.now.parts node left.entry.now)) }
            ensures few { IfOk result (λ found. found.unanswered ≤ length left.entry.now) }
        {
            let planner = Planner::new(problem, solver, starts);
            let here = Visit {
                planner: &planner,
                pools,
                iteration,
                node,
                state,
            };
            certify_each(alloc, &here, left)
        },
        || -> Result<Certified, PlanFault>
            requires ready { AreReady (V.does solver.now) (V.suits solver.now) problem.now starts.now.items starts.now.orders }
            requires visit { CanVisit problem.now pools.now.lists node state.now }
            requires known { All (λ i. i < length (node_values_at problem.now.parts node)) right.now }
            requires few { length right.now ≤ 100 }
            ensures value { GivesOr Stops (λ found. found) result
                (in_chain (V.does solver.entry.now) problem.entry.now pools.entry.now.lists iteration node state.entry.now (values_of problem.entry.now.parts node right.entry.now)) }
            ensures few { IfOk result (λ found. found.unanswered ≤ length right.entry.now) }
        {
            let planner = Planner::new(problem, solver, starts);
            let here = Visit {
                planner: &planner,
                pools,
                iteration,
                node,
                state,
            };
            certify_each(alloc, &here, right)
        },
    );
    both(spares, first, second)
}

/// Certifies a node's realizations in their order, by the stage problem of the first one: in one chain or, where the solver says
/// so, the first half in one and the rest in another, beside each other.
fn in_chains<R: Threads, V: Solver>(
    rt: &R,
    work: &mut Workspace<V>,
    here: &Visit<V>,
    lp: &mut StageLp,
) -> Result<Certified, PlanFault>
    requires visit { CanVisit here.now.planner.now.problem.now here.now.pools.now.lists here.now.node here.now.state.now }
    requires stage { stage_in here.now.planner.now.problem.now here.now.pools.now.lists here.now.node (get_or (values_of here.now.planner.now.problem.now.parts here.now.node (order_at here.now.planner.now.problem.now.parts here.now.node)) 0 []) here.now.state.now ≡ Some lp.old }
    ensures value { GivesOr Stops (λ found. found) result
        (certified_in_order (V.does here.now.planner.now.solver.now) here.now.planner.now.problem.now here.now.pools.now.lists here.now.iteration here.now.node here.now.state.now) }
    ensures few { IfOk result (λ found. found.unanswered ≤ 100) }
{
    let order = here.order();
    if !here.planner.solver().in_two_chains(lp, order.len()) {
        return certify_over(work, here, order, lp);
    }
    let (left, right) = halves(order);
    beside_each_other(rt, work.alloc(), &mut work.spares, here, left, right)
}

/// Certifies a node's realizations in their order. Their stage problem is in the workspace's memory, which is free again
/// afterwards.
fn certified_in_order<R: Threads, V: Solver>(
    rt: &R,
    work: &mut Workspace<V>,
    here: &Visit<V>,
) -> Result<Certified, PlanFault>
    requires { CanVisit here.now.planner.now.problem.now here.now.pools.now.lists here.now.node here.now.state.now }
    ensures value { GivesOr Stops (λ found. found) result
        (certified_in_order (V.does here.now.planner.now.solver.now) here.now.planner.now.problem.now here.now.pools.now.lists here.now.iteration here.now.node here.now.state.now) }
    ensures count { IfOk result (λ found. length found.list ≡ length (order_at here.now.planner.now.problem.now.parts here.now.node)) }
    ensures few { IfOk result (λ found. found.unanswered ≤ 100) }
{
    let first = here.own(here.order()[0]);
    let mut lp = here.stage(&mut work.stages, first)?;
    let found = in_chains(rt, work, here, &mut lp);
    work.give_back(lp);
    found
}

/// Certifies a node's realizations, by solves in an order in which neighbours are alike. Each certificate stands at the place of
/// its realization.
#[tactic(auto, unfolding(crate::specs::Certifying::certified))]
pub(crate) fn certified<R: Threads, V: Solver>(
    rt: &R,
    work: &mut Workspace<V>,
    here: &Visit<V>,
) -> Result<Certified, PlanFault>
    requires { CanVisit here.now.planner.now.problem.now here.now.pools.now.lists here.now.node here.now.state.now }
    ensures value { GivesOr Stops (λ found. found) result
        (certified (V.does here.now.planner.now.solver.now) here.now.planner.now.problem.now here.now.pools.now.lists here.now.iteration here.now.node here.now.state.now) }
    ensures few { IfOk result (λ found. found.unanswered ≤ 100) }
{
    let found = certified_in_order(rt, work, here)?;
    let alloc = work.alloc();
    Ok(in_places(alloc, &mut work.spares, here.order(), found)?)
}
