// Certificates of a node's realizations, from a solver's answers.
ghost use Rattle.std.specs.Prelude.{◌≡◌, ◌+◌, ◌<◌, ◌≤◌, ◌-◌, ◌^◌, [], true, length, get_or, All, IfOk, Some};
ghost use Rattle.problem.specs.Limits.{are_values};
ghost use Rattle.problem.specs.Validated.{subproblem_of};
ghost use Rattle.base_num.specs.Steps.{GivesOr};
ghost use Rattle.theory.specs.Problem.{node_at};
ghost use Rattle.theory.specs.View.{problem_of};
ghost use Rattle.cut_pool.specs.AtNodes.{PoolsFit};
ghost use Rattle.plan_stage.specs.Nodes.{stage_in};
ghost use Rattle.plan_stage.specs.Orders.{node_values_at};
ghost use Rattle.plan_answer.specs.Faults.{Stops};
ghost use Rattle.plan_backward.specs.Certifying.{certify, nothing_certified, order_at};
ghost use Rattle.plan_backward.specs.Given.{CanVisit, IsStageOver};

use base_num::{List, Memory};
use cut_pool::{Pools, Spares};
use lp_program::{Answer, Solver, StageLp};
use plan_answer::{Classified, Infeasibility, PlanFault, certificate_of_duals, classify};
use plan_stage::{Planner, StageMemory, stage_problem};
use std::alloc::Global;
use theory::Certificate;

/// A node at an incoming state, and all that its realizations are solved with.
#[derive(Drop)]
pub(crate) struct Visit<'a, V: Solver> {
    pub(crate) planner: &'a Planner<'a, V>,
    pub(crate) pools: &'a Pools,
    pub(crate) iteration: u32,
    pub(crate) node: u32,
    /// At scale 2^24, one entry per state.
    pub(crate) state: &'a [i128],
}

/// Certificates of some realizations.
#[derive(Drop)]
pub(crate) struct Certified {
    /// One per realization.
    pub(crate) list: List<Certificate>,
    /// The number of answers that were of no use.
    pub(crate) unanswered: u32,
}

impl Certified {
    /// No certificates, in the memory of those that are done with.
    pub(crate) fn nothing(alloc: Global, spares: &mut Spares) -> Certified
        ensures { result ≡ nothing_certified }
    {
        Certified {
            list: spares.certificates.take(alloc),
            unanswered: 0,
        }
    }
}

impl<'a, V: Solver> Visit<'a, V> {
    /// The numbers of the node's realizations, in the order in which they are solved.
    pub(crate) fn order(&self) -> &'a [usize]
        requires { self.now.node < length self.now.planner.now.problem.now.parts.nodes }
        ensures value { result.now ≡ order_at self.now.planner.now.problem.now.parts self.now.node }
        ensures known { All (λ i. i < length (node_values_at self.now.planner.now.problem.now.parts self.now.node)) result.now }
        ensures all { length result.now ≡ length (node_values_at self.now.planner.now.problem.now.parts self.now.node) }
        ensures some { 0 < length result.now }
        ensures few { length result.now ≤ 100 }
    {
        let _ = self.planner.problem().parts();
        self.planner.order(self.node)
    }

    /// The values of a realization of the node, by its number.
    pub(crate) fn own(&self, realization: usize) -> &'a [i64]
        requires known { self.now.node < length self.now.planner.now.problem.now.parts.nodes }
        requires there { realization < length (node_values_at self.now.planner.now.problem.now.parts self.now.node) }
        ensures value { result.now ≡ get_or (node_values_at self.now.planner.now.problem.now.parts self.now.node) realization [] }
        ensures fit { are_values (subproblem_of self.now.planner.now.problem.now self.now.node) result.now ≡ true }
    {
        let nodes = self.planner.problem().parts().nodes.as_slice();
        nodes[self.node as usize].values.as_slice()[realization].as_slice()
    }

    /// Builds the stage problem of the node at these values, in the memory that is lent.
    pub(crate) fn stage(
        &self,
        memory: &mut StageMemory,
        values: &[i64],
    ) -> Result<StageLp<'a>, Memory>
        requires visit { CanVisit self.now.planner.now.problem.now self.now.pools.now.lists self.now.node self.now.state.now }
        requires values { are_values (subproblem_of self.now.planner.now.problem.now self.now.node) values.now ≡ true }
        ensures value { IfOk result (λ lp. stage_in self.now.planner.now.problem.now self.now.pools.now.lists self.now.node values.now self.now.state.now ≡ Some lp) }
        ensures stage { IfOk result (IsStageOver self.now.planner.now.problem.now self.now.pools.now.lists self.now.node) }
    {
        stage_problem(
            memory,
            self.planner.problem(),
            self.pools,
            self.node,
            values,
            self.state,
        )
    }

    /// Certifies one more realization: classifies its answer, and settles it to a certificate, in the memory of those that are done
    /// with.
    #[tactic(auto, unfolding(crate::specs::Certifying::certify))]
    pub(crate) fn certify(
        &self,
        alloc: Global,
        spares: &mut Spares,
        values: &[i64],
        answer: &Answer,
        found: &mut Certified,
    ) -> Result<(), PlanFault>
        requires known { self.now.node < length self.now.planner.now.problem.now.parts.nodes }
        requires fit { PoolsFit self.now.planner.now.problem.now self.now.pools.now.lists }
        requires few { found.old.unanswered < 2 ^ 32 - 1 }
        ensures value { GivesOr Stops (λ _. found.new) result (certify self.now.pools.now.lists (node_at (problem_of self.now.planner.now.problem.now) self.now.node) self.now.iteration self.now.node self.now.state.now found.old values.now answer.now) }
        ensures few { found.new.unanswered ≤ found.old.unanswered + 1 }
    {
        let problem = self.planner.problem();
        match classify(alloc, problem, self.node, values, self.state, answer)? {
            Classified::Found => {}
            Classified::Unanswered => found.unanswered += 1,
            Classified::Infeasibility(rows) => {
                let infeasible = Infeasibility::new(
                    alloc,
                    self.iteration,
                    self.node,
                    values,
                    self.state,
                    rows,
                )?;
                return Err(PlanFault::Infeasible(infeasible));
            }
        }
        let certificate = certificate_of_duals(
            alloc, spares, problem, self.pools, self.node, answer,
        )?;
        found.list.push(certificate)?;
        Ok(())
    }
}
