// A problem with a solver that is ready for it.
ghost use Rattle.std.specs.Prelude.{◌≡◌, ◌<◌, length, IfOk};
ghost use Rattle.std.specs.Coded.{Coded-set};
ghost use Rattle.lp_program.specs.declared.programs.Program.{Program};
ghost use Rattle.lp_program.specs.Proper.{IsLike};
ghost use Rattle.plan_stage.specs.Chained.{begun_at};
ghost use Rattle.plan_stage.specs.Nodes.{IsStageAt};
ghost use Rattle.plan_stage.specs.Orders.{node_values_at, solving_order};
ghost use Rattle.plan_stage.specs.Ready.{AreReady, AreReady-prop};

use crate::warm_starts::WarmStarts;
use crate::workspace::Workspace;
use base_num::Memory;
use lp_program::{Solver, StageLp};
use problem::Problem;

/// A problem with a solver, and what the solver made ready for each of its nodes.
#[derive(Drop)]
pub struct Planner<'a, V: Solver> {
    problem: &'a Problem,
    solver: &'a V,
    starts: &'a WarmStarts<V>,
    // The starts and the orders were made for this problem by this solver.
    ghost ready: { AreReady (V.does solver.now) (V.suits solver.now) problem.now starts.now.items starts.now.orders } by { AreReady-prop (V.does solver.now) (V.suits solver.now) problem.now starts.now.items starts.now.orders (λ x y. Coded-set V.Start.code x y) (V.suits_is_fact solver.now) },
}

impl<'a, V: Solver> Planner<'a, V> {
    /// A problem with a solver and the starts that it made for this problem.
    pub fn new(problem: &'a Problem, solver: &'a V, starts: &'a WarmStarts<V>) -> Planner<'a, V>
        requires { AreReady (V.does solver.now) (V.suits solver.now) problem.now starts.now.items starts.now.orders }
        ensures problem { result.problem.now ≡ problem.now }
        ensures solver { result.solver.now ≡ solver.now }
    {
        Planner {
            problem,
            solver,
            starts,
        }
    }

    /// The problem.
    pub fn problem(&self) -> &'a Problem
        ensures { result.now ≡ self.now.problem.now }
    {
        self.problem
    }

    /// The solver.
    pub fn solver(&self) -> &'a V
        ensures { result.now ≡ self.now.solver.now }
    {
        self.solver
    }

    /// The starts, and the orders of realizations.
    pub fn starts(&self) -> &'a WarmStarts<V>
        ensures ready { AreReady (V.does self.now.solver.now) (V.suits self.now.solver.now) self.now.problem.now result.now.items result.now.orders }
    {
        self.starts
    }

    /// The numbers of a node's realizations in the order in which they are solved: the first one, then each the nearest that is
    /// left to the one before, by the sum of the absolute differences of their values (Rosenkrantz, Stearns and Lewis 1977). Five
    /// or fewer stay as they are listed.
    pub fn order(&self, node: u32) -> &'a [usize]
        requires { node < length self.now.problem.now.parts.nodes }
        ensures { result.now ≡ solving_order (node_values_at self.now.problem.now.parts node) }
    {
        let _ = self.problem.parts();
        self.starts.order(node)
    }

    /// Begins a chain of a node with one of its stage problems, by the start of the node, in the memory of the chain that came
    /// back to the workspace last. The chain may take this stage problem and each that [`set_sides`](crate::set_sides) makes of
    /// it. [`Memory`] where memory was refused.
    pub fn begin(
        &self,
        work: &mut Workspace<V>,
        node: u32,
        lp: &StageLp,
    ) -> Result<V::Chain, Memory>
        requires known { node < length self.now.problem.now.parts.nodes }
        requires stage { IsStageAt self.now.problem.now node lp.now }
        ensures made { IfOk result (λ chain. chain ≡ begun_at (V.does self.now.solver.now) self.now.problem.now node lp.now) }
        ensures fits { IfOk result (λ chain. (other : Program) → IsLike lp.now other → V.fits self.now.solver.now chain other) }
    {
        let _ = self.problem.parts();
        self.solver
            .begin(work.alloc(), self.starts.at(node), lp, &mut work.chain)
    }
}
