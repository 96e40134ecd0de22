// A solver in as many chains as are asked for.
ghost use Rattle.std.specs.Prelude.{◌≡◌, IfOk, OnOk};
ghost use Rattle.lp_program.specs.declared.programs.Program.{Program};
ghost use Rattle.lp_program.specs.declared.programs.Answer.{Answer};
ghost use Rattle.lp_program.specs.Proper.{IsProper, IsReference, Extends, IsLike};
ghost use Rattle.lp_program.specs.Solving.{Solving};
ghost use Rattle.lp_program.specs.Solving.{Solving};

use base_num::Memory;
use lp_program::{Answer, Solver, StageLp};
use std::alloc::Global;

/// Answers as the solver inside, and has all solves go in two chains, half of them in each, or in one.
#[derive(Drop)]
pub struct Chained<'a, V: Solver> {
    pub solver: &'a V,
    pub two: bool,
}

impl<'a, V: Solver> Solver for Chained<'a, V> {
    type Start = V::Start;

    type Chain = V::Chain;

    ghost does = { λ chained. let own = V.does chained.solver.now in
        record { started = own.started; begun = own.begun; next = own.next; in_two = λ _ _. chained.two } };

    ghost suits = { λ chained start lp. V.suits chained.solver.now start lp };

    ghost suits_is_fact = { λ chained start lp. V.suits_is_fact chained.solver.now start lp };

    ghost fits = { λ chained chain lp. V.fits chained.solver.now chain lp };

    fn start(&self, alloc: Global, lp: &StageLp) -> Result<V::Start, Memory> {
        self.solver.start(alloc, lp)
    }

    fn begin(
        &self,
        alloc: Global,
        start: &V::Start,
        lp: &StageLp,
        spare: &mut Option<V::Chain>,
    ) -> Result<V::Chain, Memory> {
        self.solver.begin(alloc, start, lp, spare)
    }

    fn solve(&self, alloc: Global, chain: &mut V::Chain, lp: &StageLp) -> Result<Answer, Memory> {
        self.solver.solve(alloc, chain, lp)
    }

    fn in_two_chains(&self, _lp: &StageLp, _solves: usize) -> bool {
        self.two
    }
}
