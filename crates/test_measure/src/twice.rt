// A solver that takes twice the time of another.
ghost use Rattle.std.specs.Prelude.{◌≡◌, IfOk, OnOk};
ghost use Rattle.lp_program.specs.declared.programs.Program.{Program};
ghost use Rattle.lp_program.specs.declared.programs.Answer.{Answer};
ghost use Rattle.lp_program.specs.Proper.{IsProper, IsReference, Extends, IsLike};
ghost use Rattle.lp_program.specs.Solving.{Solving};

use base_num::Memory;
use lp_program::{Answer, Solver, StageLp};
use std::alloc::Global;

/// Solves each program twice, in two chains that know nothing of each other, and answers as the first. The time that it takes
/// beyond the solver alone is the time of the solver.
#[derive(Drop)]
pub struct Twice<'a, V: Solver> {
    pub solver: &'a V,
}

// Parts a pair of chains.
fn parted<A, B>(pair: Option<(A, B)>) -> (Option<A>, Option<B>) {
    match pair {
        Some((one, other)) => (Some(one), Some(other)),
        None => (None, None),
    }
}

impl<'a, V: Solver> Solver for Twice<'a, V> {
    type Start = V::Start;

    type Chain = (V::Chain, V::Chain);

    ghost does = { λ twice. let own = V.does twice.solver.now in
        record { started = own.started; begun = λ start lp. (own.begun start lp, own.begun start lp); next = λ chains lp. ((own.next chains.0 lp).0, ((own.next chains.0 lp).1, (own.next chains.1 lp).1)); in_two = own.in_two } };

    ghost suits = { λ twice start lp. V.suits twice.solver.now start lp };

    ghost suits_is_fact = { λ twice start lp. V.suits_is_fact twice.solver.now start lp };

    ghost fits = { λ twice chains lp. V.fits twice.solver.now chains.0 lp × V.fits twice.solver.now chains.1 lp };

    fn start(&self, alloc: Global, lp: &StageLp) -> Result<V::Start, Memory> {
        self.solver.start(alloc, lp)
    }

    fn begin(
        &self,
        alloc: Global,
        start: &V::Start,
        lp: &StageLp,
        spare: &mut Option<(V::Chain, V::Chain)>,
    ) -> Result<(V::Chain, V::Chain), Memory> {
        let (mut one, mut other) = parted(spare.take());
        let first = self.solver.begin(alloc, start, lp, &mut one)?;
        let second = self.solver.begin(alloc, start, lp, &mut other)?;
        Ok((first, second))
    }

    fn solve(
        &self,
        alloc: Global,
        chains: &mut (V::Chain, V::Chain),
        lp: &StageLp,
    ) -> Result<Answer, Memory> {
        let answer = self.solver.solve(alloc, &mut chains.0, lp)?;
        self.solver.solve(alloc, &mut chains.1, lp)?;
        Ok(answer)
    }

    fn in_two_chains(&self, lp: &StageLp, solves: usize) -> bool {
        self.solver.in_two_chains(lp, solves)
    }
}
