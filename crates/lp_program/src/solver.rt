// Solvers of linear programs, which solve one after another.
ghost use Rattle.std.specs.Prelude.{◌≡◌, IfOk, OnOk};
ghost use Rattle.lp_program.specs.declared.programs.Program.{Program};
ghost use Rattle.lp_program.specs.declared.programs.Answer.{Answer};
ghost use Rattle.lp_program.specs.Proper.{IsProper, IsReference, Extends, IsLike};
ghost use Rattle.lp_program.specs.Solving.{Solving};

use crate::programs::Answer;
use crate::stage_lp::StageLp;
use base_num::Memory;
use std::alloc::Global;

/// A solver, known by what it does: the start that it makes for a node, the state of a chain of solves before its first
/// program, the answer to a program with the state of the chain after it, and how many solves go in two chains. The answers
/// need not be right.
pub trait Solver: Sync {
    /// The start that is made for a node, before any solve.
    type Start: Drop + Send + Sync;

    /// The state of a chain of solves.
    type Chain: Drop + Send;

    /// The functions of the solver.
    ghost does: { Self → Solving Self.Start Self.Chain };

    /// Whether a chain may begin with a program.
    ghost suits: { Self → Self.Start → Program → Type 0 };

    /// Two proofs that a chain may begin with a program are equal.
    ghost suits_is_fact: { (solver : Self) (start : Self.Start) (lp : Program) → IsProp (suits solver start lp) };

    /// Whether a chain may take a program.
    ghost fits: { Self → Self.Chain → Program → Type 0 };

    /// Makes the start of a node by its program without cuts. A chain may begin with each program that has the same decisions,
    /// as many columns, and the same own rows but for their sides. [`Memory`] where memory was refused.
    fn start(&self, alloc: Global, lp: &StageLp) -> Result<Self::Start, Memory>
        requires proper { IsProper lp.now }
        requires reference { IsReference lp.now }
        ensures made { IfOk result (λ made. made ≡ (does self.now).started lp.now) }
        ensures suits { IfOk result (λ made. (other : Program) → Extends lp.now other
            → suits self.now made other) };

    /// Begins a chain with its first program. It may take each program that differs from it in the sides of own rows
    /// alone. `spare` may hold a chain that is done with: its memory may be taken, and nothing else of it plays a part.
    /// [`Memory`] where memory was refused.
    fn begin(
        &self,
        alloc: Global,
        start: &Self::Start,
        lp: &StageLp,
        spare: &mut Option<Self::Chain>,
    ) -> Result<Self::Chain, Memory>
        requires proper { IsProper lp.now }
        requires suits { suits self.now start.now lp.now }
        ensures made { IfOk result (λ made. made ≡ (does self.now).begun start.now lp.now) }
        ensures fits { IfOk result (λ made. (other : Program) → IsLike lp.now other
            → fits self.now made other) };

    /// The answer to the next program of a chain. [`Memory`] where memory was refused: the chain holds nothing that
    /// is promised then.
    fn solve(&self, alloc: Global, chain: &mut Self::Chain, lp: &StageLp) -> Result<Answer, Memory>
        requires proper { IsProper lp.now }
        requires fits { fits self.now chain.old lp.now }
        ensures answer { IfOk result (λ found. found ≡ ((does self.now).next chain.old lp.now).0) }
        ensures chain { OnOk result (chain.new ≡ ((does self.now).next chain.old lp.now).1) }
        ensures fits { OnOk result ((other : Program) → IsLike lp.now other
            → fits self.now chain.new other) };

    /// Tells whether so many solves, of programs like this one, go in two chains, half of them in each. Two chains may go beside
    /// each other on two threads, and one chain begins less often, which takes less work.
    fn in_two_chains(&self, lp: &StageLp, solves: usize) -> bool
        ensures { result ≡ (does self.now).in_two lp.now solves };
}
