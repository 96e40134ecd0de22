// Solvers that solve nothing, for tests.
ghost use Rattle.std.specs.Prelude.{◌≡◌, IfOk, OnOk, take, true, ⊤};
ghost use Rattle.std.specs.Coded.{Unit-prop};
ghost use Rattle.lp_program.specs.declared.programs.Program.{Program};
ghost use Rattle.lp_program.specs.declared.programs.Answer.{Answer};
ghost use Rattle.lp_program.specs.Proper.{IsProper, IsReference, Extends, IsLike};
ghost use Rattle.lp_program.specs.Answers.{zero_of};

use crate::duals::Duals;
use crate::programs::{Answer, Kind};
use crate::solver::Solver;
use crate::stage_lp::StageLp;
use base_num::{Memory, copied};
use std::alloc::Global;
use std::sync::atomic::{AtomicBool, AtomicU64, Ordering};

// Each column at its lower bound, each dual 0.
#[tactic(auto, unfolding(crate::specs::Answers::zero_of))]
fn all_zero(alloc: Global, lp: &StageLp) -> Result<Answer, Memory>
    ensures { IfOk result (λ found. found ≡ zero_of lp.now) }
{
    Ok(Answer {
        kind: Kind::Found,
        point: lp.lows(alloc)?,
        duals: lp.zeros(alloc),
    })
}

/// Claims that each column is found at its lower bound and each dual is 0.
pub struct Zero;

impl Solver for Zero {
    type Start = ();

    type Chain = ();

    ghost does = { λ _. record { started = λ _. tt; begun = λ _ _. tt; next = λ _ lp. (zero_of lp, tt); in_two = λ _ _. true } };

    ghost suits = { λ _ _ _. ⊤ };

    ghost suits_is_fact = { λ _ _ _. Unit-prop };

    ghost fits = { λ _ _ _. ⊤ };

    fn start(&self, _alloc: Global, _lp: &StageLp) -> Result<(), Memory> {
        Ok(())
    }

    fn begin(
        &self,
        _alloc: Global,
        _start: &(),
        _lp: &StageLp,
        _spare: &mut Option<()>,
    ) -> Result<(), Memory> {
        Ok(())
    }

    fn solve(&self, alloc: Global, _chain: &mut (), lp: &StageLp) -> Result<Answer, Memory> {
        all_zero(alloc, lp)
    }

    fn in_two_chains(&self, _lp: &StageLp, _solves: usize) -> bool {
        true
    }
}

/// Gives the same answer to each program, whatever its lengths.
#[derive(Drop)]
pub struct Liar {
    answer: Answer,
}

impl Liar {
    /// A solver with this answer.
    pub fn new(answer: Answer) -> Liar
        ensures { result.answer ≡ answer }
    {
        Liar { answer }
    }
}

impl Solver for Liar {
    type Start = ();

    type Chain = ();

    ghost does = { λ liar. record { started = λ _. tt; begun = λ _ _. tt; next = λ _ _. (liar.answer, tt); in_two = λ _ _. true } };

    ghost suits = { λ _ _ _. ⊤ };

    ghost suits_is_fact = { λ _ _ _. Unit-prop };

    ghost fits = { λ _ _ _. ⊤ };

    fn start(&self, _alloc: Global, _lp: &StageLp) -> Result<(), Memory> {
        Ok(())
    }

    fn begin(
        &self,
        _alloc: Global,
        _start: &(),
        _lp: &StageLp,
        _spare: &mut Option<()>,
    ) -> Result<(), Memory> {
        Ok(())
    }

    fn solve(&self, alloc: Global, _chain: &mut (), _lp: &StageLp) -> Result<Answer, Memory> {
        Ok(Answer {
            kind: self.answer.kind,
            point: copied(alloc, self.answer.point.as_slice())?,
            duals: Duals::new(alloc, self.answer.duals.whole(alloc)?),
        })
    }

    fn in_two_chains(&self, _lp: &StageLp, _solves: usize) -> bool {
        true
    }
}

/// Answers as [`Zero`], and shows whether two calls ran beside each other.
///
/// The first calls of `solve`, as many as it is made with, answer at once. The next two each set a
/// flag, and then look at the other's flag, at most so many times.
#[derive(Drop)]
pub struct Meeting {
    after: u64,
    limit: u64,
    calls: AtomicU64,
    first: AtomicBool,
    second: AtomicBool,
    first_saw: AtomicBool,
    second_saw: AtomicBool,
}

// Sets a flag, and looks at the other one at most so many times: whether it was seen.
fn meet(mine: &AtomicBool, other: &AtomicBool, limit: u64) -> bool {
    mine.store(true, Ordering::SeqCst);
    for _look in 0..limit {
        if other.load(Ordering::SeqCst) {
            return true;
        }
    }
    false
}

impl Meeting {
    /// A solver whose calls, but for the first `after`, meet; each looks at most `limit` times.
    pub fn new(after: u64, limit: u64) -> Meeting {
        Meeting {
            after,
            limit,
            calls: AtomicU64::new(0),
            first: AtomicBool::new(false),
            second: AtomicBool::new(false),
            first_saw: AtomicBool::new(false),
            second_saw: AtomicBool::new(false),
        }
    }

    /// Tells whether both calls saw the other.
    pub fn met(&self) -> bool {
        self.first_saw.load(Ordering::SeqCst) && self.second_saw.load(Ordering::SeqCst)
    }

    // Takes part in the meeting, where the call is one of the two that are to meet.
    fn visit(&self) {
        let call = self.calls.fetch_add(1, Ordering::SeqCst);
        if call < self.after {
            return;
        }
        match call - self.after {
            0 => {
                let saw = meet(&self.first, &self.second, self.limit);
                self.first_saw.store(saw, Ordering::SeqCst);
            }
            1 => {
                let saw = meet(&self.second, &self.first, self.limit);
                self.second_saw.store(saw, Ordering::SeqCst);
            }
            _ => {}
        }
    }
}

impl Solver for Meeting {
    type Start = ();

    type Chain = ();

    ghost does = { λ _. record { started = λ _. tt; begun = λ _ _. tt; next = λ _ lp. (zero_of lp, tt); in_two = λ _ _. true } };

    ghost suits = { λ _ _ _. ⊤ };

    ghost suits_is_fact = { λ _ _ _. Unit-prop };

    ghost fits = { λ _ _ _. ⊤ };

    fn start(&self, _alloc: Global, _lp: &StageLp) -> Result<(), Memory> {
        Ok(())
    }

    fn begin(
        &self,
        _alloc: Global,
        _start: &(),
        _lp: &StageLp,
        _spare: &mut Option<()>,
    ) -> Result<(), Memory> {
        Ok(())
    }

    fn solve(&self, alloc: Global, _chain: &mut (), lp: &StageLp) -> Result<Answer, Memory> {
        self.visit();
        all_zero(alloc, lp)
    }

    fn in_two_chains(&self, _lp: &StageLp, _solves: usize) -> bool {
        true
    }
}
