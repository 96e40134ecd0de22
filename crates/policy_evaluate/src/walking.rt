// The walk through the tree of the policy.
ghost use Rattle.std.specs.Prelude.{◌≡◌};
ghost use Rattle.plan_answer.specs.declared.plan_fault.PlanFault.TheVariants as plans;
ghost use Rattle.policy_evaluate.specs.declared.walking.Fault.TheVariants as faults;

use base_num::{List, Memory};
use plan_answer::PlanFault;
use plan_draw::PathStep;

/// The cost of the whole policy, or the first row that it misses.
#[derive(Drop)]
pub enum Verdict {
    /// Each branch meets its rows.
    Cost {
        /// The least whole number at scale 2^24 that is not below the cost of the policy.
        upper: i128,
    },
    /// A branch misses a row.
    Missed {
        /// The nodes and realizations from the root to the first branch that misses a row.
        branches: List<PathStep>,
        /// The number of the first row that it misses.
        row: u32,
        /// By how much it misses that row, at scale 2^24.
        residual: i128,
    },
}

// Where a branch misses a row: the branches from it back to the root, the row and its residual.
#[derive(Drop)]
pub(crate) struct Missed {
    pub(crate) branches: List<PathStep>,
    pub(crate) row: u32,
    pub(crate) residual: i128,
}

// Why a walk ends before its end.
#[derive(Drop)]
pub(crate) enum Fault {
    Missed(Missed),
    Stopped(PlanFault),
}

impl From<Memory> for Fault {
    ghost from_gives = { λ _ e. e ≡ faults.Stopped plans.Memory };

    fn from(_: Memory) -> Self {
        Fault::Stopped(PlanFault::Memory)
    }
}

impl From<PlanFault> for Fault {
    ghost from_gives = { λ f e. e ≡ faults.Stopped f };

    fn from(fault: PlanFault) -> Self {
        Fault::Stopped(fault)
    }
}
