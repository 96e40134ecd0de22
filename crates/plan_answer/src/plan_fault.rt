// Why planning stops.
ghost use Rattle.std.specs.Prelude.{◌≡◌};
ghost use Rattle.plan_answer.specs.declared.plan_fault.PlanFault.TheVariants as faults;

use crate::classifying::Infeasibility;
use base_device::Failed;
use base_num::Memory;

/// Why planning stops before its end.
#[derive(Drop)]
pub enum PlanFault {
    /// No decisions exist at a node, its values and its incoming state, as multipliers of its rows show.
    Infeasible(Infeasibility),
    /// The settled certificates of a node have a size above 2^127 - 1. The realization is the least such that the terms of the
    /// realizations up to it exceed that, or the number of realizations where only the remainders of the slopes bring the size
    /// there.
    Range {
        iteration: u32,
        node: u32,
        realization: u32,
    },
    /// The journal's disk failed.
    DiskFault,
    /// Memory was refused.
    Memory,
}

impl From<Failed> for PlanFault {
    ghost from_gives = { λ _ e. e ≡ faults.DiskFault };

    fn from(_: Failed) -> Self {
        PlanFault::DiskFault
    }
}

impl From<Memory> for PlanFault {
    ghost from_gives = { λ _ e. e ≡ faults.Memory };

    fn from(_: Memory) -> Self {
        PlanFault::Memory
    }
}
