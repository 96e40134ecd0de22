// How a run ends where a step of it stops.
ghost use Rattle.std.specs.Prelude.{◌≡◌};
ghost use Rattle.run_program.specs.Outcome.{status_of_fault, status_of_plan};

use crate::status::Status;
use journal_load::LoadFault;
use plan_answer::PlanFault;

/// How a run ends where a journal is not loaded.
pub(crate) fn status_of_fault(fault: LoadFault) -> Status
    ensures { result ≡ status_of_fault fault }
{
    match fault {
        LoadFault::Refused(refusal) => Status::JournalRefused(refusal),
        LoadFault::TooMuch(formula) => Status::TooMuch(formula),
        LoadFault::DiskFault => Status::DiskFault,
        LoadFault::Memory => Status::Memory,
    }
}

/// How a run ends where planning stops.
pub(crate) fn status_of_plan(fault: PlanFault) -> Status
    ensures { result ≡ status_of_plan fault }
{
    match fault {
        PlanFault::Infeasible(infeasible) => Status::Infeasible(infeasible),
        PlanFault::Range {
            iteration,
            node,
            realization,
        } => Status::Range {
            iteration,
            node,
            realization,
        },
        PlanFault::DiskFault => Status::DiskFault,
        PlanFault::Memory => Status::Memory,
    }
}
