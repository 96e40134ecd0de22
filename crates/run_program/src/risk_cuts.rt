// The worst of the weights that a problem lists.
ghost use Rattle.std.specs.Prelude.{◌≡◌, ◌≤◌, List, Ok, IfOk, IfErr, true};
ghost use Rattle.base_device.specs.Disks.{Stays};
ghost use Rattle.read_file.specs.Problem.{problem_at};
ghost use Rattle.theory.specs.Range.{based};
ghost use Rattle.theory.specs.declared.cut.Cut.{Cut};
ghost use Rattle.run_program.specs.Causes.{Lacks};
ghost use Rattle.run_program.specs.Journals.{status_of_report};
ghost use Rattle.run_program.specs.Kinds.{precedes_journal};
ghost use Rattle.run_program.specs.Outcome.{Reports, based_at};
ghost use Rattle.run_program.specs.SoundText.{IsSoundReport};
ghost use Rattle.run_program.specs.Listing.{status_of_risk_cuts};
ghost use Rattle.run_words.specs.declared.command.Command.TheVariants as commands;

use crate::accepted::Accepted;
use crate::endings::status_of_fault;
use crate::status::Status;
use base_device::Disk;
use base_num::{List, Memory};
use journal_load::load_keep;
use lp_program::Solver;
use policy_robust::{RobustFault, read_alternatives, robust, robust_report};
use read_file::ReadRefusal;
use sha2::{Digest, Sha256};
use std::alloc::Global;

/// How a run ends where risk cuts stop.
fn status_of_risk_cuts(fault: RobustFault) -> Status
    ensures { result ≡ status_of_risk_cuts fault }
{
    match fault {
        RobustFault::Range {
            iteration,
            node,
            realization,
        } => Status::Range {
            iteration,
            node,
            realization,
        },
        RobustFault::Memory => Status::Memory,
    }
}

/// The report of the risk cuts that the journal gives with the weights that the problem of these bytes lists.
pub(crate) fn report_robust<D: Disk, V: Solver>(
    alloc: Global,
    accepted: Accepted,
    journal: &mut D,
    solver: &V,
) -> Result<Vec<u8>, Status>
    requires read { based_at accepted.bytes.now ≡ Ok (record { problem = accepted.problem.now; pools = accepted.pools.lists }) }
    requires known { problem_at accepted.bytes.now ≡ Ok accepted.problem.now }
    requires base { based accepted.problem.now ≡ Ok accepted.pools.lists }
    ensures report { IfOk result (λ v. Reports (V.does solver.now) commands.Robust (D.store journal.old).reads accepted.entry.bytes.now (Ok v.items)) }
    ensures sound { IfOk result (λ v. (cuts : List (List Cut)) × IsSoundReport commands.Robust accepted.entry.bytes.now accepted.entry.problem.now cuts v.items) }
    ensures lacks { IfErr result (λ s. Lacks (V.does solver.now) commands.Robust (D.store journal.old).reads (D.faults journal.old) (D.faults journal.new) accepted.entry.bytes.now s) }
    ensures refused { precedes_journal (status_of_report result) ≡ true → journal.new ≡ journal.old }
    ensures stays { Stays (D.store journal.old) (D.store journal.new) }
    ensures later { D.faults journal.old ≤ D.faults journal.new }
{
    let problem = accepted.problem;
    let _ = problem.parts();
    let _ = solver;
    let alternatives = match read_alternatives(alloc, problem, accepted.bytes) {
        Ok(alternatives) => alternatives,
        Err(ReadRefusal::Refused(refusal)) => return Err(Status::ProblemRefused(refusal)),
        Err(ReadRefusal::Memory) => return Err(Status::Memory),
    };
    let digest = Sha256::digest(accepted.bytes);
    let mut entries = List::new(alloc);
    let loaded = match load_keep(
        alloc,
        problem,
        accepted.pools,
        journal,
        &digest,
        &mut entries,
    ) {
        Ok(loaded) => loaded,
        Err(fault) => return Err(status_of_fault(fault)),
    };
    let _ = loaded;
    let risk_cuts = match robust(alloc, problem, &alternatives, &entries) {
        Ok(risk_cuts) => risk_cuts,
        Err(fault) => return Err(status_of_risk_cuts(fault)),
    };
    match robust_report(alloc, problem, &risk_cuts) {
        Ok(text) => Ok(text),
        Err(Memory) => Err(Status::Memory),
    }
}
