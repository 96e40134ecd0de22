// The reports of the commands that plan over a problem.
ghost use Rattle.std.specs.Prelude.{◌≡◌, ◌≤◌, List, ℕ, IfOk, IfErr, IfSome, Ok, Err, true};
ghost use Rattle.journal_file.specs.Causes.{DiskCause};
ghost use Rattle.journal_load.specs.declared.refusal.LoadFault.TheVariants as faults;
ghost use Rattle.base_device.specs.Disks.{Stays};
ghost use Rattle.policy_report.specs.Report.{base_text};
ghost use Rattle.read_file.specs.Problem.{problem_at};
ghost use Rattle.theory.specs.Pools.{Sound};
ghost use Rattle.theory.specs.Range.{based};
ghost use Rattle.theory.specs.View.{problem_of};
ghost use Rattle.theory.specs.declared.cut.Cut.{Cut};
ghost use Rattle.cut_pool.specs.AtNodes.{PoolsFit};
ghost use Rattle.run_program.specs.Causes.{Lacks};
ghost use Rattle.run_program.specs.Journals.{IfTraining, KeepsJournal, Leaves, RunLeavesPrefix, status_of_report};
ghost use Rattle.run_program.specs.Kinds.{precedes_journal};
ghost use Rattle.run_program.specs.Outcome.{based_at, checked, Checks, ReadsJournal, Reports};
ghost use Rattle.run_program.specs.SoundText.{IsSoundReport, SoundText};
ghost use Rattle.run_program.specs.Words.{IsTaskWithin};
ghost use Rattle.run_program.specs.declared.status.Status.TheVariants as statuses;
ghost use Rattle.run_words.specs.declared.command.Command.TheVariants as commands;

use crate::accepted::{Accepted, based_at};
use crate::endings::status_of_fault;
use crate::evaluating::report_evaluate;
use crate::risk_cuts::report_robust;
use crate::simulating::{Scenarios, report_scenarios};
use crate::status::Status;
use crate::training::report_train;
use base_device::Disk;
use base_num::Memory;
use cut_pool::Pools;
use journal_load::{LoadFault, load};
use lp_program::Solver;
use policy_report::{base_report, check_report};
use problem::Problem;
use read_file::ReadRefusal;
use run_words::{Command, TrainingNumbers};
use sha2::{Digest, Sha256};
use std::alloc::Global;
use std::thread::Threads;

/// The report of what a journal gives over the base cuts of the problem of these bytes.
#[tactic(auto, unfolding(crate::specs::Outcome::checked))]
fn check<D: Disk>(alloc: Global, accepted: Accepted, journal: &mut D) -> Result<Vec<u8>, LoadFault>
    requires base { based accepted.problem.now ≡ Ok accepted.pools.lists }
    ensures value { IfSome (D.store journal.old).reads (λ kept. Checks (λ v. v.items) result (checked accepted.entry.bytes.now (record { problem = accepted.entry.problem.now; pools = accepted.entry.pools.lists }) kept)) }
    ensures sound { IfOk result (λ v. (cuts : List (List Cut)) × IsSoundReport commands.Check accepted.entry.bytes.now accepted.entry.problem.now cuts v.items) }
    ensures stays { Stays (D.store journal.old) (D.store journal.new) }
    ensures cause { DiskCause (D.faults journal.old) (D.faults journal.new) (result ≡ Err faults.DiskFault) }
{
    let problem = accepted.problem;
    let _ = problem.parts();
    let digest = Sha256::digest(accepted.bytes);
    let asked = journal_load::Asked {
        digest: &digest,
        seed: None,
        batch: None,
    };
    let loaded = load(alloc, problem, accepted.pools, journal, &asked)?;
    let text = check_report(alloc, problem, &loaded)?;
    Ok(text)
}

/// The report of `check` over the base cuts of the problem of these bytes.
fn report_check<D: Disk, V: Solver>(
    alloc: Global,
    accepted: Accepted,
    journal: &mut D,
    solver: &V,
) -> Result<Vec<u8>, Status>
    requires read { based_at accepted.bytes.now ≡ Ok (record { problem = accepted.problem.now; pools = accepted.pools.lists }) }
    requires base { based accepted.problem.now ≡ Ok accepted.pools.lists }
    ensures report { IfOk result (λ v. Reports (V.does solver.now) commands.Check (D.store journal.old).reads accepted.entry.bytes.now (Ok v.items)) }
    ensures sound { IfOk result (λ v. (cuts : List (List Cut)) × IsSoundReport commands.Check accepted.entry.bytes.now accepted.entry.problem.now cuts v.items) }
    ensures lacks { IfErr result (λ s. Lacks (V.does solver.now) commands.Check (D.store journal.old).reads (D.faults journal.old) (D.faults journal.new) accepted.entry.bytes.now s) }
    ensures stays { Stays (D.store journal.old) (D.store journal.new) }
    ensures later { D.faults journal.old ≤ D.faults journal.new }
{
    match check(alloc, accepted, journal) {
        Ok(text) => Ok(text),
        Err(fault) => {
            let _ = solver;
            Err(status_of_fault(fault))
        }
    }
}

/// The report of base cuts.
fn report_base(alloc: Global, problem: &Problem, pools: Pools) -> Result<Vec<u8>, Status>
    requires fit { PoolsFit problem.now pools.lists }
    requires sound { Sound (problem_of problem.now) pools.lists }
    ensures text { IfOk result (λ v. v.items ≡ base_text problem.now pools.lists) }
    ensures sound { (bytes : List ℕ) → IfOk result (λ v. IsSoundReport commands.Base bytes problem.now pools.lists v.items) }
    ensures memory { IfErr result (λ s. s ≡ statuses.Memory) }
{
    let _ = problem.parts();
    match base_report(alloc, problem, &pools) {
        Ok(text) => Ok(text),
        Err(Memory) => Err(Status::Memory),
    }
}

/// The report of a command over the base cuts of the problem of these bytes.
fn report_by<R: Threads + Sync, D: Disk, V: Solver>(
    rt: &R,
    alloc: Global,
    command: Command,
    accepted: Accepted,
    journal: &mut D,
    solver: &V,
) -> Result<Vec<u8>, Status>
    requires within { IsTaskWithin command }
    requires read { based_at accepted.bytes.now ≡ Ok (record { problem = accepted.problem.now; pools = accepted.pools.lists }) }
    requires known { problem_at accepted.bytes.now ≡ Ok accepted.problem.now }
    requires base { based accepted.problem.now ≡ Ok accepted.pools.lists }
    requires fit { PoolsFit accepted.problem.now accepted.pools.lists }
    requires sound { Sound (problem_of accepted.problem.now) accepted.pools.lists }
    ensures report { IfOk result (λ v. Reports (V.does solver.now) command (D.store journal.old).reads accepted.entry.bytes.now (Ok v.items)) }
    ensures sound { IfOk result (λ v. (cuts : List (List Cut)) × IsSoundReport command accepted.entry.bytes.now accepted.entry.problem.now cuts v.items) }
    ensures lacks { IfErr result (λ s. Lacks (V.does solver.now) command (D.store journal.old).reads (D.faults journal.old) (D.faults journal.new) accepted.entry.bytes.now s) }
    ensures grown { IfTraining command (λ t. IfSome (D.store journal.old).reads (λ kept. Leaves (V.does solver.now) result accepted.entry.bytes.now kept (D.store journal.new) t)) }
    ensures any_moment { IfTraining command (λ t. IfSome (D.store journal.old).reads (λ kept. RunLeavesPrefix (V.does solver.now) accepted.entry.bytes.now kept (D.store journal.old) (D.store journal.new) t)) }
    ensures stays { KeepsJournal command result → Stays (D.store journal.old) (D.store journal.new) }
    ensures refused { precedes_journal (status_of_report result) ≡ true → journal.new ≡ journal.old }
    ensures untouched { ¬ (ReadsJournal command) → journal.new ≡ journal.old }
    ensures later { D.faults journal.old ≤ D.faults journal.new }
{
    match command {
        Command::Base => report_base(alloc, accepted.problem, accepted.pools),
        Command::Train { seed, count, batch } => {
            let numbers = TrainingNumbers { seed, count, batch };
            report_train(rt, alloc, accepted, journal, solver, numbers)
        }
        Command::Check => report_check(alloc, accepted, journal, solver),
        Command::Simulate { seed, count } => {
            let scenarios = Scenarios::Drawn { seed, count };
            report_scenarios(alloc, accepted, journal, solver, scenarios)
        }
        Command::Validate => {
            let scenarios = Scenarios::Stored;
            report_scenarios(alloc, accepted, journal, solver, scenarios)
        }
        Command::Evaluate => report_evaluate(alloc, accepted, journal, solver),
        Command::Robust => report_robust(alloc, accepted, journal, solver),
        Command::Hydro | Command::Gen { .. } => unreachable!(),
    }
}

/// The report of a command over the bytes of a problem and a journal, or how the run ends without one.
pub(crate) fn report_of<R: Threads + Sync, D: Disk, V: Solver>(
    rt: &R,
    alloc: Global,
    command: Command,
    bytes: &[u8],
    journal: &mut D,
    solver: &V,
) -> Result<Vec<u8>, Status>
    requires { IsTaskWithin command }
    ensures report { IfOk result (λ v. Reports (V.does solver.now) command (D.store journal.old).reads bytes.now (Ok v.items)) }
    ensures sound { IfOk result (λ v. SoundText command bytes.now v.items) }
    ensures lacks { IfErr result (λ s. Lacks (V.does solver.now) command (D.store journal.old).reads (D.faults journal.old) (D.faults journal.new) bytes.now s) }
    ensures grown { IfTraining command (λ t. IfSome (D.store journal.old).reads (λ kept. Leaves (V.does solver.now) result bytes.now kept (D.store journal.new) t)) }
    ensures any_moment { IfTraining command (λ t. IfSome (D.store journal.old).reads (λ kept. RunLeavesPrefix (V.does solver.now) bytes.now kept (D.store journal.old) (D.store journal.new) t)) }
    ensures stays { KeepsJournal command result → Stays (D.store journal.old) (D.store journal.new) }
    ensures refused { precedes_journal (status_of_report result) ≡ true → journal.new ≡ journal.old }
    ensures untouched { ¬ (ReadsJournal command) → journal.new ≡ journal.old }
    ensures later { D.faults journal.old ≤ D.faults journal.new }
{
    let (problem, pools) = match based_at(alloc, bytes) {
        Ok(based) => based,
        Err(ReadRefusal::Refused(refusal)) => return Err(Status::ProblemRefused(refusal)),
        Err(ReadRefusal::Memory) => return Err(Status::Memory),
    };
    let accepted = Accepted {
        bytes,
        problem: &problem,
        pools,
    };
    report_by(rt, alloc, command, accepted, journal, solver)
}
