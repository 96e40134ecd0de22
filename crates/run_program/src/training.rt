// Training on a journal, from its bytes to its report.
ghost use Rattle.std.specs.Prelude.{◌≡◌, ◌≤◌, ℕ, List, true, false, length, max, option_map, All, IfOk, IfErr, IfSome, OnOk, None, Some, Ok, Err};
ghost use Rattle.sha2.specs.Sha256.{sha256};
ghost use Rattle.base_num.specs.Steps.{GivesOr};
ghost use Rattle.base_device.specs.Disks.{Stays};
ghost use Rattle.base_device.specs.Since.{Quiet, LeavesOnly};
ghost use Rattle.problem.specs.Formulas.{too_much};
ghost use Rattle.theory.specs.Bound.{Under};
ghost use Rattle.theory.specs.Pools.{Sound};
ghost use Rattle.theory.specs.Range.{based};
ghost use Rattle.theory.specs.View.{problem_of};
ghost use Rattle.theory.specs.declared.cut.Cut.{Cut};
ghost use Rattle.cut_pool.specs.AtNodes.{PoolsFit};
ghost use Rattle.journal_file.specs.Causes.{DiskCause};
ghost use Rattle.journal_file.specs.CommitBytes.{IsClearAt};
ghost use Rattle.journal_file.specs.Head.{IsUncommitted};
ghost use Rattle.journal_load.specs.Accepted.{IsSafe};
ghost use Rattle.journal_load.specs.Load.{Outcome, seen_outcome};
ghost use Rattle.plan_train.specs.Training.{CanTrain, GoesOnWith, IsPrefixFrom, HoldsPrefix, grown_journal, iterations, title_of, trained};
ghost use Rattle.run_program.specs.Causes.{Lacks};
ghost use Rattle.run_program.specs.Journals.{RunLeavesPrefix};
ghost use Rattle.run_program.specs.Kinds.{is_refusal};
ghost use Rattle.run_program.specs.Outcome.{Reports, based_at, loaded_for, ready_for};
ghost use Rattle.run_program.specs.SoundText.{IsSoundReport};
ghost use Rattle.run_program.specs.Training.{ComesOfLoading, Refuses, StatusStopsAs, WhenTrained};
ghost use Rattle.run_program.specs.declared.status.Status.TheVariants as statuses;
ghost use Rattle.run_words.specs.declared.command.Command.TheVariants as commands;

use crate::accepted::Accepted;
use crate::endings::{status_of_fault, status_of_plan};
use crate::loading::prepared;
use crate::status::Status;
use base_device::Disk;
use base_num::Memory;
use cut_pool::Pools;
use journal_load::{Asked, Loaded, load};
use lp_program::Solver;
use plan_stage::{Planner, WarmStarts, Workspace};
use plan_train::{Training, train};
use policy_report::train_report;
use problem::{Problem, TooMuch};
use run_words::TrainingNumbers;
use sha2::{Digest, Sha256};
use std::alloc::Global;
use std::thread::Threads;

/// The first formula that passes its limit with as many iterations as are asked for or are there already.
fn too_much(problem: &Problem, count: u32, loaded: &Loaded) -> Option<TooMuch>
    requires few { length loaded.now.bounds ≤ 2000 }
    requires count { count ≤ 2000 }
    requires some { 1 ≤ loaded.now.batch }
    requires batch { loaded.now.batch ≤ 64 }
    ensures { result ≡ too_much problem.now (max count (length loaded.now.bounds)) loaded.now.batch }
{
    problem.too_much(count.max(loaded.bounds.len() as u32), loaded.batch)
}

/// The journal, loaded for training, where the formulas are kept. The pools are ready for stage problems.
#[tactic(auto, unfolding(crate::specs::Outcome::ready_for, crate::specs::Outcome::within_formulas))]
fn load_for<D: Disk>(
    alloc: Global,
    problem: &Problem,
    pools: Pools,
    journal: &mut D,
    digest: &[u8; 32],
    numbers: TrainingNumbers,
) -> Result<Loaded, Status>
    requires base { based problem.now ≡ Ok pools.lists }
    requires count { numbers.count ≤ 2000 }
    requires batch { IfSome numbers.batch (λ b. (1 ≤ b) × (b ≤ 64)) }
    ensures value { IfSome (D.store journal.old).reads (λ kept. GivesOr Refuses seen_outcome result
        (ready_for problem.now pools.lists digest.now numbers.seed numbers.count numbers.batch kept)) }
    ensures can { IfOk result (λ l. CanTrain problem.now numbers.count (seen_outcome l)) }
    ensures safe { IfOk result (IsSafe problem.now) }
    ensures stays { Stays (D.store journal.old) (D.store journal.new) }
    ensures cause { DiskCause (D.faults journal.old) (D.faults journal.new) (result ≡ Err statuses.DiskFault) }
    ensures own { IfErr result ComesOfLoading }
{
    let title = Asked {
        digest,
        seed: Some(numbers.seed),
        batch: numbers.batch,
    };
    match load(alloc, problem, pools, journal, &title) {
        Ok(loaded) => match too_much(problem, numbers.count, &loaded) {
            None => match prepared(alloc, problem, loaded) {
                Ok(loaded) => Ok(loaded),
                Err(Memory) => Err(Status::Memory),
            },
            Some(formula) => Err(Status::TooMuch(formula)),
        },
        Err(fault) => Err(status_of_fault(fault)),
    }
}

/// Trains on what was loaded, once what is pending on the disk is synced.
fn train_on<R: Threads + Sync, D: Disk, V: Solver>(
    rt: &R,
    work: &mut Workspace<V>,
    planner: &Planner<V>,
    journal: &mut D,
    training: &Training,
    loaded: &mut Loaded,
) -> Result<(), Status>
    requires can { CanTrain planner.now.problem.now training.now.count (seen_outcome loaded.old) }
    requires uncommitted { loaded.old.committed ≡ false → IfSome (D.store journal.old).reads IsUncommitted }
    requires clear { loaded.old.committed ≡ true → IfSome (D.store journal.old).reads (IsClearAt loaded.old.end) }
    ensures stop { StatusStopsAs result (iterations (V.does planner.now.solver.now) planner.now.problem.now training.now.seed training.now.count (seen_outcome loaded.old)).stop }
    ensures value { OnOk result (seen_outcome loaded.new ≡ trained (seen_outcome loaded.old) (iterations (V.does planner.now.solver.now) planner.now.problem.now training.now.seed training.now.count (seen_outcome loaded.old))) }
    ensures reads { WhenTrained result ((D.store journal.new).reads
        ≡ option_map (λ kept. grown_journal training.now.digest.now training.now.seed (seen_outcome loaded.old) kept (iterations (V.does planner.now.solver.now) planner.now.problem.now training.now.seed training.now.count (seen_outcome loaded.old)).lists) (D.store journal.old).reads) }
    ensures quiet { WhenTrained result (Quiet (D.store journal.new)) }
    ensures any_moment { IfSome (D.store journal.old).reads (λ kept. (ps : List (List ℕ)) (j i : ℕ)
        → HoldsPrefix (title_of training.now.digest.now training.now.seed (seen_outcome loaded.old)) (seen_outcome loaded.old) ps j kept
        → GoesOnWith j ps (iterations (V.does planner.now.solver.now) planner.now.problem.now training.now.seed training.now.count (seen_outcome loaded.old)).lists
        → i ≤ j → ((c : List ℕ) → (D.store journal.old).images c → IsPrefixFrom (title_of training.now.digest.now training.now.seed (seen_outcome loaded.old)) ps i c)
        → LeavesOnly (D.store journal.old) (D.store journal.new) (IsPrefixFrom (title_of training.now.digest.now training.now.seed (seen_outcome loaded.old)) ps i)) }
    ensures cause { DiskCause (D.faults journal.old) (D.faults journal.new) (result ≡ Err statuses.DiskFault) }
    ensures fit { OnOk result (PoolsFit planner.now.problem.now loaded.new.pools.lists) }
    ensures sound { Sound (problem_of planner.now.problem.now) loaded.old.pools.lists → OnOk result (Sound (problem_of planner.now.problem.now) loaded.new.pools.lists) }
    ensures under { Sound (problem_of planner.now.problem.now) loaded.old.pools.lists → All (Under (problem_of planner.now.problem.now)) loaded.old.bounds → OnOk result (All (Under (problem_of planner.now.problem.now)) loaded.new.bounds) }
{
    let Ok(()) = journal.sync() else {
        return Err(Status::DiskFault);
    };
    match train(rt, work, planner, journal, training, loaded) {
        Ok(()) => Ok(()),
        Err(fault) => Err(status_of_plan(fault)),
    }
}

/// The report of training on the journal with the problem of these bytes.
pub(crate) fn report_train<R: Threads + Sync, D: Disk, V: Solver>(
    rt: &R,
    alloc: Global,
    accepted: Accepted,
    journal: &mut D,
    solver: &V,
    numbers: TrainingNumbers,
) -> Result<Vec<u8>, Status>
    requires read { based_at accepted.bytes.now ≡ Ok (record { problem = accepted.problem.now; pools = accepted.pools.lists }) }
    requires base { based accepted.problem.now ≡ Ok accepted.pools.lists }
    requires count { numbers.count ≤ 2000 }
    requires batch { IfSome numbers.batch (λ b. (1 ≤ b) × (b ≤ 64)) }
    ensures report { IfOk result (λ v. Reports (V.does solver.now) (commands.Train numbers.seed numbers.count numbers.batch) (D.store journal.old).reads accepted.entry.bytes.now (Ok v.items)) }
    ensures sound { IfOk result (λ v. (cuts : List (List Cut)) × IsSoundReport (commands.Train numbers.seed numbers.count numbers.batch) accepted.entry.bytes.now accepted.entry.problem.now cuts v.items) }
    ensures lacks { IfErr result (λ s. Lacks (V.does solver.now) (commands.Train numbers.seed numbers.count numbers.batch) (D.store journal.old).reads (D.faults journal.old) (D.faults journal.new) accepted.entry.bytes.now s) }
    ensures grown { IfSome (D.store journal.old).reads (λ kept. (o : Outcome) → loaded_for accepted.entry.bytes.now (record { problem = accepted.entry.problem.now; pools = accepted.entry.pools.lists }) numbers.seed numbers.batch kept ≡ Ok o
        → WhenTrained result ((D.store journal.new).reads ≡ Some (grown_journal (sha256 accepted.entry.bytes.now) numbers.seed o kept (iterations (V.does solver.now) accepted.entry.problem.now numbers.seed numbers.count o).lists) × Quiet (D.store journal.new))) }
    ensures any_moment { IfSome (D.store journal.old).reads (λ kept. RunLeavesPrefix (V.does solver.now) accepted.entry.bytes.now kept (D.store journal.old) (D.store journal.new) numbers) }
    ensures stays { IfErr result (λ s. is_refusal s ≡ true → Stays (D.store journal.old) (D.store journal.new)) }
    ensures later { D.faults journal.old ≤ D.faults journal.new }
{
    let problem = accepted.problem;
    let _ = problem.parts();
    let digest = Sha256::digest(accepted.bytes);
    let mut loaded = load_for(alloc, problem, accepted.pools, journal, &digest, numbers)?;
    let Ok(starts) = WarmStarts::new(alloc, problem, solver) else {
        return Err(Status::Memory);
    };
    let planner = Planner::new(problem, solver, &starts);
    let mut work = Workspace::new(alloc);
    let training = Training {
        digest: &digest,
        seed: numbers.seed,
        count: numbers.count,
    };
    train_on(rt, &mut work, &planner, journal, &training, &mut loaded)?;
    match train_report(alloc, problem, &loaded) {
        Ok(text) => Ok(text),
        Err(Memory) => Err(Status::Memory),
    }
}
