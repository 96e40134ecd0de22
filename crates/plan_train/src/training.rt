// Training: iterations one after another, with a record of each in the journal.
ghost use Rattle.std.specs.Prelude.{◌≡◌, ◌≢◌, ◌≤◌, ◌+◌, ◌-◌, ◌*◌, ◌^◌, [], ℕ, List, true, false, length, take, is_some, option_map, All, IfOk, IfErr, IfSome, OnOk, None, Err};
ghost use Rattle.std.specs.List.{AllByRecursion};
ghost use Rattle.base_num.specs.Steps.{GivesOr};
ghost use Rattle.base_device.specs.Since.{Quiet, LeavesOnly};
ghost use Rattle.problem.specs.Formulas.{too_much};
ghost use Rattle.theory.specs.Pools.{pool, Sound};
ghost use Rattle.theory.specs.Bound.{Under};
ghost use Rattle.theory.specs.View.{problem_of};
ghost use Rattle.cut_pool.specs.AtNodes.{PoolsFit};
ghost use Rattle.cut_pool.specs.declared.entry.Entry.{Entry};
ghost use Rattle.journal_record.specs.Shape.{Writable};
ghost use Rattle.journal_record.specs.Spelling.{spell};
ghost use Rattle.journal_file.specs.Causes.{DiskCause};
ghost use Rattle.journal_file.specs.CommitBytes.{IsClearAt};
ghost use Rattle.journal_file.specs.Head.{IsUncommitted};
ghost use Rattle.journal_file.specs.Layout.{IsBody, Title, body_of, journal};
ghost use Rattle.journal_file.specs.IsPrefix.{IsGrownPrefix};
ghost use Rattle.journal_load.specs.Load.{seen_outcome};
ghost use Rattle.plan_answer.specs.Faults.{IsInfeasible, Stops};
ghost use Rattle.plan_answer.specs.declared.plan_fault.PlanFault.TheVariants.{DiskFault};
ghost use Rattle.plan_train.specs.Continuing.{continued};
ghost use Rattle.plan_train.specs.Growing.{ExtendsPools};
ghost use Rattle.plan_train.specs.Iterating.{EndsClear, behind, iterated, iteration_recorded};
ghost use Rattle.plan_train.specs.Training.{CanTrain, GoesOnWith, IsPrefixFrom, HoldsPrefix, StopsAs, WhenWhole, grown_journal, iterations, title_of, trained};

use crate::iterations::{Draw, iteration};
use crate::opening::open_end;
use base_device::Disk;
use base_num::{List, Memory};
use cut_pool::{Entry, Pools};
use journal_file::append;
use journal_load::{Loaded, unanswered};
use journal_record::encode_batch;
use lp_program::Solver;
use plan_answer::PlanFault;
use plan_stage::{Planner, Workspace};
use problem::Problem;
use std::alloc::Global;
use std::thread::Threads;

/// The task of a training.
#[derive(Drop)]
pub struct Training<'a> {
    /// The digest of the problem's bytes.
    pub digest: &'a [u8; 32],
    /// The seed of the paths.
    pub seed: u64,
    /// The number of iterations to come to in all.
    pub count: u32,
}

/// The fixed parts of a training run: the planner, and the seed of the paths.
#[derive(Drop)]
struct Course<'a, V: Solver> {
    planner: &'a Planner<'a, V>,
    seed: u64,
}

/// Spells the bytes behind the commit byte of a record: the payload's length, the payload, and a commit byte of 0.
fn body_of(alloc: Global, problem: &Problem, entries: &[Entry]) -> Result<Vec<u8>, Memory>
    requires shape { AllByRecursion (Writable problem.now) entries.now }
    requires short { length (spell entries.now) ≤ 2 ^ 26 }
    ensures { IfOk result (λ body. body.items ≡ body_of (spell entries.now)) }
{
    let payload = encode_batch(alloc, problem, entries)?;
    let mut body = Vec::with_capacity(alloc, payload.len() + 5)?;
    body.extend_from_slice(&(payload.len() as u32).to_be_bytes())?;
    body.extend_from_slice(payload.as_slice())?;
    body.push(0)?;
    Ok(body)
}

/// Takes an iteration over pools, as [`iteration`] does, and gives the body of its record: the payload's length, the payload,
/// and a commit byte of 0. Nothing is written. No node has more cuts than the base cut and one for each path of the iterations
/// before it, and the formulas hold with as many iterations as its number.
#[tactic(auto, unfolding(crate::specs::Iterating::iteration_recorded))]
pub fn iteration_body<R: Threads + Sync, V: Solver>(
    rt: &R,
    work: &mut Workspace<V>,
    planner: &Planner<V>,
    pools: &mut Pools,
    draw: Draw,
) -> Result<Vec<u8>, PlanFault>
    requires fit { PoolsFit planner.now.problem.now pools.old.lists }
    requires first { 1 ≤ draw.iteration }
    requires last { draw.iteration ≤ 2000 }
    requires paths { 1 ≤ draw.batch }
    requires most { draw.batch ≤ 64 }
    requires cuts { (m : ℕ) → length (pool pools.old.lists m) ≤ 1 + (draw.iteration - 1) * draw.batch }
    requires room { too_much planner.now.problem.now draw.iteration draw.batch ≡ None }
    ensures value { GivesOr Stops (λ body. (pools.new.lists, body.items)) result
        (iteration_recorded (V.does planner.now.solver.now) planner.now.problem.now pools.old.lists draw.seed draw.batch draw.iteration) }
    ensures body { IfOk result (λ body. IsBody body.items) }
    ensures extends { ExtendsPools draw.batch pools.old.lists pools.new.lists }
    ensures infeasible { IfErr result (IsInfeasible planner.now.problem.now) }
    ensures fit { PoolsFit planner.now.problem.now pools.new.lists }
    ensures sound { Sound (problem_of planner.now.problem.now) pools.old.lists → Sound (problem_of planner.now.problem.now) pools.new.lists }
{
    let problem = planner.problem();
    let _ = problem.parts();
    let entries = iteration(rt, work, planner, pools, draw)?;
    let body = body_of(work.alloc(), problem, entries.as_slice())?;
    work.spares.give_back(entries);
    Ok(body)
}

/// Runs an iteration: adds its cuts, its bound and its counts to `loaded`, and gives the bytes behind the commit byte of its record.
#[tactic(auto, unfolding(crate::specs::Iterating::iterated))]
fn iterate<R: Threads + Sync, V: Solver>(
    rt: &R,
    work: &mut Workspace<V>,
    course: &Course<V>,
    loaded: &mut Loaded,
    number: u32,
) -> Result<Vec<u8>, PlanFault>
    requires fit { PoolsFit course.now.planner.now.problem.now loaded.old.pools.lists }
    requires first { 1 ≤ number }
    requires last { number ≤ 2000 }
    requires paths { 1 ≤ loaded.old.batch }
    requires most { loaded.old.batch ≤ 64 }
    requires cuts { (m : ℕ) → length (pool loaded.old.pools.lists m) ≤ 1 + (number - 1) * loaded.old.batch }
    requires room { too_much course.now.planner.now.problem.now number loaded.old.batch ≡ None }
    requires unanswered { loaded.old.unanswered ≤ 2 ^ 60 }
    ensures value { GivesOr Stops (λ body. (seen_outcome loaded.new, body.items)) result
        (iterated (V.does course.now.planner.now.solver.now) course.now.planner.now.problem.now loaded.old course.now.seed number) }
    ensures body { IfOk result (λ body. IsBody body.items) }
    ensures cuts { (m : ℕ) → length (pool loaded.new.pools.lists m) ≤ 1 + number * loaded.old.batch }
    ensures own { IfErr result (λ fault. fault ≢ DiskFault) }
    ensures infeasible { IfErr result (IsInfeasible course.now.planner.now.problem.now) }
    ensures fit { PoolsFit course.now.planner.now.problem.now loaded.new.pools.lists }
    ensures sound { Sound (problem_of course.now.planner.now.problem.now) loaded.old.pools.lists → Sound (problem_of course.now.planner.now.problem.now) loaded.new.pools.lists }
    ensures under { Sound (problem_of course.now.planner.now.problem.now) loaded.old.pools.lists → All (Under (problem_of course.now.planner.now.problem.now)) loaded.old.bounds → OnOk result (All (Under (problem_of course.now.planner.now.problem.now)) loaded.new.bounds) }
    ensures unanswered { IfOk result (λ _. loaded.new.unanswered ≤ loaded.old.unanswered + 2 ^ 38) }
{
    let problem = course.planner.problem();
    let _ = problem.parts();
    let draw = Draw {
        seed: course.seed,
        batch: loaded.batch,
        iteration: number,
    };
    let entries = iteration(rt, work, course.planner, &mut loaded.pools, draw)?;
    let body = body_of(work.alloc(), problem, entries.as_slice())?;
    loaded.bounds.push(loaded.pools.bound(problem))?;
    loaded.unanswered += unanswered(entries.as_slice());
    work.spares.give_back(entries);
    Ok(body)
}

/// Runs so many iterations, each with its record behind the commit byte of 0 at the journal's end.
fn iterate_all<R: Threads + Sync, D: Disk, V: Solver>(
    rt: &R,
    work: &mut Workspace<V>,
    course: &Course<V>,
    disk: &mut D,
    loaded: &mut Loaded,
    left: u32,
) -> Result<(), PlanFault>
    requires fit { PoolsFit course.now.planner.now.problem.now loaded.old.pools.lists }
    requires last { length loaded.old.bounds + left ≤ 2000 }
    requires paths { 1 ≤ loaded.old.batch }
    requires most { loaded.old.batch ≤ 64 }
    requires cuts { (m : ℕ) → length (pool loaded.old.pools.lists m) ≤ 1 + length loaded.old.bounds * loaded.old.batch }
    requires room { too_much course.now.planner.now.problem.now (length loaded.old.bounds + left) loaded.old.batch ≡ None }
    requires unanswered { loaded.old.unanswered ≤ 2 ^ 50 }
    requires open { loaded.old.committed ≡ true }
    requires whole { loaded.old.tail ≡ 0 }
    requires near { loaded.old.end ≤ 2 ^ 38 }
    requires end { IfSome (D.store disk.old).reads (EndsClear loaded.old.end) }
    requires quiet { Quiet (D.store disk.old) }
    ensures stop { StopsAs result (continued (V.does course.now.planner.now.solver.now) course.now.planner.now.problem.now loaded.old.pools.lists course.now.seed loaded.old.batch (length loaded.old.bounds) left).stop }
    ensures value { OnOk result (seen_outcome loaded.new ≡ trained (seen_outcome loaded.old) (continued (V.does course.now.planner.now.solver.now) course.now.planner.now.problem.now loaded.old.pools.lists course.now.seed loaded.old.batch (length loaded.old.bounds) left)) }
    ensures reads { WhenWhole result ((D.store disk.new).reads
        ≡ option_map (behind loaded.old.end (continued (V.does course.now.planner.now.solver.now) course.now.planner.now.problem.now loaded.old.pools.lists course.now.seed loaded.old.batch (length loaded.old.bounds) left).lists) (D.store disk.old).reads) }
    ensures quiet { WhenWhole result (Quiet (D.store disk.new)) }
    ensures any_moment { IfSome (D.store disk.old).reads (λ bytes. (t : Title) (ps : List (List ℕ)) (j : ℕ)
        → bytes ≡ journal t (take j ps) 0 []
        → GoesOnWith j ps (continued (V.does course.now.planner.now.solver.now) course.now.planner.now.problem.now loaded.old.pools.lists course.now.seed loaded.old.batch (length loaded.old.bounds) left).lists
        → LeavesOnly (D.store disk.old) (D.store disk.new) (IsGrownPrefix t ps j)) }
    ensures observable { is_some (D.store disk.new).reads ≡ is_some (D.store disk.old).reads }
    ensures cause { DiskCause (D.faults disk.old) (D.faults disk.new) (result ≡ Err DiskFault) }
    ensures infeasible { IfErr result (IsInfeasible course.now.planner.now.problem.now) }
    ensures fit { OnOk result (PoolsFit course.now.planner.now.problem.now loaded.new.pools.lists) }
    ensures sound { Sound (problem_of course.now.planner.now.problem.now) loaded.old.pools.lists → OnOk result (Sound (problem_of course.now.planner.now.problem.now) loaded.new.pools.lists) }
    ensures under { Sound (problem_of course.now.planner.now.problem.now) loaded.old.pools.lists → All (Under (problem_of course.now.planner.now.problem.now)) loaded.old.bounds → OnOk result (All (Under (problem_of course.now.planner.now.problem.now)) loaded.new.bounds) }
{
    let _ = course.planner.problem().parts();
    let before = loaded.bounds.len() as u32;
    for done in 0..left {
        let body = iterate(rt, work, course, loaded, before + done + 1)?;
        loaded.end = append(disk, loaded.end, body.as_slice())?;
    }
    Ok(())
}

/// Trains up to an iteration (Pereira and Pinto 1991): iterations go on behind those that were loaded, with their seed and
/// batch, until there are `count`, and after each its record stands in the journal. Where the journal is not committed yet,
/// it is made first, and else its end is repaired. No iteration is done where `count` are there.
///
/// `loaded` is what the journal gives with this digest of the problem's bytes and this seed, and nothing is pending on the
/// disk. After Ok `loaded` has the cuts, the bounds and the count of all
/// iterations, and the journal ends at its commit byte of 0.
///
/// [`PlanFault::Infeasible`] and [`PlanFault::Range`] come exactly where an iteration stops so; the records of those before it
/// stand in the journal. [`PlanFault::DiskFault`] comes only where the disk's count of faults rose; [`PlanFault::Memory`]
/// where memory was refused. A crash at any moment leaves a journal of the records that were loaded and of the first of those
/// that training adds. After a fault nothing is promised of `loaded`.
pub fn train<R: Threads + Sync, D: Disk, V: Solver>(
    rt: &R,
    work: &mut Workspace<V>,
    planner: &Planner<V>,
    disk: &mut D,
    training: &Training,
    loaded: &mut Loaded,
) -> Result<(), PlanFault>
    requires can { CanTrain planner.now.problem.now training.now.count (seen_outcome loaded.old) }
    requires uncommitted { loaded.old.committed ≡ false → IfSome (D.store disk.old).reads IsUncommitted }
    requires clear { loaded.old.committed ≡ true → IfSome (D.store disk.old).reads (IsClearAt loaded.old.end) }
    requires quiet { Quiet (D.store disk.old) }

    // It stops exactly where the iterations do.
    ensures stop { StopsAs result (iterations (V.does planner.now.solver.now) planner.now.problem.now training.now.seed training.now.count (seen_outcome loaded.old)).stop }
    ensures value { OnOk result (seen_outcome loaded.new ≡ trained (seen_outcome loaded.old) (iterations (V.does planner.now.solver.now) planner.now.problem.now training.now.seed training.now.count (seen_outcome loaded.old))) }

    // The journal has the records that were loaded, and one for each iteration.
    ensures reads { WhenWhole result ((D.store disk.new).reads
        ≡ option_map (λ bytes. grown_journal training.now.digest.now training.now.seed (seen_outcome loaded.old) bytes (iterations (V.does planner.now.solver.now) planner.now.problem.now training.now.seed training.now.count (seen_outcome loaded.old)).lists) (D.store disk.old).reads) }
    ensures quiet { WhenWhole result (Quiet (D.store disk.new)) }

    // A crash at any moment leaves the records that were loaded, and the first of those that are added.
    ensures any_moment { IfSome (D.store disk.old).reads (λ bytes. (ps : List (List ℕ)) (j : ℕ)
        → HoldsPrefix (title_of training.now.digest.now training.now.seed (seen_outcome loaded.old)) (seen_outcome loaded.old) ps j bytes
        → GoesOnWith j ps (iterations (V.does planner.now.solver.now) planner.now.problem.now training.now.seed training.now.count (seen_outcome loaded.old)).lists
        → LeavesOnly (D.store disk.old) (D.store disk.new) (IsPrefixFrom (title_of training.now.digest.now training.now.seed (seen_outcome loaded.old)) ps j)) }
    ensures observable { is_some (D.store disk.new).reads ≡ is_some (D.store disk.old).reads }
    ensures cause { DiskCause (D.faults disk.old) (D.faults disk.new) (result ≡ Err DiskFault) }

    // For every solver and over any disk.
    ensures infeasible { IfErr result (IsInfeasible planner.now.problem.now) }
    ensures fit { OnOk result (PoolsFit planner.now.problem.now loaded.new.pools.lists) }
    ensures sound { Sound (problem_of planner.now.problem.now) loaded.old.pools.lists → OnOk result (Sound (problem_of planner.now.problem.now) loaded.new.pools.lists) }
    ensures under { Sound (problem_of planner.now.problem.now) loaded.old.pools.lists → All (Under (problem_of planner.now.problem.now)) loaded.old.bounds → OnOk result (All (Under (problem_of planner.now.problem.now)) loaded.new.bounds) }
{
    open_end(disk, training.digest, training.seed, loaded)?;
    let course = Course {
        planner,
        seed: training.seed,
    };
    let left = training.count.saturating_sub(loaded.bounds.len() as u32);
    iterate_all(rt, work, &course, disk, loaded, left)
}
