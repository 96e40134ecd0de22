// The cost of the whole policy over the pools of a journal.
ghost use Rattle.std.specs.Prelude.{◌≡◌, ◌≤◌, ◌≤ℤ◌, List, None, Ok, IfOk, IfErr};
ghost use Rattle.base_device.specs.Disks.{Stays};
ghost use Rattle.theory.specs.Bound.{bound};
ghost use Rattle.theory.specs.Pools.{Sound};
ghost use Rattle.theory.specs.Problem.{S};
ghost use Rattle.theory.specs.Range.{based};
ghost use Rattle.theory.specs.Tree.{Forest, Policy};
ghost use Rattle.theory.specs.View.{problem_of};
ghost use Rattle.theory.specs.declared.cut.Cut.{Cut};
ghost use Rattle.cut_pool.specs.AtNodes.{PoolsFit};
ghost use Rattle.plan_answer.specs.Faults.{GivesOrRefutes};
ghost use Rattle.policy_evaluate.specs.PolicyTree.{verdict_of};
ghost use Rattle.policy_evaluate.specs.TooBig.{too_big_of};
ghost use Rattle.policy_evaluate.specs.Upper.{IsLeastUpper};
ghost use Rattle.policy_evaluate.specs.Verdicts.{OnCost};
ghost use Rattle.run_program.specs.Causes.{Lacks};
ghost use Rattle.run_program.specs.Outcome.{Reports, based_at};
ghost use Rattle.run_program.specs.SoundText.{IsSoundReport};
ghost use Rattle.run_words.specs.declared.command.Command.TheVariants as commands;

use crate::accepted::Accepted;
use crate::endings::{status_of_fault, status_of_plan};
use crate::loading::load_within;
use crate::status::Status;
use base_device::Disk;
use base_num::Memory;
use cut_pool::Pools;
use lp_program::Solver;
use plan_answer::PlanFault;
use plan_stage::{Planner, WarmStarts, Workspace};
use policy_evaluate::{Verdict, evaluate, too_big, verdict_report};
use problem::Problem;
use sha2::{Digest, Sha256};
use std::alloc::Global;

/// Gives the verdict on the whole policy over these pools, once the solver has made ready for each node.
fn verdict_of<V: Solver>(
    alloc: Global,
    problem: &Problem,
    pools: &Pools,
    solver: &V,
) -> Result<Verdict, PlanFault>
    requires fit { PoolsFit problem.now pools.now.lists }
    requires small { too_big_of problem.now ≡ None }
    ensures value { GivesOrRefutes result (verdict_of (V.does solver.now) problem.now pools.now.lists) }
    ensures two_sided { OnCost result (λ upper. (f : Forest) × Policy (problem_of problem.now) S f × IsLeastUpper (problem_of problem.now) f upper
        × (Sound (problem_of problem.now) pools.now.lists → bound (problem_of problem.now) pools.now.lists ≤ℤ upper)) }
{
    let starts = WarmStarts::new(alloc, problem, solver)?;
    let planner = Planner::new(problem, solver, &starts);
    evaluate(&mut Workspace::new(alloc), &planner, pools)
}

/// The report of what the whole policy costs over the pools that the journal gives with the problem of these bytes.
pub(crate) fn report_evaluate<D: Disk, V: Solver>(
    alloc: Global,
    accepted: Accepted,
    journal: &mut D,
    solver: &V,
) -> Result<Vec<u8>, Status>
    requires read { based_at accepted.bytes.now ≡ Ok (record { problem = accepted.problem.now; pools = accepted.pools.lists }) }
    requires base { based accepted.problem.now ≡ Ok accepted.pools.lists }
    ensures report { IfOk result (λ v. Reports (V.does solver.now) commands.Evaluate (D.store journal.old).reads accepted.entry.bytes.now (Ok v.items)) }
    ensures sound { IfOk result (λ v. (cuts : List (List Cut)) × IsSoundReport commands.Evaluate accepted.entry.bytes.now accepted.entry.problem.now cuts v.items) }
    ensures lacks { IfErr result (λ s. Lacks (V.does solver.now) commands.Evaluate (D.store journal.old).reads (D.faults journal.old) (D.faults journal.new) accepted.entry.bytes.now s) }
    ensures stays { Stays (D.store journal.old) (D.store journal.new) }
    ensures later { D.faults journal.old ≤ D.faults journal.new }
{
    let problem = accepted.problem;
    let _ = problem.parts();
    let digest = Sha256::digest(accepted.bytes);
    let formula = match too_big(alloc, problem) {
        Ok(formula) => formula,
        Err(Memory) => return Err(Status::Memory),
    };
    let loaded = match load_within(alloc, problem, accepted.pools, journal, &digest, formula) {
        Ok(loaded) => loaded,
        Err(fault) => return Err(status_of_fault(fault)),
    };
    let verdict = match verdict_of(alloc, problem, &loaded.pools, solver) {
        Ok(verdict) => verdict,
        Err(fault) => return Err(status_of_plan(fault)),
    };
    match verdict_report(alloc, problem, &loaded.pools, &verdict) {
        Ok(text) => Ok(text),
        Err(Memory) => Err(Status::Memory),
    }
}
