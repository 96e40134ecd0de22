// Simulation over the pools of a journal.
ghost use Rattle.std.specs.Prelude.{◌≡◌, ◌≤◌, List, Ok, All, IfOk, IfErr};
ghost use Rattle.base_device.specs.Disks.{Stays};
ghost use Rattle.theory.specs.Range.{based};
ghost use Rattle.theory.specs.declared.cut.Cut.{Cut};
ghost use Rattle.cut_pool.specs.AtNodes.{PoolsFit};
ghost use Rattle.plan_answer.specs.Faults.{GivesOrRefutes};
ghost use Rattle.policy_simulate.specs.Tracing.{AreKnown, traces_of};
ghost use Rattle.run_program.specs.Causes.{Lacks};
ghost use Rattle.run_program.specs.Outcome.{Reports, based_at, scenario_count, runs_of, command_for};
ghost use Rattle.run_program.specs.SoundText.{IsSoundReport};

use crate::accepted::Accepted;
use crate::endings::{status_of_fault, status_of_plan};
use crate::loading::load_within;
use crate::status::Status;
use base_device::Disk;
use base_num::{List, Memory};
use cut_pool::Pools;
use lp_program::Solver;
use plan_answer::PlanFault;
use plan_forward::Trace;
use plan_stage::{Planner, WarmStarts, Workspace};
use policy_report::trace_report;
use policy_simulate::{simulate, validate};
use problem::Problem;
use sha2::{Digest, Sha256};
use std::alloc::Global;

/// Which scenarios are gone through.
#[derive(Clone, Copy, Debug, PartialEq, Eq)]
pub(crate) enum Scenarios {
    /// So many, drawn by a seed.
    Drawn { seed: u64, count: u32 },
    /// The scenarios that the problem stores.
    Stored,
}

/// The number of scenarios.
fn count_of(problem: &Problem, scenarios: Scenarios) -> u32
    ensures { result ≡ scenario_count problem.now scenarios }
{
    let stored = problem.parts().scenarios.len();
    match scenarios {
        Scenarios::Drawn { count, .. } => count,
        Scenarios::Stored => stored as u32,
    }
}

/// The traces of the scenarios over these pools, once the solver has made ready for each node.
fn traced<V: Solver>(
    alloc: Global,
    problem: &Problem,
    pools: &Pools,
    solver: &V,
    scenarios: Scenarios,
) -> Result<List<Trace>, PlanFault>
    requires fit { PoolsFit problem.now pools.now.lists }
    ensures value { GivesOrRefutes result (traces_of (V.does solver.now) problem.now pools.now.lists (runs_of problem.now scenarios)) }
    ensures known { IfOk result (All (AreKnown problem.now)) }
{
    let starts = WarmStarts::new(alloc, problem, solver)?;
    let planner = Planner::new(problem, solver, &starts);
    let mut work = Workspace::new(alloc);
    match scenarios {
        Scenarios::Drawn { seed, count } => simulate(&mut work, &planner, pools, seed, count),
        Scenarios::Stored => validate(&mut work, &planner, pools),
    }
}

/// The report of the scenarios over the pools that the journal gives with the problem of these bytes.
pub(crate) fn report_scenarios<D: Disk, V: Solver>(
    alloc: Global,
    accepted: Accepted,
    journal: &mut D,
    solver: &V,
    scenarios: Scenarios,
) -> Result<Vec<u8>, Status>
    requires read { based_at accepted.bytes.now ≡ Ok (record { problem = accepted.problem.now; pools = accepted.pools.lists }) }
    requires base { based accepted.problem.now ≡ Ok accepted.pools.lists }
    ensures report { IfOk result (λ v. Reports (V.does solver.now) (command_for scenarios) (D.store journal.old).reads accepted.entry.bytes.now (Ok v.items)) }
    ensures sound { IfOk result (λ v. (cuts : List (List Cut)) × IsSoundReport (command_for scenarios) accepted.entry.bytes.now accepted.entry.problem.now cuts v.items) }
    ensures lacks { IfErr result (λ s. Lacks (V.does solver.now) (command_for scenarios) (D.store journal.old).reads (D.faults journal.old) (D.faults journal.new) accepted.entry.bytes.now s) }
    ensures stays { Stays (D.store journal.old) (D.store journal.new) }
    ensures later { D.faults journal.old ≤ D.faults journal.new }
{
    let problem = accepted.problem;
    let _ = problem.parts();
    let digest = Sha256::digest(accepted.bytes);
    let formula = problem.too_wide(count_of(problem, scenarios));
    let loaded = match load_within(alloc, problem, accepted.pools, journal, &digest, formula) {
        Ok(loaded) => loaded,
        Err(fault) => return Err(status_of_fault(fault)),
    };
    let traces = match traced(alloc, problem, &loaded.pools, solver, scenarios) {
        Ok(traces) => traces,
        Err(fault) => return Err(status_of_plan(fault)),
    };
    match trace_report(alloc, problem, &loaded.pools, traces.as_slice()) {
        Ok(text) => Ok(text),
        Err(Memory) => Err(Status::Memory),
    }
}
