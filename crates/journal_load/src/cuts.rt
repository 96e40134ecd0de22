// The cuts of the steps of entries.
ghost use Rattle.std.specs.Prelude.{◌≡◌, ◌≢◌, ◌<◌, ◌≤◌, ◌+◌, ◌^◌, ℕ, IfOk, IfErr, OnOk, length, All};
ghost use Rattle.std.specs.List.{AllByRecursion};
ghost use Rattle.theory.specs.Pools.{pool};
ghost use Rattle.cut_pool.specs.AtNodes.{PoolsFit};
ghost use Rattle.cut_pool.specs.declared.entry.EntryStep.{EntryStep};
ghost use Rattle.journal_record.specs.Shape.{Writable};
ghost use Rattle.journal_load.specs.declared.refusal.LoadFault.TheVariants as faults;
ghost use Rattle.journal_load.specs.Refusals.{LoadGives};
ghost use Rattle.journal_load.specs.Cuts.{step_added, steps_added, entries_added};
ghost use Rattle.journal_load.specs.RootValues.{root_values};

use crate::refusal::{JournalRefusal, LoadFault};
use crate::values::push_cut;
use base_num::{List, Memory};
use cut_check::accept_into;
use cut_pool::{Cut, Entry, EntryStep, Pools};
use problem::Problem;
use std::alloc::Global;

// A cut of so many slopes, all 0.
fn no_slopes(alloc: Global, states: usize) -> Result<Cut, Memory>
    ensures { IfOk result (λ cut. length cut.beta ≡ states) }
{
    Ok(Cut {
        alpha: 0,
        beta: List::from_vec(vec![in alloc; 0i128; states]?),
    })
}

// Appends the cut of a step, where its certificates are accepted over the cuts so far.
#[tactic(auto, unfolding(crate::specs::Cuts::step_added))]
fn add_cut(
    alloc: Global,
    problem: &Problem,
    pools: &mut Pools,
    values: &mut List<i128>,
    iteration: u32,
    step: &EntryStep,
) -> Result<(), LoadFault>
    requires known { step.now.node < length problem.now.parts.nodes }
    requires fit { PoolsFit problem.now pools.old.lists }
    requires few { length (pool pools.old.lists step.now.node) < 2 ^ 24 }
    requires values { values.old ≡ root_values problem.now pools.old.lists }
    ensures value { LoadGives (λ _. pools.new.lists) result (step_added problem.now iteration pools.old.lists step.now) }
    ensures values { OnOk result (values.new ≡ root_values problem.now pools.new.lists) }
    ensures own { IfErr result (λ fault. fault ≢ faults.DiskFault) }
{
    let mut cut = no_slopes(alloc, problem.parts().states.len())?;
    let list = step.list.as_slice();
    if let Err(fault) = accept_into(problem, pools, step.node, list, &mut cut) {
        return Err(LoadFault::Refused(JournalRefusal::BadCertificate {
            iteration,
            node: step.node,
            fault,
        }));
    }
    push_cut(problem, pools, values, step.node, cut)?;
    Ok(())
}

// Appends the cuts of steps, one after the other.
fn add_steps(
    alloc: Global,
    problem: &Problem,
    pools: &mut Pools,
    values: &mut List<i128>,
    iteration: u32,
    steps: &[EntryStep],
) -> Result<(), LoadFault>
    requires known { All (λ (s : EntryStep). s.node < length problem.now.parts.nodes) steps.now }
    requires fit { PoolsFit problem.now pools.old.lists }
    requires few { (m : ℕ) → length (pool pools.old.lists m) + length steps.now ≤ 2 ^ 24 }
    requires values { values.old ≡ root_values problem.now pools.old.lists }
    ensures value { LoadGives (λ _. pools.new.lists) result (steps_added problem.now iteration pools.old.lists steps.now) }
    ensures values { OnOk result (values.new ≡ root_values problem.now pools.new.lists) }
    ensures own { IfErr result (λ fault. fault ≢ faults.DiskFault) }
{
    let _ = problem.parts();
    for step in steps {
        add_cut(alloc, problem, pools, values, iteration, step)?;
    }
    Ok(())
}

/// Appends the cuts of entries, one after the other, each over the cuts of those before it, and keeps up the values of the
/// root's successors.
pub(crate) fn add_entries(
    alloc: Global,
    problem: &Problem,
    pools: &mut Pools,
    values: &mut List<i128>,
    entries: &[Entry],
) -> Result<(), LoadFault>
    requires writable { AllByRecursion (Writable problem.now) entries.now }
    requires fit { PoolsFit problem.now pools.old.lists }
    requires few { (m : ℕ) → length (pool pools.old.lists m) + length entries.now ≤ 2 ^ 23 }
    requires values { values.old ≡ root_values problem.now pools.old.lists }
    ensures value { LoadGives (λ _. pools.new.lists) result (entries_added problem.now pools.old.lists entries.now) }
    ensures values { OnOk result (values.new ≡ root_values problem.now pools.new.lists) }
    ensures own { IfErr result (λ fault. fault ≢ faults.DiskFault) }
{
    let _ = problem.parts();
    for entry in entries {
        add_steps(
            alloc,
            problem,
            pools,
            values,
            entry.iteration,
            entry.steps.as_slice(),
        )?;
    }
    Ok(())
}
