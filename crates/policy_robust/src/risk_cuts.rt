// Risk cuts of the entries of a journal.
ghost use Rattle.std.specs.Prelude.{◌≡◌, ◌<◌, length, All, IfOk};
ghost use Rattle.std.specs.List.{AllByRecursion};
ghost use Rattle.theory.specs.View.{problem_of};
ghost use Rattle.theory.specs.Fit.{FitFor};
ghost use Rattle.theory.specs.Bound.{bound};
ghost use Rattle.cut_pool.specs.AtNodes.{PoolsFit};
ghost use Rattle.cut_pool.specs.declared.entry.Entry.{Entry};
ghost use Rattle.cut_pool.specs.declared.entry.EntryStep.{EntryStep};
ghost use Rattle.journal_load.specs.Accepted.{IsRecord};
ghost use Rattle.policy_robust.specs.declared.risk_cuts.RobustFault.TheVariants as faults;
ghost use Rattle.policy_robust.specs.Listed.{Listed, lists_at};
ghost use Rattle.policy_robust.specs.RiskCuts.{each_step, risk_cut_added, base_added, base_risk_cuts, risk_step_added, entry_added, risk_entries_added, risk_cuts_of, GivesRiskCuts, PlansTo};
ghost use Rattle.policy_robust.specs.RiskCost.{RiskSound, RiskUnder};

use crate::alternatives::Alternatives;
use crate::base::base_list;
use crate::candidates::{failing, risk_cut};
use base_num::{List, Memory};
use cut_pool::{Entry, EntryStep, Pools};
use problem::Problem;
use std::alloc::Global;

/// More risk cuts than a node ever has: 2,000 iterations of 64 paths, and its base risk cut.
const MOST_PLANES: u32 = 1 << 24;

/// Why there are no risk cuts.
#[derive(Clone, Copy, Debug, PartialEq, Eq)]
pub enum RobustFault {
    /// No list of weights of this node is a candidate at a step of this iteration, 0 for a base risk cut. The realization
    /// is the one at which the first list fails: the least such that the terms of the realizations up to it have a size
    /// above 2^127 - 1.
    Range {
        iteration: u32,
        node: u32,
        realization: u32,
    },
    /// Memory was refused.
    Memory,
}

impl From<Memory> for RobustFault {
    ghost from_gives = { λ _ e. e ≡ faults.Memory };

    fn from(_: Memory) -> Self {
        RobustFault::Memory
    }
}

// The lists of weights of a node.
fn lists_at(alternatives: &Alternatives, node: u32) -> &[List<u32>]
    requires { node < length alternatives.now.lists }
    ensures { result.now ≡ lists_at alternatives.now.lists node }
{
    alternatives.lists.as_slice()[node as usize].as_slice()
}

// Appends the risk cut of a node's certificates in an iteration, 0 for a base risk cut.
#[tactic(auto, unfolding(crate::specs::RiskCuts::risk_cut_added))]
fn add_risk_cut(
    alloc: Global,
    problem: &Problem,
    alternatives: &Alternatives,
    iteration: u32,
    risk_cuts: &mut Pools,
    step: &EntryStep,
) -> Result<(), RobustFault>
    requires known { step.now.node < length problem.now.parts.nodes }
    requires listed { Listed problem.now alternatives.now.lists }
    requires fit { FitFor (problem_of problem.now) (length problem.now.parts.nodes) risk_cuts.old.lists step.now.node }
    ensures { PlansTo risk_cuts.new.lists result (risk_cut_added problem.now alternatives.now iteration risk_cuts.old.lists step.now.node step.now.list) }
{
    let node = step.node;
    let list = step.list.as_slice();
    let lists = lists_at(alternatives, node);
    let Some(risk_cut) = risk_cut(alloc, problem, risk_cuts, node, list, lists)? else {
        let realization = failing(problem, risk_cuts, node, list, lists);
        return Err(RobustFault::Range {
            iteration,
            node,
            realization,
        });
    };
    if risk_cuts.count(node) >= MOST_PLANES {
        return Err(RobustFault::Memory);
    }
    match risk_cuts.push(node, risk_cut) {
        Ok(()) => Ok(()),
        Err(Memory) => Err(RobustFault::Memory),
    }
}

// Appends the base risk cut of a node.
fn add_base(
    alloc: Global,
    problem: &Problem,
    alternatives: &Alternatives,
    risk_cuts: &mut Pools,
    node: u32,
) -> Result<(), RobustFault>
    requires known { node < length problem.now.parts.nodes }
    requires listed { Listed problem.now alternatives.now.lists }
    requires fit { FitFor (problem_of problem.now) (length problem.now.parts.nodes) risk_cuts.old.lists node }
    ensures { PlansTo risk_cuts.new.lists result (base_added problem.now alternatives.now risk_cuts.old.lists node) }
{
    let list = base_list(alloc, problem, node)?;
    let step = EntryStep { node, list };
    add_risk_cut(alloc, problem, alternatives, 0, risk_cuts, &step)
}

// A risk cut for each node, from its base certificates over the risk cuts of its successors.
#[tactic(auto, unfolding(crate::specs::RiskCuts::base_risk_cuts))]
fn base_risk_cuts(
    alloc: Global,
    problem: &Problem,
    alternatives: &Alternatives,
) -> Result<Pools, RobustFault>
    requires listed { Listed problem.now alternatives.now.lists }
    ensures value { GivesRiskCuts result (base_risk_cuts problem.now alternatives.now) }
    ensures fit { IfOk result (λ risk_cuts. PoolsFit problem.now risk_cuts.lists) }
{
    let order = problem.order();
    let mut risk_cuts = Pools::new(alloc, problem.parts().nodes.len() as u32)?;
    for node in order {
        add_base(alloc, problem, alternatives, &mut risk_cuts, *node)?;
    }
    Ok(risk_cuts)
}

// Appends the risk cut of a step.
fn add_step(
    alloc: Global,
    problem: &Problem,
    alternatives: &Alternatives,
    iteration: u32,
    risk_cuts: &mut Pools,
    step: &EntryStep,
) -> Result<(), RobustFault>
    requires known { step.now.node < length problem.now.parts.nodes }
    requires listed { Listed problem.now alternatives.now.lists }
    requires fit { PoolsFit problem.now risk_cuts.old.lists }
    ensures { PlansTo risk_cuts.new.lists result (risk_step_added problem.now alternatives.now iteration risk_cuts.old.lists step.now) }
{
    let _ = problem.parts();
    add_risk_cut(alloc, problem, alternatives, iteration, risk_cuts, step)
}

// Appends the risk cuts of steps, one after the other.
fn add_steps(
    alloc: Global,
    problem: &Problem,
    alternatives: &Alternatives,
    iteration: u32,
    risk_cuts: &mut Pools,
    steps: &[EntryStep],
) -> Result<(), RobustFault>
    requires known { All (λ (s : EntryStep). s.node < length problem.now.parts.nodes) steps.now }
    requires listed { Listed problem.now alternatives.now.lists }
    requires fit { PoolsFit problem.now risk_cuts.old.lists }
    ensures { PlansTo risk_cuts.new.lists result (each_step (risk_step_added problem.now alternatives.now iteration) risk_cuts.old.lists steps.now) }
{
    let _ = problem.parts();
    for step in steps {
        add_step(alloc, problem, alternatives, iteration, risk_cuts, step)?;
    }
    Ok(())
}

// Appends the risk cuts of an entry's steps.
#[tactic(auto, unfolding(crate::specs::RiskCuts::entry_added))]
fn add_entry(
    alloc: Global,
    problem: &Problem,
    alternatives: &Alternatives,
    risk_cuts: &mut Pools,
    entry: &Entry,
) -> Result<(), RobustFault>
    requires known { All (λ (s : EntryStep). s.node < length problem.now.parts.nodes) entry.now.steps }
    requires listed { Listed problem.now alternatives.now.lists }
    requires fit { PoolsFit problem.now risk_cuts.old.lists }
    ensures { PlansTo risk_cuts.new.lists result (entry_added problem.now alternatives.now risk_cuts.old.lists entry.now) }
{
    let steps = entry.steps.as_slice();
    add_steps(
        alloc,
        problem,
        alternatives,
        entry.iteration,
        risk_cuts,
        steps,
    )
}

// Appends the risk cuts of entries, one after the other.
fn add_entries(
    alloc: Global,
    problem: &Problem,
    alternatives: &Alternatives,
    risk_cuts: &mut Pools,
    entries: &[Entry],
) -> Result<(), RobustFault>
    requires known { All (λ (e : Entry). All (λ (s : EntryStep). s.node < length problem.now.parts.nodes) e.steps) entries.now }
    requires listed { Listed problem.now alternatives.now.lists }
    requires fit { PoolsFit problem.now risk_cuts.old.lists }
    ensures { PlansTo risk_cuts.new.lists result (each_step (entry_added problem.now alternatives.now) risk_cuts.old.lists entries.now) }
{
    let _ = problem.parts();
    for entry in entries {
        add_entry(alloc, problem, alternatives, risk_cuts, entry)?;
    }
    Ok(())
}

// Appends the risk cuts of a record's entries, whose nodes, read backwards, are paths from the root.
#[tactic(auto, unfolding(crate::specs::RiskCuts::risk_entries_added))]
fn add_record(
    alloc: Global,
    problem: &Problem,
    alternatives: &Alternatives,
    risk_cuts: &mut Pools,
    entries: &List<Entry>,
) -> Result<(), RobustFault>
    requires paths { IsRecord problem.now entries.now }
    requires listed { Listed problem.now alternatives.now.lists }
    requires fit { PoolsFit problem.now risk_cuts.old.lists }
    ensures { PlansTo risk_cuts.new.lists result (risk_entries_added problem.now alternatives.now risk_cuts.old.lists entries.now) }
{
    let _ = problem.parts();
    add_entries(alloc, problem, alternatives, risk_cuts, entries.as_slice())
}

// Appends the risk cuts of records, one after the other.
fn add_lists(
    alloc: Global,
    problem: &Problem,
    alternatives: &Alternatives,
    risk_cuts: &mut Pools,
    lists: &[List<Entry>],
) -> Result<(), RobustFault>
    requires records { AllByRecursion (IsRecord problem.now) lists.now }
    requires listed { Listed problem.now alternatives.now.lists }
    requires fit { PoolsFit problem.now risk_cuts.old.lists }
    ensures value { PlansTo risk_cuts.new.lists result (each_step (risk_entries_added problem.now alternatives.now) risk_cuts.old.lists lists.now) }
    ensures fit { IfOk result (λ u. PoolsFit problem.now risk_cuts.new.lists) }
{
    let _ = problem.parts();
    for entries in lists {
        add_record(alloc, problem, alternatives, risk_cuts, entries)?;
    }
    Ok(())
}

// The risk cuts of records: the base risk cuts, and then those of their steps.
#[tactic(auto, unfolding(crate::specs::RiskCuts::risk_cuts_of))]
fn risk_cuts_of(
    alloc: Global,
    problem: &Problem,
    alternatives: &Alternatives,
    lists: &[List<Entry>],
) -> Result<Pools, RobustFault>
    requires listed { Listed problem.now alternatives.now.lists }
    requires records { AllByRecursion (IsRecord problem.now) lists.now }
    ensures value { GivesRiskCuts result (risk_cuts_of problem.now alternatives.now lists.now) }
    ensures fit { IfOk result (λ risk_cuts. PoolsFit problem.now risk_cuts.lists) }
{
    let mut risk_cuts = base_risk_cuts(alloc, problem, alternatives)?;
    add_lists(alloc, problem, alternatives, &mut risk_cuts, lists)?;
    Ok(risk_cuts)
}

/// The risk cuts of a journal's entries, where each node weighs its realizations by the worst of its lists of weights: a
/// base risk cut for each node, and then one for each step of each entry, from the step's certificates over the risk cuts so
/// far. A risk cut is the cut of the certificates with the weights of one list, the one that gives the greatest value at the
/// lower end of the node's box among those with which the certificates are accepted.
///
/// `alternatives` are those that were read of the problem's file, and `lists` the entries that loading kept of a journal:
/// the nodes of each, read backwards, are a path from the root. Range where a step's certificates are accepted with no
/// list of weights. Each risk cut is at most the greatest expected cost over the lists, and so is the bound over the risk cuts.
pub fn robust(
    alloc: Global,
    problem: &Problem,
    alternatives: &Alternatives,
    lists: &List<List<Entry>>,
) -> Result<Pools, RobustFault>
    requires listed { Listed problem.now alternatives.now.lists }
    requires records { AllByRecursion (IsRecord problem.now) lists.now }
    ensures value { GivesRiskCuts result (risk_cuts_of problem.now alternatives.now lists.now) }
    ensures fit { IfOk result (λ risk_cuts. PoolsFit problem.now risk_cuts.lists) }
    ensures holds { IfOk result (λ risk_cuts. RiskSound (problem_of problem.now) alternatives.now.lists risk_cuts.lists) }
    ensures worst { IfOk result (λ risk_cuts. RiskUnder (problem_of problem.now) alternatives.now.lists (bound (problem_of problem.now) risk_cuts.lists)) }
{
    let _ = problem.parts();
    risk_cuts_of(alloc, problem, alternatives, lists.as_slice())
}
