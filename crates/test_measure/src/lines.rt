// Lines about iterations.
use crate::fault::RowFault;
use cut_pool::Entry;
use plan_answer::{Infeasibility, PlanFault};
use std::fmt::Write;

/// The programs that an entry's path solved: one forward at each step, and one for each realization back.
fn solves(entry: &Entry) -> u64 {
    let mut solves = 0u64;
    for step in entry.steps.as_slice() {
        solves = solves.wrapping_add(step.list.len() as u64).wrapping_add(1);
    }
    solves
}

/// Appends how many programs the entries of an iteration solved, and how many answers were of no use.
pub fn push_sums(text: &mut String, entries: &[Entry]) -> Result<(), RowFault> {
    for entry in entries {
        write!(
            text,
            "iteration {} solves {} unsettled {}\n",
            entry.iteration,
            solves(entry),
            entry.unanswered
        )?;
    }
    Ok(())
}

/// Appends a node without decisions, and the multipliers that show it.
fn push_infeasible(text: &mut String, infeasible: &Infeasibility) -> Result<(), RowFault> {
    write!(
        text,
        "no stage run {} node {} values {:?}",
        infeasible.run,
        infeasible.node,
        infeasible.values.as_slice()
    )?;
    write!(
        text,
        " state {:?} rows {:?}\n",
        infeasible.state.as_slice(),
        infeasible.rows.as_slice()
    )?;
    Ok(())
}

/// Appends a node without decisions that stops planning. Any other fault stops the row.
pub fn push_fault(text: &mut String, fault: PlanFault) -> Result<(), RowFault> {
    match fault {
        PlanFault::Infeasible(infeasible) => push_infeasible(text, &infeasible),
        PlanFault::Range { .. } => Err(RowFault::Range),
        PlanFault::DiskFault => Err(RowFault::File),
        PlanFault::Memory => Err(RowFault::Memory),
    }
}
