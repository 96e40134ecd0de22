// Lines of iterations.
ghost use Rattle.std.specs.Prelude.{◌≡◌, ◌++◌, OnOk};
ghost use Rattle.policy_report.specs.Report.{iteration_after, iteration_lines, iterations_text, rest_line, total_line};

use crate::cuts::push_word;
use base_num::{Memory, push_bytes};

// The iteration that comes after so many others.
fn push_iteration(out: &mut Vec<u8>, before: usize, bound: i128) -> Result<(), Memory>
    ensures { OnOk result (out.new.items ≡ out.old.items ++ iteration_after before bound) }
{
    push_bytes(out, b"iteration")?;
    push_word(out, before as i128 + 1)?;
    push_bytes(out, b" bound")?;
    push_word(out, bound)?;
    push_bytes(out, b"\n")
}

fn push_bounds(out: &mut Vec<u8>, bounds: &[i128]) -> Result<(), Memory>
    ensures { OnOk result (out.new.items ≡ out.old.items ++ iteration_lines bounds.now) }
{
    for (i, bound) in bounds.iter().enumerate() {
        push_iteration(out, i, *bound)?;
    }
    Ok(())
}

fn push_total(out: &mut Vec<u8>, count: usize, unanswered: u64) -> Result<(), Memory>
    ensures { OnOk result (out.new.items ≡ out.old.items ++ total_line count unanswered) }
{
    push_bytes(out, b"total iterations")?;
    push_word(out, count as i128)?;
    push_bytes(out, b" unsettled")?;
    push_word(out, i128::from(unanswered))?;
    push_bytes(out, b"\n")
}

/// Appends a line for the bound after each iteration, and one of how many there are and how many of their solves gave an
/// answer that was of no use.
#[tactic(auto, unfolding(crate::specs::Report::iterations_text))]
pub(crate) fn push_iterations(
    out: &mut Vec<u8>,
    bounds: &[i128],
    unanswered: u64,
) -> Result<(), Memory>
    ensures { OnOk result (out.new.items ≡ out.old.items ++ iterations_text bounds.now unanswered) }
{
    push_bounds(out, bounds)?;
    push_total(out, bounds.len(), unanswered)
}

/// Appends the line of the bytes behind a journal's last commit byte.
pub(crate) fn push_rest(out: &mut Vec<u8>, tail: u64) -> Result<(), Memory>
    ensures { OnOk result (out.new.items ≡ out.old.items ++ rest_line tail) }
{
    push_bytes(out, b"rest")?;
    push_word(out, i128::from(tail))?;
    push_bytes(out, b"\n")
}
