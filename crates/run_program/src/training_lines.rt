// The words that say where training stopped.
ghost use Rattle.std.specs.Prelude.{◌≡◌, ◌++◌, OnOk, codes};
ghost use Rattle.std.specs.List.{flat_map};
ghost use Rattle.run_program.specs.TrainingLines.{listed, no_stage_place, no_stage_text, number_word, range_place, range_text};

use crate::refusal_lines::push_word;
use base_num::{Memory, push_bytes, push_whole};
use plan_answer::Infeasibility;

/// Appends a space and the number.
fn push_number(out: &mut Vec<u8>, value: i128) -> Result<(), Memory>
    ensures { OnOk result (out.new.items ≡ out.old.items ++ number_word value) }
{
    push_bytes(out, b" ")?;
    push_whole(out, value)
}

fn push_numbers(out: &mut Vec<u8>, numbers: &[i128]) -> Result<(), Memory>
    ensures { OnOk result (out.new.items ≡ out.old.items ++ flat_map number_word numbers.now) }
{
    for value in numbers {
        push_number(out, *value)?;
    }
    Ok(())
}

fn push_small_numbers(out: &mut Vec<u8>, numbers: &[i64]) -> Result<(), Memory>
    ensures { OnOk result (out.new.items ≡ out.old.items ++ flat_map number_word numbers.now) }
{
    for value in numbers {
        push_number(out, i128::from(*value))?;
    }
    Ok(())
}

#[tactic(auto, unfolding(crate::specs::TrainingLines::listed))]
fn push_state(out: &mut Vec<u8>, state: &[i128]) -> Result<(), Memory>
    ensures { OnOk result (out.new.items ≡ out.old.items ++ listed (codes " state") state.now) }
{
    push_bytes(out, b" state")?;
    push_numbers(out, state)
}

#[tactic(auto, unfolding(crate::specs::TrainingLines::listed))]
fn push_list(out: &mut Vec<u8>, name: &[u8], numbers: &[i64]) -> Result<(), Memory>
    ensures { OnOk result (out.new.items ≡ out.old.items ++ listed name.now numbers.now) }
{
    push_bytes(out, name)?;
    push_small_numbers(out, numbers)
}

#[tactic(auto, unfolding(crate::specs::TrainingLines::no_stage_place))]
fn push_no_stage_place(out: &mut Vec<u8>, run: u32, node: u32) -> Result<(), Memory>
    ensures { OnOk result (out.new.items ≡ out.old.items ++ no_stage_place run node) }
{
    push_bytes(out, b"no stage solution: run")?;
    push_word(out, u64::from(run))?;
    push_bytes(out, b" node")?;
    push_word(out, u64::from(node))
}

/// Appends at which iteration or scenario which node has no decisions, its random values, its incoming state, and the
/// multipliers of its rows that show it.
#[tactic(auto, unfolding(crate::specs::TrainingLines::no_stage_text))]
pub(crate) fn push_no_stage(out: &mut Vec<u8>, infeasible: &Infeasibility) -> Result<(), Memory>
    ensures { OnOk result (out.new.items ≡ out.old.items ++ no_stage_text infeasible.now) }
{
    push_no_stage_place(out, infeasible.run, infeasible.node)?;
    push_list(out, b" values", infeasible.values.as_slice())?;
    push_state(out, infeasible.state.as_slice())?;
    push_list(out, b" rows", infeasible.rows.as_slice())
}

#[tactic(auto, unfolding(crate::specs::TrainingLines::range_place))]
fn push_range_place(out: &mut Vec<u8>, iteration: u32, node: u32) -> Result<(), Memory>
    ensures { OnOk result (out.new.items ≡ out.old.items ++ range_place iteration node) }
{
    push_bytes(out, b"range: iteration")?;
    push_word(out, u64::from(iteration))?;
    push_bytes(out, b" node")?;
    push_word(out, u64::from(node))
}

/// Appends at which iteration and node, and at which realization of it, the size of certificates passes its range.
#[tactic(auto, unfolding(crate::specs::TrainingLines::range_text))]
pub(crate) fn push_range(
    out: &mut Vec<u8>,
    iteration: u32,
    node: u32,
    realization: u32,
) -> Result<(), Memory>
    ensures { OnOk result (out.new.items ≡ out.old.items ++ range_text iteration node realization) }
{
    push_range_place(out, iteration, node)?;
    push_bytes(out, b" realization")?;
    push_word(out, u64::from(realization))
}
