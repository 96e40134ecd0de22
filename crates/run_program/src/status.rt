// How a run ended.
ghost use Rattle.std.specs.Prelude.{◌≡◌, ◌++◌, OnOk, IfOk};
ghost use Rattle.run_program.specs.Status.{status_number, name, status_text, status_line_text};

use crate::journal_lines::{push_journal_refusal, push_too_much};
use crate::refusal_lines::push_refusal;
use crate::training_lines::{push_no_stage, push_range};
use base_num::{Memory, push_bytes};
use hydro_read::{HydroRefusal, push_hydro_refusal};
use journal_load::JournalRefusal;
use plan_answer::Infeasibility;
use problem::{Refusal, TooMuch};
use std::alloc::Global;

/// How a run ended.
#[derive(Drop)]
pub enum Status {
    /// The report was written whole.
    Done,
    /// The words are no command.
    Usage,
    /// The problem could not be read; only where the source's count of faults rose.
    ReadFault,
    /// The problem is longer than 2^24 bytes.
    TooLong,
    /// The description of hydro plants is refused: the first refusal of its reading.
    HydroRefused(HydroRefusal),
    /// The problem is refused: the first refusal of its reading.
    ProblemRefused(Refusal),
    /// The journal is refused: the first refusal of its loading.
    JournalRefused(JournalRefusal),
    /// A formula that bounds what a run takes passes its limit.
    TooMuch(TooMuch),
    /// Certificates of a node have a size that passes 2^127 - 1 at a realization: in training, or with weights that the
    /// problem lists; iteration 0 where the risk cut of a base cut is made.
    Range {
        iteration: u32,
        node: u32,
        realization: u32,
    },
    /// Training, a scenario or a whole policy met a node that is shown to have no decisions.
    Infeasible(Infeasibility),
    /// The journal could not be read or written; only where the disk's count of faults rose.
    DiskFault,
    /// The report could not be written whole; only where the sink's count of faults rose.
    WriteFault,
    /// Memory was refused.
    Memory,
}

/// The number that a status ends the process with.
pub fn number(status: &Status) -> u8
    ensures { result ≡ status_number status.now }
{
    match status {
        Status::Done => 0,
        Status::Usage => 2,
        Status::ReadFault => 3,
        Status::TooLong => 4,
        Status::HydroRefused(_) => 14,
        Status::ProblemRefused(_) => 5,
        Status::JournalRefused(_) => 6,
        Status::TooMuch(_) => 7,
        Status::Range { .. } => 8,
        Status::Infeasible(_) => 9,
        Status::DiskFault => 10,
        Status::WriteFault => 11,
        Status::Memory => 12,
    }
}

#[tactic(auto, unfolding(crate::specs::Status::status_text, crate::specs::Kinds::usage_text))]
fn push_status(alloc: Global, out: &mut Vec<u8>, status: &Status) -> Result<(), Memory>
    ensures { OnOk result (out.new.items ≡ out.old.items ++ status_text status.now) }
{
    match status {
        Status::Done => Ok(()),
        Status::Usage => push_bytes(
            out,
            b"usage: base, train JOURNAL SEED COUNT [BATCH], check JOURNAL, simulate JOURNAL SEED COUNT, validate JOURNAL, gen SEED STAGES RESERVOIRS, evaluate JOURNAL, hydro, robust JOURNAL",
        ),
        Status::ReadFault => push_bytes(out, b"problem could not be read"),
        Status::TooLong => push_bytes(out, b"problem is longer than 16777216 bytes"),
        Status::HydroRefused(refusal) => push_hydro_refusal(out, *refusal),
        Status::ProblemRefused(refusal) => push_refusal(out, *refusal),
        Status::JournalRefused(refusal) => push_journal_refusal(alloc, out, refusal),
        Status::TooMuch(formula) => push_too_much(out, *formula),
        Status::Range {
            iteration,
            node,
            realization,
        } => push_range(out, *iteration, *node, *realization),
        Status::Infeasible(infeasible) => push_no_stage(out, infeasible),
        Status::DiskFault => push_bytes(out, b"journal device failed"),
        Status::WriteFault => push_bytes(out, b"output failed"),
        Status::Memory => push_bytes(out, b"memory"),
    }
}

#[tactic(auto, unfolding(crate::specs::Status::name))]
fn push_name(out: &mut Vec<u8>) -> Result<(), Memory>
    ensures { OnOk result (out.new.items ≡ out.old.items ++ name) }
{
    push_bytes(out, b"hydroplan: ")
}

/// The line that says how a run ended: `hydroplan: ` and the status's text. Done has the empty text.
#[tactic(auto, unfolding(crate::specs::Status::status_line_text))]
pub fn status_line(alloc: Global, status: &Status) -> Result<Vec<u8>, Memory>
    ensures { IfOk result (λ v. v.items ≡ status_line_text status.now) }
{
    let mut out = Vec::new(alloc);
    if matches!(status, Status::Done) {
        return Ok(out);
    }
    push_name(&mut out)?;
    push_status(alloc, &mut out, status)?;
    push_bytes(&mut out, b"\n")?;
    Ok(out)
}
