// Why the worker ends before its input does.
use base_num::{Memory, push_bytes, push_whole};
use journal_load::LoadFault;
use plan_answer::PlanFault;
use std::alloc::Global;

/// A record of a round: its part, and its number among the records of that part, both from 1.
#[derive(Clone, Copy)]
pub struct RecordAt {
    pub part: u32,
    pub record: u32,
}

/// Why the worker ends before its input does.
#[derive(Clone, Copy)]
pub enum Ending {
    /// The input is no order, or ends within one.
    Usage,
    /// The input could not be read.
    ReadFault,
    /// The problem is said to be longer than 2^24 bytes.
    TooLong,
    /// The problem is refused.
    ProblemRefused,
    /// A record of a round is not accepted.
    RecordRefused(RecordAt),
    /// A formula passes its limit, or there would be more than 2,000 iterations.
    TooMuch,
    /// Certificates of a node have a size that passes 2^127 - 1.
    Range,
    /// Training met a node that is shown to have no decisions.
    Infeasible,
    /// The output could not be written.
    WriteFault,
    /// Memory was refused.
    Memory,
}

impl From<Memory> for Ending {
    fn from(_: Memory) -> Self {
        Ending::Memory
    }
}

/// The number that the process ends with.
pub fn number(ending: Ending) -> u8 {
    match ending {
        Ending::Usage => 2,
        Ending::ReadFault => 3,
        Ending::TooLong => 4,
        Ending::ProblemRefused => 5,
        Ending::RecordRefused(_) => 6,
        Ending::TooMuch => 7,
        Ending::Range => 8,
        Ending::Infeasible => 9,
        Ending::WriteFault => 11,
        Ending::Memory => 12,
    }
}

/// How the worker ends where the record at a place is not accepted.
pub(crate) fn ending_of_record(fault: LoadFault, at: RecordAt) -> Ending {
    match fault {
        LoadFault::Refused(_) => Ending::RecordRefused(at),
        LoadFault::TooMuch(_) => Ending::TooMuch,
        LoadFault::DiskFault => Ending::ReadFault,
        LoadFault::Memory => Ending::Memory,
    }
}

/// How the worker ends where an iteration stops.
pub(crate) fn ending_of_plan(fault: PlanFault) -> Ending {
    match fault {
        PlanFault::Infeasible(_) => Ending::Infeasible,
        PlanFault::Range { .. } => Ending::Range,
        PlanFault::DiskFault => Ending::WriteFault,
        PlanFault::Memory => Ending::Memory,
    }
}

// Gives the words of an ending, but for the numbers of a record.
fn words(ending: Ending) -> &'static [u8] {
    match ending {
        Ending::Usage => b"hydroplan_worker: the input is no order, or ends within one\n",
        Ending::ReadFault => b"hydroplan_worker: the input could not be read\n",
        Ending::TooLong => b"hydroplan_worker: problem is longer than 16777216 bytes\n",
        Ending::ProblemRefused => b"hydroplan_worker: the problem is refused\n",
        Ending::RecordRefused(_) => b" is not accepted\n",
        Ending::TooMuch => b"hydroplan_worker: too many iterations: a formula passes its limit\n",
        Ending::Range => b"hydroplan_worker: certificates have a size that passes 2^127 - 1\n",
        Ending::Infeasible => b"hydroplan_worker: a node is shown to have no decisions\n",
        Ending::WriteFault => b"hydroplan_worker: output failed\n",
        Ending::Memory => b"hydroplan_worker: memory\n",
    }
}

fn push_record(out: &mut Vec<u8>, at: RecordAt) -> Result<(), Memory> {
    push_bytes(out, b"hydroplan_worker: part ")?;
    push_whole(out, i128::from(at.part))?;
    push_bytes(out, b" record ")?;
    push_whole(out, i128::from(at.record))
}

/// The line that says why the worker ended.
pub(crate) fn line(alloc: Global, ending: Ending) -> Result<Vec<u8>, Memory> {
    let mut out = Vec::new(alloc);
    if let Ending::RecordRefused(at) = ending {
        push_record(&mut out, at)?;
    }
    push_bytes(&mut out, words(ending))?;
    Ok(out)
}
