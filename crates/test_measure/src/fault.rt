// Why a row gives no text.
use base_num::Memory;
use cut_check::BaseFault;
use read_file::{ReadRefusal, Refusal};
use std::alloc::{AllocError, AllocFailed};
use std::io;

/// Why a row gives no text.
#[derive(Clone, Copy, Debug)]
pub enum RowFault {
    /// A file could not be read.
    File,
    /// A line is not in the form of its kind of row.
    Form,
    /// The problem is refused.
    Refused(Refusal),
    /// The size of a base cut, or of a node's certificates, passes its range.
    Range,
    /// The first node has no successor.
    NoSuccessor,
    /// The first node's values or states are not those of a stage problem.
    Outside,
    /// Memory was refused.
    Memory,
}

impl From<AllocError> for RowFault {
    fn from(_: AllocError) -> Self {
        RowFault::Memory
    }
}

impl<T: Drop> From<AllocFailed<T>> for RowFault {
    fn from(_: AllocFailed<T>) -> Self {
        RowFault::Memory
    }
}

impl From<Memory> for RowFault {
    fn from(_: Memory) -> Self {
        RowFault::Memory
    }
}

impl From<io::Error> for RowFault {
    fn from(_: io::Error) -> Self {
        RowFault::File
    }
}

impl From<ReadRefusal> for RowFault {
    fn from(refusal: ReadRefusal) -> Self {
        match refusal {
            ReadRefusal::Refused(refusal) => RowFault::Refused(refusal),
            ReadRefusal::Memory => RowFault::Memory,
        }
    }
}

impl From<BaseFault> for RowFault {
    fn from(fault: BaseFault) -> Self {
        match fault {
            BaseFault::Range { .. } => RowFault::Range,
            BaseFault::Memory => RowFault::Memory,
        }
    }
}
