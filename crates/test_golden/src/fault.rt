// Why a row gives no text.
use base_num::Memory;
use read_file::{ReadRefusal, Refusal};
use std::alloc::{AllocError, AllocFailed};
use std::io;

/// Why a row gives no text.
#[derive(Clone, Copy, Debug)]
pub enum RowFault {
    /// A file could not be read.
    File,
    /// A line, a journal or a program is not in its form, or what was written is no text.
    Form,
    /// The text that an edit replaces does not stand in the problem.
    Edit,
    /// The problem of which the parts are asked for is refused.
    Refused(Refusal),
    /// A linear program with an empty box, with sides that no value keeps, or with terms that do not rise.
    Improper,
    /// A linear program that no chain of the start may take.
    Unlike,
    /// Memory was refused.
    Memory,
}

impl From<AllocError> for RowFault {
    fn from(_: AllocError) -> Self {
        RowFault::Memory
    }
}

impl<T: Drop> From<AllocFailed<T>> for RowFault {
    fn from(_: AllocFailed<T>) -> Self {
        RowFault::Memory
    }
}

impl From<Memory> for RowFault {
    fn from(_: Memory) -> Self {
        RowFault::Memory
    }
}

impl From<io::Error> for RowFault {
    fn from(_: io::Error) -> Self {
        RowFault::File
    }
}

impl From<ReadRefusal> for RowFault {
    fn from(refusal: ReadRefusal) -> Self {
        match refusal {
            ReadRefusal::Refused(refusal) => RowFault::Refused(refusal),
            ReadRefusal::Memory => RowFault::Memory,
        }
    }
}
