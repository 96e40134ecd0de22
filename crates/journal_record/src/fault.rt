// Why bytes are no entries.
ghost use Rattle.std.specs.Prelude.{◌≡◌};
ghost use Rattle.journal_record.specs.declared.fault.ReadFault.TheVariants as reads;

use base_num::Memory;
use std::alloc::{AllocError, AllocFailed};

/// Why a payload is not the wanted entries.
#[derive(Clone, Copy, Debug, PartialEq, Eq)]
pub enum EntryFault {
    /// The payload is not the text of such entries.
    Bad {
        /// The offset in the payload of the first field that is not wholly there or has a forbidden value, or of the
        /// first byte too many.
        place: u32,
    },
    /// Memory was refused.
    Memory,
}

/// Like [`EntryFault`], while the bytes are read.
#[derive(Clone, Copy, Debug, PartialEq, Eq)]
pub(crate) enum ReadFault {
    /// A field is not wholly there or has a forbidden value, or a byte is too many.
    Bad {
        /// The number of bytes from there to the end.
        left: usize,
    },
    /// Memory was refused.
    Memory,
}

impl From<Memory> for ReadFault {
    ghost from_gives = { λ _ e. e ≡ reads.Memory };

    fn from(_: Memory) -> Self {
        ReadFault::Memory
    }
}

impl From<AllocError> for ReadFault {
    ghost from_gives = { λ _ e. e ≡ reads.Memory };

    fn from(_: AllocError) -> Self {
        ReadFault::Memory
    }
}

impl<T: Drop> From<AllocFailed<T>> for ReadFault {
    ghost from_gives = { λ _ e. e ≡ reads.Memory };

    fn from(_: AllocFailed<T>) -> Self {
        ReadFault::Memory
    }
}
