// Why a journal is not loaded.
ghost use Rattle.std.specs.Prelude.{◌≡◌};
ghost use Rattle.journal_load.specs.declared.refusal.LoadFault.TheVariants as faults;
ghost use Rattle.journal_load.specs.Refusals.{of_payload, of_entries};

use base_num::Memory;
use cut_make::CertFault;
use journal_file::{CommitByteFault, HeadFault, PayloadFault};
use journal_record::EntryFault;
use problem::TooMuch;
use std::alloc::{AllocError, AllocFailed};

/// Why a journal is refused. Places are offsets in the file; a record's is its iteration, from 1.
#[derive(Clone, Copy, Debug, PartialEq, Eq)]
pub enum JournalRefusal {
    /// The file is no journal.
    NotAJournal,
    /// The journal has a version other than 1 and 2.
    OtherVersion {
        version: u16,
    },
    /// The journal is of a problem with another SHA-256.
    OtherProblem {
        kept: [u8; 32],
        asked: [u8; 32],
    },
    /// The journal was begun with another seed than the asked one.
    OtherSeed {
        kept: u64,
        asked: u64,
    },
    /// The file ends inside the part that stands at the place.
    Short {
        place: u64,
    },
    /// There are more than 2,000 records.
    TooMany,
    /// A record's payload is said to have more than 2^26 bytes.
    BadLength {
        iteration: u32,
        length: u32,
    },
    /// A record's payload is the text of no entries of its iteration: the offset of the first fault in the payload.
    BadRecord {
        iteration: u32,
        place: u32,
    },
    /// A step's certificates are not accepted over the cuts so far: the node of the step, and the first fault.
    BadCertificate {
        iteration: u32,
        node: u32,
        fault: CertFault,
    },
    /// The journal has another number of paths per iteration than the asked one.
    OtherBatch {
        kept: u16,
        asked: u16,
    },
    /// The head says that an iteration has no paths, or more than 64.
    BadBatch {
        batch: u16,
    },
}

/// Why nothing is loaded.
#[derive(Clone, Copy, Debug, PartialEq, Eq)]
pub enum LoadFault {
    /// The journal is refused.
    Refused(JournalRefusal),
    /// A formula passes its limit with as many iterations as the record's number.
    TooMuch(TooMuch),
    /// The disk failed.
    DiskFault,
    /// Memory was refused.
    Memory,
}

impl From<HeadFault> for LoadFault {
    ghost use Rattle.journal_load.specs.Refusals.{of_head};

    ghost from_gives = { λ f e. e ≡ of_head f };

    fn from(fault: HeadFault) -> Self {
        match fault {
            HeadFault::NotAJournal => LoadFault::Refused(JournalRefusal::NotAJournal),
            HeadFault::OtherVersion { version } => {
                LoadFault::Refused(JournalRefusal::OtherVersion { version })
            }
            HeadFault::Short { place } => LoadFault::Refused(JournalRefusal::Short { place }),
            HeadFault::DiskFault => LoadFault::DiskFault,
            HeadFault::BadBatch { batch } => LoadFault::Refused(JournalRefusal::BadBatch { batch }),
        }
    }
}

impl From<CommitByteFault> for LoadFault {
    ghost use Rattle.journal_load.specs.Refusals.{of_commit_byte};

    ghost from_gives = { λ f e. e ≡ of_commit_byte f };

    fn from(fault: CommitByteFault) -> Self {
        match fault {
            CommitByteFault::Short { place } => LoadFault::Refused(JournalRefusal::Short { place }),
            CommitByteFault::DiskFault => LoadFault::DiskFault,
        }
    }
}

impl From<Memory> for LoadFault {
    ghost from_gives = { λ _ e. e ≡ faults.Memory };

    fn from(_: Memory) -> Self {
        LoadFault::Memory
    }
}

impl From<AllocError> for LoadFault {
    ghost from_gives = { λ _ e. e ≡ faults.Memory };

    fn from(_: AllocError) -> Self {
        LoadFault::Memory
    }
}

impl<T: Drop> From<AllocFailed<T>> for LoadFault {
    ghost from_gives = { λ _ e. e ≡ faults.Memory };

    fn from(_: AllocFailed<T>) -> Self {
        LoadFault::Memory
    }
}

// Turns a payload's fault, at the record of an iteration, into the journal's.
pub(crate) fn of_payload(iteration: u32, fault: PayloadFault) -> LoadFault
    ensures { result ≡ of_payload iteration fault }
{
    match fault {
        PayloadFault::Short { place } => LoadFault::Refused(JournalRefusal::Short { place }),
        PayloadFault::BadLength { length } => {
            LoadFault::Refused(JournalRefusal::BadLength { iteration, length })
        }
        PayloadFault::DiskFault => LoadFault::DiskFault,
        PayloadFault::Memory => LoadFault::Memory,
    }
}

// Turns a fault of the entries, at the record of an iteration, into the journal's.
pub(crate) fn of_entries(iteration: u32, fault: EntryFault) -> LoadFault
    ensures { result ≡ of_entries iteration fault }
{
    match fault {
        EntryFault::Bad { place } => {
            LoadFault::Refused(JournalRefusal::BadRecord { iteration, place })
        }
        EntryFault::Memory => LoadFault::Memory,
    }
}
