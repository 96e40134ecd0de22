// Why nothing was read.
ghost use Rattle.std.specs.Prelude.{◌≡◌};
ghost use Rattle.read_json.specs.declared.refusal.ReadRefusal.TheVariants as refusals;

use base_num::Memory;
use problem::Refusal;
use std::alloc::{AllocError, AllocFailed};

/// Why nothing was read.
#[derive(Clone, Copy, Debug, PartialEq, Eq)]
pub enum ReadRefusal {
    /// The first fault, and its place.
    Refused(Refusal),
    /// Memory was refused.
    Memory,
}

impl From<Refusal> for ReadRefusal {
    ghost from_gives = { λ r e. e ≡ refusals.Refused r };

    fn from(refusal: Refusal) -> Self {
        ReadRefusal::Refused(refusal)
    }
}

impl From<Memory> for ReadRefusal {
    ghost from_gives = { λ _ e. e ≡ refusals.Memory };

    fn from(_: Memory) -> Self {
        ReadRefusal::Memory
    }
}

impl From<AllocError> for ReadRefusal {
    ghost from_gives = { λ _ e. e ≡ refusals.Memory };

    fn from(_: AllocError) -> Self {
        ReadRefusal::Memory
    }
}

impl<T: Drop> From<AllocFailed<T>> for ReadRefusal {
    ghost from_gives = { λ _ e. e ≡ refusals.Memory };

    fn from(_: AllocFailed<T>) -> Self {
        ReadRefusal::Memory
    }
}
