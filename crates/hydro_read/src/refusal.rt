// Refusals of a hydro description: the kind of fault and its place.
ghost use Rattle.std.specs.Prelude.{◌≡◌};
ghost use Rattle.hydro_read.specs.declared.refusal.HydroFault.TheVariants as faults;

use base_num::Memory;
use std::alloc::{AllocError, AllocFailed};

/// A kind of fault.
#[derive(Clone, Copy, Debug, PartialEq, Eq)]
pub enum HydroKind {
    /// The bytes spell no JSON value, or one of more than 127 levels.
    NotJson,
    /// A part is absent, or of another JSON type than it has to be.
    Shape,
    /// A number is given as neither an i64 nor a u64.
    NotWhole,
    /// A number, a count or a total is outside its range, or a name is not of the form that names have.
    Limit,
    /// A name names nothing.
    UnknownName,
    /// The reservoirs and the sum of all travels are more than 50.
    States,
}

/// A part of a description, and what the numbers `a` and `b` of a [`HydroRefusal`] say there; those not named
/// are 0. The numbers count from 0, in the byte order of names where there are names.
#[derive(Clone, Copy, Debug, PartialEq, Eq)]
pub enum HydroPart {
    /// The description as a whole.
    Whole,
    /// Bus `a`.
    Bus,
    /// Reservoir `a`.
    Reservoir,
    /// Thermal `a`.
    Thermal,
    /// Line `a`.
    Line,
    /// Stage `a`; `b` is k + 1 where the place is inflow k of the stage.
    Stage,
}

/// The first fault of a description, and its place.
#[derive(Clone, Copy, Debug, PartialEq, Eq)]
pub struct HydroRefusal {
    /// The kind of fault.
    pub kind: HydroKind,
    /// The faulty part.
    pub part: HydroPart,
    /// The first number of the place.
    pub a: u32,
    /// The second number of the place.
    pub b: u32,
}

/// Why no plants were read.
#[derive(Clone, Copy, Debug, PartialEq, Eq)]
pub enum HydroFault {
    /// The first fault, and its place.
    Refused(HydroRefusal),
    /// Memory was refused.
    Memory,
}

impl From<HydroRefusal> for HydroFault {
    ghost from_gives = { λ r e. e ≡ faults.Refused r };

    fn from(refusal: HydroRefusal) -> Self {
        HydroFault::Refused(refusal)
    }
}

impl From<Memory> for HydroFault {
    ghost from_gives = { λ _ e. e ≡ faults.Memory };

    fn from(_: Memory) -> Self {
        HydroFault::Memory
    }
}

impl From<AllocError> for HydroFault {
    ghost from_gives = { λ _ e. e ≡ faults.Memory };

    fn from(_: AllocError) -> Self {
        HydroFault::Memory
    }
}

impl<T: Drop> From<AllocFailed<T>> for HydroFault {
    ghost from_gives = { λ _ e. e ≡ faults.Memory };

    fn from(_: AllocFailed<T>) -> Self {
        HydroFault::Memory
    }
}
