// Places in a hydro description.
ghost use Rattle.std.specs.Prelude.{◌≡◌};

use crate::refusal::{HydroKind, HydroPart, HydroRefusal};

/// A part of a description and two numbers, which [`HydroPart`] explains.
#[derive(Clone, Copy)]
pub(crate) struct HydroPlace {
    pub(crate) part: HydroPart,
    pub(crate) a: u32,
    pub(crate) b: u32,
}

impl HydroPlace {
    /// The description as a whole.
    pub(crate) const WHOLE: HydroPlace = HydroPlace {
        part: HydroPart::Whole,
        a: 0,
        b: 0,
    };

    /// The place with a part and two numbers.
    pub(crate) fn new(part: HydroPart, a: u32, b: u32) -> HydroPlace
        ensures { result ≡ record { part = part; a = a; b = b } }
    {
        HydroPlace { part, a, b }
    }
}

impl HydroKind {
    /// The refusal of this kind at a place.
    pub(crate) fn at(self, place: HydroPlace) -> HydroRefusal
        ensures { result ≡ record { kind = self; part = place.part; a = place.a; b = place.b } }
    {
        HydroRefusal {
            kind: self,
            part: place.part,
            a: place.a,
            b: place.b,
        }
    }
}
