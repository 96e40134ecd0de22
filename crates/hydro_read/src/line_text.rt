// The numbers of kinds and parts, and the words that say which refusal of a description came.
ghost use Rattle.std.specs.Prelude.{◌≡◌, ◌++◌, OnOk};
ghost use Rattle.hydro_read.specs.Texts.{kind_number, hydro_kind_text, hydro_part_text, hydro_word, hydro_refused, hydro_refused_text, hydro_refusal_text};

use crate::refusal::{HydroKind, HydroPart, HydroRefusal};
use base_num::{Memory, push_bytes, push_whole};

/// The number of a kind, 1 to 6.
#[tactic(auto, unfolding(crate::specs::Texts::kind_number))]
pub fn kind_number(kind: HydroKind) -> u32
    ensures { result ≡ kind_number kind }
{
    match kind {
        HydroKind::NotJson => 1,
        HydroKind::Shape => 2,
        HydroKind::NotWhole => 3,
        HydroKind::Limit => 4,
        HydroKind::UnknownName => 5,
        HydroKind::States => 6,
    }
}

#[tactic(auto, unfolding(crate::specs::Texts::hydro_kind_text))]
fn kind_text(kind: HydroKind) -> &'static [u8]
    ensures { result.now ≡ hydro_kind_text kind }
{
    match kind {
        HydroKind::NotJson => b"NotJson",
        HydroKind::Shape => b"Shape",
        HydroKind::NotWhole => b"NotWhole",
        HydroKind::Limit => b"Limit",
        HydroKind::UnknownName => b"UnknownName",
        HydroKind::States => b"States",
    }
}

#[tactic(auto, unfolding(crate::specs::Texts::hydro_part_text))]
fn part_text(part: HydroPart) -> &'static [u8]
    ensures { result.now ≡ hydro_part_text part }
{
    match part {
        HydroPart::Whole => b"whole",
        HydroPart::Bus => b"bus",
        HydroPart::Reservoir => b"reservoir",
        HydroPart::Thermal => b"thermal",
        HydroPart::Line => b"line",
        HydroPart::Stage => b"stage",
    }
}

fn push_word(out: &mut Vec<u8>, number: u32) -> Result<(), Memory>
    ensures { OnOk result (out.new.items ≡ out.old.items ++ hydro_word number) }
{
    push_bytes(out, b" ")?;
    push_whole(out, i128::from(number))
}

#[tactic(auto, unfolding(crate::specs::Texts::hydro_refused))]
fn push_refused_words(out: &mut Vec<u8>) -> Result<(), Memory>
    ensures { OnOk result (out.new.items ≡ out.old.items ++ hydro_refused) }
{
    push_bytes(out, b"hydro refused: ")
}

#[tactic(auto, unfolding(crate::specs::Texts::hydro_refused_text))]
fn push_refused(out: &mut Vec<u8>, kind: HydroKind) -> Result<(), Memory>
    ensures { OnOk result (out.new.items ≡ out.old.items ++ hydro_refused_text kind) }
{
    push_refused_words(out)?;
    push_bytes(out, kind_text(kind))?;
    push_bytes(out, b" at ")
}

/// Appends `hydro refused: KIND at PART A B`.
#[tactic(auto, unfolding(crate::specs::Texts::hydro_refusal_text))]
pub fn push_hydro_refusal(out: &mut Vec<u8>, refusal: HydroRefusal) -> Result<(), Memory>
    ensures { OnOk result (out.new.items ≡ out.old.items ++ hydro_refusal_text refusal) }
{
    push_refused(out, refusal.kind)?;
    push_bytes(out, part_text(refusal.part))?;
    push_word(out, refusal.a)?;
    push_word(out, refusal.b)
}
