// The words that say which refusal of a problem came.
ghost use Rattle.std.specs.Prelude.{◌≡◌, ◌++◌, OnOk};
ghost use Rattle.run_program.specs.RefusalLines.{refusal_word, kind_text, part_text, place_text, problem_refused, refused_text, refusal_text};

use base_num::{Memory, push_bytes, push_whole};
use problem::{Part, Place, Refusal, RefusalKind};

#[tactic(auto, unfolding(crate::specs::RefusalLines::kind_text))]
fn kind_text(kind: RefusalKind) -> &'static [u8]
    ensures { result.now ≡ kind_text kind }
{
    match kind {
        RefusalKind::NotJson => b"NotJson",
        RefusalKind::Version => b"Version",
        RefusalKind::Shape => b"Shape",
        RefusalKind::NotWhole => b"NotWhole",
        RefusalKind::Unsupported => b"Unsupported",
        RefusalKind::Duplicate => b"Duplicate",
        RefusalKind::UnknownName => b"UnknownName",
        RefusalKind::Weight => b"Weight",
        RefusalKind::Unbounded => b"Unbounded",
        RefusalKind::EmptyBox => b"EmptyBox",
        RefusalKind::States => b"States",
        RefusalKind::Scenario => b"Scenario",
        RefusalKind::TooLarge => b"TooLarge",
        RefusalKind::Cycle => b"Cycle",
        RefusalKind::Unreachable => b"Unreachable",
        RefusalKind::BoxGap => b"BoxGap",
        RefusalKind::Range => b"Range",
    }
}

#[tactic(auto, unfolding(crate::specs::RefusalLines::part_text))]
fn part_text(part: Part) -> &'static [u8]
    ensures { result.now ≡ part_text part }
{
    match part {
        Part::Whole => b"whole",
        Part::Root => b"root",
        Part::Subproblem => b"subproblem",
        Part::Variable => b"variable",
        Part::State => b"state",
        Part::Random => b"random",
        Part::Objective => b"objective",
        Part::Constraint => b"constraint",
        Part::Node => b"node",
        Part::Realization => b"realization",
        Part::Support => b"support",
        Part::Successor => b"successor",
        Part::Scenario => b"scenario",
        Part::Step => b"step",
        Part::Alternative => b"alternative",
    }
}

/// Appends a space and the number.
pub(crate) fn push_word(out: &mut Vec<u8>, number: u64) -> Result<(), Memory>
    ensures { OnOk result (out.new.items ≡ out.old.items ++ refusal_word number) }
{
    push_bytes(out, b" ")?;
    push_whole(out, i128::from(number))
}

#[tactic(auto, unfolding(crate::specs::RefusalLines::place_text))]
fn push_place(out: &mut Vec<u8>, place: Place) -> Result<(), Memory>
    ensures { OnOk result (out.new.items ≡ out.old.items ++ place_text place) }
{
    push_bytes(out, part_text(place.part))?;
    push_word(out, u64::from(place.a))?;
    push_word(out, u64::from(place.b))?;
    push_word(out, u64::from(place.c))
}

/// Appends a refusal of a problem and its place.
#[tactic(auto, unfolding(crate::specs::RefusalLines::refusal_text))]
pub(crate) fn push_refusal(out: &mut Vec<u8>, refusal: Refusal) -> Result<(), Memory>
    ensures { OnOk result (out.new.items ≡ out.old.items ++ refusal_text refusal) }
{
    push_refused(out, refusal.kind)?;
    push_place(out, refusal.place)
}

#[tactic(auto, unfolding(crate::specs::RefusalLines::problem_refused))]
fn push_refused_words(out: &mut Vec<u8>) -> Result<(), Memory>
    ensures { OnOk result (out.new.items ≡ out.old.items ++ problem_refused) }
{
    push_bytes(out, b"problem refused: ")
}

#[tactic(auto, unfolding(crate::specs::RefusalLines::refused_text))]
fn push_refused(out: &mut Vec<u8>, kind: RefusalKind) -> Result<(), Memory>
    ensures { OnOk result (out.new.items ≡ out.old.items ++ refused_text kind) }
{
    push_refused_words(out)?;
    push_bytes(out, kind_text(kind))?;
    push_bytes(out, b" at ")
}
