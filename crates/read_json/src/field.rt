// Numbers, names, texts, objects and arrays at a place.
ghost use Rattle.std.specs.Prelude.{◌≡◌, Ok, option_map};
ghost use Rattle.serde_json.specs.Events.{members_len};
ghost use Rattle.serde_json.specs.Find.{get_member};
ghost use Rattle.serde_json.specs.View.{view, members_view, items_view};
ghost use Rattle.read_json.specs.Steps.{Gives, Shows};
ghost use Rattle.read_json.specs.Fields.{whole_at, weight_at, key_at, string_at, object_at, array_at, present_at};

use crate::limits::limited;
use crate::refusal::ReadRefusal;
use crate::values::{array_or, integer_or, object_or, present_or, string_or};
use base_num::Name;
use problem::{NAME_BYTES, Place, Refusal, RefusalKind};
use serde_json::{Map, Value};
use std::alloc::Global;

/// A whole number of at most 2^40 in absolute value: Shape where the value is no number,
/// NotWhole where it is given as neither an i64 nor a u64, TooLarge past the limit.
#[tactic(auto, using(crate::proofs::Instances::whole_is))]
pub fn whole(value: &Value, place: Place) -> Result<i64, Refusal>
    ensures { result ≡ whole_at place (view value.now) }
{
    let number = integer_or(
        value,
        RefusalKind::Shape.at(place),
        RefusalKind::NotWhole.at(place),
    )?;
    limited(number, place)
}

/// A weight: a whole number, with the refusals of [`whole`], of at least 1, else Weight.
#[tactic(auto, unfolding(crate::specs::Fields::weight_at))]
pub fn weight(value: &Value, place: Place) -> Result<i64, Refusal>
    ensures { result ≡ weight_at place (view value.now) }
{
    let weight = whole(value, place)?;
    if weight < 1 {
        return Err(RefusalKind::Weight.at(place));
    }
    Ok(weight)
}

/// A key that names something: TooLarge past 128 bytes, and Memory where memory was refused.
#[tactic(auto, unfolding(crate::specs::Fields::key_at))]
pub fn key(alloc: Global, text: &str, place: Place) -> Result<Name, ReadRefusal>
    ensures { Gives (λ n. n) result (key_at place text.now) }
{
    if text.len() > NAME_BYTES {
        return Err(ReadRefusal::Refused(RefusalKind::TooLarge.at(place)));
    }
    Ok(Name::new(alloc, text)?)
}

/// A value that has to be there, else Shape.
#[tactic(auto, unfolding(crate::specs::Fields::present_at, crate::specs::Values::present_or))]
pub fn present<'v>(value: Option<&'v Value>, place: Place) -> Result<&'v Value, Refusal>
    ensures { Shows (λ v. view v.now) result
        (present_at place (option_map (λ v. view v.now) value.entry)) }
{
    present_or(value, RefusalKind::Shape.at(place))
}

/// A string, else Shape.
#[tactic(auto, unfolding(crate::specs::Fields::string_at, crate::specs::Values::string_or))]
pub fn string(value: &Value, place: Place) -> Result<&str, Refusal>
    ensures { Shows (λ s. s.now) result (string_at place (view value.now)) }
{
    string_or(value, RefusalKind::Shape.at(place))
}

/// An object, else Shape.
#[tactic(auto, unfolding(crate::specs::Fields::object_at, crate::specs::Values::object_or))]
pub fn object(value: &Value, place: Place) -> Result<&Map<String, Value>, Refusal>
    ensures { Shows (λ m. members_view m.now.entries) result (object_at place (view value.now)) }
{
    object_or(value, RefusalKind::Shape.at(place))
}

/// An array, else Shape.
#[tactic(auto, unfolding(crate::specs::Fields::array_at, crate::specs::Values::array_or))]
pub fn array(value: &Value, place: Place) -> Result<&[Value], Refusal>
    ensures { Shows (λ items. items_view items.now) result (array_at place (view value.now)) }
{
    array_or(value, RefusalKind::Shape.at(place))
}

/// Counts the members.
#[tactic(auto, using(crate::proofs::InOrder::counts))]
pub fn count(members: &Map<String, Value>) -> usize
    ensures { result ≡ members_len (members_view members.now.entries) }
{
    members.len()
}

/// The value of the member with this name; none where there is no such member.
pub fn member<'v>(members: &'v Map<String, Value>, name: &str) -> Option<&'v Value>
    ensures { option_map (λ v. view v.now) result
        ≡ get_member name.now (members_view members.now.entries) }
{
    members.get(name)
}
