// Limits that names, numbers and counts keep, and members and items that may be absent.
ghost use Rattle.std.specs.Prelude.{◌≡◌, ◌≤◌, ◌<◌, ◌^◌, [], OnOk, OnErr, option_map};
ghost use Rattle.serde_json.specs.View.{view, members_view, items_view};
ghost use Rattle.read_json.specs.Steps.{Shows};
ghost use Rattle.read_json.specs.Fields.{key_at};
ghost use Rattle.read_json.specs.Limits.{name_at, limited_at, known_at, members_at, items_at};

use crate::field::{array, string};
use crate::values::members_or;
use base_num::Memory;
use problem::{GREATEST_NUMBER, NAME_BYTES, PROBLEM_BYTES, Place, Refusal, RefusalKind};
use serde_json::{Map, Value};

/// A text of at most 128 bytes, else TooLarge.
#[tactic(auto, unfolding(crate::specs::Fields::key_at))]
pub fn short(text: &str, place: Place) -> Result<&str, Refusal>
    ensures { Shows (λ s. s.now) result (key_at place text.now) }
{
    if text.len() > NAME_BYTES {
        return Err(RefusalKind::TooLarge.at(place));
    }
    Ok(text)
}

/// A name: a string, else Shape, of at most 128 bytes, else TooLarge.
#[tactic(auto, unfolding(crate::specs::Limits::name_at))]
pub fn name(value: &Value, place: Place) -> Result<&str, Refusal>
    ensures { Shows (λ s. s.now) result (name_at place (view value.now)) }
{
    let text = string(value, place)?;
    short(text, place)
}

/// A number of at most 2^40 in absolute value, else TooLarge.
#[tactic(auto, unfolding(crate::specs::Limits::limited_at))]
pub fn limited(number: i128, place: Place) -> Result<i64, Refusal>
    ensures { result ≡ limited_at place number }
{
    if number.unsigned_abs() > GREATEST_NUMBER as u128 {
        return Err(RefusalKind::TooLarge.at(place));
    }
    Ok(number as i64)
}

/// The number of a known name, else UnknownName.
#[tactic(auto, unfolding(crate::specs::Limits::known_at))]
pub fn known(number: Option<usize>, place: Place) -> Result<usize, Refusal>
    ensures { result ≡ known_at place number }
{
    match number {
        Some(number) => Ok(number),
        None => Err(RefusalKind::UnknownName.at(place)),
    }
}

/// An object's members, else Shape; those of `none`, which has none, where the object is absent.
#[tactic(auto, using(crate::proofs::Instances::members_is))]
pub fn members<'v>(
    value: Option<&'v Value>,
    none: &'v Map<String, Value>,
    place: Place,
) -> Result<&'v Map<String, Value>, Refusal>
    requires { none.now.entries ≡ [] }
    ensures { Shows (λ m. members_view m.now.entries) result
        (members_at place (option_map (λ v. view v.now) value.entry)) }
{
    members_or(value, none, RefusalKind::Shape.at(place))
}

/// An array's items, else Shape; none where it is absent.
#[tactic(auto, unfolding(crate::specs::Limits::items_at))]
pub fn items<'v>(value: Option<&'v Value>, place: Place) -> Result<&'v [Value], Refusal>
    ensures { Shows (λ items. items_view items.now) result
        (items_at place (option_map (λ v. view v.now) value.entry)) }
{
    match value {
        Some(value) => array(value, place),
        None => Ok(&[]),
    }
}

/// Memory for more than 2^24 items, which is more than a problem's bytes can hold; else a place can name each item.
pub fn few(count: usize) -> Result<(), Memory>
    ensures ok { OnOk result (count ≤ 2 ^ 24) }
    ensures memory { OnErr result (2 ^ 24 < count) }
{
    if count > PROBLEM_BYTES {
        return Err(Memory);
    }
    Ok(())
}
