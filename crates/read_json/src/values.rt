// Parts of a JSON value, each or else the refusal that the reader of a format gives.
ghost use Rattle.std.specs.Prelude.{◌≡◌, [], IfOk, option_map};
ghost use Rattle.serde_json.specs.View.{view, members_view, items_view};
ghost use Rattle.read_json.specs.Steps.{Shows};
ghost use Rattle.read_json.specs.Values.{spelled, present_or, object_or, array_or, string_or, members_or, integer_or};

use base_num::Memory;
use serde_json::{Map, Value};
use std::alloc::Global;
use std::str;

/// The JSON value that the bytes spell; none where they spell none, or one past 127 levels. [`Memory`] where memory
/// was refused.
pub fn spelled(alloc: Global, bytes: &[u8]) -> Result<Option<Value>, Memory>
    ensures { IfOk result (λ o. option_map (λ v. view v) o ≡ spelled bytes.now) }
{
    let Ok(text) = str::from_utf8(bytes) else {
        return Ok(None);
    };
    match Value::from_str(alloc, text) {
        Ok(value) => Ok(Some(value)),
        Err(error) => {
            if error.is_memory() {
                Err(Memory)
            } else {
                Ok(None)
            }
        }
    }
}

/// A value that has to be there, else `refusal`.
#[tactic(auto, unfolding(crate::specs::Values::present_or))]
pub fn present_or<'v, R: Drop>(value: Option<&'v Value>, refusal: R) -> Result<&'v Value, R>
    ensures { Shows (λ v. view v.now) result
        (present_or refusal (option_map (λ v. view v.now) value.entry)) }
{
    match value {
        Some(value) => Ok(value),
        None => Err(refusal),
    }
}

/// An object, else `refusal`.
#[tactic(auto, unfolding(crate::specs::Values::object_or))]
pub fn object_or<R: Drop>(value: &Value, refusal: R) -> Result<&Map<String, Value>, R>
    ensures { Shows (λ m. members_view m.now.entries) result (object_or refusal (view value.now)) }
{
    match value.as_object() {
        Some(members) => Ok(members),
        None => Err(refusal),
    }
}

/// An array, else `refusal`.
#[tactic(auto, unfolding(crate::specs::Values::array_or))]
pub fn array_or<R: Drop>(value: &Value, refusal: R) -> Result<&[Value], R>
    ensures { Shows (λ items. items_view items.now) result (array_or refusal (view value.now)) }
{
    match value.as_array() {
        Some(items) => Ok(items.as_slice()),
        None => Err(refusal),
    }
}

/// A string, else `refusal`.
#[tactic(auto, unfolding(crate::specs::Values::string_or))]
pub fn string_or<R: Drop>(value: &Value, refusal: R) -> Result<&str, R>
    ensures { Shows (λ s. s.now) result (string_or refusal (view value.now)) }
{
    match value.as_str() {
        Some(text) => Ok(text),
        None => Err(refusal),
    }
}

/// An object's members, else `refusal`; those of `none`, which has none, where the object is absent.
#[tactic(auto, unfolding(crate::specs::Values::members_or))]
pub fn members_or<'v, R: Drop>(
    value: Option<&'v Value>,
    none: &'v Map<String, Value>,
    refusal: R,
) -> Result<&'v Map<String, Value>, R>
    requires { none.now.entries ≡ [] }
    ensures { Shows (λ m. members_view m.now.entries) result
        (members_or refusal (option_map (λ v. view v.now) value.entry)) }
{
    match value {
        Some(value) => object_or(value, refusal),
        None => Ok(none),
    }
}

/// A whole number: `shape` where the value is no number, `not_whole` where it is given as neither an i64 nor a u64.
#[tactic(auto, unfolding(crate::specs::Values::integer_or))]
pub fn integer_or<R: Drop>(value: &Value, shape: R, not_whole: R) -> Result<i128, R>
    ensures { result ≡ integer_or shape not_whole (view value.now) }
{
    let Some(number) = value.as_number() else {
        return Err(shape);
    };
    match number.as_i128() {
        Some(whole) => Ok(whole),
        None => Err(not_whole),
    }
}
