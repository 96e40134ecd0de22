// Members of JSON objects at a place that have to be there: numbers, objects and arrays, each with its first refusal.
ghost use Rattle.std.specs.Prelude.{◌≡◌, ◌≤ℤ◌, option_map, IfOk};
ghost use Rattle.serde_json.specs.View.{view, members_view, items_view};
ghost use Rattle.read_json.specs.Steps.{Shows};
ghost use Rattle.hydro_read.specs.Fields.{hydro_table_at, hydro_items_at, within_at, hydro_value_at, hydro_number_at, amount_at, amount_or_zero_at, natural_at};

use crate::place::HydroPlace;
use crate::refusal::{HydroKind, HydroRefusal};
use read_json::{array_or, integer_or, object_or, present_or};
use serde_json::{Map, Value};

/// The greatest number of a description, 2^20.
pub(crate) const GREATEST: i64 = 1_048_576;

/// The members of an object that has to be there, else Shape.
#[tactic(auto, unfolding(crate::specs::Fields::hydro_table_at, crate::specs::Fields::hydro_present_at, crate::specs::Fields::hydro_object_at))]
pub(crate) fn table<'v>(
    value: Option<&'v Value>,
    place: HydroPlace,
) -> Result<&'v Map<String, Value>, HydroRefusal>
    ensures { Shows (λ m. members_view m.now.entries) result
        (hydro_table_at place (option_map (λ v. view v.now) value.entry)) }
{
    let shape = HydroKind::Shape.at(place);
    object_or(present_or(value, shape)?, shape)
}

/// The items of an array that has to be there, else Shape.
#[tactic(auto, unfolding(crate::specs::Fields::hydro_items_at, crate::specs::Fields::hydro_present_at, crate::specs::Fields::hydro_array_at))]
pub(crate) fn items<'v>(
    value: Option<&'v Value>,
    place: HydroPlace,
) -> Result<&'v [Value], HydroRefusal>
    ensures { Shows (λ items. items_view items.now) result
        (hydro_items_at place (option_map (λ v. view v.now) value.entry)) }
{
    let shape = HydroKind::Shape.at(place);
    array_or(present_or(value, shape)?, shape)
}

// A number from `least` to `most`, else Limit.
fn within(number: i128, least: i64, most: i64, place: HydroPlace) -> Result<i64, HydroRefusal>
    ensures value { result ≡ within_at place least most number }
    ensures low { IfOk result (λ z. least ≤ℤ z) }
    ensures high { IfOk result (λ z. z ≤ℤ most) }
{
    if i128::from(least) <= number && number <= i128::from(most) {
        return Ok(number as i64);
    }
    Err(HydroKind::Limit.at(place))
}

// A whole number from `least` to `most`: Shape where the value is no number, NotWhole where it is given as
// neither an i64 nor a u64, Limit outside the range.
#[tactic(auto, unfolding(crate::specs::Fields::hydro_value_at))]
fn whole(value: &Value, least: i64, most: i64, place: HydroPlace) -> Result<i64, HydroRefusal>
    ensures value { result ≡ hydro_value_at place least most (view value.now) }
    ensures low { IfOk result (λ z. least ≤ℤ z) }
    ensures high { IfOk result (λ z. z ≤ℤ most) }
{
    let number = integer_or(
        value,
        HydroKind::Shape.at(place),
        HydroKind::NotWhole.at(place),
    )?;
    within(number, least, most, place)
}

/// A whole number that has to be there, from `least` to `most`.
#[tactic(auto, unfolding(crate::specs::Fields::hydro_number_at, crate::specs::Fields::hydro_present_at))]
pub(crate) fn number(
    value: Option<&Value>,
    least: i64,
    most: i64,
    place: HydroPlace,
) -> Result<i64, HydroRefusal>
    ensures value { result ≡ hydro_number_at place least most (option_map (λ v. view v.now) value.entry) }
    ensures low { IfOk result (λ z. least ≤ℤ z) }
    ensures high { IfOk result (λ z. z ≤ℤ most) }
{
    let value = present_or(value, HydroKind::Shape.at(place))?;
    whole(value, least, most, place)
}

/// An amount or a cost: a whole number from 0 to 2^20.
#[tactic(auto, unfolding(crate::specs::Fields::amount_at))]
pub(crate) fn amount(value: Option<&Value>, place: HydroPlace) -> Result<i64, HydroRefusal>
    ensures { result ≡ amount_at place (option_map (λ v. view v.now) value.entry) }
{
    number(value, 0, GREATEST, place)
}

/// An amount or a cost that may be absent, which is 0 then.
#[tactic(auto, unfolding(crate::specs::Fields::amount_or_zero_at))]
pub(crate) fn amount_or_zero(value: Option<&Value>, place: HydroPlace) -> Result<i64, HydroRefusal>
    ensures { result ≡ amount_or_zero_at place (option_map (λ v. view v.now) value.entry) }
{
    match value {
        Some(value) => whole(value, 0, GREATEST, place),
        None => Ok(0),
    }
}

/// A weight or a count of stages: a whole number from `least` to `most`.
#[tactic(auto, unfolding(crate::specs::Fields::natural_at))]
pub(crate) fn natural(
    value: Option<&Value>,
    least: u32,
    most: u32,
    place: HydroPlace,
) -> Result<u32, HydroRefusal>
    ensures { result ≡ natural_at place least most (option_map (λ v. view v.now) value.entry) }
{
    let number = number(value, i64::from(least), i64::from(most), place)?;
    Ok(number.unsigned_abs() as u32)
}
