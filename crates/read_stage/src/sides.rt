// The sides between which a function stands.
ghost use Rattle.std.specs.Prelude.{◌≡◌};
ghost use Rattle.serde_json.specs.View.{view};
ghost use Rattle.read_stage.specs.Sides.{is_crossed, ordered_at, side_at, equal_at, greater_at, less_at, interval_at, set_at, greater_of, lesser_of, intersection, shifted_side_at, shifted_at};

use problem::{Place, Refusal, RefusalKind};
use read_json::{limited, present, string, whole};
use serde_json::Value;

/// A lower and an upper side, where either may be absent.
#[derive(Clone, Copy)]
pub(crate) struct RowSides {
    pub(crate) low: Option<i64>,
    pub(crate) high: Option<i64>,
}

fn is_crossed(low: Option<i64>, high: Option<i64>) -> bool
    ensures { result ≡ is_crossed low high }
{
    match (low, high) {
        (Some(low), Some(high)) => high < low,
        _ => false,
    }
}

fn greater(one: Option<i64>, other: Option<i64>) -> Option<i64>
    ensures { result ≡ greater_of one other }
{
    match (one, other) {
        (Some(one), Some(other)) => Some(one.max(other)),
        (Some(one), None) => Some(one),
        (None, _) => other,
    }
}

fn lesser(one: Option<i64>, other: Option<i64>) -> Option<i64>
    ensures { result ≡ lesser_of one other }
{
    match (one, other) {
        (Some(one), Some(other)) => Some(one.min(other)),
        (Some(one), None) => Some(one),
        (None, _) => other,
    }
}

#[tactic(auto, unfolding(crate::specs::Sides::shifted_side_at))]
fn shifted_side(side: Option<i64>, constant: i64, place: Place) -> Result<Option<i64>, Refusal>
    ensures { result ≡ shifted_side_at place constant side }
{
    match side {
        Some(side) => Ok(Some(limited(side as i128 - constant as i128, place)?)),
        None => Ok(None),
    }
}

impl RowSides {
    /// Neither side.
    pub(crate) const NONE: RowSides = RowSides {
        low: None,
        high: None,
    };

    /// The sides, or EmptyBox where the lower one is above the upper one.
    #[tactic(auto, unfolding(crate::specs::Sides::ordered_at))]
    pub(crate) fn ordered(self, place: Place) -> Result<RowSides, Refusal>
        ensures { result ≡ ordered_at place self }
    {
        if is_crossed(self.low, self.high) {
            return Err(RefusalKind::EmptyBox.at(place));
        }
        Ok(self)
    }

    /// Gives the intersection with other sides.
    pub(crate) fn intersection(self, other: RowSides) -> RowSides
        ensures { result ≡ intersection self other }
    {
        RowSides {
            low: greater(self.low, other.low),
            high: lesser(self.high, other.high),
        }
    }

    /// The sides less a constant: TooLarge past 2^40 in absolute value.
    #[tactic(auto, unfolding(crate::specs::Sides::shifted_at))]
    pub(crate) fn shifted(self, constant: i64, place: Place) -> Result<RowSides, Refusal>
        ensures { result ≡ shifted_at place constant self }
    {
        let low = shifted_side(self.low, constant, place)?;
        let high = shifted_side(self.high, constant, place)?;
        Ok(RowSides { low, high })
    }
}

#[tactic(auto, unfolding(crate::specs::Sides::side_at))]
fn side(value: &Value, key: &str, place: Place) -> Result<i64, Refusal>
    ensures { result ≡ side_at place key.now (view value.now) }
{
    whole(present(value.get(key), place)?, place)
}

#[tactic(auto, unfolding(crate::specs::Sides::equal_at))]
fn equal(value: &Value, place: Place) -> Result<RowSides, Refusal>
    ensures { result ≡ equal_at place (view value.now) }
{
    let value = side(value, "value", place)?;
    Ok(RowSides {
        low: Some(value),
        high: Some(value),
    })
}

#[tactic(auto, unfolding(crate::specs::Sides::greater_at))]
fn greater_than(value: &Value, place: Place) -> Result<RowSides, Refusal>
    ensures { result ≡ greater_at place (view value.now) }
{
    let lower = side(value, "lower", place)?;
    Ok(RowSides {
        low: Some(lower),
        high: None,
    })
}

#[tactic(auto, unfolding(crate::specs::Sides::less_at))]
fn less_than(value: &Value, place: Place) -> Result<RowSides, Refusal>
    ensures { result ≡ less_at place (view value.now) }
{
    let upper = side(value, "upper", place)?;
    Ok(RowSides {
        low: None,
        high: Some(upper),
    })
}

#[tactic(auto, unfolding(crate::specs::Sides::interval_at))]
fn interval(value: &Value, place: Place) -> Result<RowSides, Refusal>
    ensures { result ≡ interval_at place (view value.now) }
{
    let lower = side(value, "lower", place)?;
    let upper = side(value, "upper", place)?;
    let sides = RowSides {
        low: Some(lower),
        high: Some(upper),
    };
    sides.ordered(place)
}

/// A set's sides: Unsupported for any type but `EqualTo`, `GreaterThan`, `LessThan` and `Interval`.
#[tactic(auto, unfolding(crate::specs::Sides::set_at))]
pub(crate) fn set(value: &Value, place: Place) -> Result<RowSides, Refusal>
    ensures { result ≡ set_at place (view value.now) }
{
    let kind = string(present(value.get("type"), place)?, place)?;
    if kind == "EqualTo" {
        return equal(value, place);
    }
    if kind == "GreaterThan" {
        return greater_than(value, place);
    }
    if kind == "LessThan" {
        return less_than(value, place);
    }
    if kind == "Interval" {
        return interval(value, place);
    }
    Err(RefusalKind::Unsupported.at(place))
}
