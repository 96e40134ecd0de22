// The realizations of a node.
ghost use Rattle.std.specs.Prelude.{◌≤◌, length};
ghost use Rattle.serde_json.specs.View.{view, items_view};
ghost use Rattle.read_json.specs.Steps.{Gives};
ghost use Rattle.read_file.specs.Realizations.{realization_at, certain_at, listed_at, realizations_at};

use crate::values::values;
use base_num::{List, Name};
use problem::{MOST_REALIZATIONS, Part, Place, RefusalKind};
use read_json::{ReadRefusal, members, object, present, weight};
use serde_json::{Map, Value};
use std::alloc::Global;

/// Realizations in the order of the file.
#[derive(Drop)]
pub(crate) struct Realizations {
    /// One weight per realization, each at least 1.
    pub(crate) weights: List<u64>,
    /// One list per realization, with one value per random variable.
    pub(crate) values: List<List<i64>>,
}

#[tactic(auto, unfolding(crate::specs::Realizations::realization_at))]
fn realization(
    alloc: Global,
    randoms: &[Name],
    found: &mut Realizations,
    n: u32,
    r: u32,
    value: &Value,
) -> Result<(), ReadRefusal>
    ensures { Gives (λ _. found.new) result
        (realization_at n randoms.now found.old r (view value.now)) }
{
    let place = Place::new(Part::Realization, n, r, 0);
    let none = Map::new(alloc);
    object(value, place)?;
    let support = members(value.get("support"), &none, place)?;
    let weight = weight(present(value.get("probability"), place)?, place)?;
    let values = values(alloc, Part::Support, n, r, randoms, support)?;
    found.weights.push(weight.unsigned_abs())?;
    found.values.push(values)?;
    Ok(())
}

#[tactic(auto, unfolding(crate::specs::Realizations::certain_at))]
fn certain(alloc: Global, randoms: &[Name], place: Place) -> Result<Realizations, ReadRefusal>
    ensures { Gives (λ c. c) result (certain_at place randoms.now) }
{
    if !randoms.is_empty() {
        return Err(ReadRefusal::Refused(RefusalKind::Shape.at(place)));
    }
    let mut weights = List::new(alloc);
    let mut values = List::new(alloc);
    weights.push(1u64)?;
    values.push(List::new(alloc))?;
    Ok(Realizations { weights, values })
}

fn listed(
    alloc: Global,
    randoms: &[Name],
    n: u32,
    items: &[Value],
) -> Result<Realizations, ReadRefusal>
    requires { length items.now ≤ 100 }
    ensures { Gives (λ c. c) result (listed_at n randoms.now (items_view items.now)) }
{
    let mut found = Realizations {
        weights: List::new(alloc),
        values: List::new(alloc),
    };
    for (r, value) in items.iter().enumerate() {
        realization(alloc, randoms, &mut found, n, r as u32, value)?;
    }
    Ok(found)
}

/// The realizations of node n, at most 100. An empty list is one realization of weight 1 without
/// random values, and is refused where the subproblem has random variables.
#[tactic(auto, unfolding(crate::specs::Realizations::realizations_at), using(read_json::proofs::InOrder::counts))]
pub(crate) fn read_realizations(
    alloc: Global,
    randoms: &[Name],
    n: u32,
    items: &[Value],
) -> Result<Realizations, ReadRefusal>
    ensures { Gives (λ c. c) result (realizations_at n randoms.now (items_view items.now)) }
{
    let place = Place::new(Part::Node, n, 0, 0);
    if items.len() > MOST_REALIZATIONS {
        return Err(ReadRefusal::Refused(RefusalKind::TooLarge.at(place)));
    }
    if items.is_empty() {
        return certain(alloc, randoms, place);
    }
    listed(alloc, randoms, n, items)
}
