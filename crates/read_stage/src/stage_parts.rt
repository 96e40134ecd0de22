// The parts of a stage.
ghost use Rattle.std.specs.Prelude.{◌≡◌, []};
ghost use Rattle.serde_json.specs.View.{view, items_view};
ghost use Rattle.read_json.specs.Steps.{Shows};
ghost use Rattle.read_stage.specs.StageParts.{array_under, object_under, stage_parts_at};
ghost use Rattle.read_stage.specs.Shown.{shown};

use problem::{Place, Refusal};
use read_json::{array, items, members, object, present};
use serde_json::{Map, Value};

/// The parts of a subproblem's object.
#[derive(Clone, Copy)]
pub(crate) struct StageParts<'v> {
    pub(crate) states: &'v Map<String, Value>,
    pub(crate) randoms: &'v [Value],
    pub(crate) variables: &'v [Value],
    /// An object.
    pub(crate) objective: &'v Value,
    pub(crate) constraints: &'v [Value],
}

#[tactic(auto, unfolding(crate::specs::StageParts::array_under))]
fn array_of<'v>(value: &'v Value, key: &str, place: Place) -> Result<&'v [Value], Refusal>
    ensures { Shows (λ items. items_view items.now) result (array_under place key.now (view value.now)) }
{
    array(present(value.get(key), place)?, place)
}

#[tactic(auto, unfolding(crate::specs::StageParts::object_under))]
fn object_of<'v>(value: &'v Value, key: &str, place: Place) -> Result<&'v Value, Refusal>
    ensures { Shows (λ v. view v.now) result (object_under place key.now (view value.now)) }
{
    let inner = present(value.get(key), place)?;
    object(inner, place)?;
    Ok(inner)
}

/// The parts of a stage: Shape where one is absent or of the wrong type.
/// Absent states are those of `none`, which has none, and absent random variables are none.
#[tactic(auto, unfolding(crate::specs::StageParts::stage_parts_at))]
pub(crate) fn read_stage_parts<'v>(
    value: &'v Value,
    none: &'v Map<String, Value>,
    place: Place,
) -> Result<StageParts<'v>, Refusal>
    requires { none.now.entries ≡ [] }
    ensures { Shows shown result (stage_parts_at place (view value.now)) }
{
    let states = members(value.get("state_variables"), none, place)?;
    let randoms = items(value.get("random_variables"), place)?;
    let inner = object_of(value, "subproblem", place)?;
    let variables = array_of(inner, "variables", place)?;
    let objective = object_of(inner, "objective", place)?;
    let constraints = array_of(inner, "constraints", place)?;
    Ok(StageParts {
        states,
        randoms,
        variables,
        objective,
        constraints,
    })
}
