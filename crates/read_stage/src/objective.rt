// The cost of a stage.
ghost use Rattle.serde_json.specs.View.{view};
ghost use Rattle.read_json.specs.Steps.{Gives};
ghost use Rattle.read_stage.specs.Objective.{costs_at, objective_at};

use crate::function::{Function, Site, read_function};
use problem::{Part, Place, RefusalKind};
use read_json::{Names, ReadRefusal, present, string};
use serde_json::Value;
use std::alloc::Global;

#[tactic(auto, unfolding(crate::specs::Objective::costs_at))]
fn costs(alloc: Global, names: &Names, p: u32, value: &Value) -> Result<Function, ReadRefusal>
    ensures { Gives (λ f. f) result (costs_at names.now p (view value.now)) }
{
    let place = Place::new(Part::Objective, p, 0, 0);
    let inner = present(value.get("function"), place)?;
    read_function(alloc, names, Site::Objective(p), inner)
}

/// The costs of the variables and the constant cost: Unsupported for a sense other than `min` and `feasibility`.
#[tactic(auto, unfolding(crate::specs::Objective::objective_at))]
pub(crate) fn objective(
    alloc: Global,
    names: &Names,
    p: u32,
    value: &Value,
) -> Result<Function, ReadRefusal>
    ensures { Gives (λ f. f) result (objective_at names.now p (view value.now)) }
{
    let place = Place::new(Part::Objective, p, 0, 0);
    let sense = string(present(value.get("sense"), place)?, place)?;
    if sense == "min" {
        return costs(alloc, names, p, value);
    }
    if sense == "feasibility" {
        return Ok(Function::zero(alloc, names.len())?);
    }
    Err(ReadRefusal::Refused(RefusalKind::Unsupported.at(place)))
}
