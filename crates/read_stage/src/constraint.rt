// The constraints: bounds of variables, and rows.
ghost use Rattle.std.specs.Prelude.{◌≡◌, IfOk};
ghost use Rattle.serde_json.specs.View.{view, items_view};
ghost use Rattle.read_json.specs.Steps.{Gives};
ghost use Rattle.read_stage.specs.Constraint.{narrowed, bounded, joined_at, constraint_at, no_constraints, constraints_at};

use crate::function::{Function, Site, read_function};
use crate::role::Role;
use crate::rows::row;
use crate::sides::{RowSides, set};
use crate::variables::Variables;
use base_num::{List, Memory};
use problem::{Part, Place, Row};
use read_json::{ReadRefusal, few, object, present};
use serde_json::Value;
use std::alloc::Global;

/// The bounds and the rows that the constraints give.
#[derive(Drop)]
pub(crate) struct Constraints {
    /// One entry per variable; a random variable has no bounds.
    pub(crate) bounds: List<RowSides>,
    pub(crate) rows: List<Row>,
}

impl Constraints {
    fn none(alloc: Global, count: usize) -> Result<Constraints, Memory>
        ensures { IfOk result (λ c. c ≡ no_constraints count) }
    {
        Ok(Constraints {
            bounds: List::from_vec(vec![in alloc; RowSides::NONE; count]?),
            rows: List::new(alloc),
        })
    }
}

#[tactic(auto, unfolding(crate::specs::Constraint::narrowed))]
fn narrow(bounds: &mut List<RowSides>, variable: usize, sides: RowSides)
    ensures { bounds.new ≡ narrowed bounds.old variable sides }
{
    if let Some(before) = bounds.as_slice().get(variable) {
        let sides = before.intersection(sides);
        bounds.set(variable, sides);
    }
}

#[tactic(auto, unfolding(crate::specs::Constraint::bounded))]
fn bounded(roles: &[Role], single: Option<usize>) -> Option<usize>
    ensures { result ≡ bounded roles.now single }
{
    let variable = single?;
    match roles.get(variable) {
        Some(Role::Random) => None,
        _ => Some(variable),
    }
}

#[tactic(auto, unfolding(crate::specs::Constraint::joined_at))]
fn join(
    alloc: Global,
    variables: &Variables,
    found: &mut Constraints,
    function: &Function,
    sides: RowSides,
    place: Place,
) -> Result<(), ReadRefusal>
    ensures { Gives (λ _. found.new) result
        (joined_at variables.now place found.old function.now sides (bounded variables.now.uses.roles function.now.single)) }
{
    match bounded(variables.uses.roles.as_slice(), function.single) {
        Some(variable) => narrow(&mut found.bounds, variable, sides),
        None => {
            let sides = sides.shifted(function.constant, place)?;
            let row = row(alloc, variables, function.coefficients.as_slice(), sides)?;
            found.rows.push(row)?;
        }
    }
    Ok(())
}

#[tactic(auto, unfolding(crate::specs::Constraint::constraint_at))]
fn constraint(
    alloc: Global,
    variables: &Variables,
    p: u32,
    found: &mut Constraints,
    i: u32,
    value: &Value,
) -> Result<(), ReadRefusal>
    ensures { Gives (λ _. found.new) result (constraint_at variables.now p found.old i (view value.now)) }
{
    let place = Place::new(Part::Constraint, p, i, 0);
    let inner = present(value.get("function"), place)?;
    object(inner, place)?;
    let other = present(value.get("set"), place)?;
    object(other, place)?;
    let function = read_function(alloc, &variables.names, Site::Constraint(p, i), inner)?;
    let sides = set(other, place)?;
    join(alloc, variables, found, &function, sides, place)
}

/// The bounds and rows of all constraints.
pub(crate) fn read_constraints(
    alloc: Global,
    variables: &Variables,
    p: u32,
    items: &[Value],
) -> Result<Constraints, ReadRefusal>
    ensures { Gives (λ c. c) result (constraints_at variables.now p (items_view items.now)) }
{
    few(items.len())?;
    let mut found = Constraints::none(alloc, variables.names.len())?;
    for (i, value) in items.iter().enumerate() {
        constraint(alloc, variables, p, &mut found, i as u32, value)?;
    }
    Ok(found)
}
