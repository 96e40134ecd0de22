// The boxes of decisions and incoming states.
ghost use Rattle.std.specs.Prelude.{◌≡◌, ◌<◌, ◌^◌, [], length, slice_get, slice_index_or, IfOk};
ghost use Rattle.read_json.specs.Steps.{Gives};
ghost use Rattle.read_stage.specs.Boxes.{bound_at, decision_at, incoming_at, box_at, sides_of, variable_box_at, boxes_at, given_low_bounds, given_high_bounds};

use crate::role::Role;
use crate::rows::coefficient_of;
use crate::sides::RowSides;
use crate::variables::Variables;
use base_num::{List, Memory, Name};
use problem::{Decision, Part, Place, Refusal, RefusalKind};
use read_json::{ReadRefusal, few};
use std::alloc::Global;

/// The variables of a subproblem with their sides and costs.
#[derive(Clone, Copy)]
struct Columns<'a> {
    variables: &'a Variables,
    bounds: &'a [RowSides],
    costs: &'a [i64],
}

/// One variable: its name, its sides and its cost.
#[derive(Clone, Copy)]
struct Column<'a> {
    name: &'a str,
    sides: RowSides,
    cost: i64,
}

#[tactic(auto, unfolding(crate::specs::Boxes::bound_at))]
fn bound(side: Option<i64>, place: Place) -> Result<i64, Refusal>
    ensures { result ≡ bound_at place side }
{
    match side {
        Some(side) => Ok(side),
        None => Err(RefusalKind::Unbounded.at(place)),
    }
}

#[tactic(auto, unfolding(crate::specs::Boxes::decision_at))]
fn decision(
    alloc: Global,
    found: &mut List<Decision>,
    column: Column,
    place: Place,
) -> Result<(), ReadRefusal>
    ensures { Gives (λ _. found.new) result (decision_at place found.old column.entry.name.now column.entry.sides column.entry.cost) }
{
    let Column { name, sides, cost } = column;
    let low = bound(sides.low, place)?;
    let high = bound(sides.high, place)?;
    sides.ordered(place)?;
    let name = Name::new(alloc, name)?;
    found.push(Decision {
        name,
        low,
        high,
        cost,
    })?;
    Ok(())
}

#[tactic(auto, unfolding(crate::specs::Boxes::box_at, crate::specs::Boxes::incoming_at))]
fn variable_box(
    alloc: Global,
    found: &mut List<Decision>,
    role: Option<Role>,
    column: Column,
    place: Place,
) -> Result<(), ReadRefusal>
    ensures { Gives (λ _. found.new) result (box_at place found.old role column.entry.name.now column.entry.sides column.entry.cost) }
{
    match role {
        Some(Role::Free | Role::Outgoing) => decision(alloc, found, column, place),
        Some(Role::Incoming) => {
            column.sides.ordered(place)?;
            Ok(())
        }
        Some(Role::Random) | None => Ok(()),
    }
}

fn role_of(variable: usize, roles: &[Role]) -> Option<Role>
    ensures { result ≡ slice_get roles.now variable }
{
    roles.get(variable).copied()
}

fn sides_at(bounds: &[RowSides], variable: usize) -> RowSides
    ensures { result ≡ sides_of bounds.now variable }
{
    bounds.get(variable).copied().unwrap_or(RowSides::NONE)
}

#[tactic(auto, unfolding(crate::specs::Boxes::variable_box_at))]
fn variable(
    alloc: Global,
    columns: Columns,
    p: u32,
    found: &mut List<Decision>,
    i: usize,
) -> Result<(), ReadRefusal>
    requires known { i < length columns.variables.now.names }
    requires few { i < 2 ^ 24 }
    ensures { Gives (λ _. found.new) result
        (variable_box_at columns.entry.variables.now p columns.entry.bounds.now columns.entry.costs.now found.old i (slice_index_or columns.entry.variables.now.names i [])) }
{
    let Columns {
        variables,
        bounds,
        costs,
    } = columns;
    let role = role_of(i, variables.uses.roles.as_slice());
    let column = Column {
        name: variables.names.name(i),
        sides: sides_at(bounds, i),
        cost: coefficient_of(i, costs),
    };
    let place = Place::new(Part::Variable, p, i as u32, 0);
    variable_box(alloc, found, role, column, place)
}

/// The decisions with their boxes and costs: Unbounded where a side of a decision is absent,
/// EmptyBox where the lower side of a decision or an incoming state is above the upper one.
pub(crate) fn boxes(
    alloc: Global,
    variables: &Variables,
    p: u32,
    bounds: &[RowSides],
    costs: &[i64],
) -> Result<List<Decision>, ReadRefusal>
    ensures { Gives (λ l. l) result (boxes_at variables.now p bounds.now costs.now) }
{
    few(variables.names.len())?;
    let mut found = List::new(alloc);
    for i in 0..variables.names.len() {
        let columns = Columns {
            variables,
            bounds,
            costs,
        };
        variable(alloc, columns, p, &mut found, i)?;
    }
    Ok(found)
}

/// The given lower bounds of some variables, one entry per variable that is given.
#[tactic(auto, unfolding(crate::specs::Boxes::given_low_bounds))]
pub(crate) fn lows(
    alloc: Global,
    bounds: &[RowSides],
    variables: &[usize],
) -> Result<List<Option<i64>>, Memory>
    ensures { IfOk result (λ l. l ≡ given_low_bounds bounds.now variables.now) }
{
    let mut found = List::new(alloc);
    for variable in variables {
        found.push(sides_at(bounds, *variable).low)?;
    }
    Ok(found)
}

/// The given upper bounds of some variables, one entry per variable that is given.
#[tactic(auto, unfolding(crate::specs::Boxes::given_high_bounds))]
pub(crate) fn highs(
    alloc: Global,
    bounds: &[RowSides],
    variables: &[usize],
) -> Result<List<Option<i64>>, Memory>
    ensures { IfOk result (λ l. l ≡ given_high_bounds bounds.now variables.now) }
{
    let mut found = List::new(alloc);
    for variable in variables {
        found.push(sides_at(bounds, *variable).high)?;
    }
    Ok(found)
}
