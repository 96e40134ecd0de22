// The variables of a subproblem.
ghost use Rattle.serde_json.specs.View.{view, items_view};
ghost use Rattle.read_json.specs.Steps.{Gives};
ghost use Rattle.read_stage.specs.Variables.{variable_at, names_at};

use crate::role::Uses;
use base_num::List;
use problem::{Part, Place, RefusalKind};
use read_json::{Names, ReadRefusal, few, name, present};
use serde_json::Value;
use std::alloc::Global;

/// A subproblem's variables, and their uses.
#[derive(Drop)]
pub(crate) struct Variables {
    /// In the order of the file, by which they are numbered.
    pub(crate) names: Names,
    pub(crate) uses: Uses,
    /// The numbers of the variables that are neither incoming states nor random.
    pub(crate) decisions: List<usize>,
}

#[tactic(auto, unfolding(crate::specs::Variables::variable_at))]
fn variable(
    alloc: Global,
    found: &mut Names,
    p: u32,
    i: u32,
    value: &Value,
) -> Result<(), ReadRefusal>
    ensures { Gives (λ _. found.new) result (variable_at p found.old i (view value.now)) }
{
    let place = Place::new(Part::Variable, p, i, 0);
    let inner = present(value.get("name"), place)?;
    let name = name(inner, place)?;
    if !found.add(alloc, name)? {
        return Err(ReadRefusal::Refused(RefusalKind::Duplicate.at(place)));
    }
    Ok(())
}

/// The names of the variables.
pub(crate) fn variable_names(alloc: Global, p: u32, items: &[Value]) -> Result<Names, ReadRefusal>
    ensures { Gives (λ n. n) result (names_at p (items_view items.now)) }
{
    few(items.len())?;
    let mut found = Names::new(alloc);
    for (i, value) in items.iter().enumerate() {
        variable(alloc, &mut found, p, i as u32, value)?;
    }
    Ok(found)
}
