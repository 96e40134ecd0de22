// The variables that are random.
ghost use Rattle.std.specs.Prelude.{◌≤◌, length};
ghost use Rattle.serde_json.specs.View.{view, items_view};
ghost use Rattle.read_json.specs.Steps.{Gives};
ghost use Rattle.read_stage.specs.Randoms.{random_at, each_random_at, randoms_at};

use crate::role::{Role, Uses, take};
use base_num::Name;
use problem::{MOST_RANDOMS, Part, Place, RefusalKind};
use read_json::{Names, ReadRefusal, known, string};
use serde_json::Value;
use std::alloc::Global;

#[tactic(auto, unfolding(crate::specs::Randoms::random_at))]
fn random(
    alloc: Global,
    names: &Names,
    p: u32,
    found: &mut Uses,
    i: u32,
    value: &Value,
) -> Result<(), ReadRefusal>
    ensures { Gives (λ _. found.new) result (random_at names.now p found.old i (view value.now)) }
{
    let place = Place::new(Part::Random, p, i, 0);
    let name = string(value, place)?;
    let variable = known(names.position(name), place)?;
    take(&mut found.roles, variable, Role::Random, place)?;
    found.randoms.push(variable)?;
    found.names.push(Name::new(alloc, name)?)?;
    Ok(())
}

fn each_random(
    alloc: Global,
    names: &Names,
    p: u32,
    found: &mut Uses,
    items: &[Value],
) -> Result<(), ReadRefusal>
    requires { length items.now ≤ 50 }
    ensures { Gives (λ _. found.new) result (each_random_at names.now p found.old (items_view items.now)) }
{
    for (i, value) in items.iter().enumerate() {
        random(alloc, names, p, found, i as u32, value)?;
    }
    Ok(())
}

/// The random variables: TooLarge for more than 50.
#[tactic(auto, using(crate::proofs::Lists::counts), unfolding(crate::specs::Randoms::randoms_at))]
pub(crate) fn randoms(
    alloc: Global,
    names: &Names,
    p: u32,
    found: &mut Uses,
    items: &[Value],
) -> Result<(), ReadRefusal>
    ensures { Gives (λ _. found.new) result (randoms_at names.now p found.old (items_view items.now)) }
{
    if items.len() > MOST_RANDOMS {
        let place = Place::new(Part::Subproblem, p, 0, 0);
        return Err(ReadRefusal::Refused(RefusalKind::TooLarge.at(place)));
    }
    each_random(alloc, names, p, found, items)
}
