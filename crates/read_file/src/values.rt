// Values of random variables.
ghost use Rattle.std.specs.Prelude.{◌≡◌};
ghost use Rattle.serde_json.specs.View.{members_view};
ghost use Rattle.read_json.specs.Steps.{Gives};
ghost use Rattle.read_file.specs.Values.{randoms_of, random_value_at, values_at};

use base_num::{List, Name};
use problem::{Part, Place, Subproblem};
use read_json::{ReadRefusal, few, member, present, whole};
use serde_json::{Map, Value};
use std::alloc::Global;

/// The names of a subproblem's random variables.
pub(crate) fn randoms(subs: &[Subproblem], p: u32) -> &[Name]
    ensures { result.now ≡ randoms_of subs.now p }
{
    match subs.get(p as usize) {
        Some(sub) => sub.randoms.as_slice(),
        None => &[],
    }
}

#[tactic(auto, unfolding(crate::specs::Values::random_value_at))]
fn value(
    found: &mut List<i64>,
    place: Place,
    support: &Map<String, Value>,
    name: &str,
) -> Result<(), ReadRefusal>
    ensures { Gives (λ _. found.new) result
        (random_value_at place (members_view support.now.entries) found.old name.now) }
{
    let inner = present(member(support, name), place)?;
    let value = whole(inner, place)?;
    found.push(value)?;
    Ok(())
}

/// The values that a support gives to random variables, in their order: each a whole number under
/// the variable's name. The place of random variable i has the part and the numbers `a`, `b` and i.
pub(crate) fn values(
    alloc: Global,
    part: Part,
    a: u32,
    b: u32,
    randoms: &[Name],
    support: &Map<String, Value>,
) -> Result<List<i64>, ReadRefusal>
    ensures { Gives (λ l. l) result
        (values_at part a b randoms.now (members_view support.now.entries)) }
{
    few(randoms.len())?;
    let mut found = List::new(alloc);
    for (i, name) in randoms.iter().enumerate() {
        let place = Place::new(part, a, b, i as u32);
        value(&mut found, place, support, name.as_str())?;
    }
    Ok(found)
}
