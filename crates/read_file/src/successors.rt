// Successors with their weights.
ghost use Rattle.std.specs.Prelude.{◌≡◌, ◌≤◌, ◌^◌, length, position};
ghost use Rattle.std.specs.Str.{bytes_eq};
ghost use Rattle.serde_json.specs.View.{view, members_view};
ghost use Rattle.read_json.specs.Limits.{known_at};
ghost use Rattle.read_json.specs.Steps.{Gives};
ghost use Rattle.read_file.specs.Successors.{successor_at, read_successors_at};

use base_num::List;
use problem::{Part, Place, Refusal, RefusalKind};
use read_json::{Names, ReadRefusal, count, few, weight};
use serde_json::{Map, Value};
use std::alloc::Global;

/// Successors in the byte order of their names.
#[derive(Drop)]
pub(crate) struct Successors {
    pub(crate) nodes: List<u32>,
    /// One weight per successor, each at least 1.
    pub(crate) weights: List<u64>,
}

/// The number of a known name, else UnknownName.
#[tactic(auto, unfolding(read_json::specs::Limits::known_at))]
pub(crate) fn known(names: &Names, name: &str, place: Place) -> Result<u32, Refusal>
    requires { length names.now ≤ 2 ^ 32 }
    ensures { result ≡ known_at place (position (bytes_eq name.now) names.now) }
{
    match names.position(name) {
        Some(at) => Ok(at as u32),
        None => Err(RefusalKind::UnknownName.at(place)),
    }
}

#[tactic(auto, unfolding(crate::specs::Successors::successor_at))]
fn successor(
    names: &Names,
    found: &mut Successors,
    place: Place,
    name: &str,
    value: &Value,
) -> Result<(), ReadRefusal>
    requires { length names.now ≤ 2 ^ 32 }
    ensures { Gives (λ _. found.new) result
        (successor_at place names.now found.old name.now (view value.now)) }
{
    let weight = weight(value, place)?;
    let node = known(names, name, place)?;
    found.nodes.push(node)?;
    found.weights.push(weight.unsigned_abs())?;
    Ok(())
}

/// The successors that an object's members name: each a weight, then the key of a known node. The
/// place of successor i has the part and the numbers `a`, i and 0.
pub(crate) fn read_successors(
    alloc: Global,
    names: &Names,
    part: Part,
    a: u32,
    members: &Map<String, Value>,
) -> Result<Successors, ReadRefusal>
    requires { length names.now ≤ 2 ^ 32 }
    ensures { Gives (λ s. s) result
        (read_successors_at part a names.now (members_view members.now.entries)) }
{
    few(count(members))?;
    let mut found = Successors {
        nodes: List::new(alloc),
        weights: List::new(alloc),
    };
    let mut i = 0u32;
    for (name, value) in members.iter() {
        successor(
            names,
            &mut found,
            Place::new(part, a, i, 0),
            name.as_str(),
            value,
        )?;
        i += 1;
    }
    Ok(found)
}
