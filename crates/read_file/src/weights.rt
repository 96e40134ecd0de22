// Weights that stand for shares of their total.
ghost use Rattle.std.specs.Prelude.{◌+◌, ◌≤◌, sum, OnOk};
ghost use Rattle.read_json.specs.Steps.{Gives};
ghost use Rattle.read_file.specs.Weights.{bounded_weights_at};

use base_num::List;
use problem::{GREATEST_TOTAL_WEIGHT, Place, RefusalKind};
use read_json::ReadRefusal;
use std::alloc::Global;

/// The weights, where they and `more` add up to at most 65,535, else Weight.
#[tactic(auto, unfolding(crate::specs::Weights::bounded_weights_at))]
pub(crate) fn weights(
    alloc: Global,
    more: u64,
    all: &[u64],
    place: Place,
) -> Result<List<u32>, ReadRefusal>
    ensures value { Gives (λ l. l) result (bounded_weights_at place more all.now) }
    ensures small { OnOk result (more + sum all.now ≤ 65535) }
{
    let too_much = ReadRefusal::Refused(RefusalKind::Weight.at(place));
    let Some(mut left) = GREATEST_TOTAL_WEIGHT.checked_sub(more) else {
        return Err(too_much);
    };
    let mut found = List::new(alloc);
    for weight in all {
        let Some(tail) = left.checked_sub(*weight) else {
            return Err(too_much);
        };
        found.push(*weight as u32)?;
        left = tail;
    }
    Ok(found)
}
