// Weights that stand for shares of their total.
ghost use Rattle.read_json.specs.Steps.{Gives};
ghost use Rattle.read_file.specs.Weights.{bounded_weights_at};

use base_num::List;
use problem::{GREATEST_TOTAL_WEIGHT, Place, RefusalKind};
use read_json::ReadRefusal;
use std::alloc::Global;

/// The weights, where they add up to at most 65,535, else Weight.
#[tactic(auto, unfolding(read_file::specs::Weights::bounded_weights_at))]
pub(crate) fn weights(alloc: Global, all: &[u64], place: Place) -> Result<List<u32>, ReadRefusal>
    ensures { Gives (λ l. l) result (bounded_weights_at place 0 all.now) }
{
    let mut left = GREATEST_TOTAL_WEIGHT;
    let mut found = List::new(alloc);
    for weight in all {
        let Some(tail) = left.checked_sub(*weight) else {
            return Err(ReadRefusal::Refused(RefusalKind::Weight.at(place)));
        };
        found.push(*weight as u32)?;
        left = tail;
    }
    Ok(found)
}
