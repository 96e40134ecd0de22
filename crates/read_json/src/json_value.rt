// From bytes to a JSON value.
ghost use Rattle.serde_json.specs.View.{view};
ghost use Rattle.read_json.specs.Steps.{Gives};
ghost use Rattle.read_json.specs.Fields.{json_at};

use crate::refusal::ReadRefusal;
use crate::values::spelled;
use problem::{Place, RefusalKind};
use serde_json::Value;
use std::alloc::Global;

/// The JSON value that the bytes spell: NotJson at the whole where they spell none, or past 127 levels;
/// Memory where memory was refused.
#[tactic(auto, using(crate::proofs::Texts::json_is))]
pub fn json(alloc: Global, bytes: &[u8]) -> Result<Value, ReadRefusal>
    ensures { Gives (λ v. view v) result (json_at bytes.now) }
{
    match spelled(alloc, bytes)? {
        Some(value) => Ok(value),
        None => Err(ReadRefusal::Refused(RefusalKind::NotJson.at(Place::WHOLE))),
    }
}
