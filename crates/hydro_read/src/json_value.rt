// From bytes to a JSON value.
ghost use Rattle.serde_json.specs.View.{view};
ghost use Rattle.hydro_read.specs.Steps.{HydroGives};
ghost use Rattle.hydro_read.specs.Fields.{hydro_json_at};

use crate::place::HydroPlace;
use crate::refusal::{HydroFault, HydroKind};
use read_json::spelled;
use serde_json::Value;
use std::alloc::Global;

/// The JSON value that the bytes spell: NotJson at the whole where they spell none, or past 127 levels;
/// Memory where memory was refused.
#[tactic(auto, unfolding(crate::specs::Fields::hydro_json_at))]
pub(crate) fn json(alloc: Global, bytes: &[u8]) -> Result<Value, HydroFault>
    ensures { HydroGives (λ v. view v) result (hydro_json_at bytes.now) }
{
    match spelled(alloc, bytes)? {
        Some(value) => Ok(value),
        None => Err(HydroFault::Refused(HydroKind::NotJson.at(HydroPlace::WHOLE))),
    }
}
