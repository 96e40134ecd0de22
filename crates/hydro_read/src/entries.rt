// Numbers under names.
ghost use Rattle.std.specs.Prelude.{◌<◌, [], length, slice_index_or};
ghost use Rattle.serde_json.specs.View.{members_view};
ghost use Rattle.hydro_read.specs.Steps.{HydroGives};
ghost use Rattle.hydro_read.specs.Fields.{hydro_entry_at, hydro_entries_at};

use crate::field::{GREATEST, number};
use crate::place::HydroPlace;
use crate::refusal::HydroFault;
use base_num::List;
use read_json::{Names, member};
use serde_json::{Map, Value};
use std::alloc::Global;

// The number under name i.
#[tactic(auto, unfolding(crate::specs::Fields::hydro_entry_at))]
fn entry(
    found: &mut List<i64>,
    least: i64,
    names: &Names,
    i: usize,
    table: &Map<String, Value>,
    place: HydroPlace,
) -> Result<(), HydroFault>
    requires { i < length names.now }
    ensures { HydroGives (λ _. found.new) result
        (hydro_entry_at place least (members_view table.now.entries) found.old i (slice_index_or names.now i [])) }
{
    let name = names.name(i);
    let number = number(member(table, name), least, GREATEST, place)?;
    found.push(number)?;
    Ok(())
}

/// The numbers under the names, in the order of the names: each a whole number from `least` to 2^20.
pub(crate) fn entries(
    alloc: Global,
    least: i64,
    names: &Names,
    table: &Map<String, Value>,
    place: HydroPlace,
) -> Result<List<i64>, HydroFault>
    ensures { HydroGives (λ l. l) result
        (hydro_entries_at place least names.now (members_view table.now.entries)) }
{
    let mut found = List::new(alloc);
    for i in 0..names.len() {
        entry(&mut found, least, names, i, table, place)?;
    }
    Ok(found)
}
