// Names, and what they name.
ghost use Rattle.std.specs.Prelude.{◌≡◌, ◌≤◌, ◌^◌, length, position, option_map};
ghost use Rattle.std.specs.List.{list_all};
ghost use Rattle.std.specs.Str.{bytes_eq};
ghost use Rattle.serde_json.specs.View.{view};
ghost use Rattle.hydro_read.specs.Steps.{HydroGives};
ghost use Rattle.hydro_read.specs.Names.{is_hydro_name, is_name_byte, hydro_key_at, hydro_known_at, named_at};

use crate::place::HydroPlace;
use crate::refusal::{HydroFault, HydroKind, HydroRefusal};
use base_num::Name;
use read_json::{Names, present_or, string_or};
use serde_json::Value;
use std::alloc::Global;

/// The names of all buses and of all reservoirs, each kind in byte order.
#[derive(Clone, Copy)]
pub(crate) struct AllNames<'n> {
    pub(crate) buses: &'n Names,
    pub(crate) reservoirs: &'n Names,
}

/// The most bytes of a name.
const NAME_BYTES: usize = 16;

// A letter, a digit, `_` or `-`.
fn is_name_byte(byte: u8) -> bool
    ensures { result ≡ is_name_byte byte }
{
    byte.is_ascii_alphanumeric() || byte == b'_' || byte == b'-'
}

fn has_only_name_bytes(text: &[u8]) -> bool
    ensures { result ≡ list_all is_name_byte text.now }
{
    text.iter().all(|byte| is_name_byte(*byte))
}

// 1 to 16 letters, digits, `_` or `-`.
#[tactic(auto, unfolding(crate::specs::Names::is_hydro_name))]
fn is_name(text: &[u8]) -> bool
    ensures { result ≡ is_hydro_name text.now }
{
    0 < text.len() && text.len() <= NAME_BYTES && has_only_name_bytes(text)
}

/// A key of the form of names, else Limit.
#[tactic(auto, unfolding(crate::specs::Names::hydro_key_at))]
pub(crate) fn key(alloc: Global, text: &str, place: HydroPlace) -> Result<Name, HydroFault>
    ensures { HydroGives (λ n. n) result (hydro_key_at place text.now) }
{
    if !is_name(text.as_bytes()) {
        return Err(HydroFault::Refused(HydroKind::Limit.at(place)));
    }
    Ok(Name::new(alloc, text)?)
}

// The number of a known name, else UnknownName.
#[tactic(auto, unfolding(crate::specs::Names::hydro_known_at))]
fn known(names: &Names, name: &str, place: HydroPlace) -> Result<u32, HydroRefusal>
    requires { length names.now ≤ 2 ^ 32 }
    ensures { result ≡ hydro_known_at place (position (bytes_eq name.now) names.now) }
{
    match names.position(name) {
        Some(at) => Ok(at as u32),
        None => Err(HydroKind::UnknownName.at(place)),
    }
}

/// The number of the name that a member gives: Shape where it is absent or no string, UnknownName where it is
/// not among the names.
#[tactic(auto, unfolding(crate::specs::Names::named_at, crate::specs::Fields::hydro_present_at, crate::specs::Fields::hydro_string_at))]
pub(crate) fn named(
    names: &Names,
    value: Option<&Value>,
    place: HydroPlace,
) -> Result<u32, HydroRefusal>
    requires { length names.now ≤ 2 ^ 32 }
    ensures { result ≡ named_at place names.now (option_map (λ v. view v.now) value.entry) }
{
    let shape = HydroKind::Shape.at(place);
    let name = string_or(present_or(value, shape)?, shape)?;
    known(names, name, place)
}
