//! Fields of JSON values, and walks over members and items, each with its first refusal.
#![tactic(auto)]

pub mod field;
pub mod json_value;
pub mod limits;
pub mod names;
pub mod refusal;
pub mod values;

pub use field::{array, count, key, member, object, present, string, weight, whole};
pub use json_value::json;
pub use limits::{few, items, known, limited, members, name, short};
pub use names::{Names, keys};
pub use refusal::ReadRefusal;
pub use values::{array_or, integer_or, members_or, object_or, present_or, spelled, string_or};
