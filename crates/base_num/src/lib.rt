//! Numbers, names and lists with their memory, numbers as bytes and texts, and exact arithmetic.
#![tactic(auto)]

pub mod big_endian;
pub mod list;
pub mod memory;
pub mod name;
pub mod numeral;
pub mod push;
pub mod size;
pub mod spare;
pub mod whole;

pub use list::{List, copied};
pub use memory::Memory;
pub use name::Name;
pub use numeral::read_u64;
pub use push::{push_bytes, push_name, push_whole};
pub use size::Size;
pub use spare::Spare;
pub use whole::{add_product, floor_div};
