//! Reads a description of hydro plants from JSON.
#![tactic(auto)]

mod buses;
mod entries;
mod field;
mod inflows;
mod json_value;
pub mod laws;
pub mod line_text;
mod lines;
mod names;
mod place;
pub mod plants;
mod reading;
pub mod refusal;
mod reservoirs;
mod stages;
mod tables;
mod thermals;
pub mod worked;

pub use line_text::{kind_number, push_hydro_refusal};
pub use plants::{Bus, Inflow, Line, Plants, Reservoir, Stage, Thermal, Travel};
pub use reading::read_plants;
pub use refusal::{HydroFault, HydroKind, HydroPart, HydroRefusal};
