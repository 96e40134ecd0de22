// Hydro plants as a description states them. Buses, reservoirs, thermals and lines are numbered from 0 on,
// each kind in the byte order of its names. All numbers are whole, in the units of the description.
use base_num::{List, Name};

/// A bus of the grid.
#[derive(Drop)]
pub struct Bus {
    /// 1 to 16 letters, digits, `_` or `-`.
    pub name: Name,
    /// The cost of each unit of demand that is not met, 0 to 2^20.
    pub deficit_cost: i64,
}

/// The way of the water that leaves a reservoir.
#[derive(Clone, Copy, Debug, PartialEq, Eq)]
pub struct Travel {
    /// The reservoir that it reaches.
    pub target: u32,
    /// The number of stages after which it arrives, 0 to 3.
    pub stages: u32,
}

/// A reservoir with its turbine.
#[derive(Drop)]
pub struct Reservoir {
    /// 1 to 16 letters, digits, `_` or `-`.
    pub name: Name,
    /// The bus that gets the energy of its turbine.
    pub bus: u32,
    /// The least volume, 0 to 2^20.
    pub low: i64,
    /// The greatest volume, at least `low` and at most 2^20.
    pub high: i64,
    /// The volume before the first stage, from `low` to `high`.
    pub initial: i64,
    /// The most water that the turbine takes in a stage, 0 to 2^20.
    pub turbine: i64,
    /// The most water that is spilled in a stage, 0 to 2^20.
    pub spill: i64,
    /// The energy per unit of turbined water, 0 to 2^20.
    pub factor: i64,
    /// The cost of each unit of spilled water, 0 to 2^20.
    pub spill_cost: i64,
    /// Where turbined and spilled water goes; none where it leaves the system.
    pub downstream: Option<Travel>,
}

/// A thermal plant.
#[derive(Drop)]
pub struct Thermal {
    /// 1 to 16 letters, digits, `_` or `-`.
    pub name: Name,
    /// The bus that gets its energy.
    pub bus: u32,
    /// The most energy in a stage, 0 to 2^20.
    pub high: i64,
    /// The cost of each unit of energy, 0 to 2^20.
    pub cost: i64,
}

/// A line that carries energy one way.
#[derive(Drop)]
pub struct Line {
    /// 1 to 16 letters, digits, `_` or `-`.
    pub name: Name,
    /// The bus that it leaves.
    pub source: u32,
    /// The bus that it reaches.
    pub target: u32,
    /// The most energy in a stage, 0 to 2^20.
    pub high: i64,
}

/// A realization of the inflows into the reservoirs in a stage.
#[derive(Drop)]
pub struct Inflow {
    /// Its share of the total of the stage's weights, at least 1.
    pub weight: u32,
    /// One number per reservoir, -2^20 to 2^20.
    pub water: List<i64>,
}

/// A stage.
#[derive(Drop)]
pub struct Stage {
    /// One number per bus, 0 to 2^20.
    pub demand: List<i64>,
    /// 1 to 100, with weights of a total of at most 65,535.
    pub inflows: List<Inflow>,
}

/// Hydro plants, thermal plants and lines over some stages.
#[derive(Drop)]
pub struct Plants {
    /// 1 to 20.
    pub buses: List<Bus>,
    /// At most 20, and with the sum of all travels at most 50.
    pub reservoirs: List<Reservoir>,
    /// At most 40.
    pub thermals: List<Thermal>,
    /// At most 40.
    pub lines: List<Line>,
    /// 1 to 100.
    pub stages: List<Stage>,
}
