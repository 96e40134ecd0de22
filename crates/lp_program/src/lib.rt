//! Linear programs in fixed point, and the trait of their solvers. Nothing here says that an answer is right.
#![tactic(auto)]

pub mod duals;
pub mod fixed;
pub mod packed;
pub mod programs;
pub mod row_writing;
pub mod solver;
pub mod stage_lp;
pub mod stand_ins;

pub use duals::{Duals, PartOfDuals};
pub use fixed::Fx;
pub use packed::{
    ActiveCuts, CoarseCuts, CutList, Out, PackedCuts, PackedView, SlopeEnds, slope_at,
};
pub use programs::{Answer, Column, Kind, LpRow, Program};
pub use row_writing::blank_row;
pub use solver::Solver;
pub use stage_lp::{Cuts, StageLp};
pub use stand_ins::{Liar, Meeting, Zero};
