// The table of a whole program.
ghost use Rattle.std.specs.Prelude.{◌≡◌, ◌<◌, length};
ghost use Rattle.lp_wide_table.specs.Bounding.{wide_low_bound_of, wide_up_bound_of};

use crate::ranged_numbers::{WideCell, WideQuantity};
use crate::rows::WideRows;
use crate::square::WideSquare;
use base_num::List;
use lp_table::{Basis, Scales};

/// WideBounds of all variables, scaled: first those of the columns, then those of the slacks, which are
/// the sides of the rows.
#[derive(Drop)]
pub struct WideBounds {
    /// The lower bound of each variable, 0 where there is none.
    pub lows: List<WideQuantity>,
    /// The upper bound of each variable, 0 where there is none.
    pub ups: List<WideQuantity>,
    /// Whether each variable has a lower bound.
    pub has_low: List<bool>,
    /// Whether each variable has an upper bound.
    pub has_up: List<bool>,
}

impl WideBounds {
    /// The lower bound of a variable. None where there is none.
    pub fn low(&self, variable: usize) -> Option<WideQuantity>
        requires low { variable < length self.now.lows }
        requires flag { variable < length self.now.has_low }
        ensures { result ≡ wide_low_bound_of self.now variable }
    {
        if self.has_low.as_slice()[variable] {
            Some(self.lows.as_slice()[variable])
        } else {
            None
        }
    }

    /// The upper bound of a variable. None where there is none.
    pub fn up(&self, variable: usize) -> Option<WideQuantity>
        requires up { variable < length self.now.ups }
        requires flag { variable < length self.now.has_up }
        ensures { result ≡ wide_up_bound_of self.now variable }
    {
        if self.has_up.as_slice()[variable] {
            Some(self.ups.as_slice()[variable])
        } else {
            None
        }
    }
}

/// A program in scaled numbers, with how its basic variables depend on the nonbasic ones. There are
/// as many places, for nonbasic variables, as columns.
#[derive(Drop)]
pub struct WideTable {
    /// The scales of the numbers.
    pub scales: Scales,
    /// The terms of each row of the program.
    pub rows: WideRows,
    /// The cost of each column.
    pub costs: List<WideCell>,
    /// The bounds of all variables.
    pub bounds: WideBounds,
    /// Which variables are not basic.
    pub basis: Basis,
    /// The reduced cost at each place; of a slack, the dual of its row.
    pub reduced: List<WideCell>,
    /// For each basic column the cells by which it is a sum over all places; for other columns the cells that were left there.
    pub lines: WideSquare,
    /// The value of each column.
    pub values: List<WideQuantity>,
}
