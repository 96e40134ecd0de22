// Numbers that keep their range.
ghost use Rattle.std.specs.Prelude.{◌≡◌, ◌^◌, ◌<◌, pos, neg_ℤ, nat_abs};
ghost use Rattle.lp_wide_table.specs.Numbers.{wide_cell_of, wide_quantity_of, cell_sum, value_sum};

use crate::Wide;
use std::marker::Model;

const CELLS: i128 = 1 << 124;

const QUANTITIES: i128 = 1 << 110;

/// A number of the table, of absolute value below 2^124, at scale 2^80: a cell, a scaled term, a cost or a reduced
/// cost.
#[derive(Clone, Copy)]
pub struct WideCell {
    v: i128,
}

impl Model for WideCell {
    ghost use Rattle.std.specs.Prelude.{ℤ, ◌^◌, ◌<◌, nat_abs};

    ghost Value = { ℤ };

    ghost view = { λ c. c.v };

    ghost inverse = { λ z. record { v = z } };

    ghost invariant = { λ c. nat_abs c.v < 2 ^ 124 };
}

impl WideCell {
    /// The number 0.
    pub fn zero() -> WideCell
        ensures { result ≡ pos 0 }
    {
        WideCell { v: 0 }
    }

    /// -2^80, which stands for -1.
    pub fn minus_one() -> WideCell
        ensures { result ≡ neg_ℤ (pos (2 ^ 80)) }
    {
        WideCell { v: -(1 << 80) }
    }

    // A number of 128 bits as a cell.
    fn narrow(v: i128) -> Option<WideCell>
        ensures { result ≡ wide_cell_of v }
    {
        if -CELLS < v && v < CELLS {
            Some(WideCell { v })
        } else {
            None
        }
    }

    /// A number as a cell. None exactly where its absolute value is 2^124 or more.
    pub fn new(number: Wide) -> Option<WideCell>
        ensures { result ≡ wide_cell_of number }
    {
        WideCell::narrow(number.narrowed()?)
    }

    /// The sum with a number. None exactly where 256 bits do not hold it, or where its absolute value is 2^124 or more.
    #[tactic(auto, unfolding(crate::specs::Numbers::cell_sum))]
    pub fn plus(self, number: Wide) -> Option<WideCell>
        ensures { result ≡ cell_sum self number }
    {
        WideCell::new(Wide::from_i128(self.v).plus(number)?)
    }

    /// The number with the other sign.
    pub fn negated(self) -> WideCell
        ensures { result ≡ neg_ℤ self }
    {
        WideCell { v: -self.v }
    }

    /// The number.
    pub fn number(self) -> i128
        ensures value { result ≡ self }
        ensures small { nat_abs result < 2 ^ 124 }
    {
        self.v
    }
}

/// A point, a bound or a side, of absolute value below 2^110, at scale 2^64.
#[derive(Clone, Copy)]
pub struct WideQuantity {
    v: i128,
}

impl Model for WideQuantity {
    ghost use Rattle.std.specs.Prelude.{ℤ, ◌^◌, ◌<◌, nat_abs};

    ghost Value = { ℤ };

    ghost view = { λ c. c.v };

    ghost inverse = { λ z. record { v = z } };

    ghost invariant = { λ c. nat_abs c.v < 2 ^ 110 };
}

impl WideQuantity {
    /// The number 0.
    pub fn zero() -> WideQuantity
        ensures { result ≡ pos 0 }
    {
        WideQuantity { v: 0 }
    }

    /// A number of 128 bits as a quantity. None exactly where its absolute value is 2^110 or more.
    pub fn narrow(v: i128) -> Option<WideQuantity>
        ensures { result ≡ wide_quantity_of v }
    {
        if -QUANTITIES < v && v < QUANTITIES {
            Some(WideQuantity { v })
        } else {
            None
        }
    }

    /// A number as a quantity. None exactly where its absolute value is 2^110 or more.
    pub fn new(number: Wide) -> Option<WideQuantity>
        ensures { result ≡ wide_quantity_of number }
    {
        WideQuantity::narrow(number.narrowed()?)
    }

    /// The sum with a number. None exactly where 256 bits do not hold it, or where its absolute value is 2^110 or more.
    #[tactic(auto, unfolding(crate::specs::Numbers::value_sum))]
    pub fn plus(self, number: Wide) -> Option<WideQuantity>
        ensures { result ≡ value_sum self number }
    {
        WideQuantity::new(Wide::from_i128(self.v).plus(number)?)
    }

    /// The number.
    pub fn number(self) -> i128
        ensures value { result ≡ self }
        ensures small { nat_abs result < 2 ^ 110 }
    {
        self.v
    }
}
