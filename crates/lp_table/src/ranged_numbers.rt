// Numbers that keep their range.
ghost use Rattle.std.specs.Prelude.{◌≡◌, ◌^◌, ◌<◌, ◌≤◌, pos, neg_ℤ, nat_abs};
ghost use Rattle.lp_table.specs.Numbers.{cell_of, quantity_of, coefficient_of};

use std::marker::Model;

const CELLS: i64 = 1 << 60;

const QUANTITIES: i64 = 1 << 55;

const COEFFICIENTS: i64 = 1 << 40;

/// A number of the table, of absolute value below 2^60, at scale 2^40: a cell, a cost or a reduced
/// cost.
#[derive(Clone, Copy)]
pub struct Cell {
    v: i64,
}

impl Model for Cell {
    ghost use Rattle.std.specs.Prelude.{ℤ, ◌^◌, ◌<◌, nat_abs};

    ghost Value = { ℤ };

    ghost view = { λ c. c.v };

    ghost inverse = { λ z. record { v = z } };

    ghost invariant = { λ c. nat_abs c.v < 2 ^ 60 };
}

impl Cell {
    /// The number 0.
    pub fn zero() -> Cell
        ensures { result ≡ pos 0 }
    {
        Cell { v: 0 }
    }

    /// -2^40, which stands for -1.
    pub fn minus_one() -> Cell
        ensures { result ≡ neg_ℤ (pos (2 ^ 40)) }
    {
        Cell { v: -(1 << 40) }
    }

    /// A number of 64 bits as a cell. None exactly where its absolute value is 2^60 or more.
    pub fn narrow(v: i64) -> Option<Cell>
        ensures { result ≡ cell_of v }
    {
        if -CELLS < v && v < CELLS {
            Some(Cell { v })
        } else {
            None
        }
    }

    /// A number as a cell. None exactly where its absolute value is 2^60 or more.
    pub fn new(v: i128) -> Option<Cell>
        ensures { result ≡ cell_of v }
    {
        match i64::try_from(v) {
            Ok(v) => Cell::narrow(v),
            Err(_) => None,
        }
    }

    /// The number.
    pub fn number(self) -> i64
        ensures value { result ≡ self }
        ensures small { nat_abs result < 2 ^ 60 }
    {
        self.v
    }
}

/// A point, a bound or a side, of absolute value below 2^55, at scale 2^32.
#[derive(Clone, Copy)]
pub struct Quantity {
    v: i64,
}

impl Model for Quantity {
    ghost use Rattle.std.specs.Prelude.{ℤ, ◌^◌, ◌<◌, nat_abs};

    ghost Value = { ℤ };

    ghost view = { λ c. c.v };

    ghost inverse = { λ z. record { v = z } };

    ghost invariant = { λ c. nat_abs c.v < 2 ^ 55 };
}

impl Quantity {
    /// The number 0.
    pub fn zero() -> Quantity
        ensures { result ≡ pos 0 }
    {
        Quantity { v: 0 }
    }

    // A number of 64 bits as a quantity.
    fn narrow(v: i64) -> Option<Quantity>
        ensures { result ≡ quantity_of v }
    {
        if -QUANTITIES < v && v < QUANTITIES {
            Some(Quantity { v })
        } else {
            None
        }
    }

    /// A number as a quantity. None exactly where its absolute value is 2^55 or more.
    pub fn new(v: i128) -> Option<Quantity>
        ensures { result ≡ quantity_of v }
    {
        match i64::try_from(v) {
            Ok(v) => Quantity::narrow(v),
            Err(_) => None,
        }
    }

    /// The number.
    pub fn number(self) -> i64
        ensures value { result ≡ self }
        ensures small { nat_abs result < 2 ^ 55 }
    {
        self.v
    }
}

/// A scaled term of a row, of absolute value at most 2^40, at scale 2^40.
#[derive(Clone, Copy)]
pub struct Coefficient {
    v: i64,
}

impl Model for Coefficient {
    ghost use Rattle.std.specs.Prelude.{ℤ, ◌^◌, ◌≤◌, nat_abs};

    ghost Value = { ℤ };

    ghost view = { λ c. c.v };

    ghost inverse = { λ z. record { v = z } };

    ghost invariant = { λ c. nat_abs c.v ≤ 2 ^ 40 };
}

impl Coefficient {
    // A number of 64 bits as a coefficient.
    fn narrow(v: i64) -> Option<Coefficient>
        ensures { result ≡ coefficient_of v }
    {
        if -COEFFICIENTS <= v && v <= COEFFICIENTS {
            Some(Coefficient { v })
        } else {
            None
        }
    }

    /// A number as a coefficient. None exactly where its absolute value is above 2^40.
    pub fn new(v: i128) -> Option<Coefficient>
        ensures { result ≡ coefficient_of v }
    {
        match i64::try_from(v) {
            Ok(v) => Coefficient::narrow(v),
            Err(_) => None,
        }
    }

    /// Gives the number as a cell.
    pub fn cell(self) -> Cell
        ensures { result ≡ self }
    {
        Cell { v: self.v }
    }

    /// The number.
    pub fn number(self) -> i64
        ensures value { result ≡ self }
        ensures small { nat_abs result ≤ 2 ^ 40 }
    {
        self.v
    }
}
