// Sums of products of two numbers of the table.
ghost use Rattle.std.specs.Prelude.{◌≡◌, ◌+◌, ◌*◌, ◌^◌, ◌≤◌, ◌+ℤ◌, ◌-ℤ◌, ◌*ℤ◌, pos, nat_abs};
ghost use Rattle.lp_table.specs.Numbers.{cell_of, down_of};

use lp_table::numbers::{down, product};
use lp_table::{Cell, Coefficient, Quantity};
use std::marker::Model;

/// A sum of products, of absolute value at most 1.5 times 2^126.
#[derive(Clone, Copy)]
pub struct SumOfProducts {
    v: i128,
}

impl Model for SumOfProducts {
    ghost use Rattle.std.specs.Prelude.{ℤ, ◌*◌, ◌^◌, ◌≤◌, nat_abs};

    ghost Value = { ℤ };

    ghost view = { λ w. w.v };

    ghost inverse = { λ z. record { v = z } };

    ghost invariant = { λ w. nat_abs w.v ≤ 3 * 2 ^ 125 };
}

// A product of a cell and a number of at most 2^40.
fn cost_product(x: i64, y: i64) -> i128
    requires x { nat_abs x ≤ 2 ^ 60 }
    requires y { nat_abs y ≤ 2 ^ 40 }
    ensures value { result ≡ x *ℤ y }
    ensures small { nat_abs result ≤ 2 ^ 100 }
{
    product(x, y)
}

// A product of a cell and a quantity.
fn value_product(x: i64, y: i64) -> i128
    requires x { nat_abs x ≤ 2 ^ 60 }
    requires y { nat_abs y ≤ 2 ^ 55 }
    ensures value { result ≡ x *ℤ y }
    ensures small { nat_abs result ≤ 2 ^ 115 }
{
    product(x, y)
}

impl SumOfProducts {
    /// The sum of nothing.
    pub fn zero() -> SumOfProducts
        ensures { result ≡ pos 0 }
    {
        SumOfProducts { v: 0 }
    }

    /// A cost at scale 2^80.
    pub fn of_cost(cost: Cell) -> SumOfProducts
        ensures value { result ≡ cost *ℤ pos (2 ^ 40) }
        ensures small { nat_abs result ≤ 2 ^ 100 }
    {
        SumOfProducts {
            v: cost_product(cost.number(), 1 << 40),
        }
    }

    /// The sum less a dual times a term.
    pub fn less_term(self, dual: Cell, term: Coefficient) -> SumOfProducts
        requires { nat_abs self ≤ 2 ^ 126 }
        ensures value { result ≡ self -ℤ dual *ℤ term }
        ensures small { nat_abs result ≤ nat_abs self + 2 ^ 100 }
    {
        SumOfProducts {
            v: self.v - cost_product(dual.number(), term.number()),
        }
    }

    /// The sum with a cost times a value.
    pub fn plus(self, cost: Cell, value: Quantity) -> SumOfProducts
        requires { nat_abs self + 2 ^ 115 ≤ 3 * 2 ^ 125 }
        ensures value { result ≡ self +ℤ cost *ℤ value }
        ensures small { nat_abs result ≤ nat_abs self + 2 ^ 115 }
    {
        SumOfProducts {
            v: self.v + value_product(cost.number(), value.number()),
        }
    }

    /// A cost at scale 2^80 as a cell. None exactly where it is no cell.
    pub fn rounded(self) -> Option<Cell>
        requires { nat_abs self ≤ 2 ^ 126 }
        ensures { result ≡ cell_of (down_of self) }
    {
        Cell::new(down(self.v))
    }

    /// The number.
    pub fn number(self) -> i128
        ensures { result ≡ self }
    {
        self.v
    }
}
