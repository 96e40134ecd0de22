// The distance that a variable goes.
ghost use Rattle.std.specs.Prelude.{◌≡◌, ◌^◌, ◌≤◌, pos, ◌-ℤ◌, nat_abs};
ghost use Rattle.lp_pivot.specs.Move.{turned_by};

use lp_table::Quantity;
use std::marker::Model;

/// The distance that a variable goes, of absolute value at most 2^56, at scale 2^32.
#[derive(Clone, Copy)]
pub struct Shift {
    v: i64,
}

impl Model for Shift {
    ghost use Rattle.std.specs.Prelude.{ℤ, ◌^◌, ◌≤◌, nat_abs};

    ghost Value = { ℤ };

    ghost view = { λ c. c.v };

    ghost inverse = { λ z. record { v = z } };

    ghost invariant = { λ c. nat_abs c.v ≤ 2 ^ 56 };
}

impl Shift {
    /// The number 0.
    pub fn zero() -> Shift
        ensures { result ≡ pos 0 }
    {
        Shift { v: 0 }
    }

    // Gives the distance of a quantity.
    pub(crate) fn by(x: Quantity) -> Shift
        ensures { result ≡ x }
    {
        Shift { v: x.number() }
    }

    // The way from one quantity to another.
    pub(crate) fn between(from: Quantity, to: Quantity) -> Shift
        ensures { result ≡ to -ℤ from }
    {
        Shift {
            v: to.number() - from.number(),
        }
    }

    // Turns the distance the other way, where it turns.
    pub(crate) fn turned_by(self, turns: bool) -> Shift
        ensures { result ≡ turned_by turns self }
    {
        if turns { Shift { v: -self.v } } else { self }
    }

    /// The number.
    pub fn number(self) -> i64
        ensures value { result ≡ self }
        ensures small { nat_abs result ≤ 2 ^ 56 }
    {
        self.v
    }
}
