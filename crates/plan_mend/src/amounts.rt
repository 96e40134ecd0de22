// By how much a decision moves.
ghost use Rattle.std.specs.Prelude.{◌≡◌, ◌≢◌, ◌≤◌, ◌^◌, pos, nat_abs};
ghost use Rattle.plan_mend.specs.Moves.{directed, reaching, short_of};

use std::marker::Model;

/// By how much a decision moves at most within a box, at scale 2^24: at most 2^66.
#[derive(Clone, Copy, Drop)]
pub(crate) struct Amount {
    number: i128,
}

impl Model for Amount {
    ghost use Rattle.std.specs.Prelude.{ℤ, ◌^◌, ◌≤◌, nat_abs};

    ghost Value = { ℤ };

    ghost view = { λ a. a.number };

    ghost inverse = { λ z. record { number = z } };

    ghost invariant = { λ a. nat_abs a.number ≤ 2 ^ 66 };
}

impl Amount {
    /// The amount of this number.
    pub(crate) fn new(number: i128) -> Amount
        requires { nat_abs number ≤ 2 ^ 66 }
        ensures { result ≡ number }
    {
        Amount { number }
    }

    /// The number of an amount.
    pub(crate) fn number(self) -> i128
        ensures value { result ≡ self }
        ensures small { nat_abs result ≤ 2 ^ 66 }
    {
        self.number
    }
}

/// Gives the most units that do not go beyond a row's side: the row misses so much, and has the decision with this factor.
pub(crate) fn short_of(miss: i128, factor: i64) -> u128
    requires some { factor ≢ pos 0 }
    requires small { nat_abs miss ≤ 2 ^ 115 }
    ensures value { result ≡ short_of miss factor }
    ensures small { result ≤ 2 ^ 116 }
{
    miss.unsigned_abs() / u128::from(factor.unsigned_abs())
}

/// Gives the least units that reach the side.
pub(crate) fn reaching(miss: i128, factor: i64) -> u128
    requires some { factor ≢ pos 0 }
    requires small { nat_abs miss ≤ 2 ^ 115 }
    ensures value { result ≡ reaching miss factor }
    ensures small { result ≤ 2 ^ 116 }
{
    let factor = u128::from(factor.unsigned_abs());
    (miss.unsigned_abs() + (factor - 1)) / factor
}

/// Gives so many units, up or down, as they bring the left side of a row its way.
pub(crate) fn directed(miss: i128, factor: i64, size: u128) -> i128
    requires { size ≤ 2 ^ 116 }
    ensures value { result ≡ directed miss factor size }
    ensures small { nat_abs result ≤ 2 ^ 116 }
{
    if (miss < 0) == (factor < 0) {
        size as i128
    } else {
        -(size as i128)
    }
}
