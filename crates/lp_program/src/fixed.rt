// Numbers in fixed point.
ghost use Rattle.std.specs.Prelude.{◌≡◌, ◌+ℤ◌, ◌-ℤ◌, ◌*ℤ◌};
ghost use Rattle.lp_program.specs.Numbers.{held, quotient, plus_fixed, minus, times_fixed, over_fixed};

use base_num::floor_div;

/// The scale F of a solver's numbers: it stands for 1.
pub const ONE: i128 = 1 << 32;

/// A number that stands for itself over F = 2^32.
#[derive(Clone, Copy, Debug, PartialEq, Eq)]
pub struct Fx(pub i128);

#[tactic(auto, using(crate::proofs::Numbers::is_held))]
fn sum(a: i128, b: i128) -> Option<i128>
    ensures { result ≡ held (a +ℤ b) }
{
    a.checked_add(b)
}

#[tactic(auto, using(crate::proofs::Numbers::is_held))]
fn difference(a: i128, b: i128) -> Option<i128>
    ensures { result ≡ held (a -ℤ b) }
{
    a.checked_sub(b)
}

#[tactic(auto, using(crate::proofs::Numbers::is_held))]
fn whole_product(a: i128, b: i128) -> Option<i128>
    ensures { result ≡ held (a *ℤ b) }
{
    a.checked_mul(b)
}

// a / b, rounded down; none where b is 0 or 128 bits do not hold the quotient.
fn floor_quotient(a: i128, b: i128) -> Option<i128>
    ensures { result ≡ quotient a b }
{
    if b > 0 {
        Some(floor_div(a, b))
    } else if a > 0 && b < 0 {
        Some((a - 1).div_euclid(b) - 1)
    } else {
        a.checked_div(b)
    }
}

impl Fx {
    /// The sum; none exactly where 128 bits do not hold it.
    #[tactic(auto, unfolding(crate::specs::Numbers::plus_fixed))]
    pub fn add(self, other: Fx) -> Option<Fx>
        ensures { result ≡ plus_fixed self other }
    {
        Some(Fx(sum(self.0, other.0)?))
    }

    /// The difference; none exactly where 128 bits do not hold it.
    #[tactic(auto, unfolding(crate::specs::Numbers::minus))]
    pub fn sub(self, other: Fx) -> Option<Fx>
        ensures { result ≡ minus self other }
    {
        Some(Fx(difference(self.0, other.0)?))
    }

    /// The product, rounded down; none exactly where the product of the numbers as they stand,
    /// before it is scaled, leaves 128 bits.
    #[tactic(auto, unfolding(crate::specs::Numbers::times_fixed))]
    pub fn mul(self, other: Fx) -> Option<Fx>
        ensures { result ≡ times_fixed self other }
    {
        Some(Fx(floor_div(whole_product(self.0, other.0)?, ONE)))
    }

    /// The quotient, rounded down; none exactly where the divisor is 0, or where 128 bits do not
    /// hold the dividend times 2^32 or the quotient.
    #[tactic(auto, unfolding(crate::specs::Numbers::over_fixed))]
    pub fn div(self, other: Fx) -> Option<Fx>
        ensures { result ≡ over_fixed self other }
    {
        Some(Fx(floor_quotient(whole_product(self.0, ONE)?, other.0)?))
    }
}
