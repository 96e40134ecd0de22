// Sums that carry their sizes, so that no step leaves 128 bits.
ghost use Rattle.std.specs.Prelude.{◌≡◌, ◌+◌, ◌*◌, ◌^◌, ◌<◌, ℕ, ℤ, neg_ℤ, ◌+ℤ◌, ◌-ℤ◌, ◌*ℤ◌, nat_abs, Option, FitsSigned};
ghost use Rattle.std.specs.Int.{w128, int_min};
ghost use Rattle.cut_make.specs.SizeByTerms.{span};
ghost use Rattle.plan_answer.specs.SizedSums.{Sums};

use crate::sized_sum::SizedSum;
use base_num::add_product;
use cut_check::reach;

/// The lesser of two products.
fn least(x: i128, low: i64, high: i64) -> i128
    requires low { FitsSigned w128 (x *ℤ low) }
    requires high { FitsSigned w128 (x *ℤ high) }
    ensures { result ≡ int_min (x *ℤ low) (x *ℤ high) }
{
    (x * i128::from(low)).min(x * i128::from(high))
}

fn negative(x: i128) -> i128
    requires { nat_abs x < 2 ^ 127 }
    ensures { result ≡ neg_ℤ x }
{
    -x
}

impl SizedSum {
    /// Adds a product to the sum.
    pub(crate) fn plus_product(self, x: i128, y: i128) -> Option<SizedSum>
        ensures { Sums result (self.value +ℤ x *ℤ y) (self.size.total + nat_abs x * nat_abs y) }
    {
        let size = self.size.plus_product(x.unsigned_abs(), y.unsigned_abs())?;
        Some(SizedSum {
            value: add_product(self.value, x, y),
            size,
        })
    }

    /// Adds a multiple of another sum to the sum.
    pub(crate) fn plus_multiple(self, factor: i128, inner: Option<SizedSum>) -> Option<SizedSum>
        ensures { (value : ℤ) (size : ℕ) → Sums inner value size
            → Sums result (self.value +ℤ factor *ℤ value) (self.size.total + nat_abs factor * size) }
    {
        if factor == 0 {
            return Some(self);
        }
        let inner = inner?;
        let size = self
            .size
            .plus_product(factor.unsigned_abs(), inner.size.total())?;
        Some(SizedSum {
            value: add_product(self.value, factor, inner.value),
            size,
        })
    }

    /// Adds the least product of another sum, taken negative, and a number in a box to the sum.
    pub(crate) fn plus_least(self, inner: Option<SizedSum>, low: i64, high: i64) -> Option<SizedSum>
        ensures { (value : ℤ) (size : ℕ) → Sums inner value size
            → Sums result (self.value +ℤ int_min (neg_ℤ value *ℤ low) (neg_ℤ value *ℤ high)) (self.size.total + span low high * size) }
    {
        let inner = inner?;
        let size = self
            .size
            .plus_product(reach(low, high), inner.size.total())?;
        Some(SizedSum {
            value: add_product(self.value, 1, least(negative(inner.value), low, high)),
            size,
        })
    }

    /// Adds another sum to the sum.
    pub(crate) fn plus(self, inner: Option<SizedSum>) -> Option<SizedSum>
        ensures { (value : ℤ) (size : ℕ) → Sums inner value size
            → Sums result (self.value +ℤ value) (self.size.total + size) }
    {
        self.plus_multiple(1, inner)
    }

    /// The sum less another sum.
    pub(crate) fn minus(self, inner: Option<SizedSum>) -> Option<SizedSum>
        ensures { (value : ℤ) (size : ℕ) → Sums inner value size
            → Sums result (self.value -ℤ value) (self.size.total + size) }
    {
        self.plus_multiple(-1, inner)
    }
}
