// Whole numbers of 256 bits, in two halves.
ghost use Rattle.std.specs.Prelude.{◌≡◌, ◌<◌, ◌^◌, pos, neg_ℤ, ◌+ℤ◌, ◌-ℤ◌, ◌*ℤ◌, int_lt, nat_abs};
ghost use Rattle.base_num.specs.Sums.{floor_over};
ghost use Rattle.lp_wide_table.specs.WideWhole.{held_wide, nearest_of, down_of_wide};

use crate::double_words::{
    cross_product, high_bits, high_difference, high_product, high_sum, high_total, join, low_bits,
    low_difference, low_product, low_sum, lower, power, shift_down, shift_in, shift_up,
    shifted_out, upper,
};
use std::marker::Model;

/// A whole number from -2^255 to 2^255 - 1.
#[derive(Clone, Copy)]
pub struct Wide {
    high: i128,
    low: u128,
}

impl Model for Wide {
    ghost use Rattle.std.specs.Prelude.{ℤ, pos, ◌^◌, ◌<◌, ◌+ℤ◌, ◌*ℤ◌, FitsSigned};
    ghost use Rattle.std.specs.Int.{w128};
    ghost use Rattle.base_num.specs.Sums.{floor_over};
    ghost use Rattle.lp_wide_table.specs.WideWhole.{rest_over};

    ghost Value = { ℤ };

    ghost view = { λ w. pos (2 ^ 128) *ℤ w.high +ℤ pos w.low };

    ghost inverse = { λ z. record { high = floor_over z (2 ^ 128); low = rest_over z (2 ^ 128) } };

    ghost invariant = { λ w. FitsSigned w128 w.high × w.low < 2 ^ 128 };
}

impl Wide {
    /// The number 0.
    pub fn zero() -> Wide
        ensures { result ≡ pos 0 }
    {
        Wide { high: 0, low: 0 }
    }

    /// Tells whether the number is below 0.
    pub fn is_negative(self) -> bool
        ensures { result ≡ int_lt self (pos 0) }
    {
        self.high < 0
    }

    /// A number of 128 bits.
    pub fn from_i128(number: i128) -> Wide
        ensures { result ≡ number }
    {
        Wide {
            high: number >> 127,
            low: number.cast_unsigned(),
        }
    }

    /// The product. It always fits. Its four products of halves keep the signs of the upper halves
    /// (Warren, Hacker's Delight, 2002).
    pub fn product(a: i128, b: i128) -> Wide
        ensures { result ≡ a *ℤ b }
    {
        let (above, below) = (upper(a), lower(a));
        let (other_above, other_below) = (upper(b), lower(b));
        let bottom = low_product(below, other_below);
        let first = cross_product(above, other_below, high_bits(bottom));
        let second = cross_product(other_above, below, lower(first));
        let top = high_product(above, other_above);
        Wide {
            high: high_total(top, upper(first), upper(second)),
            low: join(lower(second), low_bits(bottom)),
        }
    }

    /// The sum. None exactly where 256 bits do not hold it.
    pub fn plus(self, other: Wide) -> Option<Wide>
        ensures { result ≡ held_wide 255 (self +ℤ other) }
    {
        let (low, carry) = low_sum(self.low, other.low);
        let high = high_sum(self.high, other.high, carry)?;
        Some(Wide { high, low })
    }

    /// The difference. None exactly where 256 bits do not hold it.
    pub fn minus(self, other: Wide) -> Option<Wide>
        ensures { result ≡ held_wide 255 (self -ℤ other) }
    {
        let (low, lent) = low_difference(self.low, other.low);
        let high = high_difference(self.high, other.high, lent)?;
        Some(Wide { high, low })
    }

    /// The sum with a product. None exactly where 256 bits do not hold it.
    pub fn plus_product(self, a: i128, b: i128) -> Option<Wide>
        ensures { result ≡ held_wide 255 (self +ℤ a *ℤ b) }
    {
        self.plus(Wide::product(a, b))
    }

    /// The sum with a product, where it is known to fit.
    pub fn add_product(self, a: i128, b: i128) -> Wide
        requires { nat_abs (self +ℤ a *ℤ b) < 2 ^ 255 }
        ensures { result ≡ self +ℤ a *ℤ b }
    {
        let Some(sum) = self.plus_product(a, b) else {
            unreachable!()
        };
        sum
    }

    /// The number in 128 bits. None exactly where 128 bits do not hold it.
    pub fn narrowed(self) -> Option<i128>
        ensures { result ≡ held_wide 127 self }
    {
        let number = self.low.cast_signed();
        if self.high == number >> 127 {
            Some(number)
        } else {
            None
        }
    }

    /// Tells whether the number is below the other.
    pub fn is_less(self, other: Wide) -> bool
        ensures { result ≡ int_lt self other }
    {
        self.high < other.high || (self.high == other.high && self.low < other.low)
    }

    /// The number with the other sign. None exactly where 256 bits do not hold it.
    pub fn negated(self) -> Option<Wide>
        ensures { result ≡ held_wide 255 (neg_ℤ self) }
    {
        Wide::zero().minus(self)
    }

    /// The number over 2^k, rounded down, for any k.
    pub fn shift_down(self, k: u32) -> Wide
        ensures { result ≡ floor_over self (2 ^ k) }
    {
        if k == 0 {
            self
        } else if k < 128 {
            Wide {
                high: shift_down(self.high, k),
                low: shift_in(self.low, shifted_out(self.high, k), k),
            }
        } else {
            Wide::from_i128(shift_down(self.high, k - 128))
        }
    }

    /// A number of 128 bits times 2^k. None exactly where 256 bits do not hold it.
    pub fn shifted(number: i128, k: u32) -> Option<Wide>
        ensures { result ≡ held_wide 255 (number *ℤ pos (2 ^ k)) }
    {
        if k <= 126 {
            Some(Wide::product(number, power(k)))
        } else if k == 127 {
            Wide::product(number, i128::MIN).negated()
        } else {
            let high = shift_up(number, k - 128)?;
            Some(Wide { high, low: 0 })
        }
    }
    /// The number over 2^k, rounded to the nearest, halves up. None exactly where 128 bits do not
    /// hold it.
    pub fn nearest(self, k: u32) -> Option<i128>
        requires { 0 < k }
        ensures { result ≡ held_wide 127 (nearest_of self k) }
    {
        let more = self.shift_down(k - 1).plus(Wide::from_i128(1))?;
        more.shift_down(1).narrowed()
    }

    /// The number over 2^80, rounded to the nearest, halves up. None exactly where 128 bits do not
    /// hold it.
    pub fn down(self) -> Option<i128>
        ensures { result ≡ held_wide 127 (down_of_wide self) }
    {
        self.nearest(80)
    }
}
