// A sum of sizes that stays below 2^127.
ghost use Rattle.std.specs.Prelude.{◌≡◌, ◌+◌, ◌*◌, ◌^◌, ◌<◌, ◌≤◌, MatchOption};
ghost use Rattle.base_num.specs.Product.{product_of};

/// A sum of absolute values of at most 2^127 - 1.
#[derive(Clone, Copy)]
pub struct Size {
    total: u128,
    pub ghost in_range: { total < 2 ^ 127 },
}

impl Size {
    /// The sum of nothing.
    pub fn zero() -> Size
        ensures { result.total ≡ 0 }
    {
        Size { total: 0 }
    }

    /// The sum so far.
    pub fn total(&self) -> u128
        ensures { result ≡ self.now.total }
    {
        self.total
    }

    // The sum, where it is in range.
    fn within_range(total: u128) -> Option<Size>
        ensures { MatchOption result (2 ^ 127 ≤ total) (λ size. size.total ≡ total) }
    {
        if total < 1 << 127 {
            Some(Size { total })
        } else {
            None
        }
    }

    /// The sum with the product of two factors added; none exactly where that exceeds 2^127 - 1.
    pub fn plus_product(self, x: u128, y: u128) -> Option<Size>
        ensures { MatchOption result (2 ^ 127 ≤ self.total + x * y)
            (λ size. size.total ≡ self.total + x * y) }
    {
        let product = x.checked_mul(y)?;
        Size::within_range(self.total.checked_add(product)?)
    }

    /// The sum with the product of the four factors added; none exactly where that exceeds 2^127 - 1.
    pub fn plus(self, factors: [u128; 4]) -> Option<Size>
        ensures { MatchOption result (2 ^ 127 ≤ self.total + product_of factors)
            (λ size. size.total ≡ self.total + product_of factors) }
    {
        if factors.contains(&0) {
            return Some(self);
        }
        let first = factors[0].checked_mul(factors[1])?;
        let second = first.checked_mul(factors[2])?;
        let third = second.checked_mul(factors[3])?;
        Size::within_range(self.total.checked_add(third)?)
    }
}
