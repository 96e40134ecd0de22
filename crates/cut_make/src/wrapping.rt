// Sums of products modulo 2^128. A sum whose value is in the range of 128 bits is exact, whatever its parts are.
ghost use Rattle.std.specs.Prelude.{◌≡◌, ◌+ℤ◌, ◌*ℤ◌};
ghost use Rattle.cut_make.specs.Congruent.{Congruent};

/// The sum with one product more, modulo 2^128.
pub fn wrapping_add_product(sum: i128, x: i128, y: i128) -> i128
    ensures { Congruent result (sum +ℤ x *ℤ y) }
{
    sum.wrapping_add(x.wrapping_mul(y))
}

/// The sum, modulo 2^128.
pub(crate) fn wrapping_add(x: i128, y: i128) -> i128
    ensures { Congruent result (x +ℤ y) }
{
    x.wrapping_add(y)
}

/// The product, modulo 2^128.
pub(crate) fn wrapping_product(x: i128, y: i128) -> i128
    ensures { Congruent result (x *ℤ y) }
{
    x.wrapping_mul(y)
}

/// The product of two numbers of 64 bits.
pub(crate) fn wide_product(x: i64, y: i64) -> i128
    ensures { result ≡ x *ℤ y }
{
    i128::from(x) * i128::from(y)
}
