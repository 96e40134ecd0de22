// Whole numbers of 128 bits.
ghost use Rattle.std.specs.Int.{w128};
ghost use Rattle.std.specs.Prelude.{◌≡◌, pos, ◌≤ℤ◌, ◌+ℤ◌, ◌*ℤ◌, nat_abs, FitsSigned};
ghost use Rattle.base_num.specs.Sums.{floor_over};

/// The quotient a / d, rounded down, for a positive d.
pub fn floor_div(a: i128, d: i128) -> i128
    requires { pos 1 ≤ℤ d }
    ensures { result ≡ floor_over a (nat_abs d) }
{
    a.div_euclid(d)
}

/// The sum with one product more, where neither leaves 128 bits.
pub fn add_product(sum: i128, x: i128, y: i128) -> i128
    requires product { FitsSigned w128 (x *ℤ y) }
    requires whole { FitsSigned w128 (sum +ℤ x *ℤ y) }
    ensures { result ≡ sum +ℤ x *ℤ y }
{
    sum + x * y
}
