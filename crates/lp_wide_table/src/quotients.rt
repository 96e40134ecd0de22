// Quotients by long division.
ghost use Rattle.std.specs.Prelude.{◌≡◌, ◌≤◌, ◌<◌, ◌+◌, ◌*◌, ◌/◌, ◌%◌, ◌^◌, nat_abs};
ghost use Rattle.lp_wide_table.specs.WideWhole.{bits_of_wide, inverse_of_wide};

/// The number of binary digits of |v|, 0 for 0.
pub fn bits(v: i128) -> u32
    ensures value { result ≡ bits_of_wide v }
    ensures small { result ≤ 128 }
{
    128 - v.unsigned_abs().leading_zeros()
}

// 2^k.
fn power_of_two(k: u32) -> u128
    requires { k ≤ 127 }
    ensures { result ≡ 2 ^ k }
{
    1 << k
}

// The quotient and the rest of twice the dividend, by those of the dividend.
fn doubled(quotient: u128, tail: u128, divisor: u128) -> (u128, u128)
    requires few { quotient < 2 ^ 126 }
    requires below { tail < divisor }
    requires small { divisor < 2 ^ 127 }
    ensures value { result.0 * divisor + result.1 ≡ 2 * (quotient * divisor + tail) }
    ensures below { result.1 < divisor }
{
    if 2 * tail >= divisor {
        (2 * quotient + 1, 2 * tail - divisor)
    } else {
        (2 * quotient, 2 * tail)
    }
}

// 2^(digits + 124) over a divisor of so many digits, rounded down, by long division.
fn power_over(divisor: u128, digits: u32) -> u128
    requires least { 2 ^ digits ≤ 2 * divisor }
    requires most { divisor < 2 ^ 124 }
    ensures value { result ≡ 2 ^ (digits + 124) / divisor }
    ensures small { result ≤ 2 ^ 125 }
{
    let power = power_of_two(digits);
    let mut quotient = power / divisor;
    let mut tail = power % divisor;
    for _ in 0u32..124 {
        (quotient, tail) = doubled(quotient, tail, divisor);
    }
    quotient
}

/// 2^(bits(p) + 124) over p, rounded towards zero.
pub fn inverse(p: i128) -> i128
    requires least { 0 < nat_abs p }
    requires most { nat_abs p < 2 ^ 124 }
    ensures value { result ≡ inverse_of_wide p }
    ensures small { nat_abs result ≤ 2 ^ 125 }
{
    let size = power_over(p.unsigned_abs(), bits(p)).cast_signed();
    if p < 0 { -size } else { size }
}
