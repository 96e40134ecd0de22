// Scaled numbers.
ghost use Rattle.std.specs.Prelude.{◌≡◌, ◌^◌, ◌<◌, ◌≤◌, pos, ◌*ℤ◌, nat_abs, Some, IfSome};
ghost use Rattle.lp_program.specs.Numbers.{held};
ghost use Rattle.lp_table.specs.Numbers.{down_of, bits_of, quotient_of, shift_up, shift_down, shift_of};

/// A product.
pub fn product(x: i64, y: i64) -> i128
    ensures value { result ≡ x *ℤ y }
    ensures small { nat_abs result ≤ 2 ^ 126 }
{
    i128::from(x) * i128::from(y)
}

/// The number over 2^40, rounded to the nearest, halves up.
pub fn down(sum: i128) -> i128
    requires { nat_abs sum ≤ 2 ^ 126 }
    ensures value { result ≡ down_of sum }
    ensures small { nat_abs result ≤ 2 ^ 87 }
{
    (sum + (1 << 39)) >> 40
}

/// A product over 2^40, rounded to the nearest, halves up.
pub fn down_product(x: i64, y: i64) -> i128
    ensures value { result ≡ down_of (x *ℤ y) }
    ensures small { nat_abs result ≤ 2 ^ 87 }
{
    down(product(x, y))
}

/// The number of binary digits of |v|, 0 for 0.
pub fn bits(v: i128) -> u32
    ensures value { result ≡ bits_of v }
    ensures small { result ≤ 128 }
{
    128 - v.unsigned_abs().leading_zeros()
}

/// The quotient, rounded towards zero.
pub fn quotient(a: i128, b: i128) -> i128
    requires small { nat_abs a ≤ 2 ^ 126 }
    requires divisor { 0 < nat_abs b }
    ensures { result ≡ quotient_of a b }
{
    a / b
}

/// 2^k.
pub fn power(k: u32) -> i128
    requires { k ≤ 126 }
    ensures { result ≡ pos (2 ^ k) }
{
    1 << k
}

#[tactic(auto, using(lp_program::proofs::Numbers::is_held))]
fn whole_product(x: i128, y: i128) -> Option<i128>
    ensures { result ≡ held (x *ℤ y) }
{
    x.checked_mul(y)
}

// 2^k in 64 bits.
fn short_power(k: u32) -> i64
    requires { k ≤ 62 }
    ensures { result ≡ pos (2 ^ k) }
{
    1 << k
}

// The number times 2^k, where both have few digits: one product of 64 bits, and nothing to test. None elsewhere.
#[tactic(auto, using(crate::proofs::Shifts::small_held))]
fn short_shift_up(v: i128, k: u32) -> Option<i128>
    ensures { IfSome result (λ x. held (v *ℤ pos (2 ^ k)) ≡ Some x) }
{
    if k > 62 {
        return None;
    }
    match i64::try_from(v) {
        Ok(short) => Some(product(short, short_power(k))),
        Err(_) => None,
    }
}

#[tactic(auto, unfolding(crate::specs::Numbers::shift_up))]
fn shift_up(v: i128, k: u32) -> Option<i128>
    ensures { result ≡ shift_up v k }
{
    match short_shift_up(v, k) {
        Some(shifted) => Some(shifted),
        None => long_shift_up(v, k),
    }
}

#[tactic(auto, unfolding(crate::specs::Numbers::shift_up))]
fn long_shift_up(v: i128, k: u32) -> Option<i128>
    ensures { result ≡ shift_up v k }
{
    if k <= 126 {
        whole_product(v, power(k))
    } else if v == 0 {
        Some(0)
    } else if k == 127 && v == -1 {
        Some(i128::MIN)
    } else {
        None
    }
}

#[tactic(auto, unfolding(crate::specs::Numbers::shift_down))]
fn shift_down(v: i128, k: u32) -> i128
    ensures { result ≡ shift_down v k }
{
    if k <= 126 {
        v >> k
    } else if v < 0 {
        -1
    } else {
        0
    }
}

/// The number times 2^k, rounded down. None exactly where 128 bits do not hold it.
pub fn shift(v: i128, k: i32) -> Option<i128>
    ensures { result ≡ shift_of v k }
{
    if k >= 0 {
        shift_up(v, k.unsigned_abs())
    } else {
        Some(shift_down(v, k.unsigned_abs()))
    }
}
