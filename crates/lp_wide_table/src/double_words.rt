// Halves of numbers of 128 bits, their products and sums.
ghost use Rattle.std.specs.Prelude.{◌≡◌, ◌≤◌, ◌<◌, ◌+◌, ◌-◌, ◌*◌, ◌/◌, ◌%◌, ◌^◌, pos, ◌+ℤ◌, ◌-ℤ◌, ◌*ℤ◌, nat_abs};
ghost use Rattle.std.specs.Int.{from_bool};
ghost use Rattle.base_num.specs.Sums.{floor_over};
ghost use Rattle.lp_wide_table.specs.WideWhole.{held_wide, rest_over};

/// The upper half, with the sign.
pub fn upper(a: i128) -> i64
    ensures { result ≡ floor_over a (2 ^ 64) }
{
    (a >> 64) as i64
}

/// The lower half.
pub fn lower(a: i128) -> u64
    ensures { result ≡ rest_over a (2 ^ 64) }
{
    (a - ((a >> 64) * (1 << 64))) as u64
}

/// The upper half of a number that is not below 0.
pub fn high_bits(a: u128) -> u64
    ensures { result ≡ a / 2 ^ 64 }
{
    (a >> 64) as u64
}

/// The lower half of a number that is not below 0.
pub fn low_bits(a: u128) -> u64
    ensures { result ≡ a % 2 ^ 64 }
{
    (a & 0xFFFF_FFFF_FFFF_FFFF) as u64
}

/// The product of two lower halves.
pub fn low_product(x: u64, y: u64) -> u128
    ensures { result ≡ x * y }
{
    u128::from(x) * u128::from(y)
}

/// Gives the product of an upper and a lower half, with the carry from below.
pub fn cross_product(x: i64, y: u64, carry: u64) -> i128
    ensures { result ≡ x *ℤ pos y +ℤ pos carry }
{
    i128::from(x) * i128::from(y) + i128::from(carry)
}

/// The product of two upper halves.
pub fn high_product(x: i64, y: i64) -> i128
    ensures value { result ≡ x *ℤ y }
    ensures small { nat_abs result ≤ 2 ^ 126 }
{
    i128::from(x) * i128::from(y)
}

/// Gives the product of two upper halves with the carry from below.
pub fn high_total(product: i128, first: i64, second: i64) -> i128
    requires { nat_abs product ≤ 2 ^ 126 }
    ensures { result ≡ product +ℤ first +ℤ second }
{
    product + i128::from(first) + i128::from(second)
}

/// Joins two halves.
pub fn join(high: u64, low: u64) -> u128
    ensures { result ≡ high * 2 ^ 64 + low }
{
    u128::from(high) * (1 << 64) + u128::from(low)
}

/// The sum without what leaves 128 bits, and whether 2^128 left.
pub fn low_sum(a: u128, b: u128) -> (u128, bool)
    ensures { result.0 + from_bool result.1 * 2 ^ 128 ≡ a + b }
{
    a.carrying_add(b, false)
}

/// The difference, with 2^128 lent where it would be below 0, and whether that was lent.
pub fn low_difference(a: u128, b: u128) -> (u128, bool)
    ensures { result.0 + b ≡ a + from_bool result.1 * 2 ^ 128 }
{
    a.borrowing_sub(b, false)
}

/// The sum of two upper halves and what is carried from below. None exactly where 128 bits do not
/// hold it.
pub fn high_sum(a: i128, b: i128, carry: bool) -> Option<i128>
    ensures { result ≡ held_wide 127 (a +ℤ b +ℤ pos (from_bool carry)) }
{
    if let Some(sum) = a.checked_add(b) {
        sum.checked_add(i128::from(carry))
    } else if carry && a < 0 {
        (a + 1).checked_add(b)
    } else {
        None
    }
}

/// The difference of two upper halves, less what is lent below. None exactly where 128 bits do not
/// hold it.
pub fn high_difference(a: i128, b: i128, lent: bool) -> Option<i128>
    ensures { result ≡ held_wide 127 (a -ℤ b -ℤ pos (from_bool lent)) }
{
    if let Some(difference) = a.checked_sub(b) {
        difference.checked_sub(i128::from(lent))
    } else if lent && a >= 0 {
        (a - 1).checked_sub(b)
    } else {
        None
    }
}

/// The number over 2^k, rounded down.
pub fn shift_down(a: i128, k: u32) -> i128
    ensures { result ≡ floor_over a (2 ^ k) }
{
    if k <= 127 {
        a >> k
    } else if a < 0 {
        -1
    } else {
        0
    }
}

/// Gives the binary digits behind the point of a number over 2^k, in 128 bits.
pub fn shifted_out(a: i128, k: u32) -> u128
    requires least { 0 < k }
    requires most { k < 128 }
    ensures { result ≡ rest_over a (2 ^ k) * 2 ^ (128 - k) }
{
    a.cast_unsigned() << (128 - k)
}

/// The number over 2^k, rounded down, with the places that come in above.
pub fn shift_in(low: u128, above: u128, k: u32) -> u128
    requires least { 0 < k }
    requires most { k < 128 }
    requires fits { above + low / 2 ^ k < 2 ^ 128 }
    ensures { result ≡ above + low / 2 ^ k }
{
    above + (low >> k)
}

#[tactic(auto, using(crate::proofs::Held::is_held))]
fn whole_product(a: i128, b: i128) -> Option<i128>
    ensures { result ≡ held_wide 127 (a *ℤ b) }
{
    a.checked_mul(b)
}

/// 2^k.
pub fn power(k: u32) -> i128
    requires { k ≤ 126 }
    ensures { result ≡ pos (2 ^ k) }
{
    1 << k
}

/// The number times 2^k. None exactly where 128 bits do not hold it.
pub fn shift_up(v: i128, k: u32) -> Option<i128>
    ensures { result ≡ held_wide 127 (v *ℤ pos (2 ^ k)) }
{
    if k <= 126 {
        whole_product(v, power(k))
    } else if v == 0 {
        Some(0)
    } else if k == 127 && v == -1 {
        Some(i128::MIN)
    } else {
        None
    }
}
