// The binary digits of a cut's slopes with the lifts of their columns.
ghost use Rattle.std.specs.Prelude.{◌≡◌, ◌<◌, ◌^◌, ◌≤ℤ◌, ◌+ℤ◌, pos, nat_abs, All};
ghost use Rattle.std.specs.Int.{int_max};
ghost use Rattle.lp_scale.specs.Packed.{greater_digits, most_digits, AreLifts};
ghost use Rattle.lp_table.specs.Numbers.{bits_of};

use lp_program::slope_at;

// Counts the binary digits of a slope.
fn digits(slope: i64) -> i32
    requires { nat_abs slope < 2 ^ 57 }
    ensures value { result ≡ pos (bits_of slope) }
    ensures some { pos 0 ≤ℤ result }
    ensures few { result ≤ℤ pos 57 }
{
    (64 - slope.unsigned_abs().leading_zeros()) as i32
}

// Finds the greater of a number and some binary digits with a lift.
fn greater_with(most: i32, lift: i32, digits: i32) -> i32
    requires least { pos 0 ≤ℤ most }
    requires greatest { most ≤ℤ pos 640 }
    requires lift_least { pos 0 ≤ℤ lift }
    requires lift_greatest { lift ≤ℤ pos 520 }
    requires some { pos 0 ≤ℤ digits }
    requires few { digits ≤ℤ pos 57 }
    ensures value { result ≡ int_max most (lift +ℤ digits) }
    ensures least { pos 0 ≤ℤ result }
    ensures greatest { result ≤ℤ pos 640 }
{
    most.max(lift + digits)
}

/// Finds the greater of a number and a slope's binary digits with a lift, unless the slope is 0.
pub(crate) fn greater(most: i32, lift: i32, slope: i64) -> i32
    requires least { pos 0 ≤ℤ most }
    requires greatest { most ≤ℤ pos 640 }
    requires lift_least { pos 0 ≤ℤ lift }
    requires lift_greatest { lift ≤ℤ pos 520 }
    requires slope { nat_abs slope < 2 ^ 57 }
    ensures value { result ≡ greater_digits most lift slope }
    ensures least { pos 0 ≤ℤ result }
    ensures greatest { result ≤ℤ pos 640 }
{
    if slope == 0 {
        most
    } else {
        greater_with(most, lift, digits(slope))
    }
}

/// Finds the most binary digits of a cut's slopes, 0 where all are 0.
pub(crate) fn most_digits(lifts: &[(u32, i32)], slopes: &[i64]) -> i32
    requires lifts { AreLifts lifts.now }
    requires small { All (λ s. nat_abs s < 2 ^ 57) slopes.now }
    ensures value { result ≡ most_digits lifts.now slopes.now }
    ensures least { pos 0 ≤ℤ result }
    ensures greatest { result ≤ℤ pos 640 }
{
    let mut most = 0;
    for (state, lift) in lifts {
        most = greater(most, *lift, slope_at(slopes, *state as usize));
    }
    most
}
