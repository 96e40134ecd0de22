// Scaled numbers.
ghost use Rattle.std.specs.Prelude.{◌≡◌, ◌^◌, ◌-◌, ◌≤◌, pos, ◌*ℤ◌};
ghost use Rattle.lp_wide_table.specs.Numbers.{nearest, wide_down_of, wide_shift_up, wide_shift_of};

use crate::Wide;
use lp_table::numbers::bits;

// Gives half of 2^k.
#[tactic(auto, using(crate::proofs::Halves::half_held))]
fn half(k: u32) -> Wide
    requires least { 1 ≤ k }
    requires greatest { k ≤ 250 }
    ensures { result ≡ pos (2 ^ (k - 1)) }
{
    match Wide::shifted(1, k - 1) {
        Some(half) => half,
        None => Wide::zero(),
    }
}

/// The number over 2^k, rounded to the nearest, halves up. None exactly where 256 bits do not hold the sum with half of 2^k.
#[tactic(auto, unfolding(crate::specs::Numbers::nearest))]
pub fn nearest(sum: Wide, k: u32) -> Option<Wide>
    requires least { 1 ≤ k }
    requires greatest { k ≤ 250 }
    ensures { result ≡ nearest sum k }
{
    Some(sum.plus(half(k))?.shift_down(k))
}

/// The number over 2^80, rounded to the nearest, halves up. None exactly where 256 bits do not hold the sum with half of 2^80.
pub fn down(sum: Wide) -> Option<Wide>
    ensures { result ≡ wide_down_of sum }
{
    nearest(sum, 80)
}

/// A product over 2^80, rounded to the nearest, halves up. None exactly where 256 bits do not hold its sum with half of 2^80.
pub fn down_product(x: i128, y: i128) -> Option<Wide>
    ensures { result ≡ wide_down_of (x *ℤ y) }
{
    down(Wide::product(x, y))
}

#[tactic(auto, unfolding(crate::specs::Numbers::wide_shift_up))]
fn shift_up(v: i128, k: u32) -> Option<Wide>
    ensures { result ≡ wide_shift_up v k }
{
    if v == 0 {
        Some(Wide::zero())
    } else if u64::from(bits(v)) + u64::from(k) <= 250 {
        Wide::shifted(v, k)
    } else {
        None
    }
}

/// The number times 2^k, rounded down. None exactly where it is not 0 and has more than 250 binary digits together with k.
pub fn shift(v: i128, k: i32) -> Option<Wide>
    ensures { result ≡ wide_shift_of v k }
{
    if k >= 0 {
        shift_up(v, k.unsigned_abs())
    } else {
        Some(Wide::from_i128(v).shift_down(k.unsigned_abs()))
    }
}
