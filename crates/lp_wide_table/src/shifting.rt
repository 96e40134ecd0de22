// Numbers of 128 bits times powers of 2.
ghost use Rattle.std.specs.Prelude.{◌≡◌, ◌≤◌, ◌^◌};
ghost use Rattle.lp_wide_table.specs.WideWhole.{shift_up_wide, shift_of_wide};

use crate::double_words::shift_down;
use crate::quotients::bits;
use crate::wide::Wide;

#[tactic(auto, unfolding(crate::specs::WideWhole::shift_up_wide))]
fn shift_up(v: i128, k: u32) -> Option<Wide>
    requires { k ≤ 2 ^ 31 }
    ensures { result ≡ shift_up_wide v k }
{
    if v == 0 {
        Some(Wide::zero())
    } else if bits(v) + k <= 250 {
        Wide::shifted(v, k)
    } else {
        None
    }
}

/// The number times 2^k, rounded down. None exactly where it is not 0, and k and its binary digits
/// are more than 250 together.
pub fn shift(v: i128, k: i32) -> Option<Wide>
    ensures { result ≡ shift_of_wide v k }
{
    if k >= 0 {
        shift_up(v, k.unsigned_abs())
    } else {
        Some(Wide::from_i128(shift_down(v, k.unsigned_abs())))
    }
}
