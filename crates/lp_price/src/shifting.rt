// Shifts by any number of places.
ghost use Rattle.std.specs.Prelude.{◌≡◌};
ghost use Rattle.lp_table.specs.Numbers.{shift_of};

use lp_table::numbers::shift;

/// The number times 2^k, rounded down. None exactly where 128 bits do not hold it.
pub fn shift_by(v: i128, k: i64) -> Option<i128>
    ensures { result ≡ shift_of v k }
{
    if k > 1000 {
        shift(v, 1000)
    } else if k < -1000 {
        shift(v, -1000)
    } else {
        shift(v, k as i32)
    }
}
