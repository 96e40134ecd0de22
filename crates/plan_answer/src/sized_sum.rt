// A whole number that carries the size of the sum that made it.
ghost use Rattle.std.specs.Prelude.{◌≡◌, ◌≤◌, pos, nat_abs};

use base_num::Size;

/// A sum with its size, the sum of the absolute values of its terms, which is at most 2^127 - 1.
#[derive(Clone, Copy)]
pub(crate) struct SizedSum {
    pub(crate) value: i128,
    pub(crate) size: Size,
    pub ghost bounded: { nat_abs value ≤ size.total },
}

impl SizedSum {
    /// The sum of nothing.
    pub(crate) fn zero() -> SizedSum
        ensures value { result.value ≡ pos 0 }
        ensures size { result.size.total ≡ 0 }
    {
        SizedSum {
            value: 0,
            size: Size::zero(),
        }
    }
}
