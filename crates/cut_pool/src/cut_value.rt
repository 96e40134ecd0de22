// The value of a cut at a state, and the greatest of them.
ghost use Rattle.std.specs.Prelude.{◌≡◌, ◌^◌, ◌<◌, ℤ, pos, ◌+ℤ◌, ◌*ℤ◌, ◌≤ℤ◌, ◌<ℤ◌, length, All};
ghost use Rattle.std.specs.Int.{int_max};
ghost use Rattle.base_num.specs.Sums.{dot};
ghost use Rattle.theory.specs.Size.{magnitude, magnitudes};
ghost use Rattle.theory.specs.Bound.{value_of_cut, greatest_cut_value};
ghost use Rattle.cut_pool.specs.Reaches.{CutReaches};

use base_num::add_product;
use theory::Cut;

fn slopes_at(xs: &[i128], ys: &[i64]) -> i128
    requires lengths { length xs.now ≡ length ys.now }
    requires small { dot (magnitudes xs.now) (magnitudes ys.now) <ℤ pos (2 ^ 127) }
    ensures { result ≡ dot xs.now ys.now }
{
    let mut sum: i128 = 0;
    for i in 0..xs.len() {
        sum = add_product(sum, xs[i], i128::from(ys[i]));
    }
    sum
}

fn add(a: i128, b: i128) -> i128
    requires { (magnitude a +ℤ magnitude b) ≤ℤ pos (2 ^ 104) }
    ensures value { result ≡ a +ℤ b }
    ensures small { magnitude result ≤ℤ pos (2 ^ 104) }
{
    a + b
}

/// The value of a cut at a state: alpha + beta·x, at scale 2^24.
pub fn value_of_cut(cut: &Cut, state: &[i64]) -> i128
    requires { CutReaches state.now cut.now }
    ensures value { result ≡ value_of_cut cut.now state.now }
    ensures small { magnitude result ≤ℤ pos (2 ^ 104) }
{
    add(cut.alpha, slopes_at(cut.beta.as_slice(), state))
}

/// The greatest value of some cuts at a state, at scale 2^24.
pub(crate) fn greatest(cuts: &[Cut], state: &[i64]) -> i128
    requires some { 0 < length cuts.now }
    requires reach { All (CutReaches state.now) cuts.now }
    ensures value { result ≡ greatest_cut_value cuts.now state.now }
    ensures small { magnitude result ≤ℤ pos (2 ^ 104) }
{
    let mut i = cuts.len() - 1;
    let mut best = value_of_cut(&cuts[i], state);
    while i > 0 {
        i -= 1;
        best = greater(value_of_cut(&cuts[i], state), best);
    }
    best
}

fn greater(a: i128, b: i128) -> i128
    requires a_small { magnitude a ≤ℤ pos (2 ^ 104) }
    requires b_small { magnitude b ≤ℤ pos (2 ^ 104) }
    ensures value { result ≡ int_max a b }
    ensures small { magnitude result ≤ℤ pos (2 ^ 104) }
{
    a.max(b)
}

/// Multiplies two numbers, always in range.
pub(crate) fn product(a: i64, b: i64) -> i128
    ensures { result ≡ a *ℤ b }
{
    i128::from(a) * i128::from(b)
}

/// Finds the value of a cut at a state, wrapped into i128.
pub(crate) fn wrapped_value(height: i128, slopes: &[i64], state: &[i64]) -> i128 {
    let mut value = height;
    for (slope, own) in slopes.iter().zip(state.iter()) {
        value = value.wrapping_add(product(*slope, *own));
    }
    value
}
