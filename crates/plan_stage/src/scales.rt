// Numbers of a problem and of cuts at the scale of linear programs.
ghost use Rattle.std.specs.Prelude.{◌≡◌, ◌≤◌, ◌^◌, pos, ◌+ℤ◌, ◌*ℤ◌, nat_abs};
ghost use Rattle.plan_stage.specs.Stage.{whole_fixed, scaled};

use lp_program::Fx;
use lp_program::fixed::ONE;

/// The number for 1 at the scale of cuts and states, at the scale of linear programs.
pub(crate) const CUT_SCALE: i128 = 256;

/// A whole number.
pub(crate) fn whole(value: i64) -> Fx
    ensures { result ≡ whole_fixed value }
{
    Fx(ONE * i128::from(value))
}

/// A cost that counts as often as a weight says.
pub(crate) fn weighted(weight: u32, cost: i64) -> Fx
    ensures { result ≡ whole_fixed (pos weight *ℤ cost) }
{
    Fx(ONE * (i128::from(weight) * i128::from(cost)))
}

/// A number at the scale of cuts.
pub(crate) fn scaled(value: i128) -> Fx
    requires { nat_abs value ≤ 2 ^ 118 }
    ensures { result ≡ scaled value }
{
    Fx(CUT_SCALE * value)
}

/// The sum, of which both parts are small.
pub(crate) fn sum(a: i128, b: i128) -> i128
    requires a_small { nat_abs a ≤ 2 ^ 112 }
    requires b_small { nat_abs b ≤ 2 ^ 104 }
    ensures value { result ≡ a +ℤ b }
{
    a + b
}
