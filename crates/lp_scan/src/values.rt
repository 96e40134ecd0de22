// Find the values of cuts at a point.
ghost use Rattle.std.specs.Prelude.{◌≡◌, ◌^◌, ◌+◌, ◌<◌, ◌≤◌, pos, neg_ℤ, ◌+ℤ◌, ◌*ℤ◌, map, length, nat_abs, All, IfSome, OnOk, FitsSigned};
ghost use Rattle.std.specs.Int.{w64};
ghost use Rattle.base_num.specs.Sums.{floor_over, dot};
ghost use Rattle.lp_program.specs.PackedCut.{PackedCut};
ghost use Rattle.lp_program.specs.Covering.{value_of, packed_cut_at};
ghost use Rattle.lp_scale.specs.Walks.{walk};
ghost use Rattle.lp_scan.specs.Values.{state_number, height_of, slope_of, plus_slope, cut_row_value, IsPlain, IsValueWithin};

use base_num::{List, Memory};
use lp_program::{CutList, Fx, LpRow};
use lp_scale::waiting::slopes;

// Divides a number by 2^8, rounded down.
fn floored(x: i128) -> i128
    ensures { result ≡ floor_over x (2 ^ 8) }
{
    x >> 8
}

// Gives the number with the other sign.
fn negated(x: i128) -> i128
    requires { nat_abs x < 2 ^ 65 }
    ensures value { result ≡ neg_ℤ x }
    ensures small { nat_abs result < 2 ^ 65 }
{
    -x
}

// Gives the number in 64 bits.
pub(crate) fn short(x: i128) -> i64
    requires { FitsSigned w64 x }
    ensures { result ≡ x }
{
    x as i64
}

// Gives a slope by the row's term, which has the other sign.
fn slope(a: Fx) -> i64
    requires { nat_abs a.0 < 2 ^ 65 }
    ensures value { result ≡ slope_of a }
    ensures small { nat_abs result ≤ 2 ^ 57 }
{
    short(floored(negated(a.0)))
}

// Multiplies a slope by its state.
pub(crate) fn product(slope: i64, state: i64) -> i128
    requires { nat_abs slope ≤ 2 ^ 57 }
    ensures value { result ≡ slope *ℤ state }
    ensures small { nat_abs result ≤ 2 ^ 120 }
{
    i128::from(slope) * i128::from(state)
}

// Adds two numbers.
pub(crate) fn plus(x: i128, y: i128) -> i128
    requires left { nat_abs x ≤ 2 ^ 126 + 2 ^ 125 }
    requires right { nat_abs y ≤ 2 ^ 120 }
    ensures value { result ≡ x +ℤ y }
    ensures small { nat_abs result ≤ nat_abs x + 2 ^ 120 }
{
    x + y
}

// Finds the value of a cut at the state that leaves the stage, at the scale 2^48.
fn packed_value(height: i128, slopes: &[i64], leaving: &[i64]) -> i128
    requires height { nat_abs height < 2 ^ 100 }
    requires slopes { All (λ s. nat_abs s < 2 ^ 57) slopes.now }
    requires few { length slopes.now ≤ 50 }
    requires count { length slopes.now ≡ length leaving.now }
    ensures { result ≡ height *ℤ pos (2 ^ 24) +ℤ dot slopes.now leaving.now }
{
    let mut sum = raised(height);
    for k in 0..slopes.len() {
        sum = plus(sum, product(slopes[k], leaving[k]));
    }
    sum
}

/// Finds the value of a cut of a list at the state that leaves the stage, at the scale 2^48.
pub(crate) fn value_at(cuts: &CutList, place: usize, leaving: &[i64]) -> i128
    requires there { place < length cuts.now }
    requires counts { All (λ (c : PackedCut). length c.slopes ≡ length leaving.now) cuts.now }
    ensures { result ≡ value_of (packed_cut_at cuts.now place) leaving.now }
{
    packed_value(cuts.height(place), cuts.slopes(place), leaving)
}

// Finds the value of a cut with one more slope times its state.
#[tactic(auto, unfolding(crate::specs::Values::plus_slope))]
fn plus_slope(sum: i128, states: &[i128], term: (u32, Fx)) -> i128
    requires sum { nat_abs sum ≤ 2 ^ 126 + 2 ^ 125 }
    requires plain { IsPlain states.now term }
    ensures value { result ≡ plus_slope states.now sum term }
    ensures small { nat_abs result ≤ nat_abs sum + 2 ^ 120 }
{
    plus(sum, product(slope(term.1), short(states[term.0 as usize])))
}

// Finds the value of a cut with all its slopes times their states.
fn plus_slopes(start: i128, states: &[i128], slopes: &[(u32, Fx)]) -> i128
    requires start { nat_abs start ≤ 2 ^ 124 }
    requires few { length slopes.now ≤ 50 }
    requires plain { All (IsPlain states.now) slopes.now }
    ensures { result ≡ walk (λ k s t. plus_slope states.now s t) 0 start slopes.now }
{
    let mut sum = start;
    for k in 0..slopes.len() {
        sum = plus_slope(sum, states, slopes[k]);
    }
    sum
}

// 2^24 times a number.
pub(crate) fn raised(x: i128) -> i128
    requires { nat_abs x ≤ 2 ^ 100 }
    ensures value { result ≡ x *ℤ pos (2 ^ 24) }
    ensures small { nat_abs result ≤ 2 ^ 124 }
{
    x * (1 << 24)
}

// Gives the value of a cut where all states are 0.
fn height(low: Option<Fx>) -> i128
    requires { IfSome low (λ x. nat_abs x.0 < 2 ^ 108) }
    ensures value { result ≡ height_of low }
    ensures small { nat_abs result ≤ 2 ^ 100 }
{
    match low {
        None => 0,
        Some(low) => floored(low.0),
    }
}

/// Finds the value of a cut at some states, at the scale 2^48.
#[tactic(auto, unfolding(crate::specs::Values::cut_row_value))]
pub fn cut_value(states: &[i128], row: &LpRow) -> i128
    requires { IsValueWithin states.now row.now }
    ensures { result ≡ cut_row_value states.now row.now }
{
    plus_slopes(
        raised(height(row.low)),
        states,
        slopes(row.terms.as_slice()),
    )
}

// Brings a number to the scale of states.
fn state(x: Fx) -> i128
    ensures { result ≡ state_number x }
{
    floored(x.0)
}

/// Writes a point at the scale of states. [`Memory`] where memory was refused.
pub fn write_states(point: &[Fx], states: &mut List<i128>) -> Result<(), Memory>
    ensures { OnOk result (states.new ≡ map state_number point.now) }
{
    states.clear();
    for x in point {
        states.push(state(*x))?;
    }
    Ok(())
}
