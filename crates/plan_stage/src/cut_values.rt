// The least and the greatest values of cuts over the states that may leave a stage.
ghost use Rattle.std.specs.Prelude.{◌≡◌, ◌<◌, ◌≤◌, ◌^◌, ℤ, ◌*ℤ◌, true, length, nat_lt, nat_abs, All};
ghost use Rattle.std.specs.Int.{int_min, int_max};
ghost use Rattle.std.specs.List.{list_all};
ghost use Rattle.base_num.specs.Sums.{entry};
ghost use Rattle.plan_stage.specs.Stage.{least_value, greatest_value, most_from, at_low, at_high};
ghost use Rattle.plan_stage.specs.OutBoxes.{out_box, out_boxes};
ghost use Rattle.plan_stage.specs.Spans.{Spans};

use crate::out_boxes::out_decision;
use crate::scales::sum;
use cut_pool::{Cut, OutBox};
use problem::Subproblem;

fn product(slope: i128, end: i64) -> i128
    requires { nat_abs (slope *ℤ end) ≤ 2 ^ 104 }
    ensures value { result ≡ slope *ℤ end }
    ensures small { nat_abs result ≤ 2 ^ 104 }
{
    slope * i128::from(end)
}

fn lesser(a: i128, b: i128) -> i128
    requires a_small { nat_abs a ≤ 2 ^ 104 }
    requires b_small { nat_abs b ≤ 2 ^ 104 }
    ensures value { result ≡ int_min a b }
    ensures small { nat_abs result ≤ 2 ^ 104 }
{
    a.min(b)
}

fn greater(a: i128, b: i128) -> i128
    requires a_small { nat_abs a ≤ 2 ^ 110 }
    requires b_small { nat_abs b ≤ 2 ^ 110 }
    ensures value { result ≡ int_max a b }
    ensures small { nat_abs a ≤ 2 ^ 104 → nat_abs b ≤ 2 ^ 104 → nat_abs result ≤ 2 ^ 104 }
    ensures in_range { nat_abs result ≤ 2 ^ 110 }
{
    a.max(b)
}

/// Gives the least product of a slope and its outgoing state.
fn least_product(subproblem: &Subproblem, cut: &Cut, state: usize) -> i128
    requires spans { Spans subproblem.now cut.now }
    requires there { state < length subproblem.now.outs }
    requires known { list_all (λ o. nat_lt o (length subproblem.now.decisions)) subproblem.now.outs ≡ true }
    ensures value { result ≡ int_min (at_low subproblem.now cut.now state) (at_high subproblem.now cut.now state) }
    ensures small { nat_abs result ≤ 2 ^ 104 }
{
    let slope = cut.beta.as_slice()[state];
    let out = out_decision(subproblem, state);
    lesser(product(slope, out.low), product(slope, out.high))
}

/// Gives the least value of a cut over the states that may leave the stage.
pub(crate) fn least_value(subproblem: &Subproblem, cut: &Cut) -> i128
    requires spans { Spans subproblem.now cut.now }
    requires few { length subproblem.now.outs ≤ 50 }
    requires known { list_all (λ o. nat_lt o (length subproblem.now.decisions)) subproblem.now.outs ≡ true }
    ensures value { result ≡ least_value subproblem.now cut.now }
    ensures small { nat_abs result ≤ 2 ^ 110 }
{
    let mut value = cut.alpha;
    for k in 0..subproblem.outs.len() {
        value = sum(value, least_product(subproblem, cut, k));
    }
    value
}

/// Gives the greatest product of a slope and its outgoing state in this box.
fn greatest_product(
    subproblem: &Subproblem,
    cut: &Cut,
    state: usize,
    slope: i128,
    ends: &OutBox,
) -> i128
    requires spans { Spans subproblem.now cut.now }
    requires there { state < length subproblem.now.outs }
    requires slope { slope ≡ entry cut.now.beta state }
    requires ends { ends.now ≡ out_box subproblem.now state }
    ensures value { result ≡ int_max (at_low subproblem.now cut.now state) (at_high subproblem.now cut.now state) }
    ensures small { nat_abs result ≤ 2 ^ 104 }
{
    if slope < 0 {
        product(slope, ends.least)
    } else {
        product(slope, ends.greatest)
    }
}

/// Gives the greatest value of a cut over the states that may leave the stage.
pub(crate) fn greatest_value(subproblem: &Subproblem, boxes: &[OutBox], cut: &Cut) -> i128
    requires spans { Spans subproblem.now cut.now }
    requires few { length subproblem.now.outs ≤ 50 }
    requires boxes { boxes.now ≡ out_boxes subproblem.now }
    ensures value { result ≡ greatest_value subproblem.now cut.now }
    ensures small { nat_abs result ≤ 2 ^ 110 }
{
    let slopes = cut.beta.as_slice();
    let mut value = cut.alpha;
    for k in 0..boxes.len() {
        value = sum(
            value,
            greatest_product(subproblem, cut, k, slopes[k], &boxes[k]),
        );
    }
    value
}

/// The greatest of these over some cuts, and over `first`.
pub(crate) fn most_from(
    subproblem: &Subproblem,
    boxes: &[OutBox],
    first: i128,
    cuts: &[Cut],
) -> i128
    requires first { nat_abs first ≤ 2 ^ 110 }
    requires spans { All (Spans subproblem.now) cuts.now }
    requires few { length subproblem.now.outs ≤ 50 }
    requires boxes { boxes.now ≡ out_boxes subproblem.now }
    ensures value { result ≡ most_from subproblem.now first cuts.now }
    ensures small { nat_abs result ≤ 2 ^ 110 }
{
    let mut most = first;
    for cut in cuts {
        most = greater(most, greatest_value(subproblem, boxes, cut));
    }
    most
}
