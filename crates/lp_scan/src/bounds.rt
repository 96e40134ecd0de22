// Bound the values of cuts that fall with each state from above, by the same cuts in fewer binary digits.
ghost use Rattle.std.specs.Prelude.{ℕ, ◌≡◌, ◌^◌, ◌+◌, ◌*◌, ◌<◌, ◌≤◌, pos, ◌+ℤ◌, ◌*ℤ◌, ◌<ℤ◌, true, length, get_or, All, IfSome};
ghost use Rattle.base_num.specs.Sums.{floor_over};
ghost use Rattle.lp_program.specs.PackedCut.{PackedCut};
ghost use Rattle.lp_program.specs.Coarse.{IsCoarse};
ghost use Rattle.lp_scan.specs.Bounds.{AreBounds, AreFalls, IsLimit};

use lp_program::{CoarseCuts, CutList};

// Gives a number without its last binary digits.
fn without_last(number: i64, shift: u32) -> i64
    requires { shift ≤ 63 }
    ensures { result ≡ floor_over number (2 ^ shift) }
{
    number >> shift
}

// Gives a state without its last binary digits. None where it is below 0, and where it is above 2^16 then.
fn coarse_state(state: i64, shift: u32) -> Option<u32>
    requires { shift ≤ 63 }
    ensures few { IfSome result (λ x. x ≤ 2 ^ 16) }
    ensures below { IfSome result (λ x. pos x ≡ floor_over state (2 ^ shift)) }
{
    let rest = without_last(state, shift);
    if (0..=1 << 16).contains(&rest) {
        Some(rest as u32)
    } else {
        None
    }
}

// Multiplies how far a cut falls at least by a state.
fn fall(steep: u16, state: u32) -> u32
    requires { state ≤ 2 ^ 16 }
    ensures { result ≡ steep * state }
{
    u32::from(steep) * state
}

// Subtracts, and gives 0 where the difference is below 0.
fn minus(bound: u32, fall: u32) -> u32
    ensures { bound ≤ result + fall }
{
    bound.saturating_sub(fall)
}

// How far cuts fall at least with a state, and the state, both without their last binary digits.
#[derive(Clone, Copy)]
struct Falls<'a> {
    steeps: &'a [u16],
    state: u32,
}

// Gives how far cuts fall at least with the state j, nothing where there are not as many states. None where the state is below 0,
// and where it has too many binary digits.
fn falls_with<'a>(
    coarse: &CoarseCuts<'a>,
    cuts: &CutList,
    states: &[i64],
    j: usize,
) -> Option<Falls<'a>>
    requires coarse { IsCoarse cuts.now coarse.now }
    requires some { 1 ≤ length states.now }
    requires lists { length coarse.now.steeps.now ≡ length states.now }
    requires counts { All (λ (c : PackedCut). length c.slopes ≡ length states.now) cuts.now }
    ensures { IfSome result (AreFalls (coarse.now.slope_shift + coarse.now.state_shift) cuts.now states.now j) }
{
    let _ = cuts;
    if states.len() <= j {
        return Some(Falls {
            steeps: coarse.steeps[0].as_slice(),
            state: 0,
        });
    }
    match coarse_state(states[j], coarse.state_shift) {
        None => None,
        Some(state) => Some(Falls {
            steeps: coarse.steeps[j].as_slice(),
            state,
        }),
    }
}

// Lowers a bound by how far a cut falls at least.
fn less(bound: u32, steep: u16, state: u32) -> u32
    requires { state ≤ 2 ^ 16 }
    ensures { bound ≤ result + steep * state }
{
    minus(bound, fall(steep, state))
}

// Lowers bounds by how far their cuts fall at least with three states.
fn lower(bounds: &mut [u32], first: Falls, second: Falls, third: Falls)
    requires first { length first.steeps.now ≡ length bounds.old }
    requires second { length second.steeps.now ≡ length bounds.old }
    requires third { length third.steeps.now ≡ length bounds.old }
    requires states { (first.state ≤ 2 ^ 16) × (second.state ≤ 2 ^ 16) × (third.state ≤ 2 ^ 16) }
    ensures count { length bounds.new ≡ length bounds.old }
    ensures lower { (k : ℕ) → k < length bounds.old → get_or bounds.old k 0 ≤ get_or bounds.new k 0 + get_or third.entry.steeps.now k 0 * third.entry.state + get_or second.entry.steeps.now k 0 * second.entry.state + get_or first.entry.steeps.now k 0 * first.entry.state }
{
    for k in 0..bounds.len() {
        let once = less(bounds[k], first.steeps[k], first.state);
        let twice = less(once, second.steeps[k], second.state);
        bounds[k] = less(twice, third.steeps[k], third.state);
    }
}

// Lowers bounds by how far the cuts fall at least with the state j and the two behind it. False where one is below 0, and where one
// has too many binary digits.
fn lower_by_three(
    bounds: &mut [u32],
    coarse: &CoarseCuts,
    cuts: &CutList,
    states: &[i64],
    j: usize,
) -> bool
    requires coarse { IsCoarse cuts.now coarse.now }
    requires same { length bounds.old ≡ length cuts.now }
    requires there { j < length states.now }
    requires few { length states.now ≤ 50 }
    requires lists { length coarse.now.steeps.now ≡ length states.now }
    requires counts { All (λ (c : PackedCut). length c.slopes ≡ length states.now) cuts.now }
    requires bounds { AreBounds (coarse.now.slope_shift + coarse.now.state_shift) coarse.now.base cuts.now states.now j bounds.old }
    ensures same { length bounds.new ≡ length bounds.old }
    ensures bounds { result ≡ true → AreBounds (coarse.now.slope_shift + coarse.now.state_shift) coarse.now.base cuts.now states.now (j + 3) bounds.new }
{
    let Some(first) = falls_with(coarse, cuts, states, j) else {
        return false;
    };
    let Some(second) = falls_with(coarse, cuts, states, j + 1) else {
        return false;
    };
    let Some(third) = falls_with(coarse, cuts, states, j + 2) else {
        return false;
    };
    lower(bounds, first, second, third);
    true
}

// Lowers bounds by how far the cuts fall at least with all states. False where a state is below 0, and where one has too many
// binary digits.
fn lower_by_all(bounds: &mut [u32], coarse: &CoarseCuts, cuts: &CutList, states: &[i64]) -> bool
    requires coarse { IsCoarse cuts.now coarse.now }
    requires same { length bounds.old ≡ length cuts.now }
    requires few { length states.now ≤ 50 }
    requires lists { length coarse.now.steeps.now ≡ length states.now }
    requires counts { All (λ (c : PackedCut). length c.slopes ≡ length states.now) cuts.now }
    requires bounds { AreBounds (coarse.now.slope_shift + coarse.now.state_shift) coarse.now.base cuts.now states.now 0 bounds.old }
    ensures same { length bounds.new ≡ length bounds.old }
    ensures bounds { result ≡ true → AreBounds (coarse.now.slope_shift + coarse.now.state_shift) coarse.now.base cuts.now states.now (length states.now) bounds.new }
{
    let mut j = 0;
    while j < states.len() {
        if !lower_by_three(bounds, coarse, cuts, states, j) {
            return false;
        }
        j += 3;
    }
    true
}

// Writes the heights of cuts. False where memory was refused.
fn write_heights(bounds: &mut Vec<u32>, heights: &[u32]) -> bool
    ensures { result ≡ true → bounds.new.items ≡ heights.now }
{
    bounds.clear();
    bounds.extend_from_slice(heights).is_ok()
}

/// Writes bounds of the values of cuts. False where a state is below 0, where one has too many binary digits, and where memory was
/// refused.
pub(crate) fn write_bounds(
    bounds: &mut Vec<u32>,
    coarse: &CoarseCuts,
    cuts: &CutList,
    states: &[i64],
) -> bool
    requires coarse { IsCoarse cuts.now coarse.now }
    requires few { length states.now ≤ 50 }
    requires lists { length coarse.now.steeps.now ≡ length states.now }
    requires counts { All (λ (c : PackedCut). length c.slopes ≡ length states.now) cuts.now }
    ensures same { result ≡ true → length bounds.new.items ≡ length cuts.now }
    ensures bounds { result ≡ true → AreBounds (coarse.now.slope_shift + coarse.now.state_shift) coarse.now.base cuts.now states.now (length states.now) bounds.new.items }
{
    if !write_heights(bounds, coarse.heights) {
        return false;
    }
    lower_by_all(bounds.as_mut_slice(), coarse, cuts, states)
}

/// Tells whether cuts have as many states, and not too many.
pub(crate) fn is_fit(coarse: &CoarseCuts, states: &[i64]) -> bool
    ensures lists { result ≡ true → length coarse.now.steeps.now ≡ length states.now }
    ensures few { result ≡ true → length states.now ≤ 50 }
{
    coarse.steeps.len() == states.len() && states.len() <= 50
}

// Gives a value without its last binary digits.
fn shifted(value: i128, shift: u32) -> i128
    requires { shift ≤ 120 }
    ensures { result ≡ floor_over value (2 ^ shift) }
{
    value >> shift
}

/// Gives a limit below which all bounds are of values below this one. Bounds are counted from a base.
pub(crate) fn limit_of(value: i128, base: i64, shift: u32) -> u32
    requires { shift ≤ 120 }
    ensures { IsLimit shift base value result }
{
    let Some(limit) = shifted(value, shift).checked_sub(i128::from(base)) else {
        return 0;
    };
    match u32::try_from(limit) {
        Ok(limit) => limit,
        Err(_) => 0,
    }
}

/// Finds the first bound at a place between two that is not below a limit. The second place where all are below.
pub(crate) fn next_from(bounds: &[u32], from: usize, to: usize, limit: u32) -> usize
    requires from { from ≤ to }
    requires to { to ≤ length bounds.now }
    ensures there { result ≤ to }
    ensures behind { from ≤ result }
    ensures passed { (k : ℕ) → from ≤ k → k < result → get_or bounds.now k 0 < limit }
{
    for k in from..to {
        if limit <= bounds[k] {
            return k;
        }
    }
    to
}

/// Finds the greatest of some bounds, 0 where there are none.
pub(crate) fn greatest(bounds: &[u32]) -> u32
    ensures { (k : ℕ) → k < length bounds.now → get_or bounds.now k 0 ≤ result }
{
    let mut most = 0;
    for k in 0..bounds.len() {
        most = most.max(bounds[k]);
    }
    most
}
