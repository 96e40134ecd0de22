// Find the first of the greatest of cuts whose values are bounded from above.
ghost use Rattle.std.specs.Prelude.{ℕ, ℤ, ◌≡◌, ◌⊎◌, ◌+◌, ◌<◌, ◌≤◌, ◌<ℤ◌, true, length, None};
ghost use Rattle.lp_program.specs.PackedCut.{PackedCut};
ghost use Rattle.lp_program.specs.Covering.{value_of, packed_cut_at, IsBefore};
ghost use Rattle.lp_scale.specs.Walks.{walk};
ghost use Rattle.lp_scan.specs.Bounds.{IsBounded, IsFirst, IsLimit};
ghost use Rattle.lp_scan.specs.Values.{greater_valued};

use crate::bounds::{greatest, limit_of, next_from};
use crate::values::value_at;
use lp_program::CutList;

// The number of bounds whose greatest is compared. A loop over so many is a few instructions.
const PART: usize = 8;

/// Cuts, and bounds of their values at the state that leaves the stage. The bounds are counted from a base, and are without their
/// last binary digits, as many as the shift says.
#[derive(Clone, Copy)]
pub(crate) struct Bounded<'a> {
    pub(crate) cuts: &'a CutList<'a>,
    pub(crate) leaving: &'a [i64],
    pub(crate) bounds: &'a [u32],
    pub(crate) base: i64,
    pub(crate) shift: u32,
}

// Finds a place at or behind which one of the greatest bounds stands, and that bound.
fn greatest_behind(bounds: &[u32]) -> (usize, u32)
    ensures { result.0 ≤ length bounds.now }
{
    let mut most = 0;
    let mut place = 0;
    let mut from = 0;
    while PART <= bounds.len() - from {
        let here = greatest(&bounds[from..from + PART]);
        if most < here {
            most = here;
            place = from;
        }
        from += PART;
    }
    let last = greatest(&bounds[from..]);
    if most < last {
        (from, last)
    } else {
        (place, most)
    }
}

// Finds the place of a bound that is one of the greatest.
fn place_of_greatest(bounds: &[u32]) -> usize
    ensures { result ≤ length bounds.now }
{
    let (place, most) = greatest_behind(bounds);
    next_from(bounds, place, bounds.len(), most)
}

// Keeps the one that comes first: the greater value, and of equals the lower number.
fn former(best: (usize, i128), number: usize, value: i128) -> (usize, i128)
    ensures one { (result ≡ best) ⊎ (result ≡ (number, value)) }
    ensures best { IsBefore result.0 result.1 best.0 best.1 }
    ensures other { IsBefore result.0 result.1 number value }
{
    if best.1 < value || (best.1 == value && number < best.0) {
        (number, value)
    } else {
        best
    }
}

// Takes the cut with a number in, where all before it are.
fn take(all: &Bounded, best: (usize, i128), number: usize) -> (usize, i128)
    requires bounded { IsBounded all.now }
    requires there { number < length all.now.cuts.now }
    requires first { IsFirst all.now.cuts.now all.now.leaving.now number best }
    ensures { IsFirst all.now.cuts.now all.now.leaving.now (number + 1) result }
{
    if number == best.0 {
        return best;
    }
    former(best, number, value_at(all.cuts, number, all.leaving))
}

// Finds the number of the next cut between two whose value may not be below another. The second number where there is none.
fn next(all: &Bounded, from: usize, to: usize, value: i128) -> usize
    requires bounded { IsBounded all.now }
    requires from { from ≤ to }
    requires to { to ≤ length all.now.cuts.now }
    ensures there { result ≤ to }
    ensures behind { from ≤ result }
    ensures passed { (k : ℕ) → from ≤ k → k < result → value_of (packed_cut_at all.now.cuts.now k) all.now.leaving.now <ℤ value }
{
    next_from(all.bounds, from, to, limit_of(value, all.base, all.shift))
}

// Takes the cuts between two numbers in, where all before them are.
fn take_between(all: &Bounded, best: (usize, i128), from: usize, to: usize) -> (usize, i128)
    requires bounded { IsBounded all.now }
    requires from { from ≤ to }
    requires to { to ≤ length all.now.cuts.now }
    requires first { IsFirst all.now.cuts.now all.now.leaving.now from best }
    ensures { IsFirst all.now.cuts.now all.now.leaving.now to result }
{
    let mut best = best;
    let mut k = next(all, from, to, best.1);
    while k < to {
        best = take(all, best, k);
        k = next(all, k + 1, to, best.1);
    }
    best
}

// The first of the greatest so far: its number with its value, and a limit below which bounds are of lesser values.
#[derive(Clone, Copy)]
struct Best {
    first: (usize, i128),
    limit: u32,
}

// Puts the limit to the first of the greatest so far.
fn limited(all: &Bounded, first: (usize, i128)) -> Best
    requires bounded { IsBounded all.now }
    ensures first { result.first ≡ first }
    ensures limit { IsLimit all.now.shift all.now.base first.1 result.limit }
{
    Best {
        first,
        limit: limit_of(first.1, all.base, all.shift),
    }
}

// Tells whether the bounds of the cuts between two numbers are below a limit.
fn are_below(all: &Bounded, from: usize, to: usize, limit: u32) -> bool
    requires bounded { IsBounded all.now }
    requires from { from ≤ to }
    requires to { to ≤ length all.now.cuts.now }
    ensures { result ≡ true → (value : ℤ) → IsLimit all.now.shift all.now.base value limit → (k : ℕ) → from ≤ k → k < to → value_of (packed_cut_at all.now.cuts.now k) all.now.leaving.now <ℤ value }
{
    greatest(&all.bounds[from..to]) < limit
}

// Takes the cuts of a whole part in, where all before them are.
fn take_part(all: &Bounded, best: Best, from: usize) -> Best
    requires bounded { IsBounded all.now }
    requires whole { from + 8 ≤ length all.now.cuts.now }
    requires first { IsFirst all.now.cuts.now all.now.leaving.now from best.first }
    requires limit { IsLimit all.now.shift all.now.base best.first.1 best.limit }
    ensures first { IsFirst all.now.cuts.now all.now.leaving.now (from + 8) result.first }
    ensures limit { IsLimit all.now.shift all.now.base result.first.1 result.limit }
{
    if are_below(all, from, from + PART, best.limit) {
        best
    } else {
        limited(all, take_between(all, best.first, from, from + PART))
    }
}

// Takes all cuts in, part by part.
fn take_all(all: &Bounded, one: (usize, i128)) -> (usize, i128)
    requires bounded { IsBounded all.now }
    requires first { IsFirst all.now.cuts.now all.now.leaving.now 0 one }
    ensures { IsFirst all.now.cuts.now all.now.leaving.now (length all.now.cuts.now) result }
{
    let count = all.cuts.len();
    let mut best = limited(all, one);
    let mut from = 0;
    while PART <= count - from {
        best = take_part(all, best, from);
        from += PART;
    }
    take_between(all, best.first, from, count)
}

/// Finds the number and the value of the greatest of the cuts, of equals the first. Begins with a cut whose bound is one of the
/// greatest, since few other bounds are above its value.
pub(crate) fn first_greatest(all: &Bounded) -> Option<(usize, i128)>
    requires { IsBounded all.now }
    ensures { result ≡ walk (λ i b (c : PackedCut). greater_valued b (i, value_of c all.now.leaving.now)) 0 None all.now.cuts.now }
{
    let count = all.cuts.len();
    if count == 0 {
        return None;
    }
    let number = place_of_greatest(all.bounds).min(count - 1);
    let one = (number, value_at(all.cuts, number, all.leaving));
    Some(take_all(all, one))
}
