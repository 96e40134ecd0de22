// Sizes of slopes by which most cuts are known at a glance to leave the span of tops as it is.
ghost use Rattle.std.specs.Prelude.{◌≡◌, ◌≤◌, ◌<◌, ◌^◌, ◌≤ℤ◌, ◌-ℤ◌, ℕ, ℤ, pos, List, true, length, nat_abs, slice_index_or as get_or, slice_set, min, All, Option};
ghost use Rattle.base_num.specs.Sums.{entry};
ghost use Rattle.lp_scale.specs.Spans.{IsBetween};
ghost use Rattle.lp_scale.specs.Packed.{most_digits, grown_above_zero, AreLifts};
ghost use Rattle.lp_scale.specs.Fences.{near, AreBelowLimits, AreLimits, ReachesDigits, Keeps};

use crate::slope_digits::greater;
use crate::spans::Span;
use lp_program::slope_at;

/// A state by whose slope a cut is known to reach the least top.
#[derive(Clone, Copy)]
pub(crate) struct Lead {
    /// The state's place in the list of lifts.
    pub(crate) place: usize,
    /// The state's number.
    pub(crate) state: u32,
    /// The least size of a slope that reaches the least top.
    pub(crate) size: u64,
}

// Takes a number of digits to be from 0 to 57.
fn near(digits: i32) -> u32
    ensures value { result ≡ near digits }
    ensures few { result ≤ 57 }
{
    digits.min(57).max(0).unsigned_abs()
}

// Gives 2^digits.
fn power(digits: u32) -> u64
    requires { digits ≤ 57 }
    ensures { result ≡ 2 ^ digits }
{
    1 << digits
}

// Finds the least size of a slope that has more digits than a number, with the lift of its state.
fn limit(most: i32, lift: i32) -> u64
    requires some { pos 0 ≤ℤ most }
    requires few { most ≤ℤ pos 640 }
    requires lift_least { pos 0 ≤ℤ lift }
    requires lift_greatest { lift ≤ℤ pos 520 }
    ensures { result ≡ 2 ^ near (most -ℤ lift) }
{
    power(near(most - lift))
}

// Finds the least size of a slope that has as many digits as a number, with the lift of its state.
fn reach(least: i32, lift: i32) -> u64
    requires some { pos 0 ≤ℤ least }
    requires few { least ≤ℤ pos 640 }
    requires lift_least { pos 0 ≤ℤ lift }
    requires lift_greatest { lift ≤ℤ pos 520 }
    ensures { result ≡ 2 ^ near ((least -ℤ pos 1) -ℤ lift) }
{
    power(near(least - 1 - lift))
}

// Tells whether all slopes are below the limits of their states.
fn are_below_limits(limits: &[u64], slopes: &[i64]) -> bool
    requires { length slopes.now ≤ length limits.now }
    ensures { result ≡ true → AreBelowLimits limits.now slopes.now }
{
    for state in 0..slopes.len() {
        if limits[state] <= slopes[state].unsigned_abs() {
            return false;
        }
    }
    true
}

// Tells whether a state's slope is not below a size.
fn reaches(lead: Lead, slopes: &[i64]) -> bool
    requires { All (λ s. nat_abs s < 2 ^ 57) slopes.now }
    ensures { result ≡ true → lead.size ≤ nat_abs (entry slopes.now lead.state) }
{
    lead.size <= slope_at(slopes, lead.state as usize).unsigned_abs()
}

/// Tells whether a cut is known to leave a span as it is.
pub(crate) fn is_kept(limits: &[u64], lead: Lead, slopes: &[i64]) -> bool
    requires small { All (λ s. nat_abs s < 2 ^ 57) slopes.now }
    requires count { length slopes.now ≤ length limits.now }
    ensures { (lifts : List (ℕ × ℤ)) (span : Option Span) → Keeps lifts span limits.now lead.state lead.size → result ≡ true → grown_above_zero span (most_digits lifts slopes.now) ≡ span }
{
    reaches(lead, slopes) && are_below_limits(limits, slopes)
}

/// Gives a lead that no cut reaches.
pub(crate) fn no_lead() -> Lead
    ensures size { result.size ≡ 2 ^ 57 }
    ensures keeps { (lifts : List (ℕ × ℤ)) (span : Option Span) (limits : List ℕ) → Keeps lifts span limits result.state result.size }
{
    Lead {
        place: 0,
        state: 0,
        size: 1 << 57,
    }
}

// Sets the first limits to one that no slope reaches.
fn open(limits: &mut [u64], count: usize)
    requires { count ≤ length limits.old }
    ensures { length limits.new ≡ length limits.old }
{
    for state in 0..count {
        limits[state] = 1 << 57;
    }
}

// Lowers the limit of a state to a number, where it is above.
fn lower(limits: &mut [u64], state: usize, limit: u64)
    ensures { limits.new ≡ slice_set limits.old state (min (get_or limits.old state 1) limit) }
{
    if state < limits.len() {
        limits[state] = limits[state].min(limit);
    }
}

// Writes the limits of the greatest top.
fn write_limits(limits: &mut [u64], count: usize, lifts: &[(u32, i32)], greatest: i32)
    requires count { count ≤ length limits.old }
    requires lifts { AreLifts lifts.now }
    requires some { pos 0 ≤ℤ greatest }
    requires few { greatest ≤ℤ pos 640 }
    ensures count { length limits.new ≡ length limits.old }
    ensures value { AreLimits greatest lifts.now limits.new }
{
    open(limits, count);
    for (state, lift) in lifts {
        lower(limits, *state as usize, limit(greatest, *lift));
    }
}

// Finds the place of the state whose slope has the most digits with its lift.
fn leading(lifts: &[(u32, i32)], slopes: &[i64]) -> usize
    requires lifts { AreLifts lifts.now }
    requires small { All (λ s. nat_abs s < 2 ^ 57) slopes.now }
{
    let mut place = 0;
    let mut most = 0;
    for k in 0..lifts.len() {
        let (state, lift) = lifts[k];
        let reach = greater(0, lift, slope_at(slopes, state as usize));
        if most < reach {
            most = reach;
            place = k;
        }
    }
    place
}

// Finds the size of a state's slope that reaches the least top.
fn lead_at(lifts: &[(u32, i32)], place: usize, least: i32) -> Lead
    requires lifts { AreLifts lifts.now }
    requires some { pos 0 ≤ℤ least }
    requires few { least ≤ℤ pos 640 }
    ensures { ReachesDigits lifts.now least result.state result.size }
{
    match lifts.get(place) {
        None => no_lead(),
        Some((state, lift)) => Lead {
            place,
            state: *state,
            size: reach(least, *lift),
        },
    }
}

// Finds the place of the lead of a span to which a cut's top was just put: where it became the greatest, that of the cut.
fn next_place(lead: Lead, lifts: &[(u32, i32)], slopes: &[i64], is_greatest: bool) -> usize
    requires lifts { AreLifts lifts.now }
    requires small { All (λ s. nat_abs s < 2 ^ 57) slopes.now }
{
    if is_greatest {
        leading(lifts, slopes)
    } else {
        lead.place
    }
}

/// Writes the limits of a span and finds its lead, where a cut with these slopes and this top was just put to it.
pub(crate) fn fence(
    limits: &mut [u64],
    lead: Lead,
    lifts: &[(u32, i32)],
    span: Span,
    slopes: &[i64],
    top: i32,
) -> Lead
    requires lifts { AreLifts lifts.now }
    requires span { IsBetween (pos 0) (pos 640) span }
    requires small { All (λ s. nat_abs s < 2 ^ 57) slopes.now }
    requires count { length slopes.now ≤ length limits.old }
    ensures count { length limits.new ≡ length limits.old }
    ensures keeps { Keeps lifts.now (Some span) limits.new result.state result.size }
{
    write_limits(limits, slopes.len(), lifts, span.greatest);
    let place = next_place(lead, lifts, slopes, top == span.greatest);
    lead_at(lifts, place, span.least)
}
