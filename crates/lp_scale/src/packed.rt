// Cuts that stand side by side: the spans of their slopes' digits, and whether they wait.
ghost use Rattle.std.specs.Prelude.{◌≡◌, ◌≤◌, ◌<◌, ◌^◌, ◌≤ℤ◌, ℕ, ℤ, pos, List, true, false, length, map, replicate, nat_abs, nat_le, get_or, All, None, IfOk, OnOk};
ghost use Rattle.std.specs.List.{list_all};
ghost use Rattle.lp_program.specs.PackedCut.{PackedCut, IsSmallCut};
ghost use Rattle.lp_program.specs.Covering.{packed_cut_at};
ghost use Rattle.lp_program.specs.SlopeEnds.{AreSlopeEnds};
ghost use Rattle.lp_program.specs.Packed.{packed_row, rows_of, IsView};
ghost use Rattle.lp_program.specs.declared.packed.Out.{Out};
ghost use Rattle.lp_program.specs.declared.programs.LpRow.{LpRow};
ghost use Rattle.lp_scale.specs.Walks.{walk};
ghost use Rattle.lp_scale.specs.Spans.{AreBetween};
ghost use Rattle.lp_scale.specs.Exponents.{AreUpTo, SpansBetween};
ghost use Rattle.lp_scale.specs.Waiting.{last_column, is_narrow, waits};
ghost use Rattle.lp_scale.specs.Widening.{top_of, with_top, cut_spans};
ghost use Rattle.lp_scale.specs.Packed.{lift_of, most_digits, grown_above_zero, AreLifts};
ghost use Rattle.lp_scale.specs.Fences.{Keeps};

use crate::exponents::{exponent_at, reach_at};
use crate::fences::{Lead, fence, is_kept, no_lead};
use crate::slope_digits::most_digits;
use crate::spans::{Span, grow};
use base_num::{List, Memory};
use lp_program::{Out, PackedCuts, PackedView, SlopeEnds};
use std::alloc::Global;

// The greatest number of states.
const MOST_STATES: usize = 50;

// Tells whether the bounds of all decisions that leave as states have few binary digits, by the reaches of the columns.
fn are_outs_short(reaches: &[u32], outs: &[Out]) -> bool
    ensures { result ≡ list_all (λ o. nat_le (get_or reaches.now o.decision 0) 71) outs.now }
{
    outs.iter()
        .all(|out| reach_at(reaches, out.decision as usize) <= 71)
}

// Finds the exponent of a state's column with the binary digits of the scale of terms, which is 256 times that of slopes.
fn lift(exponents: &[i32], out: Out) -> (u32, i32)
    requires { AreUpTo 512 exponents.now }
    ensures { result ≡ lift_of exponents.now out }
{
    (out.state, exponent_at(exponents, out.decision as usize) + 8)
}

// Finds those of all states.
fn lifts(alloc: Global, exponents: &[i32], outs: &[Out]) -> Result<List<(u32, i32)>, Memory>
    requires { AreUpTo 512 exponents.now }
    ensures { IfOk result (λ found. found ≡ map (lift_of exponents.now) outs.now) }
{
    let mut found = List::from_vec(Vec::with_capacity(alloc, outs.len())?);
    for out in outs {
        found.push(lift(exponents, *out))?;
    }
    Ok(found)
}

// Puts a number to a span, unless it is 0.
fn grow_above_zero(span: Option<Span>, number: i32) -> Option<Span>
    ensures { result ≡ grown_above_zero span number }
{
    if number == 0 {
        span
    } else {
        grow(span, number)
    }
}

// Tells whether a cut's top, where it is not 0, is within a span.
fn is_within(span: Option<Span>, top: i32) -> bool
    ensures { result ≡ true → grown_above_zero span top ≡ span }
{
    if top == 0 {
        return true;
    }
    match span {
        None => false,
        Some(span) => span.least <= top && top <= span.greatest,
    }
}

// Extends a span by a cut's top, which is not within it, and writes the limits and the lead of the new span.
fn grow_by_top(
    span: Option<Span>,
    lead: Lead,
    limits: &mut [u64],
    lifts: &[(u32, i32)],
    slopes: &[i64],
    top: i32,
) -> (Option<Span>, Lead)
    requires lifts { AreLifts lifts.now }
    requires span { AreBetween (pos 0) (pos 640) span }
    requires small { All (λ s. nat_abs s < 2 ^ 57) slopes.now }
    requires count { length slopes.now ≤ length limits.old }
    requires least { pos 0 ≤ℤ top }
    requires greatest { top ≤ℤ pos 640 }
    ensures value { result.0 ≡ grown_above_zero span top }
    ensures span { AreBetween (pos 0) (pos 640) result.0 }
    ensures count { length limits.new ≡ length limits.old }
    ensures keeps { Keeps lifts.now result.0 limits.new result.1.state result.1.size }
{
    match grow_above_zero(span, top) {
        None => (None, no_lead()),
        Some(grown) => {
            let led = fence(limits, lead, lifts, grown, slopes, top);
            (Some(grown), led)
        }
    }
}

// Puts a cut's top to a span that it need not be within.
fn grow_by_cut(
    span: Option<Span>,
    lead: Lead,
    limits: &mut [u64],
    lifts: &[(u32, i32)],
    slopes: &[i64],
) -> (Option<Span>, Lead)
    requires lifts { AreLifts lifts.now }
    requires span { AreBetween (pos 0) (pos 640) span }
    requires small { All (λ s. nat_abs s < 2 ^ 57) slopes.now }
    requires count { length slopes.now ≤ length limits.old }
    requires keeps { Keeps lifts.now span limits.old lead.state lead.size }
    ensures value { result.0 ≡ grown_above_zero span (most_digits lifts.now slopes.now) }
    ensures span { AreBetween (pos 0) (pos 640) result.0 }
    ensures count { length limits.new ≡ length limits.old }
    ensures keeps { Keeps lifts.now result.0 limits.new result.1.state result.1.size }
{
    let top = most_digits(lifts, slopes);
    if is_within(span, top) {
        return (span, lead);
    }
    grow_by_top(span, lead, limits, lifts, slopes, top)
}

// Puts a cut's top to a span: most cuts are known at a glance to leave it as it is.
fn with_cut(
    span: Option<Span>,
    lead: Lead,
    limits: &mut [u64],
    lifts: &[(u32, i32)],
    slopes: &[i64],
) -> (Option<Span>, Lead)
    requires lifts { AreLifts lifts.now }
    requires span { AreBetween (pos 0) (pos 640) span }
    requires small { All (λ s. nat_abs s < 2 ^ 57) slopes.now }
    requires count { length slopes.now ≤ length limits.old }
    requires keeps { Keeps lifts.now span limits.old lead.state lead.size }
    ensures value { result.0 ≡ grown_above_zero span (most_digits lifts.now slopes.now) }
    ensures span { AreBetween (pos 0) (pos 640) result.0 }
    ensures count { length limits.new ≡ length limits.old }
    ensures keeps { Keeps lifts.now result.0 limits.new result.1.state result.1.size }
{
    if is_kept(limits, lead, slopes) {
        return (span, lead);
    }
    grow_by_cut(span, lead, limits, lifts, slopes)
}

// Tells whether no top was 0, and one more is not.
fn are_above_with(are_above: bool, top: i32) -> bool
    requires { pos 0 ≤ℤ top }
    ensures former { result ≡ true → are_above ≡ true }
    ensures own { result ≡ true → pos 1 ≤ℤ top }
{
    are_above && top != 0
}

// Finds the span of the tops of the cuts at some places, from a span on, and whether no top is 0.
fn grow_by_places(
    span: Option<Span>,
    lifts: &[(u32, i32)],
    cuts: &PackedCuts,
    places: &[u32],
) -> (Option<Span>, bool)
    requires lifts { AreLifts lifts.now }
    requires span { AreBetween (pos 0) (pos 640) span }
    requires there { All (λ (p : ℕ). p < length cuts.now) places.now }
    ensures value { result.0 ≡ walk (λ i s (p : ℕ). grown_above_zero s (most_digits lifts.now (packed_cut_at cuts.now p).slopes)) 0 span places.now }
    ensures above { result.1 ≡ true → All (λ (p : ℕ). pos 1 ≤ℤ most_digits lifts.now (packed_cut_at cuts.now p).slopes) places.now }
    ensures span { AreBetween (pos 0) (pos 640) result.0 }
{
    let mut span = span;
    let mut are_above = true;
    for k in 0..places.len() {
        let top = most_digits(lifts, cuts.slopes(places[k] as usize));
        are_above = are_above_with(are_above, top);
        span = grow_above_zero(span, top);
    }
    (span, are_above)
}

// Finds the span of the tops of a successor's cuts, from a span on, by the ends of their slopes, and whether it is so.
fn grow_by_ends(
    span: Option<Span>,
    lifts: &[(u32, i32)],
    cuts: &PackedCuts,
    ends: &SlopeEnds,
) -> (Option<Span>, bool)
    requires lifts { AreLifts lifts.now }
    requires span { AreBetween (pos 0) (pos 640) span }
    requires ends { AreSlopeEnds cuts.now ends.now }
    requires small { All IsSmallCut cuts.now }
    ensures value { result.1 ≡ true → result.0 ≡ walk (λ i s (c : PackedCut). grown_above_zero s (most_digits lifts.now c.slopes)) 0 span cuts.now }
    ensures span { AreBetween (pos 0) (pos 640) result.0 }
{
    let (grown, are_above) = grow_by_places(span, lifts, cuts, ends.least);
    let top = most_digits(lifts, ends.greatest);
    (grow_above_zero(grown, top), are_above)
}

// Finds the span of the tops of a successor's cuts, from a span on, one cut after the other.
fn grow_by_all(
    span: Option<Span>,
    limits: &mut [u64],
    lifts: &[(u32, i32)],
    cuts: &PackedCuts,
) -> Option<Span>
    requires lifts { AreLifts lifts.now }
    requires span { AreBetween (pos 0) (pos 640) span }
    requires limits { 50 ≤ length limits.old }
    ensures value { result ≡ walk (λ i s (c : PackedCut). grown_above_zero s (most_digits lifts.now c.slopes)) 0 span cuts.now }
    ensures span { AreBetween (pos 0) (pos 640) result }
    ensures small { All (λ (c : PackedCut). All (λ s. nat_abs s < 2 ^ 57) c.slopes) cuts.now }
    ensures limits { length limits.new ≡ length limits.old }
{
    let mut span = span;
    let mut lead = no_lead();
    for place in 0..cuts.len() {
        let (grown, led) = with_cut(span, lead, limits, lifts, cuts.slopes(place));
        span = grown;
        lead = led;
    }
    span
}

// Finds the span of the tops of a successor's cuts, from a span on.
fn grow_by_cuts(
    span: Option<Span>,
    limits: &mut [u64],
    lifts: &[(u32, i32)],
    cuts: &PackedCuts,
) -> Option<Span>
    requires lifts { AreLifts lifts.now }
    requires span { AreBetween (pos 0) (pos 640) span }
    requires limits { 50 ≤ length limits.old }
    ensures value { result ≡ walk (λ i s (c : PackedCut). grown_above_zero s (most_digits lifts.now c.slopes)) 0 span cuts.now }
    ensures span { AreBetween (pos 0) (pos 640) result }
    ensures small { All (λ (c : PackedCut). All (λ s. nat_abs s < 2 ^ 57) c.slopes) cuts.now }
    ensures limits { length limits.new ≡ length limits.old }
{
    let _ = cuts.states();
    if let Some(ends) = cuts.ends() {
        let (grown, is_so) = grow_by_ends(span, lifts, cuts, &ends);
        if is_so {
            return grown;
        }
    }
    grow_by_all(span, limits, lifts, cuts)
}

// Puts the tops of the cuts in one column to the spans of successors' columns.
fn write_span(
    decisions: usize,
    spans: &mut [Option<Span>],
    limits: &mut [u64],
    lifts: &[(u32, i32)],
    column: usize,
    cuts: &PackedCuts,
)
    requires lifts { AreLifts lifts.now }
    requires limits { 50 ≤ length limits.old }
    requires spans { SpansBetween (pos 0) (pos 640) spans.old }
    ensures value { (exponents : List ℤ) → (outs : List Out) → lifts.now ≡ map (lift_of exponents) outs
        → spans.new ≡ walk (λ i ss (r : LpRow). with_top decisions ss (top_of exponents r.terms) (last_column r.terms)) 0 spans.old (map (packed_row outs column) cuts.now) }
    ensures count { length spans.new ≡ length spans.old }
    ensures limits { length limits.new ≡ length limits.old }
    ensures spans { SpansBetween (pos 0) (pos 640) spans.new }
{
    if column < decisions {
        return;
    }
    if spans.len() <= column {
        return;
    }
    spans[column] = grow_by_cuts(spans[column], limits, lifts, cuts);
}

// Writes for each column of a successor the span of the tops of its cuts, by the lifts of all states.
fn write_lifted_spans(
    decisions: usize,
    spans: &mut [Option<Span>],
    limits: &mut [u64],
    lifts: &[(u32, i32)],
    view: &PackedView,
)
    requires lifts { AreLifts lifts.now }
    requires limits { 50 ≤ length limits.old }
    requires view { IsView view.now }
    requires spans { SpansBetween (pos 0) (pos 640) spans.old }
    ensures value { (exponents : List ℤ) → lifts.now ≡ map (lift_of exponents) view.now.outs
        → spans.new ≡ walk (λ i ss (r : LpRow). with_top decisions ss (top_of exponents r.terms) (last_column r.terms)) 0 spans.old (rows_of view.now) }
    ensures count { length spans.new ≡ length spans.old }
    ensures spans { SpansBetween (pos 0) (pos 640) spans.new }
{
    let cuts = view.cuts.as_slice();
    for k in 0..cuts.len() {
        let column = view.first as usize + k;
        write_span(decisions, spans, limits, lifts, column, &cuts[k]);
    }
}

/// Writes for each column of a successor the span of the tops of its cuts. [`Memory`] where memory was refused.
#[tactic(auto, unfolding(crate::specs::Widening::cut_spans))]
pub(crate) fn write_packed_spans(
    alloc: Global,
    decisions: usize,
    exponents: &[i32],
    spans: &mut [Option<Span>],
    view: &PackedView,
) -> Result<(), Memory>
    requires exponents { AreUpTo 512 exponents.now }
    requires view { IsView view.now }
    requires spans { spans.old ≡ replicate (length spans.old) None }
    ensures value { OnOk result (spans.new ≡ cut_spans decisions (length spans.old) exponents.now (rows_of view.now)) }
    ensures count { length spans.new ≡ length spans.old }
    ensures spans { OnOk result (SpansBetween (pos 0) (pos 640) spans.new) }
{
    let lifts = lifts(alloc, exponents, view.outs.as_slice())?;
    let mut limits: [u64; MOST_STATES] = [0; MOST_STATES];
    write_lifted_spans(decisions, spans, &mut limits, lifts.as_slice(), view);
    Ok(())
}

// Asks the cuts of each successor for their states, by which all numbers are known to be small.
fn read_all(view: &PackedView)
    ensures { All (λ (cs : List PackedCut). All IsSmallCut cs) view.now.cuts }
{
    let cuts = view.cuts.as_slice();
    for k in 0..cuts.len() {
        let _ = cuts[k].states();
    }
}

/// Tells whether the columns of states are short, by the reaches of the columns; where it is true, all cuts are narrow.
pub(crate) fn are_narrow(reaches: &[u32], view: &PackedView) -> bool
    requires { IsView view.now }
    ensures { result ≡ true → All (λ (r : LpRow). is_narrow reaches.now r ≡ true) (rows_of view.now) }
{
    read_all(view);
    are_outs_short(reaches, view.outs.as_slice())
}

// Tells whether cuts in a column wait.
fn waits_at(waiting: &[bool], column: usize) -> bool
    ensures { result ≡ get_or waiting.now column false }
{
    waiting.get(column).copied().unwrap_or(false)
}

/// Tells whether all of these cuts wait; where it is true, they do.
pub(crate) fn do_all_wait(waiting: &[bool], view: &PackedView) -> bool
    requires { IsView view.now }
    ensures { result ≡ true → All (λ (r : LpRow). waits waiting.now r ≡ true) (rows_of view.now) }
{
    for k in 0..view.cuts.len() {
        if !waits_at(waiting, view.first as usize + k) {
            return false;
        }
    }
    true
}
