// Find the greatest at a point of each successor's cuts that wait, where cuts stand side by side.
ghost use Rattle.std.specs.Prelude.{ℕ, Some, None, ◌≡◌, ◌<◌, ◌≤◌, ◌^◌, ◌+◌, ◌*ℤ◌, ◌≤ℤ◌, pos, true, false, length, map, take, replicate, get_or, All, IfSome, IfOk, OnOk};
ghost use Rattle.std.specs.Option.{option_map};
ghost use Rattle.base_num.specs.Sums.{entry};
ghost use Rattle.lp_program.specs.PackedCut.{PackedCut};
ghost use Rattle.lp_program.specs.Packed.{packed_row, rows_of, IsView};
ghost use Rattle.lp_program.specs.Covering.{value_of, AreInside};
ghost use Rattle.lp_program.specs.Coarse.{IsCoarse};
ghost use Rattle.lp_program.specs.declared.packed.Out.{Out};
ghost use Rattle.lp_program.specs.declared.programs.LpRow.{LpRow};
ghost use Rattle.lp_scale.specs.Walks.{walk};
ghost use Rattle.lp_scale.specs.Waiting.{waits};
ghost use Rattle.lp_scan.specs.Values.{greater_valued, greatest_step, IsValueWithin};
ghost use Rattle.lp_scan.specs.Packed.{short_or_zero, added, with_leaving, leaving_of, with_program_row, greater_or};

use crate::bounds::{is_fit, write_bounds};
use crate::first::{Bounded, first_greatest};
use crate::greatest::is_greater;
use crate::refilled::refill;
use crate::values::{raised, short, value_at};
use base_num::{List, Memory};
use lp_program::{ActiveCuts, CoarseCuts, CutList, Out, PackedCuts, PackedView};
use std::alloc::Global;

/// Cuts among which the greatest are looked up: the columns in which cuts wait, the states at which they are compared, and the
/// program's row of the first.
#[derive(Clone, Copy)]
pub(crate) struct Lookup<'a> {
    pub(crate) waiting: &'a [bool],
    pub(crate) states: &'a [i128],
    pub(crate) first: usize,
}

/// The states that leave the stage, and bounds of the values of a successor's cuts there, kept from one look-up to the next.
#[derive(Drop)]
pub struct LeavingStates {
    /// The outgoing value of each of 50 states, at scale 2^24.
    pub(crate) states: List<i64>,
    /// Bounds of the values of the cuts that were looked at last. They are written anew for each successor.
    pub(crate) bounds: Vec<u32>,
}

impl LeavingStates {
    /// Makes lists that hold nothing.
    pub fn new(alloc: Global) -> LeavingStates {
        LeavingStates {
            states: List::new(alloc),
            bounds: Vec::new(alloc),
        }
    }
}

// Gives the number, or 0 where 64 bits do not hold it.
fn short_or_zero(number: i128) -> i64
    ensures { result ≡ short_or_zero number }
{
    match i64::try_from(number) {
        Ok(number) => number,
        Err(_) => 0,
    }
}

// Gives the outgoing state of a decision.
fn leaving(states: &[i128], out: Out) -> i64
    ensures { result ≡ short_or_zero (entry states.now out.decision) }
{
    match states.get(out.decision as usize) {
        Some(number) => short_or_zero(*number),
        None => 0,
    }
}

// Adds to an outgoing state, where it has a place. False where 64 bits do not hold the sum.
fn add(found: &mut [i64], state: usize, value: i64) -> bool
    ensures value { result ≡ true → found.new ≡ added state value found.old }
    ensures count { length found.new ≡ length found.old }
{
    if found.len() <= state {
        return true;
    }
    match found[state].checked_add(value) {
        Some(sum) => {
            found[state] = sum;
            true
        }
        None => false,
    }
}

// Adds a decision to its outgoing state. False where 64 bits do not hold the sum.
fn add_out(found: &mut [i64], states: &[i128], out: Out) -> bool
    ensures value { result ≡ true → found.new ≡ with_leaving states.now found.old out }
    ensures count { length found.new ≡ length found.old }
{
    add(found, out.state as usize, leaving(states, out))
}

// Adds all that leaves the stage. False where 64 bits do not hold a sum.
fn add_all(found: &mut [i64], states: &[i128], outs: &[Out]) -> bool
    ensures value { result ≡ true → found.new ≡ walk (λ k ls (o : Out). with_leaving states.now ls o) 0 found.old outs.now }
    ensures count { length found.new ≡ length found.old }
{
    for k in 0..outs.len() {
        if !add_out(found, states, outs[k]) {
            return false;
        }
    }
    true
}

// Writes 0 for each of 50 states.
fn write_zeros(found: &mut List<i64>) -> Result<(), Memory>
    ensures { OnOk result (found.new ≡ replicate 50 (pos 0)) }
{
    refill(found, 50, 0)
}

/// Writes the outgoing value of each of 50 states. False where 64 bits do not hold a sum. [`Memory`] where memory was refused.
#[tactic(auto, unfolding(crate::specs::Packed::leaving_of))]
pub(crate) fn write_leaving(
    states: &[i128],
    outs: &[Out],
    found: &mut List<i64>,
) -> Result<bool, Memory>
    ensures value { IfOk result (λ whole. whole ≡ true → found.new ≡ leaving_of states.now outs.now) }
    ensures count { OnOk result (length found.new ≡ 50) }
{
    write_zeros(found)?;
    Ok(add_all(found.as_mut_slice(), states, outs))
}

// Keeps the greater of the greatest so far and the value of a row, of equals the former.
fn greater(best: Option<(usize, i128)>, row: usize, value: i128) -> Option<(usize, i128)>
    ensures { result ≡ greater_valued best (row, value) }
{
    if is_greater(&best, value) {
        Some((row, value))
    } else {
        best
    }
}

// Finds the greatest of a successor's cuts and of the greatest so far. The first cut is the program's row `first`.
fn take_cuts(
    best: Option<(usize, i128)>,
    first: usize,
    cuts: &CutList,
    leaving: &[i64],
) -> Option<(usize, i128)>
    requires rows { first + length cuts.now < 2 ^ 64 }
    requires counts { All (λ (c : PackedCut). length c.slopes ≡ length leaving.now) cuts.now }
    ensures { result ≡ walk (λ i b (c : PackedCut). greater_valued b (i, value_of c leaving.now)) first best cuts.now }
{
    let mut best = best;
    for place in 0..cuts.len() {
        best = greater(best, first + place, value_at(cuts, place, leaving));
    }
    best
}

// Finds the number and the value of the greatest of some cuts, of equals the first, by the same cuts in fewer binary digits, where
// there are some and these bound them. May write bounds.
fn greatest_of(
    cuts: &CutList,
    coarse: Option<CoarseCuts>,
    leaving: &[i64],
    bounds: &mut Vec<u32>,
) -> Option<(usize, i128)>
    requires counts { All (λ (c : PackedCut). length c.slopes ≡ length leaving.now) cuts.now }
    requires coarse { IfSome coarse (IsCoarse cuts.now) }
    ensures { result ≡ walk (λ i b (c : PackedCut). greater_valued b (i, value_of c leaving.now)) 0 None cuts.now }
{
    if cuts.len() == 0 {
        return None;
    }
    if let Some(coarse) = coarse {
        if is_fit(&coarse, leaving) && write_bounds(bounds, &coarse, cuts, leaving) {
            return first_greatest(&Bounded {
                cuts,
                leaving,
                bounds: bounds.as_slice(),
                base: coarse.base,
                shift: coarse.slope_shift + coarse.state_shift,
            });
        }
    }
    take_cuts(None, 0, cuts, leaving)
}

// Gives the program's row of the cut whose place has a number in a list. The first cut is the program's row `first`.
fn row_of(first: usize, places: &[u32], number: usize) -> usize
    requires rows { All (λ (p : ℕ). first + p < 2 ^ 64) places.now }
    ensures { result ≡ first + get_or places.now number 0 }
{
    if number < places.len() {
        first + places[number] as usize
    } else {
        first
    }
}

// Finds the greatest of the cuts that stand at some places and of the greatest so far. The first cut is the program's row `first`.
// May write bounds.
fn take_active(
    best: Option<(usize, i128)>,
    first: usize,
    active: &ActiveCuts,
    leaving: &[i64],
    bounds: &mut Vec<u32>,
) -> Option<(usize, i128)>
    requires rows { All (λ (p : ℕ). first + p < 2 ^ 64) active.now.places.now }
    requires counts { All (λ (c : PackedCut). length c.slopes ≡ length leaving.now) active.now.cuts }
    requires coarse { IfSome active.now.coarse (IsCoarse active.now.cuts) }
    ensures { result ≡ greater_or best (option_map (with_program_row first active.now.places.now) (walk (λ i b (c : PackedCut). greater_valued b (i, value_of c leaving.now)) 0 None active.now.cuts)) }
{
    match greatest_of(&active.cuts, active.coarse, leaving, bounds) {
        Some((number, value)) => greater(best, row_of(first, active.places, number), value),
        None => best,
    }
}

// Tells whether a state lies between two ends.
fn is_between(low: i64, high: i64, state: i64) -> bool
    ensures above { result ≡ true → (low *ℤ pos (2 ^ 24)) ≤ℤ state }
    ensures below { result ≡ true → state ≤ℤ (high *ℤ pos (2 ^ 24)) }
{
    let state = i128::from(state);
    raised(i128::from(low)) <= state && state <= raised(i128::from(high))
}

// Tells whether all states lie in a box.
fn are_inside(lows: &[i64], highs: &[i64], states: &[i64]) -> bool
    ensures { result ≡ true → AreInside lows.now highs.now states.now }
{
    if lows.len() != states.len() || highs.len() != states.len() {
        return false;
    }
    for k in 0..states.len() {
        if !is_between(lows[k], highs[k], states[k]) {
            return false;
        }
    }
    true
}

// Finds the greatest of a successor's cuts and of the greatest so far. Looks only at those that cover the others, where they do. May
// write bounds.
fn take_best(
    best: Option<(usize, i128)>,
    first: usize,
    cuts: &PackedCuts,
    leaving: &[i64],
    bounds: &mut Vec<u32>,
) -> Option<(usize, i128)>
    requires rows { first + length cuts.now < 2 ^ 64 }
    requires counts { All (λ (c : PackedCut). length c.slopes ≡ length leaving.now) cuts.now }
    ensures { result ≡ walk (λ i b (c : PackedCut). greater_valued b (i, value_of c leaving.now)) first best cuts.now }
{
    if let Some(active) = cuts.active() {
        if are_inside(active.lows, active.highs, leaving) {
            return take_active(best, first, active, leaving, bounds);
        }
    }
    take_cuts(best, first, cuts.list(), leaving)
}

// Tells whether the cuts in a column wait.
fn is_waiting(waiting: &[bool], column: usize) -> bool
    ensures { result ≡ get_or waiting.now column false }
{
    waiting.get(column).copied().unwrap_or(false)
}

// Gives the first numbers of a list.
fn front(leaving: &[i64], count: usize) -> &[i64]
    requires { count ≤ length leaving.now }
    ensures { result.now ≡ take count leaving.now }
{
    &leaving[..count]
}

// Looks at a successor's cuts, where these wait.
fn take_successor(
    greatest: &mut [Option<(usize, i128)>],
    lookup: &Lookup,
    leaving: &mut LeavingStates,
    outs: &[Out],
    column: usize,
    cuts: &PackedCuts,
)
    requires count { length leaving.old.states ≡ 50 }
    requires rows { lookup.now.first + length cuts.now < 2 ^ 64 }
    requires leaving { leaving.old.states ≡ leaving_of lookup.now.states.now outs.now }
    requires waiting { length lookup.now.waiting.now ≡ length greatest.old }
    requires within { All (λ (r : LpRow). waits lookup.now.waiting.now r ≡ true → IsValueWithin lookup.now.states.now r) (map (packed_row outs.now column) cuts.now) }
    ensures value { greatest.new ≡ walk (λ i bests (r : LpRow). greatest_step lookup.now.waiting.now lookup.now.states.now i bests r) lookup.now.first greatest.old (map (packed_row outs.now column) cuts.now) }
    ensures count { length greatest.new ≡ length greatest.old }
    ensures leaving { leaving.new.states ≡ leaving.old.states }
{
    if is_waiting(lookup.waiting, column) {
        let states = front(leaving.states.as_slice(), cuts.states());
        let best = greatest[column];
        greatest[column] = take_best(best, lookup.first, cuts, states, &mut leaving.bounds);
    }
}

/// Looks at all cuts that stand side by side.
pub(crate) fn take_packed(
    greatest: &mut [Option<(usize, i128)>],
    lookup: &Lookup,
    leaving: &mut LeavingStates,
    view: &PackedView,
)
    requires view { IsView view.now }
    requires rows { lookup.now.first + length (rows_of view.now) < 2 ^ 64 }
    requires count { length leaving.old.states ≡ 50 }
    requires leaving { leaving.old.states ≡ leaving_of lookup.now.states.now view.now.outs }
    requires waiting { length lookup.now.waiting.now ≡ length greatest.old }
    requires within { All (λ (r : LpRow). waits lookup.now.waiting.now r ≡ true → IsValueWithin lookup.now.states.now r) (rows_of view.now) }
    ensures value { greatest.new ≡ walk (λ i bests (r : LpRow). greatest_step lookup.now.waiting.now lookup.now.states.now i bests r) lookup.now.first greatest.old (rows_of view.now) }
    ensures count { length greatest.new ≡ length greatest.old }
{
    let outs = view.outs.as_slice();
    let cuts = view.cuts.as_slice();
    let mut row = lookup.first;
    for k in 0..cuts.len() {
        let column = view.first as usize + k;
        let cuts = &cuts[k];
        let here = Lookup {
            waiting: lookup.waiting,
            states: lookup.states,
            first: row,
        };
        take_successor(greatest, &here, leaving, outs, column, cuts);
        row += cuts.len();
    }
}
