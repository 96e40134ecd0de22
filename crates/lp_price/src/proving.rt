// Tell whether whole multipliers of own rows prove that no point in the boxes of decisions keeps these rows (Farkas, 1902).
ghost use Rattle.std.specs.Prelude.{◌≡◌, ◌<◌, ◌≤◌, ◌*◌, take, length, IfOk, IfSome};
ghost use Rattle.std.specs.Option.{option_and_then};
ghost use Rattle.lp_program.specs.Numbers.{zero_fx};
ghost use Rattle.lp_price.specs.Folds.{fold_from, ReachesNew};
ghost use Rattle.lp_price.specs.Proves.{own_rows, decisions_of, side_of_multiplier, clipped, number_or_zero, lowered, whole_times, multiplier_at, lessened, term_step, is_multiplier_zero, weights_less_terms, row_step, weights_of, with_product, with_row_side, side_step, lesser, box_step, excess_of, is_above_zero, proves_from, proves};

use crate::whole::whole_product;
use base_num::{Memory, floor_div};
use lp_program::{Column, Fx, LpRow, StageLp};
use lp_table::lists::repeated;
use lp_table::numbers::power;
use std::alloc::Global;

// The first items of a list, or all where there are no more.
pub(crate) fn front<T>(items: &[T], count: usize) -> &[T]
    ensures { result.now ≡ take count items.now }
{
    if count < items.len() {
        &items[..count]
    } else {
        items
    }
}

// The program's own rows.
pub(crate) fn own_rows<'b>(lp: &'b StageLp) -> &'b [LpRow]
    ensures { result.now ≡ own_rows lp.now }
{
    lp.own_rows()
}

// The side of a row that a multiplier speaks of.
#[tactic(auto, unfolding(crate::specs::Proves::side_of_multiplier))]
fn side_of(row: &LpRow, multiplier: Fx) -> Option<Fx>
    ensures { result ≡ side_of_multiplier row.now multiplier }
{
    if 0 < multiplier.0 {
        row.low
    } else if multiplier.0 < 0 {
        row.high
    } else {
        None
    }
}

/// The multiplier, where the row has the side that it speaks of, else 0.
pub fn clipped(row: &LpRow, multiplier: Fx) -> Fx
    ensures { result ≡ clipped row.now multiplier }
{
    match side_of(row, multiplier) {
        Some(_) => multiplier,
        None => Fx(0),
    }
}

// A number of a list, 0 where it is missing.
fn number_at(numbers: &[Fx], at: usize) -> Fx
    ensures { result ≡ number_or_zero numbers.now at }
{
    match numbers.get(at) {
        Some(number) => *number,
        None => Fx(0),
    }
}

// A number over 2^digits, rounded down.
#[tactic(auto, unfolding(crate::specs::Proves::lowered))]
fn lowered(x: Fx, digits: u32) -> Fx
    requires { digits ≤ 126 }
    ensures { result ≡ lowered digits x }
{
    Fx(floor_div(x.0, power(digits)))
}

// The product of two numbers as they stand.
#[tactic(auto, unfolding(crate::specs::Proves::whole_times))]
fn whole_times(x: Fx, y: Fx) -> Option<Fx>
    ensures { result ≡ whole_times x y }
{
    Some(Fx(whole_product(x.0, y.0)?))
}

// The multiplier of a row, made smaller by so many digits and clipped.
fn multiplier_at(row: &LpRow, multipliers: &[Fx], number: usize, digits: u32) -> Fx
    requires { digits ≤ 126 }
    ensures { result ≡ multiplier_at digits multipliers.now number row.now }
{
    clipped(row, lowered(number_at(multipliers, number), digits))
}

// The weight of a term's column, less the term's whole factor times a multiplier.
#[tactic(auto, unfolding(crate::specs::Proves::lessened))]
fn lessened(weights: &[Fx], term: (u32, Fx), multiplier: Fx) -> Option<Fx>
    ensures value { result ≡ lessened multiplier weights.now term }
    ensures inside { IfSome result (λ w. term.0 < length weights.now) }
{
    let product = whole_times(multiplier, lowered(term.1, 32))?;
    let weight = weights.get(term.0 as usize).copied()?;
    weight.sub(product)
}

// Lessens the weight of a term's column; false where a result is absent.
#[tactic(auto, unfolding(crate::specs::Proves::term_step))]
fn lessen(weights: &mut [Fx], term: (u32, Fx), multiplier: Fx) -> bool
    ensures { ReachesNew result (term_step multiplier weights.old term) weights.new }
{
    match lessened(weights, term, multiplier) {
        Some(weight) => {
            weights[term.0 as usize] = weight;
            true
        }
        None => false,
    }
}

// Lessens the weights of the columns of some terms, in order.
fn lessen_all(weights: &mut [Fx], terms: &[(u32, Fx)], multiplier: Fx) -> bool
    ensures { ReachesNew result (fold_from (λ k ws t. term_step multiplier ws t) 0 weights.old terms.now) weights.new }
{
    for k in 0..terms.len() {
        if !lessen(weights, terms[k], multiplier) {
            return false;
        }
    }
    true
}

fn is_zero(multiplier: Fx) -> bool
    ensures { result ≡ is_multiplier_zero multiplier }
{
    !(0 < multiplier.0) && !(multiplier.0 < 0)
}

// Lessens the weights by a row with its multiplier.
fn less_terms(weights: &mut [Fx], row: &LpRow, multiplier: Fx) -> bool
    ensures { ReachesNew result (weights_less_terms multiplier weights.old row.now) weights.new }
{
    if is_zero(multiplier) {
        true
    } else {
        lessen_all(weights, row.terms.as_slice(), multiplier)
    }
}

// Lessens the weights by row `number`.
#[tactic(auto, unfolding(crate::specs::Proves::row_step))]
fn take_row(weights: &mut [Fx], row: &LpRow, multipliers: &[Fx], number: usize, digits: u32) -> bool
    requires { digits ≤ 126 }
    ensures { ReachesNew result (row_step digits multipliers.now number weights.old row.now) weights.new }
{
    less_terms(
        weights,
        row,
        multiplier_at(row, multipliers, number, digits),
    )
}

// Lessens the weights by all rows, in order.
fn take_rows(weights: &mut [Fx], rows: &[LpRow], multipliers: &[Fx], digits: u32) -> bool
    requires { digits ≤ 126 }
    ensures { ReachesNew result (fold_from (row_step digits multipliers.now) 0 weights.old rows.now) weights.new }
{
    for i in 0..rows.len() {
        if !take_row(weights, &rows[i], multipliers, i, digits) {
            return false;
        }
    }
    true
}

// Adds a product to a sum.
fn with_product(sum: Fx, multiplier: Fx, side: Option<Fx>) -> Option<Fx>
    ensures { result ≡ with_product sum multiplier side }
{
    match side {
        None => Some(sum),
        Some(side) => sum.add(whole_times(multiplier, lowered(side, 8))?),
    }
}

// A sum with a multiplier times the side that it speaks of.
fn with_row(sum: Fx, row: &LpRow, multiplier: Fx) -> Option<Fx>
    ensures { result ≡ with_row_side sum multiplier row.now }
{
    with_product(sum, multiplier, side_of(row, multiplier))
}

// A sum with the multiplier of row `number` times the side that it speaks of.
#[tactic(auto, unfolding(crate::specs::Proves::side_step))]
fn side_step(sum: Fx, row: &LpRow, multipliers: &[Fx], number: usize, digits: u32) -> Option<Fx>
    requires { digits ≤ 126 }
    ensures { result ≡ side_step digits multipliers.now number sum row.now }
{
    with_row(sum, row, multiplier_at(row, multipliers, number, digits))
}

// Finds the least that the rows demand.
fn demand(rows: &[LpRow], multipliers: &[Fx], digits: u32) -> Option<Fx>
    requires { digits ≤ 126 }
    ensures { result ≡ fold_from (side_step digits multipliers.now) 0 zero_fx rows.now }
{
    let mut sum = Fx(0);
    for i in 0..rows.len() {
        sum = side_step(sum, &rows[i], multipliers, i, digits)?;
    }
    Some(sum)
}

fn lesser(x: Fx, y: Fx) -> Fx
    ensures { result ≡ lesser x y }
{
    if x.0 < y.0 { x } else { y }
}

// A sum with the least of a weight times a point of a box.
#[tactic(auto, unfolding(crate::specs::Proves::box_step))]
fn box_step(sum: Fx, column: &Column, weights: &[Fx], number: usize) -> Option<Fx>
    ensures { result ≡ box_step weights.now number sum column.now }
{
    let weight = number_at(weights, number);
    let low = whole_times(weight, lowered(column.low, 8))?;
    let high = whole_times(weight, lowered(column.high, 8))?;
    sum.add(lesser(low, high))
}

// A sum with the least of the weights times a point of the boxes.
fn with_boxes(sum: Fx, columns: &[Column], weights: &[Fx]) -> Option<Fx>
    ensures { result ≡ fold_from (box_step weights.now) 0 sum columns.now }
{
    let mut sum = sum;
    for j in 0..columns.len() {
        sum = box_step(sum, &columns[j], weights, j)?;
    }
    Some(sum)
}

// Finds the least that the rows demand, less the most that the decisions give.
fn excess(lp: &StageLp, multipliers: &[Fx], weights: &[Fx], digits: u32) -> Option<Fx>
    requires { digits ≤ 126 }
    ensures { result ≡ option_and_then (λ s. fold_from (box_step weights.now) 0 s (decisions_of lp.now)) (fold_from (side_step digits multipliers.now) 0 zero_fx (own_rows lp.now)) }
{
    let sum = demand(own_rows(lp), multipliers, digits)?;
    let decisions = front(lp.columns(), lp.decisions());
    with_boxes(sum, decisions, weights)
}

fn is_above_zero(excess: Option<Fx>) -> bool
    ensures { result ≡ is_above_zero excess }
{
    match excess {
        Some(excess) => 0 < excess.0,
        None => false,
    }
}

// Tells whether multipliers, made smaller by so many digits, leave an excess.
#[tactic(auto, unfolding(crate::specs::Proves::excess_of, crate::specs::Proves::weights_of))]
fn exceeds(alloc: Global, lp: &StageLp, multipliers: &[Fx], digits: u32) -> Result<bool, Memory>
    requires { digits ≤ 126 }
    ensures { IfOk result (λ found. found ≡ is_above_zero (excess_of lp.now multipliers.now digits)) }
{
    let mut weights = repeated(alloc, lp.columns().len(), Fx(0))?;
    if !take_rows(weights.as_mut_slice(), own_rows(lp), multipliers, digits) {
        return Ok(false);
    }
    Ok(is_above_zero(excess(lp, multipliers, weights.as_slice(), digits)))
}

// Tells the same for one of so many scales, each 2^4 times the one before.
fn exceeds_by_one(
    alloc: Global,
    lp: &StageLp,
    multipliers: &[Fx],
    scales: u32,
) -> Result<bool, Memory>
    requires { scales ≤ 31 }
    ensures { IfOk result (λ found. found ≡ proves_from lp.now multipliers.now 0 scales) }
{
    for scale in 0..scales {
        if exceeds(alloc, lp, multipliers, 4 * scale)? {
            return Ok(true);
        }
    }
    Ok(false)
}

/// Tells whether multipliers of own rows prove that no point in the boxes of decisions keeps these rows (Farkas, 1902): the
/// least that the rows demand exceeds the most that the decisions give. All numbers are taken as whole ones, the multipliers
/// over 2^k and rounded down, for a k of 0, 4, .., 56. A k where a product or a sum on the way leaves 128 bits does not count.
/// A missing multiplier stands for 0, and so does one of a row without the side that it speaks of. [`Memory`] where memory was
/// refused.
#[tactic(auto, unfolding(crate::specs::Proves::proves))]
pub fn proves(alloc: Global, lp: &StageLp, multipliers: &[Fx]) -> Result<bool, Memory>
    ensures { IfOk result (λ found. found ≡ proves lp.now multipliers.now) }
{
    exceeds_by_one(alloc, lp, multipliers, 15)
}
