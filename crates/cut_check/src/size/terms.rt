// Terms and numbers times the bounds of their variables, added to a size.
ghost use Rattle.std.specs.Prelude.{◌≡◌, ◌*◌, ◌≤◌, ℕ, Option};
ghost use Rattle.base_num.specs.Sums.{entry};
ghost use Rattle.cut_make.specs.SizeByTerms.{AddsSize, over_decisions, over_box, over_values, term_by, terms_by, numbers_by};

use crate::magnitudes::{absolute, reach};
use base_num::Size;
use problem::Decision;

/// The number at an index, 0 past the end.
fn number_at(numbers: &[i64], index: usize) -> i64
    ensures { result ≡ entry numbers.now index }
{
    match numbers.get(index) {
        Some(number) => *number,
        None => 0,
    }
}

/// The bound by which a term's factor is multiplied, by the term's variable.
pub(super) trait Multiples {
    ghost at: { Self → ℕ → ℕ };

    fn at(&self, variable: usize) -> u128
        ensures { result ≡ at self.now variable };
}

/// The ends of the decisions' boxes.
#[derive(Clone, Copy)]
pub(super) struct DecisionBoxes<'a> {
    pub(super) decisions: &'a [Decision],
}

impl Multiples for DecisionBoxes<'_> {
    ghost at = { λ b. over_decisions b.decisions.now };

    fn at(&self, variable: usize) -> u128 {
        match self.decisions.get(variable) {
            Some(decision) => reach(decision.low, decision.high),
            None => 1,
        }
    }
}

/// The ends of the box of the incoming state.
#[derive(Clone, Copy)]
pub(super) struct StateBox<'a> {
    pub(super) low: &'a [i64],
    pub(super) high: &'a [i64],
}

impl Multiples for StateBox<'_> {
    ghost at = { λ b. over_box b.low.now b.high.now };

    fn at(&self, variable: usize) -> u128 {
        reach(
            number_at(self.low, variable),
            number_at(self.high, variable),
        )
    }
}

/// The values of the random variables.
#[derive(Clone, Copy)]
pub(super) struct Values<'a> {
    pub(super) values: &'a [i64],
}

impl Multiples for Values<'_> {
    ghost at = { λ v. over_values v.values.now };

    fn at(&self, variable: usize) -> u128 {
        absolute(number_at(self.values, variable))
    }
}

/// A term's factor times its multiple.
fn plus_term<M: Multiples>(size: Size, term: &(u32, i64), multiples: &M) -> Option<Size>
    ensures { AddsSize size.total result (term_by (M.at multiples.now) term.now) }
{
    let (variable, factor) = *term;
    size.plus_product(absolute(factor), multiples.at(variable as usize))
}

/// The terms' factors times their multiples.
pub(super) fn plus_terms<M: Multiples>(
    size: Size,
    terms: &[(u32, i64)],
    multiples: &M,
) -> Option<Size>
    ensures { AddsSize size.total result (terms_by (M.at multiples.now) terms.now) }
{
    let mut sum = size;
    for term in terms {
        sum = plus_term(sum, term, multiples)?;
    }
    Some(sum)
}

/// Numbers times the multiples of their variables.
pub(super) fn plus_numbers<M: Multiples>(size: Size, numbers: &[i64], multiples: &M) -> Option<Size>
    ensures { AddsSize size.total result (numbers_by (M.at multiples.now) numbers.now) }
{
    let mut sum = size;
    for k in 0..numbers.len() {
        sum = sum.plus_product(absolute(numbers[k]), multiples.at(k))?;
    }
    Some(sum)
}

/// An inner sum times a factor.
pub(super) fn plus_scaled(size: Size, factor: u128, inner: Option<Size>) -> Option<Size>
    requires positive { 1 ≤ factor }
    ensures { (amount : ℕ) → AddsSize 0 inner amount → AddsSize size.total result (factor * amount) }
{
    let inner = inner?;
    size.plus_product(factor, inner.total())
}
