// Sums of terms and of rows, with their sizes.
ghost use Rattle.std.specs.Prelude.{◌≡◌, ◌+◌, ◌*◌, ℕ, ℤ, ◌+ℤ◌, ◌*ℤ◌, nat_abs, zip};
ghost use Rattle.std.specs.List.{sum_by};
ghost use Rattle.base_num.specs.Sums.{total, entry, at_terms, same_place};
ghost use Rattle.problem.specs.declared.parts.Row.{Row};
ghost use Rattle.cut_make.specs.SizeByTerms.{term_by, terms_by};
ghost use Rattle.plan_answer.specs.SizedSums.{Sums};

use crate::sized_sum::SizedSum;
use problem::Row;

/// TermNumbers by which terms are multiplied.
pub(crate) trait TermNumbers {
    ghost at: { Self → ℕ → ℤ };

    fn at(&self, index: usize) -> i128
        ensures { result ≡ at self.now index };
}

/// The values of the random variables, 0 past the end.
#[derive(Clone, Copy)]
pub(crate) struct TermValues<'a> {
    pub(crate) numbers: &'a [i64],
}

impl TermNumbers for TermValues<'_> {
    ghost at = { λ v. entry v.numbers.now };

    fn at(&self, index: usize) -> i128 {
        match self.numbers.get(index) {
            Some(number) => i128::from(*number),
            None => 0,
        }
    }
}

/// The incoming state, 0 past the end.
#[derive(Clone, Copy)]
pub(crate) struct TermState<'a> {
    pub(crate) numbers: &'a [i128],
}

impl TermNumbers for TermState<'_> {
    ghost at = { λ s. entry s.numbers.now };

    fn at(&self, index: usize) -> i128 {
        match self.numbers.get(index) {
            Some(number) => *number,
            None => 0,
        }
    }
}

/// 1 at one place and 0 elsewhere.
#[derive(Clone, Copy)]
pub(crate) struct TermPlace {
    pub(crate) index: usize,
}

impl TermNumbers for TermPlace {
    ghost at = { λ p i. same_place i p.index };

    fn at(&self, index: usize) -> i128 {
        if index == self.index { 1 } else { 0 }
    }
}

/// Adds a term to a sum.
fn plus_term<N: TermNumbers>(sum: SizedSum, term: &(u32, i64), numbers: &N) -> Option<SizedSum>
    ensures { Sums result (sum.value +ℤ term.now.1 *ℤ N.at numbers.now term.now.0) (sum.size.total + term_by (λ i. nat_abs (N.at numbers.now i)) term.now) }
{
    let (variable, factor) = *term;
    sum.plus_product(i128::from(factor), numbers.at(variable as usize))
}

/// The sum of terms.
pub(crate) fn terms_sum<N: TermNumbers>(terms: &[(u32, i64)], numbers: &N) -> Option<SizedSum>
    ensures { Sums result (at_terms terms.now (N.at numbers.now)) (terms_by (λ i. nat_abs (N.at numbers.now i)) terms.now) }
{
    let mut sum = SizedSum::zero();
    for term in terms {
        sum = plus_term(sum, term, numbers)?;
    }
    Some(sum)
}

/// The part of a row that its multiplier is multiplied with.
pub(crate) trait RowPart {
    ghost value: { Self → Row → ℤ → ℤ };

    ghost size: { Self → Row → ℤ → ℕ };

    fn of(&self, row: &Row, multiplier: i64) -> Option<SizedSum>
        ensures { Sums result (value self.now row.now multiplier) (size self.now row.now multiplier) };
}

/// Adds a row's part times its multiplier to a sum.
fn plus_row<P: RowPart>(sum: SizedSum, row: &Row, multiplier: i64, part: &P) -> Option<SizedSum>
    ensures { Sums result (sum.value +ℤ multiplier *ℤ P.value part.now row.now multiplier) (sum.size.total + nat_abs multiplier * P.size part.now row.now multiplier) }
{
    sum.plus_multiple(i128::from(multiplier), part.of(row, multiplier))
}

/// The sum of the rows' parts times their multipliers.
pub(crate) fn rows_sum<P: RowPart>(rows: &[Row], multipliers: &[i64], part: &P) -> Option<SizedSum>
    ensures { Sums result
        (total (λ (q : Row × ℤ). q.1 *ℤ P.value part.now q.0 q.1) (zip rows.now multipliers.now))
        (sum_by (λ (q : Row × ℤ). nat_abs q.1 * P.size part.now q.0 q.1) (zip rows.now multipliers.now)) }
{
    let mut sum = SizedSum::zero();
    for i in 0..rows.len().min(multipliers.len()) {
        sum = plus_row(sum, &rows[i], multipliers[i], part)?;
    }
    Some(sum)
}
