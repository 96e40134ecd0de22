// Sums of products, and the value of a row.
ghost use Rattle.std.specs.Prelude.{◌≡◌, ◌<◌, pos, ◌*ℤ◌, length, All};
ghost use Rattle.lp_wide_table.specs.Numbers.{sum_of};
ghost use Rattle.lp_wide_table.specs.Shape.{IsWideTable};
ghost use Rattle.lp_wide.specs.Activity.{wide_terms_from, wide_row_activity, wide_activity_of};
ghost use Rattle.lp_wide.specs.Refine.{shares_from};

use lp_wide_table::numbers::down;
use lp_wide_table::{Wide, WideCell, WideQuantity, WideTable};

// The sum with a cell times a quantity. None where 256 bits do not hold it.
fn plus_share(sum: Wide, a: WideCell, x: WideQuantity) -> Option<Wide>
    ensures { result ≡ sum_of sum (a *ℤ x) }
{
    sum.plus_product(a.number(), x.number())
}

// The sum of terms at the values x. None where 256 bits do not hold a sum on the way.
fn terms_at(terms: &[(u32, WideCell)], x: &[WideQuantity]) -> Option<Wide>
    requires { All (λ t. t.0 < length x.now) terms.now }
    ensures { result ≡ wide_terms_from (pos 0) terms.now x.now }
{
    let mut sum = Wide::zero();
    for k in 0..terms.len() {
        sum = plus_share(sum, terms[k].1, x[terms[k].0 as usize])?;
    }
    Some(sum)
}

// The sum of cells times the shifts at their places. None where 256 bits do not hold a sum on the way.
pub(crate) fn shares(line: &[WideCell], shifts: &[WideQuantity]) -> Option<Wide>
    requires { length shifts.now ≡ length line.now }
    ensures { result ≡ shares_from (pos 0) line.now shifts.now }
{
    let mut sum = Wide::zero();
    for j in 0..line.len() {
        sum = plus_share(sum, line[j], shifts[j])?;
    }
    Some(sum)
}

// The value of a row with these terms, at the values x.
fn row_value(terms: &[(u32, WideCell)], x: &[WideQuantity]) -> Option<WideQuantity>
    requires { All (λ t. t.0 < length x.now) terms.now }
    ensures { result ≡ wide_row_activity terms.now x.now }
{
    WideQuantity::new(down(terms_at(terms, x)?)?)
}

/// The value of a row at the columns' values. None exactly where 256 bits do not hold a sum on the way, or where its
/// absolute value is 2^110 or more.
#[tactic(auto, unfolding(crate::specs::Activity::wide_activity_of), using(crate::proofs::Inside::row_inside))]
pub fn activity(table: &WideTable, row: usize) -> Option<WideQuantity>
    requires sized { IsWideTable table.now }
    requires there { row < length table.now.rows }
    ensures { result ≡ wide_activity_of table.now row }
{
    row_value(table.rows.row(row), table.values.as_slice())
}
