// Rows that are written over others: copies of listed ones, and those of cuts that stand side by side.
ghost use Rattle.std.specs.Prelude.{◌≡◌, ◌<◌, ◌^◌, ◌++◌, neg_ℤ, length, get_or, slice_get, nat_abs, All, Some, OnOk};
ghost use Rattle.std.specs.List.{flat_map};
ghost use Rattle.lp_program.specs.PackedCut.{no_packed_cut};
ghost use Rattle.lp_program.specs.StageLps.{no_row};
ghost use Rattle.lp_program.specs.Packed.{at_scale, slope_term, packed_row, rows_of, IsView};

use crate::fixed::{Fx, ONE};
use crate::packed::{Out, PackedCuts, PackedView, slope_at};
use crate::programs::LpRow;
use base_num::{List, Memory};
use std::alloc::Global;

/// A row without sides and terms, to be written over.
pub fn blank_row(alloc: Global) -> LpRow
    ensures { result ≡ no_row }
{
    LpRow {
        low: None,
        high: None,
        terms: List::new(alloc),
    }
}

/// Copies a row over another. [`Memory`] where memory was refused.
pub(crate) fn copy_row(row: &LpRow, over: &mut LpRow) -> Result<(), Memory>
    ensures { OnOk result (over.new ≡ row.now) }
{
    over.low = row.low;
    over.high = row.high;
    copy_terms(row.terms.as_slice(), &mut over.terms)
}

fn copy_terms(terms: &[(u32, Fx)], over: &mut List<(u32, Fx)>) -> Result<(), Memory>
    ensures { OnOk result (over.new ≡ terms.now) }
{
    over.clear();
    for term in terms {
        over.push(*term)?;
    }
    Ok(())
}

// A number of the scale of cuts, in fixed point.
fn at_scale(number: i128) -> Fx
    requires { nat_abs number < 2 ^ 100 }
    ensures { result ≡ at_scale number }
{
    Fx(256 * number)
}

// A slope with the other sign, in fixed point.
fn negated(slope: i64) -> Fx
    requires { nat_abs slope < 2 ^ 57 }
    ensures { result ≡ at_scale (neg_ℤ slope) }
{
    Fx(256 * -i128::from(slope))
}

// Appends the term of a state, unless its slope is 0.
fn push_slope(terms: &mut List<(u32, Fx)>, out: Out, slopes: &[i64]) -> Result<(), Memory>
    requires { All (λ s. nat_abs s < 2 ^ 57) slopes.now }
    ensures { OnOk result (terms.new ≡ terms.old ++ slope_term slopes.now out) }
{
    let slope = slope_at(slopes, out.state as usize);
    if slope == 0 {
        return Ok(());
    }
    terms.push((out.decision, negated(slope)))
}

fn push_slopes(terms: &mut List<(u32, Fx)>, outs: &[Out], slopes: &[i64]) -> Result<(), Memory>
    requires { All (λ s. nat_abs s < 2 ^ 57) slopes.now }
    ensures { OnOk result (terms.new ≡ terms.old ++ flat_map (slope_term slopes.now) outs.now) }
{
    for out in outs {
        push_slope(terms, *out, slopes)?;
    }
    Ok(())
}

/// Writes the row of a cut over another. [`Memory`] where memory was refused.
pub(crate) fn write_packed_row(
    outs: &[Out],
    column: u32,
    cuts: &PackedCuts,
    place: usize,
    over: &mut LpRow,
) -> Result<(), Memory>
    requires { place < length cuts.now }
    ensures { OnOk result (over.new ≡ packed_row outs.now column (get_or cuts.now place no_packed_cut)) }
{
    over.low = Some(at_scale(cuts.height(place)));
    over.high = None;
    over.terms.clear();
    push_slopes(&mut over.terms, outs, cuts.slopes(place))?;
    over.terms.push((column, Fx(ONE)))
}

/// Writes the row of the cut at a number over another. [`Memory`] where memory was refused.
pub(crate) fn write_row_of(view: &PackedView, number: usize, over: &mut LpRow) -> Result<(), Memory>
    requires there { number < length (rows_of view.now) }
    requires view { IsView view.now }
    ensures { OnOk result (slice_get (rows_of view.now) number ≡ Some over.new) }
{
    let mut left = number;
    let mut column = view.first;
    for cuts in view.cuts.as_slice() {
        if left < cuts.len() {
            return write_packed_row(view.outs.as_slice(), column, cuts, left, over);
        }
        left -= cuts.len();
        column += 1;
    }
    Ok(())
}
