// Rows that are put behind a table.
ghost use Rattle.std.specs.Prelude.{◌≡◌, ℕ, ◌+◌, ◌+ℤ◌, ◌<◌, ◌≤◌, ◌≤ℤ◌, pos, negsuc, length, All, Some, true, false, IfOk, OnOk};
ghost use Rattle.lp_program.specs.Proper.{AreRising};
ghost use Rattle.lp_program.specs.declared.programs.LpRow.{LpRow};
ghost use Rattle.lp_table.specs.Shape.{IsTable};
ghost use Rattle.lp_table.specs.Shape as shape;
ghost use Rattle.lp_scale.specs.Walks.{GivesWalked};
ghost use Rattle.std.specs.Option.{option_and_then};
ghost use Rattle.lp_table.specs.Numbers.{bits_of, cell_of, coefficient_of, shift_of};
ghost use Rattle.lp_scale.specs.Spans.{span_of};
ghost use Rattle.lp_scale.specs.Exponents.{weight_of, AreUpTo};
ghost use Rattle.lp_scale.specs.Scaling.{AreSmall};
ghost use Rattle.lp_scale.specs.Appending.{row_scale, scaled_term, scaled_terms, with_appended_row, appended_row, appended_cut, appended, AreBelow};

use crate::exponents::{exponent_at, weight};
use crate::scaling::{power, room};
use crate::sides::{Sides, scaled_sides};
use crate::spans::{Span, join};
use base_num::{List, Memory};
use lp_program::{Fx, LpRow};
use lp_table::numbers::shift;
use lp_table::{Coefficient, WarmTable};
use std::alloc::Global;

// The span of the binary digits of a row's terms.
pub(crate) fn term_span(exponents: &[i32], terms: &[(u32, Fx)]) -> Option<Span>
    requires { AreUpTo 1000 exponents.now }
    ensures { result ≡ span_of (λ k t. Some (weight_of exponents.now t)) terms.now }
{
    let mut span = None;
    for k in 0..terms.len() {
        span = join(span, Some(weight(exponents, terms[k])));
    }
    span
}

/// The exponent of a row.
#[tactic(auto, unfolding(crate::specs::Appending::row_scale))]
pub fn row_scale(exponents: &[i32], terms: &[(u32, Fx)]) -> i32
    requires { AreUpTo 1000 exponents.now }
    ensures value { result ≡ row_scale exponents.now terms.now }
    ensures least { negsuc 1299 ≤ℤ result }
    ensures greatest { result ≤ℤ pos 1300 }
    ensures fits { AreBelow exponents.now result terms.now }
{
    room(32, term_span(exponents, terms))
}

// Puts a row behind the others.
fn push_row(
    table: &mut WarmTable,
    exponent: i32,
    terms: &[(u32, Coefficient)],
    sides: Sides,
) -> Result<(), Memory>
    ensures { OnOk result (table.new ≡ with_appended_row exponent terms.now sides table.old) }
{
    table.scales.rows.push(exponent)?;
    table.rows.push(terms)?;
    table.bounds.lows.push(sides.low)?;
    table.bounds.ups.push(sides.up)?;
    table.bounds.has_low.push(sides.has_low)?;
    table.bounds.has_up.push(sides.has_up)?;
    table.basis.places.push(None)?;
    Ok(())
}

// The number times 2^exponent, as a coefficient.
fn narrow_coefficient(number: i128, exponent: i32) -> Option<Coefficient>
    ensures { result ≡ option_and_then coefficient_of (shift_of number exponent) }
{
    Coefficient::new(shift(number, exponent)?)
}

// The number times 2^exponent. It is at most 2^40 where it then has at most 40 binary digits.
fn coefficient(number: i128, exponent: i32) -> Option<Coefficient>
    requires { (pos (bits_of number) +ℤ exponent) ≤ℤ pos 40 }
    ensures { result ≡ option_and_then cell_of (shift_of number exponent) }
{
    narrow_coefficient(number, exponent)
}

// A term of a row with an exponent by which its terms have at most 32 binary digits, scaled.
#[tactic(auto, unfolding(crate::specs::Appending::scaled_term, crate::specs::Scaling::scaled_cell))]
fn scaled_term(exponents: &[i32], exponent: i32, term: (u32, Fx)) -> Option<(u32, Coefficient)>
    requires exponents { AreUpTo 1000 exponents.now }
    requires least { negsuc 1299 ≤ℤ exponent }
    requires greatest { exponent ≤ℤ pos 1300 }
    requires fits { (exponent +ℤ weight_of exponents.now term) ≤ℤ pos 32 }
    ensures { result ≡ scaled_term exponents.now exponent term }
{
    let power = power(exponent, exponent_at(exponents, term.0 as usize));
    Some((term.0, coefficient(term.1.0, power)?))
}

/// Writes the terms of a row, scaled. False exactly where one is out of range. [`Memory`] where memory was refused.
#[tactic(auto, unfolding(crate::specs::Appending::scaled_terms))]
pub fn scale_terms(
    exponents: &[i32],
    exponent: i32,
    terms: &[(u32, Fx)],
    found: &mut List<(u32, Coefficient)>,
) -> Result<bool, Memory>
    requires exponents { AreUpTo 1000 exponents.now }
    requires least { negsuc 1299 ≤ℤ exponent }
    requires greatest { exponent ≤ℤ pos 1300 }
    requires fits { AreBelow exponents.now exponent terms.now }
    ensures { IfOk result (λ made. GivesWalked made (scaled_terms exponents.now exponent terms.now) found.new) }
{
    found.clear();
    for k in 0..terms.len() {
        match scaled_term(exponents, exponent, terms[k]) {
            Some(term) => found.push(term)?,
            None => return Ok(false),
        }
    }
    Ok(true)
}

/// Puts a row behind the others, which makes a table of a table. [`Memory`] where memory was refused.
pub fn put_row(
    table: &mut WarmTable,
    exponent: i32,
    terms: &[(u32, Coefficient)],
    sides: Sides,
) -> Result<(), Memory>
    requires whole { IsTable table.old }
    requires rising { shape.AreTermsRising 0 (length table.old.costs) terms.now }
    requires least { negsuc 1299 ≤ℤ exponent }
    requires greatest { exponent ≤ℤ pos 1300 }
    ensures value { OnOk result (table.new ≡ with_appended_row exponent terms.now sides table.old) }
    ensures whole { OnOk result (IsTable table.new) }
    ensures small { OnOk result ((most : ℕ) → AreSmall most table.old.scales → AreSmall most table.new.scales) }
    ensures count { OnOk result (length table.new.costs ≡ length table.old.costs) }
{
    push_row(table, exponent, terms, sides)
}

// Puts a row of a program behind the others: its terms and sides, scaled, and its slack, which is basic. The answer is false
// exactly where a number leaves its range: the table is then as it was. Nothing is promised of it where memory was refused.
// `scaled` is for work.
#[tactic(auto, unfolding(crate::specs::Appending::appended_row))]
fn append_row(
    table: &mut WarmTable,
    row: &LpRow,
    scaled: &mut List<(u32, Coefficient)>,
) -> Result<bool, Memory>
    requires whole { IsTable table.old }
    requires small { AreSmall 1000 table.old.scales }
    requires rising { AreRising 0 (length table.old.costs) row.now.terms }
    ensures value { IfOk result (λ made. GivesWalked made (appended_row row.now table.old) table.new) }
    ensures kept { IfOk result (λ made. made ≡ false → table.new ≡ table.old) }
    ensures whole { IfOk result (λ made. made ≡ true → IsTable table.new) }
    ensures small { IfOk result (λ made. made ≡ true → (most : ℕ) → AreSmall most table.old.scales → AreSmall most table.new.scales) }
    ensures count { IfOk result (λ made. made ≡ true → length table.new.costs ≡ length table.old.costs) }
{
    let terms = row.terms.as_slice();
    let exponent = row_scale(table.scales.columns.as_slice(), terms);
    let whole = scale_terms(table.scales.columns.as_slice(), exponent, terms, scaled)?;
    match scaled_sides(exponent + table.scales.values, row) {
        Some(sides) if whole => {
            put_row(table, exponent, scaled.as_slice(), sides)?;
            Ok(true)
        }
        _ => Ok(false),
    }
}

/// Puts the row of a cut behind the others, which is the program's row i: its terms and sides, scaled, and its slack, which is
/// basic. The answer is false exactly where a number leaves its range: the table is then as it was. [`Memory`] where memory
/// was refused: nothing is promised of the table then. `scaled` is for work.
#[tactic(auto, unfolding(crate::specs::Appending::appended_cut))]
pub fn append_cut(
    table: &mut WarmTable,
    i: usize,
    row: &LpRow,
    scaled: &mut List<(u32, Coefficient)>,
) -> Result<bool, Memory>
    requires whole { IsTable table.old }
    requires small { AreSmall 1000 table.old.scales }
    requires rising { AreRising 0 (length table.old.costs) row.now.terms }
    ensures value { IfOk result (λ made. GivesWalked made (appended_cut i row.now table.old) table.new) }
    ensures kept { IfOk result (λ made. made ≡ false → table.new ≡ table.old) }
    ensures whole { IfOk result (λ made. made ≡ true → IsTable table.new) }
    ensures small { IfOk result (λ made. made ≡ true → (most : ℕ) → AreSmall most table.old.scales → AreSmall most table.new.scales) }
    ensures count { IfOk result (λ made. made ≡ true → length table.new.costs ≡ length table.old.costs) }
{
    if !append_row(table, row, scaled)? {
        return Ok(false);
    }
    table.cuts.rows.push(i)?;
    Ok(true)
}

/// Puts some rows of a program behind the others, one after the other. The answer is false exactly
/// where a number leaves its range: nothing is promised of the table then. [`Memory`] where memory
/// was refused.
pub(crate) fn append(alloc: Global, table: &mut WarmTable, rows: &[LpRow]) -> Result<bool, Memory>
    requires whole { IsTable table.old }
    requires small { AreSmall 1000 table.old.scales }
    requires rising { All (λ (r : LpRow). AreRising 0 (length table.old.costs) r.terms) rows.now }
    ensures value { IfOk result (λ made. GivesWalked made (appended rows.now table.old) table.new) }
    ensures whole { IfOk result (λ made. made ≡ true → IsTable table.new) }
    ensures small { IfOk result (λ made. made ≡ true → (most : ℕ) → AreSmall most table.old.scales → AreSmall most table.new.scales) }
    ensures count { IfOk result (λ made. made ≡ true → length table.new.costs ≡ length table.old.costs) }
{
    let mut scaled = List::new(alloc);
    for i in 0..rows.len() {
        if !append_row(table, &rows[i], &mut scaled)? {
            return Ok(false);
        }
    }
    Ok(true)
}
