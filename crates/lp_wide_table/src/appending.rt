// WideRows that are put behind a table.
ghost use Rattle.std.specs.Prelude.{◌≡◌, ◌≤ℤ◌, ◌+◌, ◌+ℤ◌, pos, negsuc, length, true, All, IfOk, OnOk};
ghost use Rattle.lp_program.specs.Proper.{AreRising};
ghost use Rattle.lp_program.specs.declared.programs.LpRow.{LpRow};
ghost use Rattle.lp_table.specs.Shape as shape;
ghost use Rattle.lp_table.specs.Updates.{GivesNew};
ghost use Rattle.lp_scale.specs.Exponents.{AreUpTo};
ghost use Rattle.lp_wide_table.specs.Shape.{IsWideTable};
ghost use Rattle.lp_wide_table.specs.Appending.{wide_scaled_side, wide_scaled_sides, wide_scaled_term, wide_scaled_terms, wide_with_appended_row, wide_appended_row, wide_appended};

use crate::ranged_numbers::{WideCell, WideQuantity};
use crate::scaling::{power, scaled_cell, scaled_value};
use crate::table::WideTable;
use base_num::{List, Memory};
use lp_program::{Fx, LpRow};
use lp_scale::appending::row_scale;
use lp_scale::exponents::exponent_at;
use std::alloc::Global;

/// The sides of a row, scaled.
#[derive(Clone, Copy)]
pub struct WideSides {
    /// The lower side, 0 where there is none.
    pub low: WideQuantity,
    /// The upper side, 0 where there is none.
    pub up: WideQuantity,
    /// Whether there is a lower side.
    pub has_low: bool,
    /// Whether there is an upper side.
    pub has_up: bool,
}

fn scaled_side(exponent: i32, side: Option<Fx>) -> Option<WideQuantity>
    ensures { result ≡ wide_scaled_side exponent side }
{
    match side {
        None => Some(WideQuantity::zero()),
        Some(side) => scaled_value(side, exponent),
    }
}

// The sides of a row times 2^exponent. None where one leaves its range.
#[tactic(auto, unfolding(crate::specs::Appending::wide_scaled_sides))]
fn scaled_sides(exponent: i32, row: &LpRow) -> Option<WideSides>
    ensures { result ≡ wide_scaled_sides exponent row.now }
{
    let low = scaled_side(exponent, row.low)?;
    let up = scaled_side(exponent, row.high)?;
    Some(WideSides {
        low,
        up,
        has_low: row.low.is_some(),
        has_up: row.high.is_some(),
    })
}

// A term of a row with an exponent, scaled.
#[tactic(auto, unfolding(crate::specs::Appending::wide_scaled_term))]
fn scaled_term(exponents: &[i32], exponent: i32, term: (u32, Fx)) -> Option<(u32, WideCell)>
    requires exponents { AreUpTo 1000 exponents.now }
    requires least { negsuc 1299 ≤ℤ exponent }
    requires greatest { exponent ≤ℤ pos 1300 }
    ensures { result ≡ wide_scaled_term exponents.now exponent term }
{
    let power = power(exponent, exponent_at(exponents, term.0 as usize));
    Some((term.0, scaled_cell(term.1, power)?))
}

// Writes the terms of a row, scaled. False where one is out of range.
#[tactic(auto, unfolding(crate::specs::Appending::wide_scaled_terms))]
fn scale_terms(
    exponents: &[i32],
    exponent: i32,
    terms: &[(u32, Fx)],
    found: &mut List<(u32, WideCell)>,
) -> Result<bool, Memory>
    requires exponents { AreUpTo 1000 exponents.now }
    requires least { negsuc 1299 ≤ℤ exponent }
    requires greatest { exponent ≤ℤ pos 1300 }
    ensures { IfOk result (λ made. GivesNew made (wide_scaled_terms exponents.now exponent terms.now) found.new) }
{
    found.clear();
    for k in 0..terms.len() {
        match scaled_term(exponents, exponent, terms[k]) {
            Some(term) => found.push(term)?,
            None => return Ok(false),
        }
    }
    Ok(true)
}

// Puts a row behind the others.
fn push_row(
    table: &mut WideTable,
    exponent: i32,
    terms: &[(u32, WideCell)],
    sides: WideSides,
) -> Result<(), Memory>
    ensures { OnOk result (table.new ≡ wide_with_appended_row exponent terms.now sides table.old) }
{
    table.scales.rows.push(exponent)?;
    table.rows.push(terms)?;
    table.bounds.lows.push(sides.low)?;
    table.bounds.ups.push(sides.up)?;
    table.bounds.has_low.push(sides.has_low)?;
    table.bounds.has_up.push(sides.has_up)?;
    table.basis.places.push(None)?;
    Ok(())
}

// Puts a row behind the others, which makes a table of a table.
fn put_row(
    table: &mut WideTable,
    exponent: i32,
    terms: &[(u32, WideCell)],
    sides: WideSides,
) -> Result<(), Memory>
    requires whole { IsWideTable table.old }
    requires rising { shape.AreTermsRising 0 (length table.old.costs) terms.now }
    requires least { negsuc 1299 ≤ℤ exponent }
    requires greatest { exponent ≤ℤ pos 1300 }
    ensures value { OnOk result (table.new ≡ wide_with_appended_row exponent terms.now sides table.old) }
    ensures whole { OnOk result (IsWideTable table.new) }
    ensures count { OnOk result (length table.new.costs ≡ length table.old.costs) }
    ensures rows { OnOk result (length table.new.rows ≡ length table.old.rows + 1) }
{
    push_row(table, exponent, terms, sides)
}

// Gives the power of two by which the sides of a row are scaled.
fn side_exponent(exponent: i32, values: i32) -> i32
    requires least { negsuc 1299 ≤ℤ exponent }
    requires greatest { exponent ≤ℤ pos 1300 }
    requires values_least { negsuc 1299 ≤ℤ values }
    requires values_greatest { values ≤ℤ pos 0 }
    ensures { result ≡ exponent +ℤ values +ℤ pos 32 }
{
    exponent + values + 32
}

// Puts a row of a program behind the others: its terms and sides, scaled, and its slack, which is
// basic. The answer is false exactly where a number leaves its range: nothing is promised of the
// table then. [`Memory`] where memory was refused. `scaled` is for work.
#[tactic(auto, unfolding(crate::specs::Appending::wide_appended_row))]
fn append_row(
    table: &mut WideTable,
    row: &LpRow,
    scaled: &mut List<(u32, WideCell)>,
) -> Result<bool, Memory>
    requires whole { IsWideTable table.old }
    requires rising { AreRising 0 (length table.old.costs) row.now.terms }
    ensures value { IfOk result (λ made. GivesNew made (wide_appended_row row.now table.old) table.new) }
    ensures whole { IfOk result (λ made. made ≡ true → IsWideTable table.new) }
    ensures count { IfOk result (λ made. made ≡ true → length table.new.costs ≡ length table.old.costs) }
    ensures rows { IfOk result (λ made. made ≡ true → length table.new.rows ≡ length table.old.rows + 1) }
{
    let terms = row.terms.as_slice();
    let exponent = row_scale(table.scales.columns.as_slice(), terms);
    let whole = scale_terms(table.scales.columns.as_slice(), exponent, terms, scaled)?;
    match scaled_sides(side_exponent(exponent, table.scales.values), row) {
        Some(sides) if whole => {
            put_row(table, exponent, scaled.as_slice(), sides)?;
            Ok(true)
        }
        _ => Ok(false),
    }
}

// Puts some rows of a program behind the others, one after the other. The answer is false exactly
// where a number leaves its range: nothing is promised of the table then. [`Memory`] where memory
// was refused.
pub(crate) fn append(alloc: Global, table: &mut WideTable, rows: &[LpRow]) -> Result<bool, Memory>
    requires whole { IsWideTable table.old }
    requires rising { All (λ (r : LpRow). AreRising 0 (length table.old.costs) r.terms) rows.now }
    ensures value { IfOk result (λ made. GivesNew made (wide_appended rows.now table.old) table.new) }
    ensures whole { IfOk result (λ made. made ≡ true → IsWideTable table.new) }
    ensures count { IfOk result (λ made. made ≡ true → length table.new.costs ≡ length table.old.costs) }
    ensures rows { IfOk result (λ made. made ≡ true → length table.new.rows ≡ length table.old.rows + length rows.now) }
{
    let mut scaled = List::new(alloc);
    for i in 0..rows.len() {
        if !append_row(table, &rows[i], &mut scaled)? {
            return Ok(false);
        }
    }
    Ok(true)
}
