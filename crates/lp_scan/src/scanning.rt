// Cuts that come in because the point of a table violates them.
ghost use Rattle.std.specs.Prelude.{◌≡◌, ◌≤ℤ◌, ◌==◌, pos, negsuc, true, not, length, Some, IfOk, OnOk, IfSome, OnSome};
ghost use Rattle.std.specs.List.{list_any};
ghost use Rattle.std.specs.Option.{option_map};
ghost use Rattle.lp_program.specs.Proper.{IsProper, AreRising};
ghost use Rattle.lp_table.specs.Shape.{IsTable};
ghost use Rattle.lp_table.specs.Shape as shape;
ghost use Rattle.lp_scale.specs.Walks.{GivesWalked};
ghost use Rattle.lp_scale.specs.Scaling.{AreSmall};
ghost use Rattle.lp_scale.specs.Fitting.{Fits};
ghost use Rattle.lp_scale.specs.Appending.{with_appended_row, with_cut, appended_row, appended_cut};
ghost use Rattle.lp_scan.specs.Values.{states_of, greatest_cuts, IsCutRow, AreBestCuts};
ghost use Rattle.lp_scan.specs.Scan.{scanned, is_value_below, where_violated, with_asked, asked_by, asked_for, scan_of};
ghost use Rattle.lp_scan.specs.Steps.{Grows, Asks, Scans};

use crate::greatest::write_greatest;
use crate::packed::LeavingStates;
use crate::values::write_states;
use base_num::{List, Memory};
use lp_pivot::sums::row_value;
use lp_price::found::points;
use lp_program::{Fx, LpRow, StageLp, blank_row};
use lp_scale::appending::{put_row, row_scale, scale_terms};
use lp_scale::sides::{Sides, scaled_sides};
use lp_table::{Coefficient, Quantity, WarmTable};
use std::alloc::Global;
use std::marker::Model;

/// The outcome of a scan.
#[derive(Clone, Copy)]
pub enum Scan {
    /// Rows came in.
    Adds,
    /// No row came in.
    Rests,
    /// A number left its range. Rows that came in before stay.
    Stops,
}

/// Lists for the work of scans, kept from one to the next. No scan depends on what they hold.
#[derive(Drop)]
pub struct Room {
    work: ScanWork,
}

// Numbers that a scan works out on its way, from the point of the table to the rows that come in.
#[derive(Drop)]
struct ScanWork {
    // The point of the table.
    point: List<Fx>,
    // The decisions at that point at which cuts are compared.
    states: List<i128>,
    // The states that leave the stage, and bounds of cuts there.
    leaving: LeavingStates,
    // For each column the row of the greatest of its cuts that wait, and its value.
    greatest: List<Option<(usize, i128)>>,
    // The last row that was looked at.
    added: AddedRow,
}

// A row that may come in, and its scaled terms.
#[derive(Drop)]
struct AddedRow {
    row: LpRow,
    scaled: List<(u32, Coefficient)>,
}

impl Model for Room {
    ghost use Rattle.std.specs.Prelude.{⊤};

    ghost Value = { ⊤ };

    ghost view = { λ _. tt };
}

impl Room {
    /// Makes lists that hold nothing.
    pub fn new(alloc: Global) -> Room {
        let work = ScanWork {
            point: List::new(alloc),
            states: List::new(alloc),
            leaving: LeavingStates::new(alloc),
            greatest: List::new(alloc),
            added: AddedRow {
                row: blank_row(alloc),
                scaled: List::new(alloc),
            },
        };
        Room { work }
    }
}

// Tells whether a row has a place among some rows.
fn is_in(rows: &[usize], row: usize) -> bool
    ensures { result ≡ list_any (λ k. k == row) rows.now }
{
    rows.iter().any(|k| *k == row)
}

// Tells whether the value of a row is below its lower side by more than may be passed. It is not where the value is no quantity.
fn is_below(low: Quantity, value: Option<Quantity>) -> bool
    ensures { result ≡ is_value_below low value }
{
    match value {
        None => false,
        Some(value) => value.number() < low.number() - (1 << 12),
    }
}

// Puts the row of a cut behind the others, which is the program's row i.
fn put_cut(
    table: &mut WarmTable,
    i: usize,
    exponent: i32,
    terms: &[(u32, Coefficient)],
    sides: Sides,
    lp: &StageLp,
) -> Result<(), Memory>
    requires fits { Fits table.old lp.now }
    requires cut { IsCutRow lp.now i }
    requires rising { shape.AreTermsRising 0 (length table.old.costs) terms.now }
    requires least { negsuc 1299 ≤ℤ exponent }
    requires greatest { exponent ≤ℤ pos 1300 }
    ensures value { OnOk result (table.new ≡ with_cut i (with_appended_row exponent terms.now sides table.old)) }
    ensures fits { OnOk result (Fits table.new lp.now) }
    ensures grows { OnOk result (Grows table.old table.new) }
{
    put_row(table, exponent, terms, sides)?;
    table.cuts.rows.push(i)?;
    Ok(())
}

// Puts the row of a cut behind the others, where the point violates it.
fn put_violated(
    table: &mut WarmTable,
    i: usize,
    exponent: i32,
    terms: &[(u32, Coefficient)],
    sides: Sides,
    lp: &StageLp,
) -> Result<(), Memory>
    requires fits { Fits table.old lp.now }
    requires cut { IsCutRow lp.now i }
    requires rising { shape.AreTermsRising 0 (length table.old.costs) terms.now }
    requires least { negsuc 1299 ≤ℤ exponent }
    requires greatest { exponent ≤ℤ pos 1300 }
    ensures value { OnOk result (where_violated table.old (Some (with_cut i (with_appended_row exponent terms.now sides table.old))) ≡ Some table.new) }
    ensures fits { OnOk result (Fits table.new lp.now) }
    ensures grows { OnOk result (Grows table.old table.new) }
{
    if is_below(sides.low, row_value(terms, table.values.as_slice())) {
        put_cut(table, i, exponent, terms, sides, lp)
    } else {
        Ok(())
    }
}

// Finds the exponent and the sides of a row of a program, whose terms are written scaled. None where a number leaves its range.
#[tactic(auto, unfolding(lp_scale::specs::Appending::appended_row))]
fn scale_row(
    table: &WarmTable,
    row: &LpRow,
    scaled: &mut List<(u32, Coefficient)>,
) -> Result<Option<(i32, Sides)>, Memory>
    requires whole { IsTable table.now }
    requires small { AreSmall 1000 table.now.scales }
    requires rising { AreRising 0 (length table.now.costs) row.now.terms }
    ensures value { IfOk result (λ made. appended_row row.now table.now ≡ option_map (λ m. with_appended_row m.0 scaled.new m.1 table.now) made) }
    ensures rising { IfOk result (λ made. OnSome made (shape.AreTermsRising 0 (length table.now.costs) scaled.new)) }
    ensures least { IfOk result (λ made. IfSome made (λ m. negsuc 1299 ≤ℤ m.0)) }
    ensures greatest { IfOk result (λ made. IfSome made (λ m. m.0 ≤ℤ pos 1300)) }
{
    let terms = row.terms.as_slice();
    let exponent = row_scale(table.scales.columns.as_slice(), terms);
    if !scale_terms(table.scales.columns.as_slice(), exponent, terms, scaled)? {
        return Ok(None);
    }
    match scaled_sides(exponent + table.scales.values, row) {
        Some(sides) => Ok(Some((exponent, sides))),
        None => Ok(None),
    }
}

// Brings in the cut that is the program's row i, where the point violates it. False where a number leaves its range: the
// table is then as it was.
#[tactic(auto, unfolding(lp_scale::specs::Appending::appended_cut))]
fn add_violated(
    lp: &StageLp,
    table: &mut WarmTable,
    i: usize,
    row: &LpRow,
    scaled: &mut List<(u32, Coefficient)>,
) -> Result<bool, Memory>
    requires fits { Fits table.old lp.now }
    requires cut { IsCutRow lp.now i }
    requires rising { AreRising 0 (length table.old.costs) row.now.terms }
    ensures value { IfOk result (λ whole. Asks whole (where_violated table.old (appended_cut i row.now table.old)) table.old table.new) }
    ensures fits { OnOk result (Fits table.new lp.now) }
    ensures grows { OnOk result (Grows table.old table.new) }
{
    match scale_row(table, row, scaled)? {
        None => Ok(false),
        Some((exponent, sides)) => {
            put_violated(table, i, exponent, scaled.as_slice(), sides, lp)?;
            Ok(true)
        }
    }
}

// Brings in the cut that is the program's row i, where it is not in yet and the point violates it.
#[tactic(auto, unfolding(crate::specs::Scan::with_asked))]
fn ask_for(
    lp: &StageLp,
    table: &mut WarmTable,
    i: usize,
    added: &mut AddedRow,
) -> Result<bool, Memory>
    requires proper { IsProper lp.now }
    requires fits { Fits table.old lp.now }
    requires cut { IsCutRow lp.now i }
    ensures value { IfOk result (λ whole. Asks whole (with_asked lp.now i table.old) table.old table.new) }
    ensures fits { OnOk result (Fits table.new lp.now) }
    ensures grows { OnOk result (Grows table.old table.new) }
{
    if is_in(table.cuts.rows.as_slice(), i) {
        Ok(true)
    } else {
        lp.write_row(i, &mut added.row)?;
        add_violated(lp, table, i, &added.row, &mut added.scaled)
    }
}

// Adds the greatest cut of a column, where there is one and the point violates it.
fn ask(
    lp: &StageLp,
    table: &mut WarmTable,
    best: Option<(usize, i128)>,
    added: &mut AddedRow,
) -> Result<bool, Memory>
    requires proper { IsProper lp.now }
    requires fits { Fits table.old lp.now }
    requires cut { IfSome best (λ v. IsCutRow lp.now v.0) }
    ensures value { IfOk result (λ whole. Asks whole (asked_by lp.now best table.old) table.old table.new) }
    ensures fits { OnOk result (Fits table.new lp.now) }
    ensures grows { OnOk result (Grows table.old table.new) }
{
    match best {
        None => Ok(true),
        Some(best) => ask_for(lp, table, best.0, added),
    }
}

// Adds the greatest cuts of all columns, where the point violates them, one after the other, until a number leaves its range.
fn ask_all(
    lp: &StageLp,
    table: &mut WarmTable,
    greatest: &[Option<(usize, i128)>],
    added: &mut AddedRow,
) -> Result<bool, Memory>
    requires proper { IsProper lp.now }
    requires fits { Fits table.old lp.now }
    requires cuts { AreBestCuts lp.now greatest.now }
    ensures value { IfOk result (λ whole. asked_for lp.now greatest.now table.old ≡ scanned (not whole) table.new) }
    ensures fits { OnOk result (Fits table.new lp.now) }
    ensures grows { OnOk result (Grows table.old table.new) }
{
    for k in 0..greatest.len() {
        if !ask(lp, table, greatest[k], added)? {
            return Ok(false);
        }
    }
    Ok(true)
}

// Brings in the greatest cuts of all columns, where the point violates them.
fn bring_in(
    lp: &StageLp,
    table: &mut WarmTable,
    greatest: &[Option<(usize, i128)>],
    added: &mut AddedRow,
) -> Result<Scan, Memory>
    requires proper { IsProper lp.now }
    requires fits { Fits table.old lp.now }
    requires cuts { AreBestCuts lp.now greatest.now }
    ensures value { IfOk result (λ scan. Scans scan (asked_for lp.now greatest.now table.old) table.old table.new) }
    ensures fits { OnOk result (Fits table.new lp.now) }
    ensures grows { OnOk result (Grows table.old table.new) }
{
    let before = table.rows.len();
    if !ask_all(lp, table, greatest, added)? {
        return Ok(Scan::Stops);
    }
    if before < table.rows.len() {
        Ok(Scan::Adds)
    } else {
        Ok(Scan::Rests)
    }
}

// Writes for each column the greatest of its cuts that wait. False where a number on the way leaves 128 bits.
#[tactic(auto, unfolding(crate::specs::Values::states_of))]
fn look_up(lp: &StageLp, table: &WarmTable, work: &mut ScanWork) -> Result<bool, Memory>
    requires proper { IsProper lp.now }
    requires fits { Fits table.now lp.now }
    ensures value { IfOk result (λ whole. GivesWalked whole (option_map (greatest_cuts lp.now table.now.cuts.waiting) (states_of table.now lp.now)) work.new.greatest) }
    ensures cuts { IfOk result (λ whole. whole ≡ true → AreBestCuts lp.now work.new.greatest) }
{
    if !points(table, lp, &mut work.point)? {
        return Ok(false);
    }
    write_states(work.point.as_slice(), &mut work.states)?;
    write_greatest(
        &mut work.greatest,
        table.cuts.waiting.as_slice(),
        work.states.as_slice(),
        lp,
        &mut work.leaving,
        &mut work.added.row,
    )?;
    Ok(true)
}

/// Brings in the greatest waiting cut of each successor at the point of a table, where it is not in yet and the point
/// violates it. [`Memory`] where memory was refused: nothing is promised of the table then.
#[tactic(auto, unfolding(crate::specs::Scan::scan_of))]
pub fn scan_cuts(lp: &StageLp, table: &mut WarmTable, room: &mut Room) -> Result<Scan, Memory>
    requires proper { IsProper lp.now }
    requires fits { Fits table.old lp.now }
    ensures value { IfOk result (λ scan. Scans scan (scan_of lp.now table.old) table.old table.new) }
    ensures fits { OnOk result (Fits table.new lp.now) }
    ensures grows { OnOk result (Grows table.old table.new) }
{
    if table.rows.len() == lp.row_count() {
        return Ok(Scan::Rests);
    }
    if !look_up(lp, table, &mut room.work)? {
        return Ok(Scan::Stops);
    }
    bring_in(
        lp,
        table,
        room.work.greatest.as_slice(),
        &mut room.work.added,
    )
}
