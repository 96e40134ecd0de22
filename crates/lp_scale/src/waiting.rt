// Cuts that wait until a point violates them.
ghost use Rattle.std.specs.Prelude.{◌≡◌, ◌<◌, ◌≤◌, length, drop, All, IfOk, IfSome, OnOk};
ghost use Rattle.std.specs.List.{list_all};
ghost use Rattle.lp_program.specs.Packed.{rows_of, IsView};
ghost use Rattle.lp_program.specs.Proper.{IsProper, AreRising};
ghost use Rattle.lp_program.specs.declared.programs.LpRow.{LpRow};
ghost use Rattle.lp_scale.specs.Waiting.{last_column, slopes_of, is_short, is_short_side, is_narrow, closed, closed_by, all_closed, successors_of, waiting_of, waits};

use crate::exponents::{reach_at, reaches};
use crate::packed::are_narrow;
use base_num::{List, Memory};
use lp_program::{Cuts, Fx, LpRow, PackedView, StageLp};
use lp_table::numbers::bits;
use std::alloc::Global;

/// The column of a cut's last term, which is the successor's. None where there are no terms.
pub fn last_column(terms: &[(u32, Fx)]) -> Option<usize>
    ensures { result ≡ last_column terms.now }
{
    match terms.get(terms.len().saturating_sub(1)) {
        Some(term) => Some(term.0 as usize),
        None => None,
    }
}

/// The terms of a cut but the last: its slopes.
pub fn slopes(terms: &[(u32, Fx)]) -> &[(u32, Fx)]
    ensures { result.now ≡ slopes_of terms.now }
{
    let (front, _) = terms.split_at(terms.len().saturating_sub(1));
    front
}

// Tells whether a slope and the bounds of its column have few binary digits, by the reaches of the columns.
fn is_short(reaches: &[u32], term: (u32, Fx)) -> bool
    ensures { result ≡ is_short reaches.now term }
{
    bits(term.1.0) <= 65 && reach_at(reaches, term.0 as usize) <= 71
}

fn are_short(reaches: &[u32], slopes: &[(u32, Fx)]) -> bool
    ensures { result ≡ list_all (is_short reaches.now) slopes.now }
{
    slopes.iter().all(|term| is_short(reaches, *term))
}

// Tells whether a side is there, and has few binary digits.
fn is_short_side(side: Option<Fx>) -> bool
    ensures { result ≡ is_short_side side }
{
    match side {
        None => false,
        Some(side) => bits(side.0) <= 108,
    }
}

// Tells whether a cut's value at a point is a sum in 128 bits.
#[tactic(auto, unfolding(crate::specs::Waiting::is_narrow))]
fn is_narrow(reaches: &[u32], row: &LpRow) -> bool
    ensures { result ≡ is_narrow reaches.now row.now }
{
    let terms = row.terms.as_slice();
    is_short_side(row.low) && terms.len() <= 51 && are_short(reaches, slopes(terms))
}

// Cuts in this column do not wait.
fn close(waiting: &mut [bool], column: Option<usize>)
    requires { IfSome column (λ j. j < length waiting.old) }
    ensures { waiting.new ≡ closed waiting.old column }
{
    if let Some(column) = column {
        waiting[column] = false;
    }
}

// Ends the waiting of a successor's cuts where a row of theirs is not narrow.
fn close_by(reaches: &[u32], waiting: &mut [bool], row: &LpRow)
    requires { AreRising 0 (length waiting.old) row.now.terms }
    ensures value { waiting.new ≡ closed_by reaches.now waiting.old row.now }
    ensures count { length waiting.new ≡ length waiting.old }
{
    if !is_narrow(reaches, row) {
        close(waiting, last_column(row.terms.as_slice()));
    }
}

// Closes the columns of all successors that have a row that is not narrow.
fn close_all(reaches: &[u32], waiting: &mut [bool], cuts: &[LpRow])
    requires { All (λ (r : LpRow). AreRising 0 (length waiting.old) r.terms) cuts.now }
    ensures value { waiting.new ≡ all_closed reaches.now waiting.old cuts.now }
    ensures count { length waiting.new ≡ length waiting.old }
{
    for i in 0..cuts.len() {
        close_by(reaches, waiting, &cuts[i]);
    }
}

// Ends the waiting of a successor's cuts where one is not narrow; those that stand side by side are narrow in short columns.
fn close_packed(
    alloc: Global,
    reaches: &[u32],
    waiting: &mut [bool],
    lp: &StageLp,
    view: &PackedView,
) -> Result<(), Memory>
    requires proper { IsProper lp.now }
    requires count { length waiting.old ≡ length lp.now.columns }
    requires cuts { rows_of view.now ≡ drop lp.now.own lp.now.rows }
    requires view { IsView view.now }
    ensures value { OnOk result (waiting.new ≡ all_closed reaches.now waiting.old (drop lp.now.own lp.now.rows)) }
    ensures count { length waiting.new ≡ length waiting.old }
{
    if are_narrow(reaches, view) {
        return Ok(());
    }
    let program = lp.program(alloc)?;
    let (_, cuts) = program.rows.as_slice().split_at(program.own as usize);
    close_all(reaches, waiting, cuts);
    Ok(())
}

// Ends the waiting of the successors' cuts where one of a program is not narrow.
fn close_by_cuts(
    alloc: Global,
    reaches: &[u32],
    waiting: &mut [bool],
    lp: &StageLp,
) -> Result<(), Memory>
    requires proper { IsProper lp.now }
    requires count { length waiting.old ≡ length lp.now.columns }
    ensures value { OnOk result (waiting.new ≡ all_closed reaches.now waiting.old (drop lp.now.own lp.now.rows)) }
    ensures count { length waiting.new ≡ length waiting.old }
{
    match lp.cuts() {
        Cuts::Listed(cuts) => {
            close_all(reaches, waiting, cuts);
            Ok(())
        }
        Cuts::Packed(view) => close_packed(alloc, reaches, waiting, lp, view),
    }
}

// Gives for each column whether it is a successor's.
fn successors(alloc: Global, decisions: usize, count: usize) -> Result<List<bool>, Memory>
    requires { decisions ≤ count }
    ensures value { IfOk result (λ found. found ≡ successors_of decisions count) }
    ensures count { IfOk result (λ found. length found ≡ count) }
{
    let mut found = Vec::new(alloc);
    found.resize(decisions, false)?;
    found.resize(count, true)?;
    Ok(List::from_vec(found))
}

/// Gives for each column whether it is a successor's, all of whose cuts are narrow: these wait. [`Memory`] where memory was
/// refused.
#[tactic(auto, unfolding(crate::specs::Waiting::waiting_of))]
pub fn waiting(alloc: Global, lp: &StageLp) -> Result<List<bool>, Memory>
    requires { IsProper lp.now }
    ensures value { IfOk result (λ found. found ≡ waiting_of lp.now) }
    ensures count { IfOk result (λ found. length found ≡ length lp.now.columns) }
{
    let reaches = reaches(alloc, lp.columns())?;
    let mut found = successors(alloc, lp.decisions(), lp.columns().len())?;
    close_by_cuts(alloc, reaches.as_slice(), found.as_mut_slice(), lp)?;
    Ok(found)
}

/// Tells whether a cut waits.
#[tactic(auto, unfolding(crate::specs::Waiting::waits))]
pub fn waits(waiting: &[bool], row: &LpRow) -> bool
    ensures { result ≡ waits waiting.now row.now }
{
    match last_column(row.terms.as_slice()) {
        None => false,
        Some(column) => waiting.get(column).copied().unwrap_or(false),
    }
}
