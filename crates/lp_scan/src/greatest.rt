// Find the greatest at a point of each successor's cuts that wait.
ghost use Rattle.std.specs.Prelude.{◌≡◌, ◌<◌, ◌+◌, ◌^◌, true, length, drop, replicate, All, None, IfSome, OnOk};
ghost use Rattle.lp_program.specs.Packed.{rows_of, IsView};
ghost use Rattle.lp_program.specs.Proper.{IsProper};
ghost use Rattle.lp_program.specs.declared.programs.LpRow.{LpRow};
ghost use Rattle.lp_scale.specs.Walks.{walk};
ghost use Rattle.lp_scale.specs.Waiting.{last_column, waits};
ghost use Rattle.lp_scan.specs.Values.{is_value_greater, greatest_step, greatest_cuts, AreWaitingCutsWithin, AreBestCuts, IsValueWithin};

use crate::packed::{LeavingStates, Lookup, take_packed, write_leaving};
use crate::refilled::refill;
use crate::values::cut_value;
use base_num::{List, Memory};
use lp_program::{Cuts, LpRow, PackedView, StageLp};
use lp_scale::waiting::last_column;

// Tells whether a value is above the greatest so far.
pub(crate) fn is_greater(best: &Option<(usize, i128)>, value: i128) -> bool
    ensures { result ≡ is_value_greater best.now value }
{
    match best {
        None => true,
        Some(best) => best.1 < value,
    }
}

// Looks at a row of the program, and keeps it where it is the greatest so far.
#[tactic(auto, unfolding(crate::specs::Values::greatest_step))]
fn take_row(
    greatest: &mut [Option<(usize, i128)>],
    waiting: &[bool],
    states: &[i128],
    i: usize,
    row: &LpRow,
)
    requires column { IfSome (last_column row.now.terms) (λ j. j < length greatest.old) }
    requires waiting { length waiting.now ≡ length greatest.old }
    requires within { waits waiting.now row.now ≡ true → IsValueWithin states.now row.now }
    ensures value { greatest.new ≡ greatest_step waiting.now states.now i greatest.old row.now }
    ensures count { length greatest.new ≡ length greatest.old }
{
    if let Some(column) = last_column(row.terms.as_slice()) {
        if waiting[column] {
            let value = cut_value(states, row);
            if is_greater(&greatest[column], value) {
                greatest[column] = Some((i, value));
            }
        }
    }
}

// Looks at cuts that are listed.
fn take_rows(greatest: &mut [Option<(usize, i128)>], lookup: &Lookup, cuts: &[LpRow])
    requires few { lookup.now.first + length cuts.now < 2 ^ 64 }
    requires columns { All (λ (r : LpRow). IfSome (last_column r.terms) (λ j. j < length greatest.old)) cuts.now }
    requires waiting { length lookup.now.waiting.now ≡ length greatest.old }
    requires within { All (λ (r : LpRow). waits lookup.now.waiting.now r ≡ true → IsValueWithin lookup.now.states.now r) cuts.now }
    ensures value { greatest.new ≡ walk (λ i bests (r : LpRow). greatest_step lookup.now.waiting.now lookup.now.states.now i bests r) lookup.now.first greatest.old cuts.now }
    ensures count { length greatest.new ≡ length greatest.old }
{
    for k in 0..cuts.len() {
        take_row(
            greatest,
            lookup.waiting,
            lookup.states,
            lookup.first + k,
            &cuts[k],
        );
    }
}

// Counts the rows before the cuts.
fn rows_before(lp: &StageLp) -> usize
    requires { IsProper lp.now }
    ensures value { result ≡ lp.now.own }
    ensures few { result + length (drop lp.now.own lp.now.rows) < 2 ^ 64 }
{
    lp.own().min(lp.row_count())
}

// Looks at all cuts, of which each is written as a row first.
fn take_written(
    greatest: &mut [Option<(usize, i128)>],
    lookup: &Lookup,
    lp: &StageLp,
    row: &mut LpRow,
) -> Result<(), Memory>
    requires columns { All (λ (r : LpRow). IfSome (last_column r.terms) (λ j. j < length greatest.old)) (drop lookup.now.first lp.now.rows) }
    requires waiting { length lookup.now.waiting.now ≡ length greatest.old }
    requires within { All (λ (r : LpRow). waits lookup.now.waiting.now r ≡ true → IsValueWithin lookup.now.states.now r) (drop lookup.now.first lp.now.rows) }
    ensures value { OnOk result (greatest.new ≡ walk (λ i bests (r : LpRow). greatest_step lookup.now.waiting.now lookup.now.states.now i bests r) lookup.now.first greatest.old (drop lookup.now.first lp.now.rows)) }
    ensures count { length greatest.new ≡ length greatest.old }
{
    for i in lookup.first..lp.row_count() {
        lp.write_row(i, row)?;
        take_row(greatest, lookup.waiting, lookup.states, i, row);
    }
    Ok(())
}

// Looks at all cuts, where these stand side by side.
fn take_view(
    greatest: &mut [Option<(usize, i128)>],
    lookup: &Lookup,
    lp: &StageLp,
    view: &PackedView,
    leaving: &mut LeavingStates,
    row: &mut LpRow,
) -> Result<(), Memory>
    requires view { IsView view.now }
    requires cuts { rows_of view.now ≡ drop lookup.now.first lp.now.rows }
    requires rows { lookup.now.first + length (rows_of view.now) < 2 ^ 64 }
    requires columns { All (λ (r : LpRow). IfSome (last_column r.terms) (λ j. j < length greatest.old)) (drop lookup.now.first lp.now.rows) }
    requires waiting { length lookup.now.waiting.now ≡ length greatest.old }
    requires within { All (λ (r : LpRow). waits lookup.now.waiting.now r ≡ true → IsValueWithin lookup.now.states.now r) (drop lookup.now.first lp.now.rows) }
    ensures value { OnOk result (greatest.new ≡ walk (λ i bests (r : LpRow). greatest_step lookup.now.waiting.now lookup.now.states.now i bests r) lookup.now.first greatest.old (drop lookup.now.first lp.now.rows)) }
    ensures count { length greatest.new ≡ length greatest.old }
{
    if write_leaving(lookup.states, view.outs.as_slice(), &mut leaving.states)? {
        take_packed(greatest, lookup, leaving, view);
        Ok(())
    } else {
        take_written(greatest, lookup, lp, row)
    }
}

// Looks at all cuts.
#[tactic(auto, unfolding(crate::specs::Values::greatest_cuts))]
fn take_all(
    greatest: &mut [Option<(usize, i128)>],
    waiting: &[bool],
    states: &[i128],
    lp: &StageLp,
    leaving: &mut LeavingStates,
    row: &mut LpRow,
) -> Result<(), Memory>
    requires proper { IsProper lp.now }
    requires blank { greatest.old ≡ replicate (length lp.now.columns) None }
    requires waiting { length waiting.now ≡ length lp.now.columns }
    requires within { AreWaitingCutsWithin waiting.now states.now lp.now }
    ensures value { OnOk result (greatest.new ≡ greatest_cuts lp.now waiting.now states.now) }
    ensures count { length greatest.new ≡ length greatest.old }
{
    let first = rows_before(lp);
    let lookup = Lookup {
        waiting: &*waiting,
        states: &*states,
        first,
    };
    match lp.cuts() {
        Cuts::Listed(cuts) => {
            take_rows(greatest, &lookup, cuts);
            Ok(())
        }
        Cuts::Packed(view) => take_view(greatest, &lookup, lp, view, leaving, row),
    }
}

/// Writes for each column the row of the greatest of its cuts that wait, and its value, at some states. Writes beside it the
/// outgoing states and bounds, where cuts stand side by side, and may write a row. [`Memory`] where memory was refused.
pub fn write_greatest(
    greatest: &mut List<Option<(usize, i128)>>,
    waiting: &[bool],
    states: &[i128],
    lp: &StageLp,
    leaving: &mut LeavingStates,
    row: &mut LpRow,
) -> Result<(), Memory>
    requires proper { IsProper lp.now }
    requires waiting { length waiting.now ≡ length lp.now.columns }
    requires within { AreWaitingCutsWithin waiting.now states.now lp.now }
    ensures value { OnOk result (greatest.new ≡ greatest_cuts lp.now waiting.now states.now) }
    ensures cuts { OnOk result (AreBestCuts lp.now greatest.new) }
{
    refill(greatest, lp.columns().len(), None)?;
    take_all(greatest.as_mut_slice(), waiting, states, lp, leaving, row)
}
