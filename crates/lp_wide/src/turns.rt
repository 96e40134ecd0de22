// Turns of the bounded dual simplex method on a table in place.
ghost use Rattle.std.specs.Prelude.{◌≡◌, false, IfOk};
ghost use Rattle.lp_program.specs.Proper.{IsProper};
ghost use Rattle.lp_wide_table.specs.Shape.{WideFits};
ghost use Rattle.lp_wide.specs.Steps.{Mends, WideTakesTurn};
ghost use Rattle.lp_wide.specs.Turns.{wide_by_pivoted_table, mended, wide_by_inspection, wide_inspection_of, wide_turn_on_table, wide_turns_on_table};

use crate::found::finish;
use crate::inspecting::{Mend, WideInspection, inspect_table};
use crate::pivots::pivot;
use crate::points::refine;
use base_num::Memory;
use lp_program::{Answer, StageLp};
use lp_wide_table::WideTable;
use std::alloc::Global;

/// The outcome of a turn.
pub enum Turn {
    /// Two variables changed places.
    Pivots,
    /// Nothing was mended.
    Idles,
    /// No point keeps all own rows.
    Ends(Answer),
    /// A number is out of range.
    Stops,
}

// The pivot that mends a violation.
#[tactic(auto, unfolding(crate::specs::Turns::mended), using(crate::proofs::Fitting::still_fits))]
fn exchange(lp: &StageLp, table: &mut WideTable, mend: Mend) -> Turn
    requires fits { WideFits table.old lp.now }
    requires mends { Mends table.old mend }
    ensures fits { WideFits table.new lp.now }
    ensures turn { WideTakesTurn result (wide_by_pivoted_table (mended table.old mend)) table.new }
{
    let Mend {
        violation,
        mut line,
        place,
        flips,
    } = mend;
    if pivot(
        table,
        &mut line,
        violation.variable,
        violation.above,
        place,
        flips.as_slice(),
    ) {
        Turn::Pivots
    } else {
        Turn::Stops
    }
}

// Takes a turn by the violations of a table with the values of its basis.
fn mend_table(alloc: Global, lp: &StageLp, table: &mut WideTable) -> Result<Turn, Memory>
    requires fits { WideFits table.old lp.now }
    requires proper { IsProper lp.now }
    ensures fits { WideFits table.new lp.now }
    ensures turn { IfOk result (λ turn. WideTakesTurn turn (wide_by_inspection table.old (wide_inspection_of lp.now table.old)) table.new) }
{
    match inspect_table(alloc, lp, table)? {
        WideInspection::Rests => Ok(Turn::Idles),
        WideInspection::Mends(mend) => Ok(exchange(lp, table, mend)),
        WideInspection::Shows(answer) => Ok(Turn::Ends(answer)),
        WideInspection::Stops => Ok(Turn::Stops),
    }
}

// Takes one turn.
#[tactic(auto, unfolding(crate::specs::Turns::wide_turn_on_table), using(crate::proofs::Fitting::still_fits))]
fn take_turn(alloc: Global, lp: &StageLp, table: &mut WideTable) -> Result<Turn, Memory>
    requires fits { WideFits table.old lp.now }
    requires proper { IsProper lp.now }
    ensures fits { WideFits table.new lp.now }
    ensures turn { IfOk result (λ turn. WideTakesTurn turn (wide_turn_on_table lp.now table.old) table.new) }
{
    if !refine(alloc, table)? {
        return Ok(Turn::Stops);
    }
    mend_table(alloc, lp, table)
}

/// Takes at most so many turns on a table, until there is an answer. None where a number is out of range, or where all are used
/// up. [`Memory`] where memory was refused.
pub fn take_turns(
    alloc: Global,
    lp: &StageLp,
    table: &mut WideTable,
    limit: usize,
) -> Result<Option<Answer>, Memory>
    requires fits { WideFits table.old lp.now }
    requires proper { IsProper lp.now }
    ensures { IfOk result (λ answer. answer ≡ wide_turns_on_table lp.now limit false table.old) }
{
    let mut idle = false;
    for _turn in 0..limit {
        match take_turn(alloc, lp, table)? {
            Turn::Pivots => idle = false,
            Turn::Idles => {
                if idle {
                    return finish(alloc, table, lp);
                }
                idle = true;
            }
            Turn::Ends(answer) => return Ok(Some(answer)),
            Turn::Stops => return Ok(None),
        }
    }
    Ok(None)
}
