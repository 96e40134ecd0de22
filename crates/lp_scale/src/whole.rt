// The exponents of a whole program, its successors' columns among them.
ghost use Rattle.std.specs.Prelude.{◌≡◌, ◌≤ℤ◌, pos, negsuc, length, take, IfOk, OnOk};
ghost use Rattle.lp_program.specs.Proper.{IsProper};
ghost use Rattle.lp_scale.specs.Exponents.{AreUpTo};
ghost use Rattle.lp_scale.specs.Scaling.{AreSmall, values_scale};
ghost use Rattle.lp_scale.specs.Whole.{own_scales, all_scales, whole_scales};

use crate::exponents::columns;
use crate::scaling::{costs_scale, values_scale};
use crate::widening::{write_scales, write_spans};
use base_num::{List, Memory};
use lp_program::StageLp;
use lp_table::Scales;
use lp_table::lists::repeated;
use std::alloc::Global;

// The exponents of all columns by those of the decisions.
fn write_successors(
    alloc: Global,
    lp: &StageLp,
    values: i32,
    exponents: &mut [i32],
) -> Result<(), Memory>
    requires proper { IsProper lp.now }
    requires count { length exponents.old ≡ length lp.now.columns }
    requires range { AreUpTo 512 exponents.old }
    requires least { negsuc 1299 ≤ℤ values }
    requires greatest { values ≤ℤ pos 0 }
    ensures value { OnOk result (exponents.new ≡ all_scales lp.now exponents.old values) }
    ensures range { OnOk result (AreUpTo 1000 exponents.new) }
    ensures count { length exponents.new ≡ length exponents.old }
{
    let decisions = lp.decisions();
    let (_, successors) = lp.columns().split_at(decisions);
    let mut spans = repeated(alloc, exponents.len(), None)?;
    write_spans(alloc, exponents, spans.as_mut_slice(), lp)?;
    write_scales(values, spans.as_slice(), decisions, successors, exponents);
    Ok(())
}

// Writes the exponents of all columns into a list, by those of the decisions.
fn write_all(
    alloc: Global,
    lp: &StageLp,
    values: i32,
    exponents: &mut List<i32>,
) -> Result<(), Memory>
    requires proper { IsProper lp.now }
    requires count { length exponents.old ≡ length lp.now.columns }
    requires range { AreUpTo 512 exponents.old }
    requires least { negsuc 1299 ≤ℤ values }
    requires greatest { values ≤ℤ pos 0 }
    ensures value { OnOk result (exponents.new ≡ all_scales lp.now exponents.old values) }
    ensures range { OnOk result (AreUpTo 1000 exponents.new) }
    ensures count { length exponents.new ≡ length exponents.old }
{
    write_successors(alloc, lp, values, exponents.as_mut_slice())
}

// The exponents of the columns of a program's own part.
fn own_scales(alloc: Global, lp: &StageLp) -> Result<List<i32>, Memory>
    requires proper { IsProper lp.now }
    ensures value { IfOk result (λ exponents. exponents ≡ own_scales lp.now) }
    ensures range { IfOk result (AreUpTo 512) }
    ensures count { IfOk result (λ exponents. length exponents ≡ length lp.now.columns) }
{
    let (decisions, _) = lp.columns().split_at(lp.decisions());
    let own = lp.own_rows();
    columns(alloc, lp.columns().len(), decisions, own)
}

// The exponent of values, by those of decisions.
fn own_values(lp: &StageLp, exponents: &[i32]) -> i32
    requires proper { IsProper lp.now }
    requires range { AreUpTo 512 exponents.now }
    ensures value { result ≡ values_scale exponents.now (take lp.now.decisions lp.now.columns) }
    ensures least { negsuc 1299 ≤ℤ result }
    ensures greatest { result ≤ℤ pos 0 }
{
    let (decisions, _) = lp.columns().split_at(lp.decisions());
    values_scale(exponents, decisions)
}

/// The exponents of a whole program, by the digits of its numbers alone: those of its own part's columns and of values, as in
/// the first table, those of successors' columns by their cuts, and that of costs by all columns. Rows have none yet.
/// [`Memory`] where memory was refused.
#[tactic(auto, unfolding(crate::specs::Whole::whole_scales))]
pub fn whole_scales(alloc: Global, lp: &StageLp) -> Result<Scales, Memory>
    requires proper { IsProper lp.now }
    ensures value { IfOk result (λ scales. scales ≡ whole_scales lp.now) }
    ensures small { IfOk result (AreSmall 1000) }
    ensures count { IfOk result (λ scales. length scales.columns ≡ length lp.now.columns) }
    ensures rows { IfOk result (λ scales. length scales.rows ≡ 0) }
{
    let mut columns = own_scales(alloc, lp)?;
    let values = own_values(lp, columns.as_slice());
    write_all(alloc, lp, values, &mut columns)?;
    let costs = costs_scale(columns.as_slice(), lp.columns());
    Ok(Scales {
        rows: List::new(alloc),
        columns,
        costs,
        values,
    })
}
