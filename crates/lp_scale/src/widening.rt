// A table that is widened by the columns of successors and by cuts.
ghost use Rattle.std.specs.Prelude.{◌≡◌, ◌+◌, ◌+ℤ◌, ◌-ℤ◌, ◌^◌, ◌<◌, ◌≤◌, ◌≤ℤ◌, pos, negsuc, length, replicate, drop, true, All, None, OnOk, IfOk, IfSome};
ghost use Rattle.base_num.specs.Sums.{floor_over};
ghost use Rattle.lp_program.specs.Packed.{rows_of, IsView};
ghost use Rattle.lp_program.specs.Proper.{IsProper, AreRising};
ghost use Rattle.lp_program.specs.declared.programs.LpRow.{LpRow};
ghost use Rattle.lp_table.specs.Shape.{IsTable};
ghost use Rattle.lp_scale.specs.Walks.{GivesWalked};
ghost use Rattle.lp_scale.specs.Spans.{IsBetween, AreBetween};
ghost use Rattle.std.specs.Int.{int_max};
ghost use Rattle.lp_scale.specs.Exponents.{AreUpTo, SpansBetween, reach_of};
ghost use Rattle.lp_scale.specs.Scaling.{AreSmall};
ghost use Rattle.lp_scale.specs.Fitting.{Suits, Fits, AreNarrow};
ghost use Rattle.lp_scale.specs.Widening.{top, top_of, with_top, cut_spans, tops, cut_lift, successor_scale, with_scale, successor_scales, rescaled, widened_columns, put_cut, put_cuts, widened_by, widened, widened_in_full};

use crate::appending::{append_cut, term_span};
use crate::exponents::reach;
use crate::packed::{do_all_wait, write_packed_spans};
use crate::spans::{Span, grow};
use crate::tables::scale_columns;
use crate::waiting::{last_column, slopes, waiting, waits};
use base_num::{List, Memory};
use lp_program::{Column, Cuts, Fx, LpRow, PackedView, StageLp};
use lp_table::lists::repeated;
use lp_table::{Coefficient, WarmTable};
use std::alloc::Global;

// The greatest of a span, none where it is 0.
fn top(span: Option<Span>) -> Option<i32>
    ensures { result ≡ top span }
{
    match span {
        None => None,
        Some(span) => {
            if span.greatest == 0 {
                None
            } else {
                Some(span.greatest)
            }
        }
    }
}

// The most binary digits of a cut's terms but the last.
#[tactic(auto, unfolding(crate::specs::Widening::top_of))]
fn cut_top(exponents: &[i32], terms: &[(u32, Fx)]) -> Option<i32>
    requires { AreUpTo 512 exponents.now }
    ensures value { result ≡ top_of exponents.now terms.now }
    ensures range { IfSome result (λ x. (pos 0 ≤ℤ x) × (x ≤ℤ pos 640)) }
{
    top(term_span(exponents, slopes(terms)))
}

// Extends by a number the spans of successors' columns.
fn add_top(decisions: usize, spans: &mut [Option<Span>], top: Option<i32>, column: Option<usize>)
    requires range { IfSome top (λ x. (pos 0 ≤ℤ x) × (x ≤ℤ pos 640)) }
    requires column { IfSome column (λ j. j < length spans.old) }
    requires spans { SpansBetween (pos 0) (pos 640) spans.old }
    ensures value { spans.new ≡ with_top decisions spans.old top column }
    ensures count { length spans.new ≡ length spans.old }
    ensures spans { SpansBetween (pos 0) (pos 640) spans.new }
{
    if let (Some(top), Some(column)) = (top, column) {
        if decisions <= column {
            spans[column] = grow(spans[column], top);
        }
    }
}

// Writes for each column of a successor the span of the tops of its cuts.
#[tactic(auto, unfolding(crate::specs::Widening::cut_spans))]
fn write_cut_spans(decisions: usize, exponents: &[i32], spans: &mut [Option<Span>], cuts: &[LpRow])
    requires exponents { AreUpTo 512 exponents.now }
    requires rising { All (λ (r : LpRow). AreRising 0 (length spans.old) r.terms) cuts.now }
    requires spans { spans.old ≡ replicate (length spans.old) None }
    ensures value { spans.new ≡ cut_spans decisions (length spans.old) exponents.now cuts.now }
    ensures count { length spans.new ≡ length spans.old }
    ensures spans { SpansBetween (pos 0) (pos 640) spans.new }
{
    for i in 0..cuts.len() {
        let terms = cuts[i].terms.as_slice();
        add_top(
            decisions,
            spans,
            cut_top(exponents, terms),
            last_column(terms),
        );
    }
}

/// Writes for each column of a successor the span of the tops of a program's cuts.
pub(crate) fn write_spans(
    alloc: Global,
    exponents: &[i32],
    spans: &mut [Option<Span>],
    lp: &StageLp,
) -> Result<(), Memory>
    requires proper { IsProper lp.now }
    requires exponents { AreUpTo 512 exponents.now }
    requires columns { length spans.old ≡ length lp.now.columns }
    requires spans { spans.old ≡ replicate (length spans.old) None }
    ensures value { OnOk result (spans.new ≡ cut_spans lp.now.decisions (length spans.old) exponents.now (drop lp.now.own lp.now.rows)) }
    ensures count { length spans.new ≡ length spans.old }
    ensures spans { OnOk result (SpansBetween (pos 0) (pos 640) spans.new) }
{
    match lp.cuts() {
        Cuts::Listed(cuts) => {
            write_cut_spans(lp.decisions(), exponents, spans, cuts);
            Ok(())
        }
        Cuts::Packed(view) => write_packed_spans(alloc, lp.decisions(), exponents, spans, view),
    }
}

// The greatest and the least top, where the least is at most 20 below the greatest.
fn tops(span: Span) -> i32
    requires { IsBetween (pos 0) (pos 640) span }
    ensures value { result ≡ tops span }
    ensures least { pos 0 ≤ℤ result }
    ensures greatest { result ≤ℤ pos 1280 }
{
    span.greatest + span.least.max(span.greatest - 20)
}

fn half(number: i32) -> i32
    requires least { pos 0 ≤ℤ number }
    requires greatest { number ≤ℤ pos 1280 }
    ensures value { result ≡ floor_over number 2 }
    ensures least { pos 0 ≤ℤ result }
    ensures greatest { result ≤ℤ pos 640 }
{
    number.div_euclid(2)
}

// Gives half of the greatest and the least top, less 33.
fn cut_lift(span: Option<Span>) -> i32
    requires { AreBetween (pos 0) (pos 640) span }
    ensures value { result ≡ cut_lift span }
    ensures least { negsuc 99 ≤ℤ result }
    ensures greatest { result ≤ℤ pos 640 }
{
    match span {
        None => -33,
        Some(span) => half(tops(span)) - 33,
    }
}

// Finds the exponent that the box of a successor's column asks for.
fn box_lift(values: i32, column: &Column) -> i32
    requires least { negsuc 1299 ≤ℤ values }
    requires greatest { values ≤ℤ pos 0 }
    ensures value { result ≡ pos (reach_of column.now) +ℤ values -ℤ pos 54 }
    ensures greatest { result ≤ℤ pos 640 }
{
    reach(column) as i32 + values - 54
}

// The greatest of two numbers and 0.
fn greatest(first: i32, second: i32) -> i32
    requires first { first ≤ℤ pos 640 }
    requires second { second ≤ℤ pos 640 }
    ensures value { result ≡ int_max (int_max first second) (pos 0) }
    ensures least { pos 0 ≤ℤ result }
    ensures greatest { result ≤ℤ pos 1000 }
{
    first.max(second).max(0)
}

// The exponent of a successor's column.
fn successor_scale(values: i32, span: Option<Span>, column: &Column) -> i32
    requires least { negsuc 1299 ≤ℤ values }
    requires greatest { values ≤ℤ pos 0 }
    requires span { AreBetween (pos 0) (pos 640) span }
    ensures value { result ≡ successor_scale values span column.now }
    ensures least { pos 0 ≤ℤ result }
    ensures greatest { result ≤ℤ pos 1000 }
{
    greatest(cut_lift(span), box_lift(values, column))
}

// Writes the exponent of column j.
fn write_scale(
    values: i32,
    spans: &[Option<Span>],
    j: usize,
    column: &Column,
    exponents: &mut [i32],
)
    requires least { negsuc 1299 ≤ℤ values }
    requires greatest { values ≤ℤ pos 0 }
    requires spans { SpansBetween (pos 0) (pos 640) spans.now }
    requires exponents { AreUpTo 1000 exponents.old }
    requires there { j < length exponents.old }
    requires count { length spans.now ≡ length exponents.old }
    ensures value { exponents.new ≡ with_scale values spans.now j exponents.old column.now }
    ensures count { length exponents.new ≡ length exponents.old }
    ensures exponents { AreUpTo 1000 exponents.new }
{
    exponents[j] = successor_scale(values, spans[j], column);
}

// Writes the exponents of the columns from number `first` on.
pub(crate) fn write_scales(
    values: i32,
    spans: &[Option<Span>],
    first: usize,
    columns: &[Column],
    exponents: &mut [i32],
)
    requires least { negsuc 1299 ≤ℤ values }
    requires greatest { values ≤ℤ pos 0 }
    requires spans { SpansBetween (pos 0) (pos 640) spans.now }
    requires exponents { AreUpTo 1000 exponents.old }
    requires there { first + length columns.now ≤ length exponents.old }
    requires count { length spans.now ≡ length exponents.old }
    ensures value { exponents.new ≡ successor_scales values spans.now first columns.now exponents.old }
    ensures count { length exponents.new ≡ length exponents.old }
    ensures exponents { AreUpTo 1000 exponents.new }
{
    for j in 0..columns.len() {
        write_scale(values, spans, first + j, &columns[j], exponents);
    }
}

// Writes the exponents of successors' columns, from number `decisions` on, by their cuts.
#[tactic(auto, unfolding(crate::specs::Widening::rescaled))]
fn write_successors(alloc: Global, table: &mut WarmTable, lp: &StageLp) -> Result<(), Memory>
    requires whole { IsTable table.old }
    requires small { AreSmall 512 table.old.scales }
    requires proper { IsProper lp.now }
    requires there { length lp.now.columns ≡ length table.old.costs }
    ensures value { OnOk result (table.new ≡ rescaled lp.now.decisions (drop lp.now.decisions lp.now.columns) (drop lp.now.own lp.now.rows) table.old) }
    ensures columns { OnOk result (AreUpTo 1000 table.new.scales.columns) }
    ensures count { OnOk result (length table.new.scales.columns ≡ length table.old.scales.columns) }
{
    let decisions = lp.decisions();
    let (_, successors) = lp.columns().split_at(decisions);
    let mut spans = repeated(alloc, table.costs.len(), None)?;
    write_spans(
        alloc,
        table.scales.columns.as_slice(),
        spans.as_mut_slice(),
        lp,
    )?;
    write_scales(
        table.scales.values,
        spans.as_slice(),
        decisions,
        successors,
        table.scales.columns.as_mut_slice(),
    );
    Ok(())
}

// Scales the columns of successors, from number `decisions` on, which makes a table of a table.
fn rescale(alloc: Global, table: &mut WarmTable, lp: &StageLp) -> Result<(), Memory>
    requires whole { IsTable table.old }
    requires small { AreSmall 512 table.old.scales }
    requires proper { IsProper lp.now }
    requires there { length lp.now.columns ≡ length table.old.costs }
    ensures value { OnOk result (table.new ≡ rescaled lp.now.decisions (drop lp.now.decisions lp.now.columns) (drop lp.now.own lp.now.rows) table.old) }
    ensures whole { OnOk result (IsTable table.new) }
    ensures small { OnOk result (AreSmall 1000 table.new.scales) }
    ensures count { OnOk result (length table.new.costs ≡ length table.old.costs) }
{
    write_successors(alloc, table, lp)
}

// Scales the columns of successors and gives them bounds and costs. The answer is false exactly where a number leaves its range.
#[tactic(auto, unfolding(crate::specs::Widening::widened_columns))]
fn widen_columns(alloc: Global, table: &mut WarmTable, lp: &StageLp) -> Result<bool, Memory>
    requires suits { Suits table.old lp.now }
    requires proper { IsProper lp.now }
    ensures value { IfOk result (λ made. GivesWalked made (widened_columns lp.now table.old) table.new) }
    ensures whole { OnOk result (IsTable table.new) }
    ensures small { OnOk result (AreSmall 1000 table.new.scales) }
    ensures count { OnOk result (length table.new.costs ≡ length table.old.costs) }
{
    let decisions = lp.decisions();
    let (_, successors) = lp.columns().split_at(decisions);
    rescale(alloc, table, lp)?;
    Ok(scale_columns(table, decisions, successors))
}

// Puts the cut behind the rows that is the program's row i, unless it waits.
fn put_cut(
    table: &mut WarmTable,
    i: usize,
    row: &LpRow,
    scaled: &mut List<(u32, Coefficient)>,
) -> Result<bool, Memory>
    requires whole { IsTable table.old }
    requires small { AreSmall 1000 table.old.scales }
    requires rising { AreRising 0 (length table.old.costs) row.now.terms }
    ensures value { IfOk result (λ made. GivesWalked made (put_cut table.old.cuts.waiting i row.now table.old) table.new) }
    ensures whole { IfOk result (λ made. made ≡ true → IsTable table.new) }
    ensures small { IfOk result (λ made. made ≡ true → AreSmall 1000 table.new.scales) }
    ensures count { IfOk result (λ made. made ≡ true → length table.new.costs ≡ length table.old.costs) }
    ensures waiting { IfOk result (λ made. made ≡ true → table.new.cuts.waiting ≡ table.old.cuts.waiting) }
{
    if waits(table.cuts.waiting.as_slice(), row) {
        Ok(true)
    } else {
        append_cut(table, i, row, scaled)
    }
}

// Puts the cuts behind the rows that do not wait, of which the first is the program's row `first`.
fn put_cuts(
    alloc: Global,
    table: &mut WarmTable,
    first: usize,
    cuts: &[LpRow],
) -> Result<bool, Memory>
    requires whole { IsTable table.old }
    requires small { AreSmall 1000 table.old.scales }
    requires few { first + length cuts.now < 2 ^ 64 }
    requires rising { All (λ (r : LpRow). AreRising 0 (length table.old.costs) r.terms) cuts.now }
    ensures value { IfOk result (λ made. GivesWalked made (put_cuts table.old.cuts.waiting first cuts.now table.old) table.new) }
    ensures whole { IfOk result (λ made. made ≡ true → IsTable table.new) }
    ensures small { IfOk result (λ made. made ≡ true → AreSmall 1000 table.new.scales) }
    ensures count { IfOk result (λ made. made ≡ true → length table.new.costs ≡ length table.old.costs) }
{
    let mut scaled = List::new(alloc);
    for k in 0..cuts.len() {
        if !put_cut(table, first + k, &cuts[k], &mut scaled)? {
            return Ok(false);
        }
    }
    Ok(true)
}

// Puts the cuts of a program behind the rows that are listed and do not wait.
fn put_listed(
    alloc: Global,
    table: &mut WarmTable,
    lp: &StageLp,
    cuts: &[LpRow],
) -> Result<bool, Memory>
    requires whole { IsTable table.old }
    requires small { AreSmall 1000 table.old.scales }
    requires proper { IsProper lp.now }
    requires columns { length lp.now.columns ≡ length table.old.costs }
    requires cuts { cuts.now ≡ drop lp.now.own lp.now.rows }
    ensures value { IfOk result (λ made. GivesWalked made (put_cuts table.old.cuts.waiting lp.now.own cuts.now table.old) table.new) }
    ensures whole { IfOk result (λ made. made ≡ true → IsTable table.new) }
    ensures small { IfOk result (λ made. made ≡ true → AreSmall 1000 table.new.scales) }
    ensures count { IfOk result (λ made. made ≡ true → length table.new.costs ≡ length table.old.costs) }
{
    let first = lp.row_count() - cuts.len();
    put_cuts(alloc, table, first, cuts)
}

// Puts the cuts of a program behind the rows that stand side by side and do not wait.
fn put_packed(
    alloc: Global,
    table: &mut WarmTable,
    lp: &StageLp,
    view: &PackedView,
) -> Result<bool, Memory>
    requires whole { IsTable table.old }
    requires small { AreSmall 1000 table.old.scales }
    requires proper { IsProper lp.now }
    requires columns { length lp.now.columns ≡ length table.old.costs }
    requires cuts { rows_of view.now ≡ drop lp.now.own lp.now.rows }
    requires view { IsView view.now }
    ensures value { IfOk result (λ made. GivesWalked made (put_cuts table.old.cuts.waiting lp.now.own (drop lp.now.own lp.now.rows) table.old) table.new) }
    ensures whole { IfOk result (λ made. made ≡ true → IsTable table.new) }
    ensures small { IfOk result (λ made. made ≡ true → AreSmall 1000 table.new.scales) }
    ensures count { IfOk result (λ made. made ≡ true → length table.new.costs ≡ length table.old.costs) }
{
    if do_all_wait(table.cuts.waiting.as_slice(), view) {
        return Ok(true);
    }
    let program = lp.program(alloc)?;
    let (_, cuts) = program.rows.as_slice().split_at(program.own as usize);
    put_cuts(alloc, table, program.own as usize, cuts)
}

// Puts the cuts of a program behind the rows that do not wait.
fn put_program_cuts(alloc: Global, table: &mut WarmTable, lp: &StageLp) -> Result<bool, Memory>
    requires whole { IsTable table.old }
    requires small { AreSmall 1000 table.old.scales }
    requires proper { IsProper lp.now }
    requires columns { length lp.now.columns ≡ length table.old.costs }
    ensures value { IfOk result (λ made. GivesWalked made (put_cuts table.old.cuts.waiting lp.now.own (drop lp.now.own lp.now.rows) table.old) table.new) }
    ensures whole { IfOk result (λ made. made ≡ true → IsTable table.new) }
    ensures small { IfOk result (λ made. made ≡ true → AreSmall 1000 table.new.scales) }
    ensures count { IfOk result (λ made. made ≡ true → length table.new.costs ≡ length table.old.costs) }
{
    match lp.cuts() {
        Cuts::Listed(cuts) => put_listed(alloc, table, lp, cuts),
        Cuts::Packed(view) => put_packed(alloc, table, lp, view),
    }
}

// Widens a table by a program, where the cuts in these columns wait.
#[tactic(auto, unfolding(crate::specs::Widening::widened_by))]
fn widen_by(
    alloc: Global,
    table: &mut WarmTable,
    lp: &StageLp,
    waiting: List<bool>,
) -> Result<bool, Memory>
    requires suits { Suits table.old lp.now }
    requires proper { IsProper lp.now }
    requires count { length waiting ≡ length lp.now.columns }
    requires narrow { AreNarrow lp.now waiting }
    ensures value { IfOk result (λ made. GivesWalked made (widened_by waiting lp.now table.old) table.new) }
    ensures fits { IfOk result (λ made. made ≡ true → Fits table.new lp.now) }
{
    if !widen_columns(alloc, table, lp)? {
        return Ok(false);
    }
    table.cuts.waiting = waiting;
    put_program_cuts(alloc, table, lp)
}

/// Widens a table of a program's own part by its other columns, which belong to successors, and by its cuts: the columns get
/// exponents, bounds, costs and reduced costs, and stay at their lower bounds, and the cuts are put behind the rows, but for
/// those of successors all of whose cuts are narrow: these wait. The answer is false exactly where a number leaves its range:
/// nothing is promised of the table then. [`Memory`] where memory was refused.
#[tactic(auto, unfolding(crate::specs::Widening::widened))]
pub fn widen(alloc: Global, table: &mut WarmTable, lp: &StageLp) -> Result<bool, Memory>
    requires suits { Suits table.old lp.now }
    requires proper { IsProper lp.now }
    ensures value { IfOk result (λ made. GivesWalked made (widened lp.now table.old) table.new) }
    ensures fits { IfOk result (λ made. made ≡ true → Fits table.new lp.now) }
{
    let waiting = waiting(alloc, lp)?;
    widen_by(alloc, table, lp, waiting)
}

/// Widens a table by a program as [`widen`] does, where no cut waits: all are put behind the rows.
#[tactic(auto, unfolding(crate::specs::Widening::widened_in_full))]
pub fn widen_in_full(alloc: Global, table: &mut WarmTable, lp: &StageLp) -> Result<bool, Memory>
    requires suits { Suits table.old lp.now }
    requires proper { IsProper lp.now }
    ensures value { IfOk result (λ made. GivesWalked made (widened_in_full lp.now table.old) table.new) }
    ensures fits { IfOk result (λ made. made ≡ true → Fits table.new lp.now) }
{
    let waiting = repeated(alloc, lp.columns().len(), false)?;
    widen_by(alloc, table, lp, waiting)
}
