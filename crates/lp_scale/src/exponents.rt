// Exponents of two that bring the terms of rows near each other.
ghost use Rattle.std.specs.Prelude.{◌≡◌, ◌+◌, ◌≤◌, ◌≤ℤ◌, ℕ, pos, negsuc, length, slice_index_or as get_or, map, replicate, IfOk, None};
ghost use Rattle.lp_program.specs.declared.programs.Column.{Column};
ghost use Rattle.base_num.specs.Sums.{entry};
ghost use Rattle.lp_scale.specs.Spans.{AreBetween, span_of};
ghost use Rattle.lp_scale.specs.Exponents.{reach_of, term_size, border_of, weight_of, row_weight_of, counted_weight, row_lift, with_term, with_terms, with_row_terms, columns_of, spans_of, column_lift, pass_of, passes_of, AreUpTo, ReachUpTo, SpansBetween};

use crate::spans::{Span, grow, join, lift};
use base_num::{List, Memory};
use lp_program::{Column, Fx, LpRow};
use lp_table::lists::repeated;
use lp_table::numbers::bits;
use std::alloc::Global;

// The binary digits of a column's box.
pub(crate) fn reach(column: &Column) -> u32
    ensures value { result ≡ reach_of column.now }
    ensures small { result ≤ 128 }
{
    bits(column.low.0).max(bits(column.high.0))
}

// The number at a place, 0 past the end.
pub(crate) fn reach_at(reaches: &[u32], at: usize) -> u32
    ensures { result ≡ get_or reaches.now at 0 }
{
    reaches.get(at).copied().unwrap_or(0)
}

/// The exponent at a place, 0 past the end.
pub fn exponent_at(exponents: &[i32], at: usize) -> i32
    ensures { result ≡ entry exponents.now at }
{
    exponents.get(at).copied().unwrap_or(0)
}

// The binary digits that a term can come to, by the reaches of the columns.
fn size(reaches: &[u32], term: (u32, Fx)) -> u32
    requires { ReachUpTo 128 reaches.now }
    ensures value { result ≡ term_size reaches.now term }
    ensures small { result ≤ 256 }
{
    bits(term.1.0) + reach_at(reaches, term.0 as usize)
}

// Finds the size that a term of a row counts from.
fn border(reaches: &[u32], terms: &[(u32, Fx)]) -> u32
    requires { ReachUpTo 128 reaches.now }
    ensures { result ≡ border_of reaches.now terms.now }
{
    let mut most = 0;
    for k in 0..terms.len() {
        most = most.max(size(reaches, terms[k]));
    }
    most.saturating_sub(20)
}

// The binary digits of a term whose column is scaled.
pub(crate) fn weight(exponents: &[i32], term: (u32, Fx)) -> i32
    requires { AreUpTo 1000 exponents.now }
    ensures { result ≡ weight_of exponents.now term }
{
    bits(term.1.0) as i32 + exponent_at(exponents, term.0 as usize)
}

// The weight of a term that counts.
fn counted_weight(border: u32, reaches: &[u32], exponents: &[i32], term: (u32, Fx)) -> Option<i32>
    requires reaches { ReachUpTo 128 reaches.now }
    requires exponents { AreUpTo 1000 exponents.now }
    ensures { result ≡ counted_weight border reaches.now exponents.now term }
{
    if border <= size(reaches, term) {
        Some(weight(exponents, term))
    } else {
        None
    }
}

// The span of the weights of a row's terms that count.
fn row_span(border: u32, reaches: &[u32], exponents: &[i32], terms: &[(u32, Fx)]) -> Option<Span>
    requires reaches { ReachUpTo 128 reaches.now }
    requires exponents { AreUpTo 1000 exponents.now }
    ensures { result ≡ span_of (λ j t. counted_weight border reaches.now exponents.now t) terms.now }
{
    let mut span = None;
    for k in 0..terms.len() {
        span = join(span, counted_weight(border, reaches, exponents, terms[k]));
    }
    span
}

// The exponent of a row whose terms count from a border.
fn row_lift(border: u32, reaches: &[u32], exponents: &[i32], terms: &[(u32, Fx)]) -> i32
    requires reaches { ReachUpTo 128 reaches.now }
    requires exponents { AreUpTo 384 exponents.now }
    ensures value { result ≡ row_lift border reaches.now exponents.now terms.now }
    ensures least { negsuc 478 ≤ℤ result }
    ensures greatest { result ≤ℤ pos 33 }
{
    lift(row_span(border, reaches, exponents, terms))
}

// The binary digits of a term whose row is scaled.
fn row_weight(exponent: i32, term: (u32, Fx)) -> i32
    requires least { negsuc 478 ≤ℤ exponent }
    requires greatest { exponent ≤ℤ pos 33 }
    ensures value { result ≡ row_weight_of exponent term }
    ensures least { negsuc 478 ≤ℤ result }
    ensures greatest { result ≤ℤ pos 161 }
{
    bits(term.1.0) as i32 + exponent
}

// The spans of the columns with one term more, of a row with an exponent.
fn add_term(
    decisions: usize,
    border: u32,
    reaches: &[u32],
    exponent: i32,
    spans: &mut [Option<Span>],
    term: (u32, Fx),
)
    requires reaches { ReachUpTo 128 reaches.now }
    requires least { negsuc 478 ≤ℤ exponent }
    requires greatest { exponent ≤ℤ pos 33 }
    requires decisions { decisions ≤ length spans.old }
    requires spans { SpansBetween (negsuc 478) (pos 161) spans.old }
    ensures value { spans.new ≡ with_term decisions border reaches.now exponent spans.old term }
    ensures count { length spans.new ≡ length spans.old }
    ensures spans { SpansBetween (negsuc 478) (pos 161) spans.new }
{
    let column = term.0 as usize;
    if column < decisions && border <= size(reaches, term) {
        spans[column] = grow(spans[column], row_weight(exponent, term));
    }
}

// Adds some terms to the spans of the columns.
fn add_terms(
    decisions: usize,
    border: u32,
    reaches: &[u32],
    exponent: i32,
    spans: &mut [Option<Span>],
    terms: &[(u32, Fx)],
)
    requires reaches { ReachUpTo 128 reaches.now }
    requires least { negsuc 478 ≤ℤ exponent }
    requires greatest { exponent ≤ℤ pos 33 }
    requires decisions { decisions ≤ length spans.old }
    requires spans { SpansBetween (negsuc 478) (pos 161) spans.old }
    ensures value { spans.new ≡ with_terms decisions border reaches.now exponent spans.old terms.now }
    ensures count { length spans.new ≡ length spans.old }
    ensures spans { SpansBetween (negsuc 478) (pos 161) spans.new }
{
    for k in 0..terms.len() {
        add_term(decisions, border, reaches, exponent, spans, terms[k]);
    }
}

// Adds the terms of one row to the spans of the columns.
#[tactic(auto, unfolding(crate::specs::Exponents::with_row_terms))]
fn add_row(
    decisions: usize,
    reaches: &[u32],
    exponents: &[i32],
    spans: &mut [Option<Span>],
    terms: &[(u32, Fx)],
)
    requires reaches { ReachUpTo 128 reaches.now }
    requires exponents { AreUpTo 384 exponents.now }
    requires decisions { decisions ≤ length spans.old }
    requires spans { SpansBetween (negsuc 478) (pos 161) spans.old }
    ensures value { spans.new ≡ with_row_terms decisions reaches.now exponents.now spans.old terms.now }
    ensures count { length spans.new ≡ length spans.old }
    ensures spans { SpansBetween (negsuc 478) (pos 161) spans.new }
{
    let border = border(reaches, terms);
    let exponent = row_lift(border, reaches, exponents, terms);
    add_terms(decisions, border, reaches, exponent, spans, terms);
}

// The spans of columns without terms.
fn clear(spans: &mut [Option<Span>])
    ensures { spans.new ≡ replicate (length spans.old) None }
{
    for j in 0..spans.len() {
        spans[j] = None;
    }
}

// Writes for each column the span of its terms in all rows.
#[tactic(auto, unfolding(crate::specs::Exponents::spans_of))]
fn write_spans(
    decisions: usize,
    reaches: &[u32],
    rows: &[LpRow],
    exponents: &[i32],
    spans: &mut [Option<Span>],
)
    requires reaches { ReachUpTo 128 reaches.now }
    requires exponents { AreUpTo 384 exponents.now }
    requires decisions { decisions ≤ length spans.old }
    requires count { length spans.old ≡ length exponents.now }
    ensures value { spans.new ≡ spans_of decisions reaches.now rows.now exponents.now }
    ensures count { length spans.new ≡ length spans.old }
    ensures spans { SpansBetween (negsuc 478) (pos 161) spans.new }
{
    clear(spans);
    for i in 0..rows.len() {
        add_row(
            decisions,
            reaches,
            exponents,
            spans,
            rows[i].terms.as_slice(),
        );
    }
}

// The exponent of a column, at least 0.
fn column_lift(span: Option<Span>) -> i32
    requires { AreBetween (negsuc 478) (pos 161) span }
    ensures { result ≡ column_lift span }
{
    lift(span).max(0)
}

// The exponents of all columns.
fn write_exponents(spans: &[Option<Span>], exponents: &mut [i32])
    requires spans { SpansBetween (negsuc 478) (pos 161) spans.now }
    requires count { length spans.now ≡ length exponents.old }
    ensures { exponents.new ≡ map column_lift spans.now }
{
    for j in 0..exponents.len() {
        exponents[j] = column_lift(spans[j]);
    }
}

// The exponents of rows by those of columns, and then of columns by those of rows.
#[tactic(auto, unfolding(crate::specs::Exponents::pass_of))]
fn pass(
    decisions: usize,
    reaches: &[u32],
    rows: &[LpRow],
    exponents: &mut [i32],
    spans: &mut [Option<Span>],
)
    requires reaches { ReachUpTo 128 reaches.now }
    requires exponents { AreUpTo 384 exponents.old }
    requires decisions { decisions ≤ length spans.old }
    requires count { length spans.old ≡ length exponents.old }
    ensures value { exponents.new ≡ pass_of decisions reaches.now rows.now exponents.old }
    ensures range { (most : ℕ) → AreUpTo most exponents.old → AreUpTo (most + 128) exponents.new }
    ensures count { length exponents.new ≡ length exponents.old }
    ensures spans { length spans.new ≡ length spans.old }
{
    write_spans(decisions, reaches, rows, exponents, spans);
    write_exponents(spans, exponents);
}

// Four passes from exponents of 0.
fn passes(
    decisions: usize,
    reaches: &[u32],
    rows: &[LpRow],
    exponents: &mut [i32],
    spans: &mut [Option<Span>],
)
    requires reaches { ReachUpTo 128 reaches.now }
    requires exponents { AreUpTo 0 exponents.old }
    requires decisions { decisions ≤ length spans.old }
    requires count { length spans.old ≡ length exponents.old }
    ensures value { exponents.new ≡ passes_of decisions reaches.now rows.now exponents.old }
    ensures range { AreUpTo 512 exponents.new }
    ensures count { length exponents.new ≡ length exponents.old }
{
    pass(decisions, reaches, rows, exponents, spans);
    pass(decisions, reaches, rows, exponents, spans);
    pass(decisions, reaches, rows, exponents, spans);
    pass(decisions, reaches, rows, exponents, spans);
}

// The binary digits of the boxes of columns.
pub(crate) fn reaches(alloc: Global, columns: &[Column]) -> Result<List<u32>, Memory>
    ensures value { IfOk result (λ found. found ≡ map reach_of columns.now) }
    ensures small { IfOk result (λ found. ReachUpTo 128 found) }
{
    let mut found = List::from_vec(Vec::with_capacity(alloc, columns.len())?);
    for column in columns {
        found.push(reach(column))?;
    }
    Ok(found)
}

/// Gives the exponents of so many columns, of which the first are the decisions, by the terms of rows: powers of two by which
/// terms come near 2^33 (after the geometric scaling of Fourer, 1982). The exponents of the other columns are 0. [`Memory`]
/// where memory was refused.
#[tactic(auto, unfolding(crate::specs::Exponents::columns_of))]
pub fn columns(
    alloc: Global,
    count: usize,
    decisions: &[Column],
    rows: &[LpRow],
) -> Result<List<i32>, Memory>
    requires { length decisions.now ≤ count }
    ensures value { IfOk result (λ found. found ≡ columns_of count decisions.now rows.now) }
    ensures range { IfOk result (λ found. AreUpTo 512 found) }
    ensures count { IfOk result (λ found. length found ≡ count) }
{
    let reaches = reaches(alloc, decisions)?;
    let mut exponents = repeated(alloc, count, 0)?;
    let mut spans = repeated(alloc, count, None)?;
    passes(
        decisions.len(),
        reaches.as_slice(),
        rows,
        exponents.as_mut_slice(),
        spans.as_mut_slice(),
    );
    Ok(exponents)
}
