// Programs as a file writes them.
use crate::fault::RowFault;
use crate::numerals::{number, side, term};
use crate::words::{count, word};
use base_num::List;
use lp_program::{Column, Fx, LpRow, Program, StageLp};
use std::alloc::Global;
use std::str::SplitWhitespace;

/// The part of a program that is read.
#[derive(Clone, Copy)]
pub enum Extent {
    /// The own rows alone: the columns of successors stand at 0 and cost nothing.
    Own,
    /// All columns and rows.
    Whole,
}

/// LOW HIGH COST.
fn column(words: &mut SplitWhitespace<'_>) -> Result<Column, RowFault> {
    let low = number(word(words)?)?;
    let high = number(word(words)?)?;
    let cost = number(word(words)?)?;
    Ok(Column { low, high, cost })
}

fn idle() -> Column {
    Column {
        low: Fx(0),
        high: Fx(0),
        cost: Fx(0),
    }
}

fn terms(alloc: Global, words: &mut SplitWhitespace<'_>) -> Result<List<(u32, Fx)>, RowFault> {
    let mut found = List::new(alloc);
    for word in words {
        found.push(term(word)?)?;
    }
    Ok(found)
}

/// LOW HIGH TERM.., with the next two of `sides`, if there are any, in the place of LOW and HIGH.
fn row(
    alloc: Global,
    words: &mut SplitWhitespace<'_>,
    sides: &mut SplitWhitespace<'_>,
) -> Result<LpRow, RowFault> {
    let first = word(words)?;
    let second = word(words)?;
    let low = side(sides.next().unwrap_or(first))?;
    let high = side(sides.next().unwrap_or(second))?;
    let terms = terms(alloc, words)?;
    Ok(LpRow { low, high, terms })
}

fn push_column(
    lp: &mut Program,
    extent: Extent,
    words: &mut SplitWhitespace<'_>,
) -> Result<(), RowFault> {
    let column = column(words)?;
    match extent {
        Extent::Own if lp.columns.len() >= lp.decisions as usize => lp.columns.push(idle())?,
        _ => lp.columns.push(column)?,
    }
    Ok(())
}

fn push_row(
    alloc: Global,
    lp: &mut Program,
    extent: Extent,
    words: &mut SplitWhitespace<'_>,
    sides: &mut SplitWhitespace<'_>,
) -> Result<(), RowFault> {
    let row = row(alloc, words, sides)?;
    match extent {
        Extent::Own if lp.rows.len() >= lp.own as usize => {}
        _ => lp.rows.push(row)?,
    }
    Ok(())
}

fn read_line(
    alloc: Global,
    lp: &mut Program,
    extent: Extent,
    line: &str,
    sides: &mut SplitWhitespace<'_>,
) -> Result<(), RowFault> {
    let mut words = line.split_whitespace();
    match word(&mut words)? {
        "decisions" => lp.decisions = count(&mut words)?,
        "own" => lp.own = count(&mut words)?,
        "column" => push_column(lp, extent, &mut words)?,
        "row" => push_row(alloc, lp, extent, &mut words, sides)?,
        "solve" => {}
        _ => return Err(RowFault::Form),
    }
    Ok(())
}

/// The program of a file, whose first rows have the sides that are given in the place of their own.
pub fn program(
    alloc: Global,
    text: &str,
    extent: Extent,
    sides: &str,
) -> Result<Program, RowFault> {
    let mut sides = sides.split_whitespace();
    let mut lp = Program {
        columns: List::new(alloc),
        rows: List::new(alloc),
        decisions: 0,
        own: 0,
    };
    for line in text.lines() {
        read_line(alloc, &mut lp, extent, line, &mut sides)?;
    }
    Ok(lp)
}

/// A program whose rows are listed, where it has its own ones.
fn listed<'a>(program: Program) -> Result<StageLp<'a>, RowFault> {
    if program.own as usize <= program.rows.len() {
        Ok(StageLp::of(program))
    } else {
        Err(RowFault::Form)
    }
}

/// The programs of a file's lines `solve SIDE..`, in this order.
pub fn programs<'a>(alloc: Global, text: &str) -> Result<List<StageLp<'a>>, RowFault> {
    let mut found = List::new(alloc);
    for line in text.lines() {
        if let Some(("", sides)) = line.split_once("solve") {
            found.push(listed(program(alloc, text, Extent::Whole, sides)?)?)?;
        }
    }
    Ok(found)
}
