// Texts about a stage problem and about a certificate.
use crate::fault::RowFault;
use lp_program::{Fx, LpRow, StageLp};
use std::alloc::Global;
use std::fmt::Write;
use theory::Certificate;

fn terms(rows: &[LpRow]) -> u64 {
    let mut terms = 0u64;
    for row in rows {
        terms = terms.wrapping_add(row.terms.len() as u64);
    }
    terms
}

/// A side, 0 where it is absent.
fn side(side: Option<Fx>) -> i128 {
    side.map_or(0, |side| side.0)
}

/// The sum of all sides, modulo 2^128.
fn sides(rows: &[LpRow]) -> i128 {
    let mut sum = 0i128;
    for row in rows {
        sum = sum.wrapping_add(side(row.low)).wrapping_add(side(row.high));
    }
    sum
}

/// Appends a line on a stage problem.
pub fn push_program(alloc: Global, text: &mut String, lp: &StageLp) -> Result<(), RowFault> {
    let program = lp.program(alloc)?;
    write!(
        text,
        "columns {} rows {} terms {} sides {}\n",
        program.columns.len(),
        program.rows.len(),
        terms(program.rows.as_slice()),
        sides(program.rows.as_slice())
    )?;
    Ok(())
}

/// Counts the multipliers that are not 0.
fn nonzero(multipliers: &[i64]) -> usize {
    multipliers
        .iter()
        .filter(|multiplier| **multiplier != 0)
        .count()
}

/// Appends a line on a certificate.
pub fn push_certificate(text: &mut String, certificate: &Certificate) -> Result<(), RowFault> {
    let pairs = certificate
        .cuts
        .as_slice()
        .first()
        .map_or(0, |pairs| pairs.len());
    write!(
        text,
        "multipliers {} pairs {}\n",
        nonzero(certificate.rows.as_slice()),
        pairs
    )?;
    Ok(())
}
