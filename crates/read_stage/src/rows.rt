// Rows, and the terms in them.
ghost use Rattle.std.specs.Prelude.{◌≡◌, IfOk};
ghost use Rattle.base_num.specs.Sums.{entry};
ghost use Rattle.read_stage.specs.Rows.{picked_coefficients, terms_from, row_of};

use crate::sides::RowSides;
use crate::variables::Variables;
use base_num::{List, Memory};
use problem::Row;
use read_json::few;
use std::alloc::Global;

/// The coefficient of a variable.
pub(crate) fn coefficient_of(variable: usize, coefficients: &[i64]) -> i64
    ensures { result ≡ entry coefficients.now variable }
{
    coefficients.get(variable).copied().unwrap_or(0)
}

/// The coefficients of some of the variables, one entry per variable that is given.
#[tactic(auto, unfolding(crate::specs::Rows::picked_coefficients))]
pub(crate) fn picked(
    alloc: Global,
    variables: &[usize],
    coefficients: &[i64],
) -> Result<List<i64>, Memory>
    ensures { IfOk result (λ l. l ≡ picked_coefficients variables.now coefficients.now) }
{
    let mut found = List::new(alloc);
    for variable in variables {
        found.push(coefficient_of(*variable, coefficients))?;
    }
    Ok(found)
}

fn terms(alloc: Global, coefficients: &[i64]) -> Result<List<(u32, i64)>, Memory>
    ensures { IfOk result (λ l. l ≡ terms_from 0 coefficients.now) }
{
    few(coefficients.len())?;
    let mut found = List::new(alloc);
    for (number, coefficient) in coefficients.iter().enumerate() {
        if *coefficient != 0 {
            found.push((number as u32, *coefficient))?;
        }
    }
    Ok(found)
}

/// The row with these coefficients, one per variable, between the sides.
#[tactic(auto, unfolding(crate::specs::Rows::row_of))]
pub(crate) fn row(
    alloc: Global,
    variables: &Variables,
    coefficients: &[i64],
    sides: RowSides,
) -> Result<Row, Memory>
    ensures { IfOk result (λ r. r ≡ row_of variables.now coefficients.now sides) }
{
    let uses = &variables.uses;
    let decisions = picked(alloc, variables.decisions.as_slice(), coefficients)?;
    let states = picked(alloc, uses.incoming.as_slice(), coefficients)?;
    let randoms = picked(alloc, uses.randoms.as_slice(), coefficients)?;
    Ok(Row {
        low: sides.low,
        high: sides.high,
        decisions: terms(alloc, decisions.as_slice())?,
        states: terms(alloc, states.as_slice())?,
        randoms: terms(alloc, randoms.as_slice())?,
    })
}
