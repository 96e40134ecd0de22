// The node's own rows of a stage problem, whose sides go with the values and the state.
ghost use Rattle.std.specs.Prelude.{◌≡◌, ◌<◌, ◌≤◌, ◌^◌, ◌++◌, ℕ, ℤ, pos, ◌*ℤ◌, ◌-ℤ◌, List, true, length, map, nat_abs, All, IfOk, OnOk};
ghost use Rattle.std.specs.Option.{option_map};
ghost use Rattle.base_num.specs.Sums.{at_terms, entry};
ghost use Rattle.problem.specs.Limits.{terms_fit};
ghost use Rattle.lp_program.specs.declared.programs.LpRow.{LpRow};
ghost use Rattle.lp_program.specs.Numbers.{number};
ghost use Rattle.lp_program.specs.StageLps.{with_sides};
ghost use Rattle.plan_stage.specs.Stage.{whole_fixed, side_at_state, own_row};
ghost use Rattle.plan_stage.specs.Given.{AreGiven, IsOver};

use crate::scales::{CUT_SCALE, sum, whole};
use crate::stage_memory::StageMemory;
use crate::written_rows::{RowParts, WrittenRows, cleared};
use base_num::{List, Memory};
use lp_program::fixed::ONE;
use lp_program::{Fx, LpRow, StageLp};
use problem::Row;

// The product of a factor and a number of a state.
fn state_product(factor: i64, number: i128) -> i128
    requires factor { nat_abs factor ≤ 2 ^ 40 }
    requires number { nat_abs number ≤ 2 ^ 64 }
    ensures value { result ≡ factor *ℤ number }
    ensures small { nat_abs result ≤ 2 ^ 104 }
{
    i128::from(factor) * number
}

// The product of a factor and a value.
fn value_product(factor: i64, value: i64) -> i128
    requires factor { nat_abs factor ≤ 2 ^ 40 }
    requires value { nat_abs value ≤ 2 ^ 40 }
    ensures value { result ≡ factor *ℤ value }
    ensures small { nat_abs result ≤ 2 ^ 80 }
{
    i128::from(factor) * i128::from(value)
}

/// The sum of terms at a state, at scale 2^24.
fn at_state(terms: &[(u32, i64)], state: &[i128]) -> i128
    requires fit { terms_fit (length state.now) 0 terms.now ≡ true }
    requires few { length state.now ≤ 50 }
    requires small { All (λ z. nat_abs z ≤ 2 ^ 64) state.now }
    ensures value { result ≡ at_terms terms.now (entry state.now) }
    ensures small { nat_abs result ≤ 2 ^ 110 }
{
    let mut total: i128 = 0;
    for (variable, factor) in terms {
        total = sum(total, state_product(*factor, state[*variable as usize]));
    }
    total
}

/// The sum of terms at the values.
fn at_values(terms: &[(u32, i64)], values: &[i64]) -> i128
    requires fit { terms_fit (length values.now) 0 terms.now ≡ true }
    requires few { length values.now ≤ 50 }
    requires small { All (λ z. nat_abs z ≤ 2 ^ 40) values.now }
    ensures value { result ≡ at_terms terms.now (entry values.now) }
    ensures small { nat_abs result ≤ 2 ^ 86 }
{
    let mut total: i128 = 0;
    for (variable, factor) in terms {
        total = sum(total, value_product(*factor, values[*variable as usize]));
    }
    total
}

// A whole number at the scale of linear programs.
fn raised(value: i128) -> i128
    requires { nat_abs value ≤ 2 ^ 86 }
    ensures value { result ≡ pos (2 ^ 32) *ℤ value }
    ensures small { nat_abs result ≤ 2 ^ 118 }
{
    ONE * value
}

// A number at the scale of states, at the scale of linear programs.
fn state_raised(value: i128) -> i128
    requires { nat_abs value ≤ 2 ^ 110 }
    ensures value { result ≡ pos 256 *ℤ value }
    ensures small { nat_abs result ≤ 2 ^ 118 }
{
    CUT_SCALE * value
}

fn less(a: i128, b: i128) -> i128
    requires a_small { nat_abs a ≤ 2 ^ 119 }
    requires b_small { nat_abs b ≤ 2 ^ 118 }
    ensures value { result ≡ a -ℤ b }
    ensures small { nat_abs a ≤ 2 ^ 118 → nat_abs result ≤ 2 ^ 119 }
{
    a - b
}

// Brings the parts of the state and of the random variables to the other side of a row, against this side.
fn side_less(side: i64, of_state: i128, of_values: i128) -> Fx
    requires state { nat_abs of_state ≤ 2 ^ 110 }
    requires values { nat_abs of_values ≤ 2 ^ 86 }
    ensures { result ≡ number (pos (2 ^ 32) *ℤ side -ℤ pos 256 *ℤ of_state -ℤ pos (2 ^ 32) *ℤ of_values) }
{
    let less_state = less(raised(i128::from(side)), state_raised(of_state));
    Fx(less(less_state, raised(of_values)))
}

fn bound_less(bound: Option<i64>, of_state: i128, of_values: i128) -> Option<Fx>
    requires state { nat_abs of_state ≤ 2 ^ 110 }
    requires values { nat_abs of_values ≤ 2 ^ 86 }
    ensures { result ≡ option_map (λ side. number (pos (2 ^ 32) *ℤ side -ℤ pos 256 *ℤ of_state -ℤ pos (2 ^ 32) *ℤ of_values)) bound }
{
    match bound {
        Some(side) => Some(side_less(side, of_state, of_values)),
        None => None,
    }
}

// The sides of a row.
#[derive(Clone, Copy)]
struct ProgramSides {
    low: Option<Fx>,
    high: Option<Fx>,
}

/// The sides of a row at the values and the state.
fn sides_at(row: &Row, values: &[i64], state: &[i128]) -> ProgramSides
    requires given { AreGiven values.now state.now }
    requires over { IsOver (length state.now) (length values.now) row.now }
    ensures low { result.low ≡ option_map (side_at_state values.now state.now row.now) row.now.low }
    ensures high { result.high ≡ option_map (side_at_state values.now state.now row.now) row.now.high }
{
    let of_state = at_state(row.states.as_slice(), state);
    let of_values = at_values(row.randoms.as_slice(), values);
    ProgramSides {
        low: bound_less(row.low, of_state, of_values),
        high: bound_less(row.high, of_state, of_values),
    }
}

// The terms of a row, over the decisions' columns, in the memory of a list that is done with.
fn own_terms(terms: &[(u32, i64)], over: List<(u32, Fx)>) -> Result<List<(u32, Fx)>, Memory>
    ensures { IfOk result (λ found. found ≡ map (λ (t : ℕ × ℤ). (t.0, whole_fixed t.1)) terms.now) }
{
    let mut found = cleared(over, terms.len())?;
    for (variable, factor) in terms {
        found.push((*variable, whole(*factor)))?;
    }
    Ok(found)
}

/// A row of the node at values and a state.
#[derive(Clone, Copy)]
struct OwnRow<'a> {
    row: &'a Row,
    values: &'a [i64],
    state: &'a [i128],
}

impl RowParts for OwnRow<'_> {
    ghost fit = { λ o. AreGiven o.values.now o.state.now × IsOver (length o.state.now) (length o.values.now) o.row.now };

    ghost made = { λ o. own_row o.values.now o.state.now o.row.now };

    fn make(&self, terms: List<(u32, Fx)>) -> Result<LpRow, Memory> {
        let terms = own_terms(self.row.decisions.as_slice(), terms)?;
        let ProgramSides { low, high } = sides_at(self.row, self.values, self.state);
        Ok(LpRow { low, high, terms })
    }
}

/// Writes the rows at the values and the state behind the others.
pub(crate) fn push_own_rows(
    memory: &mut StageMemory,
    found: &mut WrittenRows,
    rows: &[Row],
    values: &[i64],
    state: &[i128],
) -> Result<(), Memory>
    requires given { AreGiven values.now state.now }
    requires over { All (IsOver (length state.now) (length values.now)) rows.now }
    ensures { OnOk result (found.new ≡ found.old ++ map (own_row values.now state.now) rows.now) }
{
    for row in rows {
        found.push(memory, &OwnRow { row, values, state })?;
    }
    Ok(())
}

// Gives own row i the sides of the values and the state.
fn set_row_sides(row: &Row, values: &[i64], state: &[i128], i: usize, lp: &mut StageLp)
    requires given { AreGiven values.now state.now }
    requires over { IsOver (length state.now) (length values.now) row.now }
    requires own { i < lp.old.own }
    ensures { lp.new ≡ with_sides i (option_map (side_at_state values.now state.now row.now) row.now.low) (option_map (side_at_state values.now state.now row.now) row.now.high) lp.old }
{
    let ProgramSides { low, high } = sides_at(row, values, state);
    lp.set_sides(i, low, high);
}

// Tells whether the sides of a row go with neither values nor states.
fn is_fixed(row: &Row) -> bool
    ensures { result ≡ true → (length row.now.states ≡ 0) × (length row.now.randoms ≡ 0) }
{
    row.states.is_empty() && row.randoms.is_empty()
}

/// Gives the own rows of a stage problem the sides of the values and the state. Rows whose sides are always the same keep theirs.
pub(crate) fn set_own_sides(rows: &[Row], values: &[i64], state: &[i128], lp: &mut StageLp)
    requires given { AreGiven values.now state.now }
    requires over { All (IsOver (length state.now) (length values.now)) rows.now }
    requires own { length rows.now ≡ lp.old.own }
    requires count { length rows.now ≤ length lp.old.rows }
    ensures tail { lp.new ≡ record lp.old { rows = lp.new.rows } }
    ensures count { length lp.new.rows ≡ length lp.old.rows }
    ensures value { (before now : List ℤ) → (cuts : List LpRow) → lp.old.rows ≡ map (own_row before now) rows.now ++ cuts
        → lp.new.rows ≡ map (own_row values.now state.now) rows.now ++ cuts }
{
    for i in 0..rows.len() {
        let row = &rows[i];
        if !is_fixed(row) {
            set_row_sides(row, values, state, i, lp);
        }
    }
}
