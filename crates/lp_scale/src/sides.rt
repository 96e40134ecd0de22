// The sides of rows.
ghost use Rattle.std.specs.Prelude.{◌≡◌, ◌+◌, ◌<◌, ◌≤◌, ◌≤ℤ◌, pos, negsuc, length, take};
ghost use Rattle.lp_table.specs.Shape.{IsTable};
ghost use Rattle.lp_scale.specs.Scaling.{AreSmall, AreRowScales};
ghost use Rattle.lp_scale.specs.Appending.{scaled_side, scaled_sides, with_slack_sides, sided_from, sided, with_bounds};

use crate::exponents::exponent_at;
use crate::scaling::scaled_value;
use lp_program::{Fx, LpRow, StageLp};
use lp_table::{Bounds, Quantity, WarmTable};

/// The sides of a row, scaled.
#[derive(Clone, Copy)]
pub struct Sides {
    /// The lower side, 0 where there is none.
    pub low: Quantity,
    /// The upper side, 0 where there is none.
    pub up: Quantity,
    /// True where there is a lower side.
    pub has_low: bool,
    /// True where there is an upper side.
    pub has_up: bool,
}

fn scaled_side(exponent: i32, side: Option<Fx>) -> Option<Quantity>
    ensures { result ≡ scaled_side exponent side }
{
    match side {
        None => Some(Quantity::zero()),
        Some(side) => scaled_value(side, exponent),
    }
}

/// The sides of a row times 2^exponent. None where one leaves its range.
#[tactic(auto, unfolding(crate::specs::Appending::scaled_sides))]
pub fn scaled_sides(exponent: i32, row: &LpRow) -> Option<Sides>
    ensures { result ≡ scaled_sides exponent row.now }
{
    let low = scaled_side(exponent, row.low)?;
    let up = scaled_side(exponent, row.high)?;
    Some(Sides {
        low,
        up,
        has_low: row.low.is_some(),
        has_up: row.high.is_some(),
    })
}

// Writes the sides of the row whose slack is `slack`.
fn write_sides(bounds: &mut Bounds, slack: usize, sides: Sides)
    requires lows { slack < length bounds.old.lows }
    requires ups { slack < length bounds.old.ups }
    requires has_low { slack < length bounds.old.has_low }
    requires has_up { slack < length bounds.old.has_up }
    ensures { bounds.new ≡ with_slack_sides slack sides bounds.old }
{
    bounds.lows.set(slack, sides.low);
    bounds.ups.set(slack, sides.up);
    bounds.has_low.set(slack, sides.has_low);
    bounds.has_up.set(slack, sides.has_up);
}

// The sides of the rows from row i on, of which row i has the slack `slack`.
fn set_all(
    bounds: &mut Bounds,
    exponents: &[i32],
    values: i32,
    first: usize,
    rows: &[LpRow],
) -> bool
    requires exponents { AreRowScales exponents.now }
    requires values_least { negsuc 1299 ≤ℤ values }
    requires values_greatest { values ≤ℤ pos 0 }
    requires few { first ≤ 1199 }
    requires lows { first + length rows.now ≤ length bounds.old.lows }
    requires ups { first + length rows.now ≤ length bounds.old.ups }
    requires has_low { first + length rows.now ≤ length bounds.old.has_low }
    requires has_up { first + length rows.now ≤ length bounds.old.has_up }
    ensures value { (result, bounds.new) ≡ sided_from exponents.now values 0 first rows.now bounds.old }
    ensures lows { length bounds.new.lows ≡ length bounds.old.lows }
    ensures ups { length bounds.new.ups ≡ length bounds.old.ups }
    ensures has_low { length bounds.new.has_low ≡ length bounds.old.has_low }
    ensures has_up { length bounds.new.has_up ≡ length bounds.old.has_up }
{
    for i in 0..rows.len() {
        let exponent = exponent_at(exponents, i) + values;
        match scaled_sides(exponent, &rows[i]) {
            Some(sides) => write_sides(bounds, first + i, sides),
            None => return false,
        }
    }
    true
}

/// Sets the sides of the first rows to those of a program's own rows, in order. The answer is false exactly where a side
/// leaves its range: that row and those after it keep the sides that they had. Rows of cuts keep theirs.
#[tactic(auto, unfolding(crate::specs::Appending::sided))]
pub fn set_sides(table: &mut WarmTable, lp: &StageLp) -> bool
    requires whole { IsTable table.old }
    requires small { AreSmall 1000 table.old.scales }
    requires own { lp.now.own ≤ length lp.now.rows }
    requires rows { lp.now.own ≤ length table.old.rows }
    ensures answer { result ≡ (sided table.old (take lp.now.own lp.now.rows)).0 }
    ensures value { table.new ≡ with_bounds (sided table.old (take lp.now.own lp.now.rows)).1 table.old }
    ensures scales { table.new.scales ≡ table.old.scales }
    ensures whole { IsTable table.new }
{
    let first = table.costs.len();
    let own = lp.own_rows();
    set_all(
        &mut table.bounds,
        table.scales.rows.as_slice(),
        table.scales.values,
        first,
        own,
    )
}
