// The end of a run: duals only of sides that exist, and the test that the reduced costs that follow from them are cells.
ghost use Rattle.std.specs.Prelude.{◌≡◌, ◌<◌, ◌^◌, ◌*ℤ◌, pos, length, All, IfOk};
ghost use Rattle.std.specs.Option.{is_some};
ghost use Rattle.base_num.specs.Each.{each_from};
ghost use Rattle.lp_table.specs.Updates.{GivesNew};
ghost use Rattle.lp_wide_table.specs.Shape.{IsWideTable, wide_variables};
ghost use Rattle.lp_wide.specs.Finish.{wide_has_side, wide_dual_of, wide_less_term, wide_less_terms, wide_less_place, wide_less_places, wide_whole_costs, wide_rests_of, wide_cell_at, wide_reduced_costs_of};

use base_num::{List, Memory};
use lp_table::lists::with_room;
use lp_wide_table::numbers::down;
use lp_wide_table::{Wide, WideBounds, WideCell, WideTable};
use std::alloc::Global;

// Tells whether a variable has the bound that a cost of this sign speaks of.
fn has_side(bounds: &WideBounds, variable: usize, cost: WideCell) -> bool
    requires low { variable < length bounds.now.has_low }
    requires up { variable < length bounds.now.has_up }
    ensures { result ≡ wide_has_side bounds.now variable cost }
{
    if 0 < cost.number() {
        bounds.has_low.as_slice()[variable]
    } else {
        bounds.has_up.as_slice()[variable]
    }
}

// The dual of the row whose slack has this reduced cost.
#[tactic(auto, unfolding(crate::specs::Finish::wide_dual_of))]
pub(crate) fn dual_of(table: &WideTable, variable: usize, cost: WideCell) -> WideCell
    requires sized { IsWideTable table.now }
    requires there { variable < wide_variables table.now }
    ensures { result ≡ wide_dual_of table.now variable cost }
{
    if has_side(&table.bounds, variable, cost) {
        cost
    } else {
        WideCell::zero()
    }
}

// Subtracts a dual times a term. False where 256 bits do not hold it.
#[tactic(auto, unfolding(crate::specs::Finish::wide_less_term))]
fn less_term(rests: &mut [Wide], term: (u32, WideCell), dual: WideCell) -> bool
    requires inside { term.0 < length rests.old }
    ensures rests { GivesNew result (wide_less_term dual rests.old term) rests.new }
    ensures lengths { length rests.new ≡ length rests.old }
{
    let at = term.0 as usize;
    match rests[at].minus(Wide::product(dual.number(), term.1.number())) {
        Some(tail) => {
            rests[at] = tail;
            true
        }
        None => false,
    }
}

// Subtracts a dual times each of some terms.
fn less_terms(rests: &mut [Wide], terms: &[(u32, WideCell)], dual: WideCell) -> bool
    requires inside { All (λ t. t.0 < length rests.old) terms.now }
    ensures rests { GivesNew result (wide_less_terms dual rests.old terms.now) rests.new }
    ensures lengths { length rests.new ≡ length rests.old }
{
    for k in 0..terms.len() {
        if !less_term(rests, terms[k], dual) {
            return false;
        }
    }
    true
}

// Subtracts the terms of the row whose slack stands at a place.
#[tactic(auto, unfolding(crate::specs::Finish::wide_less_place), using(crate::proofs::Columns::row_within))]
fn less_place(rests: &mut [Wide], table: &WideTable, place: usize, variable: usize) -> bool
    requires sized { IsWideTable table.now }
    requires place { place < length table.now.costs }
    requires there { variable < wide_variables table.now }
    requires lengths { length rests.old ≡ length table.now.costs }
    ensures rests { GivesNew result (wide_less_place table.now place rests.old variable) rests.new }
    ensures lengths { length rests.new ≡ length rests.old }
{
    let columns = table.costs.len();
    if variable < columns {
        return true;
    }
    let dual = dual_of(table, variable, table.reduced.as_slice()[place]);
    less_terms(rests, table.rows.row(variable - columns), dual)
}

// Subtracts the terms of the rows whose slacks stand at the places.
fn less_places(rests: &mut [Wide], table: &WideTable, nonbasic: &[usize]) -> bool
    requires sized { IsWideTable table.now }
    requires places { length nonbasic.now ≡ length table.now.costs }
    requires there { All (λ v. v < wide_variables table.now) nonbasic.now }
    requires lengths { length rests.old ≡ length table.now.costs }
    ensures rests { GivesNew result (wide_less_places table.now 0 rests.old nonbasic.now) rests.new }
    ensures lengths { length rests.new ≡ length rests.old }
{
    for j in 0..nonbasic.len() {
        if !less_place(rests, table, j, nonbasic[j]) {
            return false;
        }
    }
    true
}

// A cost at scale 2^160.
fn whole_cost(cost: WideCell) -> Wide
    ensures { result ≡ cost *ℤ pos (2 ^ 80) }
{
    Wide::product(cost.number(), 1 << 80)
}

// Brings costs to scale 2^160.
fn whole_costs(alloc: Global, costs: &[WideCell]) -> Result<List<Wide>, Memory>
    ensures costs { IfOk result (λ found. found ≡ wide_whole_costs costs.now) }
    ensures lengths { IfOk result (λ found. length found ≡ length costs.now) }
{
    let mut found = with_room(alloc, costs.len())?;
    for j in 0..costs.len() {
        found.push(whole_cost(costs[j]))?;
    }
    Ok(found)
}

// Gives the rest of each column's cost: the cost less the terms of all rows times their duals. None where 256 bits do not hold
// a rest on the way.
fn rests_of(alloc: Global, table: &WideTable) -> Result<Option<List<Wide>>, Memory>
    requires sized { IsWideTable table.now }
    ensures rests { IfOk result (λ found. found ≡ wide_rests_of table.now) }
{
    let mut rests = whole_costs(alloc, table.costs.as_slice())?;
    let nonbasic = table.basis.nonbasic.as_slice();
    if less_places(rests.as_mut_slice(), table, nonbasic) {
        Ok(Some(rests))
    } else {
        Ok(None)
    }
}

// A number at scale 2^160 as a cell.
fn cell(tail: Wide) -> Option<WideCell>
    ensures { result ≡ wide_cell_at 0 tail }
{
    WideCell::new(down(tail)?)
}

// Tells whether numbers at scale 2^160 are cells.
fn are_cells(rests: &[Wide]) -> bool
    ensures { result ≡ is_some (each_from wide_cell_at 0 rests.now) }
{
    for v in 0..rests.len() {
        if cell(rests[v]).is_none() {
            return false;
        }
    }
    true
}

/// Tells whether the reduced costs of all columns, computed afresh from the duals of the rows, are cells. [`Memory`] where
/// memory was refused.
#[tactic(auto, unfolding(crate::specs::Finish::wide_reduced_costs_of))]
pub fn has_costs(alloc: Global, table: &WideTable) -> Result<bool, Memory>
    requires sized { IsWideTable table.now }
    ensures { IfOk result (λ holds. holds ≡ is_some (wide_reduced_costs_of table.now)) }
{
    match rests_of(alloc, table)? {
        Some(rests) => Ok(are_cells(rests.as_slice())),
        None => Ok(false),
    }
}
