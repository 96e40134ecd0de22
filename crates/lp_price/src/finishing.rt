// The end of a run: reduced costs computed afresh from the duals of the rows, and whether they are to be trusted.
ghost use Rattle.std.specs.Prelude.{◌≡◌, ◌<◌, ◌≤◌, ◌+◌, ◌*◌, ◌^◌, ◌+ℤ◌, ◌-ℤ◌, pos, nat_abs, ℕ, length, All, IfOk, OnErr, IfSome};
ghost use Rattle.base_num.specs.Sums.{floor_over};
ghost use Rattle.lp_table.specs.Shape.{IsTable, AreTermsRising, variables};
ghost use Rattle.base_num.specs.Each.{each_from};
ghost use Rattle.lp_price.specs.Folds.{ReachesOrKeeps};
ghost use Rattle.lp_price.specs.Finish.{has_side, dual_of, less_term, less_terms, less_place, less_places, whole_costs, rests_of, cell_at, reduced_costs_of, products_from, bound_by, plus_bound, columns_from, plus_side, sides_from, least_cost_by_duals, is_apart, is_weak, is_far, new_cost, new_costs, finish_of};
ghost use Rattle.lp_price.specs.Enter.{cell_magnitude};
ghost use Rattle.lp_price.specs.Within.{AreWithin};

use crate::wide::SumOfProducts;
use base_num::{List, Memory, floor_div};
use lp_table::lists::with_room;
use lp_table::{Bounds, Cell, Coefficient, Quantity, WarmTable};
use std::alloc::Global;

// Tells whether a variable has the bound that a cost of this sign speaks of.
fn has_side(bounds: &Bounds, variable: usize, cost: Cell) -> bool
    requires low { variable < length bounds.now.has_low }
    requires up { variable < length bounds.now.has_up }
    ensures { result ≡ has_side bounds.now variable cost }
{
    if 0 < cost.number() {
        bounds.has_low.as_slice()[variable]
    } else {
        bounds.has_up.as_slice()[variable]
    }
}

// The dual of the row whose slack has this reduced cost.
#[tactic(auto, unfolding(crate::specs::Finish::dual_of))]
fn dual_of(table: &WarmTable, variable: usize, cost: Cell) -> Cell
    requires sized { IsTable table.now }
    requires there { variable < variables table.now }
    ensures { result ≡ dual_of table.now variable cost }
{
    if has_side(&table.bounds, variable, cost) {
        cost
    } else {
        Cell::zero()
    }
}

// Subtracts a dual times a term.
fn less_term(rests: &mut [SumOfProducts], term: (u32, Coefficient), dual: Cell)
    requires inside { term.0 < length rests.old }
    requires small { AreWithin (2 ^ 24) rests.old }
    ensures rests { rests.new ≡ less_term dual rests.old term }
    ensures lengths { length rests.new ≡ length rests.old }
    ensures within { (most : ℕ) → AreWithin most rests.old → AreWithin (most + 1) rests.new }
{
    let at = term.0 as usize;
    rests[at] = rests[at].less_term(dual, term.1);
}

// Subtracts a dual times each of some terms.
fn less_terms(rests: &mut [SumOfProducts], terms: &[(u32, Coefficient)], dual: Cell)
    requires inside { AreTermsRising 0 (length rests.old) terms.now }
    requires few { length rests.old ≤ 1199 }
    requires small { AreWithin (2 ^ 23) rests.old }
    ensures rests { rests.new ≡ less_terms dual rests.old terms.now }
    ensures lengths { length rests.new ≡ length rests.old }
    ensures within { (most : ℕ) → AreWithin most rests.old → AreWithin (most + 1199) rests.new }
{
    for k in 0..terms.len() {
        less_term(rests, terms[k], dual);
    }
}

// Subtracts the terms of the row whose slack stands at a place.
#[tactic(auto, unfolding(crate::specs::Finish::less_place))]
fn less_place(rests: &mut [SumOfProducts], table: &WarmTable, place: usize, variable: usize)
    requires sized { IsTable table.now }
    requires place { place < length table.now.costs }
    requires there { variable < variables table.now }
    requires lengths { length rests.old ≡ length table.now.costs }
    requires small { AreWithin (2 ^ 23) rests.old }
    ensures rests { rests.new ≡ less_place table.now place rests.old variable }
    ensures lengths { length rests.new ≡ length rests.old }
    ensures within { (most : ℕ) → AreWithin most rests.old → AreWithin (most + 1199) rests.new }
{
    let columns = table.costs.len();
    if variable < columns {
        return;
    }
    let dual = dual_of(table, variable, table.reduced.as_slice()[place]);
    less_terms(rests, table.rows.row(variable - columns), dual);
}

// Subtracts the terms of the rows whose slacks stand at the places.
fn less_places(rests: &mut [SumOfProducts], table: &WarmTable, nonbasic: &[usize])
    requires sized { IsTable table.now }
    requires places { length nonbasic.now ≡ length table.now.costs }
    requires there { All (λ v. v < variables table.now) nonbasic.now }
    requires lengths { length rests.old ≡ length table.now.costs }
    requires small { AreWithin 1 rests.old }
    ensures rests { rests.new ≡ less_places table.now 0 rests.old nonbasic.now }
    ensures lengths { length rests.new ≡ length rests.old }
    ensures within { AreWithin (2 ^ 23) rests.new }
{
    for j in 0..nonbasic.len() {
        less_place(rests, table, j, nonbasic[j]);
    }
}

// Brings costs to scale 2^80.
fn whole_costs(alloc: Global, costs: &[Cell]) -> Result<List<SumOfProducts>, Memory>
    ensures costs { IfOk result (λ found. found ≡ whole_costs costs.now) }
    ensures lengths { IfOk result (λ found. length found ≡ length costs.now) }
    ensures small { IfOk result (λ found. AreWithin 1 found) }
{
    let mut found = with_room(alloc, costs.len())?;
    for j in 0..costs.len() {
        found.push(SumOfProducts::of_cost(costs[j]))?;
    }
    Ok(found)
}

// Writes the rest of each column's cost, less the terms of all rows times their duals.
fn rests_of(alloc: Global, table: &WarmTable) -> Result<List<SumOfProducts>, Memory>
    requires sized { IsTable table.now }
    ensures rests { IfOk result (λ found. found ≡ rests_of table.now) }
    ensures lengths { IfOk result (λ found. length found ≡ length table.now.costs) }
    ensures small { IfOk result (λ found. AreWithin (2 ^ 23) found) }
{
    let mut rests = whole_costs(alloc, table.costs.as_slice())?;
    less_places(rests.as_mut_slice(), table, table.basis.nonbasic.as_slice());
    Ok(rests)
}

// Numbers at scale 2^80 as cells.
fn cells_of(alloc: Global, rests: &[SumOfProducts]) -> Result<Option<List<Cell>>, Memory>
    requires small { AreWithin (2 ^ 23) rests.now }
    ensures cells { IfOk result (λ found. found ≡ each_from cell_at 0 rests.now) }
    ensures lengths { IfOk result (λ found. IfSome found (λ cells. length cells ≡ length rests.now)) }
{
    let mut found = with_room(alloc, rests.len())?;
    for v in 0..rests.len() {
        match rests[v].rounded() {
            Some(cell) => found.push(cell)?,
            None => return Ok(None),
        }
    }
    Ok(Some(found))
}

// The reduced costs of all columns.
fn costs_of(alloc: Global, table: &WarmTable) -> Result<Option<List<Cell>>, Memory>
    requires sized { IsTable table.now }
    ensures costs { IfOk result (λ found. found ≡ reduced_costs_of table.now) }
    ensures lengths { IfOk result (λ found. IfSome found (λ costs. length costs ≡ length table.now.costs)) }
{
    let rests = rests_of(alloc, table)?;
    cells_of(alloc, rests.as_slice())
}

// The cost of a point.
fn point_cost(costs: &[Cell], values: &[Quantity]) -> SumOfProducts
    requires lengths { length values.now ≡ length costs.now }
    requires few { length costs.now ≤ 1199 }
    ensures value { result ≡ products_from (pos 0) costs.now values.now }
    ensures small { nat_abs result ≤ 1199 * 2 ^ 115 }
{
    let mut sum = SumOfProducts::zero();
    for j in 0..costs.len() {
        sum = sum.plus(costs[j], values[j]);
    }
    sum
}

// The bound that a cost of this sign speaks of.
fn bound_by(bounds: &Bounds, variable: usize, cost: Cell) -> Quantity
    requires low { variable < length bounds.now.lows }
    requires up { variable < length bounds.now.ups }
    ensures { result ≡ bound_by bounds.now variable cost }
{
    if 0 < cost.number() {
        bounds.lows.as_slice()[variable]
    } else {
        bounds.ups.as_slice()[variable]
    }
}

// A sum with a cost times the bound that its sign speaks of.
fn plus_bound(table: &WarmTable, sum: SumOfProducts, variable: usize, cost: Cell) -> SumOfProducts
    requires sized { IsTable table.now }
    requires there { variable < variables table.now }
    requires small { nat_abs sum ≤ 2398 * 2 ^ 115 }
    ensures value { result ≡ plus_bound table.now.bounds sum variable cost }
    ensures small { nat_abs result ≤ nat_abs sum + 2 ^ 115 }
{
    sum.plus(cost, bound_by(&table.bounds, variable, cost))
}

// Computes the least cost of the columns.
fn columns_cost(table: &WarmTable, costs: &[Cell]) -> SumOfProducts
    requires sized { IsTable table.now }
    requires lengths { length costs.now ≡ length table.now.costs }
    ensures value { result ≡ columns_from table.now 0 (pos 0) costs.now }
    ensures small { nat_abs result ≤ 1199 * 2 ^ 115 }
{
    let mut sum = SumOfProducts::zero();
    for v in 0..costs.len() {
        sum = plus_bound(table, sum, v, costs[v]);
    }
    sum
}

// Adds the least cost of the row whose slack stands at a place to a sum.
#[tactic(auto, unfolding(crate::specs::Finish::plus_side))]
fn plus_side(table: &WarmTable, sum: SumOfProducts, place: usize, variable: usize) -> SumOfProducts
    requires sized { IsTable table.now }
    requires place { place < length table.now.costs }
    requires there { variable < variables table.now }
    requires small { nat_abs sum ≤ 2398 * 2 ^ 115 }
    ensures value { result ≡ plus_side table.now place sum variable }
    ensures small { nat_abs result ≤ nat_abs sum + 2 ^ 115 }
{
    if variable < table.costs.len() {
        return sum;
    }
    let dual = dual_of(table, variable, table.reduced.as_slice()[place]);
    plus_bound(table, sum, variable, dual)
}

// Adds the least costs of the rows whose slacks stand at the places to a sum.
fn plus_sides(table: &WarmTable, sum: SumOfProducts, nonbasic: &[usize]) -> SumOfProducts
    requires sized { IsTable table.now }
    requires places { length nonbasic.now ≡ length table.now.costs }
    requires there { All (λ v. v < variables table.now) nonbasic.now }
    requires small { nat_abs sum ≤ 1199 * 2 ^ 115 }
    ensures value { result ≡ sides_from table.now 0 sum nonbasic.now }
    ensures small { nat_abs result ≤ 2398 * 2 ^ 115 }
{
    let mut sum = sum;
    for j in 0..nonbasic.len() {
        sum = plus_side(table, sum, j, nonbasic[j]);
    }
    sum
}

// The absolute value.
fn magnitude(x: i128) -> i128
    requires small { nat_abs x ≤ 2 ^ 126 + 2 ^ 125 }
    ensures value { result ≡ cell_magnitude x }
    ensures small { nat_abs result ≡ nat_abs x }
{
    if x < 0 { -x } else { x }
}

// The size of two costs.
fn size_of(cost: i128, least: i128) -> i128
    requires cost { nat_abs cost ≤ 1199 * 2 ^ 115 }
    requires least { nat_abs least ≤ 2398 * 2 ^ 115 }
    ensures value { result ≡ cell_magnitude cost +ℤ cell_magnitude least }
    ensures small { nat_abs result ≤ 3597 * 2 ^ 115 }
{
    magnitude(cost) + magnitude(least)
}

// Computes by how much costs of this size may differ where the duals are to be trusted.
fn tolerance(size: i128) -> i128
    requires small { nat_abs size ≤ 3597 * 2 ^ 115 }
    ensures { result ≡ floor_over size (2 ^ 26) +ℤ pos (2 ^ 56) }
{
    floor_div(size, 1 << 26) + (1 << 56)
}

// Computes by how much costs of this size may differ where the point is not far from the best one.
fn far_tolerance(size: i128) -> i128
    requires small { nat_abs size ≤ 3597 * 2 ^ 115 }
    ensures { result ≡ floor_over size (2 ^ 18) +ℤ pos (2 ^ 56) }
{
    floor_div(size, 1 << 18) + (1 << 56)
}

// Computes by how much a cost exceeds the least one.
fn gap(cost: i128, least: i128) -> i128
    requires cost { nat_abs cost ≤ 1199 * 2 ^ 115 }
    requires least { nat_abs least ≤ 2398 * 2 ^ 115 }
    ensures { result ≡ cost -ℤ least }
{
    cost - least
}

// Tells whether the cost of a point exceeds the least one by too much for the duals to be trusted.
fn is_apart(cost: i128, least: i128) -> bool
    requires cost { nat_abs cost ≤ 1199 * 2 ^ 115 }
    requires least { nat_abs least ≤ 2398 * 2 ^ 115 }
    ensures { result ≡ is_apart (2 ^ 26) cost least }
{
    tolerance(size_of(cost, least)) < gap(cost, least)
}

// Tells whether the cost of a point exceeds the least one by far.
fn is_far_apart(cost: i128, least: i128) -> bool
    requires cost { nat_abs cost ≤ 1199 * 2 ^ 115 }
    requires least { nat_abs least ≤ 2398 * 2 ^ 115 }
    ensures { result ≡ is_apart (2 ^ 18) cost least }
{
    far_tolerance(size_of(cost, least)) < gap(cost, least)
}

// Computes the least cost of all points, by the duals of the rows and the reduced costs of the columns.
fn least_cost(table: &WarmTable, costs: &[Cell]) -> SumOfProducts
    requires sized { IsTable table.now }
    requires lengths { length costs.now ≡ length table.now.costs }
    ensures value { result ≡ least_cost_by_duals table.now costs.now }
    ensures small { nat_abs result ≤ 2398 * 2 ^ 115 }
{
    plus_sides(
        table,
        columns_cost(table, costs),
        table.basis.nonbasic.as_slice(),
    )
}

// Tells whether the reduced costs are not to be trusted.
fn is_weak(table: &WarmTable, costs: &[Cell]) -> bool
    requires sized { IsTable table.now }
    requires lengths { length costs.now ≡ length table.now.costs }
    ensures { result ≡ is_weak table.now costs.now }
{
    let cost = point_cost(table.costs.as_slice(), table.values.as_slice());
    is_apart(cost.number(), least_cost(table, costs).number())
}

/// Tells whether the cost of a table's point is far from the least cost of all points, by the duals of its rows: by more than 2^-18
/// of both and 2^-16, or where a reduced cost leaves the range of cells. [`Memory`] where memory was refused.
#[tactic(auto, unfolding(crate::specs::Finish::is_far))]
pub fn is_far(alloc: Global, table: &WarmTable) -> Result<bool, Memory>
    requires sized { IsTable table.now }
    ensures { IfOk result (λ far. far ≡ is_far table.now) }
{
    let Some(costs) = costs_of(alloc, table)? else {
        return Ok(true);
    };
    let cost = point_cost(table.costs.as_slice(), table.values.as_slice());
    let least = least_cost(table, costs.as_slice());
    Ok(is_far_apart(cost.number(), least.number()))
}

// The reduced cost of a variable.
#[tactic(auto, unfolding(crate::specs::Finish::new_cost))]
fn new_cost(table: &WarmTable, costs: &[Cell], variable: usize, cost: Cell) -> Cell
    requires sized { IsTable table.now }
    requires lengths { length costs.now ≡ length table.now.costs }
    requires there { variable < variables table.now }
    ensures { result ≡ new_cost table.now costs.now variable cost }
{
    if variable < table.costs.len() {
        costs[variable]
    } else {
        dual_of(table, variable, cost)
    }
}

// The reduced costs at all places.
fn new_costs(
    alloc: Global,
    table: &WarmTable,
    costs: &[Cell],
    nonbasic: &[usize],
) -> Result<List<Cell>, Memory>
    requires sized { IsTable table.now }
    requires lengths { length costs.now ≡ length table.now.costs }
    requires places { length nonbasic.now ≡ length table.now.costs }
    requires there { All (λ v. v < variables table.now) nonbasic.now }
    ensures costs { IfOk result (λ found. found ≡ new_costs table.now costs.now 0 nonbasic.now) }
    ensures lengths { IfOk result (λ found. length found ≡ length table.now.costs) }
{
    let mut found = with_room(alloc, nonbasic.len())?;
    for j in 0..nonbasic.len() {
        let cost = table.reduced.as_slice()[j];
        found.push(new_cost(table, costs, nonbasic[j], cost))?;
    }
    Ok(found)
}

/// Computes the reduced costs of a table afresh from the duals of its rows, which are clipped, and sets whether they are not to
/// be trusted: where the cost of the point exceeds the least cost of all points, by these duals, by more than 2^-26 of both and
/// 2^-16. False, with the table as it was, where a reduced cost leaves the range of cells. [`Memory`] where memory was refused,
/// with the table as it was.
#[tactic(auto, unfolding(crate::specs::Finish::finish_of))]
pub fn finish(alloc: Global, table: &mut WarmTable) -> Result<bool, Memory>
    requires sized { IsTable table.old }
    ensures sized { IsTable table.new }
    ensures finished { IfOk result (λ done. ReachesOrKeeps done (finish_of table.old) table.old table.new) }
    ensures memory { OnErr result (table.new ≡ table.old) }
{
    let Some(costs) = costs_of(alloc, table)? else {
        return Ok(false);
    };
    let weak = is_weak(table, costs.as_slice());
    let nonbasic = table.basis.nonbasic.as_slice();
    let reduced = new_costs(alloc, table, costs.as_slice(), nonbasic)?;
    table.weak = weak;
    table.reduced = reduced;
    Ok(true)
}
