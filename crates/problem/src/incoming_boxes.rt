// The boxes of the incoming states.
ghost use Rattle.std.specs.Prelude.{◌≡◌, ◌<◌, ◌≤◌, length, IfOk, Option, Some, None, get_or, unwrap_or, ◌&&◌, not};
ghost use Rattle.std.specs.List.{find};
ghost use Rattle.base_num.specs.Sums.{entry};
ghost use Rattle.base_graph.specs.Paths.{numbers};
ghost use Rattle.problem.specs.Hull.{bounds, given, encloses, hull, hulls, has_gap, first_gap, box_side, sides};
ghost use Rattle.problem.specs.declared.side.Side.TheVariants.{Low, High};

use crate::hull::list_at;
use crate::side::{Side, encloses};
use crate::{ProblemParts, Subproblem};
use base_num::{List, Memory};
use std::alloc::Global;

fn bounds(side: Side, subproblem: &Subproblem) -> &[Option<i64>]
    ensures { result.now ≡ bounds side subproblem.now }
{
    match side {
        Side::Low => subproblem.low.as_slice(),
        Side::High => subproblem.high.as_slice(),
    }
}

fn bound_at(side: Side, subproblem: &Subproblem, state: usize) -> Option<i64>
    ensures { result ≡ get_or (bounds side subproblem.now) state None }
{
    match bounds(side, subproblem).get(state) {
        Some(bound) => *bound,
        None => None,
    }
}

fn given(side: Side, parts: &ProblemParts, node: usize, state: usize) -> Option<i64>
    ensures { result ≡ given side parts.now node state }
{
    let node = parts.nodes.as_slice().get(node)?;
    let subproblem = parts.subs.as_slice().get(node.sub as usize)?;
    bound_at(side, subproblem, state)
}

fn entry(numbers: &[i64], at: usize) -> i64
    ensures { result ≡ entry numbers.now at }
{
    numbers.get(at).copied().unwrap_or(0)
}

fn has_gap(parts: &ProblemParts, node: usize, state: usize, low: i64, high: i64) -> bool
    ensures { result ≡ not (encloses Low (given Low parts.now node state) low && encloses High (given High parts.now node state) high) }
{
    let low_side = given(Side::Low, parts, node, state);
    let high_side = given(Side::High, parts, node, state);
    !(encloses(Side::Low, low_side, low) && encloses(Side::High, high_side, high))
}

#[tactic(auto, using(base_graph::proofs::Numbers::drop_next, base_graph::proofs::Numbers::drop_end))]
// The least state of a node with a bound that does not enclose the hull from `low` to `high`.
fn gap_at(parts: &ProblemParts, node: usize, low: &[i64], high: &[i64]) -> Option<u32>
    requires few { length parts.now.states ≤ 50 }
    requires low { low.now ≡ hull Low parts.now node }
    requires high { high.now ≡ hull High parts.now node }
    ensures { result ≡ find (has_gap parts.now node) (numbers (length parts.now.states)) }
{
    for state in 0..parts.states.len() {
        if has_gap(parts, node, state, entry(low, state), entry(high, state)) {
            return Some(state as u32);
        }
    }
    None
}

#[tactic(auto, using(base_graph::proofs::Numbers::drop_next, base_graph::proofs::Numbers::drop_end))]
/// Finds the least node, and its least state, with a given bound that does not enclose the states that come in.
pub(crate) fn first_gap(
    parts: &ProblemParts,
    low: &[List<i64>],
    high: &[List<i64>],
) -> Option<(u32, u32)>
    requires nodes { length parts.now.nodes ≤ 1000 }
    requires states { length parts.now.states ≤ 50 }
    requires low { low.now ≡ hulls Low parts.now }
    requires high { high.now ≡ hulls High parts.now }
    ensures { result ≡ first_gap parts.now (numbers (length parts.now.nodes)) }
{
    for node in 0..parts.nodes.len() {
        if let Some(state) = gap_at(parts, node, list_at(low, node), list_at(high, node)) {
            return Some((node as u32, state));
        }
    }
    None
}

#[tactic(auto, using(base_graph::proofs::Numbers::map_more))]
// The given bound of each state, else the hull's side.
fn side_of(
    alloc: Global,
    side: Side,
    parts: &ProblemParts,
    node: usize,
    inner: &[i64],
) -> Result<List<i64>, Memory>
    requires { inner.now ≡ hull side parts.now node }
    ensures { IfOk result (λ l. l ≡ box_side side parts.now node) }
{
    let mut found = List::new(alloc);
    for state in 0..parts.states.len() {
        found.push(given(side, parts, node, state).unwrap_or(entry(inner, state)))?;
    }
    Ok(found)
}

#[tactic(auto, using(base_graph::proofs::Numbers::map_more))]
/// Gives one list per node with one entry per state: the given bound, else the hull's side.
pub(crate) fn sides(
    alloc: Global,
    side: Side,
    parts: &ProblemParts,
    inner: &[List<i64>],
) -> Result<List<List<i64>>, Memory>
    requires { inner.now ≡ hulls side parts.now }
    ensures { IfOk result (λ l. l ≡ sides side parts.now) }
{
    let mut found = List::new(alloc);
    for node in 0..parts.nodes.len() {
        found.push(side_of(alloc, side, parts, node, list_at(inner, node))?)?;
    }
    Ok(found)
}
