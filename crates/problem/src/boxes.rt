// The boxes of the incoming states, and the states that leave a node.
ghost use Rattle.std.specs.Prelude.{◌≡◌, ◌&&◌, ◌==◌, ◌<◌, [], true, length, map, get_or, int_le, IfOk};
ghost use Rattle.std.specs.List.{list_all, zip};
ghost use Rattle.base_num.specs.Sums.{entry};
ghost use Rattle.problem.specs.Limits.{are_numbers};
ghost use Rattle.problem.specs.Validated.{are_given, at_most, bounds_stand, boxes_fit, given_highs, given_lows, holds_box, initial_values, is_given, leaves_inside, out_highs, out_lows};
ghost use Rattle.problem.specs.Parts.{own_subproblem};

use crate::limits::all_numbers;
use crate::{Decision, Node, ProblemParts, Subproblem};
use base_num::{List, Memory};
use std::alloc::Global;

fn low_at(subproblem: &Subproblem, number: u32) -> i64
    ensures { result ≡ entry (map (λ d. d.low) subproblem.now.decisions) number }
{
    match subproblem.decisions.as_slice().get(number as usize) {
        Some(decision) => decision.low,
        None => 0,
    }
}

fn lows_of(alloc: Global, subproblem: &Subproblem) -> Result<List<i64>, Memory>
    ensures { IfOk result (λ l. l ≡ out_lows subproblem.now) }
{
    let mut found = List::new(alloc);
    for out in subproblem.outs.as_slice() {
        found.push(low_at(subproblem, *out))?;
    }
    Ok(found)
}

fn high_at(subproblem: &Subproblem, number: u32) -> i64
    ensures { result ≡ entry (map (λ d. d.high) subproblem.now.decisions) number }
{
    match subproblem.decisions.as_slice().get(number as usize) {
        Some(decision) => decision.high,
        None => 0,
    }
}

fn highs_of(alloc: Global, subproblem: &Subproblem) -> Result<List<i64>, Memory>
    ensures { IfOk result (λ l. l ≡ out_highs subproblem.now) }
{
    let mut found = List::new(alloc);
    for out in subproblem.outs.as_slice() {
        found.push(high_at(subproblem, *out))?;
    }
    Ok(found)
}

/// Gives one list per subproblem: the least values of the decisions that leave as states, one per state, in the states' units.
/// Memory where memory was refused.
pub fn out_lows(alloc: Global, subproblems: &[Subproblem]) -> Result<List<List<i64>>, Memory>
    ensures { IfOk result (λ l. l ≡ map out_lows subproblems.now) }
{
    let mut found = List::new(alloc);
    for subproblem in subproblems {
        let lows = lows_of(alloc, subproblem)?;
        found.push(lows)?;
    }
    Ok(found)
}

/// Gives one list per subproblem: the greatest values of the decisions that leave as states, one per state, in the states'
/// units. Memory where memory was refused.
pub fn out_highs(alloc: Global, subproblems: &[Subproblem]) -> Result<List<List<i64>>, Memory>
    ensures { IfOk result (λ l. l ≡ map out_highs subproblems.now) }
{
    let mut found = List::new(alloc);
    for subproblem in subproblems {
        let highs = highs_of(alloc, subproblem)?;
        found.push(highs)?;
    }
    Ok(found)
}

// The list with a number; empty where there is none.
fn list_or_empty(lists: &[List<i64>], number: u32) -> &[i64]
    ensures { result.now ≡ get_or lists.now number [] }
{
    match lists.get(number as usize) {
        Some(list) => list.as_slice(),
        None => &[],
    }
}

fn all_rise(lesser: &[i64], greater: &[i64]) -> bool
    ensures { result ≡ list_all (λ p. int_le p.0 p.1) (zip lesser.now greater.now) }
{
    lesser
        .iter()
        .zip(greater)
        .all(|(lesser, greater)| *lesser <= *greater)
}

#[tactic(auto, using(crate::proofs::BoxFacts::at_most_zip))]
fn at_most(lesser: &[i64], greater: &[i64]) -> bool
    ensures { result ≡ at_most lesser.now greater.now }
{
    all_rise(lesser, greater)
}

// Tells whether the box of a node holds the box from `lows` to `highs`.
fn holds_box(lo: &[List<i64>], hi: &[List<i64>], lows: &[i64], highs: &[i64], node: u32) -> bool
    ensures { result ≡ holds_box lo.now hi.now lows.now highs.now node }
{
    at_most(list_or_empty(lo, node), lows) && at_most(highs, list_or_empty(hi, node))
}

fn all_hold(nodes: &[u32], lo: &[List<i64>], hi: &[List<i64>], lows: &[i64], highs: &[i64]) -> bool
    ensures { result ≡ list_all (holds_box lo.now hi.now lows.now highs.now) nodes.now }
{
    nodes
        .iter()
        .all(|node| holds_box(lo, hi, lows, highs, *node))
}

// Tells whether the states that leave a node, from `lows` to `highs` of its subproblem, lie in the boxes of its successors.
fn leaves_inside(
    node: &Node,
    lo: &[List<i64>],
    hi: &[List<i64>],
    lows: &[List<i64>],
    highs: &[List<i64>],
) -> bool
    ensures { result ≡ list_all (holds_box lo.now hi.now (get_or lows.now node.now.sub []) (get_or highs.now node.now.sub [])) node.now.successors }
{
    all_hold(
        node.successors.as_slice(),
        lo,
        hi,
        list_or_empty(lows, node.sub),
        list_or_empty(highs, node.sub),
    )
}

fn all_leave_inside(
    nodes: &[Node],
    lo: &[List<i64>],
    hi: &[List<i64>],
    lows: &[List<i64>],
    highs: &[List<i64>],
) -> bool
    ensures { result ≡ list_all (λ n. list_all (holds_box lo.now hi.now (get_or lows.now n.sub []) (get_or highs.now n.sub [])) n.successors) nodes.now }
{
    nodes
        .iter()
        .all(|node| leaves_inside(node, lo, hi, lows, highs))
}

fn is_given(bound: Option<i64>, side: i64) -> bool
    ensures { result ≡ is_given bound side }
{
    match bound {
        Some(bound) => bound == side,
        None => true,
    }
}

fn are_given(bounds: &[Option<i64>], sides: &[i64]) -> bool
    ensures { result ≡ are_given bounds.now sides.now }
{
    bounds
        .iter()
        .zip(sides)
        .all(|(bound, side)| is_given(*bound, *side))
}

fn given_lows<'a>(parts: &'a ProblemParts, node: &Node) -> &'a [Option<i64>]
    ensures { result.now ≡ given_lows (own_subproblem parts.now node.now) }
{
    match parts.subs.as_slice().get(node.sub as usize) {
        Some(subproblem) => subproblem.low.as_slice(),
        None => &[],
    }
}

fn given_highs<'a>(parts: &'a ProblemParts, node: &Node) -> &'a [Option<i64>]
    ensures { result.now ≡ given_highs (own_subproblem parts.now node.now) }
{
    match parts.subs.as_slice().get(node.sub as usize) {
        Some(subproblem) => subproblem.high.as_slice(),
        None => &[],
    }
}

fn lows_stand(nodes: &[Node], lo: &[List<i64>], parts: &ProblemParts) -> bool
    ensures { result ≡ list_all (λ p. are_given (given_lows (own_subproblem parts.now p.0)) p.1) (zip nodes.now lo.now) }
{
    nodes.iter().zip(lo).all(|(node, sides)| are_given(given_lows(parts, node), sides.as_slice()))
}

fn highs_stand(nodes: &[Node], hi: &[List<i64>], parts: &ProblemParts) -> bool
    ensures { result ≡ list_all (λ p. are_given (given_highs (own_subproblem parts.now p.0)) p.1) (zip nodes.now hi.now) }
{
    nodes.iter().zip(hi).all(|(node, sides)| are_given(given_highs(parts, node), sides.as_slice()))
}

// Tells whether the bounds that are given for incoming states are the sides of the boxes.
#[tactic(auto, unfolding(crate::specs::Validated::bounds_stand))]
fn bounds_stand(parts: &ProblemParts, lo: &[List<i64>], hi: &[List<i64>]) -> bool
    ensures { result ≡ bounds_stand parts.now lo.now hi.now }
{
    lows_stand(parts.nodes.as_slice(), lo, parts) && highs_stand(parts.nodes.as_slice(), hi, parts)
}

fn are_boxes(sides: &[List<i64>], nodes: usize, states: usize) -> bool
    ensures { result ≡ ((length sides.now == nodes) && list_all (are_numbers states) sides.now) }
{
    sides.len() == nodes && all_numbers(sides, states)
}

fn all_outs_inside(
    alloc: Global,
    parts: &ProblemParts,
    lo: &[List<i64>],
    hi: &[List<i64>],
) -> Result<bool, Memory>
    ensures { IfOk result (λ b. b ≡ list_all (leaves_inside parts.now lo.now hi.now) parts.now.nodes) }
{
    let lows = out_lows(alloc, parts.subs.as_slice())?;
    let highs = out_highs(alloc, parts.subs.as_slice())?;
    Ok(all_leave_inside(
        parts.nodes.as_slice(),
        lo,
        hi,
        lows.as_slice(),
        highs.as_slice(),
    ))
}

/// Tells whether there is one box per node with one small entry per state, the given bounds of incoming states are its sides,
/// the state that leaves a node lies in the boxes of its successors, and the initial values lie in those of the root's.
#[tactic(auto, unfolding(crate::specs::Validated::boxes_fit))]
pub(crate) fn boxes_fit(
    alloc: Global,
    parts: &ProblemParts,
    lo: &[List<i64>],
    hi: &[List<i64>],
    initial: &[i64],
) -> Result<bool, Memory>
    requires { initial.now ≡ initial_values parts.now }
    ensures { IfOk result (λ b. b ≡ boxes_fit parts.now lo.now hi.now) }
{
    let nodes = parts.nodes.len();
    let states = parts.states.len();
    if !bounds_stand(parts, lo, hi) {
        return Ok(false);
    }
    if !are_boxes(lo, nodes, states) || !are_boxes(hi, nodes, states) {
        return Ok(false);
    }
    if !all_hold(parts.root.as_slice(), lo, hi, initial, initial) {
        return Ok(false);
    }
    all_outs_inside(alloc, parts, lo, hi)
}
