// Values and states that a node's stage problem is made at.
ghost use Rattle.std.specs.Prelude.{◌≡◌, ◌<◌, true, length, IfOk};
ghost use Rattle.problem.specs.Limits.{is_small, are_small, are_numbers};
ghost use Rattle.theory.specs.Problem.{S};
ghost use Rattle.theory.specs.Tree.{InBox};
ghost use Rattle.test_measure.specs.StageMoments.{IsStateBetween, MayStand};

use crate::fault::RowFault;
use base_num::{List, Memory};
use plan_forward::scaled;
use problem::{GREATEST_NUMBER, Problem};
use std::alloc::Global;

/// A quarter of the scale of states.
const QUARTER: i128 = 1 << 22;

/// Values of a node's random variables, and a state in its box.
#[derive(Drop)]
pub struct Moment<'a> {
    pub values: &'a [i64],
    /// At scale 2^24, one entry per state.
    pub state: List<i128>,
}

fn is_between(low: i64, high: i64, state: i128) -> bool
    ensures { result ≡ true → IsStateBetween low high state }
{
    scaled(low) <= state && state <= scaled(high)
}

fn is_inside(low: &[i64], high: &[i64], state: &[i128]) -> bool
    ensures { result ≡ true → InBox S low.now high.now state.now }
{
    if state.len() != low.len() || state.len() != high.len() {
        return false;
    }
    for k in 0..state.len() {
        if !is_between(low[k], high[k], state[k]) {
            return false;
        }
    }
    true
}

fn is_small(value: i64) -> bool
    ensures { result ≡ is_small value }
{
    value.unsigned_abs() <= GREATEST_NUMBER
}

fn are_small(values: &[i64]) -> bool
    ensures { result ≡ are_small values.now }
{
    values.iter().all(|value| is_small(*value))
}

fn are_numbers(values: &[i64], randoms: usize) -> bool
    ensures { result ≡ are_numbers randoms values.now }
{
    values.len() == randoms && are_small(values)
}

/// A quarter of the way from one end to the other, at the scale of states.
fn quarter(near: i64, far: i64) -> i128 {
    QUARTER * (3 * i128::from(near) + i128::from(far))
}

/// The state a quarter of the way from these ends of a box to those.
fn state(alloc: Global, near: &[i64], far: &[i64]) -> Result<List<i128>, Memory> {
    let mut found = List::new(alloc);
    for k in 0..near.len().min(far.len()) {
        found.push(quarter(near[k], far[k]))?;
    }
    Ok(found)
}

/// Values with a state, where both are those of a node.
fn checked<'a>(
    problem: &Problem,
    node: u32,
    values: &'a [i64],
    state: List<i128>,
) -> Result<Moment<'a>, RowFault>
    requires { node < length problem.now.parts.nodes }
    ensures { IfOk result (λ moment. MayStand problem.now node moment.values.now moment.state) }
{
    let _ = problem.parts();
    let fits = are_numbers(values, problem.sub(node).randoms.len());
    if fits && is_inside(problem.lo(node), problem.hi(node), state.as_slice()) {
        Ok(Moment { values, state })
    } else {
        Err(RowFault::Outside)
    }
}

/// The values of a node's first realization, low in its box.
pub fn first(alloc: Global, problem: &Problem, node: u32) -> Result<Moment<'_>, RowFault>
    requires { node < length problem.now.parts.nodes }
    ensures { IfOk result (λ moment. MayStand problem.now node moment.values.now moment.state) }
{
    let all = problem.node(node).values.as_slice();
    let values = all.first().ok_or(RowFault::Outside)?.as_slice();
    let state = state(alloc, problem.lo(node), problem.hi(node))?;
    checked(problem, node, values, state)
}

/// The values of a node's last realization, high in its box.
pub fn last(alloc: Global, problem: &Problem, node: u32) -> Result<Moment<'_>, RowFault>
    requires { node < length problem.now.parts.nodes }
    ensures { IfOk result (λ moment. MayStand problem.now node moment.values.now moment.state) }
{
    let all = problem.node(node).values.as_slice();
    let values = all.last().ok_or(RowFault::Outside)?.as_slice();
    let state = state(alloc, problem.hi(node), problem.lo(node))?;
    checked(problem, node, values, state)
}
