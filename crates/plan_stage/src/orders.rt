// The order in which the realizations of a node are solved.
ghost use Rattle.std.specs.Prelude.{◌≡◌, ◌<◌, length, All, IfOk};
ghost use Rattle.plan_stage.specs.Orders.{distance, distances, nearest_order, numbers, place_of_least, solving_order, solving_orders};

use base_num::{List, Memory};
use problem::Problem;
use std::alloc::Global;

/// A node with fewer realizations has them solved as they are listed: its chains have two or three solves each, which gain nothing
/// by another order.
const FEW: usize = 6;

// How far two lists of values are apart: their absolute differences, summed.
fn distance(one: &[i64], other: &[i64]) -> u128
    ensures { result ≡ distance one.now other.now }
{
    let mut sum = 0u128;
    for k in 0..one.len().min(other.len()) {
        sum += u128::from(one[k].abs_diff(other[k]));
    }
    sum
}

// The place, among the realizations that are left, of the one nearest to these values. 0 where none is left.
fn nearest(values: &[List<i64>], from: &[i64], left: &[usize]) -> usize
    requires known { All (λ i. i < length values.now) left.now }
    ensures value { result ≡ place_of_least (distances values.now from.now left.now) }
    ensures there { 0 < length left.now → result < length left.now }
{
    let mut place = 0;
    let mut least = 0u128;
    for k in 0..left.len() {
        let far = distance(from, values[left[k]].as_slice());
        let nearer = k == 0 || far < least;
        if nearer {
            (place, least) = (k, far);
        }
    }
    place
}

// The numbers below this one.
fn numbers(alloc: Global, count: usize) -> Result<Vec<usize>, Memory>
    ensures { IfOk result (λ found. found.items ≡ numbers count) }
{
    let mut found = Vec::with_capacity(alloc, count)?;
    for number in 0..count {
        found.push(number)?;
    }
    Ok(found)
}

// The numbers of the realizations with these values, from the first realization on, then each the nearest that is left to the
// one before (Rosenkrantz, Stearns and Lewis 1977).
fn nearest_order(alloc: Global, values: &[List<i64>]) -> Result<List<usize>, Memory>
    ensures { IfOk result (λ order. order ≡ nearest_order values.now) }
{
    let mut left = numbers(alloc, values.len())?;
    let mut order = List::from_vec(Vec::with_capacity(alloc, values.len())?);
    let mut place = 0;
    for _ in 0..values.len() {
        let next = left.remove(place);
        order.push(next)?;
        place = nearest(values, values[next].as_slice(), left.as_slice());
    }
    Ok(order)
}

// The order in which the realizations with these values are solved.
#[tactic(auto, unfolding(crate::specs::Orders::solving_order))]
fn solving_order(alloc: Global, values: &[List<i64>]) -> Result<List<usize>, Memory>
    ensures { IfOk result (λ order. order ≡ solving_order values.now) }
{
    if values.len() < FEW {
        Ok(List::from_vec(numbers(alloc, values.len())?))
    } else {
        nearest_order(alloc, values)
    }
}

/// The order in which the realizations of each node are solved. [`Memory`] where memory was refused.
pub(crate) fn solving_orders(alloc: Global, problem: &Problem) -> Result<List<List<usize>>, Memory>
    ensures { IfOk result (λ orders. orders ≡ solving_orders problem.now.parts) }
{
    let nodes = problem.parts().nodes.as_slice();
    let mut orders = List::from_vec(Vec::with_capacity(alloc, nodes.len())?);
    for node in nodes {
        orders.push(solving_order(alloc, node.values.as_slice())?)?;
    }
    Ok(orders)
}
