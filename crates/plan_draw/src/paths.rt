// The paths that seeds draw.
ghost use Rattle.std.specs.Prelude.{◌≡◌, ◌+◌, ◌^◌, ◌<◌, ◌≤◌, Some, true, length, sum, slice_get, All, IfOk, IfSome};
ghost use Rattle.problem.specs.Limits.{are_weights};
ghost use Rattle.problem.specs.Parts.{weights_at};
ghost use Rattle.problem.specs.Validated.{is_validated};
ghost use Rattle.plan_draw.specs.Picked.{picked};
ghost use Rattle.plan_draw.specs.Drawn.{choices, EndsRight, first_node, FollowsArcs, IsInRange, IsPath, next_node, path, path_from, StartsAtRoot, step_at, word_in};

use crate::picks::{pick, pick_or_stop};
use crate::steps::PathStep;
use crate::words::{next, stream_of};
use base_num::{List, Memory};
use problem::{Node, Problem};
use rand_chacha::ChaCha20Rng;
use std::alloc::Global;

// The node where a path begins.
fn first_node(problem: &Problem, word: u32) -> u32
    ensures value { first_node problem.now.parts word ≡ Some result }
    ensures inside { result < length problem.now.parts.nodes }
    ensures validated { is_validated problem.now ≡ true }
{
    let parts = problem.parts();
    parts.root.as_slice()[pick(parts.root_weights.as_slice(), word) as usize]
}

// The node with a number.
fn node_of(problem: &Problem, node: u32) -> &Node
    requires { node < length problem.now.parts.nodes }
    ensures node { slice_get problem.now.parts.nodes node ≡ Some result.now }
    ensures validated { is_validated problem.now ≡ true }
{
    &problem.parts().nodes.as_slice()[node as usize]
}

// The realization that a word picks at a node.
fn realization(problem: &Problem, node: u32, word: u32) -> u32
    requires { node < length problem.now.parts.nodes }
    ensures { result ≡ picked (weights_at problem.now.parts node) word }
{
    pick(node_of(problem, node).weights.as_slice(), word)
}

// The successor that a word picks after a node with successors, and None where it picks the stop weight.
fn successor(node: &Node, word: u32) -> Option<u32>
    requires some { 0 < length node.now.successor_weights }
    requires weights { are_weights node.now.successor_weights ≡ true }
    requires total { sum node.now.successor_weights + node.now.stop ≤ 65535 }
    ensures { result ≡ slice_get node.now.successors (picked (choices node.now) word) }
{
    let place = pick_or_stop(node.successor_weights.as_slice(), node.stop, word);
    node.successors.as_slice().get(place as usize).copied()
}

// The successor that the next word picks, and None where the path ends. At a node without successors no word is spent.
fn next_node(problem: &Problem, words: &mut ChaCha20Rng, node: u32) -> Option<u32>
    requires node { node < length problem.now.parts.nodes }
    requires place { words.old.word_pos < 2 ^ 40 }
    ensures value { result ≡ next_node problem.now.parts node (word_in words.old words.old.word_pos) }
    ensures inside { IfSome result (λ m. m < length problem.now.parts.nodes) }
    ensures later { IfSome result (λ _. words.new ≡ record words.old { word_pos = words.old.word_pos + 1 }) }
{
    let node = node_of(problem, node);
    if node.successors.is_empty() {
        return None;
    }
    successor(node, next(words))
}

// The step at a node: the next word picks the realization.
fn step_at(problem: &Problem, words: &mut ChaCha20Rng, node: u32) -> PathStep
    requires node { node < length problem.now.parts.nodes }
    requires place { words.old.word_pos < 2 ^ 40 }
    ensures value { result ≡ step_at problem.now.parts node (word_in words.old words.old.word_pos) }
    ensures later { words.new ≡ record words.old { word_pos = words.old.word_pos + 1 } }
{
    let realization = realization(problem, node, next(words));
    PathStep { node, realization }
}

// The steps from a node on.
fn steps_from(
    alloc: Global,
    problem: &Problem,
    words: &mut ChaCha20Rng,
    first: u32,
) -> Result<List<PathStep>, Memory>
    requires node { first < length problem.now.parts.nodes }
    requires place { words.old.word_pos ≡ 1 }
    ensures { IfOk result (λ steps. steps ≡ path_from problem.now.parts (word_in words.old) problem.now.longest 1 first) }
{
    let mut found = List::new(alloc);
    let mut node = first;
    for _ in 0..problem.longest() {
        let step = step_at(problem, words, node);
        found.push(step)?;
        let Some(after) = next_node(problem, words, node) else {
            return Ok(found);
        };
        node = after;
    }
    Ok(found)
}

/// The path through a problem's graph that a seed and a stream's number draw, from the words of ChaCha20 (Bernstein
/// 2008, RFC 8439) with the key of the seed in little-endian order and 24 zero bytes, and the stream's number as the
/// nonce.
///
/// One word picks a successor of the root. At each node one word picks the realization and, where there are successors,
/// one more picks among their weights, followed by the stop weight where it is at least 1: where it picks the stop
/// weight the path ends, else it goes on at that successor. It also ends at a node without successors. A word is
/// spent also where there is one choice.
///
/// One step per node, at most as many as there are nodes on the longest path. [`Memory`] where memory was refused.
pub fn path(
    alloc: Global,
    problem: &Problem,
    seed: u64,
    stream: u64,
) -> Result<List<PathStep>, Memory>
    ensures value { IfOk result (λ steps. steps ≡ path problem.now seed stream) }
    ensures starts { IfOk result (λ steps. StartsAtRoot problem.now.parts steps) }
    ensures follows { IfOk result (λ steps. FollowsArcs problem.now.parts steps) }
    ensures ends { IfOk result (λ steps. EndsRight problem.now.parts steps) }
    ensures in_range { IfOk result (λ steps. All (IsInRange problem.now.parts) steps) }
    ensures few { IfOk result (λ steps. length steps ≤ problem.now.longest) }
    ensures is_path { IfOk result (λ steps. IsPath problem.now steps) }
{
    let mut words = stream_of(seed, stream);
    let first = first_node(problem, next(&mut words));
    steps_from(alloc, problem, &mut words, first)
}
