// The base cuts of a problem.
ghost use Rattle.std.specs.Prelude.{◌≡◌, ℕ, ◌<◌, ◌*◌, ◌^◌, pos, IfOk, length, [], ◌∷◌, map, All};
ghost use Rattle.problem.specs.declared.parts.Row.{Row};
ghost use Rattle.theory.specs.Problem.{S, Successor, node_at};
ghost use Rattle.theory.specs.Range.{based};
ghost use Rattle.theory.specs.Fit.{FitFor};
ghost use Rattle.theory.specs.Pools.{Sound, pool};
ghost use Rattle.theory.specs.View.{problem_of};
ghost use Rattle.cut_pool.specs.AtNodes.{PoolsFit};
ghost use Rattle.cut_check.specs.declared.base_pools.BaseFault.TheVariants as faults;
ghost use Rattle.cut_check.specs.Bases.{certificate_of, GivesCut, AddsCut, Bases};

use crate::size::repeated_range;
use base_num::{List, Memory};
use cut_make::node_at::{NodeAt, own_weights};
use cut_make::write_repeated_cut;
use cut_pool::{Cut, Pools};
use problem::{Node, Problem, Row, Subproblem};
use std::alloc::Global;
use theory::{Certificate, SCALE};

/// Why there are no base cuts.
#[derive(Clone, Copy, Debug, PartialEq, Eq)]
pub enum BaseFault {
    /// The first node in order whose base certificates have a size above 2^127 - 1, and the least
    /// realization such that the terms of the realizations up to it exceed that.
    Range { node: u32, realization: u32 },
    Memory,
}

impl From<Memory> for BaseFault {
    ghost from_gives = { λ _ e. e ≡ faults.Memory };

    fn from(_: Memory) -> Self {
        BaseFault::Memory
    }
}

/// A multiplier 0 for each row.
fn no_multipliers(alloc: Global, rows: &[Row]) -> Result<List<i64>, Memory>
    ensures { IfOk result (λ found. found ≡ map (λ (row : Row). pos 0) rows.now) }
{
    let mut found = List::new(alloc);
    for _ in rows {
        found.push(0)?;
    }
    Ok(found)
}

/// The first cut with all of a successor's weight.
#[tactic(auto, unfolding(theory::specs::Problem::S))]
fn first_cut(alloc: Global, weight: u32) -> Result<List<(u32, u64)>, Memory>
    ensures { IfOk result (λ pairs. pairs ≡ (0, S * weight) ∷ []) }
{
    let mut pairs = List::new(alloc);
    pairs.push((0, u64::from(SCALE) * u64::from(weight)))?;
    Ok(pairs)
}

/// The first cut of each successor with all of its weight.
fn first_cuts(alloc: Global, weights: &[u32]) -> Result<List<List<(u32, u64)>>, Memory>
    ensures { IfOk result (λ found. found ≡ map (λ (w : ℕ). (0, S * w) ∷ []) weights.now) }
{
    let mut found = List::new(alloc);
    for weight in weights {
        found.push(first_cut(alloc, *weight)?)?;
    }
    Ok(found)
}

/// The base certificate of each realization of a node with this subproblem: all rows 0, and for each successor its first
/// cut with all of its weight. [`Memory`] where memory was refused.
pub fn base_certificate(alloc: Global, node: &Node, sub: &Subproblem) -> Result<Certificate, Memory>
    ensures value { IfOk result (λ c. c ≡ certificate_of node.now sub.now) }
{
    let rows = no_multipliers(alloc, sub.rows.as_slice())?;
    let cuts = first_cuts(alloc, node.successor_weights.as_slice())?;
    Ok(Certificate { rows, cuts })
}

/// A cut with a slope for each of so many states, all 0, for another cut to be written over it. [`Memory`] where memory was
/// refused.
pub fn no_slopes(alloc: Global, states: usize) -> Result<Cut, Memory>
    ensures states { IfOk result (λ cut. length cut.beta ≡ states) }
{
    let mut beta = List::new(alloc);
    for _ in 0..states {
        beta.push(0)?;
    }
    Ok(Cut { alpha: 0, beta })
}

/// The base cut of a node over the cuts of its successors. All realizations have the same certificate, whose pairs are
/// read once.
fn base_cut(alloc: Global, problem: &Problem, pools: &Pools, node: u32) -> Result<Cut, BaseFault>
    requires known { node < length problem.now.parts.nodes }
    requires fit { FitFor (problem_of problem.now) (length problem.now.parts.nodes) pools.now.lists node }
    ensures { GivesCut node pools.now.lists (node_at (problem_of problem.now) node) result }
{
    let here = NodeAt::of(problem, pools, node, own_weights(problem, node));
    let certificate = base_certificate(alloc, here.node, here.subproblem)?;
    if let Some(r) = repeated_range(&here, &certificate) {
        let realization = r as u32;
        return Err(BaseFault::Range { node, realization });
    }
    let mut cut = no_slopes(alloc, here.low.len())?;
    write_repeated_cut(&here, &certificate, &mut cut);
    Ok(cut)
}

/// Appends the base cut of a node.
fn add_base_cut(
    alloc: Global,
    problem: &Problem,
    pools: &mut Pools,
    node: u32,
) -> Result<(), BaseFault>
    requires known { node < length problem.now.parts.nodes }
    requires fit { FitFor (problem_of problem.now) (length problem.now.parts.nodes) pools.old.lists node }
    requires few { length (pool pools.old.lists node) < 2 ^ 24 }
    ensures { AddsCut node pools.old.lists (node_at (problem_of problem.now) node) pools.new.lists result }
{
    let cut = base_cut(alloc, problem, pools, node)?;
    match pools.push(node, cut) {
        Ok(()) => Ok(()),
        Err(Memory) => Err(BaseFault::Memory),
    }
}

/// The base cuts of a problem: one for each node, which needs no solver (Neumaier and Shcherbina 2004, with all
/// multipliers of rows 0 and all weight on each successor's first cut). Each base cut holds, and its numbers stay small.
pub fn base(alloc: Global, problem: &Problem) -> Result<Pools, BaseFault>
    ensures value { Bases result (based problem.now) }
    ensures fit { IfOk result (λ p. PoolsFit problem.now p.lists) }
    ensures sound { IfOk result (λ p. Sound (problem_of problem.now) p.lists) }
{
    let order = problem.order();
    let mut pools = Pools::new(alloc, problem.parts().nodes.len() as u32)?;
    for node in order {
        add_base_cut(alloc, problem, &mut pools, *node)?;
    }
    Ok(pools)
}
