// The problem of the parts that were read.
ghost use Rattle.std.specs.Prelude.{◌≡◌, ◌≤◌, true, length, nat_lt, IfOk, Ok, Some};
ghost use Rattle.std.specs.List.{list_all};
ghost use Rattle.base_graph.specs.Paths.{is_graph};
ghost use Rattle.problem.specs.Limits.{parts_are_lawful};
ghost use Rattle.problem.specs.Validated.{graph_of, is_validated};
ghost use Rattle.problem.specs.Arranged.{ordered, boxed, arranged, Arranges, RankedTo};
ghost use Rattle.problem.specs.declared.arranging.ArrangeFault.TheVariants as faults;

use crate::hull::hulls;
use crate::incoming_boxes::{first_gap, sides};
use crate::side::Side;
use crate::{Problem, ProblemParts, successors};
use base_graph::{RankFault, by_rank, first_unreached, longest_from, predecessors, ranks};
use base_num::{List, Memory};
use std::alloc::Global;

/// Why a graph is not arranged.
#[derive(Clone, Copy, Debug, PartialEq, Eq)]
pub enum ArrangeFault {
    /// The least node that can reach itself.
    Cycle { node: u32 },
    /// The least node that the root does not reach.
    Unreachable { node: u32 },
    /// The least node, and its least state, with a given bound that does not enclose the states that come in.
    BoxGap { node: u32, state: u32 },
    /// Memory was refused.
    Memory,
}

impl From<Memory> for ArrangeFault {
    ghost from_gives = { λ _ e. e ≡ faults.Memory };

    fn from(_: Memory) -> Self {
        ArrangeFault::Memory
    }
}

fn ranked(alloc: Global, graph: &[List<u32>]) -> Result<List<u32>, ArrangeFault>
    requires known { is_graph graph.now ≡ true }
    requires count { length graph.now ≤ 1000 }
    ensures value { RankedTo graph.now result }
    ensures below { IfOk result (λ rs. list_all (λ r. nat_lt r (length rs)) rs ≡ true) }
    ensures count { IfOk result (λ rs. length rs ≤ 1000) }
{
    match ranks(alloc, graph) {
        Ok(ranks) => Ok(ranks),
        Err(RankFault::Cycle { node }) => Err(ArrangeFault::Cycle { node }),
        Err(RankFault::Memory) => Err(ArrangeFault::Memory),
    }
}

// The nodes by rank, and the number of nodes on the longest path from the root.
#[tactic(auto, unfolding(crate::specs::Arranged::ordered), using(crate::proofs::ValidatedFacts::known_graph, crate::proofs::ValidatedFacts::known_root, crate::proofs::ValidatedFacts::few_in_graph))]
fn ordered(
    alloc: Global,
    parts: &ProblemParts,
    graph: &[List<u32>],
) -> Result<(List<u32>, u32), ArrangeFault>
    requires fits { parts_are_lawful parts.now ≡ true }
    requires graph { graph.now ≡ graph_of parts.now }
    ensures { Arranges (λ o. o) result (ordered parts.now) }
{
    let ranks = ranked(alloc, graph)?;
    let root = parts.root.as_slice();
    if let Some(node) = first_unreached(alloc, graph, root)? {
        return Err(ArrangeFault::Unreachable { node });
    }
    let order = by_rank(alloc, ranks.as_slice())?;
    Ok((order, longest_from(ranks.as_slice(), root)))
}

// The sides of the boxes, low and high.
#[tactic(auto, unfolding(crate::specs::Arranged::boxed), using(crate::proofs::ValidatedFacts::known_graph, crate::proofs::ValidatedFacts::few_in_graph, crate::proofs::Fitting::few))]
fn boxed(
    alloc: Global,
    parts: &ProblemParts,
    graph: &[List<u32>],
) -> Result<(List<List<i64>>, List<List<i64>>), ArrangeFault>
    requires fits { parts_are_lawful parts.now ≡ true }
    requires graph { graph.now ≡ graph_of parts.now }
    ensures { Arranges (λ b. b) result (boxed parts.now) }
{
    let into = predecessors(alloc, graph)?;
    let low = hulls(alloc, Side::Low, parts, into.as_slice())?;
    let high = hulls(alloc, Side::High, parts, into.as_slice())?;
    if let Some((node, state)) = first_gap(parts, low.as_slice(), high.as_slice()) {
        return Err(ArrangeFault::BoxGap { node, state });
    }
    let lo = sides(alloc, Side::Low, parts, low.as_slice())?;
    let hi = sides(alloc, Side::High, parts, high.as_slice())?;
    Ok((lo, hi))
}

// Seals parts that fit together.
fn validated(
    alloc: Global,
    parts: ProblemParts,
    order: List<u32>,
    longest: u32,
    lo: List<List<i64>>,
    hi: List<List<i64>>,
) -> Result<Problem, ArrangeFault>
    requires { is_validated (record { parts = parts; order = order; longest = longest; lo = lo; hi = hi }) ≡ true }
    ensures { Arranges (λ p. p) result (Ok (record { parts = parts; order = order; longest = longest; lo = lo; hi = hi })) }
{
    match Problem::seal(alloc, parts, order, longest, lo, hi) {
        Ok(problem) => Ok(problem),
        Err(_) => Err(ArrangeFault::Memory),
    }
}

/// Arranges the parts that were read to a problem, with its order, its longest path, and the boxes of its incoming states: the
/// given bound where one is given, else the side of the hull of the states that come in.
///
/// Cycle for the least node that can reach itself, else Unreachable for the least node that the root does not reach, else
/// BoxGap for the least node, and its least state, with a given bound that does not enclose the states that come in. After a
/// refusal the parts are dropped.
#[tactic(auto, unfolding(crate::specs::Arranged::arranged), using(crate::proofs::Fitting::fits, crate::proofs::Fitting::arranged_is))]
pub fn arrange(alloc: Global, parts: ProblemParts) -> Result<Problem, ArrangeFault>
    requires { parts_are_lawful parts ≡ true }
    ensures { Arranges (λ p. p) result (arranged parts) }
{
    let graph = successors(alloc, parts.nodes.as_slice())?;
    let (order, longest) = ordered(alloc, &parts, graph.as_slice())?;
    let (lo, hi) = boxed(alloc, &parts, graph.as_slice())?;
    validated(alloc, parts, order, longest, lo, hi)
}
