// A problem whose parts fit together.
ghost use Rattle.std.specs.Prelude.{◌≡◌, ◌<◌, ◌==◌, ◌+◌, ◌≤◌, ℕ, List, length, Some, true, slice_get, slice_index_or, sum, ℤ, [], ◌∷◌, map, IfOk};
ghost use Rattle.std.specs.List.{list_all};
ghost use Rattle.problem.specs.Validated.{Validated, SealsTo, is_validated, subproblem_of, initial_values};
ghost use Rattle.problem.specs.declared.validated.SealFault.TheVariants as faults;

use crate::boxes::boxes_fit;
use crate::node_order::graph_fits;
use crate::{Node, ProblemParts, State, Subproblem, parts_are_lawful};
use base_num::{List, Memory};
use std::alloc::Global;
use std::marker::Model;

/// A problem whose parts fit together: the parts, the order of the nodes, and the boxes of their incoming states.
#[derive(Drop)]
pub struct Problem {
    parts: ProblemParts,
    order: List<u32>,
    longest: u32,
    lo: List<List<i64>>,
    hi: List<List<i64>>,
    initial: List<i64>,
}

impl Model for Problem {
    ghost use Rattle.std.specs.Prelude.{◌≡◌, true};
    ghost use Rattle.problem.specs.Validated.{Validated, is_validated, initial_values};

    ghost Value = { Validated };

    ghost view = { λ p. record { parts = p.parts; order = p.order; longest = p.longest; lo = p.lo; hi = p.hi } };

    ghost invariant = { λ p. (is_validated (record { parts = p.parts; order = p.order; longest = p.longest; lo = p.lo; hi = p.hi }) ≡ true)
        × (p.initial ≡ initial_values p.parts) };
}

/// Why a problem is not validated.
#[derive(Clone, Copy, Debug, PartialEq, Eq)]
pub enum SealFault {
    /// The parts do not fit together.
    NotParts,
    /// Memory was refused.
    Memory,
}

impl From<Memory> for SealFault {
    ghost from_gives = { λ _ e. e ≡ faults.Memory };

    fn from(_: Memory) -> Self {
        SealFault::Memory
    }
}

fn initial_values(alloc: Global, states: &[State]) -> Result<List<i64>, Memory>
    ensures { IfOk result (λ l. l ≡ map (λ s. s.initial) states.now) }
{
    let mut found = List::new(alloc);
    for state in states {
        found.push(state.initial)?;
    }
    Ok(found)
}

/// The ends of the boxes of all nodes' incoming states.
#[derive(Clone, Copy)]
struct Ends<'a> {
    lo: &'a [List<i64>],
    hi: &'a [List<i64>],
}

#[tactic(auto, unfolding(crate::specs::Validated::is_validated))]
fn fits(
    alloc: Global,
    parts: &ProblemParts,
    order: &[u32],
    longest: u32,
    ends: Ends,
    initial: &[i64],
) -> Result<bool, Memory>
    requires { initial.now ≡ initial_values parts.now }
    ensures { IfOk result (λ b. b ≡ is_validated (record { parts = parts.now; order = order.now; longest = longest; lo = ends.entry.lo.now; hi = ends.entry.hi.now })) }
{
    if !parts_are_lawful(parts) || !graph_fits(alloc, parts, order, longest)? {
        return Ok(false);
    }
    boxes_fit(alloc, parts, ends.lo, ends.hi, initial)
}

fn list_at(lists: &List<List<i64>>, node: u32) -> &[i64]
    requires { node < length lists.now }
    ensures { slice_get lists.now node ≡ Some result.now }
{
    item_at(lists.as_slice(), node as usize).as_slice()
}

pub(crate) fn item_at<T>(items: &[T], at: usize) -> &T
    requires { at < length items.now }
    ensures { slice_get items.now at ≡ Some result.now }
{
    &items[at]
}

impl Problem {
    /// The problem, where its parts fit together.
    ///
    /// They fit where `parts` keeps its limits, no node reaches itself and the root reaches each node; `order` has the
    /// nodes by rank, the steps of the longest path from there, and then by number; `longest` is the number of nodes
    /// on the longest path from the root; `lo` and `hi` have one list per node with one small entry per state, which is
    /// the given bound where one is given, and hold what leaves the nodes that lead there, and the initial values where
    /// the root leads there. NotRaw exactly where the parts do not fit, Memory where memory was refused. The parts are dropped
    /// after a fault.
    pub fn seal(
        alloc: Global,
        parts: ProblemParts,
        order: List<u32>,
        longest: u32,
        lo: List<List<i64>>,
        hi: List<List<i64>>,
    ) -> Result<Problem, SealFault>
        ensures { SealsTo (record { parts = parts; order = order; longest = longest; lo = lo; hi = hi }) result }
    {
        let initial = initial_values(alloc, parts.states.as_slice())?;
        let ends = Ends {
            lo: lo.as_slice(),
            hi: hi.as_slice(),
        };
        let fits = fits(
            alloc,
            &parts,
            order.as_slice(),
            longest,
            ends,
            initial.as_slice(),
        )?;
        if !fits {
            return Err(SealFault::NotParts);
        }
        Ok(Problem {
            parts,
            order,
            longest,
            lo,
            hi,
            initial,
        })
    }

    /// Gives all parts, as they were handed in.
    pub fn parts(&self) -> &ProblemParts
        ensures value { result.now ≡ self.now.parts }
        ensures validated { is_validated self.now ≡ true }
    {
        &self.parts
    }

    /// The numbers of the nodes by rank, the steps of the longest path from there, and then by number. So each node
    /// stands after its successors.
    pub fn order(&self) -> &[u32]
        ensures value { result.now ≡ self.now.order }
        ensures validated { is_validated self.now ≡ true }
    {
        self.order.as_slice()
    }

    /// The number of nodes on the longest path from the root.
    pub fn longest(&self) -> u32
        ensures { result ≡ self.now.longest }
    {
        self.longest
    }

    /// The initial values, one per state, in the states' units.
    pub fn initial(&self) -> &[i64]
        ensures { result.now ≡ initial_values self.now.parts }
    {
        self.initial.as_slice()
    }

    /// The node with a number.
    pub fn node(&self, node: u32) -> &Node
        requires { node < length self.now.parts.nodes }
        ensures { slice_get self.now.parts.nodes node ≡ Some result.now }
    {
        item_at(self.parts.nodes.as_slice(), node as usize)
    }

    /// The subproblem of a node.
    pub fn sub(&self, node: u32) -> &Subproblem
        requires { node < length self.now.parts.nodes }
        ensures { subproblem_of self.now node ≡ Some result.now }
    {
        let node = item_at(self.parts.nodes.as_slice(), node as usize);
        item_at(self.parts.subs.as_slice(), node.sub as usize)
    }

    /// The lower ends of the box of a node's incoming state, one per state, in the states' units.
    pub fn lo(&self, node: u32) -> &[i64]
        requires { node < length self.now.parts.nodes }
        ensures { slice_get self.now.lo node ≡ Some result.now }
    {
        list_at(&self.lo, node)
    }

    /// The upper ends of the box of a node's incoming state, one per state, in the states' units.
    pub fn hi(&self, node: u32) -> &[i64]
        requires { node < length self.now.parts.nodes }
        ensures { slice_get self.now.hi node ≡ Some result.now }
    {
        list_at(&self.hi, node)
    }
}
