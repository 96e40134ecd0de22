// Copies of some cuts of a node, side by side in memory.
ghost use Rattle.std.specs.Prelude.{◌≡◌, ◌∷◌, ◌++◌, ◌<◌, ◌≤◌, ◌+◌, ◌*◌, ℕ, [], length, map, take, drop, All, OnOk};
ghost use Rattle.std.specs.List.{remove};
ghost use Rattle.lp_program.specs.Covering.{packed_cut_at};

use base_num::Memory;
use lp_program::CutList;
use std::alloc::Global;
use std::marker::Model;

/// The most cuts that are copied.
const MOST_CUTS: usize = 1 << 24;

/// Copies of some cuts, all heights in one list and all slopes in another, so that a walk over these cuts reads memory in order.
/// Contracts see them as a list of cuts.
#[derive(Drop)]
pub(crate) struct Copies {
    heights: Vec<i128>,
    slopes: Vec<i64>,
    /// The number of slopes of each cut.
    states: usize,
}

impl Model for Copies {
    ghost use Rattle.std.specs.Prelude.{List};
    ghost use Rattle.lp_program.specs.PackedCut.{PackedCut, cuts_of, ArePacked};

    ghost Value = { List PackedCut };

    ghost view = { λ c. cuts_of c.states c.heights.items c.slopes.items };

    ghost invariant = { λ c. ArePacked c.states c.heights.items c.slopes.items };
}

/// Puts the height and the slopes of a cut behind those of others. [`Memory`] where memory was refused.
fn push_cut(
    heights: &mut Vec<i128>,
    slopes: &mut Vec<i64>,
    height: i128,
    own: &[i64],
) -> Result<(), Memory>
    ensures heights { OnOk result (heights.new.items ≡ heights.old.items ++ height ∷ []) }
    ensures slopes { OnOk result (slopes.new.items ≡ slopes.old.items ++ own.now) }
{
    heights.push(height)?;
    slopes.extend_from_slice(own)?;
    Ok(())
}

/// Removes the slopes of the cut with this number, so many as there are states. Those behind them move up.
fn remove_slopes(slopes: &mut Vec<i64>, number: usize, states: usize)
    requires { number * states + states ≤ length slopes.old.items }
    ensures { slopes.new.items ≡ take (number * states) slopes.old.items ++ drop (number * states + states) slopes.old.items }
{
    let from = number * states;
    slopes.copy_within(from + states.., from);
    slopes.truncate(slopes.len() - states);
}

impl Copies {
    /// Makes room for cuts with as many slopes as those of a list.
    pub(crate) fn none(alloc: Global, cuts: &CutList) -> Copies
        ensures { result ≡ [] }
    {
        Copies {
            heights: Vec::new(alloc),
            slopes: Vec::new(alloc),
            states: cuts.states(),
        }
    }

    /// Keeps no copy.
    fn clear(&mut self)
        ensures { self.new ≡ [] }
    {
        self.heights.clear();
        self.slopes.clear();
    }

    /// Removes the copy with this number. Those behind it move up.
    pub(crate) fn remove(&mut self, number: usize)
        requires { number < length self.old }
        ensures { self.new ≡ remove self.old number }
    {
        self.heights.remove(number);
        remove_slopes(&mut self.slopes, number, self.states);
    }

    /// Copies the cut at a place of a list behind the others. [`Memory`] where memory was refused, where the cut has more or
    /// fewer slopes than the others, and where there are too many.
    pub(crate) fn push(&mut self, cuts: &CutList, place: u32) -> Result<(), Memory>
        requires { place < length cuts.now }
        ensures { OnOk result (self.new ≡ self.old ++ packed_cut_at cuts.now place ∷ []) }
    {
        let height = cuts.height(place as usize);
        let own = cuts.slopes(place as usize);
        if own.len() != self.states || self.heights.len() >= MOST_CUTS {
            return Err(Memory);
        }
        match push_cut(&mut self.heights, &mut self.slopes, height, own) {
            Ok(()) => Ok(()),
            Err(_) => {
                self.heights.clear();
                self.slopes.clear();
                Err(Memory)
            }
        }
    }

    /// Copies the cuts at some places of a list in place of the others. [`Memory`] where memory was refused, and where a cut has
    /// more or fewer slopes than the others.
    pub(crate) fn fill(&mut self, cuts: &CutList, places: &[u32]) -> Result<(), Memory>
        requires { All (λ (p : ℕ). p < length cuts.now) places.now }
        ensures { OnOk result (self.new ≡ map (packed_cut_at cuts.now) places.now) }
    {
        self.clear();
        for place in places {
            self.push(cuts, *place)?;
        }
        Ok(())
    }

    /// Lends the copies.
    pub(crate) fn list(&self) -> CutList<'_>
        ensures { result ≡ self.now }
    {
        CutList::new(self.heights.as_slice(), self.slopes.as_slice(), self.states)
    }
}
