// The cuts of a node's successors, side by side in memory.
ghost use Rattle.std.specs.Prelude.{◌≡◌, ◌≤◌, ◌<◌, ◌^◌, ◌+◌, length, take, drop, get_or, nat_abs, All, IfSome};
ghost use Rattle.base_num.specs.Sums.{entry};
ghost use Rattle.lp_program.specs.PackedCut.{cuts_of, no_packed_cut, ArePacked, IsSmallCut};
ghost use Rattle.lp_program.specs.Packed.{rows_of, IsView};
ghost use Rattle.lp_program.specs.Covering.{AreActive};
ghost use Rattle.lp_program.specs.SlopeEnds.{AreSlopeEnds};

use base_num::List;
use std::marker::Model;

/// A decision that leaves the stage as a state.
#[derive(Clone, Copy)]
pub struct Out {
    /// The decision's number.
    pub decision: u32,
    /// The state's number.
    pub state: u32,
}

/// Cuts of one node, side by side, at scale 2^24. Contracts see them as a list of cuts.
#[derive(Drop)]
pub struct CutList<'a> {
    heights: &'a [i128],
    slopes: &'a [i64],
    states: usize,
}

impl<'a> Model for CutList<'a> {
    ghost use Rattle.std.specs.Prelude.{List};
    ghost use Rattle.lp_program.specs.PackedCut.{PackedCut, cuts_of, ArePacked};

    ghost Value = { List PackedCut };

    ghost view = { λ c. cuts_of c.states c.heights.now c.slopes.now };

    ghost invariant = { λ c. ArePacked c.states c.heights.now c.slopes.now };
}

impl<'a> CutList<'a> {
    /// Joins these values where all states are 0 and these slopes, so many for each cut, to a list of cuts.
    pub fn new(heights: &'a [i128], slopes: &'a [i64], states: usize) -> CutList<'a>
        requires { ArePacked states heights.now slopes.now }
        ensures { result ≡ cuts_of states heights.now slopes.now }
    {
        CutList {
            heights,
            slopes,
            states,
        }
    }

    /// Gives the number of cuts.
    pub fn len(&self) -> usize
        ensures value { result ≡ length self.now }
        ensures few { result ≤ 2 ^ 24 }
    {
        self.heights.len()
    }

    /// Gives the value of a cut where all states are 0.
    pub fn height(&self, place: usize) -> i128
        requires { place < length self.now }
        ensures value { result ≡ (get_or self.now place no_packed_cut).height }
        ensures small { nat_abs result < 2 ^ 100 }
    {
        let heights = self.heights;
        heights[place]
    }

    /// Gives the slopes of a cut, one for each state.
    pub fn slopes(&self, place: usize) -> &'a [i64]
        requires { place < length self.now }
        ensures value { result.now ≡ (get_or self.now place no_packed_cut).slopes }
        ensures small { All (λ s. nat_abs s < 2 ^ 57) result.now }
        ensures few { length result.now ≤ 50 }
    {
        part(self.slopes, place * self.states, self.states)
    }

    /// Gives the number of states, of each of which every cut has a slope.
    pub fn states(&self) -> usize
        ensures slopes { All (λ c. length c.slopes ≡ result) self.now }
        ensures small { All IsSmallCut self.now }
        ensures few { result ≤ 50 }
    {
        self.states
    }
}

/// Cuts once more in fewer binary digits: their values are never above those that these have, where no state is below 0. No cut
/// rises with a state.
#[derive(Clone, Copy)]
pub struct CoarseCuts<'a> {
    /// For each cut how far its height lies above the base at most, at scale 2^48 without the last digits, as many as both shifts
    /// say together.
    pub heights: &'a [u32],
    /// For each state a list of how far each cut falls with it at least, at scale 2^24 without the last digits, as many as the shift
    /// of slopes says.
    pub steeps: &'a [Vec<u16>],
    /// The number above which heights are counted, at their scale.
    pub base: i64,
    /// The number of binary digits that slopes are without.
    pub slope_shift: u32,
    /// The number of binary digits that states are to be without.
    pub state_shift: u32,
}

/// Some cuts of a list, of which each other one is covered by one of these: at every state of a box it is the lesser, or it is not
/// the greater and does not stand before.
#[derive(Drop)]
pub struct ActiveCuts<'a> {
    /// The places of these cuts in the list, which rise.
    pub places: &'a [u32],
    /// The least end of the box of each state, in whole units.
    pub lows: &'a [i64],
    /// The greatest end of the box of each state, in whole units.
    pub highs: &'a [i64],
    /// The cuts at these places, side by side in their order.
    pub cuts: CutList<'a>,
    /// The same cuts in fewer binary digits, none where the pool has none of these.
    pub coarse: Option<CoarseCuts<'a>>,
}

/// The ends between which slopes of some cuts have their binary digits.
#[derive(Clone, Copy)]
pub struct SlopeEnds<'a> {
    /// For each state the greatest size of a cut's slope, at scale 2^24.
    pub greatest: &'a [i64],
    /// The places of some cuts: each other one that is not level has in each state at least as many binary digits as one of these.
    pub least: &'a [u32],
}

/// Cuts of one node, side by side, at scale 2^24. Contracts see them as a list of cuts.
#[derive(Drop)]
pub struct PackedCuts<'a> {
    all: CutList<'a>,
    active: Option<ActiveCuts<'a>>,
    ends: Option<SlopeEnds<'a>>,
}

impl<'a> Model for PackedCuts<'a> {
    ghost use Rattle.std.specs.Prelude.{List};
    ghost use Rattle.lp_program.specs.PackedCut.{PackedCut};
    ghost use Rattle.lp_program.specs.SlopeEnds.{AreKnown};

    ghost Value = { List PackedCut };

    ghost view = { λ c. c.all };

    ghost invariant = { λ c. AreKnown c.all c.active c.ends };
}

impl<'a> PackedCuts<'a> {
    /// Joins the cuts of a list with those that cover the others and with the ends of all slopes, where these are known.
    pub fn new(
        all: CutList<'a>,
        active: Option<ActiveCuts<'a>>,
        ends: Option<SlopeEnds<'a>>,
    ) -> PackedCuts<'a>
        requires active { IfSome active (AreActive all) }
        requires ends { IfSome ends (AreSlopeEnds all) }
        ensures { result ≡ all.entry }
    {
        PackedCuts { all, active, ends }
    }

    /// Gives the number of cuts.
    pub fn len(&self) -> usize
        ensures value { result ≡ length self.now }
        ensures few { result ≤ 2 ^ 24 }
    {
        self.all.len()
    }

    /// Gives the value of a cut where all states are 0.
    pub fn height(&self, place: usize) -> i128
        requires { place < length self.now }
        ensures value { result ≡ (get_or self.now place no_packed_cut).height }
        ensures small { nat_abs result < 2 ^ 100 }
    {
        self.all.height(place)
    }

    /// Gives the slopes of a cut, one for each state.
    pub fn slopes(&self, place: usize) -> &'a [i64]
        requires { place < length self.now }
        ensures value { result.now ≡ (get_or self.now place no_packed_cut).slopes }
        ensures small { All (λ s. nat_abs s < 2 ^ 57) result.now }
        ensures few { length result.now ≤ 50 }
    {
        self.all.slopes(place)
    }

    /// Gives the number of states, of each of which every cut has a slope.
    pub fn states(&self) -> usize
        ensures slopes { All (λ c. length c.slopes ≡ result) self.now }
        ensures small { All IsSmallCut self.now }
        ensures few { result ≤ 50 }
    {
        self.all.states()
    }

    /// Lends the list of all cuts.
    pub fn list(&self) -> &CutList<'a>
        ensures { result.now ≡ self.now }
    {
        &self.all
    }

    /// Lends the cuts that cover the others, where these are known.
    pub fn active(&self) -> Option<&ActiveCuts<'a>>
        ensures { IfSome result (λ a. AreActive self.now a.now) }
    {
        self.active.as_ref()
    }

    /// Gives the ends of the slopes of all cuts, where these are known.
    pub fn ends(&self) -> Option<SlopeEnds<'a>>
        ensures { IfSome result (AreSlopeEnds self.now) }
    {
        self.ends
    }
}

// Gives some slopes, as many as the count says, from a number on.
fn part<'a>(slopes: &'a [i64], from: usize, count: usize) -> &'a [i64]
    requires { from + count ≤ length slopes.now }
    ensures { result.now ≡ take count (drop from slopes.now) }
{
    &slopes[from..from + count]
}

/// The cuts of a node's successors, side by side.
#[derive(Drop)]
pub struct PackedView<'a> {
    /// The decisions that leave as states, in rising order.
    pub outs: List<Out>,
    /// The column of the first successor; those of the others follow.
    pub first: u32,
    /// The cuts of each successor.
    pub cuts: List<PackedCuts<'a>>,
}

/// Gives the slope of a state, 0 where there is none.
pub fn slope_at(slopes: &[i64], state: usize) -> i64
    requires { All (λ s. nat_abs s < 2 ^ 57) slopes.now }
    ensures value { result ≡ entry slopes.now state }
    ensures small { nat_abs result < 2 ^ 57 }
{
    match slopes.get(state) {
        Some(slope) => *slope,
        None => 0,
    }
}

/// Counts all cuts.
pub(crate) fn cut_count(view: &PackedView) -> usize
    requires { IsView view.now }
    ensures value { result ≡ length (rows_of view.now) }
    ensures few { result ≤ 2 ^ 40 }
{
    let mut count = 0;
    for cuts in view.cuts.as_slice() {
        count += cuts.len();
    }
    count
}
