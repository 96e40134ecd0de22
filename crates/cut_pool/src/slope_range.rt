// The ends between which slopes of a node's cuts have their binary digits.
ghost use Rattle.std.specs.Prelude.{◌≡◌, ◌<◌, ◌≤◌, ◌+◌, ◌^◌, ◌∷◌, ◌++◌, [], ℕ, pos, List, true, length, replicate, nat_abs, max, All, IfOk, IfSome, ◌⊎◌};
ghost use Rattle.base_num.specs.Sums.{entry};
ghost use Rattle.lp_program.specs.PackedCut.{PackedCut};
ghost use Rattle.lp_program.specs.Covering.{packed_cut_at};
ghost use Rattle.lp_program.specs.SlopeEnds.{IsLevel, IsUndercut, AreSlopeEnds};
ghost use Rattle.cut_pool.specs.SlopeRanges.{HasNoGreater, AreEndsOfFirst, AreEndsOf};

use base_num::Memory;
use lp_program::{CutList, SlopeEnds};
use std::alloc::Global;

/// The most cuts that are kept as those of the least slopes.
const MOST_LEAST: usize = 100;

/// The greatest slopes of a node's cuts, and the places of those whose slopes are the least.
#[derive(Drop)]
pub(crate) struct SlopeRange {
    /// For each state the greatest size of a cut's slope, at scale 2^24.
    greatest: Vec<i64>,
    /// The places of some cuts: each other one that is not level has in no state a lesser slope, in size, than one of these.
    least: Vec<u32>,
}

/// Gives the size of a slope.
fn size(slope: i64) -> i64
    requires { nat_abs slope < 2 ^ 57 }
    ensures { result ≡ pos (nat_abs slope) }
{
    slope.unsigned_abs() as i64
}

/// Gives the greater of two sizes of slopes.
fn greater(first: i64, second: i64) -> i64
    requires first { nat_abs first < 2 ^ 57 }
    requires second { nat_abs second < 2 ^ 57 }
    ensures { result ≡ pos (max (nat_abs first) (nat_abs second)) }
{
    size(first).max(size(second))
}

/// Raises the greatest sizes by the slopes of one cut more.
fn raise(greatest: &mut [i64], slopes: &[i64])
    requires count { length greatest.old ≡ length slopes.now }
    requires small { All (λ s. nat_abs s < 2 ^ 57) slopes.now }
    requires greatest { All (λ s. nat_abs s < 2 ^ 57) greatest.old }
    ensures count { length greatest.new ≡ length greatest.old }
    ensures value { (j : ℕ) → j < length greatest.old → entry greatest.new j ≡ pos (max (nat_abs (entry greatest.old j)) (nat_abs (entry slopes.now j))) }
{
    for j in 0..greatest.len() {
        greatest[j] = greater(greatest[j], slopes[j]);
    }
}

/// Raises the greatest sizes that are kept by the slopes of one cut more.
fn raise_kept(greatest: &mut Vec<i64>, slopes: &[i64])
    requires count { length greatest.old.items ≡ length slopes.now }
    requires small { All (λ s. nat_abs s < 2 ^ 57) slopes.now }
    requires greatest { All (λ s. nat_abs s < 2 ^ 57) greatest.old.items }
    ensures count { length greatest.new.items ≡ length greatest.old.items }
    ensures value { (j : ℕ) → j < length greatest.old.items → entry greatest.new.items j ≡ pos (max (nat_abs (entry greatest.old.items j)) (nat_abs (entry slopes.now j))) }
{
    raise(greatest.as_mut_slice(), slopes);
}

/// Tells whether all slopes are 0.
fn is_level(slopes: &[i64]) -> bool
    ensures { result ≡ true → (j : ℕ) → entry slopes.now j ≡ pos 0 }
{
    for j in 0..slopes.len() {
        if slopes[j] != 0 {
            return false;
        }
    }
    true
}

/// Tells whether in each state the first slope is not the greater, in size.
fn has_no_greater(slopes: &[i64], others: &[i64]) -> bool
    requires { length slopes.now ≡ length others.now }
    ensures { result ≡ true → (j : ℕ) → nat_abs (entry slopes.now j) ≤ nat_abs (entry others.now j) }
{
    for j in 0..slopes.len() {
        if others[j].unsigned_abs() < slopes[j].unsigned_abs() {
            return false;
        }
    }
    true
}

/// Tells whether in each state the slope of the first of two cuts is not the greater, in size.
fn undercuts(cuts: &CutList, first: u32, second: u32) -> bool
    requires first { first < length cuts.now }
    requires second { second < length cuts.now }
    ensures { result ≡ true → HasNoGreater (packed_cut_at cuts.now first) (packed_cut_at cuts.now second) }
{
    let slopes = cuts.slopes(first as usize);
    let others = cuts.slopes(second as usize);
    slopes.len() == others.len() && has_no_greater(slopes, others)
}

/// Tells whether one of some cuts undercuts another.
fn is_undercut(cuts: &CutList, places: &[u32], place: u32) -> bool
    requires there { place < length cuts.now }
    requires places { All (λ (p : ℕ). p < length cuts.now) places.now }
    ensures { result ≡ true → IsUndercut cuts.now places.now (packed_cut_at cuts.now place) }
{
    for k in 0..places.len() {
        if undercuts(cuts, places[k], place) {
            return true;
        }
    }
    false
}

/// Tells whether a cut is level, or one of some cuts undercuts it.
fn is_known(cuts: &CutList, places: &[u32], place: u32) -> bool
    requires there { place < length cuts.now }
    requires places { All (λ (p : ℕ). p < length cuts.now) places.now }
    ensures { result ≡ true → IsLevel (packed_cut_at cuts.now place) ⊎ IsUndercut cuts.now places.now (packed_cut_at cuts.now place) }
{
    if is_level(cuts.slopes(place as usize)) {
        return true;
    }
    is_undercut(cuts, places, place)
}

/// Gives a list of zeros, one entry per state. [`Memory`] where memory was refused.
fn zeros(alloc: Global, states: usize) -> Result<Vec<i64>, Memory>
    ensures { IfOk result (λ found. found.items ≡ replicate states (pos 0)) }
{
    let mut found = Vec::new(alloc);
    for _ in 0..states {
        found.push(0)?;
    }
    Ok(found)
}

impl SlopeRange {
    /// Makes room for the ends of a list's slopes. [`Memory`] where memory was refused.
    fn new(alloc: Global, cuts: &CutList) -> Result<SlopeRange, Memory>
        ensures { IfOk result (AreEndsOfFirst cuts.now 0) }
    {
        let greatest = zeros(alloc, cuts.states())?;
        Ok(SlopeRange {
            greatest,
            least: Vec::new(alloc),
        })
    }

    /// Puts a place to those of the least slopes. False where there are too many, and where memory was refused.
    fn put(&mut self, place: u32) -> bool
        ensures greatest { self.new.greatest ≡ self.old.greatest }
        ensures least { result ≡ true → self.new.least.items ≡ self.old.least.items ++ place ∷ [] }
    {
        self.least.len() < MOST_LEAST && self.least.push(place).is_ok()
    }

    /// Takes the cut at a place in, where these are the ends of all before it. False where it has more or fewer
    /// slopes than the others, where too many cuts have the least slopes, and where memory was refused.
    pub(crate) fn add(&mut self, cuts: &CutList, place: u32) -> bool
        requires there { place < length cuts.now }
        requires before { AreEndsOfFirst cuts.now place self.old }
        ensures { result ≡ true → AreEndsOfFirst cuts.now (place + 1) self.new }
    {
        let slopes = cuts.slopes(place as usize);
        if slopes.len() != self.greatest.len() {
            return false;
        }
        raise_kept(&mut self.greatest, slopes);
        if is_known(cuts, self.least.as_slice(), place) {
            return true;
        }
        self.put(place)
    }

    /// Finds the ends of a list's slopes. None where too many cuts have the least slopes. [`Memory`] where memory was refused.
    pub(crate) fn of(alloc: Global, cuts: &CutList) -> Result<Option<SlopeRange>, Memory>
        ensures { IfOk result (λ found. IfSome found (AreEndsOf cuts.now)) }
    {
        let mut found = SlopeRange::new(alloc, cuts)?;
        for place in 0..cuts.len() as u32 {
            if !found.add(cuts, place) {
                return Ok(None);
            }
        }
        Ok(Some(found))
    }

    /// Gives the allocator of its lists.
    pub(crate) fn allocator(&self) -> Global {
        *self.least.allocator()
    }

    /// Lends them.
    fn lent(&self) -> SlopeEnds<'_>
        ensures greatest { result.greatest.now ≡ self.now.greatest.items }
        ensures least { result.least.now ≡ self.now.least.items }
    {
        SlopeEnds {
            greatest: self.greatest.as_slice(),
            least: self.least.as_slice(),
        }
    }
}

/// Lends them, where there are some.
pub(crate) fn ends(range: &Option<SlopeRange>) -> Option<SlopeEnds<'_>>
    ensures { (all : List PackedCut) → IfSome range.now (AreEndsOf all) → IfSome result (AreSlopeEnds all) }
{
    match range {
        Some(found) => Some(found.lent()),
        None => None,
    }
}
