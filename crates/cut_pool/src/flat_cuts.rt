// A node's cuts once more, side by side in memory.
ghost use Rattle.std.specs.Prelude.{◌≡◌, ◌≤◌, ◌∷◌, ◌++◌, ◌<◌, ◌^◌, [], List, length, map, take, nat_abs, nat_lt, All, IfSome, OnOk, true, false};
ghost use Rattle.theory.specs.declared.cut.Cut.{Cut};
ghost use Rattle.lp_program.specs.PackedCut.{ArePacked};
ghost use Rattle.cut_pool.specs.FlatCuts.{packed_cut, IsFlat};

use base_num::Memory;
use lp_program::CutList;
use std::alloc::Global;
use theory::Cut;

/// The most states that kept cuts may have.
const MOST_STATES: usize = 50;

/// The most cuts that are kept.
const MOST_CUTS: usize = 1 << 24;

/// The cuts of a node once more, all heights in one list and all slopes in another, so that a walk over all cuts reads memory
/// in order. Only cuts of few binary digits are kept: heights of at most 100, slopes of at most 57.
#[derive(Drop)]
pub(crate) struct FlatCuts {
    heights: Vec<i128>,
    slopes: Vec<i64>,
    /// The number of slopes of each cut.
    states: usize,
    /// All cuts are there.
    kept: bool,
}

/// Counts the slopes of the first cut.
fn states_of(cuts: &[Cut]) -> usize {
    match cuts.first() {
        Some(cut) => cut.beta.len(),
        None => 0,
    }
}

/// A height has at most 100 binary digits.
fn is_short_height(height: i128) -> bool
    ensures { result ≡ nat_lt (nat_abs height) (2 ^ 100) }
{
    height.unsigned_abs() < 1 << 100
}

/// The slope in 64 bits, none where it has more than 57 binary digits.
fn short_slope(slope: i128) -> Option<i64>
    ensures value { IfSome result (λ short. short ≡ slope) }
    ensures small { IfSome result (λ short. nat_abs short < 2 ^ 57) }
{
    if slope.unsigned_abs() < 1 << 57 {
        Some(slope as i64)
    } else {
        None
    }
}

/// Puts the slopes of a cut behind those of the others. [`Memory`] where memory was refused or where one has more than 57
/// binary digits.
fn push_short(found: &mut Vec<i64>, slopes: &[i128]) -> Result<(), Memory>
    ensures slopes { OnOk result (found.new.items ≡ found.old.items ++ slopes.now) }
    ensures small { OnOk result (All (λ s. nat_abs s < 2 ^ 57) slopes.now) }
{
    for slope in slopes {
        match short_slope(*slope) {
            Some(short) => found.push(short)?,
            None => return Err(Memory),
        }
    }
    Ok(())
}

impl FlatCuts {
    /// None are kept.
    pub(crate) fn none(alloc: Global) -> FlatCuts
        ensures { result.kept ≡ false }
    {
        FlatCuts {
            heights: Vec::new(alloc),
            slopes: Vec::new(alloc),
            states: 0,
            kept: false,
        }
    }

    /// Keeps some cuts. None are kept where one has more or fewer slopes than the first or too many binary digits, where there
    /// are too many, or where memory was refused.
    pub(crate) fn of(alloc: Global, cuts: &[Cut]) -> FlatCuts
        ensures { IsFlat cuts.now result }
    {
        let states = states_of(cuts);
        let mut found = FlatCuts {
            heights: Vec::new(alloc),
            slopes: Vec::new(alloc),
            states,
            kept: states <= MOST_STATES,
        };
        for cut in cuts {
            found.add(cut);
        }
        found
    }

    /// Appends a new cut. None are kept any more where it has more or fewer slopes than the others or too many binary digits,
    /// where there are too many, or where memory was refused.
    pub(crate) fn add(&mut self, cut: &Cut)
        ensures { (cuts : List Cut) → IsFlat cuts self.old → IsFlat (cuts ++ cut.now ∷ []) self.new }
    {
        if !self.kept {
            return;
        }
        if !self.takes(cut) || self.push(cut).is_err() {
            self.forget();
        }
    }

    // Tells whether there is room for one more cut, and it has as many slopes as the others and a height of few binary digits.
    fn takes(&self, cut: &Cut) -> bool
        ensures count { result ≡ true → length cut.now.beta ≡ self.now.states }
        ensures height { result ≡ true → nat_abs cut.now.alpha < 2 ^ 100 }
        ensures room { result ≡ true → length self.now.heights.items < 2 ^ 24 }
    {
        cut.beta.len() == self.states
            && is_short_height(cut.alpha)
            && self.heights.len() < MOST_CUTS
    }

    // Puts a cut behind the others.
    fn push(&mut self, cut: &Cut) -> Result<(), Memory>
        ensures heights { OnOk result (self.new.heights.items ≡ self.old.heights.items ++ cut.now.alpha ∷ []) }
        ensures slopes { OnOk result (self.new.slopes.items ≡ self.old.slopes.items ++ cut.now.beta) }
        ensures small { OnOk result (All (λ s. nat_abs s < 2 ^ 57) cut.now.beta) }
        ensures states { self.new.states ≡ self.old.states }
    {
        self.heights.push(cut.alpha)?;
        push_short(&mut self.slopes, cut.beta.as_slice())
    }

    /// Keeps the first cuts alone, as many as the count says.
    pub(crate) fn truncate(&mut self, count: u32)
        requires { self.old.kept ≡ true → ArePacked self.old.states self.old.heights.items self.old.slopes.items }
        ensures { (cuts : List Cut) → count ≤ length cuts → IsFlat cuts self.old → IsFlat (take count cuts) self.new }
    {
        if self.kept {
            self.heights.truncate(count as usize);
            self.slopes.truncate(count as usize * self.states);
        }
    }

    /// Keeps none any more.
    pub(crate) fn forget(&mut self)
        ensures { self.new.kept ≡ false }
    {
        self.heights.clear();
        self.slopes.clear();
        self.kept = false;
    }

    /// The cuts are kept.
    pub(crate) fn are_kept(&self) -> bool
        ensures { result ≡ self.now.kept }
    {
        self.kept
    }

    /// The cuts, where they are kept.
    pub(crate) fn list(&self) -> Option<CutList<'_>>
        requires { self.now.kept ≡ true → ArePacked self.now.states self.now.heights.items self.now.slopes.items }
        ensures { IfSome result (λ list. (cuts : List Cut) → IsFlat cuts self.now → list ≡ map packed_cut cuts) }
    {
        if self.kept {
            Some(CutList::new(self.heights.as_slice(), self.slopes.as_slice(), self.states))
        } else {
            None
        }
    }
}
