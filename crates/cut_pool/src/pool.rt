// The cuts of a node.
ghost use Rattle.std.specs.Prelude.{◌≡◌, ◌≤◌, ◌<◌, ◌+◌, ◌-◌, ◌^◌, ◌∷◌, ◌++◌, [], List, true, length, map, take, is_ok, if◌then◌else◌, All, IsOk, IfOk, IfSome, OnOk};
ghost use Rattle.theory.specs.declared.cut.Cut.{Cut};
ghost use Rattle.cut_pool.specs.FlatCuts.{packed_cut, IsFlat};
ghost use Rattle.cut_pool.specs.Active.{AreFirst, IsActive, IsMarked};
ghost use Rattle.cut_pool.specs.BoxMaxima.{box_maximum_over, IsBoxMaximum};
ghost use Rattle.cut_pool.specs.SlopeRanges.{AreEndsOfFirst, AreEndsOf};

use crate::active_cuts::{Active, lent};
use crate::box_maxima::{BoxMaximum, OutBox};
use crate::flat_cuts::FlatCuts;
use crate::slope_range::{SlopeRange, ends};
use base_num::Memory;
use lp_program::PackedCuts;
use std::alloc::Global;
use std::marker::Model;
use theory::Cut;

/// The most cuts that are compared with one another when those that cover the others are looked for: with so many it takes some
/// hundredths of a second, and the time grows with the square.
const MOST_COMPARED: usize = 1 << 12;

/// The most box maxima that a pool keeps. The predecessors of a node mostly share one box.
const MOST_PEAKS: usize = 8;

/// The cuts of a node, at most 2^24, and the lists that are kept of them so that stage problems are built in less time.
#[derive(Drop)]
pub(crate) struct Pool {
    cuts: Vec<Cut>,
    /// The cuts side by side.
    flat: FlatCuts,
    /// The box maxima over some boxes.
    box_maxima: Vec<BoxMaximum>,
    /// The cuts that cover the others over a box.
    active: Option<Active>,
    /// The ends of all slopes.
    range: Option<SlopeRange>,
}

impl Model for Pool {
    ghost use Rattle.std.specs.Prelude.{◌-◌, vec_len, vec_capacity};
    ghost use Rattle.cut_pool.specs.NodeLists.{AreCutsKept};
    ghost use Rattle.cut_pool.specs.Pooled.{PooledCuts};

    ghost Value = { PooledCuts };

    ghost view = { λ p. record { cuts = p.cuts.items; spare = vec_capacity p.cuts - vec_len p.cuts } };

    ghost invariant = { λ p. AreCutsKept p.cuts.items p.flat p.box_maxima.items p.active p.range };
}

/// Updates each box maximum with a new cut. False where a product or a sum leaves i128, and where memory was refused.
fn raise_all(box_maxima: &mut [BoxMaximum], cut: &Cut) -> bool
    ensures { result ≡ true → (cuts : List Cut) → All (IsBoxMaximum cuts) box_maxima.old → All (IsBoxMaximum (cuts ++ cut.now ∷ [])) box_maxima.new }
{
    for i in 0..box_maxima.len() {
        if !box_maxima[i].raise(cut) {
            return false;
        }
    }
    true
}

/// Updates each box maximum with a new cut, and drops all of them where a product or a sum leaves i128, and where memory was
/// refused.
fn raise_or_clear(box_maxima: &mut Vec<BoxMaximum>, cut: &Cut)
    ensures { (cuts : List Cut) → All (IsBoxMaximum cuts) box_maxima.old.items → All (IsBoxMaximum (cuts ++ cut.now ∷ [])) box_maxima.new.items }
{
    if !raise_all(box_maxima.as_mut_slice(), cut) {
        box_maxima.clear();
    }
}

/// Finds the greatest value over a box, where one of the box maxima is over it.
fn box_maximum_in(box_maxima: &[BoxMaximum], boxes: &[OutBox]) -> Option<i128>
    ensures { IfSome result (λ box_maximum. (cuts : List Cut) → All (IsBoxMaximum cuts) box_maxima.now → box_maximum ≡ box_maximum_over boxes.now cuts) }
{
    for box_maximum in box_maxima {
        if let Some(value) = box_maximum.over(boxes) {
            return Some(value);
        }
    }
    None
}

/// Finds those of the cuts that cover the others over a box. None where the cuts are not side by side or too many, and where the box
/// has not as many states. [`Memory`] where memory was refused.
fn active_of(
    alloc: Global,
    boxes: &[OutBox],
    flat: &FlatCuts,
    cuts: &[Cut],
) -> Result<Option<Active>, Memory>
    requires { IsFlat cuts.now flat.now }
    ensures { IfOk result (λ found. IfSome found (IsActive (map packed_cut cuts.now))) }
{
    let _ = cuts;
    let Some(list) = flat.list() else {
        return Ok(None);
    };
    if list.states() != boxes.len() || list.len() > MOST_COMPARED {
        return Ok(None);
    }
    Ok(Some(Active::of(alloc, boxes, &list)?))
}

/// Updates the covering cuts with the last of the cuts, where those before it are covered. None where the cuts are not side by
/// side, and where memory was refused.
fn renewed(active: Option<Active>, flat: &FlatCuts, cuts: &[Cut]) -> Option<Active>
    requires flat { IsFlat cuts.now flat.now }
    requires some { 0 < length cuts.now }
    requires few { length cuts.now ≤ 2 ^ 24 }
    requires before { IfSome active (AreFirst (map packed_cut cuts.now) (length cuts.now - 1)) }
    ensures { IfSome result (IsActive (map packed_cut cuts.now)) }
{
    let mut found = active?;
    let list = flat.list()?;
    let last = cuts.len() - 1;
    match found.add(&list, last as u32) {
        Ok(()) => Some(found),
        Err(_) => None,
    }
}

/// Updates the ends of slopes with the last of the cuts, where they are those of the cuts before it. None where the cuts are not side
/// by side, where too many cuts have the least slopes, and where memory was refused.
fn widened(range: Option<SlopeRange>, flat: &FlatCuts, cuts: &[Cut]) -> Option<SlopeRange>
    requires flat { IsFlat cuts.now flat.now }
    requires some { 0 < length cuts.now }
    requires few { length cuts.now ≤ 2 ^ 24 }
    requires before { IfSome range (AreEndsOfFirst (map packed_cut cuts.now) (length cuts.now - 1)) }
    ensures { IfSome result (AreEndsOf (map packed_cut cuts.now)) }
{
    let mut found = range?;
    let list = flat.list()?;
    let last = cuts.len() - 1;
    if found.add(&list, last as u32) {
        Some(found)
    } else {
        None
    }
}

/// Finds the ends of slopes. None where the cuts are not side by side, where too many cuts have the least slopes, and where memory was
/// refused.
fn range_of(alloc: Global, flat: &FlatCuts, cuts: &[Cut]) -> Option<SlopeRange>
    requires { IsFlat cuts.now flat.now }
    ensures { IfSome result (AreEndsOf (map packed_cut cuts.now)) }
{
    let _ = cuts;
    let list = flat.list()?;
    match SlopeRange::of(alloc, &list) {
        Ok(found) => found,
        Err(_) => None,
    }
}

/// Finds the ends of slopes anew, where there were some. None where the cuts are not side by side, where too many cuts have the least
/// slopes, and where memory was refused.
fn narrowed(range: Option<SlopeRange>, flat: &FlatCuts, cuts: &[Cut]) -> Option<SlopeRange>
    requires { IsFlat cuts.now flat.now }
    ensures { IfSome result (AreEndsOf (map packed_cut cuts.now)) }
{
    let alloc = range?.allocator();
    range_of(alloc, flat, cuts)
}

/// Takes each box maximum back to the first cuts, as many as the count says.
fn truncate_all(box_maxima: &mut [BoxMaximum], count: u32)
    ensures { (cuts : List Cut) → count ≤ length cuts → All (IsBoxMaximum cuts) box_maxima.old → All (IsBoxMaximum (take count cuts)) box_maxima.new }
{
    for i in 0..box_maxima.len() {
        box_maxima[i].truncate(count);
    }
}

/// Takes each box maximum back to the first cuts, as many as the count says, and drops all of them where no cut is left.
fn truncate_or_clear(box_maxima: &mut Vec<BoxMaximum>, count: u32)
    ensures { (cuts : List Cut) → count ≤ length cuts → All (IsBoxMaximum cuts) box_maxima.old.items → All (IsBoxMaximum (take count cuts)) box_maxima.new.items }
{
    if count == 0 {
        box_maxima.clear();
    } else {
        truncate_all(box_maxima.as_mut_slice(), count);
    }
}

/// Takes the covering cuts back to their mark. None where there are more or fewer cuts than at the mark, where the cuts are not
/// side by side, and where memory was refused.
fn gone_back(active: Option<Active>, flat: &FlatCuts, cuts: &[Cut]) -> Option<Active>
    requires flat { IsFlat cuts.now flat.now }
    requires marked { IfSome active (IsMarked (map packed_cut cuts.now)) }
    ensures { IfSome result (IsActive (map packed_cut cuts.now)) }
{
    let _ = cuts;
    let mut found = active?;
    let list = flat.list()?;
    match found.go_back(&list) {
        Ok(()) => Some(found),
        Err(_) => None,
    }
}

/// Sets the mark of covering cuts to them.
fn marked(active: Option<Active>, cuts: &[Cut]) -> Option<Active>
    requires few { length cuts.now ≤ 2 ^ 24 }
    requires before { IfSome active (IsActive (map packed_cut cuts.now)) }
    ensures { IfSome result (IsActive (map packed_cut cuts.now)) }
{
    let mut found = active?;
    found.mark(cuts.len() as u32);
    Some(found)
}

impl Pool {
    /// Makes a pool without cuts.
    pub(crate) fn new(alloc: Global) -> Pool
        ensures { result.cuts ≡ [] }
    {
        Pool {
            cuts: Vec::new(alloc),
            flat: FlatCuts::none(alloc),
            box_maxima: Vec::new(alloc),
            active: None,
            range: None,
        }
    }

    /// Makes room for so many more cuts. [`Memory`] where memory was refused. The cuts stay in either case, and no room is
    /// lost.
    pub(crate) fn reserve(&mut self, count: u32) -> Result<(), Memory>
        ensures cuts { self.new.cuts ≡ self.old.cuts }
        ensures room { OnOk result (count ≤ self.new.spare) }
        ensures grown { self.old.spare ≤ self.new.spare }
    {
        self.cuts.reserve(count as usize)?;
        Ok(())
    }

    /// Appends a cut. [`Memory`] comes only where there was no room, and then the cut is dropped and the cuts are as before.
    /// A cut takes the room of one at most.
    pub(crate) fn push(&mut self, cut: Cut) -> Result<(), Memory>
        requires few { length self.old.cuts < 2 ^ 24 }
        ensures cuts { self.new.cuts ≡ (if is_ok result then self.old.cuts ++ cut ∷ [] else self.old.cuts) }
        ensures room { 1 ≤ self.old.spare → IsOk result }
        ensures taken { self.old.spare ≤ self.new.spare + 1 }
    {
        raise_or_clear(&mut self.box_maxima, &cut);
        self.flat.add(&cut);
        match self.cuts.push(cut) {
            Ok(()) => {
                self.active = renewed(self.active.take(), &self.flat, self.cuts.as_slice());
                self.range = widened(self.range.take(), &self.flat, self.cuts.as_slice());
                Ok(())
            }
            Err(_) => {
                self.box_maxima.clear();
                self.flat.forget();
                Err(Memory)
            }
        }
    }

    /// Keeps the first cuts, as many as the count says, and the lists that are kept of them. The covering cuts stay where all cuts
    /// do, and where the mark was set to as many. The room of those that go is free.
    pub(crate) fn truncate(&mut self, count: u32)
        ensures cuts { self.new.cuts ≡ take count self.old.cuts }
        ensures freed { self.old.spare + (length self.old.cuts - count) ≡ self.new.spare }
    {
        if self.cuts.len() <= count as usize {
            return;
        }
        truncate_or_clear(&mut self.box_maxima, count);
        self.flat.truncate(count);
        self.cuts.truncate(count as usize);
        self.active = gone_back(self.active.take(), &self.flat, self.cuts.as_slice());
        self.range = narrowed(self.range.take(), &self.flat, self.cuts.as_slice());
    }

    /// Remembers which cuts cover the others now, for a truncation to as many cuts. The cuts and their room stay.
    pub(crate) fn mark(&mut self)
        ensures { self.new ≡ self.old }
    {
        self.active = marked(self.active.take(), self.cuts.as_slice());
    }

    /// Gives the number of cuts.
    pub(crate) fn count(&self) -> u32
        ensures value { result ≡ length self.now.cuts }
        ensures few { result ≤ 2 ^ 24 }
    {
        self.cuts.len() as u32
    }

    /// Lends the cuts.
    pub(crate) fn cuts(&self) -> &[Cut]
        ensures { result.now ≡ self.now.cuts }
    {
        self.cuts.as_slice()
    }

    /// Keeps the cuts side by side from now on, where they have few binary digits. The cuts and their room stay.
    pub(crate) fn keep_flat(&mut self, alloc: Global)
        ensures { self.new ≡ self.old }
    {
        if !self.flat.are_kept() {
            self.flat = FlatCuts::of(alloc, self.cuts.as_slice());
        }
    }

    /// Keeps the box maximum over a box from now on; none of no cuts, none where a product or a sum leaves i128, and none behind the
    /// eighth. [`Memory`] where memory was refused. The cuts and their room stay.
    pub(crate) fn keep_box_maximum(&mut self, alloc: Global, boxes: &[OutBox]) -> Result<(), Memory>
        ensures { self.new ≡ self.old }
    {
        let is_full = self.box_maxima.len() >= MOST_PEAKS;
        if is_full || box_maximum_in(self.box_maxima.as_slice(), boxes).is_some() {
            return Ok(());
        }
        if let Some(box_maximum) = BoxMaximum::of(alloc, boxes, self.cuts.as_slice())? {
            self.box_maxima.push(box_maximum)?;
        }
        Ok(())
    }

    /// Keeps the cuts that cover the others over a box from now on; none where some are kept already, where the cuts are not
    /// side by side, and where the box has not as many states. [`Memory`] where memory was refused. The cuts and their room
    /// stay.
    pub(crate) fn keep_active(&mut self, alloc: Global, boxes: &[OutBox]) -> Result<(), Memory>
        ensures { self.new ≡ self.old }
    {
        if self.active.is_some() {
            return Ok(());
        }
        self.active = active_of(alloc, boxes, &self.flat, self.cuts.as_slice())?;
        Ok(())
    }

    /// Keeps the ends of all slopes from now on; none where the cuts are not side by side, where too many cuts have the least slopes, and
    /// where memory was refused. The cuts and their room stay.
    pub(crate) fn keep_range(&mut self, alloc: Global)
        ensures { self.new ≡ self.old }
    {
        if self.range.is_none() {
            self.range = range_of(alloc, &self.flat, self.cuts.as_slice());
        }
    }

    /// Lends the cuts side by side, where they are kept.
    pub(crate) fn packed(&self) -> Option<PackedCuts<'_>>
        ensures { IfSome result (λ packed. packed ≡ map packed_cut self.now.cuts) }
    {
        let list = self.flat.list()?;
        Some(PackedCuts::new(list, lent(&self.active), ends(&self.range)))
    }

    /// Gives the greatest value over a box, where it is kept.
    pub(crate) fn box_maximum(&self, boxes: &[OutBox]) -> Option<i128>
        ensures { IfSome result (λ box_maximum. box_maximum ≡ box_maximum_over boxes.now self.now.cuts) }
    {
        box_maximum_in(self.box_maxima.as_slice(), boxes)
    }
}
