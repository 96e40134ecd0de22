// The cuts of a node that cover the others over a box of states.
ghost use Rattle.std.specs.Prelude.{◌≡◌, ◌<◌, ◌≤◌, ◌+◌, ◌∷◌, ◌++◌, [], ℕ, ◌+ℤ◌, ◌-ℤ◌, ◌*ℤ◌, List, length, map, take, get_or, true, All, IfOk, IfSome, OnOk};
ghost use Rattle.std.specs.Int.{int_min};
ghost use Rattle.std.specs.List.{remove};
ghost use Rattle.base_num.specs.Sums.{sum_to};
ghost use Rattle.lp_program.specs.PackedCut.{PackedCut};
ghost use Rattle.lp_program.specs.Covering.{packed_cut_at, AreRisingPlaces, IsCovered, Covers, AreActive};
ghost use Rattle.lp_program.specs.Coarse.{IsCoarse};
ghost use Rattle.cut_pool.specs.CoarseLists.{IsCoarseFront, IsCoarseOf};
ghost use Rattle.cut_pool.specs.Active.{lesser_over, IsLead, IsLeft, IsStanding, AreFirst, IsActive, IsMarked, AreTaken};

use crate::box_maxima::{OutBox, sum};
use crate::coarse::Coarse;
use crate::copies::Copies;
use crate::cut_value::{product, wrapped_value};
use base_num::Memory;
use lp_program::{ActiveCuts, CoarseCuts, CutList};
use std::alloc::Global;

/// The cuts of a node by which all its cuts are covered over a box: at every state of the box some of these is the greater,
/// or it is not the lesser and does not stand behind.
#[derive(Drop)]
pub(crate) struct Active {
    /// The least end of the box of each state, in whole units.
    lows: Vec<i64>,
    /// The greatest end of the box of each state, in whole units.
    highs: Vec<i64>,
    /// The places of the cuts, which rise.
    places: Vec<u32>,
    /// The values of each cut that was taken in, at corners of the box.
    corners: Vec<Corners>,
    /// The cuts at the places once more, side by side.
    copies: Copies,
    /// The same cuts in fewer binary digits. There are none where a slope is above 0, where a number does not fit, and where memory
    /// was refused.
    coarse: Option<Coarse>,
    /// The number of cuts at the mark, 0 where there is none.
    marked_count: u32,
    /// The places at the mark.
    marked: Vec<u32>,
}

/// The values of a cut where all states are at their least ends, and where all are at their greatest, at scale 2^24. They only
/// save time.
#[derive(Clone, Copy)]
struct Corners {
    least: i128,
    greatest: i128,
}

/// A cut of a list that is compared with those before it over a box: the list, the ends of the box, the values at its corners of
/// the cuts that were taken in, and those of the cut itself.
#[derive(Drop)]
struct Compared<'a> {
    cuts: &'a CutList<'a>,
    lows: &'a [i64],
    highs: &'a [i64],
    corners: &'a [Corners],
    own: Corners,
}

/// How a cut stands to the covering ones before it.
enum Standing {
    /// One of them covers it.
    Covered,
    /// It is everywhere above the one with this number, and was not found to be above one before it.
    Above(usize),
    /// Neither is known.
    Apart,
}

/// Keeps the values of the cut at a place too, and gives them. [`Memory`] where memory was refused.
fn push_corners(
    corners: &mut Vec<Corners>,
    lows: &[i64],
    highs: &[i64],
    cuts: &CutList,
    place: u32,
) -> Result<Corners, Memory>
    requires { place < length cuts.now }
{
    let height = cuts.height(place as usize);
    let slopes = cuts.slopes(place as usize);
    let own = Corners {
        least: wrapped_value(height, slopes, lows),
        greatest: wrapped_value(height, slopes, highs),
    };
    corners.push(own)?;
    Ok(own)
}

/// Tells whether the first of two cuts is the lesser at one of the corners.
fn is_lesser(first: Corners, second: Corners) -> bool {
    (first.least < second.least) | (first.greatest < second.greatest)
}

/// Tells whether each of two cuts is the lesser at one of the corners, so that neither covers the other.
fn is_apart(first: Corners, second: Corners) -> bool {
    is_lesser(first, second) & is_lesser(second, first)
}

/// Finds the lesser product of a difference of slopes with an end of a box, none where the difference leaves i64.
fn lesser_product(slope: i64, other: i64, low: i64, high: i64) -> Option<i128>
    ensures { IfSome result (λ lesser. lesser ≡ int_min ((slope -ℤ other) *ℤ low) ((slope -ℤ other) *ℤ high)) }
{
    let difference = slope.checked_sub(other)?;
    Some(product(difference, low).min(product(difference, high)))
}

/// Subtracts, none where it leaves i128.
fn difference(a: i128, b: i128) -> Option<i128>
    ensures { IfSome result (λ found. found ≡ a -ℤ b) }
{
    a.checked_sub(b)
}

/// Adds the lesser products of the differences of slopes to a difference of heights, none where a sum leaves i128.
fn sum_over(
    lows: &[i64],
    highs: &[i64],
    height: i128,
    slopes: &[i64],
    others: &[i64],
) -> Option<i128>
    requires others { length others.now ≡ length slopes.now }
    requires lows { length lows.now ≡ length slopes.now }
    requires highs { length highs.now ≡ length slopes.now }
    ensures { IfSome result (λ least. least ≡ height +ℤ sum_to (length slopes.now) (lesser_over lows.now highs.now slopes.now others.now)) }
{
    let mut least = height;
    for k in 0..slopes.len() {
        let lesser = lesser_product(slopes[k], others[k], lows[k], highs[k])?;
        least = sum(least, lesser)?;
    }
    Some(least)
}

/// Finds a number by which the first of two cuts is the greater at least, over a box. None where the box has not as many states
/// as the cuts, and where a difference or a sum leaves its type.
fn lead(lows: &[i64], highs: &[i64], cuts: &CutList, first: u32, second: u32) -> Option<i128>
    requires first { first < length cuts.now }
    requires second { second < length cuts.now }
    ensures { IfSome result (IsLead lows.now highs.now (packed_cut_at cuts.now first) (packed_cut_at cuts.now second)) }
{
    let slopes = cuts.slopes(first as usize);
    let others = cuts.slopes(second as usize);
    if others.len() != slopes.len() || lows.len() != slopes.len() || highs.len() != slopes.len() {
        return None;
    }
    let height = difference(cuts.height(first as usize), cuts.height(second as usize))?;
    sum_over(lows, highs, height, slopes, others)
}

/// Finds the values of the cut at a place. Where they are not there, those of the cut that is compared, which tell nothing.
fn corners_at(all: &Compared, place: u32) -> Corners {
    match all.corners.get(place as usize) {
        Some(corners) => *corners,
        None => all.own,
    }
}

/// Tells whether the cut at a place before the one that is compared is nowhere the lesser over a box.
fn is_over(all: &Compared, first: u32, second: u32) -> bool
    requires there { second < length all.now.cuts.now }
    requires before { first < second }
    ensures { result ≡ true → Covers all.now.cuts.now all.now.lows.now all.now.highs.now first second }
{
    if is_lesser(corners_at(all, first), all.own) {
        return false;
    }
    match lead(all.lows, all.highs, all.cuts, first, second) {
        Some(least) => 0 <= least,
        None => false,
    }
}

/// Tells whether the cut that is compared is everywhere the greater than another over a box.
fn is_above(all: &Compared, first: u32, second: u32) -> bool
    requires first { first < length all.now.cuts.now }
    requires second { second < length all.now.cuts.now }
    ensures { result ≡ true → Covers all.now.cuts.now all.now.lows.now all.now.highs.now first second }
{
    if is_lesser(all.own, corners_at(all, second)) {
        return false;
    }
    match lead(all.lows, all.highs, all.cuts, first, second) {
        Some(least) => 0 < least,
        None => false,
    }
}

/// Finds the first number from one on of a place whose cut may cover the one that is compared, or be covered by it, as its values
/// at corners tell. Where there is none, the number of places.
fn next_near(all: &Compared, places: &[u32], from: usize) -> usize
    requires { from ≤ length places.now }
    ensures there { result ≤ length places.now }
    ensures behind { from ≤ result }
{
    for k in from..places.len() {
        let Some(corners) = all.corners.get(places[k] as usize) else {
            return k;
        };
        if !is_apart(all.own, *corners) {
            return k;
        }
    }
    places.len()
}

/// Finds how the cut at a place stands to the covering ones before it, in one walk over these. The walk stops at the first one
/// that the cut is above: none of them covers it then.
fn standing_of(all: &Compared, places: &[u32], place: u32) -> Standing
    requires there { place < length all.now.cuts.now }
    requires rising { AreRisingPlaces 0 place places.now }
    ensures { IsStanding all.now.cuts.now all.now.lows.now all.now.highs.now places.now place result }
{
    let mut k = next_near(all, places, 0);
    while k < places.len() {
        if is_over(all, places[k], place) {
            return Standing::Covered;
        }
        if is_above(all, place, places[k]) {
            return Standing::Above(k);
        }
        k = next_near(all, places, k + 1);
    }
    Standing::Apart
}

/// Removes the covering cut with this number from cuts in fewer digits, where there are some.
fn remove_coarse(coarse: &mut Option<Coarse>, number: usize)
    ensures { (cuts : List PackedCut) → number < length cuts → IfSome coarse.old (IsCoarseOf cuts) → IfSome coarse.new (IsCoarseOf (remove cuts number)) }
{
    if let Some(found) = coarse {
        found.remove(number);
    }
}

/// Removes those covering cuts, from the one with a number on, that the cut at a place behind them is everywhere above. They go
/// from their places, from the copies, and from the cuts in fewer digits, each where it stands.
fn remove_lesser(
    all: &Compared,
    place: u32,
    from: usize,
    places: &mut Vec<u32>,
    copies: &mut Copies,
    coarse: &mut Option<Coarse>,
)
    requires there { place < length all.now.cuts.now }
    requires rising { AreRisingPlaces 0 place places.old.items }
    requires same { copies.old ≡ map (packed_cut_at all.now.cuts.now) places.old.items }
    requires coarse { IfSome coarse.old (IsCoarseOf copies.old) }
    ensures rising { AreRisingPlaces 0 place places.new.items }
    ensures left { (k : ℕ) → k < length places.old.items → IsLeft all.now.cuts.now all.now.lows.now all.now.highs.now place places.new.items (get_or places.old.items k 0) }
    ensures same { copies.new ≡ map (packed_cut_at all.now.cuts.now) places.new.items }
    ensures coarse { IfSome coarse.new (IsCoarseOf copies.new) }
{
    let mut k = from;
    while k < places.len() {
        if is_above(all, place, places[k]) {
            places.remove(k);
            copies.remove(k);
            remove_coarse(coarse, k);
        } else {
            k += 1;
        }
    }
}

/// Updates cuts in fewer digits, the first of which stay, as many as the count says. Digits and the base are chosen anew where no
/// cut stays, and where a number does not fit. None where the cuts cannot be had in fewer digits.
fn refilled(coarse: Option<Coarse>, highs: &[i64], cuts: &CutList, kept: usize) -> Option<Coarse>
    requires { IfSome coarse (IsCoarseFront kept cuts.now) }
    ensures { IfSome result (IsCoarseOf cuts.now) }
{
    let mut found = coarse?;
    if kept > 0 && found.refill(cuts, kept) {
        return Some(found);
    }
    if found.remake(highs, cuts) {
        return Some(found);
    }
    None
}

/// Makes cuts in fewer digits anew, in the memory of others where there are some. None where the cuts cannot be had in fewer
/// digits.
fn remade(alloc: Global, coarse: Option<Coarse>, highs: &[i64], cuts: &CutList) -> Option<Coarse>
    ensures { IfSome result (IsCoarseOf cuts.now) }
{
    let Some(mut found) = coarse else {
        return Coarse::of(alloc, highs, cuts);
    };
    if found.remake(highs, cuts) {
        return Some(found);
    }
    None
}

/// Writes some places over others. [`Memory`] where memory was refused.
fn copy_places(from: &[u32], to: &mut Vec<u32>) -> Result<(), Memory>
    ensures { OnOk result (to.new.items ≡ from.now) }
{
    to.clear();
    to.extend_from_slice(from)?;
    Ok(())
}

impl Active {
    /// Makes room for the cuts of a list that cover the others over a box. [`Memory`] where memory was refused.
    fn new(alloc: Global, boxes: &[OutBox], cuts: &CutList) -> Result<Active, Memory>
        ensures { IfOk result (AreFirst cuts.now 0) }
    {
        let mut lows = Vec::new(alloc);
        let mut highs = Vec::new(alloc);
        for ends in boxes {
            lows.push(ends.least)?;
            highs.push(ends.greatest)?;
        }
        Ok(Active {
            lows,
            highs,
            places: Vec::new(alloc),
            corners: Vec::new(alloc),
            copies: Copies::none(alloc, cuts),
            coarse: None,
            marked_count: 0,
            marked: Vec::new(alloc),
        })
    }

    /// Finds the cuts of a list by which all are covered over a box. [`Memory`] where memory was refused.
    pub(crate) fn of(alloc: Global, boxes: &[OutBox], cuts: &CutList) -> Result<Active, Memory>
        ensures { IfOk result (IsActive cuts.now) }
    {
        let mut found = Active::new(alloc, boxes, cuts)?;
        for place in 0..cuts.len() as u32 {
            found.add(cuts, place)?;
        }
        found.coarse = Coarse::of(alloc, found.highs.as_slice(), &found.copies.list());
        Ok(found)
    }

    /// Takes the cut at a place in, where all before it are covered. [`Memory`] where memory was refused, and where it has more
    /// or fewer slopes than the others.
    pub(crate) fn add(&mut self, cuts: &CutList, place: u32) -> Result<(), Memory>
        requires there { place < length cuts.now }
        requires before { AreFirst cuts.now place self.old }
        ensures { OnOk result (AreFirst cuts.now (place + 1) self.new) }
    {
        let lows = self.lows.as_slice();
        let highs = self.highs.as_slice();
        let own = push_corners(&mut self.corners, lows, highs, cuts, place)?;
        let all = Compared {
            cuts: &*cuts,
            lows,
            highs,
            corners: self.corners.as_slice(),
            own,
        };
        let first = match standing_of(&all, self.places.as_slice(), place) {
            Standing::Covered => return Ok(()),
            Standing::Above(k) => k,
            Standing::Apart => return self.push_place(cuts, place),
        };
        remove_lesser(
            &all,
            place,
            first,
            &mut self.places,
            &mut self.copies,
            &mut self.coarse,
        );
        self.push_place(cuts, place)
    }

    /// Puts a place behind the others. [`Memory`] where memory was refused, and where its cut has more or fewer slopes than the
    /// others.
    fn push_place(&mut self, cuts: &CutList, place: u32) -> Result<(), Memory>
        requires there { place < length cuts.now }
        requires same { self.old.copies ≡ map (packed_cut_at cuts.now) self.old.places.items }
        requires coarse { IfSome self.old.coarse (IsCoarseOf self.old.copies) }
        ensures { OnOk result (AreTaken cuts.now (self.old.places.items ++ place ∷ []) self.old self.new) }
    {
        let kept = self.places.len();
        let coarse = self.coarse.take();
        self.copies.push(cuts, place)?;
        let highs = self.highs.as_slice();
        self.coarse = refilled(coarse, highs, &self.copies.list(), kept);
        self.places.push(place)?;
        Ok(())
    }

    /// Sets the mark to these cuts, all of a list. There is no mark where memory was refused.
    pub(crate) fn mark(&mut self, count: u32)
        ensures { (all : List PackedCut) → count ≡ length all → IsActive all self.old → IsActive all self.new }
    {
        if copy_places(self.places.as_slice(), &mut self.marked).is_ok() {
            self.marked_count = count;
        } else {
            self.marked.clear();
            self.marked_count = 0;
        }
    }

    /// Goes back to the cuts at the mark, all of a list. [`Memory`] where the list has more or fewer cuts than there were at the
    /// mark, and where memory was refused.
    pub(crate) fn go_back(&mut self, cuts: &CutList) -> Result<(), Memory>
        requires { IsMarked cuts.now self.old }
        ensures { OnOk result (IsActive cuts.now self.new) }
    {
        if cuts.len() != self.marked_count as usize {
            return Err(Memory);
        }
        copy_places(self.marked.as_slice(), &mut self.places)?;
        self.copies.fill(cuts, self.places.as_slice())?;
        let alloc = *self.places.allocator();
        let highs = self.highs.as_slice();
        self.coarse = remade(alloc, self.coarse.take(), highs, &self.copies.list());
        self.corners.truncate(cuts.len());
        Ok(())
    }

    /// Lends them.
    pub(crate) fn lent(&self) -> ActiveCuts<'_>
        ensures places { result.places.now ≡ self.now.places.items }
        ensures lows { result.lows.now ≡ self.now.lows.items }
        ensures highs { result.highs.now ≡ self.now.highs.items }
        ensures cuts { result.cuts ≡ self.now.copies }
        ensures coarse { IfSome self.now.coarse (IsCoarseOf self.now.copies) → IfSome result.coarse (IsCoarse self.now.copies) }
    {
        ActiveCuts {
            places: self.places.as_slice(),
            lows: self.lows.as_slice(),
            highs: self.highs.as_slice(),
            cuts: self.copies.list(),
            coarse: lent_coarse(&self.coarse),
        }
    }
}

/// Lends cuts in fewer digits, where there are some.
fn lent_coarse(coarse: &Option<Coarse>) -> Option<CoarseCuts<'_>>
    ensures { (cuts : List PackedCut) → IfSome coarse.now (IsCoarseOf cuts) → IfSome result (IsCoarse cuts) }
{
    match coarse {
        Some(found) => Some(found.lent()),
        None => None,
    }
}

/// Lends them, where there are some.
pub(crate) fn lent(active: &Option<Active>) -> Option<ActiveCuts<'_>>
    ensures { (all : List PackedCut) → IfSome active.now (IsActive all) → IfSome result (AreActive all) }
{
    match active {
        Some(found) => Some(found.lent()),
        None => None,
    }
}
