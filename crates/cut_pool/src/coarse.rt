// Cuts once more in fewer binary digits.
ghost use Rattle.std.specs.Prelude.{◌≡◌, ◌<◌, ◌≤◌, ◌+◌, ◌*◌, ◌^◌, ◌∷◌, ◌++◌, [], ℕ, ℤ, pos, ◌+ℤ◌, ◌*ℤ◌, ◌≤ℤ◌, neg_ℤ, List, true, length, take, nat_abs, IfSome};
ghost use Rattle.std.specs.List.{remove};
ghost use Rattle.base_num.specs.Sums.{entry, floor_over};
ghost use Rattle.lp_program.specs.PackedCut.{PackedCut};
ghost use Rattle.lp_program.specs.Coarse.{AreHeights, AreSteeps, IsCoarse};
ghost use Rattle.cut_pool.specs.CoarseLists.{AreColumns, AreFrontColumns, IsCoarseFront, IsCoarseOf};

use crate::cut_value::wrapped_value;
use lp_program::{CoarseCuts, CutList, slope_at};
use std::alloc::Global;

/// The most binary digits that slopes are without.
const MOST_SLOPE_SHIFT: u32 = 57;

/// The most binary digits that states are to be without.
const MOST_STATE_SHIFT: u32 = 63;

/// Cuts in fewer binary digits, in lists that grow with the cuts. Values of these are never below those of the cuts, where no
/// state is below 0.
#[derive(Drop)]
pub(crate) struct Coarse {
    /// For each cut how far its height lies above the base at most, at scale 2^48 without the last digits, as many as both shifts
    /// say together.
    heights: Vec<u32>,
    /// For each state a list of how far each cut falls with it at least, at scale 2^24 without the last digits.
    steeps: Vec<Vec<u16>>,
    /// The number above which heights are counted, at their scale.
    base: i64,
    /// The number of binary digits that slopes are without.
    slope_shift: u32,
    /// The number of binary digits that states are to be without.
    state_shift: u32,
}

/// Multiplies a height of scale 2^24 by 2^24.
fn at_fine_scale(height: i128) -> i128
    requires { nat_abs height < 2 ^ 100 }
    ensures value { result ≡ height *ℤ pos (2 ^ 24) }
    ensures small { nat_abs result ≤ 2 ^ 124 }
{
    height * 16777216
}

/// Divides by 2^shift, rounded down.
fn floored(value: i128, shift: u32) -> i128
    requires small { nat_abs value ≤ 2 ^ 124 }
    requires shift { shift ≤ 120 }
    ensures value { result ≡ floor_over value (2 ^ shift) }
    ensures small { nat_abs result ≤ 2 ^ 124 }
{
    value >> shift
}

/// Turns the sign.
fn negative(value: i128) -> i128
    requires { nat_abs value ≤ 2 ^ 124 }
    ensures value { result ≡ neg_ℤ value }
    ensures small { nat_abs result ≤ 2 ^ 124 }
{
    -value
}

/// Divides by 2^shift, rounded up.
fn ceiling(value: i128, shift: u32) -> i128
    requires small { nat_abs value ≤ 2 ^ 124 }
    requires shift { shift ≤ 120 }
    ensures value { value ≤ℤ (result *ℤ pos (2 ^ shift)) }
    ensures small { nat_abs result ≤ 2 ^ 124 }
{
    negative(floored(negative(value), shift))
}

/// Counts a number from a base, 0 where it is below. None where more than 32 digits are left.
fn counted(value: i128, base: i64) -> Option<u32>
    requires { nat_abs value ≤ 2 ^ 124 }
    ensures { IfSome result (λ found. value ≤ℤ (base +ℤ pos found)) }
{
    u32::try_from((value - i128::from(base)).max(0)).ok()
}

/// Finds how far a height at scale 2^48 lies above a base at most, both without their last digits. None where more than 32 digits
/// are left.
fn coarse_height(height: i128, shift: u32, base: i64) -> Option<u32>
    requires small { nat_abs height < 2 ^ 100 }
    requires shift { shift ≤ 120 }
    ensures { IfSome result (λ found. (height *ℤ pos (2 ^ 24)) ≤ℤ ((base +ℤ pos found) *ℤ pos (2 ^ shift))) }
{
    counted(ceiling(at_fine_scale(height), shift), base)
}

/// Finds how far a cut falls with a state, without the last digits and rounded down. None where it rises, and where it does not
/// fit.
fn coarse_steep(slope: i64, shift: u32) -> Option<u16>
    requires { shift ≤ 57 }
    ensures { IfSome result (λ found. (slope +ℤ pos (found * 2 ^ shift)) ≤ℤ pos 0) }
{
    if slope > 0 {
        return None;
    }
    u16::try_from(slope.unsigned_abs() >> shift).ok()
}

/// Puts the height of one cut more behind those of others. False where it does not fit, and where memory was refused.
fn push_height(heights: &mut Vec<u32>, height: i128, shift: u32, base: i64) -> bool
    requires small { nat_abs height < 2 ^ 100 }
    requires shift { shift ≤ 120 }
    ensures { result ≡ true → (cuts : List PackedCut) (cut : PackedCut) → cut.height ≡ height → AreHeights shift base cuts heights.old.items → AreHeights shift base (cuts ++ cut ∷ []) heights.new.items }
{
    match coarse_height(height, shift, base) {
        Some(found) => heights.push(found).is_ok(),
        None => false,
    }
}

/// Puts how far one cut more falls with a state behind those of others. False where it rises, where the number does not fit, and
/// where memory was refused.
fn push_steep(steeps: &mut Vec<u16>, slope: i64, shift: u32) -> bool
    requires { shift ≤ 57 }
    ensures { result ≡ true → (cuts : List PackedCut) (cut : PackedCut) (state : ℕ) → entry cut.slopes state ≡ slope → AreSteeps shift cuts state steeps.old.items → AreSteeps shift (cuts ++ cut ∷ []) state steeps.new.items }
{
    match coarse_steep(slope, shift) {
        Some(found) => steeps.push(found).is_ok(),
        None => false,
    }
}

/// Keeps the first heights, as many as the count says, and puts those of the other cuts behind them. False where one does not
/// fit, and where memory was refused.
fn refill_heights(
    heights: &mut Vec<u32>,
    cuts: &CutList,
    kept: usize,
    shift: u32,
    base: i64,
) -> bool
    requires { shift ≤ 120 }
    ensures { result ≡ true → AreHeights shift base (take kept cuts.now) (take kept heights.old.items) → AreHeights shift base cuts.now heights.new.items }
{
    heights.truncate(kept);
    for k in kept..cuts.len() {
        if !push_height(heights, cuts.height(k), shift, base) {
            return false;
        }
    }
    true
}

/// Keeps how far the first cuts fall with a state, as many as the count says, and puts those of the other cuts behind them.
/// False where one rises, where a number does not fit, and where memory was refused.
fn refill_steeps(
    steeps: &mut Vec<u16>,
    cuts: &CutList,
    state: usize,
    kept: usize,
    shift: u32,
) -> bool
    requires { shift ≤ 57 }
    ensures { result ≡ true → AreSteeps shift (take kept cuts.now) state (take kept steeps.old.items) → AreSteeps shift cuts.now state steeps.new.items }
{
    steeps.truncate(kept);
    for k in kept..cuts.len() {
        if !push_steep(steeps, slope_at(cuts.slopes(k), state), shift) {
            return false;
        }
    }
    true
}

/// Does so for each state.
fn refill_columns(columns: &mut [Vec<u16>], cuts: &CutList, kept: usize, shift: u32) -> bool
    requires { shift ≤ 57 }
    ensures count { length columns.new ≡ length columns.old }
    ensures steeps { result ≡ true → AreFrontColumns shift kept cuts.now columns.old → AreColumns shift cuts.now columns.new }
{
    for state in 0..columns.len() {
        if !refill_steeps(&mut columns[state], cuts, state, kept, shift) {
            return false;
        }
    }
    true
}

/// Removes the entry with this number from a list, where there is one.
fn remove_entry<T: Copy>(entries: &mut Vec<T>, number: usize)
    ensures { number < length entries.old.items → entries.new.items ≡ remove entries.old.items number }
{
    if number < entries.len() {
        entries.remove(number);
    }
}

/// Removes how far the cut with this number falls, with each state.
fn remove_steeps(columns: &mut [Vec<u16>], number: usize)
    ensures count { length columns.new ≡ length columns.old }
    ensures steeps { (shift : ℕ) (cuts : List PackedCut) → number < length cuts → AreColumns shift cuts columns.old → AreColumns shift (remove cuts number) columns.new }
{
    for state in 0..columns.len() {
        remove_entry(&mut columns[state], number);
    }
}

/// Counts the binary digits of a number.
fn digits(value: u128) -> u32
    ensures { result ≤ 128 }
{
    128 - value.leading_zeros()
}

/// Finds the greater of a number and how far a cut falls with a state at most.
fn steepest_with(steepest: u64, slopes: &[i64]) -> u64 {
    let mut most = steepest;
    for slope in slopes {
        most = most.max((*slope).min(0).unsigned_abs());
    }
    most
}

/// Finds how far cuts fall with a state at most.
fn steepest(cuts: &CutList) -> u64 {
    let mut most = 0;
    for k in 0..cuts.len() {
        most = steepest_with(most, cuts.slopes(k));
    }
    most
}

/// Finds the least value of cuts where all states are at the greatest ends of a box, wrapped into i128.
fn lowest(cuts: &CutList, highs: &[i64]) -> i128 {
    let mut least = i128::MAX;
    for k in 0..cuts.len() {
        least = least.min(wrapped_value(cuts.height(k), cuts.slopes(k), highs));
    }
    least
}

/// Finds how far the greatest height lies above the least value, wrapped into i128.
fn span(cuts: &CutList, least: i128) -> u128 {
    let mut most = least;
    for k in 0..cuts.len() {
        most = most.max(cuts.height(k));
    }
    most.wrapping_sub(least).unsigned_abs()
}

/// Finds how many digits states are to be without, so that 16 are left of each state of a box at scale 2^24.
fn state_shift(highs: &[i64]) -> u32
    ensures { result ≤ 63 }
{
    let mut most = 0;
    for high in highs {
        most = most.max((*high).max(0).unsigned_abs());
    }
    (digits(u128::from(most)) + 8).min(MOST_STATE_SHIFT)
}

/// Finds how many digits heights are to be without, so that 32 are left of the span at scale 2^48, and 63 of the least value. A
/// span that is just below a power of 2 counts as one digit more, which leaves room to round.
fn height_shift(cuts: &CutList, least: i128) -> u32 {
    let span = span(cuts, least);
    let for_span = digits(span.saturating_add(span >> 30)).saturating_sub(8);
    let for_base = digits(least.unsigned_abs()).saturating_sub(39);
    for_span.max(for_base)
}

/// Finds how many digits slopes are to be without, so that at most 16 are left of each, and heights fit without as many and those
/// that states are without.
fn slope_shift(cuts: &CutList, least: i128, state_shift: u32) -> u32
    ensures { result ≤ 57 }
{
    let for_slopes = digits(u128::from(steepest(cuts))).saturating_sub(16);
    let for_heights = height_shift(cuts, least).saturating_sub(state_shift);
    for_slopes.max(for_heights).min(MOST_SLOPE_SHIFT)
}

/// Finds the number above which heights are counted where this is the least value. 0 where it has too many digits.
fn base_of(least: i128, shift: u32) -> i64
    requires { shift ≤ 120 }
{
    if least.unsigned_abs() >= 1 << 100 {
        return 0;
    }
    i64::try_from(floored(at_fine_scale(least), shift)).unwrap_or(0)
}

/// Makes room for how far cuts fall with each state. None where memory was refused.
fn columns(alloc: Global, states: usize) -> Option<Vec<Vec<u16>>> {
    let mut found = Vec::new(alloc);
    for _ in 0..states {
        if found.push(Vec::new(alloc)).is_err() {
            return None;
        }
    }
    Some(found)
}

impl Coarse {
    /// Finds the cuts of a list in fewer digits, over a box whose greatest ends are given in whole units. None where a cut
    /// rises with a state, where a number does not fit, and where memory was refused.
    pub(crate) fn of(alloc: Global, highs: &[i64], cuts: &CutList) -> Option<Coarse>
        ensures { IfSome result (IsCoarseOf cuts.now) }
    {
        let mut found = Coarse {
            heights: Vec::new(alloc),
            steeps: columns(alloc, cuts.states())?,
            base: 0,
            slope_shift: 0,
            state_shift: 0,
        };
        if found.remake(highs, cuts) {
            Some(found)
        } else {
            None
        }
    }

    /// Becomes the cuts of a list in fewer digits, which are chosen anew, as the base is. False where a cut rises with a state,
    /// where a number does not fit, and where memory was refused.
    pub(crate) fn remake(&mut self, highs: &[i64], cuts: &CutList) -> bool
        ensures { result ≡ true → IsCoarseOf cuts.now self.new }
    {
        let least = lowest(cuts, highs);
        self.state_shift = state_shift(highs);
        self.slope_shift = slope_shift(cuts, least, self.state_shift);
        self.base = base_of(least, self.slope_shift + self.state_shift);
        self.refill(cuts, 0)
    }

    /// Keeps the first cuts, as many as the count says, and puts the other cuts of a list behind them, above the base and in the
    /// digits that were chosen. False where a cut rises with a state, where a number does not fit, where the cuts have more or
    /// fewer states, and where memory was refused.
    pub(crate) fn refill(&mut self, cuts: &CutList, kept: usize) -> bool
        ensures { result ≡ true → IsCoarseFront kept cuts.now self.old → IsCoarseOf cuts.now self.new }
    {
        let slope_shift = self.slope_shift;
        let state_shift = self.state_shift;
        if slope_shift > MOST_SLOPE_SHIFT
            || state_shift > MOST_STATE_SHIFT
            || cuts.states() != self.steeps.len()
        {
            return false;
        }
        let base = self.base;
        refill_heights(
            &mut self.heights,
            cuts,
            kept,
            slope_shift + state_shift,
            base,
        ) && refill_columns(self.steeps.as_mut_slice(), cuts, kept, slope_shift)
    }

    /// Removes the cut with this number. Digits and the base stay.
    pub(crate) fn remove(&mut self, number: usize)
        ensures { (cuts : List PackedCut) → number < length cuts → IsCoarseOf cuts self.old → IsCoarseOf (remove cuts number) self.new }
    {
        remove_entry(&mut self.heights, number);
        remove_steeps(self.steeps.as_mut_slice(), number);
    }

    /// Lends them.
    pub(crate) fn lent(&self) -> CoarseCuts<'_>
        ensures { (cuts : List PackedCut) → IsCoarseOf cuts self.now → IsCoarse cuts result }
    {
        CoarseCuts {
            heights: self.heights.as_slice(),
            steeps: self.steeps.as_slice(),
            base: self.base,
            slope_shift: self.slope_shift,
            state_shift: self.state_shift,
        }
    }
}
