// The greatest values of cuts over a box of states.
ghost use Rattle.std.specs.Prelude.{◌≡◌, ◌<◌, ◌≤◌, ◌-◌, ◌∷◌, ◌++◌, pos, ◌+ℤ◌, ◌*ℤ◌, [], List, true, length, take, get_or, IfOk, IfSome};
ghost use Rattle.std.specs.Int.{int_max};
ghost use Rattle.base_num.specs.Sums.{entry};
ghost use Rattle.theory.specs.declared.cut.Cut.{Cut};
ghost use Rattle.cut_pool.specs.BoxMaxima.{greatest_over, box_maximum_over, IsBoxMaximum};

use base_num::{List, Memory};
use std::alloc::Global;
use theory::Cut;

/// The box of a state that leaves a stage, in whole units.
#[derive(Clone, Copy)]
pub struct OutBox {
    /// The lesser end.
    pub least: i64,
    /// The greater end.
    pub greatest: i64,
}

/// The greatest value of a node's cuts over a box of states, and what it was when there were fewer cuts.
#[derive(Drop)]
pub(crate) struct BoxMaximum {
    /// The box, one entry per state.
    boxes: List<OutBox>,
    /// For each cut the greatest value of it and those before it, at scale 2^24.
    values: Vec<i128>,
}

/// Finds the greater product of a slope with an end of a box, none where a product leaves i128.
fn greatest_product(slope: i128, ends: OutBox) -> Option<i128>
    ensures { IfSome result (λ product. product ≡ int_max (slope *ℤ ends.least) (slope *ℤ ends.greatest)) }
{
    let least = slope.checked_mul(i128::from(ends.least))?;
    let greatest = slope.checked_mul(i128::from(ends.greatest))?;
    Some(least.max(greatest))
}

/// Adds two numbers, none where the sum leaves i128.
pub(crate) fn sum(a: i128, b: i128) -> Option<i128>
    ensures { IfSome result (λ found. found ≡ a +ℤ b) }
{
    a.checked_add(b)
}

/// Gives the slope of a state, 0 where there is none.
fn slope_at(slopes: &[i128], state: usize) -> i128
    ensures { result ≡ entry slopes.now state }
{
    match slopes.get(state) {
        Some(slope) => *slope,
        None => 0,
    }
}

/// Finds the greatest value of a cut over a box, none where a product or a sum leaves i128.
fn greatest_over(boxes: &[OutBox], cut: &Cut) -> Option<i128>
    ensures { IfSome result (λ value. value ≡ greatest_over boxes.now cut.now) }
{
    let slopes = cut.beta.as_slice();
    let mut value = cut.alpha;
    for state in 0..boxes.len() {
        let product = greatest_product(slope_at(slopes, state), boxes[state])?;
        value = sum(value, product)?;
    }
    Some(value)
}

/// Tells whether both boxes are the same.
fn are_same(a: &[OutBox], b: &[OutBox]) -> bool
    ensures { result ≡ true → a.now ≡ b.now }
{
    if a.len() != b.len() {
        return false;
    }
    for state in 0..a.len() {
        if a[state].least != b[state].least || a[state].greatest != b[state].greatest {
            return false;
        }
    }
    true
}

/// Gives the last of some values.
fn last_of(values: &[i128]) -> Option<i128>
    ensures { IfSome result (λ last. (0 < length values.now) × (last ≡ get_or values.now (length values.now - 1) (pos 0))) }
{
    let place = values.len().checked_sub(1)?;
    Some(values[place])
}

/// Gives the greater of the last of some values and one more, which is the only one where there are none.
fn greatest_yet(values: &[i128], value: i128) -> i128
    ensures first { length values.now ≡ 0 → result ≡ value }
    ensures later { 0 < length values.now → result ≡ int_max (get_or values.now (length values.now - 1) (pos 0)) value }
{
    match values.last() {
        Some(last) => (*last).max(value),
        None => value,
    }
}

impl BoxMaximum {
    /// Finds the box maximum of some cuts over a box, none of no cuts, where a product or a sum leaves i128, and where memory was
    /// refused for the values. [`Memory`] where memory was refused for the box.
    pub(crate) fn of(
        alloc: Global,
        boxes: &[OutBox],
        cuts: &[Cut],
    ) -> Result<Option<BoxMaximum>, Memory>
        ensures { IfOk result (λ found. IfSome found (IsBoxMaximum cuts.now)) }
    {
        if cuts.is_empty() {
            return Ok(None);
        }
        let mut found = BoxMaximum {
            boxes: List::from_vec(Vec::from_slice(alloc, boxes)?),
            values: Vec::new(alloc),
        };
        for cut in cuts {
            if !found.raise(cut) {
                return Ok(None);
            }
        }
        Ok(Some(found))
    }

    /// Gives the greatest value over a box, none where the box maximum is over another.
    pub(crate) fn over(&self, boxes: &[OutBox]) -> Option<i128>
        ensures { IfSome result (λ value. (cuts : List Cut) → IsBoxMaximum cuts self.now → value ≡ box_maximum_over boxes.now cuts) }
    {
        if are_same(self.boxes.as_slice(), boxes) {
            last_of(self.values.as_slice())
        } else {
            None
        }
    }

    /// Takes a new cut in. False where a product or a sum leaves i128, and where memory was refused.
    pub(crate) fn raise(&mut self, cut: &Cut) -> bool
        ensures { result ≡ true → (cuts : List Cut) → IsBoxMaximum cuts self.old → IsBoxMaximum (cuts ++ cut.now ∷ []) self.new }
    {
        let Some(value) = greatest_over(self.boxes.as_slice(), cut) else {
            return false;
        };
        let greatest = greatest_yet(self.values.as_slice(), value);
        self.values.push(greatest).is_ok()
    }

    /// Goes back to the first cuts, as many as the count says.
    pub(crate) fn truncate(&mut self, count: u32)
        ensures { (cuts : List Cut) → count ≤ length cuts → IsBoxMaximum cuts self.old → IsBoxMaximum (take count cuts) self.new }
    {
        self.values.truncate(count as usize);
    }
}
