// Lists that are made whole.
ghost use Rattle.std.specs.Prelude.{◌≡◌, [], replicate, is_ok, if◌then◌else◌, IfOk};

use base_num::{List, Memory};
use std::alloc::Global;
use std::mem;

/// A list without values, with memory for so many. [`Memory`] where memory was refused.
pub fn with_room<T>(alloc: Global, count: usize) -> Result<List<T>, Memory>
    ensures { IfOk result (λ found. found ≡ []) }
{
    Ok(List::from_vec(Vec::with_capacity(alloc, count)?))
}

/// Copies the values into a new list, with memory for so many more. [`Memory`] where memory was refused.
pub fn copied_with_room<T: Copy + Drop>(
    alloc: Global,
    items: &[T],
    more: usize,
) -> Result<List<T>, Memory>
    ensures { IfOk result (λ found. found ≡ items.now) }
{
    let mut found = Vec::with_capacity(alloc, items.len().saturating_add(more))?;
    found.extend_from_slice(items)?;
    Ok(List::from_vec(found))
}

/// Writes the values over those of a list, in its memory where that is large enough, with memory for so many more. [`Memory`]
/// where memory was refused: the list is without values then.
pub fn write_over<T: Copy + Drop>(
    alloc: Global,
    list: &mut List<T>,
    items: &[T],
    more: usize,
) -> Result<(), Memory>
    ensures { list.new ≡ (if is_ok result then items.now else []) }
{
    let mut found = mem::replace(list, List::new(alloc)).into_vec();
    found.clear();
    found.reserve(items.len().saturating_add(more))?;
    found.extend_from_slice(items)?;
    *list = List::from_vec(found);
    Ok(())
}

/// Repeats a value so many times. [`Memory`] where memory was refused.
pub fn repeated<T: Copy + Drop>(alloc: Global, count: usize, item: T) -> Result<List<T>, Memory>
    ensures { IfOk result (λ found. found ≡ replicate count item) }
{
    let mut found = Vec::new(alloc);
    found.resize(count, item)?;
    Ok(List::from_vec(found))
}
