// Lists that are written anew in the memory that they have.
ghost use Rattle.std.specs.Prelude.{◌≡◌, length, replicate, OnOk};

use base_num::{List, Memory};

// Writes a value over all of a list.
fn set_all<T: Copy>(items: &mut [T], item: T)
    ensures { items.new ≡ replicate (length items.old) item }
{
    for k in 0..items.len() {
        items[k] = item;
    }
}

// Writes a value so many times into a list that may be shorter or longer.
fn push_all<T: Copy + Drop>(list: &mut List<T>, count: usize, item: T) -> Result<(), Memory>
    ensures { OnOk result (list.new ≡ replicate count item) }
{
    list.clear();
    for _k in 0..count {
        list.push(item)?;
    }
    Ok(())
}

/// Makes a list of a value so many times. [`Memory`] where memory was refused.
pub(crate) fn refill<T: Copy + Drop>(
    list: &mut List<T>,
    count: usize,
    item: T,
) -> Result<(), Memory>
    ensures { OnOk result (list.new ≡ replicate count item) }
{
    if list.len() != count {
        return push_all(list, count, item);
    }
    set_all(list.as_mut_slice(), item);
    Ok(())
}
