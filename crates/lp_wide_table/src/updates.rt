// WideRows with a multiple of another row added.
ghost use Rattle.std.specs.Prelude.{◌≡◌, ◌<◌, length};
ghost use Rattle.lp_table.specs.Updates.{GivesNew};
ghost use Rattle.lp_wide_table.specs.Updates.{wide_moved_cell, wide_added_row, wide_moved_table_row};

use crate::numbers::down_product;
use crate::ranged_numbers::WideCell;

// The cell with a product added.
#[tactic(auto, unfolding(crate::specs::Updates::wide_moved_cell))]
fn moved(t: WideCell, factor: WideCell, n: WideCell) -> Option<WideCell>
    ensures { result ≡ wide_moved_cell factor n t }
{
    if n.number() == 0 {
        Some(t)
    } else {
        t.plus(down_product(factor.number(), n.number())?)
    }
}

/// Adds to each cell of a row the factor times a cell of the addend, over 2^80, rounded to the
/// nearest. The answer is false exactly where a result leaves the range of cells: nothing but its
/// length is promised of the row then.
#[tactic(auto, unfolding(crate::specs::Updates::wide_added_row))]
pub fn add_row(row: &mut [WideCell], factor: WideCell, addend: &[WideCell]) -> bool
    requires lengths { length addend.now ≡ length row.old }
    ensures lengths { length row.new ≡ length row.old }
    ensures moved { GivesNew result (wide_added_row factor addend.now row.old) row.new }
{
    for j in 0..row.len() {
        match moved(row[j], factor, addend[j]) {
            Some(x) => row[j] = x,
            None => return false,
        }
    }
    true
}

/// The row after the variable at a place is replaced by the sum that the addend is. The answer is
/// false exactly where a result leaves the range of cells: nothing but its length is promised of
/// the row then.
#[tactic(auto, unfolding(crate::specs::Updates::wide_moved_table_row))]
pub fn move_row(row: &mut [WideCell], place: usize, addend: &[WideCell]) -> bool
    requires place { place < length row.old }
    requires lengths { length addend.now ≡ length row.old }
    ensures lengths { length row.new ≡ length row.old }
    ensures moved { GivesNew result (wide_moved_table_row place addend.now row.old) row.new }
{
    let factor = row[place];
    if factor.number() == 0 {
        return true;
    }
    row[place] = WideCell::zero();
    add_row(row, factor, addend)
}
