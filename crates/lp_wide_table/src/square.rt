// As many rows as columns.
ghost use Rattle.std.specs.Prelude.{◌≡◌, ◌+◌, ◌*◌, ◌^◌, ◌<◌, ◌≤◌, [], pos, length, get_or, slice_set, take, drop, replicate, IfOk};
ghost use Rattle.std.specs.Option.{option_map};
ghost use Rattle.base_num.specs.Rows.{rows_in_list, put};
ghost use Rattle.lp_table.specs.Updates.{GivesNew};
ghost use Rattle.lp_wide_table.specs.Updates.{wide_moved_table_row, wide_moved_at};

use crate::ranged_numbers::WideCell;
use crate::updates::move_row;
use base_num::{List, Memory};
use lp_table::lists::repeated;
use std::alloc::Global;
use std::marker::Model;

/// As many rows as columns, of cells.
#[derive(Drop)]
pub struct WideSquare {
    size: u32,
    cells: List<WideCell>,
}

impl Model for WideSquare {
    ghost use Rattle.std.specs.Prelude.{List, ℤ, ◌≡◌, ◌*◌, length};
    ghost use Rattle.base_num.specs.Rows.{rows_in_list};

    ghost Value = { List (List ℤ) };

    ghost view = { λ s. rows_in_list s.size s.size s.cells };

    ghost invariant = { λ s. length s.cells ≡ s.size * s.size };
}

impl WideSquare {
    /// WideRows of zeros. [`Memory`] where memory was refused.
    #[tactic(auto, using(base_num::proofs::Flat::same_rows))]
    pub fn new(alloc: Global, size: usize) -> Result<WideSquare, Memory>
        requires few { size < 2 ^ 31 }
        ensures { IfOk result (λ square. square ≡ replicate size (replicate size (pos 0))) }
    {
        Ok(WideSquare {
            size: size as u32,
            cells: repeated(alloc, size * size, WideCell::zero())?,
        })
    }

    /// The number of rows, and of cells in each of them.
    #[tactic(auto, using(base_num::proofs::Flat::rows_count))]
    pub fn size(&self) -> usize
        ensures { result ≡ length self.now }
    {
        self.size as usize
    }

    /// Lends row v.
    #[tactic(auto, using(base_num::proofs::Flat::rows_count))]
    pub fn row(&self, v: usize) -> &[WideCell]
        requires { v < length self.now }
        ensures row { result.now ≡ get_or self.now v [] }
        ensures width { length result.now ≡ length self.now }
    {
        row_of(self.cells.as_slice(), self.size, v)
    }

    /// Puts other cells in the place of row v.
    #[tactic(auto, using(base_num::proofs::Flat::rows_count))]
    pub fn set_row(&mut self, v: usize, row: &[WideCell])
        requires there { v < length self.old }
        requires width { length row.now ≡ length self.old }
        ensures { self.new ≡ slice_set self.old v row.now }
    {
        set_row_of(&mut self.cells, self.size, v, row);
    }

    /// Replaces the variable at a place of row v by the sum that the addend is; the other rows stay. The answer is false
    /// exactly where a result leaves the range of cells: nothing but their number is promised of the rows then.
    #[tactic(auto, using(base_num::proofs::Flat::rows_count))]
    pub fn move_row(&mut self, v: usize, place: usize, addend: &[WideCell]) -> bool
        requires there { v < length self.old }
        requires place { place < length self.old }
        requires width { length addend.now ≡ length self.old }
        ensures count { length self.new ≡ length self.old }
        ensures moved { GivesNew result (wide_moved_at v place addend.now self.old) self.new }
    {
        move_row_of(&mut self.cells, self.size, v, place, addend)
    }
}

// Lends row v of as many rows as cells in each.
fn row_of(cells: &[WideCell], size: u32, v: usize) -> &[WideCell]
    requires there { v < size }
    requires square { length cells.now ≡ size * size }
    ensures row { result.now ≡ get_or (rows_in_list size size cells.now) v [] }
    ensures width { length result.now ≡ size }
{
    let width = size as usize;
    let start = v * width;
    &cells[start..start + width]
}

// Writes a row over the cells from a place on.
fn put_row(cells: &mut [WideCell], start: usize, row: &[WideCell])
    requires { start + length row.now ≤ length cells.old }
    ensures { cells.new ≡ put (length row.now) start cells.old row.now }
{
    let (_, tail) = cells.split_at_mut(start);
    let (place, _) = tail.split_at_mut(row.len());
    place.copy_from_slice(row);
}

// Writes row v of as many rows as cells in each.
fn set_row_of(cells: &mut List<WideCell>, size: u32, v: usize, row: &[WideCell])
    requires there { v < size }
    requires width { length row.now ≡ size }
    requires square { length cells.old ≡ size * size }
    ensures square { length cells.new ≡ size * size }
    ensures rows { rows_in_list size size cells.new ≡ slice_set (rows_in_list size size cells.old) v row.now }
{
    put_row(cells.as_mut_slice(), v * size as usize, row);
}

// Replaces the variable at a place of one row, from the cell `start` on.
fn move_row_at(cells: &mut [WideCell], start: usize, place: usize, addend: &[WideCell]) -> bool
    requires place { place < length addend.now }
    requires inside { start + length addend.now ≤ length cells.old }
    ensures lengths { length cells.new ≡ length cells.old }
    ensures moved { GivesNew result (option_map (put (length addend.now) start cells.old)
        (wide_moved_table_row place addend.now (take (length addend.now) (drop start cells.old)))) cells.new }
{
    let (_, tail) = cells.split_at_mut(start);
    let (row, _) = tail.split_at_mut(addend.len());
    move_row(row, place, addend)
}

// Replaces the variable at a place of row v, of as many rows as cells in each.
fn move_row_of(
    cells: &mut List<WideCell>,
    size: u32,
    v: usize,
    place: usize,
    addend: &[WideCell],
) -> bool
    requires there { v < size }
    requires place { place < size }
    requires width { length addend.now ≡ size }
    requires square { length cells.old ≡ size * size }
    ensures square { length cells.new ≡ size * size }
    ensures moved { GivesNew result (wide_moved_at v place addend.now (rows_in_list size size cells.old))
        (rows_in_list size size cells.new) }
{
    move_row_at(cells.as_mut_slice(), v * size as usize, place, addend)
}
