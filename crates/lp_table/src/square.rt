// As many rows as columns.
ghost use Rattle.std.specs.Prelude.{◌≡◌, ◌+◌, ◌*◌, ◌^◌, ◌<◌, ◌≤◌, [], pos, length, get_or, slice_set, take, drop, replicate, IfOk, OnOk};
ghost use Rattle.std.specs.Option.{option_map};
ghost use Rattle.base_num.specs.Rows.{rows_in_list, put};
ghost use Rattle.lp_table.specs.Updates.{GivesNew, moved_table_row, moved_at};
ghost use Rattle.lp_table.specs.Sparse.{sparse};

use crate::lists::{repeated, write_over};
use crate::ranged_numbers::Cell;
use crate::updates::move_row;
use base_num::{List, Memory, copied};
use std::alloc::Global;
use std::marker::Model;

/// As many rows as columns, of cells.
#[derive(Drop)]
pub struct Square {
    size: u32,
    cells: List<Cell>,
}

impl Model for Square {
    ghost use Rattle.std.specs.Prelude.{List, ℤ, ◌≡◌, ◌*◌, length};
    ghost use Rattle.base_num.specs.Rows.{rows_in_list};

    ghost Value = { List (List ℤ) };

    ghost view = { λ s. rows_in_list s.size s.size s.cells };

    ghost invariant = { λ s. length s.cells ≡ s.size * s.size };
}

impl Square {
    /// Rows of zeros. [`Memory`] where memory was refused.
    #[tactic(auto, using(base_num::proofs::Flat::same_rows))]
    pub fn new(alloc: Global, size: usize) -> Result<Square, Memory>
        requires few { size < 2 ^ 31 }
        ensures { IfOk result (λ square. square ≡ replicate size (replicate size (pos 0))) }
    {
        Ok(Square {
            size: size as u32,
            cells: repeated(alloc, size * size, Cell::zero())?,
        })
    }

    /// The number of rows, and of cells in each of them.
    #[tactic(auto, using(base_num::proofs::Flat::rows_count))]
    pub fn size(&self) -> usize
        ensures { result ≡ length self.now }
    {
        self.size as usize
    }

    /// Lends row v.
    #[tactic(auto, using(base_num::proofs::Flat::rows_count))]
    pub fn row(&self, v: usize) -> &[Cell]
        requires { v < length self.now }
        ensures row { result.now ≡ get_or self.now v [] }
        ensures width { length result.now ≡ length self.now }
    {
        row_of(self.cells.as_slice(), self.size, v)
    }

    /// Puts other cells in the place of row v.
    #[tactic(auto, using(base_num::proofs::Flat::rows_count))]
    pub fn set_row(&mut self, v: usize, row: &[Cell])
        requires there { v < length self.old }
        requires width { length row.now ≡ length self.old }
        ensures { self.new ≡ slice_set self.old v row.now }
    {
        set_row_of(&mut self.cells, self.size, v, row);
    }

    /// Replaces the variable at a place of row v by the sum that the addend is; the other rows stay. The answer is false
    /// exactly where a result leaves the range of cells: nothing but their number is promised of the rows then. `steps` are the
    /// addend's cells that are not 0, each with its place.
    #[tactic(auto, using(base_num::proofs::Flat::rows_count))]
    pub fn move_row(
        &mut self,
        v: usize,
        place: usize,
        addend: &[Cell],
        steps: &[(usize, Cell)],
    ) -> bool
        requires there { v < length self.old }
        requires place { place < length self.old }
        requires width { length addend.now ≡ length self.old }
        requires steps { steps.now ≡ sparse 0 addend.now }
        ensures count { length self.new ≡ length self.old }
        ensures moved { GivesNew result (moved_at v place addend.now self.old) self.new }
    {
        move_row_of(&mut self.cells, self.size, v, place, addend, steps)
    }

    /// Copies the rows. [`Memory`] where memory was refused.
    pub fn copy(&self, alloc: Global) -> Result<Square, Memory>
        ensures { IfOk result (λ square. square ≡ self.now) }
    {
        Ok(Square {
            size: self.size,
            cells: copied(alloc, self.cells.as_slice())?,
        })
    }

    /// Writes the rows of another square over these. [`Memory`] where memory was refused.
    pub fn write_over(&mut self, alloc: Global, from: &Square) -> Result<(), Memory>
        ensures { OnOk result (self.new ≡ from.now) }
    {
        self.size = 0;
        write_over(alloc, &mut self.cells, from.cells.as_slice(), 0)?;
        self.size = from.size;
        Ok(())
    }
}

// Lends row v of as many rows as cells in each.
fn row_of(cells: &[Cell], size: u32, v: usize) -> &[Cell]
    requires there { v < size }
    requires square { length cells.now ≡ size * size }
    ensures row { result.now ≡ get_or (rows_in_list size size cells.now) v [] }
    ensures width { length result.now ≡ size }
{
    let width = size as usize;
    let start = v * width;
    &cells[start..start + width]
}

// Writes a row over the cells from a place on.
fn put_row(cells: &mut [Cell], start: usize, row: &[Cell])
    requires { start + length row.now ≤ length cells.old }
    ensures { cells.new ≡ put (length row.now) start cells.old row.now }
{
    let (_, tail) = cells.split_at_mut(start);
    let (place, _) = tail.split_at_mut(row.len());
    place.copy_from_slice(row);
}

// Writes row v of as many rows as cells in each.
fn set_row_of(cells: &mut List<Cell>, size: u32, v: usize, row: &[Cell])
    requires there { v < size }
    requires width { length row.now ≡ size }
    requires square { length cells.old ≡ size * size }
    ensures square { length cells.new ≡ size * size }
    ensures rows { rows_in_list size size cells.new ≡ slice_set (rows_in_list size size cells.old) v row.now }
{
    put_row(cells.as_mut_slice(), v * size as usize, row);
}

// Replaces the variable at a place of one row, from the cell `start` on.
fn move_row_at(
    cells: &mut [Cell],
    start: usize,
    place: usize,
    addend: &[Cell],
    steps: &[(usize, Cell)],
) -> bool
    requires place { place < length addend.now }
    requires steps { steps.now ≡ sparse 0 addend.now }
    requires inside { start + length addend.now ≤ length cells.old }
    ensures lengths { length cells.new ≡ length cells.old }
    ensures moved { GivesNew result (option_map (put (length addend.now) start cells.old)
        (moved_table_row place addend.now (take (length addend.now) (drop start cells.old)))) cells.new }
{
    let (_, tail) = cells.split_at_mut(start);
    let (row, _) = tail.split_at_mut(addend.len());
    move_row(row, place, addend, steps)
}

// Replaces the variable at a place of row v, of as many rows as cells in each.
fn move_row_of(
    cells: &mut List<Cell>,
    size: u32,
    v: usize,
    place: usize,
    addend: &[Cell],
    steps: &[(usize, Cell)],
) -> bool
    requires there { v < size }
    requires place { place < size }
    requires steps { steps.now ≡ sparse 0 addend.now }
    requires width { length addend.now ≡ size }
    requires square { length cells.old ≡ size * size }
    ensures square { length cells.new ≡ size * size }
    ensures moved { GivesNew result (moved_at v place addend.now (rows_in_list size size cells.old))
        (rows_in_list size size cells.new) }
{
    move_row_at(
        cells.as_mut_slice(),
        v * size as usize,
        place,
        addend,
        steps,
    )
}
