// Duals of rows, most of which are 0.
ghost use Rattle.std.specs.Prelude.{◌≡◌, ◌+◌, ◌-◌, ◌<◌, ◌≤◌, [], ◌++◌, length, take, drop, get_or, replicate, slice_get, slice_set, true, is_ok, if◌then◌else◌, IfOk};
ghost use Rattle.lp_program.specs.Numbers.{zero_fx};
ghost use Rattle.lp_program.specs.Duals.{dual_among, is_zero, dual_in, not_zero, with_pair, place_of, is_of, all_kept};

use crate::fixed::Fx;
use base_num::{List, Memory};
use std::alloc::Global;
use std::marker::Model;

/// A dual for each row. Contracts see them as the list of all.
///
/// The duals of the first rows are listed; of the other duals only some are stored, and the rest are 0. So the memory grows
/// with the rows that have a dual, and not with all rows.
#[derive(Drop)]
pub struct Duals {
    /// The duals of the first rows.
    first: List<Fx>,
    /// Rows behind these, which rise, with their duals.
    others: Vec<(usize, Fx)>,
    /// The number of all rows.
    count: usize,
}

impl Model for Duals {
    ghost use Rattle.std.specs.Prelude.{List};
    ghost use Rattle.lp_program.specs.declared.fixed.Fx.{Fx};
    ghost use Rattle.lp_program.specs.Duals.{joined, AreDuals};

    ghost Value = { List Fx };

    ghost view = { λ d. joined d.first d.others.items d.count };

    ghost invariant = { λ d. AreDuals d.first d.others.items d.count };
}

// The dual of a row among pairs, 0 where it has none.
fn dual_among(pairs: &[(usize, Fx)], row: usize) -> Fx
    ensures { result ≡ dual_among pairs.now row }
{
    for pair in pairs {
        if pair.0 == row {
            return pair.1;
        }
    }
    Fx(0)
}

fn is_zero(dual: Fx) -> bool
    ensures { result ≡ is_zero dual }
{
    !(0 < dual.0) && !(dual.0 < 0)
}

// Counts the first pairs that are of rows before a row.
fn place_of(pairs: &[(usize, Fx)], row: usize) -> usize
    ensures value { result ≡ place_of row pairs.now }
    ensures inside { result ≤ length pairs.now }
{
    let mut place = 0;
    for pair in pairs {
        if pair.0 >= row {
            return place;
        }
        place += 1;
    }
    place
}

// Tells whether there is a pair at a place that is of this row.
fn is_of(pairs: &[(usize, Fx)], place: usize, row: usize) -> bool
    ensures value { result ≡ is_of row (slice_get pairs.now place) }
    ensures inside { result ≡ true → place < length pairs.now }
{
    match pairs.get(place) {
        Some(pair) => pair.0 == row,
        None => false,
    }
}

// Puts the dual of a row where it belongs. [`Memory`] where memory was refused: the pairs are as before.
fn put(pairs: &mut Vec<(usize, Fx)>, row: usize, dual: Fx) -> Result<(), Memory>
    ensures { pairs.new.items ≡ (if is_ok result then with_pair row dual pairs.old.items else pairs.old.items) }
{
    let place = place_of(pairs.as_slice(), row);
    if is_of(pairs.as_slice(), place, row) {
        pairs[place] = (row, dual);
        return Ok(());
    }
    if is_zero(dual) {
        return Ok(());
    }
    match pairs.insert(place, (row, dual)) {
        Ok(()) => Ok(()),
        Err(_) => Err(Memory),
    }
}

// The items from a number on, at most so many.
fn part(items: &[Fx], from: usize, count: usize) -> &[Fx]
    ensures { result.now ≡ take count (drop from items.now) }
{
    if from >= items.len() {
        return &[];
    }
    if count < items.len() - from {
        &items[from..from + count]
    } else {
        &items[from..]
    }
}

/// The duals of some rows that follow one another.
#[derive(Clone, Copy)]
pub struct PartOfDuals<'a> {
    /// The duals of the first of these rows.
    pub listed: &'a [Fx],
    /// Rows, which rise, with their duals. Those of these rows whose duals are not listed are among them, unless the dual is 0;
    /// other rows may be among them too.
    pub stored: &'a [(usize, Fx)],
}

impl Duals {
    /// These duals, of as many rows.
    pub fn new(alloc: Global, duals: List<Fx>) -> Duals
        ensures { result ≡ duals }
    {
        let count = duals.len();
        Duals {
            first: duals,
            others: Vec::new(alloc),
            count,
        }
    }

    /// A dual of 0 for each of so many rows.
    pub fn zeros(alloc: Global, rows: usize) -> Duals
        ensures { result ≡ replicate rows zero_fx }
    {
        Duals {
            first: List::new(alloc),
            others: Vec::new(alloc),
            count: rows,
        }
    }

    /// These duals of the first rows, and 0 for each other one of so many.
    pub fn padded(alloc: Global, first: List<Fx>, rows: usize) -> Duals
        ensures value { result ≡ first ++ replicate (rows - length first) zero_fx }
        ensures long { rows ≤ length result }
    {
        let count = rows.max(first.len());
        Duals {
            first,
            others: Vec::new(alloc),
            count,
        }
    }

    /// The number of rows.
    pub fn len(&self) -> usize
        ensures { result ≡ length self.now }
    {
        self.count
    }

    /// The dual of a row, 0 where it is missing.
    pub fn get(&self, row: usize) -> Fx
        ensures { result ≡ get_or self.now row zero_fx }
    {
        if row < self.first.len() {
            self.first.as_slice()[row]
        } else {
            dual_among(self.others.as_slice(), row)
        }
    }

    /// Gives a row another dual. [`Memory`] where memory was refused: the duals are as before.
    pub fn set(&mut self, row: usize, dual: Fx) -> Result<(), Memory>
        requires { row < length self.old }
        ensures { self.new ≡ (if is_ok result then slice_set self.old row dual else self.old) }
    {
        if row < self.first.len() {
            self.first.set(row, dual);
            Ok(())
        } else {
            put(&mut self.others, row, dual)
        }
    }

    /// The duals of so many rows from one on. The rows of those that are listed count from that one, the rows of those that are
    /// stored from the first of all.
    pub fn part(&self, from: usize, count: usize) -> PartOfDuals<'_>
        ensures few { length result.listed.now ≤ count }
        ensures value { not_zero (dual_in result.listed.now) 0 (length result.listed.now) ++ all_kept from count result.stored.now
            ≡ not_zero (dual_in (drop from self.now)) 0 count }
    {
        PartOfDuals {
            listed: part(self.first.as_slice(), from, count),
            stored: self.others.as_slice(),
        }
    }

    /// A list of all. [`Memory`] where memory was refused.
    pub fn whole(&self, alloc: Global) -> Result<List<Fx>, Memory>
        ensures { IfOk result (λ found. found ≡ self.now) }
    {
        let mut found = List::new(alloc);
        for row in 0..self.count {
            found.push(self.get(row))?;
        }
        Ok(found)
    }
}
