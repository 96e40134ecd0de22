// The terms of rows.
ghost use Rattle.std.specs.Prelude.{◌≡◌, ◌<◌, ◌∷◌, ◌++◌, [], length, get_or, is_ok, if◌then◌else◌};
ghost use Rattle.lp_table.specs.Ends.{rows_by, AreEnds, begins_at};

use crate::ranged_numbers::WideCell;
use base_num::Memory;
use std::alloc::Global;
use std::marker::Model;

/// The terms of some rows, in order: for each row the numbers of columns with their cells. All stand one after the
/// other in one list.
#[derive(Drop)]
pub struct WideRows {
    terms: Vec<(u32, WideCell)>,
    /// Where the terms of each row end.
    ends: Vec<usize>,
}

impl Model for WideRows {
    ghost use Rattle.std.specs.Prelude.{List, ℕ, ℤ, length};
    ghost use Rattle.lp_table.specs.Ends.{rows_by, AreEnds};

    ghost Value = { List (List (ℕ × ℤ)) };

    ghost view = { λ r. rows_by 0 r.terms.items r.ends.items };

    ghost invariant = { λ r. AreEnds 0 r.ends.items (length r.terms.items) };
}

impl WideRows {
    /// Starts with no rows.
    pub fn new(alloc: Global) -> WideRows
        ensures { result ≡ [] }
    {
        WideRows {
            terms: Vec::new(alloc),
            ends: Vec::new(alloc),
        }
    }

    /// The number of rows.
    #[tactic(auto, using(lp_table::proofs::ByEnds::rows_count))]
    pub fn len(&self) -> usize
        ensures { result ≡ length self.now }
    {
        self.ends.len()
    }

    /// The terms of row i.
    #[tactic(auto, using(lp_table::proofs::ByEnds::rows_count))]
    pub fn row(&self, i: usize) -> &[(u32, WideCell)]
        requires { i < length self.now }
        ensures { result.now ≡ get_or self.now i [] }
    {
        row_of(self.terms.as_slice(), self.ends.as_slice(), i)
    }

    /// Puts a row behind the others. [`Memory`] where memory was refused: the rows are as before.
    pub fn push(&mut self, terms: &[(u32, WideCell)]) -> Result<(), Memory>
        ensures { self.new ≡ (if is_ok result then self.old ++ terms.now ∷ [] else self.old) }
    {
        self.ends.reserve(1)?;
        self.terms.extend_from_slice(terms)?;
        self.ends.push(self.terms.as_slice().len())?;
        Ok(())
    }
}

// Gives the place where row i begins.
fn start_of(ends: &[usize], i: usize) -> usize
    requires { i < length ends.now }
    ensures { result ≡ begins_at ends.now i }
{
    if i == 0 { 0 } else { ends[i - 1] }
}

// The terms of row i.
#[tactic(auto, using(lp_table::proofs::ByEnds::row_at, lp_table::proofs::ByEnds::begins_before, lp_table::proofs::ByEnds::ends_within))]
fn row_of<'a>(terms: &'a [(u32, WideCell)], ends: &[usize], i: usize) -> &'a [(u32, WideCell)]
    requires ends { AreEnds 0 ends.now (length terms.now) }
    requires there { i < length ends.now }
    ensures { result.now ≡ get_or (rows_by 0 terms.now ends.now) i [] }
{
    let start = start_of(ends, i);
    &terms[start..ends[i]]
}
