// The terms of rows.
ghost use Rattle.std.specs.Prelude.{◌≡◌, ◌<◌, ◌∷◌, ◌++◌, [], length, get_or, IfOk, OnOk, is_ok, if◌then◌else◌};
ghost use Rattle.lp_table.specs.Ends.{rows_by, AreEnds, begins_at};

use crate::lists::copied_with_room;
use crate::ranged_numbers::Coefficient;
use base_num::Memory;
use std::alloc::Global;
use std::marker::Model;

/// The terms of some rows, in order: for each row the numbers of columns with their coefficients. All stand one after the
/// other in one list.
#[derive(Drop)]
pub struct Rows {
    terms: Vec<(u32, Coefficient)>,
    /// Where the terms of each row end.
    ends: Vec<usize>,
}

impl Model for Rows {
    ghost use Rattle.std.specs.Prelude.{List, ℕ, ℤ, length};
    ghost use Rattle.lp_table.specs.Ends.{rows_by, AreEnds};

    ghost Value = { List (List (ℕ × ℤ)) };

    ghost view = { λ r. rows_by 0 r.terms.items r.ends.items };

    ghost invariant = { λ r. AreEnds 0 r.ends.items (length r.terms.items) };
}

impl Rows {
    /// Starts with no rows.
    pub fn new(alloc: Global) -> Rows
        ensures { result ≡ [] }
    {
        Rows {
            terms: Vec::new(alloc),
            ends: Vec::new(alloc),
        }
    }

    /// The number of rows.
    #[tactic(auto, using(crate::proofs::ByEnds::rows_count))]
    pub fn len(&self) -> usize
        ensures { result ≡ length self.now }
    {
        self.ends.len()
    }

    /// The terms of row i.
    #[tactic(auto, using(crate::proofs::ByEnds::rows_count))]
    pub fn row(&self, i: usize) -> &[(u32, Coefficient)]
        requires { i < length self.now }
        ensures { result.now ≡ get_or self.now i [] }
    {
        row_of(self.terms.as_slice(), self.ends.as_slice(), i)
    }

    /// Puts a row behind the others. [`Memory`] where memory was refused: the rows are as before.
    pub fn push(&mut self, terms: &[(u32, Coefficient)]) -> Result<(), Memory>
        ensures { self.new ≡ (if is_ok result then self.old ++ terms.now ∷ [] else self.old) }
    {
        self.ends.reserve(1)?;
        self.terms.extend_from_slice(terms)?;
        self.ends.push(self.terms.as_slice().len())?;
        Ok(())
    }

    /// Copies the rows, with memory for the places of so many more. [`Memory`] where memory was refused.
    pub fn copy(&self, alloc: Global, more: usize) -> Result<Rows, Memory>
        ensures { IfOk result (λ rows. rows ≡ self.now) }
    {
        Ok(Rows {
            terms: Vec::from_slice(alloc, self.terms.as_slice())?,
            ends: copied_with_room(alloc, self.ends.as_slice(), more)?.into_vec(),
        })
    }

    /// Writes other rows over these, with memory for the places of so many more. [`Memory`] where memory was refused.
    pub fn write_over(&mut self, from: &Rows, more: usize) -> Result<(), Memory>
        ensures { OnOk result (self.new ≡ from.now) }
    {
        match write_lists(
            &mut self.terms,
            &mut self.ends,
            from.terms.as_slice(),
            from.ends.as_slice(),
            more,
        ) {
            Ok(()) => Ok(()),
            Err(_) => {
                self.terms.clear();
                self.ends.clear();
                Err(Memory)
            }
        }
    }
}

// Writes terms and their ends over others, with memory for so many more ends. [`Memory`] where memory was refused.
fn write_lists(
    terms: &mut Vec<(u32, Coefficient)>,
    ends: &mut Vec<usize>,
    from_terms: &[(u32, Coefficient)],
    from_ends: &[usize],
    more: usize,
) -> Result<(), Memory>
    ensures terms { OnOk result (terms.new.items ≡ from_terms.now) }
    ensures ends { OnOk result (ends.new.items ≡ from_ends.now) }
{
    terms.clear();
    ends.clear();
    terms.extend_from_slice(from_terms)?;
    ends.reserve(from_ends.len().saturating_add(more))?;
    ends.extend_from_slice(from_ends)?;
    Ok(())
}

// Gives the place where row i begins.
fn start_of(ends: &[usize], i: usize) -> usize
    requires { i < length ends.now }
    ensures { result ≡ begins_at ends.now i }
{
    if i == 0 { 0 } else { ends[i - 1] }
}

// The terms of row i.
#[tactic(auto, using(crate::proofs::ByEnds::row_at, crate::proofs::ByEnds::begins_before, crate::proofs::ByEnds::ends_within))]
fn row_of<'a>(terms: &'a [(u32, Coefficient)], ends: &[usize], i: usize) -> &'a [(u32, Coefficient)]
    requires ends { AreEnds 0 ends.now (length terms.now) }
    requires there { i < length ends.now }
    ensures { result.now ≡ get_or (rows_by 0 terms.now ends.now) i [] }
{
    let start = start_of(ends, i);
    &terms[start..ends[i]]
}
