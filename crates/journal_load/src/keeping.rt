// Keepers, which take the entries of a record once its cuts are made.
ghost use Rattle.std.specs.Prelude.{◌≡◌, List, ◌++◌, ◌∷◌, [], Option, Some, None, OnOk};
ghost use Rattle.std.specs.Option.{option_map};
ghost use Rattle.cut_pool.specs.declared.entry.Entry.{Entry};

use base_num::{List, Memory};
use cut_pool::{Entry, Spares};

/// Keeps the entries of each record, or lets them go.
pub(crate) trait Keeper {
    /// The entries of each record so far, where they are kept.
    ghost kept: { Self → Option (List (List Entry)) };

    /// Keeps the entries of one more record. Where they are not kept, the spares take their memory.
    fn keep(&mut self, entries: List<Entry>, spares: &mut Spares) -> Result<(), Memory>
        ensures { OnOk result (kept self.new ≡ option_map (λ lists. lists ++ entries ∷ []) (kept self.old)) };
}

impl Keeper for List<List<Entry>> {
    ghost kept = { λ lists. Some lists };

    fn keep(&mut self, entries: List<Entry>, _spares: &mut Spares) -> Result<(), Memory> {
        self.push(entries)
    }
}

/// Lets the entries go: their memory serves those of later records.
#[derive(Drop)]
pub(crate) struct Dropping;

impl Keeper for Dropping {
    ghost kept = { λ _. None };

    fn keep(&mut self, entries: List<Entry>, spares: &mut Spares) -> Result<(), Memory> {
        spares.give_back(entries);
        Ok(())
    }
}
