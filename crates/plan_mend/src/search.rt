// A search for decisions that meet their rows.
ghost use Rattle.std.specs.Prelude.{◌≡◌, set};

use crate::amounts::Amount;
use base_num::List;

/// A move of one decision.
#[derive(Clone, Copy, Drop)]
pub(crate) struct Move {
    /// The number of the decision.
    pub(crate) decision: u32,
    /// By how much it moves, at scale 2^24.
    pub(crate) amount: Amount,
    /// The number of rows that have to be met and are not met afterwards.
    pub(crate) harm: u32,
    /// The cost of the decision times the amount.
    pub(crate) cost: i128,
}

/// Decisions, which of them are held, and how many tries are left.
#[derive(Drop)]
pub(crate) struct Search {
    /// One number per decision, at scale 2^24.
    pub(crate) numbers: List<i128>,
    /// One entry per decision.
    pub(crate) held: List<bool>,
    /// The number of moves that may still be tried.
    pub(crate) tries: u32,
}

/// Puts an item in the place of the one at a number, where there is one.
pub(crate) fn put<T: Drop>(list: &mut List<T>, at: usize, item: T)
    ensures { list.new ≡ set list.old at item }
{
    if at < list.len() {
        list.set(at, item);
    }
}
