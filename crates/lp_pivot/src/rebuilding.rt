// A basis in a clean table.
ghost use Rattle.std.specs.Prelude.{◌≡◌, length, IfOk, OnErr};
ghost use Rattle.lp_table.specs.Shape.{IsTable};
ghost use Rattle.lp_table.specs.Updates.{GivesNew};
ghost use Rattle.lp_table.specs.SameParts.{KeepsProgram};
ghost use Rattle.lp_pivot.specs.Standings.{rebuilt_of};

use crate::clean::clean;
use crate::standings::stand_up;
use crate::tighten::tighten_all;
use base_num::{List, Memory};
use lp_table::{Basis, Cell, WarmTable};
use std::alloc::Global;

// Rebuilds a basis, of which a copy is given.
#[tactic(auto, unfolding(crate::specs::Standings::rebuilt_of))]
fn rebuild_from(
    table: &mut WarmTable,
    line: &mut List<Cell>,
    steps: &mut List<(usize, Cell)>,
    was: &Basis,
) -> bool
    requires sized { IsTable table.old }
    requires width { length line.old ≡ length table.old.costs }
    requires steps { length steps.old ≡ length table.old.costs }
    requires was { was.now ≡ table.old.basis }
    ensures sized { IsTable table.new }
    ensures width { length line.new ≡ length line.old }
    ensures steps { length steps.new ≡ length steps.old }
    ensures program { KeepsProgram table.old table.new }
    ensures rebuilt { GivesNew result (rebuilt_of table.old) table.new }
{
    clean(table);
    if !tighten_all(table, line, steps, was) {
        return false;
    }
    stand_up(table, was);
    true
}

/// Rebuilds the basis of a table from the program that the table holds: first all slacks are basic,
/// then those that were not leave again, in order, each for the place of its greatest cell at which
/// a column stands that was basic. The answer is `Ok(false)` exactly where a number on the way has
/// an absolute value of 2^60 or more: nothing is promised of the table then but its shape and its
/// program.
/// [`Memory`] where memory was refused: the table is as before. The program of the table stays.
/// `line` and `steps` are for work: as many numbers, and as many places with cells, as columns.
pub fn rebuild(
    alloc: Global,
    table: &mut WarmTable,
    line: &mut List<Cell>,
    steps: &mut List<(usize, Cell)>,
) -> Result<bool, Memory>
    requires sized { IsTable table.old }
    requires width { length line.old ≡ length table.old.costs }
    requires steps { length steps.old ≡ length table.old.costs }
    ensures sized { IsTable table.new }
    ensures width { length line.new ≡ length line.old }
    ensures steps { length steps.new ≡ length steps.old }
    ensures program { KeepsProgram table.old table.new }
    ensures rebuilt { IfOk result (λ done. GivesNew done (rebuilt_of table.old) table.new) }
    ensures refused { OnErr result (table.new ≡ table.old) }
{
    let was = table.basis.copy(alloc)?;
    Ok(rebuild_from(table, line, steps, &was))
}
