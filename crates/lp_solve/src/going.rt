// Turns on a table with the sides of a program, and its basis in a clean table.
ghost use Rattle.std.specs.Prelude.{◌≡◌, length, take, IfOk, OnOk};
ghost use Rattle.lp_program.specs.Proper.{IsProper};
ghost use Rattle.lp_table.specs.Shape.{IsTable};
ghost use Rattle.lp_table.specs.Updates.{GivesNew};
ghost use Rattle.lp_scale.specs.Appending.{sided, with_bounds};
ghost use Rattle.lp_scale.specs.Fitting.{Fits};
ghost use Rattle.lp_solve.specs.Fitting.{KeepsOwn, IsRoomy};
ghost use Rattle.lp_solve.specs.Going.{trusted, gone_on, cleared, go_of, restored_of};
ghost use Rattle.lp_solve.specs.Steps.{EndsTurns};

use crate::turns::{WorkRoom, take_turns};
use base_num::{List, Memory};
use lp_pivot::{Shift, rebuild, refine};
use lp_program::{Answer, StageLp};
use lp_scale::set_sides;
use lp_table::{Cell, Square, WarmTable};
use std::alloc::Global;
use std::mem;

// Makes a list so long, where it is not. Its values count for nothing then.
fn fit<T: Copy + Drop>(
    alloc: Global,
    list: &mut List<T>,
    count: usize,
    item: T,
) -> Result<(), Memory>
    ensures { OnOk result (length list.new ≡ count) }
{
    if list.len() != count {
        let mut items = mem::replace(list, List::new(alloc)).into_vec();
        items.clear();
        items.resize(count, item)?;
        *list = List::from_vec(items);
    }
    Ok(())
}

// Makes the lists for work as long as a table asks.
fn make_room(alloc: Global, room: &mut WorkRoom, table: &WarmTable) -> Result<(), Memory>
    ensures { OnOk result (IsRoomy room.new table.now) }
{
    let columns = table.costs.len();
    fit(alloc, &mut room.line, columns, Cell::zero())?;
    fit(alloc, &mut room.steps, columns, (0, Cell::zero()))?;
    fit(alloc, &mut room.shifts, columns, (0, Shift::zero()))
}

// Sets the sides of own rows, and forgets what was known of the last answer. False where a side is out of range.
#[tactic(auto, using(crate::proofs::Setting::prepared_fits))]
fn prepare(lp: &StageLp, table: &mut WarmTable) -> bool
    requires proper { IsProper lp.now }
    requires fits { Fits table.old lp.now }
    ensures fits { Fits table.new lp.now }
    ensures sides { result ≡ (sided (trusted table.old) (take lp.now.own lp.now.rows)).0 }
    ensures table { table.new ≡ with_bounds (sided (trusted table.old) (take lp.now.own lp.now.rows)).1 (trusted table.old) }
{
    table.weak = false;
    set_sides(table, lp)
}

// Turns from the values of a table's basis on, as many as there may be.
#[tactic(auto, unfolding(crate::specs::Going::gone_on), using(crate::proofs::Fitting::still_fits))]
fn take_all_turns(
    alloc: Global,
    lp: &StageLp,
    table: &mut WarmTable,
    room: &mut WorkRoom,
) -> Result<Option<Answer>, Memory>
    requires proper { IsProper lp.now }
    requires fits { Fits table.old lp.now }
    requires room { IsRoomy room.old table.old }
    ensures fits { OnOk result (Fits table.new lp.now) }
    ensures room { OnOk result (IsRoomy room.new table.new) }
    ensures own { OnOk result (KeepsOwn lp.now table.old table.new) }
    ensures went { IfOk result (λ answer. EndsTurns answer (gone_on lp.now table.old) table.new) }
{
    if !refine(table, &mut room.shifts) {
        return Ok(None);
    }
    let limit = 20 * table.costs.len() + 100;
    take_turns(alloc, lp, table, room, limit)
}

/// Turns on a table with the sides of a program, until there is an answer. None where a number is out of range, or where
/// all turns are used up: of the table its program, its rows and its basis count then. Of a program without cuts no rows come
/// in. [`Memory`] where memory was refused.
#[tactic(auto, unfolding(crate::specs::Going::go_of))]
pub(crate) fn go(
    alloc: Global,
    lp: &StageLp,
    table: &mut WarmTable,
    room: &mut WorkRoom,
) -> Result<Option<Answer>, Memory>
    requires proper { IsProper lp.now }
    requires fits { Fits table.old lp.now }
    ensures fits { OnOk result (Fits table.new lp.now) }
    ensures room { OnOk result (IsRoomy room.new table.new) }
    ensures scales { OnOk result (lp.now.own ≡ length lp.now.rows → table.new.scales ≡ table.old.scales) }
    ensures went { IfOk result (λ answer. EndsTurns answer (go_of lp.now table.old) table.new) }
{
    make_room(alloc, room, table)?;
    if !prepare(lp, table) {
        return Ok(None);
    }
    take_all_turns(alloc, lp, table, room)
}

// Forgets the lines of a table.
#[tactic(auto, using(crate::proofs::Setting::cleared_table))]
fn clear(alloc: Global, table: &mut WarmTable) -> Result<(), Memory>
    requires sized { IsTable table.old }
    ensures sized { OnOk result (IsTable table.new) }
    ensures cleared { OnOk result (table.new ≡ cleared table.old) }
{
    table.lines = Square::new(alloc, table.costs.len())?;
    Ok(())
}

/// The basis of a table in a clean one. False where a number is out of range: nothing but its shape and its program is
/// promised of the table then. [`Memory`] where memory was refused.
#[tactic(auto, unfolding(crate::specs::Going::restored_of), using(crate::proofs::Setting::restored_fits))]
pub(crate) fn restore(
    alloc: Global,
    lp: &StageLp,
    table: &mut WarmTable,
    room: &mut WorkRoom,
) -> Result<bool, Memory>
    requires fits { Fits table.old lp.now }
    requires room { IsRoomy room.old table.old }
    ensures fits { OnOk result (Fits table.new lp.now) }
    ensures restored { IfOk result (λ made. GivesNew made (restored_of table.old) table.new) }
{
    clear(alloc, table)?;
    rebuild(alloc, table, &mut room.line, &mut room.steps)
}
