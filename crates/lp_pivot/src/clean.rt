// The table before any pivot.
ghost use Rattle.std.specs.Prelude.{◌≡◌, ◌+◌, pos, false, length, replicate};
ghost use Rattle.lp_table.specs.Shape.{IsTable};
ghost use Rattle.lp_pivot.specs.Clean.{first_place, place_numbers, first_places, slack_basis, clean_of};

use base_num::List;
use lp_table::{Basis, Cell, Quantity, WarmTable};

// Writes each number at its place.
fn write_numbers(nonbasic: &mut List<usize>)
    ensures { nonbasic.new ≡ place_numbers (length nonbasic.old) }
{
    for j in 0..nonbasic.len() {
        nonbasic.set(j, j);
    }
}

// The place of a variable.
fn first_place(columns: usize, variable: usize) -> Option<usize>
    ensures { result ≡ first_place columns variable }
{
    if variable < columns {
        Some(variable)
    } else {
        None
    }
}

// Writes the place of each variable.
fn write_places(places: &mut List<Option<usize>>, columns: usize)
    ensures { places.new ≡ first_places columns (length places.old) }
{
    for v in 0..places.len() {
        places.set(v, first_place(columns, v));
    }
}

// Writes that no variable stands at its upper bound.
fn write_low(high: &mut List<bool>)
    ensures { high.new ≡ replicate (length high.old) false }
{
    for j in 0..high.len() {
        high.set(j, false);
    }
}

// Writes zeros.
fn write_zeros(values: &mut List<Quantity>)
    ensures { values.new ≡ replicate (length values.old) (pos 0) }
{
    for v in 0..values.len() {
        values.set(v, Quantity::zero());
    }
}

// Writes the costs of the columns.
fn write_costs(reduced: &mut List<Cell>, costs: &[Cell])
    requires { length costs.now ≡ length reduced.old }
    ensures { reduced.new ≡ costs.now }
{
    reduced.as_mut_slice().copy_from_slice(costs);
}

// Writes the basis of all slacks.
#[tactic(auto, unfolding(crate::specs::Clean::slack_basis))]
fn write_basis(basis: &mut Basis, columns: usize, rows: usize)
    requires nonbasic { length basis.old.nonbasic ≡ columns }
    requires places { length basis.old.places ≡ columns + rows }
    requires high { length basis.old.high ≡ columns }
    ensures { basis.new ≡ slack_basis columns rows }
{
    write_numbers(&mut basis.nonbasic);
    write_places(&mut basis.places, columns);
    write_low(&mut basis.high);
}

// Writes the table of the basis of all slacks over a table.
#[tactic(auto, unfolding(crate::specs::Clean::clean_of))]
pub(crate) fn clean(table: &mut WarmTable)
    requires { IsTable table.old }
    ensures { table.new ≡ clean_of table.old }
{
    write_basis(&mut table.basis, table.costs.len(), table.rows.len());
    write_costs(&mut table.reduced, table.costs.as_slice());
    write_zeros(&mut table.values);
    table.weak = false;
}
