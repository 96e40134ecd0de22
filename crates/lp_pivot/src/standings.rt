// Where the columns of a basis stand that is rebuilt.
ghost use Rattle.std.specs.Prelude.{◌≡◌, ◌<◌, length, All, IfSome};
ghost use Rattle.lp_table.specs.Shape.{IsTable, variables};
ghost use Rattle.lp_pivot.specs.Tighten.{stands_high, was_high};
ghost use Rattle.lp_pivot.specs.Standings.{map_from, standing, standing_at, stood_up};

use base_num::List;
use lp_table::{Basis, Cell, WarmTable};

// Tells whether the variable at a place, if it has one, stands at its upper bound.
fn stands_high(basis: &Basis, place: Option<usize>) -> bool
    requires { IfSome place (λ j. j < length basis.now.high) }
    ensures { result ≡ stands_high basis.now place }
{
    match place {
        Some(j) => basis.high.as_slice()[j],
        None => false,
    }
}

// Tells whether a variable was not basic and stood at its upper bound.
pub(crate) fn was_high(basis: &Basis, variable: usize) -> bool
    requires there { variable < length basis.now.places }
    requires inside { All (λ p. IfSome p (λ j. j < length basis.now.high)) basis.now.places }
    ensures { result ≡ was_high basis.now variable }
{
    stands_high(basis, basis.places.as_slice()[variable])
}

// Tells whether a variable stands at its upper bound.
#[tactic(auto, unfolding(crate::specs::Standings::standing))]
fn standing(basis: &Basis, columns: usize, variable: usize, reduced: Cell, high: bool) -> bool
    requires there { variable < length basis.now.places }
    requires inside { All (λ p. IfSome p (λ j. j < length basis.now.high)) basis.now.places }
    ensures { result ≡ standing basis.now columns variable reduced high }
{
    if variable < columns {
        let cost = reduced.number();
        cost < 0 || (!(0 < cost) && was_high(basis, variable))
    } else {
        high
    }
}

// Tells whether the variable at place j stands at its upper bound.
#[tactic(auto, unfolding(crate::specs::Standings::standing_at))]
fn standing_at(basis: &Basis, nonbasic: &[usize], reduced: &[Cell], j: usize, high: bool) -> bool
    requires place { j < length nonbasic.now }
    requires reduced { length reduced.now ≡ length nonbasic.now }
    requires numbers { All (λ v. v < length basis.now.places) nonbasic.now }
    requires inside { All (λ p. IfSome p (λ j. j < length basis.now.high)) basis.now.places }
    ensures { result ≡ standing_at basis.now nonbasic.now reduced.now j high }
{
    standing(basis, nonbasic.len(), nonbasic[j], reduced[j], high)
}

// Writes where the variables at all places stand.
fn write_standings(high: &mut List<bool>, basis: &Basis, nonbasic: &[usize], reduced: &[Cell])
    requires count { length high.old ≡ length nonbasic.now }
    requires reduced { length reduced.now ≡ length nonbasic.now }
    requires numbers { All (λ v. v < length basis.now.places) nonbasic.now }
    requires inside { All (λ p. IfSome p (λ j. j < length basis.now.high)) basis.now.places }
    ensures standings { high.new
        ≡ map_from (standing_at basis.now nonbasic.now reduced.now) 0 high.old }
    ensures count { length high.new ≡ length high.old }
{
    for j in 0..high.len() {
        let stands = standing_at(basis, nonbasic, reduced, j, high.as_slice()[j]);
        high.set(j, stands);
    }
}

// Sets each nonbasic column of a table to stand by its reduced cost, and as it was where that is 0.
#[tactic(auto, unfolding(crate::specs::Standings::stood_up), using(crate::proofs::Sizes::numbers_inside))]
pub(crate) fn stand_up(table: &mut WarmTable, was: &Basis)
    requires sized { IsTable table.old }
    requires places { length was.now.places ≡ variables table.old }
    requires inside { All (λ p. IfSome p (λ j. j < length was.now.high)) was.now.places }
    ensures { table.new ≡ stood_up was.now table.old }
{
    write_standings(
        &mut table.basis.high,
        was,
        table.basis.nonbasic.as_slice(),
        table.reduced.as_slice(),
    );
}
