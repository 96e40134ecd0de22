// The answer to a program in wide numbers, from nothing.
ghost use Rattle.std.specs.Prelude.{◌≡◌, IfOk};
ghost use Rattle.lp_program.specs.Proper.{IsProper};
ghost use Rattle.lp_wide_table.specs.Shape.{WideFits};
ghost use Rattle.lp_wide.specs.Solve.{solved, wide_of};

use crate::turns::take_turns;
use base_num::Memory;
use lp_program::{Answer, StageLp};
use lp_wide_table::{WideTable, whole_table};
use std::alloc::Global;

// The answer by the table of the whole program.
fn solved(alloc: Global, lp: &StageLp, table: WideTable) -> Result<Option<Answer>, Memory>
    requires proper { IsProper lp.now }
    requires fits { WideFits table lp.now }
    ensures { IfOk result (λ answer. answer ≡ solved lp.now table) }
{
    let mut table = table;
    let limit = 20 * table.costs.len() + 100;
    take_turns(alloc, lp, &mut table, limit)
}

/// The answer to a program by the bounded dual simplex method in numbers of 128 bits, from nothing: a point with duals, or
/// multipliers of own rows that prove that no point keeps these. None where a number leaves its range, where 20 turns for
/// each column and 100 are used up, or with more than 1,199 columns. [`Memory`] where memory was refused.
#[tactic(auto, unfolding(crate::specs::Solve::wide_of))]
pub fn wide(alloc: Global, lp: &StageLp) -> Result<Option<Answer>, Memory>
    requires proper { IsProper lp.now }
    ensures { IfOk result (λ answer. answer ≡ wide_of lp.now) }
{
    match whole_table(alloc, lp)? {
        Some(table) => solved(alloc, lp, table),
        None => Ok(None),
    }
}
