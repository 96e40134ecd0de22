// The table of a whole program.
ghost use Rattle.std.specs.Prelude.{◌≡◌, IfOk, IfSome};
ghost use Rattle.lp_program.specs.Proper.{IsProper};
ghost use Rattle.lp_wide_table.specs.Shape.{WideFits};
ghost use Rattle.lp_wide_table.specs.Making.{table_of};

use crate::appending::append;
use crate::table::WideTable;
use crate::tables::columns_table;
use base_num::Memory;
use lp_program::StageLp;
use lp_scale::whole_scales;
use std::alloc::Global;

/// The table of a whole program: all its columns, each where its cost is least, and all its rows, whose slacks are basic.
/// None where there are more than 1,199 columns, or where a number leaves its range. [`Memory`] where memory was refused.
#[tactic(auto, unfolding(crate::specs::Making::table_of))]
pub fn whole_table(alloc: Global, lp: &StageLp) -> Result<Option<WideTable>, Memory>
    requires proper { IsProper lp.now }
    ensures value { IfOk result (λ table. table ≡ table_of lp.now) }
    ensures fits { IfOk result (λ table. IfSome table (λ t. WideFits t lp.now)) }
{
    let count = lp.columns().len();
    if count > 1199 {
        return Ok(None);
    }
    let scales = whole_scales(alloc, lp)?;
    let Some(mut table) = columns_table(alloc, count, scales, lp.columns())? else {
        return Ok(None);
    };
    let program = lp.program(alloc)?;
    if append(alloc, &mut table, program.rows.as_slice())? {
        Ok(Some(table))
    } else {
        Ok(None)
    }
}
