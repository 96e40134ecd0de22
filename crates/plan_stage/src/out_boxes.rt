// The boxes of the states that leave a stage.
ghost use Rattle.std.specs.Prelude.{◌≡◌, ◌<◌, true, [], length, nat_lt, IfOk};
ghost use Rattle.std.specs.List.{list_all};
ghost use Rattle.base_num.specs.Sums.{entry};
ghost use Rattle.problem.specs.Validated.{out_lows, out_highs};
ghost use Rattle.plan_stage.specs.OutBoxes.{out_box, out_boxes};

use base_num::{List, Memory};
use cut_pool::OutBox;
use problem::{Decision, Subproblem};

/// The decision that leaves the stage as a state.
pub(crate) fn out_decision(subproblem: &Subproblem, state: usize) -> &Decision
    requires there { state < length subproblem.now.outs }
    requires known { list_all (λ o. nat_lt o (length subproblem.now.decisions)) subproblem.now.outs ≡ true }
    ensures low { entry (out_lows subproblem.now) state ≡ result.now.low }
    ensures high { entry (out_highs subproblem.now) state ≡ result.now.high }
{
    &subproblem.decisions.as_slice()[subproblem.outs.as_slice()[state] as usize]
}

fn out_box(subproblem: &Subproblem, state: usize) -> OutBox
    requires there { state < length subproblem.now.outs }
    requires known { list_all (λ o. nat_lt o (length subproblem.now.decisions)) subproblem.now.outs ≡ true }
    ensures { result ≡ out_box subproblem.now state }
{
    let out = out_decision(subproblem, state);
    OutBox {
        least: out.low.min(out.high),
        greatest: out.low.max(out.high),
    }
}

/// Gives the boxes of the states that leave a stage, one for each state, in the memory of a list without values. [`Memory`] where
/// memory was refused.
pub(crate) fn out_boxes(over: List<OutBox>, subproblem: &Subproblem) -> Result<List<OutBox>, Memory>
    requires over { over ≡ [] }
    requires known { list_all (λ o. nat_lt o (length subproblem.now.decisions)) subproblem.now.outs ≡ true }
    ensures { IfOk result (λ found. found ≡ out_boxes subproblem.now) }
{
    let mut found = over;
    for state in 0..subproblem.outs.len() {
        found.push(out_box(subproblem, state))?;
    }
    Ok(found)
}
