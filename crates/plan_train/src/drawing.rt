// The paths of an iteration.
ghost use Rattle.std.specs.Prelude.{◌≡◌, ◌+◌, ◌*◌, ◌-◌, ◌≤◌, ◌^◌, length, All, IfOk};
ghost use Rattle.plan_draw.specs.Drawn.{IsPath};
ghost use Rattle.plan_train.specs.Drawing.{first_stream, paths_from};

use base_num::{List, Memory};
use plan_draw::{PathStep, path};
use problem::Problem;
use std::alloc::Global;

/// The stream of the first path of an iteration.
pub(crate) fn first_stream(batch: u16, iteration: u32) -> u64
    requires some { 1 ≤ iteration }
    requires few { iteration ≤ 2000 }
    requires paths { batch ≤ 64 }
    ensures value { result ≡ first_stream batch iteration }
    ensures small { result ≤ 2 ^ 20 }
{
    u64::from(iteration - 1) * u64::from(batch) + 1
}

/// Draws so many paths, by the streams from `first` on. [`Memory`] where memory was refused.
pub(crate) fn paths_from(
    alloc: Global,
    problem: &Problem,
    seed: u64,
    first: u64,
    count: u16,
) -> Result<List<List<PathStep>>, Memory>
    requires { first ≤ 2 ^ 20 }
    ensures value { IfOk result (λ found. found ≡ paths_from problem.now seed first count) }
    ensures count { IfOk result (λ found. length found ≡ count) }
    ensures paths { IfOk result (All (IsPath problem.now)) }
{
    let mut found = List::new(alloc);
    for place in 0..count {
        found.push(path(alloc, problem, seed, first + u64::from(place))?)?;
    }
    Ok(found)
}
