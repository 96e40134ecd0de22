// The formulas that bound a whole policy: its branches, the number over which its cost stands, and its costs along a path.
ghost use Rattle.std.specs.Prelude.{◌≡◌, IfOk};
ghost use Rattle.policy_evaluate.specs.TooBig.{too_big_of};

use crate::branch_counts::branch_count;
use crate::denominators::root_denominator;
use crate::stage_sizes::path_size;
use base_num::Memory;
use problem::formulas::above;
use problem::{Problem, TooMuch};
use std::alloc::Global;

const MOST_BRANCHES: u64 = 1 << 16;

const MOST_DENOMINATOR: u64 = 1 << 40;

const MOST_SIZE: u64 = 1 << 60;

/// The first of formulas 5 to 7 that is above its limit for a whole policy of a problem: its branches, above 2^16, where
/// `value` stops at 2^32; the number over which its cost stands, above 2^40, where `value` stops at 2^41; and the number
/// of nodes on the longest path times the greatest absolute stage cost sum, above 2^60, where `value` stops at 2^61. No
/// branch is walked: it takes the time of the nodes, their arcs and their numbers. Memory where memory was refused.
pub fn too_big(alloc: Global, problem: &Problem) -> Result<Option<TooMuch>, Memory>
    ensures { IfOk result (λ found. found ≡ too_big_of problem.now) }
{
    let branches = above(5, MOST_BRANCHES, branch_count(alloc, problem, 1 << 32)?);
    if branches.is_some() {
        return Ok(branches);
    }
    let denominator = root_denominator(alloc, problem, 1 << 41)?;
    let denominator = above(6, MOST_DENOMINATOR, denominator);
    if denominator.is_some() {
        return Ok(denominator);
    }
    Ok(above(7, MOST_SIZE, path_size(problem, 1 << 61)))
}
