// Costs over their least common denominator.
ghost use Rattle.std.specs.Int.{w128};
ghost use Rattle.std.specs.Prelude.{◌≡◌, ◌+◌, ◌*◌, ◌<◌, ◌^◌, pos, ◌+ℤ◌, ◌*ℤ◌, FitsSigned};
ghost use Rattle.policy_evaluate.specs.Costs.{add_branch, add_cost, add_stage, no_cost, share};
ghost use Rattle.policy_evaluate.specs.Small.{AddsUp};

use crate::multiples::gcd;

/// The cost of a part of the tree, up / under at scale 2^24, and the number of branches that were decided by then.
#[derive(Clone, Copy)]
pub(crate) struct Walked {
    pub(crate) up: i128,
    pub(crate) under: u64,
    pub(crate) decided: u32,
}

/// No cost, after so many branches.
pub(crate) fn no_cost(decided: u32) -> Walked
    ensures { result ≡ no_cost decided }
{
    Walked {
        up: 0,
        under: 1,
        decided,
    }
}

fn times(number: i128, factor: u64) -> i128
    requires { FitsSigned w128 (number *ℤ pos factor) }
    ensures { result ≡ number *ℤ pos factor }
{
    number * i128::from(factor)
}

fn weighted(weight: u32, number: i128) -> i128
    requires { FitsSigned w128 (pos weight *ℤ number) }
    ensures { result ≡ pos weight *ℤ number }
{
    i128::from(weight) * number
}

fn plus(number: i128, more: i128) -> i128
    requires { FitsSigned w128 (number +ℤ more) }
    ensures { result ≡ number +ℤ more }
{
    number + more
}

/// A sum with one cost more, times its weight, over the least common multiple of both denominators.
pub(crate) fn add_cost(sum: Walked, weight: u32, cost: Walked) -> Walked
    requires { AddsUp sum weight cost }
    ensures { result ≡ add_cost sum weight cost }
{
    let common = gcd(sum.under, cost.under);
    let part = sum.under / common;
    let own = times(sum.up, cost.under / common);
    let more = times(weighted(weight, cost.up), part);
    Walked {
        up: plus(own, more),
        under: part * cost.under,
        decided: cost.decided,
    }
}

/// The cost of a stage, and behind it that of its successors, by their whole weight.
pub(crate) fn add_stage(weight: u32, stage: i128, cost: Walked) -> Walked
    requires under { weight * cost.under < 2 ^ 64 }
    requires stage { FitsSigned w128 (pos (weight * cost.under) *ℤ stage) }
    requires whole { FitsSigned w128 (pos (weight * cost.under) *ℤ stage +ℤ cost.up) }
    ensures { result ≡ add_stage weight stage cost }
{
    let under = u64::from(weight) * cost.under;
    Walked {
        up: plus(stage_over(under, stage), cost.up),
        under,
        decided: cost.decided,
    }
}

fn stage_over(under: u64, stage: i128) -> i128
    requires { FitsSigned w128 (pos under *ℤ stage) }
    ensures { result ≡ pos under *ℤ stage }
{
    i128::from(under) * stage
}

/// A sum with one branch more, times its weight; all branches of a node stand over the same number.
pub(crate) fn add_branch(sum: Walked, weight: u32, cost: Walked) -> Walked
    requires weighted { FitsSigned w128 (pos weight *ℤ cost.up) }
    requires whole { FitsSigned w128 (sum.up +ℤ pos weight *ℤ cost.up) }
    ensures { result ≡ add_branch sum weight cost }
{
    Walked {
        up: plus(sum.up, weighted(weight, cost.up)),
        under: cost.under,
        decided: cost.decided,
    }
}

/// A share of a cost.
pub(crate) fn share(weight: u32, cost: Walked) -> Walked
    requires { weight * cost.under < 2 ^ 64 }
    ensures { result ≡ share weight cost }
{
    Walked {
        up: cost.up,
        under: u64::from(weight) * cost.under,
        decided: cost.decided,
    }
}
