// The index that a word picks among weights.
ghost use Rattle.std.specs.Prelude.{◌≡◌, ◌+◌, ◌*◌, ◌/◌, ◌<◌, ◌≤◌, ◌++◌, true, length, sum};
ghost use Rattle.problem.specs.Limits.{are_weights};
ghost use Rattle.plan_draw.specs.Picked.{first_above, level_of, picked, stop_weight};

// The word at the scale of the total weight.
fn level_of(total: u32, word: u32) -> u32
    requires { total ≤ 65535 }
    ensures value { result ≡ level_of total word }
    ensures below { 0 < total → result < total }
{
    (u64::from(word) * u64::from(total) / (1 << 32)) as u32
}

// The first index whose running sum exceeds the level, and the number of weights where none does.
fn first_above(weights: &[u32], level: u32) -> u32
    requires total { sum weights.now ≤ 65535 }
    requires few { length weights.now ≤ 65535 }
    ensures { result ≡ first_above level 0 0 weights.now }
{
    let mut sum = 0;
    for (i, weight) in weights.iter().enumerate() {
        sum += *weight;
        if level < sum {
            return i as u32;
        }
    }
    weights.len() as u32
}

// Gives the index that a word picks among weights with a stop weight behind them.
#[tactic(auto, using(crate::proofs::Picking::picked_stop, crate::proofs::Picking::few_weights))]
pub(crate) fn pick_or_stop(weights: &[u32], stop: u32, word: u32) -> u32
    requires some { 0 < length weights.now }
    requires weights { are_weights weights.now ≡ true }
    requires total { sum weights.now + stop ≤ 65535 }
    ensures { result ≡ picked (weights.now ++ stop_weight stop) word }
{
    let total = weights.iter().sum::<u32>() + stop;
    first_above(weights, level_of(total, word))
}

/// The index that a word picks among some weights: the first whose running sum exceeds `word * Q / 2^32`, rounded
/// down, where Q is the sum of the weights. So each index has about its weight's share of the words. There are weights,
/// each is at least 1, and Q is at most 65,535. No memory is taken.
pub fn pick(weights: &[u32], word: u32) -> u32
    requires some { 0 < length weights.now }
    requires weights { are_weights weights.now ≡ true }
    requires total { sum weights.now ≤ 65535 }
    ensures value { result ≡ picked weights.now word }
    ensures in_range { result < length weights.now }
{
    pick_or_stop(weights, 0, word)
}
