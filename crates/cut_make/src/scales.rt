// The weights of a node and the scale of its certificates.
ghost use Rattle.std.specs.Prelude.{◌≡◌, ◌+◌, ◌*◌, ◌^◌, ◌<◌, ◌≤◌, ℕ, pos, length, sum};
ghost use Rattle.theory.specs.Problem.{S, weight_of_successors};
ghost use Rattle.theory.specs.View.{successors_of};

use problem::Node;

/// The scale of cuts and multipliers, S.
pub(crate) const SCALE: i128 = theory::SCALE as i128;

/// The scale of cuts and multipliers, S, in 64 bits.
pub(crate) const SHORT_SCALE: i64 = theory::SCALE as i64;

/// The total of the weights.
pub(crate) fn total(weights: &[u32]) -> u64
    requires { length weights.now ≤ 2 ^ 16 }
    ensures { result ≡ sum weights.now }
{
    weights.iter().map(|weight| u64::from(*weight)).sum()
}

/// The stop weight and the successor weights, 1 without successors.
pub fn successor_weight(node: &Node) -> u64
    requires successors { length node.now.successor_weights ≡ length node.now.successors }
    requires few { length node.now.successors ≤ 2 ^ 16 }
    requires small { sum node.now.successor_weights + node.now.stop ≤ 65535 }
    ensures value { result
        ≡ weight_of_successors node.now.stop (successors_of node.now.successors node.now.successor_weights) }
    ensures small { result ≤ 65535 }
{
    if node.successors.is_empty() {
        return 1;
    }
    u64::from(node.stop) + total(node.successor_weights.as_slice())
}

/// S^2 * Q: the scale of a realization's numbers.
#[tactic(auto, unfolding(theory::specs::Problem::S))]
pub fn scale(node: &Node) -> i128
    requires successors { length node.now.successor_weights ≡ length node.now.successors }
    requires few { length node.now.successors ≤ 2 ^ 16 }
    requires small { sum node.now.successor_weights + node.now.stop ≤ 65535 }
    ensures { result ≡ pos (S * S
        * weight_of_successors node.now.stop (successors_of node.now.successors node.now.successor_weights)) }
{
    SCALE * SCALE * i128::from(successor_weight(node))
}

/// S * Q * W: the divisor of the sums over the realizations.
#[tactic(auto, unfolding(theory::specs::Problem::S))]
pub fn divisor(node: &Node, weights: &[u32]) -> i128
    requires successors { length node.now.successor_weights ≡ length node.now.successors }
    requires few { length node.now.successors ≤ 2 ^ 16 }
    requires small { sum node.now.successor_weights + node.now.stop ≤ 65535 }
    requires count { length weights.now ≤ 100 }
    requires weight { sum weights.now ≤ 65535 }
    ensures { result ≡ pos (S
        * weight_of_successors node.now.stop (successors_of node.now.successors node.now.successor_weights)
        * sum weights.now) }
{
    SCALE * i128::from(successor_weight(node)) * i128::from(total(weights))
}
