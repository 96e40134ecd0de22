// Sums, products and least common multiples that stop at a cap.
ghost use Rattle.std.specs.Prelude.{◌≡◌, ◌+◌, ◌*◌, ◌<◌, min};
ghost use Rattle.policy_evaluate.specs.Multiples.{lcm};

use crate::multiples::gcd;

/// A sum, and the cap where it is above that.
pub(crate) fn capped_sum(first: u64, second: u64, cap: u64) -> u64
    ensures { result ≡ min (first + second) cap }
{
    first.saturating_add(second).min(cap)
}

/// A product, and the cap where it is above that.
pub(crate) fn capped_product(first: u64, second: u64, cap: u64) -> u64
    ensures { result ≡ min (first * second) cap }
{
    first.saturating_mul(second).min(cap)
}

/// The least common multiple, and the cap where it is above that.
pub(crate) fn capped_multiple(first: u64, second: u64, cap: u64) -> u64
    requires some { 0 < first }
    ensures { result ≡ min (lcm first second) cap }
{
    capped_product(first / gcd(first, second), second, cap)
}
