// The greatest common divisor of two numbers.
ghost use Rattle.std.specs.Prelude.{◌≡◌};
ghost use Rattle.policy_evaluate.specs.Multiples.{gcd};

/// The greatest common divisor, by Euclid's steps.
pub(crate) fn gcd(a: u64, b: u64) -> u64
    ensures { result ≡ gcd a b }
{
    let mut x = a;
    let mut y = b;
    while y != 0 {
        let tail = x % y;
        x = y;
        y = tail;
    }
    x
}
