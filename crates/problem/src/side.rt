// The two sides of a box.
ghost use Rattle.std.specs.Prelude.{◌≡◌};
ghost use Rattle.problem.specs.Hull.{outer, is_outside, encloses};

/// A side of a box.
#[derive(Clone, Copy, Debug, PartialEq, Eq)]
pub enum Side {
    /// The least values.
    Low,
    /// The greatest values.
    High,
}

// The number that lies further out.
pub(crate) fn outer(side: Side, a: i64, b: i64) -> i64
    ensures { result ≡ outer side a b }
{
    match side {
        Side::Low => a.min(b),
        Side::High => a.max(b),
    }
}

fn is_outside(side: Side, a: i64, b: i64) -> bool
    ensures { result ≡ is_outside side a b }
{
    match side {
        Side::Low => a <= b,
        Side::High => b <= a,
    }
}

// A bound, where one is given, lies at the hull or further out.
pub(crate) fn encloses(side: Side, bound: Option<i64>, hull: i64) -> bool
    ensures { result ≡ encloses side bound hull }
{
    match bound {
        Some(bound) => is_outside(side, bound, hull),
        None => true,
    }
}
