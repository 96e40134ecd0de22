// The sides of rows that multipliers stand on.
ghost use Rattle.std.specs.Prelude.{◌≡◌};
ghost use Rattle.theory.specs.CutOf.{side};
ghost use Rattle.cut_make.specs.Acceptance.{is_sign};

use problem::Row;

/// The side of a row that a multiplier stands on, 0 where there is none: the lower one of a positive multiplier, the
/// upper one of a negative.
pub fn row_side(row: &Row, multiplier: i64) -> i64
    ensures { result ≡ side row.now multiplier }
{
    if multiplier > 0 {
        row.low.unwrap_or(0)
    } else if multiplier < 0 {
        row.high.unwrap_or(0)
    } else {
        0
    }
}

/// Tells whether a row has the side that a multiplier stands on: no positive multiplier without a lower side, and no negative
/// one without an upper.
pub fn is_sign(row: &Row, multiplier: i64) -> bool
    ensures { result ≡ is_sign row.now multiplier }
{
    if multiplier > 0 {
        row.low.is_some()
    } else {
        multiplier == 0 || row.high.is_some()
    }
}
