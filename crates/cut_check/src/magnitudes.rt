// Absolute values, of numbers and of the numbers in a box.
ghost use Rattle.std.specs.Prelude.{◌≡◌, nat_abs};
ghost use Rattle.cut_make.specs.SizeByTerms.{span};

/// The absolute value.
pub fn absolute(x: i64) -> u128
    ensures { result ≡ nat_abs x }
{
    u128::from(x.unsigned_abs())
}

/// The greatest of 1 and the absolute values of a box's sides.
pub fn reach(low: i64, high: i64) -> u128
    ensures { result ≡ span low high }
{
    absolute(low).max(absolute(high)).max(1)
}
