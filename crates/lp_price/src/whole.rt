// Sums and products that may leave 128 bits.
ghost use Rattle.std.specs.Prelude.{◌≡◌, ◌+ℤ◌, ◌*ℤ◌};
ghost use Rattle.lp_program.specs.Numbers.{held};

// The sum. None exactly where 128 bits do not hold it.
#[tactic(auto, using(lp_program::proofs::Numbers::is_held))]
pub(crate) fn sum(x: i128, y: i128) -> Option<i128>
    ensures { result ≡ held (x +ℤ y) }
{
    x.checked_add(y)
}

// The product. None exactly where 128 bits do not hold it.
#[tactic(auto, using(lp_program::proofs::Numbers::is_held))]
pub(crate) fn whole_product(x: i128, y: i128) -> Option<i128>
    ensures { result ≡ held (x *ℤ y) }
{
    x.checked_mul(y)
}
