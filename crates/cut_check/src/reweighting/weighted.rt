// The sums of shares by the weights of their realizations.
ghost use Rattle.std.specs.Prelude.{◌≡◌, ◌^◌, ◌≤◌, ◌*◌, ℕ, pos, ◌+ℤ◌, ◌*ℤ◌, List, length, min};
ghost use Rattle.theory.specs.declared.cut.Certificate.{Certificate};
ghost use Rattle.cut_make.specs.Congruent.{Congruent};
ghost use Rattle.cut_make.specs.Parts.{Limited};
ghost use Rattle.cut_check.specs.Shares.{Shares, SumsTo};
ghost use Rattle.cut_make.specs.Sized.{Sized};
ghost use Rattle.cut_make.specs.SizeByTerms.{AddsSize};

use super::shares::Share;
use base_num::Size;
use cut_make::node_at::NodeAt;
use cut_make::wrapping_add_product;

/// Sums over the realizations, each by its weight.
#[derive(Clone, Copy)]
pub struct Sums {
    /// The sum of the sizes.
    pub size: Size,
    /// The sum of the constants, A modulo 2^128.
    pub constant: i128,
}

impl Sums {
    /// A, modulo 2^128.
    pub(super) fn constant(&self) -> i128
        ensures { result ≡ self.now.constant }
    {
        self.constant
    }
}

/// A realization's size by its weight.
fn plus_share(size: Size, weight: u32, share: &Share) -> Option<Size>
    requires positive { 1 ≤ weight }
    ensures { (amount : ℕ) → share.now.size ≡ min amount (2 ^ 127) → AddsSize size.total result (weight * amount) }
{
    size.plus_product(u128::from(weight), share.size)
}

/// A sum with a realization's constant by its weight, modulo 2^128.
fn plus_constant(sum: i128, weight: u32, share: &Share) -> i128
    ensures { Congruent result (sum +ℤ pos weight *ℤ share.now.constant) }
{
    wrapping_add_product(sum, i128::from(weight), share.constant)
}

/// The sums of all shares, or the first realization whose size brings the sum above 2^127 - 1.
pub(super) fn weighted_sums(here: &NodeAt, shares: &[Share]) -> Result<Sums, usize>
    requires limits { Limited here.now.node.now here.now.subproblem.now }
    requires sized { Sized here.now.pools.now.lists here.now.node.now here.now.subproblem.now here.now.low.now here.now.weights.now }
    requires count { length shares.now ≡ length here.now.weights.now }
    ensures { (list : List Certificate) → Shares here.now.pools.now.lists here.now.node.now here.now.subproblem.now here.now.low.now here.now.high.now list shares.now
        → SumsTo here.now.pools.now.lists here.now.node.now here.now.subproblem.now here.now.low.now here.now.high.now here.now.weights.now list result }
{
    let mut size = Size::zero();
    let mut constant: i128 = 0;
    for r in 0..here.weights.len() {
        let share = &shares[r];
        let Some(sum) = plus_share(size, here.weights[r], share) else {
            return Err(r);
        };
        size = sum;
        constant = plus_constant(constant, here.weights[r], share);
    }
    Ok(Sums { size, constant })
}
