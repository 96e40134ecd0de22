// The cut of a certificate that all realizations of a node have.
ghost use Rattle.std.specs.Prelude.{◌≡◌, ◌<◌, ◌≤◌, ℕ, ℤ, List, [], length, All};
ghost use Rattle.theory.specs.Problem.{with_weights};
ghost use Rattle.theory.specs.View.{node_of};
ghost use Rattle.theory.specs.CutOf.{scale, alpha_sum, cut_of};
ghost use Rattle.cut_make.specs.Congruent.{Congruent};
ghost use Rattle.cut_make.specs.Parts.{Limited, PairsThere, ReducedFit, Cuttable, repeated};

use crate::divided::write_cut_of;
use crate::node_at::NodeAt;
use crate::scales::scale;
use crate::slopes::repeated_slope_sums;
use crate::sums::{constant_over, fixed_constant};
use crate::wrapping::wrapping_add_product;
use cut_pool::Cut;
use theory::Certificate;

/// A: the sum over the realizations of the weight times A_r, modulo 2^128.
fn constant_sum(here: &NodeAt, certificate: &Certificate) -> i128
    requires limits { Limited here.now.node.now here.now.subproblem.now }
    requires count { length here.now.weights.now ≡ length here.now.node.now.weights }
    requires known { All (λ m. m < length here.now.pools.now.lists) here.now.node.now.successors }
    requires there { PairsThere here.now.pools.now.lists here.now.node.now.successors certificate.now.cuts }
    requires small { ReducedFit (scale (node_of here.now.node.now here.now.subproblem.now [] [])) here.now.pools.now.lists here.now.node.now here.now.subproblem.now certificate.now }
    ensures { (low high : List ℤ)
        → Congruent result (alpha_sum here.now.pools.now.lists (with_weights here.now.weights.now (node_of here.now.node.now here.now.subproblem.now low high)) (repeated certificate.now here.now.weights.now)) }
{
    let scale = scale(here.node);
    let fixed = fixed_constant(scale, here, certificate);
    let mut sum: i128 = 0;
    for r in 0..here.weights.len() {
        let values = here.node.values.as_slice()[r].as_slice();
        let constant = constant_over(fixed, scale, here, values, certificate);
        sum = wrapping_add_product(sum, i128::from(here.weights[r]), constant);
    }
    sum
}

/// Writes the cut of a certificate that all realizations have, where its sums are in range. Its pairs are read once.
pub fn write_repeated_cut(here: &NodeAt, certificate: &Certificate, cut: &mut Cut)
    requires made { Cuttable here.now.pools.now.lists here.now.node.now here.now.subproblem.now here.now.low.now here.now.weights.now (repeated certificate.now here.now.weights.now) }
    requires slopes { length cut.old.beta ≡ length here.now.low.now }
    ensures { (high : List ℤ)
        → cut.new ≡ cut_of here.now.pools.now.lists (with_weights here.now.weights.now (node_of here.now.node.now here.now.subproblem.now here.now.low.now high)) (repeated certificate.now here.now.weights.now) }
{
    let slopes = repeated_slope_sums(here, certificate);
    let constant = constant_sum(here, certificate);
    write_cut_of(here, constant, &slopes, cut);
}
