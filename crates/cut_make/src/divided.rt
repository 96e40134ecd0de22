// The cut of a list of certificates over the parts of a node: the sums over their divisor, rounded down.
ghost use Rattle.std.specs.Prelude.{◌≡◌, ◌-◌, ◌^◌, ◌<◌, ◌≤◌, ℕ, ℤ, pos, ◌+ℤ◌, ◌-ℤ◌, ◌*ℤ◌, ◌≤ℤ◌, List, length, nat_abs, slice_set};
ghost use Rattle.base_num.specs.Sums.{sum_to, entry, floor_over, table};
ghost use Rattle.theory.specs.declared.cut.Certificate.{Certificate};
ghost use Rattle.theory.specs.Problem.{with_weights};
ghost use Rattle.theory.specs.View.{node_of};
ghost use Rattle.theory.specs.CutOf.{alpha_sum, beta_sum, divisor, slope, remainder, cut_of};
ghost use Rattle.cut_make.specs.Congruent.{Congruent};
ghost use Rattle.cut_make.specs.Parts.{Cuttable, slope_size};
ghost use Rattle.cut_make.specs.Sized.{Sized, unboxed};
ghost use Rattle.cut_make.specs.Tabled.{Tabled};

use crate::node_at::NodeAt;
use crate::scales::divisor;
use crate::slopes::slope_sums;
use crate::sums::constant_sum;
use crate::wrapping::{wrapping_add, wrapping_add_product};
use base_num::{List, floor_div};
use cut_pool::Cut;
use theory::Certificate;

/// Gives the remainder of a division that is rounded down.
fn left_over(sum: i128, under: i128) -> i128
    requires { pos 1 ≤ℤ under }
    ensures { result ≡ sum -ℤ under *ℤ floor_over sum (nat_abs under) }
{
    sum.rem_euclid(under)
}

/// Writes beta_k of B_k. The answer is r_k, the remainder of the division.
fn write_slope(sum: i128, under: i128, slopes: &mut List<i128>, state: usize) -> i128
    requires some { pos 1 ≤ℤ under }
    requires there { state < length slopes.old }
    ensures slope { slopes.new ≡ slice_set slopes.old state (floor_over sum (nat_abs under)) }
    ensures tail { result ≡ sum -ℤ under *ℤ floor_over sum (nat_abs under) }
{
    slopes.set(state, floor_div(sum, under));
    left_over(sum, under)
}

/// Writes beta from B modulo 2^128. The answer is the sum of r_k times the lower end of the state's box, modulo 2^128.
fn write_slopes(here: &NodeAt, sums: &[i128], under: i128, slopes: &mut List<i128>) -> i128
    requires under { under ≡ pos (divisor (unboxed here.now.weights.now here.now.node.now here.now.subproblem.now)) }
    requires some { pos 1 ≤ℤ under }
    requires states { length here.now.low.now ≤ length sums.now }
    requires there { length slopes.old ≡ length here.now.low.now }
    ensures slopes { (list : List Certificate) → Tabled (beta_sum (unboxed here.now.weights.now here.now.node.now here.now.subproblem.now) list) sums.now
        → ((k : ℕ) → k < length here.now.low.now → slope_size (unboxed here.now.weights.now here.now.node.now here.now.subproblem.now) list k ≤ℤ pos (2 ^ 127 - 1))
        → slopes.new ≡ table (length here.now.low.now) (slope (unboxed here.now.weights.now here.now.node.now here.now.subproblem.now) list) }
    ensures tail { (list : List Certificate) → Tabled (beta_sum (unboxed here.now.weights.now here.now.node.now here.now.subproblem.now) list) sums.now
        → ((k : ℕ) → k < length here.now.low.now → slope_size (unboxed here.now.weights.now here.now.node.now here.now.subproblem.now) list k ≤ℤ pos (2 ^ 127 - 1))
        → Congruent result (sum_to (length here.now.low.now) (λ k. remainder (unboxed here.now.weights.now here.now.node.now here.now.subproblem.now) list k *ℤ entry here.now.low.now k)) }
{
    let mut sum: i128 = 0;
    for k in 0..here.low.len() {
        let tail = write_slope(sums[k], under, slopes, k);
        sum = wrapping_add_product(sum, tail, i128::from(here.low[k]));
    }
    sum
}

/// Writes the cut of a list of certificates from A and B, modulo 2^128, where its sums are in range.
pub fn write_cut_of(here: &NodeAt, constant: i128, sums: &[i128], cut: &mut Cut)
    requires sized { Sized here.now.pools.now.lists here.now.node.now here.now.subproblem.now here.now.low.now here.now.weights.now }
    requires slopes { length cut.old.beta ≡ length here.now.low.now }
    requires table { length sums.now ≡ 50 }
    ensures { (list : List Certificate) (high : List ℤ) → Cuttable here.now.pools.now.lists here.now.node.now here.now.subproblem.now here.now.low.now here.now.weights.now list
        → Tabled (beta_sum (unboxed here.now.weights.now here.now.node.now here.now.subproblem.now) list) sums.now → Congruent constant (alpha_sum here.now.pools.now.lists (unboxed here.now.weights.now here.now.node.now here.now.subproblem.now) list)
        → cut.new ≡ cut_of here.now.pools.now.lists (with_weights here.now.weights.now (node_of here.now.node.now here.now.subproblem.now here.now.low.now high)) list }
{
    let under = divisor(here.node, here.weights);
    let tail = write_slopes(here, sums, under, &mut cut.beta);
    let sum = wrapping_add(constant, tail);
    cut.alpha = floor_div(sum, under);
}

/// Writes the cut of a list of certificates, where its sums are in range.
pub fn write_cut(here: &NodeAt, list: &[Certificate], cut: &mut Cut)
    requires made { Cuttable here.now.pools.now.lists here.now.node.now here.now.subproblem.now here.now.low.now here.now.weights.now list.now }
    requires slopes { length cut.old.beta ≡ length here.now.low.now }
    ensures { (high : List ℤ)
        → cut.new ≡ cut_of here.now.pools.now.lists (with_weights here.now.weights.now (node_of here.now.node.now here.now.subproblem.now here.now.low.now high)) list.now }
{
    let slopes = slope_sums(here, list);
    let constant = constant_sum(here, list);
    write_cut_of(here, constant, &slopes, cut);
}
