// The sums of a list of certificates that make the slopes of its cut, in a table with one entry per state.
ghost use Rattle.std.specs.Prelude.{◌≡◌, ◌≤◌, ◌<◌, ℕ, ℤ, pos, ◌+ℤ◌, ◌-ℤ◌, ◌*ℤ◌, length, sum, zip, All};
ghost use Rattle.base_num.specs.Sums.{total, entry, coefficient};
ghost use Rattle.problem.specs.declared.parts.Row.{Row};
ghost use Rattle.theory.specs.Problem.{S};
ghost use Rattle.theory.specs.CutOf.{scale, beta_sum};
ghost use Rattle.cut_make.specs.Parts.{repeated, rows_sum};
ghost use Rattle.cut_make.specs.Sized.{Sized, unboxed};
ghost use Rattle.cut_make.specs.Tabled.{Tabled};

use crate::node_at::NodeAt;
use crate::reduced_costs::{add_at, add_terms};
use crate::scales::{SHORT_SCALE, scale, total};
use crate::wrapping::wrapping_product;
use problem::{MOST_STATES, Row};
use theory::Certificate;

/// Adds numbers at a factor, each to the sum at its index, modulo 2^128.
fn add_numbers(sums: &mut [i128], factor: i128, numbers: &[i64])
    requires { length numbers.now ≤ length sums.old }
    ensures count { length sums.new ≡ length sums.old }
    ensures value { (f : ℕ → ℤ) → Tabled f sums.old
        → Tabled (λ k. f k +ℤ factor *ℤ entry numbers.now k) sums.new }
{
    for k in 0..numbers.len() {
        add_at(sums, k, factor, i128::from(numbers[k]));
    }
}

/// Adds a factor times a multiplier times its row's terms of the states, modulo 2^128.
fn add_row(sums: &mut [i128], factor: i64, row: &Row, multiplier: i64)
    requires { All (λ t. t.0 < length sums.old) row.now.states }
    ensures count { length sums.new ≡ length sums.old }
    ensures value { (f : ℕ → ℤ) → Tabled f sums.old
        → Tabled (λ k. f k +ℤ factor *ℤ (multiplier *ℤ coefficient row.now.states k)) sums.new }
{
    if multiplier != 0 {
        add_terms(sums, factor, multiplier, row.states.as_slice());
    }
}

/// Adds a factor times the multipliers times their rows' terms of the states, modulo 2^128.
fn add_rows(sums: &mut [i128], factor: i64, rows: &[Row], multipliers: &[i64])
    requires { All (λ (row : Row). All (λ (t : ℕ × ℤ). t.0 < length sums.old) row.states) rows.now }
    ensures count { length sums.new ≡ length sums.old }
    ensures value { (f : ℕ → ℤ) → Tabled f sums.old
        → Tabled (λ k. f k +ℤ factor *ℤ total (λ (q : Row × ℤ). q.1 *ℤ coefficient q.0.states k) (zip rows.now multipliers.now)) sums.new }
{
    for i in 0..rows.len().min(multipliers.len()) {
        add_row(sums, factor, &rows[i], multipliers[i]);
    }
}

/// Subtracts a weight times S times the multipliers of a certificate times their rows' terms of the states, modulo 2^128.
fn take_certificate(sums: &mut [i128], weight: u32, rows: &[Row], certificate: &Certificate)
    requires { All (λ (row : Row). All (λ (t : ℕ × ℤ). t.0 < length sums.old) row.states) rows.now }
    ensures count { length sums.new ≡ length sums.old }
    ensures value { (f : ℕ → ℤ) → Tabled f sums.old
        → Tabled (λ k. f k -ℤ pos weight *ℤ (pos S *ℤ total (λ (q : Row × ℤ). q.1 *ℤ coefficient q.0.states k) (zip rows.now certificate.now.rows))) sums.new }
{
    let factor = -SHORT_SCALE * i64::from(weight);
    add_rows(sums, factor, rows, certificate.rows.as_slice());
}

/// Subtracts these products for the certificate of each realization, with its weight, modulo 2^128.
fn take_certificates(sums: &mut [i128], here: &NodeAt, list: &[Certificate])
    requires sized { Sized here.now.pools.now.lists here.now.node.now here.now.subproblem.now here.now.low.now here.now.weights.now }
    requires list { length list.now ≡ length here.now.weights.now }
    requires table { 50 ≤ length sums.old }
    ensures count { length sums.new ≡ length sums.old }
    ensures value { (f : ℕ → ℤ) → Tabled f sums.old
        → Tabled (λ k. f k -ℤ rows_sum (unboxed here.now.weights.now here.now.node.now here.now.subproblem.now) list.now k) sums.new }
{
    let rows = here.subproblem.rows.as_slice();
    for r in 0..here.weights.len() {
        take_certificate(sums, here.weights[r], rows, &list[r]);
    }
}

/// The total weight times the costs of the states, modulo 2^128; the table has zeros before.
fn add_weighted_costs(sums: &mut [i128], here: &NodeAt)
    requires sized { Sized here.now.pools.now.lists here.now.node.now here.now.subproblem.now here.now.low.now here.now.weights.now }
    requires table { 50 ≤ length sums.old }
    ensures count { length sums.new ≡ length sums.old }
    ensures value { Tabled (λ k. pos 0) sums.old
        → Tabled (λ k. pos (sum here.now.weights.now) *ℤ (scale (unboxed here.now.weights.now here.now.node.now here.now.subproblem.now) *ℤ entry here.now.subproblem.now.state_costs k)) sums.new }
{
    let factor = wrapping_product(i128::from(total(here.weights)), scale(here.node));
    add_numbers(sums, factor, here.subproblem.state_costs.as_slice());
}

/// B_k for each state, modulo 2^128: the sum over the realizations of the weight times B_rk.
pub fn slope_sums(here: &NodeAt, list: &[Certificate]) -> [i128; MOST_STATES]
    requires sized { Sized here.now.pools.now.lists here.now.node.now here.now.subproblem.now here.now.low.now here.now.weights.now }
    requires list { length list.now ≡ length here.now.weights.now }
    ensures count { length result ≡ 50 }
    ensures value { Tabled (beta_sum (unboxed here.now.weights.now here.now.node.now here.now.subproblem.now) list.now) result }
{
    let mut sums: [i128; MOST_STATES] = [0; MOST_STATES];
    add_weighted_costs(&mut sums, here);
    take_certificates(&mut sums, here, list);
    sums
}

/// B_k for each state, modulo 2^128, where all realizations have the same certificate.
pub fn repeated_slope_sums(here: &NodeAt, certificate: &Certificate) -> [i128; MOST_STATES]
    requires sized { Sized here.now.pools.now.lists here.now.node.now here.now.subproblem.now here.now.low.now here.now.weights.now }
    ensures count { length result ≡ 50 }
    ensures value { Tabled (beta_sum (unboxed here.now.weights.now here.now.node.now here.now.subproblem.now) (repeated certificate.now here.now.weights.now)) result }
{
    let mut sums: [i128; MOST_STATES] = [0; MOST_STATES];
    add_weighted_costs(&mut sums, here);
    let weight = total(here.weights) as u32;
    take_certificate(
        &mut sums,
        weight,
        here.subproblem.rows.as_slice(),
        certificate,
    );
    sums
}
