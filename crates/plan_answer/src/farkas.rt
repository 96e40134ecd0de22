// Refutations: multipliers of a node's rows that show that no decisions exist there.
ghost use Rattle.std.specs.Prelude.{◌≡◌, ◌+◌, ◌*◌, ◌^◌, ◌<◌, ◌&&◌, ℕ, ℤ, pos, ◌+ℤ◌, ◌-ℤ◌, ◌*ℤ◌, nat_abs, nat_lt, int_lt, List, length, map, zip};
ghost use Rattle.std.specs.Int.{int_min};
ghost use Rattle.std.specs.List.{list_all};
ghost use Rattle.base_num.specs.Sums.{sum_to, entry, at_terms, coefficient};
ghost use Rattle.problem.specs.declared.parts.Row.{Row};
ghost use Rattle.problem.specs.declared.parts.Decision.{Decision};
ghost use Rattle.problem.specs.declared.parts.Node as nodes;
ghost use Rattle.theory.specs.Problem.{S, node_at};
ghost use Rattle.theory.specs.View.{node_of, problem_of};
ghost use Rattle.theory.specs.CutOf.{side};
ghost use Rattle.cut_make.specs.Acceptance.{is_sign};
ghost use Rattle.cut_make.specs.SizeByTerms.{count_by, span, terms_by, over_values};
ghost use Rattle.plan_answer.specs.Farkas.{right_side, right_side_size, farkas_reduced_cost, farkas_coefficient_size, farkas_reduced_size, farkas_value, farkas_size, refutes_of};
ghost use Rattle.plan_answer.specs.SizedSums.{Sums};

use crate::sized_sum::SizedSum;
use crate::terms::{RowPart, TermPlace, TermState, TermValues, rows_sum, terms_sum};
use cut_make::{is_sign, row_side};
use problem::{Decision, Problem, Row, Subproblem};
use theory::SCALE;

/// S, the scale of states and multipliers.
#[tactic(auto, unfolding(theory::specs::Problem::S))]
fn scale() -> i128
    ensures { result ≡ pos S }
{
    i128::from(SCALE)
}

/// Tells whether each multiplier has the sign that its row allows.
fn are_signs(rows: &[Row], multipliers: &[i64]) -> bool
    requires { length multipliers.now ≡ length rows.now }
    ensures { result ≡ list_all (λ (q : Row × ℤ). is_sign q.0 q.1) (zip rows.now multipliers.now) }
{
    for i in 0..rows.len() {
        if !is_sign(&rows[i], multipliers[i]) {
            return false;
        }
    }
    true
}

/// A row's side less its random terms.
fn level(row: &Row, multiplier: i64, values: &[i64]) -> Option<SizedSum>
    ensures { Sums result (side row.now multiplier -ℤ at_terms row.now.randoms (entry values.now))
        (nat_abs (side row.now multiplier) + terms_by (over_values values.now) row.now.randoms) }
{
    let side = SizedSum::zero().plus_product(1, i128::from(row_side(row, multiplier)))?;
    side.minus(terms_sum(row.randoms.as_slice(), &TermValues { numbers: values }))
}

/// The rows' right-hand sides once the values and the state are known.
#[derive(Clone, Copy)]
struct RightSides<'a> {
    values: &'a [i64],
    state: &'a [i128],
}

impl RowPart for RightSides<'_> {
    ghost value = { λ r. right_side r.values.now r.state.now };

    ghost size = { λ r row y. right_side_size r.values.now r.state.now (row, y) };

    fn of(&self, row: &Row, multiplier: i64) -> Option<SizedSum> {
        let level = level(row, multiplier, self.values);
        let side = SizedSum::zero().plus_multiple(scale(), level)?;
        side.minus(terms_sum(
            row.states.as_slice(),
            &TermState {
                numbers: self.state,
            },
        ))
    }
}

/// The rows' factors of one decision.
#[derive(Clone, Copy)]
struct FactorsOfDecision {
    decision: usize,
}

impl RowPart for FactorsOfDecision {
    ghost value = { λ c row y. coefficient row.decisions c.decision };

    ghost size = { λ c row y. farkas_coefficient_size row.decisions c.decision };

    fn of(&self, row: &Row, _multiplier: i64) -> Option<SizedSum> {
        terms_sum(
            row.decisions.as_slice(),
            &TermPlace {
                index: self.decision,
            },
        )
    }
}

/// Adds the least product of a decision's reduced cost and a value in its box to a sum.
fn plus_box(
    sum: SizedSum,
    rows: &[Row],
    multipliers: &[i64],
    index: usize,
    decision: &Decision,
) -> Option<SizedSum>
    ensures { let d = farkas_reduced_cost rows.now multipliers.now index in
        Sums result (sum.value +ℤ int_min (d *ℤ decision.now.low) (d *ℤ decision.now.high))
        (sum.size.total + span decision.now.low decision.now.high * farkas_reduced_size rows.now multipliers.now index) }
{
    let column = rows_sum(rows, multipliers, &FactorsOfDecision { decision: index });
    sum.plus_least(column, decision.low, decision.high)
}

/// The sum of these over all decisions.
fn boxes_sum(decisions: &[Decision], rows: &[Row], multipliers: &[i64]) -> Option<SizedSum>
    ensures { let lows = map (λ (d : Decision). d.low) decisions.now in
        let highs = map (λ (d : Decision). d.high) decisions.now in
        Sums result
        (sum_to (length decisions.now) (λ j. int_min (farkas_reduced_cost rows.now multipliers.now j *ℤ entry lows j) (farkas_reduced_cost rows.now multipliers.now j *ℤ entry highs j)))
        (count_by (length decisions.now) (λ j. span (entry lows j) (entry highs j) * farkas_reduced_size rows.now multipliers.now j)) }
{
    let mut sum = SizedSum::zero();
    for j in 0..decisions.len() {
        sum = plus_box(sum, rows, multipliers, j, &decisions[j])?;
    }
    Some(sum)
}

/// The refuting value with its size.
fn refuting_sum(
    sub: &Subproblem,
    values: &[i64],
    state: &[i128],
    multipliers: &[i64],
) -> Option<SizedSum>
    ensures { (n : nodes.Node) (low high : List ℤ)
        → Sums result (farkas_value (node_of n sub.now low high) values.now state.now multipliers.now)
        (farkas_size (node_of n sub.now low high) values.now state.now multipliers.now) }
{
    let rows = sub.rows.as_slice();
    let boxes = boxes_sum(sub.decisions.as_slice(), rows, multipliers);
    let sides = rows_sum(rows, multipliers, &RightSides { values, state })?;
    sides.plus_multiple(scale(), boxes)
}

/// The sum is in range and positive.
fn is_positive(sum: Option<SizedSum>) -> bool
    ensures { (value : ℤ) (size : ℕ) → Sums sum value size
        → result ≡ nat_lt size (2 ^ 127) && int_lt (pos 0) value }
{
    match sum {
        Some(sum) => sum.value > 0,
        None => false,
    }
}

/// Multipliers refute a subproblem.
fn is_refuted(sub: &Subproblem, values: &[i64], state: &[i128], multipliers: &[i64]) -> bool
    ensures { (n : nodes.Node) (low high : List ℤ)
        → result ≡ refutes_of (node_of n sub.now low high) values.now state.now multipliers.now }
{
    let rows = sub.rows.as_slice();
    if multipliers.len() != rows.len() {
        return false;
    }
    if !are_signs(rows, multipliers) {
        return false;
    }
    is_positive(refuting_sum(sub, values, state, multipliers))
}

/// Tells whether multipliers of a node's rows, at any scale, refute it at values of its random variables and an incoming state
/// at scale 2^24. Where they do, no decisions exist there, in any fraction of a unit.
///
/// It is false where there is not one multiplier per row, one has a sign that its row does not allow, the refuting value
/// is not positive, or its size exceeds 2^127 - 1.
pub fn refutes(problem: &Problem, node: u32, values: &[i64], state: &[i128], rows: &[i64]) -> bool
    requires { node < length problem.now.parts.nodes }
    ensures { result ≡ refutes_of (node_at (problem_of problem.now) node) values.now state.now rows.now }
{
    is_refuted(problem.sub(node), values, state, rows)
}
