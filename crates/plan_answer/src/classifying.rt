// The classification of an answer, for a node at values and an incoming state.
ghost use Rattle.std.specs.Prelude.{◌≡◌, ◌<◌, ◌≤◌, ◌^◌, length, IfOk};
ghost use Rattle.theory.specs.Problem.{node_at};
ghost use Rattle.theory.specs.View.{problem_of};
ghost use Rattle.plan_answer.specs.Classifying.{ray_rows, first_infeasible, classify_of};

use crate::farkas::refutes;
use crate::settling::rows_over;
use base_num::{List, Memory};
use lp_program::{Answer, Duals, Kind};
use problem::Problem;
use std::alloc::Global;

/// The classification of an answer, for a node at values and an incoming state.
#[derive(Drop)]
pub enum Classified {
    /// A point was found, and nothing is shown.
    Found,
    /// No point was found, and nothing is shown.
    Unanswered,
    /// No decisions exist there: these multipliers of the node's rows, one per row at any common scale, refute it.
    Infeasibility(List<i64>),
}

/// A node without decisions at its values and its incoming state, with the multipliers that show it.
#[derive(Drop)]
pub struct Infeasibility {
    /// The iteration of training, or the number of the scenario.
    pub run: u32,
    /// The node's number.
    pub node: u32,
    /// One value per random variable.
    pub values: List<i64>,
    /// The incoming state at scale 2^24, one entry per state.
    pub state: List<i128>,
    /// One multiplier per row, all at one scale.
    pub rows: List<i64>,
}

impl Infeasibility {
    /// A node without decisions at copies of these values and this state, as these rows show. [`Memory`] where memory was
    /// refused.
    pub fn new(
        alloc: Global,
        run: u32,
        node: u32,
        values: &[i64],
        state: &[i128],
        rows: List<i64>,
    ) -> Result<Infeasibility, Memory>
        ensures { IfOk result (λ infeasible. infeasible ≡ record { run = run; node = node; values = values.now; state = state.now; rows = rows }) }
    {
        Ok(Infeasibility {
            run,
            node,
            values: List::from_vec(Vec::from_slice(alloc, values)?),
            state: List::from_vec(Vec::from_slice(alloc, state)?),
            rows,
        })
    }
}

/// 2^digits.
fn power(digits: u32) -> u64
    requires { digits ≤ 56 }
    ensures { result ≡ 2 ^ digits }
{
    1 << digits
}

/// The multipliers that a ray gives a node's rows, without so many of its last binary digits.
fn ray_rows(
    alloc: Global,
    problem: &Problem,
    node: u32,
    duals: &Duals,
    digits: u32,
) -> Result<List<i64>, Memory>
    requires node { node < length problem.now.parts.nodes }
    requires digits { digits ≤ 56 }
    ensures { IfOk result (λ found. found ≡ ray_rows (node_at (problem_of problem.now) node) duals.now digits) }
{
    rows_over(
        List::new(alloc),
        problem.sub(node).rows.as_slice(),
        duals,
        power(digits),
    )
}

/// The multipliers of a ray, without as few of its last digits as let them refute.
fn classify_ray(
    alloc: Global,
    problem: &Problem,
    node: u32,
    values: &[i64],
    state: &[i128],
    duals: &Duals,
) -> Result<Classified, Memory>
    requires { node < length problem.now.parts.nodes }
    ensures { IfOk result (λ found. found ≡ first_infeasible (node_at (problem_of problem.now) node) values.now state.now duals.now 0 15) }
{
    for tried in 0..15 {
        let rows = ray_rows(alloc, problem, node, duals, 4 * tried)?;
        if refutes(problem, node, values, state, rows.as_slice()) {
            return Ok(Classified::Infeasibility(rows));
        }
    }
    Ok(Classified::Unanswered)
}

/// Classifies an answer, for a node at values of its random variables and an incoming state at scale 2^24: Found for a found
/// point, Infeasibility exactly where the answer is a ray whose duals of rows refute over 2^0, 2^4, .. or 2^56, with the first of
/// these that do, and else Unanswered. [`Memory`] where memory was refused.
#[tactic(auto, unfolding(crate::specs::Classifying::classify_of))]
pub fn classify(
    alloc: Global,
    problem: &Problem,
    node: u32,
    values: &[i64],
    state: &[i128],
    answer: &Answer,
) -> Result<Classified, Memory>
    requires { node < length problem.now.parts.nodes }
    ensures { IfOk result (λ found. found ≡ classify_of (node_at (problem_of problem.now) node) values.now state.now answer.now) }
{
    match answer.kind {
        Kind::Found => Ok(Classified::Found),
        Kind::Ray => classify_ray(alloc, problem, node, values, state, &answer.duals),
        Kind::Stuck => Ok(Classified::Unanswered),
    }
}
