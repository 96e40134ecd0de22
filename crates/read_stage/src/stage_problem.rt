// One stage problem, of its parts.
ghost use Rattle.std.specs.Prelude.{◌≡◌, ◌==◌, ◌<◌, ◌≤◌, length, position, IfOk, IfSome};
ghost use Rattle.serde_json.specs.View.{view, items_view};
ghost use Rattle.read_json.specs.Steps.{Gives};
ghost use Rattle.read_stage.specs.Shown.{shown};
ghost use Rattle.read_stage.specs.Rows.{picked_coefficients};
ghost use Rattle.read_stage.specs.Boxes.{given_low_bounds, given_high_bounds};
ghost use Rattle.read_stage.specs.Subproblem.{variables_at, decision_number_of, outs_of, few_rows_at, subproblem_from_parts, filled_at, read_subproblem_at};

use crate::boxes::{boxes, highs, lows};
use crate::constraint::{Constraints, read_constraints};
use crate::decisions::decisions;
use crate::function::Function;
use crate::objective::objective;
use crate::randoms::randoms;
use crate::role::Uses;
use crate::rows::picked;
use crate::sides::RowSides;
use crate::stage_parts::{StageParts, read_stage_parts};
use crate::states::states;
use crate::variables::{Variables, variable_names};
use base_num::{List, Memory};
use problem::{Decision, MOST_ROWS, Part, Place, Refusal, RefusalKind, State, Subproblem};
use read_json::{ReadRefusal, few, short};
use serde_json::{Map, Value};
use std::alloc::Global;

#[tactic(auto, unfolding(crate::specs::Subproblem::variables_at))]
fn read_variables(
    alloc: Global,
    all: &[State],
    p: u32,
    stage: &StageParts<'_>,
) -> Result<Variables, ReadRefusal>
    ensures { Gives (λ v. v) result (variables_at all.now p (shown stage.now)) }
{
    let names = variable_names(alloc, p, stage.variables)?;
    let mut uses = Uses::none(alloc, names.len())?;
    states(all, &names, p, &mut uses, stage.states)?;
    randoms(alloc, &names, p, &mut uses, stage.randoms)?;
    let decisions = decisions(alloc, p, uses.roles.as_slice())?;
    Ok(Variables {
        names,
        uses,
        decisions,
    })
}

fn place_of(variable: usize, decisions: &[usize]) -> Option<usize>
    ensures place { result ≡ position (λ w. w == variable) decisions.now }
    ensures within { IfSome result (λ i. i < length decisions.now) }
{
    decisions.iter().position(|decision| *decision == variable)
}

// The number of a decision, by its number among the variables.
#[tactic(auto, unfolding(crate::specs::Subproblem::decision_number_of))]
fn number_of(variable: usize, decisions: &[usize]) -> usize
    ensures number { result ≡ decision_number_of decisions.now variable }
    ensures within { result ≤ length decisions.now }
{
    place_of(variable, decisions).unwrap_or(decisions.len())
}

#[tactic(auto, unfolding(crate::specs::Subproblem::outs_of))]
fn outs(alloc: Global, decisions: &[usize], outgoing: &[usize]) -> Result<List<u32>, Memory>
    ensures { IfOk result (λ l. l ≡ outs_of decisions.now outgoing.now) }
{
    few(decisions.len())?;
    let mut found = List::new(alloc);
    for variable in outgoing {
        found.push(number_of(*variable, decisions) as u32)?;
    }
    Ok(found)
}

#[tactic(auto, unfolding(crate::specs::Subproblem::few_rows_at))]
fn few_rows(found: Constraints, p: u32) -> Result<Constraints, Refusal>
    ensures { result ≡ few_rows_at p found }
{
    if found.rows.len() > MOST_ROWS {
        return Err(RefusalKind::TooLarge.at(Place::new(Part::Subproblem, p, 0, 0)));
    }
    Ok(found)
}

// The costs and bounds of a stage problem's states and random variables, in lists.
#[derive(Drop)]
struct Lists {
    // The decision that is each state's outgoing variable.
    outs: List<u32>,
    // The cost of a unit of each incoming state.
    state_costs: List<i64>,
    // The cost of a unit of each random variable.
    random_costs: List<i64>,
    // The given lower bound of each incoming state.
    low: List<Option<i64>>,
    // The given upper bound of each incoming state.
    high: List<Option<i64>>,
}

// Gives the cost of a unit of each incoming state and of each random variable.
fn given_costs(
    alloc: Global,
    uses: &Uses,
    coefficients: &[i64],
) -> Result<(List<i64>, List<i64>), Memory>
    ensures states { IfOk result (λ made. made.0 ≡ picked_coefficients uses.now.incoming coefficients.now) }
    ensures randoms { IfOk result (λ made. made.1 ≡ picked_coefficients uses.now.randoms coefficients.now) }
{
    let states = picked(alloc, uses.incoming.as_slice(), coefficients)?;
    Ok((
        states,
        picked(alloc, uses.randoms.as_slice(), coefficients)?,
    ))
}

// The given lower and upper bounds of some variables, one entry each per variable that is given.
fn given_bounds(
    alloc: Global,
    bounds: &[RowSides],
    variables: &[usize],
) -> Result<(List<Option<i64>>, List<Option<i64>>), Memory>
    ensures low { IfOk result (λ made. made.0 ≡ given_low_bounds bounds.now variables.now) }
    ensures high { IfOk result (λ made. made.1 ≡ given_high_bounds bounds.now variables.now) }
{
    let low = lows(alloc, bounds, variables)?;
    Ok((low, highs(alloc, bounds, variables)?))
}

fn listed(
    alloc: Global,
    variables: &Variables,
    coefficients: &[i64],
    bounds: &[RowSides],
) -> Result<Lists, Memory>
    ensures outs { IfOk result (λ made. made.outs ≡ outs_of variables.now.decisions variables.now.uses.outgoing) }
    ensures state_costs { IfOk result (λ made. made.state_costs ≡ picked_coefficients variables.now.uses.incoming coefficients.now) }
    ensures random_costs { IfOk result (λ made. made.random_costs ≡ picked_coefficients variables.now.uses.randoms coefficients.now) }
    ensures low { IfOk result (λ made. made.low ≡ given_low_bounds bounds.now variables.now.uses.incoming) }
    ensures high { IfOk result (λ made. made.high ≡ given_high_bounds bounds.now variables.now.uses.incoming) }
{
    let uses = &variables.uses;
    let (state_costs, random_costs) = given_costs(alloc, uses, coefficients)?;
    let (low, high) = given_bounds(alloc, bounds, uses.incoming.as_slice())?;
    let outs = outs(
        alloc,
        variables.decisions.as_slice(),
        uses.outgoing.as_slice(),
    )?;
    Ok(Lists {
        outs,
        state_costs,
        random_costs,
        low,
        high,
    })
}

#[tactic(auto, unfolding(crate::specs::Subproblem::subproblem_from_parts))]
fn assembled(
    alloc: Global,
    variables: Variables,
    costs: &Function,
    found: Constraints,
    decisions: List<Decision>,
) -> Result<Subproblem, Memory>
    ensures { IfOk result (λ s. s ≡ subproblem_from_parts variables costs.now found decisions) }
{
    let coefficients = costs.coefficients.as_slice();
    let lists = listed(alloc, &variables, coefficients, found.bounds.as_slice())?;
    let uses = variables.uses;
    Ok(Subproblem {
        decisions,
        outs: lists.outs,
        constant: costs.constant,
        state_costs: lists.state_costs,
        random_costs: lists.random_costs,
        low: lists.low,
        high: lists.high,
        rows: found.rows,
        randoms: uses.names,
    })
}

#[tactic(auto, unfolding(crate::specs::Subproblem::filled_at))]
fn filled(
    alloc: Global,
    variables: Variables,
    p: u32,
    costs: &Function,
    items: &[Value],
) -> Result<Subproblem, ReadRefusal>
    ensures { Gives (λ s. s) result (filled_at variables p costs.now (items_view items.now)) }
{
    let all = read_constraints(alloc, &variables, p, items)?;
    let found = few_rows(all, p)?;
    let bounds = found.bounds.as_slice();
    let decisions = boxes(alloc, &variables, p, bounds, costs.coefficients.as_slice())?;
    Ok(assembled(alloc, variables, costs, found, decisions)?)
}

/// Subproblem p of a problem file, of this name: its decisions, rows and costs, or the first refusal.
///
/// `states` are the root's states, in byte order of their names. Numbers are whole, in the units of the file.
#[tactic(auto, unfolding(crate::specs::Subproblem::read_subproblem_at))]
pub fn subproblem(
    alloc: Global,
    states: &[State],
    p: u32,
    name: &str,
    value: &Value,
) -> Result<Subproblem, ReadRefusal>
    ensures { Gives (λ s. s) result (read_subproblem_at states.now p name.now (view value.now)) }
{
    let place = Place::new(Part::Subproblem, p, 0, 0);
    short(name, place)?;
    let none = Map::new(alloc);
    let stage = read_stage_parts(value, &none, place)?;
    let variables = read_variables(alloc, states, p, &stage)?;
    let costs = objective(alloc, &variables.names, p, stage.objective)?;
    filled(alloc, variables, p, &costs, stage.constraints)
}
