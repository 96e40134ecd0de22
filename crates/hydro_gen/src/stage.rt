// The subproblem of each stage.
ghost use Rattle.std.specs.Prelude.{◌≡◌, ◌+◌, ◌*◌, ◌<◌, ◌≤◌, ◌++◌, map, IfOk, OnOk};
ghost use Rattle.std.specs.List.{flat_map};
ghost use Rattle.serde_json.specs.View.{view, members_view};
ghost use Rattle.base_graph.specs.Paths.{numbers};
ghost use Rattle.hydro_gen.specs.Stage.{reservoir_variables, generated_variables, from_above, balance_terms, power_terms, reservoir_bounds, balance, generated_constraints, generated_objective, generated_state, generated_states, generated_random_variables, generated_program, generated_subproblem};

use crate::names::reservoir_name;
use hydro_form::{least_sum, push_bound, push_term, push_variable, row, state_between, text_of};
use serde_json::{Map, Value};
use std::alloc::{AllocError, Global};

// The variables of one more reservoir.
#[tactic(auto, unfolding(crate::specs::Stage::reservoir_variables))]
fn push_variables_of(alloc: Global, list: &mut Vec<Value>, reservoir: u32) -> Result<(), AllocError>
    requires { reservoir < 10 }
    ensures { OnOk result (map view list.new.items
        ≡ map view list.old.items ++ reservoir_variables reservoir) }
{
    push_variable(alloc, list, text_of(&reservoir_name(b'i', reservoir)))?;
    push_variable(alloc, list, text_of(&reservoir_name(b'w', reservoir)))?;
    push_variable(alloc, list, text_of(&reservoir_name(b'o', reservoir)))?;
    push_variable(alloc, list, text_of(&reservoir_name(b'q', reservoir)))?;
    push_variable(alloc, list, text_of(&reservoir_name(b'z', reservoir)))
}

#[tactic(auto, using(hydro_form::proofs::Counted::flat_more), unfolding(crate::specs::Stage::generated_variables))]
fn variables(alloc: Global, reservoirs: u32) -> Result<Vec<Value>, AllocError>
    requires { reservoirs ≤ 10 }
    ensures { IfOk result (λ list. map view list.items ≡ generated_variables reservoirs) }
{
    let mut list = Vec::new(alloc);
    for reservoir in 0..reservoirs {
        push_variables_of(alloc, &mut list, reservoir)?;
    }
    push_variable(alloc, &mut list, "g")?;
    push_variable(alloc, &mut list, "h")?;
    push_variable(alloc, &mut list, "k")?;
    Ok(list)
}

// Appends the water that the reservoir above lets down.
#[tactic(auto, unfolding(crate::specs::Stage::from_above))]
fn push_from_above(alloc: Global, list: &mut Vec<Value>, reservoir: u32) -> Result<(), AllocError>
    requires { reservoir < 10 }
    ensures { OnOk result (map view list.new.items
        ≡ map view list.old.items ++ from_above reservoir) }
{
    if reservoir > 0 {
        let above = reservoir - 1;
        push_term(alloc, list, -1, text_of(&reservoir_name(b'q', above)))?;
        push_term(alloc, list, -1, text_of(&reservoir_name(b'z', above)))?;
    }
    Ok(())
}

#[tactic(auto, unfolding(crate::specs::Stage::balance_terms))]
fn balance_terms(alloc: Global, reservoir: u32) -> Result<Vec<Value>, AllocError>
    requires { reservoir < 10 }
    ensures { IfOk result (λ list. map view list.items ≡ balance_terms reservoir) }
{
    let mut list = Vec::new(alloc);
    push_term(
        alloc,
        &mut list,
        1,
        text_of(&reservoir_name(b'o', reservoir)),
    )?;
    push_term(
        alloc,
        &mut list,
        1,
        text_of(&reservoir_name(b'q', reservoir)),
    )?;
    push_term(
        alloc,
        &mut list,
        1,
        text_of(&reservoir_name(b'z', reservoir)),
    )?;
    push_term(
        alloc,
        &mut list,
        -1,
        text_of(&reservoir_name(b'i', reservoir)),
    )?;
    push_term(
        alloc,
        &mut list,
        -1,
        text_of(&reservoir_name(b'w', reservoir)),
    )?;
    push_from_above(alloc, &mut list, reservoir)?;
    Ok(list)
}

#[tactic(auto, using(hydro_form::proofs::Counted::map_more), unfolding(crate::specs::Stage::power_terms))]
fn power_terms(alloc: Global, reservoirs: u32) -> Result<Vec<Value>, AllocError>
    requires { reservoirs ≤ 10 }
    ensures { IfOk result (λ list. map view list.items ≡ power_terms reservoirs) }
{
    let mut list = Vec::new(alloc);
    for reservoir in 0..reservoirs {
        push_term(
            alloc,
            &mut list,
            1,
            text_of(&reservoir_name(b'q', reservoir)),
        )?;
    }
    push_term(alloc, &mut list, 1, "g")?;
    push_term(alloc, &mut list, 1, "h")?;
    push_term(alloc, &mut list, 1, "k")?;
    Ok(list)
}

#[tactic(auto, unfolding(crate::specs::Stage::generated_objective))]
fn objective(alloc: Global) -> Result<Value, AllocError>
    ensures { IfOk result (λ v. view v ≡ generated_objective) }
{
    let mut list = Vec::new(alloc);
    push_term(alloc, &mut list, 5, "g")?;
    push_term(alloc, &mut list, 20, "h")?;
    push_term(alloc, &mut list, 200, "k")?;
    least_sum(alloc, list)
}

// The balances of all reservoirs.
#[tactic(auto, using(hydro_form::proofs::Counted::map_more))]
fn balances(alloc: Global, reservoirs: u32) -> Result<Vec<Value>, AllocError>
    requires { reservoirs ≤ 10 }
    ensures { IfOk result (λ list. map view list.items ≡ map balance (numbers reservoirs)) }
{
    let mut list = Vec::new(alloc);
    for reservoir in 0..reservoirs {
        let terms = balance_terms(alloc, reservoir)?;
        list.push(row(alloc, 0, terms)?)?;
    }
    Ok(list)
}

// The bounds of one more reservoir.
#[tactic(auto, unfolding(crate::specs::Stage::reservoir_bounds))]
fn push_bounds_of(alloc: Global, list: &mut Vec<Value>, reservoir: u32) -> Result<(), AllocError>
    requires { reservoir < 10 }
    ensures { OnOk result (map view list.new.items
        ≡ map view list.old.items ++ reservoir_bounds reservoir) }
{
    push_bound(
        alloc,
        list,
        text_of(&reservoir_name(b'i', reservoir)),
        0,
        100,
    )?;
    push_bound(
        alloc,
        list,
        text_of(&reservoir_name(b'o', reservoir)),
        0,
        100,
    )?;
    push_bound(
        alloc,
        list,
        text_of(&reservoir_name(b'q', reservoir)),
        0,
        30,
    )?;
    push_bound(
        alloc,
        list,
        text_of(&reservoir_name(b'z', reservoir)),
        0,
        10000,
    )
}

// The bounds of all reservoirs.
#[tactic(auto, using(hydro_form::proofs::Counted::flat_more))]
fn push_bounds(alloc: Global, list: &mut Vec<Value>, reservoirs: u32) -> Result<(), AllocError>
    requires { reservoirs ≤ 10 }
    ensures { OnOk result (map view list.new.items
        ≡ map view list.old.items ++ flat_map reservoir_bounds (numbers reservoirs)) }
{
    for reservoir in 0..reservoirs {
        push_bounds_of(alloc, list, reservoir)?;
    }
    Ok(())
}

#[tactic(auto, unfolding(crate::specs::Stage::generated_constraints))]
fn constraints(alloc: Global, reservoirs: u32) -> Result<Vec<Value>, AllocError>
    requires { reservoirs ≤ 10 }
    ensures { IfOk result (λ list. map view list.items ≡ generated_constraints reservoirs) }
{
    let mut list = balances(alloc, reservoirs)?;
    let terms = power_terms(alloc, reservoirs)?;
    list.push(row(alloc, 25 * reservoirs, terms)?)?;
    push_bounds(alloc, &mut list, reservoirs)?;
    push_bound(alloc, &mut list, "g", 0, 10 * reservoirs as i64)?;
    push_bound(alloc, &mut list, "h", 0, 10 * reservoirs as i64)?;
    push_bound(alloc, &mut list, "k", 0, 40 * reservoirs as i64)?;
    Ok(list)
}

fn state(alloc: Global, reservoir: u32) -> Result<Value, AllocError>
    requires { reservoir < 10 }
    ensures { IfOk result (λ v. view v ≡ generated_state reservoir) }
{
    let incoming = reservoir_name(b'i', reservoir);
    let outgoing = reservoir_name(b'o', reservoir);
    state_between(alloc, text_of(&incoming), text_of(&outgoing))
}

fn states(alloc: Global, reservoirs: u32) -> Result<Map<String, Value>, AllocError>
    requires { reservoirs ≤ 10 }
    ensures { IfOk result (λ m. members_view m.entries ≡ generated_states reservoirs) }
{
    let mut map = Map::new(alloc);
    for reservoir in 0..reservoirs {
        let name = reservoir_name(b'v', reservoir);
        let value = state(alloc, reservoir)?;
        serde_json::put(&mut map, alloc, text_of(&name), value)?;
    }
    Ok(map)
}

#[tactic(auto, using(hydro_form::proofs::Counted::map_more))]
fn random_variables(alloc: Global, reservoirs: u32) -> Result<Vec<Value>, AllocError>
    requires { reservoirs ≤ 10 }
    ensures { IfOk result (λ list. map view list.items ≡ generated_random_variables reservoirs) }
{
    let mut list = Vec::new(alloc);
    for reservoir in 0..reservoirs {
        let name = reservoir_name(b'w', reservoir);
        list.push(Value::try_from_str(alloc, text_of(&name))?)?;
    }
    Ok(list)
}

#[tactic(auto, unfolding(crate::specs::Stage::generated_program))]
fn program(alloc: Global, reservoirs: u32) -> Result<Value, AllocError>
    requires { reservoirs ≤ 10 }
    ensures { IfOk result (λ v. view v ≡ generated_program reservoirs) }
{
    let variables = variables(alloc, reservoirs)?;
    let objective = objective(alloc)?;
    let constraints = constraints(alloc, reservoirs)?;
    hydro_form::program(alloc, constraints, objective, variables)
}

// The subproblem of each node.
#[tactic(auto, unfolding(crate::specs::Stage::generated_subproblem))]
pub(crate) fn subproblem(alloc: Global, reservoirs: u32) -> Result<Value, AllocError>
    requires { reservoirs ≤ 10 }
    ensures { IfOk result (λ v. view v ≡ generated_subproblem reservoirs) }
{
    let states = states(alloc, reservoirs)?;
    let randoms = random_variables(alloc, reservoirs)?;
    let program = program(alloc, reservoirs)?;
    hydro_form::subproblem(alloc, randoms, states, program)
}
