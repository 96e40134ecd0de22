// The parts of a subproblem.
ghost use Rattle.std.specs.Prelude.{◌≡◌, [], ◌∷◌, ◌++◌, map, IfOk, OnOk, string_bytes};
ghost use Rattle.serde_json.specs.Data.{string, put};
ghost use Rattle.serde_json.specs.View.{view, members_view};
ghost use Rattle.hydro_form.specs.Listed.{integer};
ghost use Rattle.hydro_form.specs.Stage.{variable, term, affine, equal_to, row, single, interval, variable_bound, least_sum, state_between, program_form, subproblem_form};

use serde_json::{Map, Value, json};
use std::alloc::{AllocError, Global};

/// A variable. [`AllocError`] where memory was refused, as of all functions here.
#[tactic(auto, unfolding(crate::specs::Stage::variable))]
pub fn variable(alloc: Global, name: &str) -> Result<Value, AllocError>
    ensures { IfOk result (λ v. view v ≡ variable name.now) }
{
    json!(in alloc; {"name": name})
}

/// A variable with its factor.
#[tactic(auto, unfolding(crate::specs::Stage::term))]
pub fn term(alloc: Global, coefficient: i64, name: &str) -> Result<Value, AllocError>
    ensures { IfOk result (λ v. view v ≡ term coefficient name.now) }
{
    json!(in alloc; {"coefficient": coefficient, "variable": name})
}

/// The sum of the terms.
#[tactic(auto, unfolding(crate::specs::Stage::affine))]
pub fn affine(alloc: Global, terms: Vec<Value>) -> Result<Value, AllocError>
    ensures { IfOk result (λ v. view v ≡ affine (map view terms.items)) }
{
    json!(in alloc; {"type": "ScalarAffineFunction", "terms": terms, "constant": 0u32})
}

#[tactic(auto, unfolding(crate::specs::Stage::equal_to))]
fn equal_to(alloc: Global, value: u32) -> Result<Value, AllocError>
    ensures { IfOk result (λ v. view v ≡ equal_to value) }
{
    json!(in alloc; {"type": "EqualTo", "value": value})
}

/// The row that says that the sum of the terms is the value.
#[tactic(auto, unfolding(crate::specs::Stage::row))]
pub fn row(alloc: Global, value: u32, terms: Vec<Value>) -> Result<Value, AllocError>
    ensures { IfOk result (λ v. view v ≡ row value (map view terms.items)) }
{
    let function = affine(alloc, terms)?;
    let set = equal_to(alloc, value)?;
    json!(in alloc; {"function": function, "set": set})
}

#[tactic(auto, unfolding(crate::specs::Stage::single))]
fn single(alloc: Global, name: &str) -> Result<Value, AllocError>
    ensures { IfOk result (λ v. view v ≡ single name.now) }
{
    json!(in alloc; {"type": "Variable", "name": name})
}

#[tactic(auto, unfolding(crate::specs::Stage::interval))]
fn interval(alloc: Global, low: i64, high: i64) -> Result<Value, AllocError>
    ensures { IfOk result (λ v. view v ≡ interval low high) }
{
    json!(in alloc; {"type": "Interval", "lower": low, "upper": high})
}

/// The bound that says that a variable is from `low` to `high`.
#[tactic(auto, unfolding(crate::specs::Stage::variable_bound))]
pub fn bound(alloc: Global, name: &str, low: i64, high: i64) -> Result<Value, AllocError>
    ensures { IfOk result (λ v. view v ≡ variable_bound name.now low high) }
{
    let function = single(alloc, name)?;
    let set = interval(alloc, low, high)?;
    json!(in alloc; {"function": function, "set": set})
}

/// The objective that seeks the least sum of the terms.
#[tactic(auto, unfolding(crate::specs::Stage::least_sum))]
pub fn least_sum(alloc: Global, terms: Vec<Value>) -> Result<Value, AllocError>
    ensures { IfOk result (λ v. view v ≡ least_sum (map view terms.items)) }
{
    let function = affine(alloc, terms)?;
    json!(in alloc; {"sense": "min", "function": function})
}

/// The state that goes from one variable to the other.
#[tactic(auto, unfolding(crate::specs::Stage::state_between))]
pub fn state_between(alloc: Global, incoming: &str, outgoing: &str) -> Result<Value, AllocError>
    ensures { IfOk result (λ v. view v ≡ state_between incoming.now outgoing.now) }
{
    json!(in alloc; {"in": incoming, "out": outgoing})
}

/// The program of a subproblem.
#[tactic(auto, unfolding(crate::specs::Stage::program_form))]
pub fn program(
    alloc: Global,
    constraints: Vec<Value>,
    objective: Value,
    variables: Vec<Value>,
) -> Result<Value, AllocError>
    ensures { IfOk result (λ v. view v
        ≡ program_form (map view constraints.items) (view objective) (map view variables.items)) }
{
    json!(in alloc; {"variables": variables, "objective": objective, "constraints": constraints})
}

/// A subproblem: its random variables, its states and its program.
#[tactic(auto, unfolding(crate::specs::Stage::subproblem_form))]
pub fn subproblem(
    alloc: Global,
    randoms: Vec<Value>,
    states: Map<String, Value>,
    program: Value,
) -> Result<Value, AllocError>
    ensures { IfOk result (λ v. view v
        ≡ subproblem_form (map view randoms.items) (members_view states.entries) (view program)) }
{
    let states = Value::Object(states);
    json!(in alloc; {"state_variables": states, "random_variables": randoms, "subproblem": program})
}

/// Appends a text.
pub fn push_text(list: &mut Vec<Value>, text: String) -> Result<(), AllocError>
    ensures { OnOk result (map view list.new.items
        ≡ map view list.old.items ++ string (string_bytes text) ∷ []) }
{
    Ok(list.push(Value::String(text))?)
}

/// Appends a variable.
pub fn push_variable(alloc: Global, list: &mut Vec<Value>, name: &str) -> Result<(), AllocError>
    ensures { OnOk result (map view list.new.items
        ≡ map view list.old.items ++ variable name.now ∷ []) }
{
    Ok(list.push(variable(alloc, name)?)?)
}

/// Appends a term.
pub fn push_term(
    alloc: Global,
    list: &mut Vec<Value>,
    coefficient: i64,
    name: &str,
) -> Result<(), AllocError>
    ensures { OnOk result (map view list.new.items
        ≡ map view list.old.items ++ term coefficient name.now ∷ []) }
{
    Ok(list.push(term(alloc, coefficient, name)?)?)
}

/// Appends a bound.
pub fn push_bound(
    alloc: Global,
    list: &mut Vec<Value>,
    name: &str,
    low: i64,
    high: i64,
) -> Result<(), AllocError>
    ensures { OnOk result (map view list.new.items
        ≡ map view list.old.items ++ variable_bound name.now low high ∷ []) }
{
    Ok(list.push(bound(alloc, name, low, high)?)?)
}

/// Adds a member: a whole number.
pub fn put_whole(
    alloc: Global,
    map: &mut Map<String, Value>,
    name: &str,
    value: i64,
) -> Result<(), AllocError>
    ensures { OnOk result (members_view map.new.entries
        ≡ put name.now (integer value) (members_view map.old.entries)) }
{
    serde_json::put(map, alloc, name, Value::from(value))
}
