// Affine functions of the variables.
ghost use Rattle.std.specs.Prelude.{◌≡◌, ◌≤◌, ◌+◌, ◌*◌, ◌^◌, ◌+ℤ◌, unsigned_abs, IfOk, option_map};
ghost use Rattle.std.specs.List.{All};
ghost use Rattle.serde_json.specs.View.{view, items_view};
ghost use Rattle.read_json.specs.Steps.{Gives, Shows};
ghost use Rattle.read_stage.specs.Function.{site_place, zero_function, single_function, variable_function_at, raised, term_at, terms_at, constant_at, coefficient_at, coefficients_at, affine_function_at, function_at};

use base_num::{List, Memory};
use problem::{Part, Place, Refusal, RefusalKind};
use read_json::{Names, ReadRefusal, array, few, known, limited, present, string, whole};
use serde_json::Value;
use std::alloc::Global;

/// Where a function stands.
#[derive(Clone, Copy)]
pub(crate) enum Site {
    /// At the objective of the subproblem with this number.
    Objective(u32),
    /// At a constraint, with the subproblem's number and the constraint's.
    Constraint(u32, u32),
}

/// An affine function of a subproblem's variables.
#[derive(Drop)]
pub(crate) struct Function {
    /// The variable that the function is, where it is of type `Variable`.
    pub(crate) single: Option<usize>,
    /// One coefficient per variable.
    pub(crate) coefficients: List<i64>,
    pub(crate) constant: i64,
}

impl Site {
    /// The place of the function as a whole, at 0, or of its term t, at t + 1.
    pub(crate) fn place(self, number: u32) -> Place
        ensures { result ≡ site_place self number }
    {
        match self {
            Site::Objective(p) => Place::new(Part::Objective, p, number, 0),
            Site::Constraint(p, i) => Place::new(Part::Constraint, p, i, number),
        }
    }
}

impl Function {
    /// The function that is 0 everywhere.
    pub(crate) fn zero(alloc: Global, count: usize) -> Result<Function, Memory>
        ensures { IfOk result (λ f. f ≡ zero_function count) }
    {
        Ok(Function {
            single: None,
            coefficients: List::from_vec(vec![in alloc; 0i64; count]?),
            constant: 0,
        })
    }

    /// One variable.
    fn variable(alloc: Global, count: usize, variable: usize) -> Result<Function, Memory>
        ensures { IfOk result (λ f. f ≡ single_function count variable) }
    {
        let mut coefficients = List::from_vec(vec![in alloc; 0i64; count]?);
        if variable < count {
            coefficients.set(variable, 1);
        }
        Ok(Function {
            single: Some(variable),
            coefficients,
            constant: 0,
        })
    }
}

#[tactic(auto, unfolding(crate::specs::Function::variable_function_at))]
fn variable_function(
    alloc: Global,
    names: &Names,
    value: &Value,
    place: Place,
) -> Result<Function, ReadRefusal>
    ensures { Gives (λ f. f) result (variable_function_at names.now place (view value.now)) }
{
    let inner = present(value.get("name").or(value.get("variable")), place)?;
    let name = string(inner, place)?;
    let variable = known(names.position(name), place)?;
    Ok(Function::variable(alloc, names.len(), variable)?)
}

fn add(sum: i128, more: i64) -> i128
    requires { unsigned_abs sum ≤ 2 ^ 100 }
    ensures { result ≡ sum +ℤ more }
{
    sum + more as i128
}

#[tactic(auto, unfolding(crate::specs::Function::raised))]
fn raise(sums: &mut List<i128>, variable: usize, more: i64)
    requires { All (λ z. unsigned_abs z ≤ 2 ^ 100) sums.old }
    ensures { sums.new ≡ raised sums.old variable more }
{
    if let Some(sum) = sums.as_slice().get(variable) {
        let sum = add(*sum, more);
        sums.set(variable, sum);
    }
}

#[tactic(auto, unfolding(crate::specs::Function::term_at))]
fn term(
    names: &Names,
    site: Site,
    sums: &mut List<i128>,
    t: u32,
    value: &Value,
) -> Result<(), Refusal>
    requires early { t ≤ 2 ^ 24 }
    requires small { All (λ z. unsigned_abs z ≤ 2 ^ 100) sums.old }
    ensures { Shows (λ _. sums.new) result (term_at names.now site sums.old t (view value.now)) }
{
    let place = site.place(t + 1);
    let coefficient = whole(present(value.get("coefficient"), place)?, place)?;
    let name = string(present(value.get("variable"), place)?, place)?;
    let variable = known(names.position(name), place)?;
    raise(sums, variable, coefficient);
    Ok(())
}

fn terms(
    alloc: Global,
    names: &Names,
    site: Site,
    items: &[Value],
) -> Result<List<i128>, ReadRefusal>
    ensures { Gives (λ l. l) result (terms_at names.now site (items_view items.now)) }
{
    few(items.len())?;
    let mut sums = List::from_vec(vec![in alloc; 0i128; names.len()]?);
    for (t, value) in items.iter().enumerate() {
        term(names, site, &mut sums, t as u32, value)?;
    }
    Ok(sums)
}

#[tactic(auto, unfolding(crate::specs::Function::constant_at))]
fn constant(value: Option<&Value>, place: Place) -> Result<i64, Refusal>
    ensures { result ≡ constant_at place (option_map (λ v. view v.now) value.entry) }
{
    match value {
        Some(value) => whole(value, place),
        None => Ok(0),
    }
}

#[tactic(auto, unfolding(crate::specs::Function::coefficient_at))]
fn coefficient(found: &mut List<i64>, sum: i128, place: Place) -> Result<(), ReadRefusal>
    ensures { Gives (λ _. found.new) result (coefficient_at place found.old sum) }
{
    let coefficient = limited(sum, place)?;
    found.push(coefficient)?;
    Ok(())
}

fn coefficients(alloc: Global, sums: &[i128], place: Place) -> Result<List<i64>, ReadRefusal>
    ensures { Gives (λ l. l) result (coefficients_at place sums.now) }
{
    let mut found = List::new(alloc);
    for sum in sums {
        coefficient(&mut found, *sum, place)?;
    }
    Ok(found)
}

#[tactic(auto, unfolding(crate::specs::Function::affine_function_at))]
fn affine_function(
    alloc: Global,
    names: &Names,
    site: Site,
    value: &Value,
) -> Result<Function, ReadRefusal>
    ensures { Gives (λ f. f) result (affine_function_at names.now site (view value.now)) }
{
    let place = site.place(0);
    let items = array(present(value.get("terms"), place)?, place)?;
    let sums = terms(alloc, names, site, items)?;
    let constant = constant(value.get("constant"), place)?;
    let coefficients = coefficients(alloc, sums.as_slice(), place)?;
    Ok(Function {
        single: None,
        coefficients,
        constant,
    })
}

/// A function of type `Variable` or `ScalarAffineFunction`: Unsupported for any other type.
#[tactic(auto, unfolding(crate::specs::Function::function_at))]
pub(crate) fn read_function(
    alloc: Global,
    names: &Names,
    site: Site,
    value: &Value,
) -> Result<Function, ReadRefusal>
    ensures { Gives (λ f. f) result (function_at names.now site (view value.now)) }
{
    let place = site.place(0);
    let kind = string(present(value.get("type"), place)?, place)?;
    if kind == "Variable" {
        return variable_function(alloc, names, value, place);
    }
    if kind == "ScalarAffineFunction" {
        return affine_function(alloc, names, site, value);
    }
    Err(ReadRefusal::Refused(RefusalKind::Unsupported.at(place)))
}
