// The violations of a table, looked at from the greatest on.
ghost use Rattle.std.specs.Prelude.{◌≡◌, length, All, None, IfOk};
ghost use Rattle.lp_scale.specs.Fitting.{Fits};
ghost use Rattle.lp_solve.specs.Violations.{IsViolationThere};
ghost use Rattle.lp_solve.specs.Turns.{inspection_of, by_entry, survey_from};
ghost use Rattle.lp_solve.specs.Steps.{Inspects, InspectsInside, Surveys, SurveysInside};
ghost use Rattle.lp_price.specs.Enter.{enter_of};
ghost use Rattle.lp_price.specs.Ray.{ray_answer};

use crate::violations::{Violation, next_violation};
use base_num::{List, Memory};
use lp_pivot::{Swap, write_line};
use lp_price::entering::{Rank, enter};
use lp_price::ray::ray;
use lp_program::{Answer, StageLp};
use lp_table::{Cell, WarmTable};
use std::alloc::Global;

/// A program, and a table that fits it.
#[derive(Clone, Copy)]
pub(crate) struct Fitted<'a> {
    pub(crate) lp: &'a StageLp<'a>,
    pub(crate) table: &'a WarmTable,
}

// The finding about one violation.
pub(crate) enum Inspection {
    // Nothing mends it, and nothing shows that no point keeps all bounds.
    Passes,
    // A variable enters for its own.
    Mends(Swap),
    // No point keeps all bounds.
    Shows(Answer),
    // A number is out of range.
    Stops,
}

// The finding about all violations.
pub(crate) enum Survey {
    // None of them can be mended; whether there were any.
    Rests(bool),
    // One is mended.
    Mends(Swap),
    // No point keeps all bounds.
    Shows(Answer),
    // A number is out of range.
    Stops,
}

// Looks at one violation by its line. The flips are the places that flip where it is mended.
fn enter_or_show(
    alloc: Global,
    fitted: &Fitted,
    violation: Violation,
    line: &[Cell],
    flips: &mut List<usize>,
    candidates: &mut List<Rank>,
) -> Result<Inspection, Memory>
    requires fits { Fits fitted.now.table.now fitted.now.lp.now }
    requires there { IsViolationThere fitted.now.table.now violation }
    requires line { length line.now ≡ length fitted.now.table.now.costs }
    ensures inspection { IfOk result (λ inspection. Inspects inspection (by_entry violation (ray_answer fitted.now.table.now line.now violation.variable violation.above fitted.now.lp.now) line.now (enter_of fitted.now.table.now line.now violation.above violation.amount)) line.now flips.new) }
    ensures inside { IfOk result (λ inspection. InspectsInside inspection fitted.now.table.now line.now flips.new) }
{
    let amount = i128::from(violation.amount);
    if let Some((place, tail)) = enter(
        fitted.table,
        line,
        violation.above,
        amount,
        flips,
        candidates,
    )? {
        return Ok(Inspection::Mends(Swap {
            leaving: violation.variable,
            above: violation.above,
            place,
            tail,
        }));
    }
    match ray(
        alloc,
        fitted.table,
        line,
        violation.variable,
        violation.above,
        fitted.lp,
    )? {
        Some(answer) => Ok(Inspection::Shows(answer)),
        None => Ok(Inspection::Passes),
    }
}

// Looks at one violation. The line is that of its variable then.
#[tactic(auto, unfolding(crate::specs::Turns::inspection_of))]
fn inspect(
    alloc: Global,
    fitted: &Fitted,
    violation: Violation,
    line: &mut List<Cell>,
    flips: &mut List<usize>,
    candidates: &mut List<Rank>,
) -> Result<Inspection, Memory>
    requires fits { Fits fitted.now.table.now fitted.now.lp.now }
    requires there { IsViolationThere fitted.now.table.now violation }
    requires line { length line.old ≡ length fitted.now.table.now.costs }
    ensures line { length line.new ≡ length line.old }
    ensures inspection { IfOk result (λ inspection. Inspects inspection (inspection_of fitted.now.lp.now fitted.now.table.now violation) line.new flips.new) }
    ensures inside { IfOk result (λ inspection. InspectsInside inspection fitted.now.table.now line.new flips.new) }
{
    if !write_line(fitted.table, violation.variable, line) {
        return Ok(Inspection::Stops);
    }
    enter_or_show(alloc, fitted, violation, line.as_slice(), flips, candidates)
}

// Looks at all violations, the greatest first, until one is mended or shows that no point keeps all bounds.
pub(crate) fn inspect_all(
    alloc: Global,
    fitted: &Fitted,
    violations: &[Violation],
    line: &mut List<Cell>,
    flips: &mut List<usize>,
    candidates: &mut List<Rank>,
) -> Result<Survey, Memory>
    requires fits { Fits fitted.now.table.now fitted.now.lp.now }
    requires there { All (IsViolationThere fitted.now.table.now) violations.now }
    requires line { length line.old ≡ length fitted.now.table.now.costs }
    ensures line { length line.new ≡ length line.old }
    ensures survey { IfOk result (λ survey. Surveys survey (survey_from fitted.now.lp.now fitted.now.table.now violations.now (length violations.now) None) line.new flips.new) }
    ensures inside { IfOk result (λ survey. SurveysInside survey fitted.now.table.now line.new flips.new) }
{
    let mut last = None;
    for _violation in 0..violations.len() {
        let Some(violation) = next_violation(last, violations) else {
            return Ok(Survey::Rests(last.is_some()));
        };
        match inspect(alloc, fitted, violation, line, flips, candidates)? {
            Inspection::Passes => last = Some(violation),
            Inspection::Mends(swap) => return Ok(Survey::Mends(swap)),
            Inspection::Shows(answer) => return Ok(Survey::Shows(answer)),
            Inspection::Stops => return Ok(Survey::Stops),
        }
    }
    Ok(Survey::Rests(last.is_some()))
}
