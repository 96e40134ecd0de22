// The violations of a table, looked at from the greatest on.
ghost use Rattle.std.specs.Prelude.{◌≡◌, length, All, None, IfOk};
ghost use Rattle.lp_program.specs.Proper.{IsProper};
ghost use Rattle.lp_wide_table.specs.Shape.{WideFits};
ghost use Rattle.lp_wide.specs.Enter.{wide_enter_of};
ghost use Rattle.lp_wide.specs.Ray.{wide_ray_answer};
ghost use Rattle.lp_wide.specs.Steps.{IsWideInspectionInside};
ghost use Rattle.lp_wide.specs.Turns.{wide_by_ray, wide_by_entry, inspection_at, inspection_from, wide_inspection_of};
ghost use Rattle.lp_wide.specs.Violations.{IsWideViolationThere};

use crate::entering::enter;
use crate::line::line;
use crate::ray::ray;
use crate::violations::{WideViolation, next_violation, violations};
use base_num::{List, Memory};
use lp_program::{Answer, StageLp};
use lp_wide_table::{WideCell, WideTable};
use std::alloc::Global;

/// The mend of a violation.
#[derive(Drop)]
pub struct Mend {
    /// The violation.
    pub violation: WideViolation,
    /// The line of its variable.
    pub line: List<WideCell>,
    /// The place that enters.
    pub place: usize,
    /// The places that flip.
    pub flips: List<usize>,
}

/// The outcome of one violation, or of all violations.
pub enum WideInspection {
    /// None can be mended, and none shows that no point keeps all own rows.
    Rests,
    /// One is mended.
    Mends(Mend),
    /// No point keeps all own rows.
    Shows(Answer),
    /// A number is out of range.
    Stops,
}

// The ray of a violation that no place mends.
fn show(
    alloc: Global,
    lp: &StageLp,
    table: &WideTable,
    violation: WideViolation,
    line: &[WideCell],
) -> Result<WideInspection, Memory>
    requires fits { WideFits table.now lp.now }
    requires proper { IsProper lp.now }
    requires line { length line.now ≡ length table.now.costs }
    ensures inspection { IfOk result (λ inspection. inspection ≡ wide_by_ray (wide_ray_answer table.now line.now violation.variable violation.above lp.now)) }
    ensures inside { IfOk result (IsWideInspectionInside table.now) }
{
    match ray(alloc, table, line, violation.variable, violation.above, lp)? {
        Some(answer) => Ok(WideInspection::Shows(answer)),
        None => Ok(WideInspection::Rests),
    }
}

// Looks at one violation by its line.
fn enter_or_show(
    alloc: Global,
    lp: &StageLp,
    table: &WideTable,
    violation: WideViolation,
    line: List<WideCell>,
) -> Result<WideInspection, Memory>
    requires fits { WideFits table.now lp.now }
    requires proper { IsProper lp.now }
    requires there { IsWideViolationThere table.now violation }
    requires line { length line ≡ length table.now.costs }
    ensures inspection { IfOk result (λ inspection. inspection ≡ wide_by_entry (wide_ray_answer table.now line violation.variable violation.above lp.now) violation line (wide_enter_of table.now line violation.above violation.amount)) }
    ensures inside { IfOk result (IsWideInspectionInside table.now) }
{
    let entry = enter(
        alloc,
        table,
        line.as_slice(),
        violation.above,
        violation.amount,
    )?;
    let Some(entry) = entry else {
        return Ok(WideInspection::Stops);
    };
    match entry.place {
        Some(place) => Ok(WideInspection::Mends(Mend {
            violation,
            line,
            place,
            flips: entry.flips,
        })),
        None => show(alloc, lp, table, violation, line.as_slice()),
    }
}

// Looks at one violation.
#[tactic(auto, unfolding(crate::specs::Turns::inspection_at))]
fn inspect(
    alloc: Global,
    lp: &StageLp,
    table: &WideTable,
    violation: WideViolation,
) -> Result<WideInspection, Memory>
    requires fits { WideFits table.now lp.now }
    requires proper { IsProper lp.now }
    requires there { IsWideViolationThere table.now violation }
    ensures inspection { IfOk result (λ inspection. inspection ≡ inspection_at lp.now table.now violation) }
    ensures inside { IfOk result (IsWideInspectionInside table.now) }
{
    match line(alloc, table, violation.variable)? {
        Some(line) => enter_or_show(alloc, lp, table, violation, line),
        None => Ok(WideInspection::Stops),
    }
}

// Looks at all violations, the greatest first, until one is mended or shows that no point keeps all own rows.
fn inspect_all(
    alloc: Global,
    lp: &StageLp,
    table: &WideTable,
    violations: &[WideViolation],
) -> Result<WideInspection, Memory>
    requires fits { WideFits table.now lp.now }
    requires proper { IsProper lp.now }
    requires there { All (IsWideViolationThere table.now) violations.now }
    ensures inspection { IfOk result (λ inspection. inspection ≡ inspection_from lp.now table.now violations.now (length violations.now) None) }
    ensures inside { IfOk result (IsWideInspectionInside table.now) }
{
    let mut last = None;
    for _violation in 0..violations.len() {
        let Some(violation) = next_violation(last, violations) else {
            return Ok(WideInspection::Rests);
        };
        match inspect(alloc, lp, table, violation)? {
            WideInspection::Rests => last = Some(violation),
            WideInspection::Mends(mend) => return Ok(WideInspection::Mends(mend)),
            WideInspection::Shows(answer) => return Ok(WideInspection::Shows(answer)),
            WideInspection::Stops => return Ok(WideInspection::Stops),
        }
    }
    Ok(WideInspection::Rests)
}

/// Looks at the violations of a table, the greatest first, until one is mended or shows that no point keeps all own rows.
/// [`Memory`] where memory was refused.
#[tactic(auto, unfolding(crate::specs::Turns::wide_inspection_of))]
pub fn inspect_table(
    alloc: Global,
    lp: &StageLp,
    table: &WideTable,
) -> Result<WideInspection, Memory>
    requires fits { WideFits table.now lp.now }
    requires proper { IsProper lp.now }
    ensures inspection { IfOk result (λ inspection. inspection ≡ wide_inspection_of lp.now table.now) }
    ensures inside { IfOk result (IsWideInspectionInside table.now) }
{
    match violations(alloc, table)? {
        Some(all) => inspect_all(alloc, lp, table, all.as_slice()),
        None => Ok(WideInspection::Stops),
    }
}
