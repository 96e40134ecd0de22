// Programs solved one after another.
ghost use Rattle.std.specs.Prelude.{◌≡◌, ◌<◌, true, IfOk};
ghost use Rattle.lp_program.specs.declared.programs.Program.{Program};
ghost use Rattle.lp_program.specs.Proper.{IsProper, IsReference, Extends, IsLike};

use crate::alike::{extends, is_like};
use crate::fault::RowFault;
use crate::proper::{is_proper, is_reference};
use crate::reading::{Extent, program, programs};
use base_num::Memory;
use lp_program::{Answer, Duals, Fx, Solver, StageLp};
use lp_solve::WarmSimplex;
use std::alloc::Global;
use std::fmt::Write;

fn push_point(text: &mut String, point: &[Fx]) -> Result<(), RowFault> {
    text.push_str("point")?;
    for number in point {
        write!(text, " {}", number.0)?;
    }
    text.push_str("\n")?;
    Ok(())
}

fn push_duals(text: &mut String, duals: &Duals) -> Result<(), RowFault> {
    text.push_str("duals")?;
    for row in 0..duals.len() {
        write!(text, " {}", duals.get(row).0)?;
    }
    text.push_str("\n")?;
    Ok(())
}

fn push_answer(text: &mut String, answer: &Answer) -> Result<(), RowFault> {
    write!(text, "{:?}\n", answer.kind)?;
    push_point(text, answer.point.as_slice())?;
    push_duals(text, &answer.duals)
}

/// Tells whether a chain may take a program after another. [`Memory`] where memory was refused.
fn comes_after(alloc: Global, last: &StageLp, lp: &StageLp) -> Result<bool, Memory>
    requires { IsProper last.now }
    ensures { IfOk result (λ found. found ≡ true → IsLike last.now lp.now) }
{
    let before = last.program(alloc)?;
    let program = lp.program(alloc)?;
    Ok(is_like(&before, &program))
}

/// Tells whether a chain may begin with a program after a start by a reference. [`Memory`] where memory was refused.
fn may_begin(alloc: Global, reference: &StageLp, lp: &StageLp) -> Result<bool, Memory>
    requires { IsProper reference.now }
    ensures { IfOk result (λ found. found ≡ true → Extends reference.now lp.now) }
{
    let own = reference.program(alloc)?;
    let program = lp.program(alloc)?;
    Ok(extends(&own, &program))
}

/// Appends the answers of a chain that has begun with a program to it and to the others.
fn push_answers<'b, 'a, V: Solver>(
    alloc: Global,
    solver: &V,
    chain: &mut V::Chain,
    first: &'b StageLp<'a>,
    all: &'b [StageLp<'a>],
    text: &mut String,
) -> Result<(), RowFault>
    requires proper { IsProper first.now }
    requires fits { (other : Program) → IsLike first.now other → V.fits solver.now chain.old other }
{
    let mut last = first;
    for lp in all {
        if !comes_after(alloc, last, lp)? {
            return Err(RowFault::Unlike);
        }
        let answer = solver.solve(alloc, chain, lp)?;
        push_answer(text, &answer)?;
        last = lp;
    }
    Ok(())
}

/// Appends the answers of the chain that begins from a start.
fn push_chain<V: Solver>(
    alloc: Global,
    solver: &V,
    reference: &StageLp,
    start: &V::Start,
    all: &[StageLp],
    text: &mut String,
) -> Result<(), RowFault>
    requires proper { IsProper reference.now }
    requires suits { (other : Program) → Extends reference.now other → V.suits solver.now start.now other }
{
    let first = all.first().ok_or(RowFault::Form)?;
    if !may_begin(alloc, reference, first)? {
        return Err(RowFault::Unlike);
    }
    let mut chain = solver.begin(alloc, start, first, &mut None)?;
    push_answers(alloc, solver, &mut chain, first, all, text)
}

/// Appends the answers of the chain that begins from the start of a reference program.
fn push_from<V: Solver>(
    alloc: Global,
    solver: &V,
    reference: &StageLp,
    file: &str,
    text: &mut String,
) -> Result<(), RowFault>
    requires proper { IsProper reference.now }
    requires own { IsReference reference.now }
{
    let start = solver.start(alloc, reference)?;
    let all = programs(alloc, file)?;
    push_chain(alloc, solver, reference, &start, all.as_slice(), text)
}

/// Appends a solver's answers to the programs of a file, in one chain from the start of the file's own rows.
fn push_solved<V: Solver>(
    alloc: Global,
    solver: &V,
    file: &str,
    text: &mut String,
) -> Result<(), RowFault> {
    let reference = program(alloc, file, Extent::Own, "")?;
    if !is_proper(&reference) || !is_reference(&reference) {
        return Err(RowFault::Improper);
    }
    push_from(alloc, solver, &StageLp::of(reference), file, text)
}

/// The answers of the program's solver to the programs of a file.
pub fn solved(alloc: Global, file: &str) -> Result<String, RowFault> {
    let mut text = String::new(alloc);
    push_solved(alloc, &WarmSimplex, file, &mut text)?;
    Ok(text)
}
