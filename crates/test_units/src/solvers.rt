// Solvers that solve nothing, on programs of one decision.
ghost use Rattle.std.specs.Prelude.{◌≤ℤ◌, IfSome, IfOk};
ghost use Rattle.lp_program.specs.Proper.{IsProper, IsReference};

use base_num::{List, Memory};
use lp_program::fixed::ONE;
use lp_program::{
    Answer, Column, Duals, Fx, Kind, Liar, LpRow, Meeting, Program, Solver, StageLp, Zero,
};
use std::alloc::Global;
use std::test::Fail;

// A program of one decision and one own row, whose only term is the factor.
#[tactic(auto, using(crate::proofs::Singles::proper_one, crate::proofs::Singles::reference_one))]
fn single<'a>(
    alloc: Global,
    column: Column,
    low: Option<Fx>,
    high: Option<Fx>,
    factor: Fx,
) -> Result<StageLp<'a>, Memory>
    requires column { column.low.0 ≤ℤ column.high.0 }
    requires row { IfSome low (λ l. IfSome high (λ h. l.0 ≤ℤ h.0)) }
    ensures proper { IfOk result (λ lp. IsProper lp) }
    ensures reference { IfOk result (λ lp. IsReference lp) }
{
    let mut terms = List::new(alloc);
    terms.push((0u32, factor))?;
    let mut columns = List::new(alloc);
    columns.push(column)?;
    let mut rows = List::new(alloc);
    rows.push(LpRow { low, high, terms })?;
    Ok(StageLp::of(Program {
        columns,
        rows,
        decisions: 1,
        own: 1,
    }))
}

// A column from 0 to 1 at cost 1, three of which are to be 1.
fn thirds<'a>(alloc: Global) -> Result<StageLp<'a>, Memory>
    ensures proper { IfOk result (λ lp. IsProper lp) }
    ensures reference { IfOk result (λ lp. IsReference lp) }
{
    let column = Column {
        low: Fx(0),
        high: Fx(ONE),
        cost: Fx(ONE),
    };
    single(alloc, column, Some(Fx(ONE)), Some(Fx(ONE)), Fx(3 * ONE))
}

// The answer of a chain of one.
fn alone<V: Solver>(alloc: Global, solver: &V) -> Result<Answer, Memory> {
    let lp = thirds(alloc)?;
    let start = solver.start(alloc, &lp)?;
    let mut chain = solver.begin(alloc, &start, &lp, &mut None)?;
    solver.solve(alloc, &mut chain, &lp)
}

// The duals are these numbers.
fn are(duals: &Duals, numbers: &[Fx]) -> bool {
    for row in 0..numbers.len() {
        if duals.get(row) != numbers[row] {
            return false;
        }
    }
    duals.len() == numbers.len()
}

fn says(answer: &Answer, kind: Kind, point: &[Fx], duals: &[Fx]) -> bool {
    answer.kind == kind && answer.point.as_slice() == point && are(&answer.duals, duals)
}

#[test]
fn claims_zero(rt: HostRuntime) -> Result<(), Fail> {
    assert!(rt; says(&alone(rt.alloc(), &Zero)?, Kind::Found, &[Fx(0)], &[Fx(0)]));
    Ok(())
}

fn liar(alloc: Global) -> Result<Liar, Memory> {
    let mut duals = List::new(alloc);
    duals.push(Fx(7))?;
    Ok(Liar::new(Answer {
        kind: Kind::Ray,
        point: List::new(alloc),
        duals: Duals::new(alloc, duals),
    }))
}

#[test]
fn claims_what_it_is_told(rt: HostRuntime) -> Result<(), Fail> {
    let claim = alone(rt.alloc(), &liar(rt.alloc())?)?;
    assert!(rt; says(&claim, Kind::Ray, &[], &[Fx(7)]));
    Ok(())
}

// Tells whether a chain of one is found, and no two threads met.
fn finds_alone(alloc: Global, meeting: &Meeting) -> Result<bool, Memory> {
    Ok(alone(alloc, meeting)?.kind == Kind::Found && !meeting.met())
}

#[test]
fn one_thread_does_not_meet(rt: HostRuntime) -> Result<(), Fail> {
    let meeting = Meeting::new(1, 10);
    for _call in 0..4 {
        assert!(rt; finds_alone(rt.alloc(), &meeting)?);
    }
    Ok(())
}

// A value that threads may send and share.
fn is_shared<T: Send + Sync>(_value: &T) -> bool {
    true
}

#[test]
fn threads_share_solvers(rt: HostRuntime) -> Result<(), Fail> {
    assert!(rt; is_shared(&Zero));
    assert!(rt; is_shared(&Meeting::new(0, 0)));
    assert!(rt; is_shared(&liar(rt.alloc())?));
    Ok(())
}
