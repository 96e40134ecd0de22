// The program by which a solver makes the start of a node.
use crate::problems::KEEPING;
use base_num::Memory;
use lp_program::fixed::ONE;
use lp_program::{Column, Fx, LpRow, Zero};
use plan_stage::{WarmStarts, reference};
use problem::Problem;
use read_file::read_problem;
use std::alloc::Global;

fn is_kept(column: &Column) -> bool {
    column.low == Fx(0) && column.high == Fx(20 * ONE) && column.cost == Fx(3 * ONE)
}

fn is_balance(row: &LpRow) -> bool {
    let side = Some(Fx(7 * ONE / 2));
    row.low == side && row.high == side && row.terms.as_slice() == [(0, Fx(ONE))].as_slice()
}

// The state of the reference program is 2.5, so its decision is 3.5.
fn is_ready(alloc: Global, problem: &Problem) -> Result<bool, Memory> {
    let _ = WarmStarts::new(alloc, problem, &Zero)?;
    if problem.parts().nodes.is_empty() {
        return Ok(false);
    }
    let program = reference(alloc, problem, 0)?;
    let columns = program.columns().iter().all(is_kept);
    let rows = program.own_rows().iter().all(is_balance);
    Ok(columns && rows)
}

fn keeping_is_ready(alloc: Global) -> bool {
    match read_problem(alloc, KEEPING) {
        Ok(problem) => matches!(is_ready(alloc, &problem), Ok(true)),
        Err(_) => false,
    }
}

#[test]
fn makes_ready_a_quarter_of_the_way_up(rt: HostRuntime) {
    assert!(rt; keeping_is_ready(rt.alloc()));
}
