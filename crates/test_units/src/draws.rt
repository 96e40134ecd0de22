// Picks of words, and paths that are drawn. The contract of `pick_or_stop` says that it picks among the weights with the stop
// weight behind them.
use crate::problems::TWO_ROWS;
use base_num::Memory;
use plan_draw::{PathStep, path, pick};
use problem::Problem;
use read_file::read_problem;
use std::alloc::Global;

#[test]
fn picks_by_running_sums(rt: HostRuntime) {
    assert_eq!(rt; pick(&[1, 3], 1073741823), 0);
    assert_eq!(rt; pick(&[1, 3], 1073741824), 1);
    assert_eq!(rt; pick(&[1], 4294967295), 0);
}

#[test]
fn picks_among_three(rt: HostRuntime) {
    assert_eq!(rt; pick(&[1, 3, 4], 2147483647), 1);
    assert_eq!(rt; pick(&[1, 3, 4], 2147483648), 2);
}

// Tells whether this realization of the only node is drawn.
fn draws(
    alloc: Global,
    problem: &Problem,
    seed: u64,
    stream: u64,
    realization: u32,
) -> Result<bool, Memory> {
    let step = PathStep {
        node: 0,
        realization,
    };
    Ok(path(alloc, problem, seed, stream)?.as_slice() == [step].as_slice())
}

// The first word goes to the root's only successor. For seed 7 and stream 3 it is below 2^31, and the second is not.
fn draws_each(alloc: Global, problem: &Problem) -> Result<bool, Memory> {
    Ok(
        draws(alloc, problem, 7, 1, 1)?
            && draws(alloc, problem, 7, 2, 0)?
            && draws(alloc, problem, 7, 3, 1)?
            && draws(alloc, problem, 1, 7, 0)?,
    )
}

fn draws_of_two(alloc: Global) -> bool {
    match read_problem(alloc, TWO_ROWS) {
        Ok(problem) => matches!(draws_each(alloc, &problem), Ok(true)),
        Err(_) => false,
    }
}

#[test]
fn draws_a_realization_by_the_second_word(rt: HostRuntime) {
    assert!(rt; draws_of_two(rt.alloc()));
}
