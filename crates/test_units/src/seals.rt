// Parts that are not validated, which no problem in a file shows.
use crate::problems::BARE;
use base_num::{List, Memory};
use problem::{Node, Problem, ProblemParts, SealFault};
use read_file::read_problem_parts;
use read_json::ReadRefusal;
use std::alloc::Global;
use std::test::Fail;

// Gives a node's first realization this weight, and the node a weight of stopping.
fn weigh(node: &mut Node, weight: u32) {
    node.stop = 7;
    for first in node.weights.as_mut_slice() {
        *first = weight;
    }
}

fn weigh_each(nodes: &mut [Node], weight: u32) {
    for node in nodes {
        weigh(node, weight);
    }
}

fn one<T: Drop>(alloc: Global, item: T) -> Result<List<T>, Memory> {
    let mut found = List::new(alloc);
    found.push(item)?;
    Ok(found)
}

// Seals these parts with this weight, with the order, the lows and the highs as they are given, and gives the fault.
fn sealing(
    alloc: Global,
    mut parts: ProblemParts,
    weight: u32,
    lists: (List<u32>, List<List<i64>>, List<List<i64>>),
    longest: u32,
) -> Option<SealFault> {
    weigh_each(parts.nodes.as_mut_slice(), weight);
    let (order, lo, hi) = lists;
    Problem::seal(alloc, parts, order, longest, lo, hi).err()
}

// The fault of a problem of one node with one realization of this weight.
fn fault(alloc: Global, weight: u32, longest: u32) -> Result<Option<SealFault>, ReadRefusal> {
    let order = one(alloc, 0)?;
    let lo = one(alloc, List::new(alloc))?;
    let hi = one(alloc, List::new(alloc))?;
    match read_problem_parts(alloc, BARE) {
        Ok(parts) => Ok(sealing(alloc, parts, weight, (order, lo, hi), longest)),
        Err(refusal) => Err(refusal),
    }
}

#[test]
fn seals_what_fits_together(rt: HostRuntime) -> Result<(), Fail> {
    for (weight, longest, expected) in [
        (65535, 1, None),
        (65536, 1, Some(SealFault::NotParts)),
        (0, 1, Some(SealFault::NotParts)),
        (1, 2, Some(SealFault::NotParts)),
    ] {
        let found = fault(rt.alloc(), weight, longest)?;
        assert_eq!(rt;
            found,
            expected,
            "weight {weight} and longest path {longest}"
        );
    }
    Ok(())
}
