// Pools of cuts, and what they keep for stage problems.
use base_num::{List, Memory};
use cut_pool::{Certificate, Cut, Entry, OutBox, Pools};
use lp_program::PackedCuts;
use std::alloc::Global;
use std::test::Fail;

fn cut(alloc: Global, alpha: i128, slope: i128) -> Result<Cut, Memory> {
    let mut beta = List::new(alloc);
    beta.push(slope)?;
    Ok(Cut { alpha, beta })
}

fn alpha(pools: &Pools, node: u32, place: u32) -> Option<i128> {
    if (node as usize) < pools.nodes() && place < pools.count(node) {
        Some(pools.cut(node, place).alpha)
    } else {
        None
    }
}

// Tells whether a node gets a cut of this constant and slope.
fn pushes(alloc: Global, pools: &mut Pools, node: u32, alpha: i128, slope: i128) -> bool {
    if (node as usize) < pools.nodes() && pools.count(node) < 1000 {
        match cut(alloc, alpha, slope) {
            Ok(cut) => pools.push(node, cut).is_ok(),
            Err(Memory) => false,
        }
    } else {
        false
    }
}

// Tells whether node 0 has no cut, and node 1 has cuts of these constants.
fn holds(pools: &Pools, alphas: [Option<i128>; 3]) -> bool {
    let found = [alpha(pools, 1, 0), alpha(pools, 1, 1), alpha(pools, 1, 2)];
    alpha(pools, 0, 0).is_none() && found == alphas
}

fn makes_room(pools: &mut Pools) -> bool {
    pools.nodes() == 2 && pools.reserve(1).is_ok() && pools.reserve_many(1, 2).is_ok()
}

fn keeps_one(pools: &mut Pools, node: u32) {
    if (node as usize) < pools.nodes() {
        pools.truncate(node, 1);
    }
}

fn holds_cuts(alloc: Global, pools: &mut Pools) -> bool {
    let pushed = pushes(alloc, pools, 1, -3, 0) && pushes(alloc, pools, 1, 5, 0);
    let held = pushed && holds(pools, [Some(-3), Some(5), None]);
    keeps_one(pools, 1);
    held && holds(pools, [Some(-3), None, None])
}

#[test]
fn holds_lists_of_cuts(rt: HostRuntime) -> Result<(), Fail> {
    let mut pools = Pools::new(rt.alloc(), 2)?;
    assert!(rt; makes_room(&mut pools));
    assert!(rt; holds_cuts(rt.alloc(), &mut pools));
    Ok(())
}

const ENDS: OutBox = OutBox {
    least: 1,
    greatest: 10,
};

const OTHER: OutBox = OutBox {
    least: 1,
    greatest: 11,
};

fn box_maximum(pools: &Pools, ends: OutBox) -> Option<i128> {
    if pools.nodes() > 0 {
        pools.box_maximum(0, [ends].as_slice())
    } else {
        None
    }
}

fn prepares(alloc: Global, pools: &mut Pools) -> bool {
    pools.nodes() > 0 && pools.prepare(alloc, 0, [ENDS].as_slice()).is_ok()
}

// Tells whether a box maximum is kept: over [1, 10] the cut 7 - 2x is greatest at 1, and the cut 4 + x at 10.
fn keeps_box_maximum(alloc: Global, pools: &mut Pools) -> bool {
    pushes(alloc, pools, 0, 7, -2)
        && box_maximum(pools, ENDS).is_none()
        && prepares(alloc, pools)
        && box_maximum(pools, ENDS) == Some(5)
        && box_maximum(pools, OTHER).is_none()
}

fn box_maximum_follows(alloc: Global, pools: &mut Pools) -> bool {
    pushes(alloc, pools, 0, 4, 1) && box_maximum(pools, ENDS) == Some(14)
}

#[test]
fn keeps_box_maxima(rt: HostRuntime) -> Result<(), Fail> {
    let mut pools = Pools::new(rt.alloc(), 1)?;
    assert!(rt; keeps_box_maximum(rt.alloc(), &mut pools));
    assert!(rt; box_maximum_follows(rt.alloc(), &mut pools));
    Ok(())
}

// The value of a cut where all states are 0, and its first slope.
fn numbers_of(cuts: &PackedCuts, place: usize) -> Option<(i128, i64)> {
    if place < cuts.len() {
        let slope = cuts.slopes(place).first().copied()?;
        Some((cuts.height(place), slope))
    } else {
        None
    }
}

// Gives these numbers of a cut that node 0 keeps side by side.
fn kept(pools: &Pools, place: usize) -> Option<(i128, i64)> {
    if pools.nodes() > 0 {
        let cuts = pools.packed(0)?;
        numbers_of(&cuts, place)
    } else {
        None
    }
}

fn keeps_two(alloc: Global, pools: &mut Pools) -> bool {
    pushes(alloc, pools, 0, 7, -2)
        && kept(pools, 0).is_none()
        && prepares(alloc, pools)
        && pushes(alloc, pools, 0, 4, 1)
        && kept(pools, 0) == Some((7, -2))
        && kept(pools, 1) == Some((4, 1))
}

// A cut with a slope of 58 binary digits ends the keeping of cuts side by side.
fn keeps_few_digits(alloc: Global, pools: &mut Pools) -> bool {
    pushes(alloc, pools, 0, 4, 1 << 57) && kept(pools, 0).is_none()
}

#[test]
fn keeps_cuts_side_by_side(rt: HostRuntime) -> Result<(), Fail> {
    let mut pools = Pools::new(rt.alloc(), 1)?;
    assert!(rt; keeps_two(rt.alloc(), &mut pools));
    assert!(rt; keeps_few_digits(rt.alloc(), &mut pools));
    keeps_one(&mut pools, 0);
    assert!(rt; box_maximum(&pools, ENDS) == Some(5) && kept(&pools, 0).is_none());
    Ok(())
}

// Tells whether these places are those by which all cuts of node 0 are covered.
fn are_covering(pools: &Pools, places: &[u32]) -> bool {
    if pools.nodes() == 0 {
        return false;
    }
    match pools.packed(0) {
        Some(cuts) => match cuts.active() {
            Some(active) => active.places == places,
            None => false,
        },
        None => false,
    }
}

// Tells whether covering cuts are kept: over [1, 10] the cut 3 + x is covered by 4 + x, and that one by 5 + x.
fn keeps_covering(alloc: Global, pools: &mut Pools) -> bool {
    pushes(alloc, pools, 0, 9, -2)
        && prepares(alloc, pools)
        && pushes(alloc, pools, 0, 4, 1)
        && pushes(alloc, pools, 0, 3, 1)
        && are_covering(pools, [0, 1].as_slice())
        && pushes(alloc, pools, 0, 5, 1)
        && are_covering(pools, [0, 3].as_slice())
}

// Tells whether the greatest slope of node 0 and the places of cuts with the fewest binary digits are these.
fn are_ends(pools: &Pools, greatest: &[i64], least: &[u32]) -> bool {
    if pools.nodes() == 0 {
        return false;
    }
    match pools.packed(0) {
        Some(cuts) => match cuts.ends() {
            Some(ends) => ends.greatest == greatest && ends.least == least,
            None => false,
        },
        None => false,
    }
}

// Tells whether the ends of slopes are kept: the level cut does not count, and the cut of slope -2 does not undercut that of -1.
fn keeps_ends(alloc: Global, pools: &mut Pools) -> bool {
    pushes(alloc, pools, 0, 9, 0)
        && prepares(alloc, pools)
        && pushes(alloc, pools, 0, 9, -2)
        && are_ends(pools, [2].as_slice(), [1].as_slice())
        && pushes(alloc, pools, 0, 4, -1)
        && are_ends(pools, [2].as_slice(), [1, 2].as_slice())
}

// Marks the first cut of node 0 and goes back to it once there are more.
fn goes_back_to_mark(alloc: Global, pools: &mut Pools) -> bool {
    if !pushes(alloc, pools, 0, 9, -2) || !prepares(alloc, pools) || pools.nodes() == 0 {
        return false;
    }
    pools.mark(0);
    let pushed = pushes(alloc, pools, 0, 4, 1) && are_covering(pools, [0, 1].as_slice());
    keeps_one(pools, 0);
    pushed && are_covering(pools, [0].as_slice()) && box_maximum(pools, ENDS) == Some(7)
}

#[test]
fn keeps_what_is_marked(rt: HostRuntime) -> Result<(), Fail> {
    let mut pools = Pools::new(rt.alloc(), 1)?;
    assert!(rt; goes_back_to_mark(rt.alloc(), &mut pools));
    Ok(())
}

#[test]
fn keeps_the_places_of_covering_cuts(rt: HostRuntime) -> Result<(), Fail> {
    let mut pools = Pools::new(rt.alloc(), 1)?;
    assert!(rt; keeps_covering(rt.alloc(), &mut pools));
    Ok(())
}

// The base of covering cuts in fewer digits, how far the height of one of them lies above it, and how far it falls with the first
// state.
fn coarse_numbers(cuts: &PackedCuts, place: usize) -> Option<(i64, u32, u16)> {
    let coarse = cuts.active()?.coarse?;
    let height = coarse.heights.get(place)?;
    let steep = coarse.steeps.first()?.as_slice().get(place)?;
    Some((coarse.base, *height, *steep))
}

// Gives these numbers of a covering cut of node 0.
fn coarse(pools: &Pools, place: usize) -> Option<(i64, u32, u16)> {
    if pools.nodes() > 0 {
        let cuts = pools.packed(0)?;
        coarse_numbers(&cuts, place)
    } else {
        None
    }
}

// Tells whether covering cuts are kept in fewer digits until one rises: of a state up to 10 go 12 digits, and so of 24 that heights
// get. The cut 9 - 2x is -11 at 10, the base. The cut 20 - 3x covers it, and is -10 there.
fn keeps_coarse(alloc: Global, pools: &mut Pools) -> bool {
    pushes(alloc, pools, 0, 9, -2)
        && prepares(alloc, pools)
        && coarse(pools, 0) == Some((-11 * 4096, 20 * 4096, 2))
        && pushes(alloc, pools, 0, 20, -3)
        && coarse(pools, 0) == Some((-10 * 4096, 30 * 4096, 3))
        && pushes(alloc, pools, 0, 30, 1)
        && coarse(pools, 0).is_none()
}

#[test]
fn keeps_covering_cuts_in_fewer_digits(rt: HostRuntime) -> Result<(), Fail> {
    let mut pools = Pools::new(rt.alloc(), 1)?;
    assert!(rt; keeps_coarse(rt.alloc(), &mut pools));
    Ok(())
}

#[test]
fn keeps_the_ends_of_slopes(rt: HostRuntime) -> Result<(), Fail> {
    let mut pools = Pools::new(rt.alloc(), 1)?;
    assert!(rt; keeps_ends(rt.alloc(), &mut pools));
    Ok(())
}

// A value that threads may send and share.
fn is_shared<T: Send + Sync>(_value: &T) -> bool {
    true
}

#[test]
fn threads_share_pools_and_cuts(rt: HostRuntime) -> Result<(), Fail> {
    assert!(rt; is_shared(&Pools::new(rt.alloc(), 1)?));
    assert!(rt; is_shared(&cut(rt.alloc(), 0, 0)?));
    Ok(())
}

#[test]
fn threads_share_certificates_and_entries(rt: HostRuntime) {
    let certificate = Certificate {
        rows: List::new(rt.alloc()),
        cuts: List::new(rt.alloc()),
    };
    let entry = Entry {
        iteration: 1,
        unanswered: 0,
        steps: List::new(rt.alloc()),
    };
    assert!(rt; is_shared(&certificate) && is_shared(&entry));
}
