// Answers of any size, which no solver gave.
ghost use Rattle.std.specs.Prelude.{◌≤◌, nat_abs};

use base_num::{List, Memory};
use lp_program::{Answer, Duals, Fx, Kind};
use std::alloc::Global;

/// A number from -504 to 504 that differs from place to place and from answer to answer.
fn scattered(place: usize, turn: u32) -> i128
    ensures { nat_abs result ≤ 504 }
{
    let mixed = (place as u64)
        .wrapping_mul(7919)
        .wrapping_add(u64::from(turn).wrapping_mul(104_729));
    i128::from(mixed % 1009) - 504
}

/// The dual of a node's own row, below a half.
fn own_dual(place: usize, turn: u32) -> Fx {
    Fx(scattered(place, turn) * (1 << 22))
}

/// The dual of a cut: so small that some thousand cuts share a successor's weight.
fn cut_dual(place: usize, turn: u32) -> Fx {
    Fx(scattered(place, turn) * (1 << 14))
}

/// A claimed solution with duals for so many own rows and so many cuts, and no point.
pub fn answer(alloc: Global, own: usize, cuts: usize, turn: u32) -> Result<Answer, Memory> {
    let mut duals = List::new(alloc);
    for place in 0..own {
        duals.push(own_dual(place, turn))?;
    }
    for place in 0..cuts {
        duals.push(cut_dual(place, turn))?;
    }
    Ok(Answer {
        kind: Kind::Found,
        point: List::new(alloc),
        duals: Duals::new(alloc, duals),
    })
}
