// Solvers that are not the program's, and answers that are no solver's.
use base_num::{List, Memory};
use lp_program::{Answer, Duals, Fx, Kind};
use std::alloc::Global;

/// A solver that is not the program's.
#[derive(Clone, Copy)]
pub enum Named {
    /// Answers without work.
    Zero,
    /// Answers without work; after so many solves two of them are to meet.
    Meeting(u64),
    /// Claims huge duals of a solution, or of a ray.
    Liar(Kind),
}

/// The solver that a kind of rows is named after.
pub fn by_name(name: &str) -> Option<Named> {
    match name {
        "zero" => Some(Named::Zero),
        "meeting-walks" => Some(Named::Meeting(0)),
        "meeting-halves" => Some(Named::Meeting(1)),
        "wild" => Some(Named::Liar(Kind::Found)),
        "ray" => Some(Named::Liar(Kind::Ray)),
        _ => None,
    }
}

/// An answer of a kind with far too many numbers, and far too large ones.
pub fn wild(alloc: Global, kind: Kind) -> Result<Answer, Memory> {
    let mut duals = List::new(alloc);
    for i in 0..40u32 {
        duals.push(Fx((i128::from(i) - 20) << 90))?;
    }
    Ok(Answer {
        kind,
        point: List::new(alloc),
        duals: Duals::new(alloc, duals),
    })
}
