// The bytes of a part's record, moved to where its cuts stand once they are joined (docs/use/FORMAT.md, The journal).
ghost use Rattle.std.specs.Prelude.{◌≡◌, ◌≤◌, ◌+◌, ◌<◌, ◌^◌, length, IfSome, IfOk};

use crate::ending::{Ending, RecordAt};
use crate::places::{NodePlaces, Places};
use base_num::big_endian;
use problem::Problem;

/// The part that made a record, its number there, and the one that it has once joined.
#[derive(Clone, Copy)]
pub(crate) struct Move {
    /// From 0.
    pub(crate) part: u16,
    pub(crate) was: u32,
    pub(crate) becomes: u32,
    pub(crate) at: RecordAt,
}

// The number of four bytes at a place.
fn u32_at(bytes: &[u8], at: usize) -> Option<u32>
    requires { at ≤ 2 ^ 32 }
    ensures { IfSome result (λ _. at + 4 ≤ length bytes.now) }
{
    if bytes.len() < at + 4 {
        return None;
    }
    Some(big_endian::u32_at(bytes, at))
}

// The number of two bytes at a place.
fn u16_at(bytes: &[u8], at: usize) -> Option<u16>
    requires { at ≤ 2 ^ 32 }
    ensures { IfSome result (λ _. at + 2 ≤ length bytes.now) }
{
    if bytes.len() < at + 2 {
        return None;
    }
    Some(big_endian::u16_at(bytes, at))
}

// Writes a number over the four bytes at a place.
fn write_u32(bytes: &mut [u8], at: usize, number: u32)
    requires { at + 4 ≤ length bytes.old }
    ensures { length bytes.new ≡ length bytes.old }
{
    bytes[at..at + 4].copy_from_slice(&number.to_be_bytes());
}

// Moves the place that a pair names.
fn move_pair(places: NodePlaces, payload: &mut [u8], at: usize) -> Option<()>
    requires { at ≤ 2 ^ 32 }
    ensures { length payload.new ≡ length payload.old }
{
    let place = u32_at(payload, at)?;
    let now = places.now(place)?;
    write_u32(payload, at, now);
    Some(())
}

// Moves the places of a list of pairs, and gives the place behind it.
fn move_pairs(places: NodePlaces, payload: &mut [u8], at: usize) -> Option<usize>
    requires short { length payload.old ≤ 2 ^ 26 }
    requires inside { at ≤ length payload.old }
    ensures same { length payload.new ≡ length payload.old }
    ensures inside { IfSome result (λ end. end ≤ length payload.old) }
{
    let count = u32_at(payload, at)? as usize;
    let first = at + 4;
    if count > (payload.len() - first) / 12 {
        return None;
    }
    for i in 0..count {
        move_pair(places, payload, first + 12 * i)?;
    }
    Some(first + 12 * count)
}

// Moves the places of a certificate of a node, and gives the place behind it.
fn move_certificate(
    problem: &Problem,
    places: &Places,
    part: u16,
    node: u32,
    payload: &mut [u8],
    at: usize,
) -> Option<usize>
    requires known { node < length problem.now.parts.nodes }
    requires short { length payload.old ≤ 2 ^ 26 }
    requires inside { at ≤ length payload.old }
    ensures same { length payload.new ≡ length payload.old }
    ensures inside { IfSome result (λ end. end ≤ length payload.old) }
{
    let rows = problem.sub(node).rows.len();
    if rows > (payload.len() - at) / 8 {
        return None;
    }
    let mut behind = at + 8 * rows;
    for successor in problem.node(node).successors.as_slice() {
        behind = move_pairs(places.of(part, *successor)?, payload, behind)?;
    }
    Some(behind)
}

// Moves the places of a node's certificates, one for each realization, and gives the place behind them.
fn move_certificates(
    problem: &Problem,
    places: &Places,
    part: u16,
    node: u32,
    payload: &mut [u8],
    at: usize,
) -> Option<usize>
    requires known { node < length problem.now.parts.nodes }
    requires short { length payload.old ≤ 2 ^ 26 }
    requires inside { at ≤ length payload.old }
    ensures same { length payload.new ≡ length payload.old }
    ensures inside { IfSome result (λ end. end ≤ length payload.old) }
{
    let mut behind = at;
    for _ in 0..problem.node(node).weights.len() {
        behind = move_certificate(problem, places, part, node, payload, behind)?;
    }
    Some(behind)
}

// Moves a step, counts its cut, and gives the place behind it.
fn move_step(
    problem: &Problem,
    places: &mut Places,
    moving: Move,
    payload: &mut [u8],
    at: usize,
) -> Result<usize, Ending>
    requires short { length payload.old ≤ 2 ^ 26 }
    requires inside { at ≤ length payload.old }
    ensures same { length payload.new ≡ length payload.old }
    ensures inside { IfOk result (λ end. end ≤ length payload.old) }
{
    let node = match u16_at(payload, at) {
        Some(node) if usize::from(node) < problem.parts().nodes.len() => u32::from(node),
        _ => return Err(Ending::RecordRefused(moving.at)),
    };
    let Some(end) = move_certificates(problem, places, moving.part, node, payload, at + 2) else {
        return Err(Ending::RecordRefused(moving.at));
    };
    places.count(moving.part, node, moving.at)?;
    Ok(end)
}

// Gives an entry its number, and answers how many steps it has.
fn renumber(moving: Move, payload: &mut [u8], at: usize) -> Option<u16>
    requires short { length payload.old ≤ 2 ^ 26 }
    requires inside { at ≤ length payload.old }
    ensures same { length payload.new ≡ length payload.old }
    ensures inside { IfSome result (λ _. at + 10 ≤ length payload.old) }
{
    let steps = u16_at(payload, at + 8)?;
    if u32_at(payload, at)? != moving.was {
        return None;
    }
    write_u32(payload, at, moving.becomes);
    Some(steps)
}

// Moves an entry, and gives the place behind it.
fn move_entry(
    problem: &Problem,
    places: &mut Places,
    moving: Move,
    payload: &mut [u8],
    at: usize,
) -> Result<usize, Ending>
    requires short { length payload.old ≤ 2 ^ 26 }
    requires inside { at ≤ length payload.old }
    ensures same { length payload.new ≡ length payload.old }
    ensures inside { IfOk result (λ end. end ≤ length payload.old) }
{
    let Some(steps) = renumber(moving, payload, at) else {
        return Err(Ending::RecordRefused(moving.at));
    };
    let mut behind = at + 10;
    for _ in 0..steps {
        behind = move_step(problem, places, moving, payload, behind)?;
    }
    Ok(behind)
}

/// Moves the entries of a record of so many paths: each pair names the place where its cut stands once joined, and the record
/// has the number that it gets there. Its own cuts are counted. Whether the bytes are a record is decided where it is added.
pub(crate) fn move_record(
    problem: &Problem,
    places: &mut Places,
    moving: Move,
    batch: u16,
    payload: &mut [u8],
) -> Result<(), Ending>
    requires { length payload.old ≤ 2 ^ 26 }
    ensures { length payload.new ≡ length payload.old }
{
    let mut behind = 0;
    for _ in 0..batch {
        behind = move_entry(problem, places, moving, payload, behind)?;
    }
    Ok(())
}
