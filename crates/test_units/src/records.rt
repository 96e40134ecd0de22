// Entries as bytes, and their reading.
ghost use Rattle.std.specs.Prelude.{◌≤◌, ◌^◌, [], ◌∷◌, length};
ghost use Rattle.journal_record.specs.Spelling.{spell};
ghost use Rattle.journal_record.specs.Shape.{Writable};

use crate::problems::TWO_ROWS;
use cut_pool::{Entry, EntryStep, Spares};
use journal_record::{EntryFault, decode, decode_batch, decode_batch_with, encode, encode_batch};
use problem::Problem;
use read_file::read_problem;
use std::alloc::Global;
use std::process::Abort;

// One step at node 0, whose two realizations have the multipliers -83886080 and 83886080.
const PAYLOAD: [u8; 44] = [
    0, 0, 0, 1, 0, 0, 0, 0, 0, 1, 0, 0, //
    255, 255, 255, 255, 251, 0, 0, 0, 0, 0, 0, 0, 5, 0, 0, 0, //
    255, 255, 255, 255, 251, 0, 0, 0, 0, 0, 0, 0, 5, 0, 0, 0,
];

// The payload twice.
fn twice() -> [u8; 88] {
    let mut bytes = [0; 88];
    for (i, byte) in bytes.iter_mut().enumerate() {
        *byte = PAYLOAD[i % 44];
    }
    bytes
}

// The place of the fault in the first bytes of the payload twice, with one byte set.
fn place(
    alloc: Global,
    problem: &Problem,
    batch: u16,
    length: usize,
    at: usize,
    value: u8,
) -> Option<u32> {
    let mut bytes = twice();
    if let Some(byte) = bytes.get_mut(at) {
        *byte = value;
    }
    let payload = bytes.get(..length)?;
    match decode_batch(alloc, problem, 1, batch, payload) {
        Err(EntryFault::Bad { place }) => Some(place),
        _ => None,
    }
}

// Tells whether these are the multipliers -83886080 and 83886080 at both realizations of node 0.
fn is_step(step: &EntryStep) -> bool {
    step.node == 0
        && step.list.len() == 2
        && step.list.as_slice().iter().all(|certificate| certificate.rows.as_slice()
            == [-83886080, 83886080].as_slice())
}

fn written(alloc: Global, problem: &Problem, entry: Entry) -> bool
    requires shape { Writable problem.now entry }
    requires short { length (spell (entry ∷ [])) ≤ 2 ^ 26 }
{
    match encode(alloc, problem, &entry) {
        Ok(bytes) => bytes.as_slice() == PAYLOAD.as_slice(),
        Err(_) => false,
    }
}

fn comes_again(alloc: Global, problem: &Problem) -> bool {
    match decode(alloc, problem, 1, &PAYLOAD) {
        Ok(entry) => {
            let read = entry.unanswered == 0 && entry.steps.as_slice().iter().all(is_step);
            read && written(alloc, problem, entry)
        }
        Err(_) => false,
    }
}

fn come_again(alloc: Global, problem: &Problem) -> bool {
    let payload = twice();
    let Ok(list) = decode_batch(alloc, problem, 1, 2, &payload) else {
        return false;
    };
    match encode_batch(alloc, problem, list.as_slice()) {
        Ok(bytes) => bytes.as_slice() == payload.as_slice(),
        Err(_) => false,
    }
}

// The second reading finds the memory of what the first one read.
fn come_again_in_its_memory(alloc: Global, problem: &Problem) -> bool {
    let payload = twice();
    let mut spares = Spares::new(alloc);
    let Ok(first) = decode_batch_with(alloc, &mut spares, problem, 1, 2, &payload) else {
        return false;
    };
    spares.give_back(first);
    let Ok(list) = decode_batch_with(alloc, &mut spares, problem, 1, 2, &payload) else {
        return false;
    };
    match encode_batch(alloc, problem, list.as_slice()) {
        Ok(bytes) => bytes.as_slice() == payload.as_slice(),
        Err(_) => false,
    }
}

fn come_again_of_two(alloc: Global) -> bool {
    match read_problem(alloc, TWO_ROWS) {
        Ok(problem) => {
            comes_again(alloc, &problem)
                && come_again(alloc, &problem)
                && come_again_in_its_memory(alloc, &problem)
        }
        Err(_) => false,
    }
}

#[test]
fn reads_and_writes(rt: HostRuntime) {
    assert!(rt; come_again_of_two(rt.alloc()));
}

// A batch, how many bytes are read, the byte that is set, its value, and the place of the fault.
const PLACES: [(u16, usize, usize, u8, Option<u32>); 10] = [
    (2, 88, 88, 0, None),
    (2, 88, 47, 2, Some(44)),
    (1, 45, 45, 0, Some(44)),
    (1, 44, 11, 1, Some(10)),
    (1, 44, 9, 0, Some(8)),
    (1, 44, 9, 2, Some(8)),
    (1, 44, 3, 2, Some(0)),
    (1, 43, 43, 0, Some(36)),
    (1, 11, 11, 0, Some(10)),
    (1, 0, 0, 0, Some(0)),
];

fn assert_places(rt: &impl Abort, alloc: Global, problem: &Problem) {
    for (batch, length, at, value, wanted) in &PLACES {
        let found = place(alloc, problem, *batch, *length, *at, *value);
        assert_eq!(rt; found, *wanted, "{length} bytes, byte {at} set to {value}");
    }
}

fn assert_places_of_two(rt: &impl Abort, alloc: Global) -> bool {
    match read_problem(alloc, TWO_ROWS) {
        Ok(problem) => {
            assert_places(rt, alloc, &problem);
            true
        }
        Err(_) => false,
    }
}

#[test]
fn tells_the_place_of_a_fault(rt: HostRuntime) {
    assert!(rt; assert_places_of_two(&rt, rt.alloc()));
}
