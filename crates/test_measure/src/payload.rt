// A large payload, read many times.
use crate::fault::RowFault;
use crate::words::{count, number};
use base_num::Memory;
use journal_record::decode_batch;
use problem::Problem;
use std::alloc::Global;
use std::str::SplitWhitespace;

/// The fields of an entry before its multipliers: its iteration, what was unanswered, its steps and the step's node.
const FIELDS: [u8; 12] = [0, 0, 0, 1, 0, 0, 0, 0, 0, 1, 0, 0];

/// Bytes of the multipliers of 100 realizations with 200 rows each.
const MULTIPLIERS: u32 = 100 * 200 * 8;

const MOST_ENTRIES: u64 = 64;

const MOST_BYTES: usize = 1 << 26;

fn push_entry(payload: &mut Vec<u8>) -> Result<(), Memory> {
    payload.extend_from_slice(&FIELDS)?;
    for i in 0..MULTIPLIERS {
        payload.push((i % 251) as u8)?;
    }
    Ok(())
}

fn payload(alloc: Global, entries: u16) -> Result<Vec<u8>, Memory> {
    let mut payload = Vec::new(alloc);
    for _ in 0..entries {
        push_entry(&mut payload)?;
    }
    Ok(payload)
}

/// Counts the entries of the payload, 0 where it is not read.
fn entries_of(alloc: Global, problem: &Problem, entries: u16, payload: &[u8]) -> u64 {
    if MOST_BYTES < payload.len() {
        return 0;
    }
    match decode_batch(alloc, problem, 1, entries, payload) {
        Ok(list) => list.len() as u64,
        Err(_) => 0,
    }
}

fn total(alloc: Global, problem: &Problem, entries: u16, payload: &[u8], repeats: u32) -> u64 {
    let mut total = 0u64;
    for _ in 0..repeats {
        total = total.wrapping_add(entries_of(alloc, problem, entries, payload));
    }
    total
}

/// ENTRIES, at most 64.
fn entries(words: &mut SplitWhitespace<'_>) -> Result<u16, RowFault> {
    Ok(number(words)?.min(MOST_ENTRIES) as u16)
}

/// Counts the entries that ENTRIES REPEATS read: a payload of so many entries of 160 kB is read so often.
pub fn decoded(alloc: Global, problem: &Problem, words: &str) -> Result<String, RowFault> {
    let mut words = words.split_whitespace();
    let entries = entries(&mut words)?;
    let repeats = count(&mut words)?;
    let payload = payload(alloc, entries)?;
    let total = total(alloc, problem, entries, payload.as_slice(), repeats);
    Ok(format!(in alloc; "{total}\n")?)
}
