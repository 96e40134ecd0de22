// Entries, read from bytes.
ghost use Rattle.std.specs.Prelude.{◌≡◌, ◌<◌, ◌≤◌, ◌^◌, List, length, IfOk, Ok, [], ◌∷◌};
ghost use Rattle.cut_pool.specs.declared.entry.Entry.{Entry};
ghost use Rattle.journal_record.specs.Spelling.{spell};
ghost use Rattle.journal_record.specs.Shape.{IsBatch};
ghost use Rattle.journal_record.specs.Reading.{ReadingGives, Answers, IsNoText, OnBad, many, iteration_at, count_at, entry_at, entries_at, read_batch};

use crate::fault::{EntryFault, ReadFault};
use crate::numbers::{u16_at, u32_at};
use crate::sizes::validated;
use crate::steps::steps;
use base_num::List;
use cut_pool::{Entry, Spares};
use problem::Problem;
use std::alloc::Global;

// The wanted iteration.
#[tactic(auto, unfolding(crate::specs::Reading::iteration_at))]
fn iteration_at(wanted: u32, bytes: &[u8]) -> Result<(u32, &[u8]), ReadFault>
    ensures { ReadingGives (λ x. (x.0, x.1.now)) result (iteration_at wanted bytes.now) }
{
    let (iteration, tail) = u32_at(bytes)?;
    if iteration != wanted {
        return Err(ReadFault::Bad { left: bytes.len() });
    }
    Ok((iteration, tail))
}

// The number of steps.
#[tactic(auto, unfolding(crate::specs::Reading::count_at))]
fn count_at<'a>(problem: &Problem, bytes: &'a [u8]) -> Result<(u16, &'a [u8]), ReadFault>
    ensures { ReadingGives (λ x. (x.0, x.1.now)) result (count_at problem.now bytes.now) }
{
    let (count, tail) = u16_at(bytes)?;
    if count == 0 || problem.longest() < count as u32 {
        return Err(ReadFault::Bad { left: bytes.len() });
    }
    Ok((count, tail))
}

#[tactic(auto, unfolding(crate::specs::Reading::entry_at))]
fn entry<'a>(
    alloc: Global,
    spares: &mut Spares,
    problem: &Problem,
    wanted: u32,
    bytes: &'a [u8],
) -> Result<(Entry, &'a [u8]), ReadFault>
    ensures { ReadingGives (λ x. (x.0, x.1.now)) result (entry_at problem.now wanted bytes.now) }
{
    let (iteration, tail) = iteration_at(wanted, bytes)?;
    let (unanswered, tail) = u32_at(tail)?;
    let (count, tail) = count_at(problem, tail)?;
    let (steps, tail) = steps(alloc, spares, problem, count as usize, tail)?;
    let entry = Entry {
        iteration,
        unanswered,
        steps,
    };
    Ok((entry, tail))
}

fn counted_entries<'a>(
    alloc: Global,
    spares: &mut Spares,
    problem: &Problem,
    wanted: u32,
    count: u16,
    bytes: &'a [u8],
) -> Result<(List<Entry>, &'a [u8]), ReadFault>
    ensures { ReadingGives (λ x. (x.0, x.1.now)) result (many (entry_at problem.now wanted) count bytes.now) }
{
    let mut found = Vec::with_capacity(alloc, (count as usize).min(bytes.len() / 10))?;
    let mut tail = bytes;
    for _ in 0..count {
        let (entry, after) = entry(alloc, spares, problem, wanted, tail)?;
        found.push(entry)?;
        tail = after;
    }
    Ok((List::from_vec(found), tail))
}

#[tactic(auto, unfolding(crate::specs::Reading::entries_at))]
fn entries(
    alloc: Global,
    spares: &mut Spares,
    problem: &Problem,
    wanted: u32,
    count: u16,
    bytes: &[u8],
) -> Result<List<Entry>, ReadFault>
    ensures { ReadingGives (λ x. x) result (entries_at problem.now wanted count bytes.now) }
{
    let (entries, tail) = counted_entries(alloc, spares, problem, wanted, count, bytes)?;
    if !tail.is_empty() {
        return Err(ReadFault::Bad { left: tail.len() });
    }
    Ok(entries)
}

// The entries, or the offset of the first fault.
#[tactic(auto, unfolding(crate::specs::Reading::read_batch))]
fn placed(
    alloc: Global,
    spares: &mut Spares,
    problem: &Problem,
    iteration: u32,
    batch: u16,
    payload: &[u8],
) -> Result<List<Entry>, EntryFault>
    requires { length payload.now ≤ 2 ^ 26 }
    ensures { Answers (λ x. x) result (read_batch problem.now iteration batch payload.now) }
{
    match entries(alloc, spares, problem, iteration, batch, payload) {
        Ok(entries) => Ok(entries),
        Err(ReadFault::Bad { left }) => {
            let place = payload.len().saturating_sub(left) as u32;
            Err(EntryFault::Bad { place })
        }
        Err(ReadFault::Memory) => Err(EntryFault::Memory),
    }
}

/// Reads the entries of a payload: so many, each of the iteration, with the problem's shape. Bad exactly where the payload
/// is the text of no such entries; its place is the offset of the first field that is not wholly there or has a
/// forbidden value, or of the first byte too many. Memory where memory was refused.
///
/// Forbidden are another iteration, no steps or more than the longest path has nodes, a node out of range, a node that
/// does not lead to that of the step before, and in the last step a node that is no successor of the root.
pub fn decode_batch(
    alloc: Global,
    problem: &Problem,
    iteration: u32,
    batch: u16,
    payload: &[u8],
) -> Result<List<Entry>, EntryFault>
    requires { length payload.now ≤ 2 ^ 26 }
    // The entries that are read are a batch, and the payload is its text.
    ensures spelled { IfOk result (λ list. IsBatch problem.now iteration batch list × (payload.now ≡ spell list)) }
    // The text of a batch is read as the batch.
    ensures again { (list : List Entry) → IsBatch problem.now iteration batch list → payload.now ≡ spell list → Answers (λ x. x) result (Ok list) }
    ensures bad { OnBad result (IsNoText problem.now iteration batch payload.now) }
    // The place is the one that the definition gives.
    ensures exact { Answers (λ x. x) result (read_batch problem.now iteration batch payload.now) }
{
    let mut spares = Spares::new(alloc);
    decode_batch_with(alloc, &mut spares, problem, iteration, batch, payload)
}

/// Like [`decode_batch`], where the lists of certificates take the memory of entries that are done with.
pub fn decode_batch_with(
    alloc: Global,
    spares: &mut Spares,
    problem: &Problem,
    iteration: u32,
    batch: u16,
    payload: &[u8],
) -> Result<List<Entry>, EntryFault>
    requires { length payload.now ≤ 2 ^ 26 }
    ensures spelled { IfOk result (λ list. IsBatch problem.now iteration batch list × (payload.now ≡ spell list)) }
    ensures again { (list : List Entry) → IsBatch problem.now iteration batch list → payload.now ≡ spell list → Answers (λ x. x) result (Ok list) }
    ensures bad { OnBad result (IsNoText problem.now iteration batch payload.now) }
    ensures exact { Answers (λ x. x) result (read_batch problem.now iteration batch payload.now) }
{
    validated(problem);
    placed(alloc, spares, problem, iteration, batch, payload)
}

/// The one entry of a payload, as [`decode_batch`] reads it.
pub fn decode(
    alloc: Global,
    problem: &Problem,
    iteration: u32,
    payload: &[u8],
) -> Result<Entry, EntryFault>
    requires { length payload.now ≤ 2 ^ 26 }
    ensures spelled { IfOk result (λ entry. IsBatch problem.now iteration 1 (entry ∷ []) × (payload.now ≡ spell (entry ∷ []))) }
    ensures again { (entry : Entry) → IsBatch problem.now iteration 1 (entry ∷ []) → payload.now ≡ spell (entry ∷ []) → Answers (λ x. x) result (Ok entry) }
    ensures bad { OnBad result (IsNoText problem.now iteration 1 payload.now) }
    ensures exact { Answers (λ entry. entry ∷ []) result (read_batch problem.now iteration 1 payload.now) }
{
    let list = decode_batch(alloc, problem, iteration, 1, payload)?;
    let mut entries = list.into_vec();
    Ok(entries.remove(0))
}
