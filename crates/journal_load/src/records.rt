// The records of a journal.
ghost use Rattle.std.specs.Prelude.{◌≡◌, ◌≤◌, ◌<◌, ◌+◌, ◌^◌, ℕ, suc, List, [], length, IfOk, IfErr, IfSome, OnOk, Ok, Err, ◌≢◌};
ghost use Rattle.std.specs.List.{AllByRecursion, sum_by};
ghost use Rattle.base_device.specs.Disks.{Stays};
ghost use Rattle.problem.specs.Formulas.{too_much};
ghost use Rattle.theory.specs.Pools.{pool};
ghost use Rattle.theory.specs.Range.{based};
ghost use Rattle.cut_pool.specs.AtNodes.{PoolsFit};
ghost use Rattle.cut_pool.specs.declared.entry.Entry.{Entry};
ghost use Rattle.journal_record.specs.Shape.{IsBatch, Writable};
ghost use Rattle.journal_record.specs.Reading.{read_batch};
ghost use Rattle.journal_record.specs.declared.fault.EntryFault.TheVariants as bads;
ghost use Rattle.journal_file.specs.Causes.{DiskCause};
ghost use Rattle.journal_file.specs.CommitBytes.{payload_of};
ghost use Rattle.journal_load.specs.declared.refusal.LoadFault.TheVariants as faults;
ghost use Rattle.journal_load.specs.Refusals.{LoadGives, of_payload, of_entries, with_fault, within_formula};
ghost use Rattle.journal_load.specs.RootValues.{root_values};
ghost use Rattle.journal_load.specs.Records.{fresh_found, gathered_found, AreListsKept, EndsAs, record_added, record_entries_at, record_at, rest_at, records_at};
ghost use Rattle.journal_load.specs.Accepted.{IsSound, Accepted};

use crate::cuts::add_entries;
use crate::keeping::Keeper;
use crate::refusal::{JournalRefusal, LoadFault, of_entries, of_payload};
use crate::values::bound;
use base_device::Disk;
use base_num::List;
use cut_pool::{Entry, Pools, Spares};
use journal_file::{CommitByte, payload, read_commit_byte};
use journal_record::decode_batch_with;
use problem::{MOST_ITERATIONS, Problem};
use std::alloc::Global;

/// The outcome of the records so far.
#[derive(Drop)]
pub struct Gathered {
    /// The base cuts, and the cuts of the records.
    pub pools: Pools,
    /// The values of the root's successors at the initial state, by all of these cuts.
    pub values: List<i128>,
    /// The bound after each record.
    pub bounds: List<i128>,
    /// The sum of the unanswered solves that the entries state.
    pub unanswered: u64,
}

/// Where the records of a journal begin, and how many paths an iteration has.
#[derive(Clone, Copy)]
pub(crate) struct Layout {
    /// The place of the first commit byte.
    pub(crate) first: u64,
    pub(crate) batch: u16,
}

/// The memory that one record lends the next: its payload, and the lists of its entries.
#[derive(Drop)]
struct Buffers {
    alloc: Global,
    spares: Spares,
    payload: Vec<u8>,
}

/// Where the records end.
#[derive(Clone, Copy)]
pub(crate) struct End {
    /// The place of the commit byte of 0.
    pub(crate) end: u64,
    /// The number of bytes behind it.
    pub(crate) tail: u64,
}

// Checks the formulas with as many iterations as the record's number.
pub(crate) fn check_formulas(problem: &Problem, iteration: u32, batch: u16) -> Result<(), LoadFault>
    requires iteration { iteration ≤ 2001 }
    requires some { 1 ≤ batch }
    requires batch { batch ≤ 64 }
    ensures value { result ≡ within_formula (too_much problem.now iteration batch) }
    ensures own { IfErr result (λ fault. fault ≢ faults.DiskFault) }
{
    match problem.too_much(iteration, batch) {
        None => Ok(()),
        Some(formula) => Err(LoadFault::TooMuch(formula)),
    }
}

// Reads the payload behind the commit byte of 1 at a place into the buffer, over its old contents; answers the place of the next commit byte.
fn read_payload<D: Disk>(
    disk: &mut D,
    iteration: u32,
    at: u64,
    into: &mut Vec<u8>,
) -> Result<u64, LoadFault>
    requires { at ≤ 2 ^ 40 }
    ensures value { IfSome (D.store disk.old).reads (λ bytes.
        LoadGives (λ _. into.new.items) result (with_fault (of_payload iteration) (payload_of bytes at))) }
    ensures next { IfOk result (λ next. next ≡ at + 5 + length into.new.items) }
    ensures few { IfOk result (λ _. length into.new.items ≤ 2 ^ 26) }
    ensures stays { Stays (D.store disk.old) (D.store disk.new) }
    ensures cause { DiskCause (D.faults disk.old) (D.faults disk.new) (result ≡ Err faults.DiskFault) }
{
    match payload(disk, at, into) {
        Ok(next) => Ok(next),
        Err(fault) => Err(of_payload(iteration, fault)),
    }
}

// Decodes the entries of an iteration from a payload.
pub(crate) fn decode(
    alloc: Global,
    spares: &mut Spares,
    problem: &Problem,
    iteration: u32,
    batch: u16,
    payload: &[u8],
) -> Result<List<Entry>, LoadFault>
    requires { length payload.now ≤ 2 ^ 26 }
    ensures value { LoadGives (λ x. x) result
        (with_fault (λ place. of_entries iteration (bads.Bad place)) (read_batch problem.now iteration batch payload.now)) }
    ensures batch { IfOk result (λ list. IsBatch problem.now iteration batch list) }
    ensures own { IfErr result (λ fault. fault ≢ faults.DiskFault) }
{
    match decode_batch_with(alloc, spares, problem, iteration, batch, payload) {
        Ok(entries) => Ok(entries),
        Err(fault) => Err(of_entries(iteration, fault)),
    }
}

// The entries of the record whose commit byte of 1 stands at a place, and the place of the next commit byte.
fn entries_behind<D: Disk>(
    buffers: &mut Buffers,
    problem: &Problem,
    disk: &mut D,
    batch: u16,
    iteration: u32,
    at: u64,
) -> Result<(List<Entry>, u64), LoadFault>
    requires near { at ≤ 2 ^ 40 }
    requires iteration { iteration ≤ 2001 }
    requires some { 1 ≤ batch }
    requires batch { batch ≤ 64 }
    ensures value { IfSome (D.store disk.old).reads (λ bytes.
        LoadGives (λ x. x) result (record_entries_at problem.now batch bytes iteration at)) }
    ensures batch { IfOk result (λ x. IsBatch problem.now iteration batch x.0) }
    ensures next { IfOk result (λ x. x.1 ≤ at + 5 + 2 ^ 26) }
    ensures stays { Stays (D.store disk.old) (D.store disk.new) }
    ensures cause { DiskCause (D.faults disk.old) (D.faults disk.new) (result ≡ Err faults.DiskFault) }
{
    check_formulas(problem, iteration, batch)?;
    let next = read_payload(disk, iteration, at, &mut buffers.payload)?;
    let payload = buffers.payload.as_slice();
    let entries = decode(
        buffers.alloc,
        &mut buffers.spares,
        problem,
        iteration,
        batch,
        payload,
    )?;
    Ok((entries, next))
}

/// Sums the unanswered solves that the entries of an iteration, at most 64, state.
pub fn unanswered(entries: &[Entry]) -> u64
    requires { length entries.now ≤ 64 }
    ensures value { result ≡ sum_by (λ (e : Entry). e.unanswered) entries.now }
    ensures small { result ≤ 2 ^ 38 }
{
    let mut sum: u64 = 0;
    for entry in entries {
        sum += u64::from(entry.unanswered);
    }
    sum
}

// Adds the cuts of a record's entries, and then the bound.
#[tactic(auto, unfolding(crate::specs::Records::record_added))]
pub(crate) fn add_record(
    alloc: Global,
    problem: &Problem,
    entries: &[Entry],
    found: &mut Gathered,
) -> Result<(), LoadFault>
    requires writable { AllByRecursion (Writable problem.now) entries.now }
    requires few { length entries.now ≤ 64 }
    requires fit { PoolsFit problem.now found.old.pools.lists }
    requires cuts { (m : ℕ) → length (pool found.old.pools.lists m) ≤ 2 ^ 22 }
    requires unanswered { found.old.unanswered ≤ 2 ^ 50 }
    requires values { found.old.values ≡ root_values problem.now found.old.pools.lists }
    ensures value { LoadGives (λ _. gathered_found found.new) result (record_added problem.now (gathered_found found.old) entries.now) }
    ensures values { OnOk result (found.new.values ≡ root_values problem.now found.new.pools.lists) }
    ensures own { IfErr result (λ fault. fault ≢ faults.DiskFault) }
{
    let _ = problem.parts();
    add_entries(alloc, problem, &mut found.pools, &mut found.values, entries)?;
    found.unanswered += unanswered(entries);
    let bound = bound(problem, &found.pools, found.values.as_slice());
    found.bounds.push(bound)?;
    Ok(())
}

// Reads the record whose commit byte of 1 stands at a place, and adds it; answers its entries and the place of the next commit byte.
fn read_record<D: Disk>(
    buffers: &mut Buffers,
    problem: &Problem,
    disk: &mut D,
    batch: u16,
    at: u64,
    found: &mut Gathered,
) -> Result<(List<Entry>, u64), LoadFault>
    requires near { at ≤ 2 ^ 40 }
    requires some { 1 ≤ batch }
    requires batch { batch ≤ 64 }
    requires count { length found.old.bounds < 2000 }
    requires fit { PoolsFit problem.now found.old.pools.lists }
    requires cuts { (m : ℕ) → length (pool found.old.pools.lists m) ≤ 2 ^ 22 }
    requires unanswered { found.old.unanswered ≤ 2 ^ 50 }
    requires values { found.old.values ≡ root_values problem.now found.old.pools.lists }
    ensures value { IfSome (D.store disk.old).reads (λ bytes.
        LoadGives (λ x. (x.0, x.1, gathered_found found.new)) result (record_at problem.now batch bytes at (gathered_found found.old))) }
    ensures batch { IfOk result (λ x. IsBatch problem.now (suc (length found.old.bounds)) batch x.0) }
    ensures added { IfOk result (λ x. record_added problem.now (gathered_found found.old) x.0 ≡ Ok (gathered_found found.new)) }
    ensures values { OnOk result (found.new.values ≡ root_values problem.now found.new.pools.lists) }
    ensures next { IfOk result (λ x. x.1 ≤ at + 5 + 2 ^ 26) }
    ensures stays { Stays (D.store disk.old) (D.store disk.new) }
    ensures cause { DiskCause (D.faults disk.old) (D.faults disk.new) (result ≡ Err faults.DiskFault) }
{
    let iteration = found.bounds.len() as u32 + 1;
    let (entries, next) = entries_behind(buffers, problem, disk, batch, iteration, at)?;
    add_record(buffers.alloc, problem, entries.as_slice(), found)?;
    Ok((entries, next))
}

// The number of bytes behind the commit byte at a place where it is 0, none where it is 1.
fn rest_at<D: Disk>(disk: &mut D, at: u64) -> Result<Option<u64>, LoadFault>
    requires { at ≤ 2 ^ 40 }
    ensures value { IfSome (D.store disk.old).reads (λ bytes. LoadGives (λ tail. tail) result (rest_at bytes at)) }
    ensures stays { Stays (D.store disk.old) (D.store disk.new) }
    ensures cause { DiskCause (D.faults disk.old) (D.faults disk.new) (result ≡ Err faults.DiskFault) }
{
    match read_commit_byte(disk, at)? {
        CommitByte::Clear { tail } => Ok(Some(tail)),
        CommitByte::Set => Ok(None),
    }
}

/// Reads the records from the commit byte at a place on and adds them to what is found, which is the base cuts at first.
pub(crate) fn read_records<D: Disk, K: Keeper>(
    alloc: Global,
    problem: &Problem,
    disk: &mut D,
    layout: Layout,
    found: &mut Gathered,
    keep: &mut K,
) -> Result<End, LoadFault>
    requires near { layout.first ≤ 54 }
    requires some { 1 ≤ layout.batch }
    requires batch { layout.batch ≤ 64 }
    requires base { based problem.now ≡ Ok found.old.pools.lists }
    requires values { found.old.values ≡ root_values problem.now found.old.pools.lists }
    requires fresh { gathered_found found.old ≡ fresh_found found.old.pools.lists }
    requires empty { AreListsKept (K.kept keep.old) [] }
    ensures value { IfSome (D.store disk.old).reads (λ bytes.
        EndsAs (K.kept keep.new) (gathered_found found.new) result (records_at problem.now layout.batch bytes 2000 layout.first (fresh_found found.old.pools.lists) [])) }
    ensures accepted { IfOk result (λ e. (lists : List (List Entry)) × AreListsKept (K.kept keep.new) lists × Accepted problem.now found.old.pools.lists lists (gathered_found found.new)) }
    ensures sound { IfOk result (λ e. (i : ℕ) × (i ≤ 2000) × IsSound problem.now layout.batch i (gathered_found found.new)) }
    ensures end { IfOk result (λ e. e.end ≤ 2 ^ 38) }
    ensures stays { Stays (D.store disk.old) (D.store disk.new) }
    ensures cause { DiskCause (D.faults disk.old) (D.faults disk.new) (result ≡ Err faults.DiskFault) }
{
    let _ = problem.parts();
    let mut buffers = Buffers {
        alloc,
        spares: Spares::new(alloc),
        payload: Vec::new(alloc),
    };
    let mut at = layout.first;
    for _ in 0..MOST_ITERATIONS {
        if let Some(tail) = rest_at(disk, at)? {
            return Ok(End { end: at, tail });
        }
        let (entries, next) = read_record(&mut buffers, problem, disk, layout.batch, at, found)?;
        keep.keep(entries, &mut buffers.spares)?;
        at = next;
    }
    match rest_at(disk, at)? {
        Some(tail) => Ok(End { end: at, tail }),
        None => Err(LoadFault::Refused(JournalRefusal::TooMany)),
    }
}
