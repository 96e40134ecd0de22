// A journal, loaded from a disk.
ghost use Rattle.std.specs.Prelude.{◌≡◌, ◌⊎◌, ◌≤◌, List, [], IfOk, IfSome, Ok, Err, None};
ghost use Rattle.base_device.specs.Disks.{Stays};
ghost use Rattle.theory.specs.Range.{based};
ghost use Rattle.cut_pool.specs.declared.entry.Entry.{Entry};
ghost use Rattle.journal_file.specs.Causes.{DiskCause};
ghost use Rattle.journal_load.specs.declared.refusal.LoadFault.TheVariants as faults;
ghost use Rattle.journal_load.specs.Refusals.{LoadGives};
ghost use Rattle.journal_load.specs.Records.{AreListsKept};
ghost use Rattle.journal_load.specs.Load.{LoadsAs, first_commit_byte, found_in, load_records, load_of, outcome_of, seen_outcome, uncommitted};
ghost use Rattle.journal_load.specs.Accepted.{Accepted, IsSafe};
ghost use Rattle.journal_file.specs.Layout.{new_title};

use crate::keeping::{Dropping, Keeper};
use crate::loaded::Loaded;
use crate::records::{Gathered, Layout, read_records};
use crate::refusal::LoadFault;
use crate::title::check_title;
use crate::values::root_values;
use base_device::Disk;
use base_num::List;
use cut_pool::{Entry, Pools};
use journal_file::{Head, read_head};
use problem::Problem;
use std::alloc::Global;

/// The title that is asked of a journal.
#[derive(Clone, Copy)]
pub struct Asked<'a> {
    /// Of the problem's bytes (SHA-256).
    pub digest: &'a [u8; 32],
    pub seed: Option<u64>,
    /// The paths of an iteration, 1 to 64.
    pub batch: Option<u16>,
}

/// The version of a journal, and the paths of its iterations.
#[derive(Clone, Copy)]
struct Version {
    number: u16,
    batch: u16,
}

// The version and the batch that a journal is begun with.
fn new_title(batch: Option<u16>) -> (u16, u16)
    requires { IfSome batch (λ b. (1 ≤ b) × (b ≤ 64)) }
    ensures version { result.0 ≡ (new_title [] 0 batch).version }
    ensures batch { result.1 ≡ (new_title [] 0 batch).batch }
    ensures known { ((result.0 ≡ 1) × (result.1 ≡ 1)) ⊎ ((result.0 ≡ 2) × (1 ≤ result.1) × (result.1 ≤ 64)) }
{
    match batch {
        Some(batch) => (2, batch),
        None => (1, 1),
    }
}

/// The place of the first commit byte of a journal of version 1 or 2.
pub fn first_commit_byte(version: u16) -> u64
    ensures value { result ≡ first_commit_byte version }
    ensures near { result ≤ 54 }
{
    if version == 2 { 53 } else { 51 }
}

// Gives the outcome of a journal that is not committed.
fn load_uncommitted(alloc: Global, problem: &Problem, base: Pools, batch: Option<u16>) -> Loaded
    requires base { based problem.now ≡ Ok base.lists }
    requires batch { IfSome batch (λ b. (1 ≤ b) × (b ≤ 64)) }
    ensures value { seen_outcome result ≡ uncommitted base.lists batch }
    ensures accepted { Accepted problem.now base.lists [] (found_in result) }
    ensures safe { IsSafe problem.now result }
{
    let _ = problem.parts();
    let (version, batch) = new_title(batch);
    Loaded {
        pools: base,
        bounds: List::new(alloc),
        unanswered: 0,
        committed: false,
        end: 0,
        tail: 0,
        version,
        batch,
    }
}

// Loads a journal that is committed, with its version and batch.
fn load_committed<D: Disk, K: Keeper>(
    alloc: Global,
    problem: &Problem,
    base: Pools,
    disk: &mut D,
    version: Version,
    keep: &mut K,
) -> Result<Loaded, LoadFault>
    requires base { based problem.now ≡ Ok base.lists }
    requires version { ((version.number ≡ 1) × (version.batch ≡ 1)) ⊎ ((version.number ≡ 2) × (1 ≤ version.batch) × (version.batch ≤ 64)) }
    requires empty { AreListsKept (K.kept keep.old) [] }
    ensures value { IfSome (D.store disk.old).reads (λ bytes.
        LoadsAs (K.kept keep.new) result (load_records problem.now base.lists bytes version.number version.batch)) }
    ensures accepted { IfOk result (λ l. (lists : List (List Entry)) × AreListsKept (K.kept keep.new) lists × Accepted problem.now base.lists lists (found_in l)) }
    ensures safe { IfOk result (IsSafe problem.now) }
    ensures stays { Stays (D.store disk.old) (D.store disk.new) }
    ensures cause { DiskCause (D.faults disk.old) (D.faults disk.new) (result ≡ Err faults.DiskFault) }
{
    let _ = problem.parts();
    let Version { number, batch } = version;
    let layout = Layout {
        first: first_commit_byte(number),
        batch,
    };
    let values = root_values(alloc, problem, &base)?;
    let mut found = Gathered {
        pools: base,
        values,
        bounds: List::new(alloc),
        unanswered: 0,
    };
    let end = read_records(alloc, problem, disk, layout, &mut found, keep)?;
    let Gathered {
        pools,
        values: _,
        bounds,
        unanswered,
    } = found;
    Ok(Loaded {
        pools,
        bounds,
        unanswered,
        committed: true,
        end: end.end,
        tail: end.tail,
        version: number,
        batch,
    })
}

// Loads a journal, and hands the entries of each record to a keeper.
fn load_with<D: Disk, K: Keeper>(
    alloc: Global,
    problem: &Problem,
    base: Pools,
    disk: &mut D,
    asked: &Asked,
    keep: &mut K,
) -> Result<Loaded, LoadFault>
    requires base { based problem.now ≡ Ok base.lists }
    requires batch { IfSome asked.now.batch (λ b. (1 ≤ b) × (b ≤ 64)) }
    requires empty { AreListsKept (K.kept keep.old) [] }
    ensures value { IfSome (D.store disk.old).reads (λ bytes.
        LoadsAs (K.kept keep.new) result (load_of problem.now base.lists asked.now.digest.now asked.now.seed asked.now.batch bytes)) }
    ensures accepted { IfOk result (λ l. (lists : List (List Entry)) × AreListsKept (K.kept keep.new) lists × Accepted problem.now base.lists lists (found_in l)) }
    ensures safe { IfOk result (IsSafe problem.now) }
    ensures stays { Stays (D.store disk.old) (D.store disk.new) }
    ensures cause { DiskCause (D.faults disk.old) (D.faults disk.new) (result ≡ Err faults.DiskFault) }
{
    match read_head(disk)? {
        Head::Uncommitted { .. } => Ok(load_uncommitted(alloc, problem, base, asked.batch)),
        Head::Committed {
            version: number,
            digest,
            seed,
            batch,
        } => {
            check_title(asked.digest, asked.seed, asked.batch, &digest, seed, batch)?;
            load_committed(alloc, problem, base, disk, Version { number, batch }, keep)
        }
    }
}

/// Loads a journal over the base cuts of a problem: each step of each record is checked by its certificates over the cuts so
/// far, and its cut appended. A digest of the problem's bytes is asked, and perhaps a seed and a batch, which a
/// journal that is not committed takes for its own.
///
/// The refusals come in this order: those of the head; `OtherProblem`; `OtherSeed`; `OtherBatch`; then of each record
/// `Short` with the place of its commit byte, `TooMany` at a commit byte of 1 behind 2,000 records, `TooMuch` by the formulas with as
/// many iterations as its number, `Short` with the place of its length, `BadLength`, `Short` with the place of its
/// payload, `BadRecord`, and `BadCertificate` at the first step that is not accepted. `DiskFault` comes only where the
/// disk's count of faults rose. `base` is dropped after a refusal.
///
/// The disk is only read, and not behind the commit byte of 0. One buffer serves all payloads, and the memory of a record's
/// entries serves those of later ones.
pub fn load<D: Disk>(
    alloc: Global,
    problem: &Problem,
    base: Pools,
    disk: &mut D,
    asked: &Asked,
) -> Result<Loaded, LoadFault>
    requires base { based problem.now ≡ Ok base.lists }
    requires batch { IfSome asked.now.batch (λ b. (1 ≤ b) × (b ≤ 64)) }
    ensures value { IfSome (D.store disk.old).reads (λ bytes.
        LoadGives seen_outcome result (outcome_of (load_of problem.now base.lists asked.now.digest.now asked.now.seed asked.now.batch bytes))) }

    // Over any disk.
    ensures safe { IfOk result (IsSafe problem.now) }
    ensures stays { Stays (D.store disk.old) (D.store disk.new) }
    ensures cause { DiskCause (D.faults disk.old) (D.faults disk.new) (result ≡ Err faults.DiskFault) }
{
    load_with(alloc, problem, base, disk, asked, &mut Dropping)
}

/// Like [`load`], without an asked seed and batch, and keeps the entries of each record, in order. Over any disk these are
/// accepted one after the other over the base cuts, and give the same outcome. After a refusal nothing is promised of `keep`,
/// which is empty at first.
pub fn load_keep<D: Disk>(
    alloc: Global,
    problem: &Problem,
    base: Pools,
    disk: &mut D,
    digest: &[u8; 32],
    keep: &mut List<List<Entry>>,
) -> Result<Loaded, LoadFault>
    requires base { based problem.now ≡ Ok base.lists }
    requires empty { keep.old ≡ [] }
    ensures value { IfSome (D.store disk.old).reads (λ bytes.
        LoadGives (λ l. (seen_outcome l, keep.new)) result (load_of problem.now base.lists digest.now None None bytes)) }

    // Over any disk.
    ensures accepted { IfOk result (λ l. Accepted problem.now base.lists keep.new (found_in l)) }
    ensures safe { IfOk result (IsSafe problem.now) }
    ensures stays { Stays (D.store disk.old) (D.store disk.new) }
    ensures cause { DiskCause (D.faults disk.old) (D.faults disk.new) (result ≡ Err faults.DiskFault) }
{
    let asked = Asked {
        digest,
        seed: None,
        batch: None,
    };
    load_with(alloc, problem, base, disk, &asked, keep)
}
