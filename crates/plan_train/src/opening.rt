// The journal's end, made ready for the next record.
ghost use Rattle.std.specs.Prelude.{◌≡◌, ◌⊎◌, ◌<◌, ◌≤◌, ◌^◌, ◌++◌, ◌∷◌, [], ℕ, List, true, false, length, is_some, option_map, IfSome, OnOk, None, Some};
ghost use Rattle.base_device.specs.Causes.{HasCause};
ghost use Rattle.base_device.specs.Since.{Quiet, LeavesOnly};
ghost use Rattle.journal_file.specs.CommitBytes.{IsClearAt};
ghost use Rattle.journal_file.specs.Head.{IsUncommitted};
ghost use Rattle.journal_file.specs.Layout.{new_title};
ghost use Rattle.journal_load.specs.Load.{seen_outcome};
ghost use Rattle.plan_train.specs.Training.{IsPrefixFrom, HoldsPrefix, loaded_front, opened, title_of};

use base_device::{Disk, Failed};
use journal_file::{commit_header, recover};
use journal_load::{Loaded, first_commit_byte};

/// The batch with which the journal is committed: none for version 1.
fn batch_of(loaded: &Loaded) -> Option<u16>
    requires { ((loaded.now.version ≡ 1) × (loaded.now.batch ≡ 1)) ⊎ ((loaded.now.version ≡ 2) × (1 ≤ loaded.now.batch) × (loaded.now.batch ≤ 64)) }
    ensures title { (digest : List ℕ) (seed : ℕ) → new_title digest seed result ≡ title_of digest seed (seen_outcome loaded.now) }
    ensures batch { IfSome result (λ b. (1 ≤ b) × (b ≤ 64)) }
{
    if loaded.version == 2 {
        Some(loaded.batch)
    } else {
        None
    }
}

/// Makes a journal of what is not one yet.
fn open_new<D: Disk>(
    disk: &mut D,
    digest: &[u8; 32],
    seed: u64,
    loaded: &mut Loaded,
) -> Result<(), Failed>
    requires version { ((loaded.old.version ≡ 1) × (loaded.old.batch ≡ 1)) ⊎ ((loaded.old.version ≡ 2) × (1 ≤ loaded.old.batch) × (loaded.old.batch ≤ 64)) }
    requires committed { loaded.old.committed ≡ false }
    requires uncommitted { IfSome (D.store disk.old).reads IsUncommitted }
    requires quiet { Quiet (D.store disk.old) }
    ensures value { OnOk result (seen_outcome loaded.new ≡ opened (seen_outcome loaded.old)) }
    ensures reads { OnOk result ((D.store disk.new).reads
        ≡ option_map (λ bytes. loaded_front digest.now seed (seen_outcome loaded.old) bytes ++ 0 ∷ []) (D.store disk.old).reads) }
    ensures quiet { OnOk result (Quiet (D.store disk.new)) }
    ensures any_moment { IfSome (D.store disk.old).reads (λ bytes. (ps : List (List ℕ)) (j : ℕ)
        → HoldsPrefix (title_of digest.now seed (seen_outcome loaded.old)) (seen_outcome loaded.old) ps j bytes
        → LeavesOnly (D.store disk.old) (D.store disk.new) (IsPrefixFrom (title_of digest.now seed (seen_outcome loaded.old)) ps j)) }
    ensures observable { is_some (D.store disk.new).reads ≡ is_some (D.store disk.old).reads }
    ensures cause { HasCause (D.faults disk.old) (D.faults disk.new) result }
{
    commit_header(disk, digest, seed, batch_of(loaded))?;
    loaded.committed = true;
    loaded.end = first_commit_byte(loaded.version);
    loaded.tail = 0;
    Ok(())
}

/// Repairs the end of a journal.
fn open_old<D: Disk>(
    disk: &mut D,
    digest: &[u8; 32],
    seed: u64,
    loaded: &mut Loaded,
) -> Result<(), Failed>
    requires committed { loaded.old.committed ≡ true }
    requires near { loaded.old.end ≤ 2 ^ 38 }
    requires clear { IfSome (D.store disk.old).reads (IsClearAt loaded.old.end) }
    requires quiet { Quiet (D.store disk.old) }
    ensures value { OnOk result (seen_outcome loaded.new ≡ opened (seen_outcome loaded.old)) }
    ensures reads { OnOk result ((D.store disk.new).reads
        ≡ option_map (λ bytes. loaded_front digest.now seed (seen_outcome loaded.old) bytes ++ 0 ∷ []) (D.store disk.old).reads) }
    ensures quiet { OnOk result (Quiet (D.store disk.new)) }
    ensures any_moment { IfSome (D.store disk.old).reads (λ bytes. (ps : List (List ℕ)) (j : ℕ)
        → HoldsPrefix (title_of digest.now seed (seen_outcome loaded.old)) (seen_outcome loaded.old) ps j bytes
        → LeavesOnly (D.store disk.old) (D.store disk.new) (IsPrefixFrom (title_of digest.now seed (seen_outcome loaded.old)) ps j)) }
    ensures observable { is_some (D.store disk.new).reads ≡ is_some (D.store disk.old).reads }
    ensures cause { HasCause (D.faults disk.old) (D.faults disk.new) result }
{
    recover(disk, loaded.end)?;
    loaded.tail = 0;
    Ok(())
}

/// Makes the journal end with a commit byte of 0: it commits the header where it is not committed yet, and else repairs the end.
pub(crate) fn open_end<D: Disk>(
    disk: &mut D,
    digest: &[u8; 32],
    seed: u64,
    loaded: &mut Loaded,
) -> Result<(), Failed>
    requires version { ((loaded.old.version ≡ 1) × (loaded.old.batch ≡ 1)) ⊎ ((loaded.old.version ≡ 2) × (1 ≤ loaded.old.batch) × (loaded.old.batch ≤ 64)) }
    requires near { loaded.old.end ≤ 2 ^ 38 }
    requires uncommitted { loaded.old.committed ≡ false → IfSome (D.store disk.old).reads IsUncommitted }
    requires clear { loaded.old.committed ≡ true → IfSome (D.store disk.old).reads (IsClearAt loaded.old.end) }
    requires quiet { Quiet (D.store disk.old) }
    ensures digest { length digest.now ≡ 32 }
    ensures seed { seed < 2 ^ 64 }
    ensures value { OnOk result (seen_outcome loaded.new ≡ opened (seen_outcome loaded.old)) }
    ensures reads { OnOk result ((D.store disk.new).reads
        ≡ option_map (λ bytes. loaded_front digest.now seed (seen_outcome loaded.old) bytes ++ 0 ∷ []) (D.store disk.old).reads) }
    ensures quiet { OnOk result (Quiet (D.store disk.new)) }
    ensures any_moment { IfSome (D.store disk.old).reads (λ bytes. (ps : List (List ℕ)) (j : ℕ)
        → HoldsPrefix (title_of digest.now seed (seen_outcome loaded.old)) (seen_outcome loaded.old) ps j bytes
        → LeavesOnly (D.store disk.old) (D.store disk.new) (IsPrefixFrom (title_of digest.now seed (seen_outcome loaded.old)) ps j)) }
    ensures observable { is_some (D.store disk.new).reads ≡ is_some (D.store disk.old).reads }
    ensures cause { HasCause (D.faults disk.old) (D.faults disk.new) result }
{
    if loaded.committed {
        open_old(disk, digest, seed, loaded)
    } else {
        open_new(disk, digest, seed, loaded)
    }
}
