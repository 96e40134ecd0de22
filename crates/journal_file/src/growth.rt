// How a journal's end is repaired, and how it grows by a record.
ghost use Rattle.std.specs.Prelude.{◌≡◌, ◌≤◌, ◌<◌, ◌+◌, ◌^◌, ◌++◌, ℕ, List, [], ◌∷◌, length, take, get_or, is_some, IfOk, IfSome, OnOk};
ghost use Rattle.std.specs.Option.{option_map};
ghost use Rattle.base_device.specs.Causes.{HasCause};
ghost use Rattle.base_device.specs.Disks.{written};
ghost use Rattle.base_device.specs.Since.{Quiet, LeavesOnly};
ghost use Rattle.journal_file.specs.CommitBytes.{IsClearAt};
ghost use Rattle.journal_file.specs.Layout.{Title, body_of, journal, IsBody};
ghost use Rattle.journal_file.specs.IsPrefix.{IsGrownPrefix, LeavesGrown};

use crate::commit_byte::byte_at;
use crate::writing::{cut_to, put};
use base_device::{Disk, Failed};

/// Repairs the end of a journal whose commit byte of 0 stands at a place: the commit byte becomes 0, and what stands
/// behind it is cut off. `Failed` comes only where the disk's count of faults rose. It takes no memory.
pub fn recover<D: Disk>(disk: &mut D, at: u64) -> Result<(), Failed>
    requires near { at ≤ 2 ^ 40 }
    requires clear { IfSome (D.store disk.old).reads (IsClearAt at) }
    requires quiet { Quiet (D.store disk.old) }

    // A crash at any moment leaves a journal of the same records, or with the one whose commit byte was half written.
    ensures any_moment { LeavesGrown at (D.store disk.old) (D.store disk.new) }
    ensures reads { OnOk result ((D.store disk.new).reads
        ≡ option_map (λ bytes. take at bytes ++ 0 ∷ []) (D.store disk.old).reads) }
    ensures quiet { OnOk result (Quiet (D.store disk.new)) }
    ensures observable { is_some (D.store disk.new).reads ≡ is_some (D.store disk.old).reads }
    ensures cause { HasCause (D.faults disk.old) (D.faults disk.new) result }
{
    let len = clear_commit_byte(disk, at)?;
    if len > at + 1 {
        return cut_to(disk, at + 1);
    }
    Ok(())
}

// Makes the commit byte 0 where it is not, and answers the length that the disk had.
fn clear_commit_byte<D: Disk>(disk: &mut D, at: u64) -> Result<u64, Failed>
    requires near { at ≤ 2 ^ 40 }
    requires clear { IfSome (D.store disk.old).reads (IsClearAt at) }
    requires quiet { Quiet (D.store disk.old) }
    ensures any_moment { LeavesGrown at (D.store disk.old) (D.store disk.new) }
    ensures reads { OnOk result ((D.store disk.new).reads
        ≡ option_map (λ bytes. written bytes at (0 ∷ [])) (D.store disk.old).reads) }
    ensures length { IfOk result (λ len. IfSome (D.store disk.old).reads (λ bytes. len ≡ length bytes)) }
    ensures quiet { OnOk result (Quiet (D.store disk.new)) }
    ensures observable { is_some (D.store disk.new).reads ≡ is_some (D.store disk.old).reads }
    ensures cause { HasCause (D.faults disk.old) (D.faults disk.new) result }
{
    let (byte, len) = byte_at(disk, at)?;
    if byte != 0 {
        put(disk, at, &[0])?;
    }
    Ok(len)
}

/// Appends a record behind the commit byte of 0 at the journal's end: its body is written and synced, and then
/// its commit byte becomes 1 and synced. Answers the place of the next commit byte. `Failed` comes only where the disk's
/// count of faults rose. It takes no memory.
pub fn append<D: Disk>(disk: &mut D, at: u64, body: &[u8]) -> Result<u64, Failed>
    requires near { at ≤ 2 ^ 40 }
    requires last { IfSome (D.store disk.old).reads (λ bytes. (at < length bytes) × (bytes ≡ take at bytes ++ 0 ∷ [])) }
    requires quiet { Quiet (D.store disk.old) }
    requires body { IsBody body.now }

    // A crash at any moment leaves the journal as it was, with any rest, or with the record.
    ensures any_moment { IfSome (D.store disk.old).reads (λ bytes.
        (t : Title) (payloads : List (List ℕ)) (j : ℕ) → j < length payloads
        → bytes ≡ journal t (take j payloads) 0 [] → body.now ≡ body_of (get_or payloads j [])
        → LeavesOnly (D.store disk.old) (D.store disk.new) (IsGrownPrefix t payloads j)) }
    ensures next { IfOk result (λ next. next ≡ at + length body.now) }
    ensures reads { OnOk result ((D.store disk.new).reads
        ≡ option_map (λ bytes. take at bytes ++ 1 ∷ body.now) (D.store disk.old).reads) }
    ensures quiet { OnOk result (Quiet (D.store disk.new)) }
    ensures observable { is_some (D.store disk.new).reads ≡ is_some (D.store disk.old).reads }
    ensures cause { HasCause (D.faults disk.old) (D.faults disk.new) result }
{
    put(disk, at + 1, body)?;
    put(disk, at, &[1])?;
    Ok(at + body.len() as u64)
}
