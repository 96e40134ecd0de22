// How a file becomes a journal.
ghost use Rattle.std.specs.Prelude.{◌≡◌, ◌≤◌, ◌<◌, ◌+◌, ◌++◌, ℕ, List, [], ◌∷◌, length, take, drop, is_some, IfOk, IfSome, OnOk};
ghost use Rattle.std.specs.Option.{option_map};
ghost use Rattle.base_device.specs.Causes.{HasCause};
ghost use Rattle.base_device.specs.Since.{Quiet, LeavesOnly};
ghost use Rattle.journal_file.specs.Head.{IsUncommitted};
ghost use Rattle.journal_file.specs.Layout.{title_bytes, head_length, journal, new_title, shared_title};
ghost use Rattle.journal_file.specs.IsPrefix.{IsPrefix, LeavesPrefix};

use crate::commit_byte::byte_at;
use crate::head::MAGIC;
use crate::writing::{cut_to, put};
use base_device::{Disk, Failed};

/// Makes a journal without records of a file that is no journal yet: of version 1, or of version 2 where
/// an iteration has a batch of paths. First the header's commit byte is 0 and the file no longer than the head; then
/// the head is written behind it; then the header's commit byte becomes 1, with a sync after each. `Failed` comes
/// only where the disk's count of faults rose. It takes no memory.
pub fn commit_header<D: Disk>(
    disk: &mut D,
    digest: &[u8; 32],
    seed: u64,
    batch: Option<u16>,
) -> Result<(), Failed>
    requires uncommitted { IfSome (D.store disk.old).reads IsUncommitted }
    requires quiet { Quiet (D.store disk.old) }
    requires batch { IfSome batch (λ paths. (1 ≤ paths) × (paths ≤ 64)) }

    // A crash at any moment leaves a file that is no journal yet, or the journal.
    ensures any_moment { IfSome (D.store disk.old).reads (λ bytes.
        (payloads : List (List ℕ)) → IsPrefix (new_title digest.now seed batch) payloads 0 bytes
        → LeavesOnly (D.store disk.old) (D.store disk.new) (IsPrefix (new_title digest.now seed batch) payloads 0)) }
    ensures reads { OnOk result ((D.store disk.new).reads
        ≡ option_map (λ _. journal (new_title digest.now seed batch) [] 0 []) (D.store disk.old).reads) }
    ensures quiet { OnOk result (Quiet (D.store disk.new)) }
    ensures observable { is_some (D.store disk.new).reads ≡ is_some (D.store disk.old).reads }
    ensures cause { HasCause (D.faults disk.old) (D.faults disk.new) result }
{
    let (head, count) = new_head(digest, seed, batch);
    clear(disk, count)?;
    put(disk, 1, &head[1..count])?;
    put(disk, 0, &[1])
}

// Makes the header's commit byte 0 and the file no longer than a head.
fn clear<D: Disk>(disk: &mut D, most: usize) -> Result<(), Failed>
    requires some { (1 ≤ most) × (most ≤ 54) }
    requires uncommitted { IfSome (D.store disk.old).reads IsUncommitted }
    requires quiet { Quiet (D.store disk.old) }
    ensures any_moment { LeavesPrefix (D.store disk.old) (D.store disk.new) }
    ensures reads { OnOk result ((D.store disk.new).reads
        ≡ option_map (λ bytes. take most (0 ∷ drop 1 bytes)) (D.store disk.old).reads) }
    ensures quiet { OnOk result (Quiet (D.store disk.new)) }
    ensures observable { is_some (D.store disk.new).reads ≡ is_some (D.store disk.old).reads }
    ensures cause { HasCause (D.faults disk.old) (D.faults disk.new) result }
{
    let len = unmark(disk)?;
    if len > most as u64 {
        return cut_to(disk, most as u64);
    }
    Ok(())
}

// Makes the header's commit byte 0, and answers the length that the disk had.
fn unmark<D: Disk>(disk: &mut D) -> Result<u64, Failed>
    requires uncommitted { IfSome (D.store disk.old).reads IsUncommitted }
    requires quiet { Quiet (D.store disk.old) }
    ensures any_moment { LeavesPrefix (D.store disk.old) (D.store disk.new) }
    ensures reads { OnOk result ((D.store disk.new).reads
        ≡ option_map (λ bytes. 0 ∷ drop 1 bytes) (D.store disk.old).reads) }
    ensures length { IfOk result (λ len. IfSome (D.store disk.old).reads (λ bytes. len ≡ length bytes)) }
    ensures quiet { OnOk result (Quiet (D.store disk.new)) }
    ensures observable { is_some (D.store disk.new).reads ≡ is_some (D.store disk.old).reads }
    ensures cause { HasCause (D.faults disk.old) (D.faults disk.new) result }
{
    let (byte, len) = byte_at(disk, 0)?;
    if len <= 1 || byte != 0 {
        put(disk, 0, &[0])?;
    }
    Ok(len)
}

// The head of a new journal with a header's commit byte and a first commit byte of 0, and its length.
fn new_head(digest: &[u8; 32], seed: u64, batch: Option<u16>) -> ([u8; 54], usize)
    ensures bytes { take result.1 result.0 ≡ 0 ∷ title_bytes (new_title digest.now seed batch) ++ 0 ∷ [] }
    ensures count { result.1 ≡ head_length (new_title digest.now seed batch).version }
{
    let mut head = [0; 54];
    match batch {
        None => {
            let at = fill_title(&mut head, 1, digest, seed);
            let count = fill(&mut head, at, &[0]);
            (head, count)
        }
        Some(paths) => {
            let at = fill_title(&mut head, 2, digest, seed);
            let behind = fill(&mut head, at, &paths.to_be_bytes());
            let count = fill(&mut head, behind, &[0]);
            (head, count)
        }
    }
}

// Writes the bytes that each version has behind the header's commit byte, and answers the place behind them.
fn fill_title(head: &mut [u8; 54], version: u16, digest: &[u8; 32], seed: u64) -> usize
    ensures bytes { take result head.new ≡ take 1 head.old ++ shared_title version digest.now seed }
    ensures place { result ≡ 51 }
{
    let version_at = fill(head, 1, &MAGIC);
    let digest_at = fill(head, version_at, &version.to_be_bytes());
    let seed_at = fill(head, digest_at, digest);
    fill(head, seed_at, &seed.to_be_bytes())
}

// Writes a piece behind the first `at` bytes, and answers the place behind it.
fn fill(bytes: &mut [u8; 54], at: usize, piece: &[u8]) -> usize
    requires { at + length piece.now ≤ 54 }
    ensures bytes { take result bytes.new ≡ take at bytes.old ++ piece.now }
    ensures place { result ≡ at + length piece.now }
{
    let end = at + piece.len();
    bytes[at..end].copy_from_slice(piece);
    end
}
