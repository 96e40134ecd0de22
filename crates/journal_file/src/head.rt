// The head of a journal: whose records it holds.
ghost use Rattle.std.specs.Prelude.{◌≡◌, ◌≢◌, ◌⊎◌, ◌≤◌, ◌<◌, length, take, min, IfOk, IfSome, Err};
ghost use Rattle.base_device.specs.Causes.{HasCause};
ghost use Rattle.base_device.specs.Disks.{Stays};
ghost use Rattle.journal_file.specs.Head.{head_at, head_of, title_at, is_uncommitted, is_whole_head, has_magic, digest_of};
ghost use Rattle.journal_file.specs.Causes.{DiskCause};
ghost use Rattle.journal_file.specs.declared.head.HeadFault.TheVariants.{DiskFault};
ghost use Rattle.journal_file.specs.Versions.{IsKnown};

use base_device::{Disk, Failed};
use base_num::big_endian::{u16_at, u64_at};
use thiserror::Error;

/// HYDPLAN1, the bytes that follow the header's commit byte.
pub(crate) const MAGIC: [u8; 8] = [72, 89, 68, 80, 76, 65, 78, 49];

/// The head of a file that may become a journal, or is one.
#[derive(Clone, Copy, Debug, PartialEq, Eq)]
pub enum Head {
    /// Not committed yet: a file of this length that holds no record and never did.
    Uncommitted {
        length: u64,
    },
    /// Born: its version, the SHA-256 of its problem's bytes, its seed, and how many paths an iteration has
    /// (1 to 64; 1 in version 1).
    Committed {
        version: u16,
        digest: [u8; 32],
        seed: u64,
        batch: u16,
    },
}

/// Why no head could be read.
#[derive(Clone, Copy, Debug, Drop, Error, PartialEq, Eq)]
pub enum HeadFault {
    #[error("not a journal")]
    NotAJournal,
    #[error("a journal of version {version}")]
    OtherVersion { version: u16 },
    #[error("the journal ends at {place}")]
    Short { place: u64 },
    #[error("the journal's device failed")]
    DiskFault,
    #[error("a batch of {batch}")]
    BadBatch { batch: u16 },
}

impl From<Failed> for HeadFault {
    ghost use Rattle.journal_file.specs.declared.head.HeadFault.TheVariants.{DiskFault};

    ghost from_gives = { λ _ e. e ≡ DiskFault };

    fn from(_: Failed) -> Self {
        HeadFault::DiskFault
    }
}

/// The head of a file, from its length and its first 54 bytes at most. Each fault is the first in this
/// order: `NotAJournal`, `Short` (with the length), `OtherVersion`, `Short`, `BadBatch`. `DiskFault` comes
/// only where the disk's count of faults rose. It takes no memory.
pub fn read_head<D: Disk>(disk: &mut D) -> Result<Head, HeadFault>
    ensures value { IfSome (D.store disk.old).reads (λ bytes.
        (result ≡ head_of bytes) ⊎ (result ≡ Err DiskFault)) }

    // Over any disk.
    ensures known { IfOk result IsKnown }
    ensures stays { Stays (D.store disk.old) (D.store disk.new) }
    ensures cause { DiskCause (D.faults disk.old) (D.faults disk.new) (result ≡ Err DiskFault) }
{
    let mut buffer = [0; 54];
    let len = read_front(disk, &mut buffer)?;
    head_from(&buffer[..len.min(54) as usize], len)
}

// Reads the first bytes into the front of a buffer, and answers the length of the file.
fn read_front<D: Disk>(disk: &mut D, buffer: &mut [u8; 54]) -> Result<u64, Failed>
    ensures length { IfOk result (λ len. IfSome (D.store disk.old).reads (λ bytes. len ≡ length bytes)) }
    ensures front { IfOk result (λ len. IfSome (D.store disk.old).reads (λ bytes.
        take (min len 54) buffer.new ≡ take (min len 54) bytes)) }
    ensures stays { Stays (D.store disk.old) (D.store disk.new) }
    ensures cause { HasCause (D.faults disk.old) (D.faults disk.new) result }
{
    let len = disk.len()?;
    disk.read_at(0, &mut buffer[..len.min(54) as usize])?;
    Ok(len)
}

// The head of a file of this length that begins with these bytes.
#[tactic(auto, unfolding(crate::specs::Head::head_at))]
fn head_from(bytes: &[u8], len: u64) -> Result<Head, HeadFault>
    requires { length bytes.now ≡ min len 54 }
    ensures value { result ≡ head_at bytes.now len }
    ensures known { IfOk result IsKnown }
    ensures own { result ≢ Err DiskFault }
{
    if uncommitted(bytes, len) {
        return Ok(Head::Uncommitted { length: len });
    }
    if len < 9 || bytes[0] != 1 || !magic(bytes) {
        return Err(HeadFault::NotAJournal);
    }
    if len < 52 {
        return Err(HeadFault::Short { place: len });
    }
    title(bytes, len)
}

// Tells whether the bytes 1 to 8 are the magic.
fn magic(bytes: &[u8]) -> bool
    requires { 9 ≤ length bytes.now }
    ensures { result ≡ has_magic bytes.now }
{
    bytes[1..9] == MAGIC[..]
}

#[tactic(auto, unfolding(crate::specs::Head::is_whole_head))]
fn whole_head(bytes: &[u8], len: u64) -> bool
    requires { length bytes.now ≡ min len 54 }
    ensures { result ≡ is_whole_head bytes.now len }
{
    (len == 52 && magic(bytes) && u16_at(bytes, 9) == 1 && bytes[51] == 0)
        || (len == 54 && magic(bytes) && u16_at(bytes, 9) == 2 && bytes[53] == 0)
}

#[tactic(auto, unfolding(crate::specs::Head::is_uncommitted))]
fn uncommitted(bytes: &[u8], len: u64) -> bool
    requires { length bytes.now ≡ min len 54 }
    ensures value { result ≡ is_uncommitted bytes.now len }
{
    len <= 1
        || (bytes[0] == 0 && len <= 54)
        || (bytes[0] != 0 && bytes[0] != 1 && whole_head(bytes, len))
}

// The digest, the bytes 11 to 42.
fn digest(bytes: &[u8]) -> [u8; 32]
    requires { 43 ≤ length bytes.now }
    ensures { result ≡ digest_of bytes.now }
{
    let mut digest = [0; 32];
    digest.copy_from_slice(&bytes[11..43]);
    digest
}

// Reads the head, given its magic and a header's commit byte of 1.
#[tactic(auto, unfolding(crate::specs::Head::title_at))]
fn title(bytes: &[u8], len: u64) -> Result<Head, HeadFault>
    requires long { 52 ≤ len }
    requires front { length bytes.now ≡ min len 54 }
    ensures value { result ≡ title_at bytes.now len }
    ensures known { IfOk result IsKnown }
    ensures own { result ≢ Err DiskFault }
{
    let version = u16_at(bytes, 9);
    let digest = digest(bytes);
    let seed = u64_at(bytes, 43);
    if version == 1 {
        return Ok(Head::Committed {
            version,
            digest,
            seed,
            batch: 1,
        });
    }
    if version != 2 {
        return Err(HeadFault::OtherVersion { version });
    }
    if len < 54 {
        return Err(HeadFault::Short { place: len });
    }
    let batch = u16_at(bytes, 51);
    if batch == 0 || batch > 64 {
        return Err(HeadFault::BadBatch { batch });
    }
    Ok(Head::Committed {
        version,
        digest,
        seed,
        batch,
    })
}
