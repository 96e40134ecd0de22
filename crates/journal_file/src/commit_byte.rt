// The commit bytes of a journal and the records behind those of 1.
ghost use Rattle.std.specs.Prelude.{◌≡◌, ◌⊎◌, ◌≤◌, ◌<◌, ◌+◌, ◌^◌, length, take, drop, get_or, IfOk, IfErr, IfSome, OnOk, MatchResult, Ok, Err};
ghost use Rattle.base_device.specs.Causes.{HasCause};
ghost use Rattle.base_device.specs.Disks.{Stays};
ghost use Rattle.journal_file.specs.Causes.{DiskCause};
ghost use Rattle.journal_file.specs.CommitBytes.{commit_byte_of, payload_of};
ghost use Rattle.journal_file.specs.declared.commit_byte.CommitByteFault.TheVariants as commit_bytes;
ghost use Rattle.journal_file.specs.declared.commit_byte.PayloadFault.TheVariants as payloads;

use base_device::{Disk, Failed};
use thiserror::Error;

/// The most bytes of a record's payload.
pub const MOST_PAYLOAD: u32 = 1 << 26;

/// A commit byte: the bytes behind it count where it is 1.
#[derive(Clone, Copy, Debug, PartialEq, Eq)]
pub enum CommitByte {
    /// Any byte but 1, with the number of bytes behind it.
    Clear { tail: u64 },
    /// The byte 1.
    Set,
}

/// Why no commit byte could be read.
#[derive(Clone, Copy, Debug, Drop, Error, PartialEq, Eq)]
pub enum CommitByteFault {
    #[error("the journal ends before its gate at {place}")]
    Short { place: u64 },
    #[error("the journal's device failed")]
    DiskFault,
}

impl From<Failed> for CommitByteFault {
    ghost use Rattle.journal_file.specs.declared.commit_byte.CommitByteFault.TheVariants.{DiskFault};

    ghost from_gives = { λ _ e. e ≡ DiskFault };

    fn from(_: Failed) -> Self {
        CommitByteFault::DiskFault
    }
}

/// Why no payload could be read.
#[derive(Clone, Copy, Debug, Drop, Error, PartialEq, Eq)]
pub enum PayloadFault {
    #[error("the journal ends inside the part at {place}")]
    Short { place: u64 },
    #[error("a payload of {length} bytes")]
    BadLength { length: u32 },
    #[error("the journal's device failed")]
    DiskFault,
    #[error("memory")]
    Memory,
}

impl From<Failed> for PayloadFault {
    ghost use Rattle.journal_file.specs.declared.commit_byte.PayloadFault.TheVariants.{DiskFault};

    ghost from_gives = { λ _ e. e ≡ DiskFault };

    fn from(_: Failed) -> Self {
        PayloadFault::DiskFault
    }
}

/// The commit byte at a place. `Short` with the place where the file ends before it; `DiskFault` only where the
/// disk's count of faults rose. It takes no memory.
pub fn read_commit_byte<D: Disk>(disk: &mut D, at: u64) -> Result<CommitByte, CommitByteFault>
    requires { at ≤ 2 ^ 40 }
    ensures value { IfSome (D.store disk.old).reads (λ bytes.
        (result ≡ commit_byte_of bytes at) ⊎ (result ≡ Err commit_bytes.DiskFault)) }
    ensures stays { Stays (D.store disk.old) (D.store disk.new) }
    ensures cause { DiskCause (D.faults disk.old) (D.faults disk.new) (result ≡ Err commit_bytes.DiskFault) }
{
    let (byte, len) = byte_at(disk, at)?;
    if len <= at {
        return Err(CommitByteFault::Short { place: at });
    }
    if byte == 1 {
        return Ok(CommitByte::Set);
    }
    Ok(CommitByte::Clear {
        tail: len - (at + 1),
    })
}

// The byte at a place, 1 where the disk ends before it, and the length.
pub(crate) fn byte_at<D: Disk>(disk: &mut D, at: u64) -> Result<(u8, u64), Failed>
    requires { at ≤ 2 ^ 40 }
    ensures byte { IfOk result (λ p. IfSome (D.store disk.old).reads (λ bytes. p.0 ≡ get_or bytes at 1)) }
    ensures length { IfOk result (λ p. IfSome (D.store disk.old).reads (λ bytes. p.1 ≡ length bytes)) }
    ensures stays { Stays (D.store disk.old) (D.store disk.new) }
    ensures cause { HasCause (D.faults disk.old) (D.faults disk.new) result }
{
    let len = disk.len()?;
    if len <= at {
        return Ok((1, len));
    }
    let mut byte = [0; 1];
    disk.read_at(at, &mut byte)?;
    Ok((byte[0], len))
}

/// The payload of the record whose commit byte of 1 stands at a place, read into a buffer in the place of what was there;
/// answers the place of the next commit byte. Each refusal is the first in this order: `Short` with the place of
/// the length, `BadLength` above 2^26, `Short` with the place of the payload; then `Memory` where the
/// buffer cannot grow. `DiskFault` comes only where the disk's count of faults rose. After a refusal
/// nothing is promised of the buffer.
pub fn payload<D: Disk>(disk: &mut D, at: u64, into: &mut Vec<u8>) -> Result<u64, PayloadFault>
    requires { at ≤ 2 ^ 40 }
    ensures value { IfSome (D.store disk.old).reads (λ bytes. MatchResult result
        (λ _. payload_of bytes at ≡ Ok into.new.items)
        (λ fault. (payload_of bytes at ≡ Err fault) ⊎ (fault ≡ payloads.DiskFault) ⊎ (fault ≡ payloads.Memory))) }

    // Over any disk.
    ensures next { IfOk result (λ next. next ≡ at + 5 + length into.new.items) }
    ensures few { IfOk result (λ _. length into.new.items ≤ 2 ^ 26) }
    ensures stays { Stays (D.store disk.old) (D.store disk.new) }
    ensures cause { DiskCause (D.faults disk.old) (D.faults disk.new) (result ≡ Err payloads.DiskFault) }
{
    let len = disk.len()?;
    if len < at + 5 {
        return Err(PayloadFault::Short { place: at + 1 });
    }
    let mut word = [0; 4];
    disk.read_at(at + 1, &mut word)?;
    let length = u32::from_be_bytes(word);
    if length > MOST_PAYLOAD {
        return Err(PayloadFault::BadLength { length });
    }
    let next = at + 5 + u64::from(length);
    if len < next {
        return Err(PayloadFault::Short { place: at + 5 });
    }
    read_into(disk, at + 5, into, length as usize)?;
    Ok(next)
}

// Reads so many bytes from a place on into a buffer, over its old contents.
fn read_into<D: Disk>(
    disk: &mut D,
    at: u64,
    into: &mut Vec<u8>,
    count: usize,
) -> Result<(), PayloadFault>
    requires range { at + count ≤ D.readable disk.old }
    requires near { at + count ≤ 2 ^ 62 }
    ensures bytes { OnOk result (IfSome (D.store disk.old).reads (λ bytes. into.new.items ≡ take count (drop at bytes))) }
    ensures count { OnOk result (length into.new.items ≡ count) }
    ensures fault { IfErr result (λ fault. (fault ≡ payloads.DiskFault) ⊎ (fault ≡ payloads.Memory)) }
    ensures stays { Stays (D.store disk.old) (D.store disk.new) }
    ensures cause { DiskCause (D.faults disk.old) (D.faults disk.new) (result ≡ Err payloads.DiskFault) }
{
    make_room(into, count)?;
    disk.read_at(at, into.as_mut_slice())?;
    Ok(())
}

// Gives the buffer this length.
fn make_room(into: &mut Vec<u8>, count: usize) -> Result<(), PayloadFault>
    ensures { MatchResult result (λ _. length into.new.items ≡ count) (λ fault. fault ≡ payloads.Memory) }
{
    into.clear();
    let Ok(()) = into.resize(count, 0) else {
        return Err(PayloadFault::Memory);
    };
    Ok(())
}
