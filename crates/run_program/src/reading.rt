// Reads a source to its end.
ghost use Rattle.std.specs.Prelude.{◌≡◌, ◌+◌, ◌++◌, ◌^◌, ◌<◌, ◌≤◌, List, [], ℕ, length, IfOk, MatchBool};
ghost use Rattle.std.specs.Io.KnownBytes.{Consumes, IsAtEnd};
ghost use Rattle.base_device.specs.Causes.{FaultCountRose};

use base_device::Source;
use std::alloc::Global;

const LIMIT: usize = 1 << 24;

const CHUNK: usize = 4096;

/// Why there are no bytes.
#[derive(Clone, Copy, Debug, PartialEq, Eq)]
pub enum GatherFault {
    ReadFault,
    TooLong,
    Memory,
}

/// All bytes of the source, at most 2^24.
pub fn gather<I: Source>(alloc: Global, source: &mut I) -> Result<Vec<u8>, GatherFault>
    ensures bytes { IfOk result (λ v. Consumes (I.left source.old) (I.left source.new) v.items
        × IsAtEnd (I.left source.new) × (length v.items ≤ 2 ^ 24)) }
    ensures later { I.faults source.old ≤ I.faults source.new }
    ensures read { result ≡ Err GatherFault.ReadFault → FaultCountRose (I.faults source.old) (I.faults source.new) }
    ensures otherwise { ¬ (result ≡ Err GatherFault.ReadFault) → I.faults source.new ≡ I.faults source.old }
    ensures long { result ≡ Err GatherFault.TooLong → (bytes : List ℕ) × (length bytes ≡ 2 ^ 24 + 1)
        × Consumes (I.left source.old) (I.left source.new) bytes }
{
    let mut bytes = Vec::new(alloc);
    let mut chunk = [0u8; CHUNK];
    while bytes.len() <= LIMIT {
        let want = CHUNK.min(LIMIT + 1 - bytes.len());
        match next(source, &mut bytes, &mut chunk[..want]) {
            Ok(true) => {}
            Ok(false) => return Ok(bytes),
            Err(fault) => return Err(fault),
        }
    }
    Err(GatherFault::TooLong)
}

// Takes one piece, and says whether there was one.
fn next<I: Source>(
    source: &mut I,
    bytes: &mut Vec<u8>,
    chunk: &mut [u8],
) -> Result<bool, GatherFault>
    requires { 0 < length chunk.old }
    ensures more { IfOk result (λ some. (piece : List ℕ) × Consumes (I.left source.old) (I.left source.new) piece
        × (bytes.new.items ≡ bytes.old.items ++ piece) × (length piece ≤ length chunk.old)
        × MatchBool some (0 < length piece) ((piece ≡ []) × IsAtEnd (I.left source.new))) }
    ensures later { I.faults source.old ≤ I.faults source.new }
    ensures read { result ≡ Err GatherFault.ReadFault → FaultCountRose (I.faults source.old) (I.faults source.new) }
    ensures otherwise { ¬ (result ≡ Err GatherFault.ReadFault) → I.faults source.new ≡ I.faults source.old }
    ensures short { ¬ (result ≡ Err GatherFault.TooLong) }
{
    let Ok(count) = source.read(chunk) else {
        return Err(GatherFault::ReadFault);
    };
    if count == 0 {
        return Ok(false);
    }
    match bytes.extend_from_slice(&chunk[..count]) {
        Ok(()) => Ok(true),
        Err(_) => Err(GatherFault::Memory),
    }
}
