// Numbers and bytes from the input.
ghost use Rattle.std.specs.Prelude.{◌≡◌, ◌≤◌, ◌^◌, length, IfOk};

use crate::ending::{Ending, RecordAt};
use base_device::Source;
use base_num::Memory;
use problem::{PAYLOAD_BYTES, PROBLEM_BYTES};
use std::alloc::Global;

// Reads bytes until the slice is full. Usage where the input ends before.
fn fill<I: Source>(input: &mut I, into: &mut [u8]) -> Result<(), Ending>
    ensures { length into.new ≡ length into.old }
{
    let mut at = 0;
    while at < into.len() {
        let Ok(count) = input.read(&mut into[at..]) else {
            return Err(Ending::ReadFault);
        };
        if count == 0 {
            return Err(Ending::Usage);
        }
        at += count;
    }
    Ok(())
}

/// The byte of the next order, none where the input ends.
pub(crate) fn order_from<I: Source>(input: &mut I) -> Result<Option<u8>, Ending> {
    let mut byte = [0u8; 1];
    match input.read(&mut byte) {
        Ok(0) => Ok(None),
        Ok(_) => Ok(Some(byte[0])),
        Err(_) => Err(Ending::ReadFault),
    }
}

/// A number of two bytes.
pub(crate) fn u16_from<I: Source>(input: &mut I) -> Result<u16, Ending> {
    let mut word = [0u8; 2];
    fill(input, &mut word)?;
    Ok(u16::from_be_bytes(word))
}

/// A number of four bytes.
pub(crate) fn u32_from<I: Source>(input: &mut I) -> Result<u32, Ending> {
    let mut word = [0u8; 4];
    fill(input, &mut word)?;
    Ok(u32::from_be_bytes(word))
}

/// A number of eight bytes.
pub(crate) fn u64_from<I: Source>(input: &mut I) -> Result<u64, Ending> {
    let mut word = [0u8; 8];
    fill(input, &mut word)?;
    Ok(u64::from_be_bytes(word))
}

// Makes so many bytes of 0.
fn zeros(alloc: Global, count: usize) -> Result<Vec<u8>, Memory>
    ensures { IfOk result (λ bytes. length bytes.items ≡ count) }
{
    Ok(vec![in alloc; 0u8; count]?)
}

// Reads so many bytes.
fn bytes_from<I: Source>(alloc: Global, input: &mut I, count: u32) -> Result<Vec<u8>, Ending>
    ensures { IfOk result (λ bytes. length bytes.items ≡ count) }
{
    let mut bytes = zeros(alloc, count as usize)?;
    fill(input, bytes.as_mut_slice())?;
    Ok(bytes)
}

/// The bytes of the problem, behind their number.
pub(crate) fn problem_from<I: Source>(alloc: Global, input: &mut I) -> Result<Vec<u8>, Ending> {
    let count = u32_from(input)?;
    if count as usize > PROBLEM_BYTES {
        return Err(Ending::TooLong);
    }
    bytes_from(alloc, input, count)
}

/// The payload of a record, behind the number of its bytes.
pub(crate) fn payload_from<I: Source>(
    alloc: Global,
    input: &mut I,
    at: RecordAt,
) -> Result<Vec<u8>, Ending>
    ensures { IfOk result (λ payload. length payload.items ≤ 2 ^ 26) }
{
    let count = u32_from(input)?;
    if u64::from(count) > PAYLOAD_BYTES {
        return Err(Ending::RecordRefused(at));
    }
    bytes_from(alloc, input, count)
}
