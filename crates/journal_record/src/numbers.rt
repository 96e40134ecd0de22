// Single numbers at the front of bytes, with the bytes behind them.
ghost use Rattle.std.specs.Int.{w16, w32, w64};
ghost use Rattle.journal_record.specs.Reading.{ReadingGives, read_number_at, read_row_at, pair_at};

use crate::fault::ReadFault;
use base_num::big_endian;

pub(crate) fn u16_at(bytes: &[u8]) -> Result<(u16, &[u8]), ReadFault>
    ensures { ReadingGives (λ x. (x.0, x.1.now)) result (read_number_at w16 bytes.now) }
{
    if bytes.len() < 2 {
        return Err(ReadFault::Bad { left: bytes.len() });
    }
    let (front, tail) = bytes.split_at(2);
    Ok((big_endian::u16_at(front, 0), tail))
}

pub(crate) fn u32_at(bytes: &[u8]) -> Result<(u32, &[u8]), ReadFault>
    ensures { ReadingGives (λ x. (x.0, x.1.now)) result (read_number_at w32 bytes.now) }
{
    if bytes.len() < 4 {
        return Err(ReadFault::Bad { left: bytes.len() });
    }
    let (front, tail) = bytes.split_at(4);
    Ok((big_endian::u32_at(front, 0), tail))
}

fn u64_at(bytes: &[u8]) -> Result<(u64, &[u8]), ReadFault>
    ensures { ReadingGives (λ x. (x.0, x.1.now)) result (read_number_at w64 bytes.now) }
{
    if bytes.len() < 8 {
        return Err(ReadFault::Bad { left: bytes.len() });
    }
    let (front, tail) = bytes.split_at(8);
    Ok((big_endian::u64_at(front, 0), tail))
}

// A row's multiplier.
#[tactic(auto, unfolding(crate::specs::Reading::read_row_at))]
pub(crate) fn row_at(bytes: &[u8]) -> Result<(i64, &[u8]), ReadFault>
    ensures { ReadingGives (λ x. (x.0, x.1.now)) result (read_row_at bytes.now) }
{
    let (number, tail) = u64_at(bytes)?;
    Ok((number.cast_signed(), tail))
}

// A cut's place and its multiplier.
#[tactic(auto, unfolding(crate::specs::Reading::pair_at))]
pub(crate) fn pair_at(bytes: &[u8]) -> Result<((u32, u64), &[u8]), ReadFault>
    ensures { ReadingGives (λ x. (x.0, x.1.now)) result (pair_at bytes.now) }
{
    let (place, tail) = u32_at(bytes)?;
    let (multiplier, tail) = u64_at(tail)?;
    Ok(((place, multiplier), tail))
}
