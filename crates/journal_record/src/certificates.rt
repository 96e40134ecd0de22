// The lists of certificates, read from the front of bytes, with the bytes behind them.
ghost use Rattle.journal_record.specs.Reading.{ReadingGives, many, read_row_at, pair_at, pairs_at, certificate_at};

use crate::fault::ReadFault;
use crate::numbers::{pair_at, row_at, u32_at};
use crate::sizes::Sizes;
use base_num::List;
use cut_pool::{Certificate, Spares};
use std::alloc::Global;

fn rows<'a>(
    alloc: Global,
    spares: &mut Spares,
    count: usize,
    bytes: &'a [u8],
) -> Result<(List<i64>, &'a [u8]), ReadFault>
    ensures { ReadingGives (λ x. (x.0, x.1.now)) result (many read_row_at count bytes.now) }
{
    let mut found = spares.rows.take(alloc).into_vec();
    found.reserve_exact(count.min(bytes.len() / 8))?;
    let mut tail = bytes;
    for _ in 0..count {
        let (row, after) = row_at(tail)?;
        found.push(row)?;
        tail = after;
    }
    Ok((List::from_vec(found), tail))
}

fn counted_pairs<'a>(
    alloc: Global,
    spares: &mut Spares,
    count: usize,
    bytes: &'a [u8],
) -> Result<(List<(u32, u64)>, &'a [u8]), ReadFault>
    ensures { ReadingGives (λ x. (x.0, x.1.now)) result (many pair_at count bytes.now) }
{
    let mut found = spares.pairs.take(alloc).into_vec();
    found.reserve_exact(count.min(bytes.len() / 12))?;
    let mut tail = bytes;
    for _ in 0..count {
        let (pair, after) = pair_at(tail)?;
        found.push(pair)?;
        tail = after;
    }
    Ok((List::from_vec(found), tail))
}

#[tactic(auto, unfolding(crate::specs::Reading::pairs_at))]
fn pairs<'a>(
    alloc: Global,
    spares: &mut Spares,
    bytes: &'a [u8],
) -> Result<(List<(u32, u64)>, &'a [u8]), ReadFault>
    ensures { ReadingGives (λ x. (x.0, x.1.now)) result (pairs_at bytes.now) }
{
    let (count, tail) = u32_at(bytes)?;
    counted_pairs(alloc, spares, count as usize, tail)
}

fn cuts<'a>(
    alloc: Global,
    spares: &mut Spares,
    count: usize,
    bytes: &'a [u8],
) -> Result<(List<List<(u32, u64)>>, &'a [u8]), ReadFault>
    ensures { ReadingGives (λ x. (x.0, x.1.now)) result (many pairs_at count bytes.now) }
{
    let mut found = spares.cuts.take(alloc).into_vec();
    found.reserve_exact(count.min(bytes.len() / 4))?;
    let mut tail = bytes;
    for _ in 0..count {
        let (pairs, after) = pairs(alloc, spares, tail)?;
        found.push(pairs)?;
        tail = after;
    }
    Ok((List::from_vec(found), tail))
}

#[tactic(auto, unfolding(crate::specs::Reading::certificate_at))]
fn certificate<'a>(
    alloc: Global,
    spares: &mut Spares,
    sizes: Sizes,
    bytes: &'a [u8],
) -> Result<(Certificate, &'a [u8]), ReadFault>
    ensures { ReadingGives (λ x. (x.0, x.1.now)) result (certificate_at sizes bytes.now) }
{
    let (rows, tail) = rows(alloc, spares, sizes.rows, bytes)?;
    let (cuts, tail) = cuts(alloc, spares, sizes.successors, tail)?;
    Ok((Certificate { rows, cuts }, tail))
}

// Reads one certificate per realization.
pub(crate) fn certificates<'a>(
    alloc: Global,
    spares: &mut Spares,
    sizes: Sizes,
    bytes: &'a [u8],
) -> Result<(List<Certificate>, &'a [u8]), ReadFault>
    ensures { ReadingGives (λ x. (x.0, x.1.now)) result (many (certificate_at sizes) sizes.realizations bytes.now) }
{
    let mut found = spares.certificates.take(alloc).into_vec();
    found.reserve_exact(sizes.realizations)?;
    let mut tail = bytes;
    for _ in 0..sizes.realizations {
        let (certificate, after) = certificate(alloc, spares, sizes, tail)?;
        found.push(certificate)?;
        tail = after;
    }
    Ok((List::from_vec(found), tail))
}
