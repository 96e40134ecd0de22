// Journals that are made and extended, with a crash after any call.
use crate::journals::{BATCHES, NO_RECORDS};
use crate::silent_disks::Silent;
use base_device::{Crash, Failed};
use base_num::Memory;
use journal_file::{CommitByte, Head, append, commit_header, read_commit_byte, read_head, recover};
use std::alloc::Global;
use std::process::Abort;
use std::test::Fail;

// Tells whether a crash may leave these bytes of a file that becomes the journal without records: it is not
// committed yet, or only its header's commit byte is another.
fn may_be_left_of_header_commit(bytes: &[u8]) -> bool {
    bytes.len() <= 1
        || (bytes.first() == Some(&0) && bytes.len() <= 54)
        || bytes.get(1..) == NO_RECORDS.get(1..)
}

// Makes a journal of what a crash left, where it is none yet.
fn reborn(disk: &mut Silent) -> Result<(), Failed> {
    match read_head(disk) {
        Ok(Head::Uncommitted { .. }) => commit_header(disk, &[100; 32], 7, None),
        _ => Ok(()),
    }
}

// Tells whether a crash may leave this disk, and it becomes the journal without records.
fn comes_to_life(left: &mut Silent) -> bool {
    may_be_left_of_header_commit(left.bytes())
        && reborn(left).is_ok()
        && left.bytes() == NO_RECORDS.as_slice()
}

fn lives_after(alloc: Global, disk: &Silent, how: Crash) -> Result<bool, Memory> {
    let mut left = disk.crash(alloc, how)?;
    Ok(comes_to_life(&mut left))
}

fn lives_after_each(alloc: Global, disk: &Silent) -> Result<bool, Memory> {
    Ok(
        lives_after(alloc, disk, Crash::Kept)?
            && lives_after(alloc, disk, Crash::Lost)?
            && lives_after(alloc, disk, Crash::Torn)?,
    )
}

// Commits the header with a stop after so many calls, and once more to what each crash leaves. Whether the first went through, and
// each crash left what it may.
fn header_commits(alloc: Global, bytes: &[u8], calls: u64) -> Result<(bool, bool), Memory> {
    let mut disk = Silent::stopped(alloc, bytes, calls)?;
    let outcome = commit_header(&mut disk, &[100; 32], 7, None);
    Ok((outcome.is_ok(), lives_after_each(alloc, &disk)?))
}

// The header is committed where it has so many calls.
fn assert_committed(rt: &impl Abort, alloc: Global, bytes: &[u8], most: u64) -> Result<(), Memory> {
    for calls in 0..=most {
        let found = header_commits(alloc, bytes, calls)?;
        assert_eq!(rt; found, (calls == most, true), "after {calls} calls");
    }
    Ok(())
}

#[test]
fn is_committed_after_any_crash(rt: HostRuntime) -> Result<(), Fail> {
    assert_committed(&rt, rt.alloc(), b"", 7)?;
    assert_committed(&rt, rt.alloc(), b"X", 8)?;
    assert_committed(&rt, rt.alloc(), &[0; 54], 8)?;
    Ok(())
}

fn is_committed_whole(disk: &mut Silent) -> bool {
    commit_header(disk, &[100; 32], 7, Some(2)).is_ok() && disk.bytes() == BATCHES.as_slice()
}

#[test]
fn is_committed_with_batches(rt: HostRuntime) -> Result<(), Fail> {
    assert!(rt; is_committed_whole(&mut Silent::stopped(rt.alloc(), b"", 100)?));
    Ok(())
}

// The body of a record of two bytes.
const BODY: &[u8; 7] = b"\x00\x00\x00\x02xy\x00";

// Tells whether a crash may leave these bytes of the journal without records that gets the record: its commit byte is
// 0, or the record's body stands whole behind it.
fn may_be_left_of_growth(bytes: &[u8]) -> bool {
    bytes.get(..51) == NO_RECORDS.get(..51)
        && (bytes.get(51) == Some(&0) || bytes.get(52..) == Some(BODY.as_slice()))
}

// Adds the record to what a crash left, where it has none.
fn regrown(disk: &mut Silent) -> Result<(), Failed> {
    match read_commit_byte(disk, 51) {
        Ok(CommitByte::Clear { .. }) => {
            recover(disk, 51)?;
            append(disk, 51, BODY).map(|_| ())
        }
        _ => Ok(()),
    }
}

// Tells whether these are the bytes of the journal with the record.
fn has_record(bytes: &[u8]) -> bool {
    bytes.get(..51) == NO_RECORDS.get(..51)
        && bytes.get(51) == Some(&1)
        && bytes.get(52..) == Some(BODY.as_slice())
}

// Tells whether a crash may leave this disk, and it becomes the journal with the record.
fn gets_record(left: &mut Silent) -> bool {
    may_be_left_of_growth(left.bytes()) && regrown(left).is_ok() && has_record(left.bytes())
}

fn grows_after(alloc: Global, disk: &Silent, how: Crash) -> Result<bool, Memory> {
    let mut left = disk.crash(alloc, how)?;
    Ok(gets_record(&mut left))
}

fn grows_after_each(alloc: Global, disk: &Silent) -> Result<bool, Memory> {
    Ok(
        grows_after(alloc, disk, Crash::Kept)?
            && grows_after(alloc, disk, Crash::Lost)?
            && grows_after(alloc, disk, Crash::Torn)?,
    )
}

// Appends a record with a stop after so many calls, and once more to what each crash leaves. Whether the first went through,
// and each crash left what it may.
fn growths(alloc: Global, calls: u64) -> Result<(bool, bool), Memory> {
    let mut disk = Silent::stopped(alloc, NO_RECORDS, calls)?;
    let outcome = append(&mut disk, 51, BODY);
    Ok((outcome.is_ok(), grows_after_each(alloc, &disk)?))
}

#[test]
fn grows_after_any_crash(rt: HostRuntime) -> Result<(), Fail> {
    for calls in 0..=4 {
        let found = growths(rt.alloc(), calls)?;
        assert_eq!(rt; found, (calls == 4, true), "after {calls} calls");
    }
    Ok(())
}
