// A disk in memory: its calls, what a crash leaves of it, and where it fails.
use crate::disks::holds;
use base_device::{Crash, Disk, Failed, MemDisk};
use std::alloc::Global;
use std::process::Abort;
use std::test::Fail;

// A call of the disk; a read is of two bytes.
#[derive(Clone, Copy)]
enum Step<'a> {
    Len,
    Read(u64),
    Write(u64, &'a [u8]),
    Cut(u64),
    Sync,
}

fn call(rt: &impl Abort, disk: &mut MemDisk, step: Step<'_>) -> Result<(), Failed> {
    let end = disk.bytes().len() as u64;
    match step {
        Step::Len => {
            let _end = disk.len()?;
            Ok(())
        }
        Step::Read(at) => {
            assert!(rt; at.saturating_add(2) <= end);
            disk.read_at(at, &mut [0; 2])
        }
        Step::Write(at, piece) => {
            assert!(rt; at <= end);
            disk.write_at(at, piece)
        }
        Step::Cut(len) => {
            assert!(rt; len <= end);
            disk.cut(len)
        }
        Step::Sync => disk.sync(),
    }
}

// Makes one call after another, and compares which of them failed.
fn assert_calls(rt: &impl Abort, disk: &mut MemDisk, steps: &[(Step<'_>, Result<(), Failed>)]) {
    for (number, (step, want)) in steps.iter().enumerate() {
        assert_eq!(rt; call(rt, disk, *step), *want, "call {number}");
    }
}

// With call 1 listed, and room for three bytes and two changes.
const REFUSALS: [(Step<'static>, Result<(), Failed>); 8] = [
    (Step::Len, Ok(())),
    (Step::Len, Err(Failed)),
    (Step::Write(3, b"de"), Ok(())),
    (Step::Write(0, b"pq"), Err(Failed)),
    (Step::Write(0, b"p"), Ok(())),
    (Step::Sync, Err(Failed)),
    (Step::Cut(1), Err(Failed)),
    (Step::Read(1), Ok(())),
];

const STOPPED: [(Step<'static>, Result<(), Failed>); 2] = [
    (Step::Read(0), Ok(())),
    (Step::Len, Err(Failed)),
];

fn assert_refuses(rt: &impl Abort, disk: &mut MemDisk) {
    assert_calls(rt, disk, &REFUSALS);
    assert_eq!(rt; disk.bytes(), b"pbcde".as_slice());
    assert_eq!(rt; disk.longest_read(), 2);
    assert_eq!(rt; disk.calls(), 8);
    disk.stop_after(9);
    assert_calls(rt, disk, &STOPPED);
    assert_eq!(rt; disk.calls(), 10);
}

#[test]
fn fails_where_it_has_to(rt: HostRuntime) -> Result<(), Fail> {
    let alloc = rt.alloc();
    let (bytes, fail) = (b"abc".to_vec(alloc)?, [1].to_vec(alloc)?);
    assert_refuses(&rt, &mut MemDisk::new(alloc, bytes, fail, 3, 2)?);
    Ok(())
}

const CHANGES: [(Step<'static>, Result<(), Failed>); 5] = [
    (Step::Write(4, b"xyz"), Ok(())),
    (Step::Sync, Ok(())),
    (Step::Write(1, b"pq"), Ok(())),
    (Step::Cut(5), Ok(())),
    (Step::Write(4, b"uv"), Ok(())),
];

// Gives what a crash leaves of `abcdef` after these changes.
const LEFT: [(Crash, &[u8]); 3] = [
    (Crash::Kept, b"apqduv"),
    (Crash::Lost, b"abcdxyz"),
    (Crash::Torn, &[97, 165, 165, 100, 165, 165]),
];

fn assert_left(rt: &impl Abort, alloc: Global, disk: &MemDisk) -> Result<(), Fail> {
    for (how, want) in LEFT {
        let mut left = disk.crash(alloc, how)?;
        assert!(rt; holds(&mut left, want), "{how:?}");
        assert_eq!(rt; left.calls(), 2);
    }
    Ok(())
}

fn crashed(rt: &impl Abort, alloc: Global, disk: &mut MemDisk) -> Result<(), Fail> {
    assert_calls(rt, disk, &CHANGES);
    assert_left(rt, alloc, disk)
}

#[test]
fn crashes(rt: HostRuntime) -> Result<(), Fail> {
    let alloc = rt.alloc();
    let bytes = b"abcdef".to_vec(alloc)?;
    crashed(
        &rt,
        alloc,
        &mut MemDisk::new(alloc, bytes, Vec::new(alloc), 8, 8)?,
    )
}
