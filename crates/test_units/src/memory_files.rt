// The calls of a file's disk, over a disk in memory that is taken for a file.
use crate::disks::holds;
use base_device::{Disk, DiskFile, Failed, MemDisk, TwinDisk};
use base_num::Memory;
use std::alloc::Global;
use std::test::Fail;

type Twin = TwinDisk<DiskFile<MemDisk>>;

// An empty disk, of whose calls one fails; none where it cannot be made.
fn twin(alloc: Global, failing: u64) -> Result<Option<Twin>, Memory> {
    let mut fail = Vec::new(alloc);
    fail.push(failing)?;
    let disk = MemDisk::new(alloc, Vec::new(alloc), fail, 256, 16)?;
    Ok(TwinDisk::new(DiskFile::new(disk)).ok())
}

// Tells whether it writes, cuts, syncs and reads as a disk does.
fn is_disk(disk: &mut Twin) -> bool {
    disk.write_at(0, b"abcd").is_ok()
        && disk.cut(3).is_ok()
        && disk.write_at(2, b"xyz").is_ok()
        && disk.sync().is_ok()
        && holds(disk, b"abxyz")
        && disk.read_at(4, &mut [0; 2]) == Err(Failed)
        && disk.write_at(0, &[7; 100]).is_ok()
        && disk.sync().is_ok()
        && disk.len() == Ok(100)
}

// Tells whether it takes no change behind one that failed, and is read all the same.
fn is_given_up(disk: &mut Twin) -> bool {
    disk.write_at(0, b"abcd").is_ok()
        && disk.sync() == Err(Failed)
        && disk.sync() == Err(Failed)
        && disk.write_at(4, b"e") == Err(Failed)
        && disk.cut(0) == Err(Failed)
        && holds(disk, b"abcd")
}

#[test]
fn does_what_a_disk_does(rt: HostRuntime) -> Result<(), Fail> {
    let Some(mut whole) = twin(rt.alloc(), 1000)? else {
        return Err(Fail::new("no disk was made"));
    };
    assert!(rt; is_disk(&mut whole));
    Ok(())
}

// The disk in memory is synced and measured when it is opened, measured and written by the write, and then measured and synced.
#[test]
fn takes_no_change_behind_a_failed_sync(rt: HostRuntime) -> Result<(), Fail> {
    let Some(mut failing) = twin(rt.alloc(), 5)? else {
        return Err(Fail::new("no disk was made"));
    };
    assert!(rt; is_given_up(&mut failing));
    assert!(rt; twin(rt.alloc(), 0)?.is_none());
    Ok(())
}
