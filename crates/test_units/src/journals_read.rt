// A journal's head, and its records up to its end.
use crate::journals::{BATCHES, TWO_RECORDS};
use crate::silent_disks::disk_of;
use base_device::Disk;
use base_num::Memory;
use journal_file::{
    CommitByte, CommitByteFault, Head, HeadFault, PayloadFault, payload, read_commit_byte,
    read_head,
};
use std::alloc::Global;
use std::test::Fail;

// How a journal is read to its end.
#[derive(Clone, Copy, Debug, PartialEq, Eq)]
enum Ending {
    Uncommitted,
    NotAJournal,
    Short(u64),
    Whole(u64),
    Other,
}

// Reads the record behind one commit byte after another, up to three.
fn read_to_end<D: Disk>(disk: &mut D, buffer: &mut Vec<u8>) -> Ending {
    let mut at = match read_head(disk) {
        Ok(Head::Uncommitted { .. }) => return Ending::Uncommitted,
        Ok(Head::Committed { .. }) => 51,
        Err(HeadFault::NotAJournal) => return Ending::NotAJournal,
        Err(HeadFault::Short { place }) => return Ending::Short(place),
        Err(_) => return Ending::Other,
    };
    for _ in 0..3 {
        if at > 1000 {
            return Ending::Other;
        }
        match read_commit_byte(disk, at) {
            Ok(CommitByte::Clear { tail }) => return Ending::Whole(tail),
            Ok(CommitByte::Set) => {}
            Err(CommitByteFault::Short { place }) => return Ending::Short(place),
            Err(CommitByteFault::DiskFault) => return Ending::Other,
        }
        match payload(disk, at, buffer) {
            Ok(next) => at = next,
            Err(PayloadFault::Short { place }) => return Ending::Short(place),
            Err(_) => return Ending::Other,
        }
    }
    Ending::Other
}

// How the journal of two records ends that is cut to this length.
fn cut_ending(len: usize) -> Ending {
    match len {
        0..=1 => Ending::Uncommitted,
        2..=8 => Ending::NotAJournal,
        9..=51 => Ending::Short(len as u64),
        52..=55 => Ending::Short(52),
        56..=99 => Ending::Short(56),
        100 => Ending::Short(100),
        101..=104 => Ending::Short(101),
        105..=148 => Ending::Short(105),
        149 => Ending::Short(149),
        _ => Ending::Whole(0),
    }
}

#[test]
fn ends_where_it_is_cut(rt: HostRuntime) -> Result<(), Fail> {
    let mut buffer = Vec::new(rt.alloc());
    for len in 0..=TWO_RECORDS.len() {
        let mut disk = disk_of(rt.alloc(), &TWO_RECORDS[..len])?;
        assert_eq!(rt;
            read_to_end(&mut disk, &mut buffer),
            cut_ending(len),
            "cut to {len}"
        );
    }
    Ok(())
}

// The head of a file of these bytes, the one at a place set.
fn changed_head(
    alloc: Global,
    bytes: &[u8],
    at: usize,
    value: u8,
) -> Result<Result<Head, HeadFault>, Memory> {
    let mut changed = bytes.to_vec(alloc)?;
    if let Some(byte) = changed.get_mut(at) {
        *byte = value;
    }
    Ok(read_head(&mut disk_of(alloc, &changed)?))
}

#[test]
fn reads_heads(rt: HostRuntime) -> Result<(), Fail> {
    let committed = Head::Committed {
        version: 2,
        digest: [100; 32],
        seed: 7,
        batch: 2,
    };
    let cases: [(&[u8], usize, u8, Result<Head, HeadFault>); 7] = [
        (BATCHES, 52, 2, Ok(committed)),
        (BATCHES, 52, 65, Err(HeadFault::BadBatch { batch: 65 })),
        (BATCHES, 10, 3, Err(HeadFault::OtherVersion { version: 3 })),
        (BATCHES, 0, 7, Ok(Head::Uncommitted { length: 54 })),
        (&BATCHES[..53], 52, 2, Err(HeadFault::Short { place: 53 })),
        (b"X", 0, b'X', Ok(Head::Uncommitted { length: 1 })),
        (b"hello", 0, b'h', Err(HeadFault::NotAJournal)),
    ];
    for (bytes, at, value, head) in cases {
        assert_eq!(rt;
            changed_head(rt.alloc(), bytes, at, value)?,
            head,
            "byte {at} set to {value}"
        );
    }
    Ok(())
}
