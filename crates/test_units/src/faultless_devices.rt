// A source, a sink and a disk that never fail.
use crate::disks::holds;
use base_device::{Disk, FaultlessDisk, FaultlessSink, FaultlessSource, Sink, Source};
use std::test::Fail;

// Tells whether writes are kept, of a disk of `abc` with room for two bytes more.
fn keeps_writes(disk: &mut FaultlessDisk) -> bool {
    disk.write_at(3, b"defg").is_ok()
        && holds(disk, b"abcde\0\0")
        && disk.write_at(1, b"xy").is_ok()
}

// Tells whether it is cut then, by a cut inside it and none by one behind it.
fn is_cut(disk: &mut FaultlessDisk) -> bool {
    disk.cut(4).is_ok() && disk.cut(9).is_ok() && disk.sync().is_ok() && holds(disk, b"axyd")
}

// Tells whether there are zeros then before a write behind its end, which finds no room.
fn has_zeros(disk: &mut FaultlessDisk) -> bool {
    disk.write_at(6, b"z").is_ok() && holds(disk, b"axyd\0\0\0")
}

#[test]
fn keeps_the_front(rt: HostRuntime) -> Result<(), Fail> {
    let mut disk = FaultlessDisk::new(rt.alloc(), b"abc", 2)?;
    assert!(rt; keeps_writes(&mut disk));
    assert!(rt; is_cut(&mut disk));
    assert!(rt; has_zeros(&mut disk));
    Ok(())
}

// Tells whether a read of four bytes hands over these.
fn hands_over(source: &mut FaultlessSource, want: &[u8]) -> bool {
    let mut buf = [0; 4];
    source.read(&mut buf) == Ok(want.len()) && buf.get(..want.len()) == Some(want)
}

#[test]
fn reads(rt: HostRuntime) -> Result<(), Fail> {
    let mut source = FaultlessSource::new(b"hello".to_vec(rt.alloc())?);
    assert!(rt; hands_over(&mut source, b"hell"));
    assert!(rt; hands_over(&mut source, b"o"));
    assert!(rt; hands_over(&mut source, b""));
    Ok(())
}

#[test]
fn writes(rt: HostRuntime) {
    assert_eq!(rt; FaultlessSink::new().write(b"abc"), Ok(3));
}
