// A source, a sink and a disk that never fail.
ghost use Rattle.std.specs.Prelude.{◌≡◌, ◌≤◌, ◌+◌, ◌^◌, length, min, take, drop, None, Some, ◌++◌, IsOk, IfOk};
ghost use Rattle.std.specs.Io.{ReadsAtMost};
ghost use Rattle.std.specs.Io.KnownBytes.{ReadConsumes};
ghost use Rattle.base_device.specs.Causes.{HasCause, Takes};
ghost use Rattle.base_device.specs.Disks.{unobservable, unobservable_lawful};
ghost use Rattle.base_device.specs.Faultless.{read_of, front_after_write, front_after_cut};

use crate::Failed;
use crate::disk::Disk;
use crate::memory::{fill, put};
use crate::sink::Sink;
use crate::source::{Source, copy};
use base_num::Memory;
use std::alloc::Global;
use std::marker::Model;

/// Bytes in memory as a source. It tells its bytes, and no call of it fails.
#[derive(Drop)]
pub struct FaultlessSource {
    bytes: Vec<u8>,
    at: usize,
}

impl Model for FaultlessSource {
    ghost use Rattle.std.specs.Prelude.{◌≤◌, ℕ, List, drop, vec_len};

    ghost Value = { List ℕ };

    ghost view = { λ s. drop s.at s.bytes.items };

    ghost invariant = { λ s. s.at ≤ vec_len s.bytes };
}

impl FaultlessSource {
    /// A source of these bytes.
    pub fn new(bytes: Vec<u8>) -> FaultlessSource
        ensures { result ≡ bytes.items }
    {
        FaultlessSource { bytes, at: 0 }
    }
}

impl Source for FaultlessSource {
    ghost left = { λ s. Some s };

    ghost faults = { λ s. 0 };

    fn read(&mut self, buf: &mut [u8]) -> Result<usize, Failed>
        ensures bound { ReadsAtMost result buf.new }
        ensures bytes { ReadConsumes (Some self.old) (Some self.new) result buf.new }
        ensures cause { HasCause 0 0 result }

        // It hands over all that the buffer has room for.
        ensures never { IsOk result }
        ensures count { IfOk result (λ n. n ≡ min (length buf.old) (length self.old)) }
        ensures copied { IfOk result (λ n. buf.new ≡ take n self.old ++ drop n buf.old) }
        ensures left { IfOk result (λ n. self.new ≡ drop n self.old) }
    {
        let count = copy(buf, &self.bytes[self.at..], usize::MAX);
        self.at += count;
        Ok(count)
    }
}

/// A sink that takes each piece whole and keeps none of it. It tells nothing, and no call of it fails.
#[derive(Drop)]
pub struct FaultlessSink {}

impl FaultlessSink {
    /// A sink.
    pub fn new() -> FaultlessSink {
        FaultlessSink {}
    }
}

impl Sink for FaultlessSink {
    ghost taken = { λ s. None };

    ghost faults = { λ s. 0 };

    fn write(&mut self, piece: &[u8]) -> Result<usize, Failed>
        ensures bytes { Takes None None result piece.now }
        ensures cause { HasCause 0 0 result }
        ensures never { IsOk result }
        ensures whole { IfOk result (λ n. n ≡ length piece.now) }
    {
        Ok(piece.len())
    }
}

/// The first bytes of a disk in memory, with a length that counts those past them too. It tells
/// nothing of its bytes, and no call of it fails. As it tells nothing, a place past its end is no
/// error: a write there leaves zeros between, a cut there does nothing, and a read gives zeros there.
#[derive(Drop)]
pub struct FaultlessDisk {
    kept: Vec<u8>,
    space: usize,
    length: u64,
}

impl Model for FaultlessDisk {
    ghost use Rattle.std.specs.Prelude.{◌≤◌, vec_len, vec_capacity};
    ghost use Rattle.base_device.specs.Faultless.{FrontDisk};

    ghost Value = { FrontDisk };

    ghost view = { λ d. record { kept = d.kept.items; space = d.space; length = d.length } };

    ghost invariant = { λ d. (vec_len d.kept ≤ d.space) × (d.space ≤ vec_capacity d.kept)
        × (vec_len d.kept ≤ d.length) };
}

impl FaultlessDisk {
    /// A disk of these bytes, with space for `room` bytes more. What is written past that is not kept
    /// and reads as zeros. `Memory` where the space is refused.
    pub fn new(alloc: Global, bytes: &[u8], room: usize) -> Result<FaultlessDisk, Memory>
        ensures { IfOk result (λ disk. disk ≡ record {
          kept = bytes.now;
          space = length bytes.now + room;
          length = length bytes.now;
        }) }
    {
        let mut kept = bytes.to_vec(alloc)?;
        kept.reserve(room)?;
        Ok(FaultlessDisk {
            space: kept.len() + room,
            length: kept.len() as u64,
            kept,
        })
    }
}

impl Disk for FaultlessDisk {
    ghost store = { λ d. unobservable };

    ghost readable = { λ d. 2 ^ 64 };

    ghost faults = { λ d. 0 };

    ghost lawful = { λ d. unobservable_lawful };

    fn len(&mut self) -> Result<u64, Failed>
        ensures readable { IfOk result (λ n. n ≤ 2 ^ 64) }
        ensures cause { HasCause 0 0 result }
        ensures never { IsOk result }
        ensures value { IfOk result (λ n. n ≡ self.old.length) }
        ensures same { self.new ≡ self.old }
    {
        Ok(self.length)
    }

    fn read_at(&mut self, at: u64, into: &mut [u8]) -> Result<(), Failed>
        ensures cause { HasCause 0 0 result }
        ensures never { IsOk result }
        ensures value { into.new ≡ read_of self.old at (length into.old) }
        ensures same { self.new ≡ self.old }
    {
        fill(into, 0);
        let start = at.min(self.kept.len() as u64) as usize;
        copy(into, &self.kept[start..], usize::MAX);
        Ok(())
    }

    fn write_at(&mut self, at: u64, piece: &[u8]) -> Result<(), Failed>
        requires end { at + length piece.now ≤ 2 ^ 62 }
        ensures cause { HasCause 0 0 result }
        ensures never { IsOk result }
        ensures written { self.new ≡ front_after_write self.old at piece.now }
    {
        let start = at.min(self.space as u64) as usize;
        let Ok(()) = self.kept.resize(self.kept.len().max(start), 0) else {
            unreachable!();
        };
        let count = piece.len().min(self.space - start);
        put(&mut self.kept, start, &piece[..count]);
        self.length = self.length.max(at + piece.len() as u64);
        Ok(())
    }

    fn cut(&mut self, len: u64) -> Result<(), Failed>
        ensures cause { HasCause 0 0 result }
        ensures never { IsOk result }
        ensures cut { self.new ≡ front_after_cut self.old len }
    {
        self.kept.truncate(len.min(self.kept.len() as u64) as usize);
        self.length = self.length.min(len);
        Ok(())
    }

    fn sync(&mut self) -> Result<(), Failed>
        ensures cause { HasCause 0 0 result }
        ensures never { IsOk result }
        ensures same { self.new ≡ self.old }
    {
        Ok(())
    }
}
