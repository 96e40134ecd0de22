// The bytes that a disk in memory reads, now and after a crash.
ghost use Rattle.std.specs.Prelude.{◌≡◌, ◌≤◌, ◌+◌, length, replicate, vec_len, vec_capacity, IfOk};
ghost use Rattle.base_device.specs.Disks.{written};
ghost use Rattle.base_device.specs.Changes.{wrote, cut_to, synced, at_rest, changed};

use crate::memory::{fill, put};
use base_num::Memory;
use std::alloc::Global;
use std::marker::Model;

// The byte that a torn write leaves in each of its places.
const TORN: u8 = 165;

// The bytes of a read, now and after each kind of crash, in memory that is taken when they
// are made.
#[derive(Drop)]
pub(crate) struct Readings {
    kept: Vec<u8>,
    lost: Vec<u8>,
    torn: Vec<u8>,
    space: usize,
}

impl Model for Readings {
    ghost use Rattle.std.specs.Prelude.{◌≡◌, ◌≤◌, vec_len, vec_capacity};
    ghost use Rattle.base_device.specs.Readings.{MemoryReadings};

    ghost Value = { MemoryReadings };

    ghost view = { λ r. record {
      contents = record { kept = r.kept.items; lost = r.lost.items; torn = r.torn.items };
      space = r.space;
    } };

    ghost invariant = { λ r. (vec_len r.torn ≡ vec_len r.kept) × (vec_len r.kept ≤ r.space)
        × (r.space ≤ vec_capacity r.kept) × (r.space ≤ vec_capacity r.lost)
        × (r.space ≤ vec_capacity r.torn) };
}

impl Readings {
    // These bytes, of which nothing may be lost, with space for so many more.
    pub(crate) fn new(alloc: Global, bytes: Vec<u8>, room: usize) -> Result<Readings, Memory>
        ensures { IfOk result (λ r. r ≡ record {
          contents = at_rest bytes.items;
          space = length bytes.items + room;
        }) }
    {
        let mut kept = bytes;
        kept.reserve(room)?;
        let space = kept.len() + room;
        let lost = copied(alloc, &kept, space)?;
        let torn = copied(alloc, &kept, space)?;
        Ok(Readings {
            kept,
            lost,
            torn,
            space,
        })
    }

    pub(crate) fn kept(&self) -> &[u8]
        ensures { result.now ≡ self.now.contents.kept }
    {
        self.kept.as_slice()
    }

    pub(crate) fn lost(&self) -> &[u8]
        ensures { result.now ≡ self.now.contents.lost }
    {
        self.lost.as_slice()
    }

    pub(crate) fn torn(&self) -> &[u8]
        ensures { result.now ≡ self.now.contents.torn }
    {
        self.torn.as_slice()
    }

    pub(crate) fn write(&mut self, at: usize, piece: &[u8])
        requires place { at ≤ length self.old.contents.kept }
        requires space { at + length piece.now ≤ self.old.space }
        ensures { self.new ≡ record self.old {
          contents = changed (wrote at piece.now) self.old.contents;
        } }
    {
        put(&mut self.kept, at, piece);
        mark(&mut self.torn, at, piece.len());
    }

    pub(crate) fn cut(&mut self, len: usize)
        ensures { self.new ≡ record self.old {
          contents = changed (cut_to len) self.old.contents;
        } }
    {
        self.kept.truncate(len);
        self.torn.truncate(len);
    }

    pub(crate) fn sync(&mut self)
        ensures { self.new ≡ record self.old {
          contents = changed synced self.old.contents;
        } }
    {
        refill(&mut self.lost, &self.kept);
        refill(&mut self.torn, &self.kept);
    }
}

// A copy with space for so many bytes in all.
fn copied(alloc: Global, bytes: &[u8], space: usize) -> Result<Vec<u8>, Memory>
    requires { length bytes.now ≤ space }
    ensures same { IfOk result (λ copy. copy.items ≡ bytes.now) }
    ensures space { IfOk result (λ copy. space ≤ vec_capacity copy) }
{
    let mut copy = Vec::with_capacity(alloc, space)?;
    copy.extend_from_slice(bytes)?;
    Ok(copy)
}

// Writes so many torn bytes over what is there, and past the end.
fn mark(bytes: &mut Vec<u8>, at: usize, count: usize)
    requires place { at ≤ vec_len bytes.old }
    requires space { at + count ≤ vec_capacity bytes.old }
    ensures written { bytes.new.items ≡ written bytes.old.items at (replicate count 165) }
    ensures capacity { vec_capacity bytes.old ≤ vec_capacity bytes.new }
{
    let end = bytes.len().max(at + count);
    let Ok(()) = bytes.resize(end, TORN) else {
        unreachable!();
    };
    fill(&mut bytes[at..at + count], TORN);
}

// Puts other bytes in the place of all.
fn refill(bytes: &mut Vec<u8>, from: &[u8])
    requires { length from.now ≤ vec_capacity bytes.old }
    ensures same { bytes.new.items ≡ from.now }
    ensures capacity { vec_capacity bytes.old ≤ vec_capacity bytes.new }
{
    bytes.clear();
    let Ok(()) = bytes.extend_from_slice(from) else {
        unreachable!();
    };
}
