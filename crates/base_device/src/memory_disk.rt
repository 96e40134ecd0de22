// A disk in memory.
ghost use Rattle.std.specs.Prelude.{◌≡◌, ◌↔◌, ◌≤◌, ◌+◌, [], length, take, drop, Some, IsTrue, IsErr, IfOk, OnOk, OnErr};
ghost use Rattle.base_device.specs.Causes.{HasCause};
ghost use Rattle.base_device.specs.Changes.{cut_to, synced, Image};
ghost use Rattle.base_device.specs.MemoryDisks.{reads, fresh, IsPast, CallFails, ChangeFails, DiskWriteFails, after_failed, after_len, after_read, after_change, after_write, store_of, lawful_store};
ghost use Rattle.base_device.specs.Crashes.{left_by, IsTorn};

pub(crate) mod history;
pub(crate) mod readings;

use crate::Failed;
use crate::disk::Disk;
use crate::faults::next;
use crate::memory::is_listed;
use base_num::Memory;
use history::History;
use readings::Readings;
use std::alloc::Global;
use std::marker::Model;

/// The effect of a crash on what was written and cut since the last sync.
#[derive(Clone, Copy, Debug, PartialEq, Eq)]
pub enum Crash {
    /// All of it stays.
    Kept,
    /// Nothing of it stays.
    Lost,
    /// The length stays, and each written range holds the byte 165.
    Torn,
}

/// Bytes in memory as a disk, with the numbers of the calls that fail. It takes its memory when it is
/// made, and no call of it takes memory. It keeps all changes since, so that contracts can name what a
/// crash at an earlier moment might have left.
#[derive(Drop)]
pub struct MemDisk {
    initial: Vec<u8>,
    readings: Readings,
    history: History,
    fail: Vec<u64>,
    stop: Option<u64>,
    calls: u64,
    faults: u64,
    longest: u64,
}

impl Model for MemDisk {
    ghost use Rattle.base_device.specs.MemoryDisks.{MemoryDisk, Agrees};

    ghost Value = { MemoryDisk };

    ghost view = { λ d. record {
      initial = d.initial.items;
      log = d.history.log;
      taken = d.history.taken;
      room = d.history.room;
      changes = d.history.changes;
      fail = d.fail.items;
      stop = d.stop;
      calls = d.calls;
      faults = d.faults;
      longest = d.longest;
    } };

    ghost invariant = { λ d. Agrees d.initial.items d.history d.readings };
}

impl MemDisk {
    /// A disk with these bytes, of which nothing may be lost, whose calls of the listed numbers, from
    /// 0, fail. It takes written pieces of `room` bytes in all, and so many `changes`, which are
    /// writes, cuts and syncs. `Memory` where the space for them is refused.
    pub fn new(
        alloc: Global,
        bytes: Vec<u8>,
        fail: Vec<u64>,
        room: usize,
        changes: usize,
    ) -> Result<MemDisk, Memory>
        ensures { IfOk result (λ disk. disk ≡ fresh bytes.items fail.items room changes) }
    {
        let initial = bytes.to_vec(alloc)?;
        let readings = Readings::new(alloc, bytes, room)?;
        let history = History::new(alloc, room, changes)?;
        Ok(MemDisk {
            initial,
            readings,
            history,
            fail,
            stop: None,
            calls: 0,
            faults: 0,
            longest: 0,
        })
    }

    /// From now on each call fails whose number, from 0 since the disk was made, is `calls` or more.
    pub fn stop_after(&mut self, calls: u64)
        ensures { self.new ≡ record self.old { stop = Some calls } }
    {
        self.stop = Some(calls);
    }

    /// The bytes that a read gives.
    pub fn bytes(&self) -> &[u8]
        ensures { result.now ≡ reads self.now }
    {
        self.readings.kept()
    }

    /// How many calls there were, those that failed among them; at most 2^64 - 1.
    pub fn calls(&self) -> u64
        ensures { result ≡ self.now.calls }
    {
        self.calls
    }

    /// The length of the longest read that went through, 0 before the first.
    pub fn longest_read(&self) -> u64
        ensures { result ≡ self.now.longest }
    {
        self.longest
    }

    /// The disk after a crash, with the room and the changes with which this one was made. None of its
    /// calls was made or is to fail. `Memory` where its space is refused.
    pub fn crash(&self, alloc: Global, how: Crash) -> Result<MemDisk, Memory>
        ensures left { IfOk result (λ disk.
            disk ≡ fresh (left_by how self.now) [] self.now.room self.now.changes) }
        ensures torn { how ≡ Crash.Torn → IfOk result (λ disk. IsTorn self.now (reads disk)) }
        ensures image { IfOk result (λ disk. Image self.now.log self.now.initial (reads disk)) }
    {
        let (room, changes) = (self.history.room(), self.history.changes());
        let bytes = self.left(how).to_vec(alloc)?;
        MemDisk::new(alloc, bytes, Vec::new(alloc), room, changes)
    }

    // Gives what a read gives after a crash.
    fn left(&self, how: Crash) -> &[u8]
        ensures bytes { result.now ≡ left_by how self.now }
        ensures image { Image self.now.log self.now.initial result.now }
        ensures torn { how ≡ Crash.Torn → IsTorn self.now result.now }
    {
        match how {
            Crash::Kept => self.readings.kept(),
            Crash::Lost => self.readings.lost(),
            Crash::Torn => self.readings.torn(),
        }
    }

    fn is_stopped(&self) -> bool
        ensures { IsTrue result ↔ IsPast self.now.stop self.now.calls }
    {
        match self.stop {
            Some(stop) => stop <= self.calls,
            None => false,
        }
    }

    // Tells whether the next call fails, whatever it is.
    fn refuses(&self) -> bool
        ensures { IsTrue result ↔ CallFails self.now }
    {
        is_listed(&self.fail, self.calls) || self.is_stopped()
    }

    // Tells whether the next call fails if it is a cut or a sync.
    fn refuses_change(&self) -> bool
        ensures { IsTrue result ↔ ChangeFails self.now }
    {
        self.refuses() || self.history.is_full()
    }

    // Tells whether the next call fails if it is a write of a piece of this length.
    fn refuses_write(&self, len: usize) -> bool
        ensures { IsTrue result ↔ DiskWriteFails self.now len }
    {
        self.refuses_change() || self.history.lacks_room(len)
    }

    // Counts a call that fails.
    fn failed(&mut self) -> Failed
        ensures { self.new ≡ after_failed self.old }
    {
        self.calls = next(self.calls);
        self.faults = next(self.faults);
        Failed
    }
}

impl Disk for MemDisk {
    ghost store = { λ d. store_of d };

    ghost readable = { λ d. length (reads d) };

    ghost faults = { λ d. d.faults };

    ghost lawful = { λ d. lawful_store d };

    /// Fails exactly where the number of this call is listed or past a stop.
    fn len(&mut self) -> Result<u64, Failed>
        ensures fails { IsErr result ↔ CallFails self.old }
        ensures value { IfOk result (λ n. n ≡ length (reads self.old)) }
        ensures ok { OnOk result (self.new ≡ after_len self.old) }
        ensures err { OnErr result (self.new ≡ after_failed self.old) }
        ensures cause { HasCause self.old.faults self.new.faults result }
    {
        if self.refuses() {
            return Err(self.failed());
        }
        self.calls = next(self.calls);
        Ok(self.readings.kept().len() as u64)
    }

    /// Fails exactly where the number of this call is listed or past a stop.
    fn read_at(&mut self, at: u64, into: &mut [u8]) -> Result<(), Failed>
        requires range { at + length into.old ≤ length (reads self.old) }
        ensures fails { IsErr result ↔ CallFails self.old }
        ensures value { OnOk result (into.new ≡ take (length into.old) (drop at (reads self.old))) }
        ensures ok { OnOk result (self.new ≡ after_read self.old (length into.old)) }
        ensures err { OnErr result (self.new ≡ after_failed self.old) }
        ensures cause { HasCause self.old.faults self.new.faults result }
        ensures kept { OnErr result (into.new ≡ into.old) }
    {
        if self.refuses() {
            return Err(self.failed());
        }
        self.calls = next(self.calls);
        self.longest = self.longest.max(into.len() as u64);
        let start = at as usize;
        into.copy_from_slice(&self.readings.kept()[start..start + into.len()]);
        Ok(())
    }

    /// Fails exactly where the number of this call is listed or past a stop, where the piece would
    /// pass the room, or where no change is left.
    fn write_at(&mut self, at: u64, piece: &[u8]) -> Result<(), Failed>
        requires place { at ≤ length (reads self.old) }
        ensures fails { IsErr result ↔ DiskWriteFails self.old (length piece.now) }
        ensures ok { OnOk result (self.new ≡ after_write self.old at piece.now) }
        ensures err { OnErr result (self.new ≡ after_failed self.old) }
        ensures cause { HasCause self.old.faults self.new.faults result }
    {
        if self.refuses_write(piece.len()) {
            return Err(self.failed());
        }
        self.calls = next(self.calls);
        let start = at as usize;
        self.readings.write(start, piece);
        self.history.add_write(start, piece);
        Ok(())
    }

    /// Fails exactly where the number of this call is listed or past a stop, or where no change is
    /// left.
    fn cut(&mut self, len: u64) -> Result<(), Failed>
        requires place { len ≤ length (reads self.old) }
        ensures fails { IsErr result ↔ ChangeFails self.old }
        ensures ok { OnOk result (self.new ≡ after_change self.old (cut_to len)) }
        ensures err { OnErr result (self.new ≡ after_failed self.old) }
        ensures cause { HasCause self.old.faults self.new.faults result }
    {
        if self.refuses_change() {
            return Err(self.failed());
        }
        self.calls = next(self.calls);
        let end = len as usize;
        self.readings.cut(end);
        self.history.add_cut(end);
        Ok(())
    }

    /// Fails exactly where the number of this call is listed or past a stop, or where no change is
    /// left.
    fn sync(&mut self) -> Result<(), Failed>
        ensures fails { IsErr result ↔ ChangeFails self.old }
        ensures ok { OnOk result (self.new ≡ after_change self.old synced) }
        ensures err { OnErr result (self.new ≡ after_failed self.old) }
        ensures cause { HasCause self.old.faults self.new.faults result }
    {
        if self.refuses_change() {
            return Err(self.failed());
        }
        self.calls = next(self.calls);
        self.readings.sync();
        self.history.add_sync();
        Ok(())
    }
}
