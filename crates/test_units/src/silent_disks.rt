// A disk in memory that tells nothing of its bytes.
ghost use Rattle.std.specs.Prelude.{◌≡◌, ◌≤◌, ◌^◌, length, IfOk};
ghost use Rattle.base_device.specs.Causes.{HasCause};
ghost use Rattle.base_device.specs.Disks.{unobservable, unobservable_lawful};
ghost use Rattle.base_device.specs.MemoryDisks.{reads};

use base_device::{Crash, Disk, Failed, MemDisk};
use base_num::Memory;
use std::alloc::Global;

// A disk in memory with room for what a short journal takes.
pub(crate) fn disk_of(alloc: Global, bytes: &[u8]) -> Result<MemDisk, Memory> {
    MemDisk::new(alloc, bytes.to_vec(alloc)?, Vec::new(alloc), 400, 20)
}

// A disk in memory that tells nothing of its bytes, so that no call asks what they are.
#[derive(Drop)]
pub(crate) struct Silent {
    disk: MemDisk,
}

impl Silent {
    // A disk of these bytes whose calls from the number `calls` on fail.
    pub(crate) fn stopped(alloc: Global, bytes: &[u8], calls: u64) -> Result<Silent, Memory> {
        let mut disk = disk_of(alloc, bytes)?;
        disk.stop_after(calls);
        Ok(Silent { disk })
    }

    pub(crate) fn crash(&self, alloc: Global, how: Crash) -> Result<Silent, Memory> {
        Ok(Silent {
            disk: self.disk.crash(alloc, how)?,
        })
    }

    pub(crate) fn bytes(&self) -> &[u8] {
        self.disk.bytes()
    }

    fn end(&self) -> u64
        ensures { result ≡ length (reads self.now.disk) }
    {
        self.disk.bytes().len() as u64
    }
}

impl Disk for Silent {
    ghost store = { λ s. unobservable };

    ghost readable = { λ s. 2 ^ 64 };

    ghost faults = { λ s. s.disk.faults };

    ghost lawful = { λ s. unobservable_lawful };

    fn len(&mut self) -> Result<u64, Failed>
        ensures readable { IfOk result (λ n. n ≤ 2 ^ 64) }
        ensures cause { HasCause self.old.disk.faults self.new.disk.faults result }
    {
        self.disk.len()
    }

    fn read_at(&mut self, at: u64, into: &mut [u8]) -> Result<(), Failed>
        ensures cause { HasCause self.old.disk.faults self.new.disk.faults result }
    {
        if self.end() < at || self.end() - at < into.len() as u64 {
            return Ok(());
        }
        self.disk.read_at(at, into)
    }

    fn write_at(&mut self, at: u64, piece: &[u8]) -> Result<(), Failed>
        ensures cause { HasCause self.old.disk.faults self.new.disk.faults result }
    {
        let place = at.min(self.end());
        self.disk.write_at(place, piece)
    }

    fn cut(&mut self, len: u64) -> Result<(), Failed>
        ensures cause { HasCause self.old.disk.faults self.new.disk.faults result }
    {
        let place = len.min(self.end());
        self.disk.cut(place)
    }

    fn sync(&mut self) -> Result<(), Failed>
        ensures cause { HasCause self.old.disk.faults self.new.disk.faults result }
    {
        self.disk.sync()
    }
}
