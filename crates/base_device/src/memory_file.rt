// The calls of a file's disk, over a file that tells its bytes.
ghost use Rattle.std.specs.Prelude.{◌≡◌, ◌^◌, ◌≤◌, List, ℕ, length, IfSome, OnOk, IfOk};
ghost use Rattle.base_device.specs.Disks.{Only, Elapses};

use crate::faults::counted;
use crate::file_calls::FileCalls;
use crate::file_like::FileLike;
use crate::obstacle::{Obstacle, Refused};
use crate::{Disk, Failed};
use std::io;
use std::io::ErrorKind;

/// A disk as a file, whose place is a number beside it.
#[derive(Drop)]
pub struct DiskFile<D> {
    disk: D,
    at: u64,
}

impl<D: Disk> DiskFile<D> {
    /// This disk, at its first byte.
    pub fn new(disk: D) -> DiskFile<D>
        ensures { result.disk ≡ disk }
    {
        DiskFile { disk, at: 0 }
    }
}

// Gives the answer of a file's call as that of a disk.
fn answered<T>(outcome: Result<T, Failed>) -> io::Result<T>
    ensures ok { IfOk result (λ value. outcome ≡ Ok value) }
{
    match outcome {
        Ok(value) => Ok(value),
        Err(Failed) => Err(io::Error::from(ErrorKind::Other)),
    }
}

impl<D: Disk> FileLike for DiskFile<D> {
    ghost store = { λ f. D.store f.disk };

    ghost place = { λ f. f.at };

    ghost lawful = { λ f. D.lawful f.disk };

    fn size(&mut self) -> io::Result<u64> {
        let outcome = self.disk.len();
        answered(outcome)
    }

    fn go_to(&mut self, at: u64) -> io::Result<()> {
        self.at = at;
        Ok(())
    }

    /// Fails where the range reaches past the end, or past 2^62.
    fn fill(&mut self, into: &mut [u8]) -> io::Result<()> {
        let outcome = self.disk.len();
        let end = answered(outcome)?.min(1 << 62);
        if end < self.at || end - self.at < into.len() as u64 {
            return Err(io::Error::from(ErrorKind::UnexpectedEof));
        }
        let outcome = self.disk.read_at(self.at, into);
        answered(outcome)
    }

    fn write_whole(&mut self, piece: &[u8]) -> io::Result<()> {
        let outcome = self.disk.write_at(self.at, piece);
        answered(outcome)
    }

    fn resize(&mut self, len: u64) -> io::Result<()> {
        let outcome = self.disk.cut(len);
        answered(outcome)
    }

    fn sync_whole(&mut self) -> io::Result<()> {
        let outcome = self.disk.sync();
        answered(outcome)
    }
}

/// A disk by the very calls that a file's disk makes, over a file that may tell its bytes.
#[derive(Drop)]
pub struct TwinDisk<F> {
    calls: FileCalls<F>,
    faults: u64,
}

impl<F: FileLike + Drop> TwinDisk<F> {
    /// The file as a disk that has not failed. `Failed` where the file cannot be synced or measured.
    pub fn new(file: F) -> Result<TwinDisk<F>, Failed> {
        match FileCalls::writing(file) {
            Ok(calls) => Ok(TwinDisk { calls, faults: 0 }),
            Err(_) => Err(Failed),
        }
    }

    // Syncs the file, and reads back what was written last.
    fn synced(&mut self) -> Result<(), Refused>
        ensures durable { OnOk result (IfSome (F.store self.old.calls.file).reads (λ bytes. Only bytes (F.store self.new.calls.file))) }
        ensures reads { (F.store self.new.calls.file).reads ≡ (F.store self.old.calls.file).reads }
        ensures crash { (c : List ℕ) → (F.store self.new.calls.file).images c → (F.store self.old.calls.file).images c }
        ensures time { Elapses (F.store self.old.calls.file) (F.store self.new.calls.file) }
        ensures faults { self.new.faults ≡ self.old.faults }
    {
        let kept = self.calls.synced()?;
        if !self.calls.holds(&kept)? {
            return Err(Refused(Some(Obstacle::Changed)));
        }
        self.calls.go_on(kept);
        Ok(())
    }
}

impl<F: FileLike + Drop> Disk for TwinDisk<F> {
    ghost store = { λ d. F.store d.calls.file };

    ghost readable = { λ d. 2 ^ 64 };

    ghost faults = { λ d. d.faults };

    ghost lawful = { λ d. F.lawful d.calls.file };

    fn len(&mut self) -> Result<u64, Failed> {
        let outcome = self.calls.measured();
        counted(&mut self.faults, outcome)
    }

    fn read_at(&mut self, at: u64, into: &mut [u8]) -> Result<(), Failed> {
        let outcome = self.calls.fetched(at, into);
        counted(&mut self.faults, outcome)
    }

    fn write_at(&mut self, at: u64, piece: &[u8]) -> Result<(), Failed> {
        let outcome = self.calls.put(at, piece);
        counted(&mut self.faults, outcome)
    }

    fn cut(&mut self, len: u64) -> Result<(), Failed> {
        let outcome = self.calls.resized(len);
        counted(&mut self.faults, outcome)
    }

    fn sync(&mut self) -> Result<(), Failed> {
        let outcome = self.synced();
        counted(&mut self.faults, outcome)
    }
}
