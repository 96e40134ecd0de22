// A file as the calls of a disk need it.
ghost use Rattle.std.specs.Prelude.{◌≡◌, ◌≤◌, ◌+◌, ◌^◌, ℕ, List, length, take, drop, is_some, option_map, IfOk, IfSome, OnOk};
ghost use Rattle.base_device.specs.Disks.{Store, Torn, Cut, Follows, Only, Elapses, Stays, Lawful, unobservable, unobservable_lawful, written};

use std::fs::OpenFile;
use std::io;
use std::io::{Read, Seek, SeekFrom, Write};

/// A file of bytes, and the place in it from which on the next call reads or writes. A file that tells its bytes keeps telling
/// them, and one that does not never does.
pub trait FileLike {
    /// The bytes that it holds and those that a crash may leave, where it tells them, and its clock.
    ghost store: { Self → Store };

    /// The place to which it was last told to go.
    ghost place: { Self → ℕ };

    /// As it reads it is one of its images, and its images are those of its last moment.
    ghost lawful: { (file : Self) → Lawful (store file) };

    /// The present length in bytes.
    fn size(&mut self) -> io::Result<u64>
        ensures value { IfOk result (λ n. IfSome (store self.old).reads (λ bytes. n ≡ length bytes)) }
        ensures stays { Stays (store self.old) (store self.new) };

    /// Goes to a place.
    fn go_to(&mut self, at: u64) -> io::Result<()>
        ensures place { OnOk result (place self.new ≡ at) }
        ensures stays { Stays (store self.old) (store self.new) };

    /// Fills `into` with the bytes from its place on. It fails where they end before that is full.
    fn fill(&mut self, into: &mut [u8]) -> io::Result<()>
        ensures value { OnOk result (IfSome (store self.old).reads (λ bytes.
            into.new ≡ take (length into.old) (drop (place self.old) bytes))) }
        ensures stays { Stays (store self.old) (store self.new) };

    /// Writes the whole piece from its place on.
    fn write_whole(&mut self, piece: &[u8]) -> io::Result<()>
        requires inside { IfSome (store self.old).reads (λ bytes. place self.old ≤ length bytes) }
        requires end { place self.old + length piece.now ≤ 2 ^ 62 }
        ensures written { OnOk result ((store self.new).reads
            ≡ option_map (λ bytes. written bytes (place self.old) piece.now) (store self.old).reads) }
        ensures observable { is_some (store self.new).reads ≡ is_some (store self.old).reads }
        ensures crash { Follows (Torn (place self.old) (length piece.now)) (store self.old) (store self.new) }
        ensures time { Elapses (store self.old) (store self.new) };

    /// Cuts the file to its first `len` bytes.
    fn resize(&mut self, len: u64) -> io::Result<()>
        requires inside { IfSome (store self.old).reads (λ bytes. len ≤ length bytes) }
        requires end { len ≤ 2 ^ 62 }
        ensures cut { OnOk result ((store self.new).reads
            ≡ option_map (take len) (store self.old).reads) }
        ensures observable { is_some (store self.new).reads ≡ is_some (store self.old).reads }
        ensures crash { Follows (Cut len) (store self.old) (store self.new) }
        ensures time { Elapses (store self.old) (store self.new) };

    /// Makes what was written and cut last.
    fn sync_whole(&mut self) -> io::Result<()>
        ensures durable { OnOk result (IfSome (store self.old).reads (λ bytes. Only bytes (store self.new))) }
        ensures reads { (store self.new).reads ≡ (store self.old).reads }
        ensures crash { (c : List ℕ) → (store self.new).images c → (store self.old).images c }
        ensures time { Elapses (store self.old) (store self.new) };
}

/// A file of std, which tells nothing of its bytes.
#[derive(Drop)]
pub struct StdFile<F> {
    file: F,
    at: u64,
}

impl<F> StdFile<F> {
    /// This file, at its first byte.
    pub fn new(file: F) -> StdFile<F> {
        StdFile { file, at: 0 }
    }
}

impl<F: Read + Write + Seek + OpenFile> FileLike for StdFile<F> {
    ghost store = { λ f. unobservable };

    ghost place = { λ f. f.at };

    ghost lawful = { λ f. unobservable_lawful };

    fn size(&mut self) -> io::Result<u64> {
        Ok(self.file.metadata()?.len())
    }

    fn go_to(&mut self, at: u64) -> io::Result<()> {
        self.file.seek(SeekFrom::Start(at))?;
        self.at = at;
        Ok(())
    }

    fn fill(&mut self, into: &mut [u8]) -> io::Result<()> {
        self.file.read_exact(into)
    }

    fn write_whole(&mut self, piece: &[u8]) -> io::Result<()> {
        self.file.write_all(piece)
    }

    fn resize(&mut self, len: u64) -> io::Result<()> {
        self.file.set_len(len)
    }

    fn sync_whole(&mut self) -> io::Result<()> {
        self.file.sync_all()
    }
}
