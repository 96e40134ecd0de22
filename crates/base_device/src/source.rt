// Where bytes come from.
ghost use Rattle.std.specs.Prelude.{◌≡◌, ◌≢◌, ◌↔◌, ◌≤◌, ◌<◌, ◌++◌, ℕ, List, Option, Some, length, min, [], drop, take, IsErr, IfOk, IfErr, OnErr};
ghost use Rattle.std.specs.Io.{ReadsAtMost};
ghost use Rattle.std.specs.Io.KnownBytes.{ReadConsumes};
ghost use Rattle.std.specs.IoError.{error_kind};
ghost use Rattle.base_device.specs.Causes.{HasCause, faults_after};
ghost use Rattle.base_device.specs.InMemory.{MemorySource, count_read, ReadFails, source_after_read, after_failed_read};

use crate::Failed;
use crate::faults::{counted, next};
use crate::memory::is_listed;
use crate::stream::StdStream;
use std::io;
use std::io::{ErrorKind, Read};
use std::marker::Model;

/// A source of bytes.
pub trait Source {
    /// The bytes that are left, where it tells them.
    ghost left: { Self → Option (List ℕ) };

    /// How often it has failed; it never falls.
    ghost faults: { Self → ℕ };

    /// Reads the next bytes into the front of `buf` and answers how many they are, at most
    /// `buf.len()`. `Ok(0)` at a buffer that is not empty is the end. It has no condition. `Failed`
    /// comes only where the count of faults rose, or stands at its type's end, and then no byte was
    /// handed over. The count stays as it was where the call succeeds. A source that tells its bytes keeps
    /// telling them.
    fn read(&mut self, buf: &mut [u8]) -> Result<usize, Failed>
        ensures bound { ReadsAtMost result buf.new }
        ensures bytes { ReadConsumes (left self.old) (left self.new) result buf.new }
        ensures cause { HasCause (faults self.old) (faults self.new) result };
}

impl<R: Read> Source for StdStream<R> {
    /// The bytes that the reader has left, where it tells them.
    ghost left = { λ s. R.remaining s.inner };

    ghost faults = { λ s. s.faults };

    /// One read of the reader. An interrupted one is tried again and is no fault; after 2^64 - 1
    /// interruptions, and at every other error, the call fails.
    fn read(&mut self, buf: &mut [u8]) -> Result<usize, Failed>
        ensures bound { ReadsAtMost result buf.new }
        ensures bytes { ReadConsumes (R.remaining self.old.inner) (R.remaining self.new.inner)
            result buf.new }
        ensures cause { HasCause self.old.faults self.new.faults result }
        ensures counted { self.new.faults ≡ faults_after self.old.faults result }
    {
        let outcome = read_once(&mut self.inner, buf);
        counted(&mut self.faults, outcome)
    }
}

// One read, tried again where a signal interrupts it.
fn read_once<R: Read>(input: &mut R, buf: &mut [u8]) -> io::Result<usize>
    ensures bound { ReadsAtMost result buf.new }
    ensures bytes { ReadConsumes (R.remaining input.old) (R.remaining input.new) result buf.new }
    ensures retried { IfErr result (λ error. error_kind error ≢ ErrorKind.Interrupted) }
{
    for _ in 0..u64::MAX {
        match input.read(buf) {
            Err(error) if error.kind() == ErrorKind::Interrupted => {}
            ended => return ended,
        }
    }
    Err(io::Error::from(ErrorKind::TimedOut))
}

/// Bytes in memory, with the numbers of the calls that fail. No call of it takes memory.
#[derive(Drop)]
pub struct MemSource {
    bytes: Vec<u8>,
    at: usize,
    most: usize,
    calls: u64,
    faults: u64,
    fail: Vec<u64>,
}

impl Model for MemSource {
    ghost use Rattle.std.specs.Prelude.{◌≤◌, drop, vec_len};
    ghost use Rattle.base_device.specs.InMemory.{MemorySource};

    ghost Value = { MemorySource };

    ghost view = { λ s. record {
      left = drop s.at s.bytes.items;
      most = s.most;
      calls = s.calls;
      faults = s.faults;
      fail = s.fail.items;
    } };

    ghost invariant = { λ s. (s.at ≤ vec_len s.bytes) × (1 ≤ s.most) };
}

impl MemSource {
    /// A source of these bytes, with no limit of the bytes of one call, whose calls of the listed
    /// numbers, from 0, fail.
    pub fn new(bytes: Vec<u8>, fail: Vec<u64>) -> MemSource
        ensures { result ≡ record {
          left = bytes.items;
          most = usize.MAX;
          calls = 0;
          faults = 0;
          fail = fail.items;
        } }
    {
        MemSource {
            bytes,
            at: 0,
            most: usize::MAX,
            calls: 0,
            faults: 0,
            fail,
        }
    }

    /// From now on one call hands over at most this many bytes.
    pub fn chunk(&mut self, most: usize)
        requires { 1 ≤ most }
        ensures { self.new ≡ record self.old { most = most } }
    {
        self.most = most;
    }
}

impl Source for MemSource {
    ghost left = { λ s. Some s.left };

    ghost faults = { λ s. s.faults };

    /// Fails exactly where the number of this call is listed.
    fn read(&mut self, buf: &mut [u8]) -> Result<usize, Failed>
        ensures bound { ReadsAtMost result buf.new }
        ensures bytes { ReadConsumes (Some self.old.left) (Some self.new.left) result buf.new }
        ensures cause { HasCause self.old.faults self.new.faults result }

        // The exact effect on the bytes in memory.
        ensures fails { IsErr result ↔ ReadFails self.old }
        ensures count { IfOk result (λ n. n ≡ count_read self.old (length buf.old)) }
        ensures copied { IfOk result (λ n. buf.new ≡ take n self.old.left ++ drop n buf.old) }
        ensures ok { IfOk result (λ n. self.new ≡ source_after_read self.old n) }
        ensures err { OnErr result (self.new ≡ after_failed_read self.old) }
        ensures kept { OnErr result (buf.new ≡ buf.old) }
    {
        let call = self.calls;
        self.calls = next(call);
        if is_listed(&self.fail, call) {
            self.faults = next(self.faults);
            return Err(Failed);
        }
        let count = copy(buf, &self.bytes[self.at..], self.most);
        self.at += count;
        Ok(count)
    }
}

// Copies the front of `from`, at most `most` bytes, as far as there is room, and answers how many.
pub(crate) fn copy(buf: &mut [u8], from: &[u8], most: usize) -> usize
    requires { 1 ≤ most }
    ensures count { result ≡ min (length buf.old) (min most (length from.now)) }
    ensures copied { buf.new ≡ take result from.now ++ drop result buf.old }
    ensures front { take result buf.new ≡ take result from.now }
    ensures end { result ≡ 0 → 0 < length buf.old → from.now ≡ [] }
{
    let count = buf.len().min(most.min(from.len()));
    buf[..count].copy_from_slice(&from[..count]);
    count
}
