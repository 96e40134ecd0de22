// Where bytes go.
ghost use Rattle.std.specs.Prelude.{◌≡◌, ◌≢◌, ◌↔◌, ◌≤◌, [], length, take, ℕ, List, Option, Some, IsTrue, IsErr, IfOk, IfErr, OnErr};
ghost use Rattle.std.specs.Io.{WritesAtMost};
ghost use Rattle.std.specs.Io.KnownBytes.{Keeps, WriteAppends};
ghost use Rattle.std.specs.IoError.{error_kind};
ghost use Rattle.base_device.specs.Causes.{HasCause, Takes, faults_after};
ghost use Rattle.base_device.specs.InMemory.{MemorySink, count_written, WriteFails, sink_after_write, after_failed_write};

use crate::Failed;
use crate::faults::{counted, next};
use crate::memory::is_listed;
use crate::stream::StdStream;
use base_num::Memory;
use std::alloc::Global;
use std::io;
use std::io::{ErrorKind, Write};
use std::marker::Model;

/// A sink of bytes.
pub trait Sink {
    /// The bytes that it has taken, where it tells them.
    ghost taken: { Self → Option (List ℕ) };

    /// How often it has failed; it never falls.
    ghost faults: { Self → ℕ };

    /// Takes the front of the piece and answers how many bytes it took: at most `piece.len()`, and
    /// some of a piece that is not empty. It has no condition. `Failed` comes only where the count
    /// of faults rose, or stands at its type's end, and then some front of the piece was taken,
    /// which may be none of it. The count stays as it was where the call succeeds. A sink that tells its
    /// bytes keeps telling them.
    fn write(&mut self, piece: &[u8]) -> Result<usize, Failed>
        ensures bytes { Takes (taken self.old) (taken self.new) result piece.now }
        ensures cause { HasCause (faults self.old) (faults self.new) result };
}

impl<W: Write> Sink for StdStream<W> {
    /// The bytes that the writer holds, where it tells them.
    ghost taken = { λ s. W.contents s.inner };

    ghost faults = { λ s. s.faults };

    /// One write of the writer, and a flush. A write of a piece that takes nothing, a refused write
    /// and a refused flush fail the call; after a refused flush the writer holds the front of the
    /// piece that it took. An interrupted write or flush is tried again and is no fault, up to
    /// 2^64 - 1 interruptions.
    fn write(&mut self, piece: &[u8]) -> Result<usize, Failed>
        ensures bytes { Takes (W.contents self.old.inner) (W.contents self.new.inner) result piece.now }
        ensures cause { HasCause self.old.faults self.new.faults result }
        ensures counted { self.new.faults ≡ faults_after self.old.faults result }
    {
        let outcome = write_and_flush(&mut self.inner, piece);
        counted(&mut self.faults, outcome)
    }
}

// A write that takes something of a piece that is not empty, and a flush.
fn write_and_flush<W: Write>(output: &mut W, piece: &[u8]) -> io::Result<usize>
    ensures { Takes (W.contents output.old) (W.contents output.new) result piece.now }
{
    if piece.is_empty() {
        return Ok(0);
    }
    let count = write_once(output, piece)?;
    if count == 0 {
        return Err(io::Error::from(ErrorKind::WriteZero));
    }
    flush_once(output)?;
    Ok(count)
}

// One write, tried again where a signal interrupts it.
fn write_once<W: Write>(output: &mut W, piece: &[u8]) -> io::Result<usize>
    ensures bound { WritesAtMost result piece.now }
    ensures bytes { WriteAppends (W.contents output.old) (W.contents output.new) result piece.now }
    ensures retried { IfErr result (λ error. error_kind error ≢ ErrorKind.Interrupted) }
{
    for _ in 0..u64::MAX {
        match output.write(piece) {
            Err(error) if error.kind() == ErrorKind::Interrupted => {}
            ended => return ended,
        }
    }
    Err(io::Error::from(ErrorKind::TimedOut))
}

// A flush, tried again where a signal interrupts it.
fn flush_once<W: Write>(output: &mut W) -> io::Result<()>
    ensures bytes { Keeps (W.contents output.old) (W.contents output.new) }
    ensures retried { IfErr result (λ error. error_kind error ≢ ErrorKind.Interrupted) }
{
    for _ in 0..u64::MAX {
        match output.flush() {
            Err(error) if error.kind() == ErrorKind::Interrupted => {}
            ended => return ended,
        }
    }
    Err(io::Error::from(ErrorKind::TimedOut))
}

/// Memory that takes bytes, with the numbers of the calls that fail. It takes its room when it is
/// made, and no call of it takes memory.
#[derive(Drop)]
pub struct MemSink {
    bytes: Vec<u8>,
    room: usize,
    most: usize,
    calls: u64,
    faults: u64,
    fail: Vec<u64>,
}

impl Model for MemSink {
    ghost use Rattle.std.specs.Prelude.{◌≤◌, vec_len, vec_capacity};
    ghost use Rattle.base_device.specs.InMemory.{MemorySink};

    ghost Value = { MemorySink };

    ghost view = { λ s. record {
      taken = s.bytes.items;
      room = s.room;
      most = s.most;
      calls = s.calls;
      faults = s.faults;
      fail = s.fail.items;
    } };

    ghost invariant = { λ s. (vec_len s.bytes ≤ s.room)
        × (s.room ≤ vec_capacity s.bytes) × (1 ≤ s.most) };
}

impl MemSink {
    /// A sink that has taken nothing and takes `room` bytes in all, with no limit of the bytes of
    /// one call, whose calls of the listed numbers, from 0, fail. `Memory` where its room is refused.
    pub fn new(alloc: Global, fail: Vec<u64>, room: usize) -> Result<MemSink, Memory>
        ensures { IfOk result (λ sink. sink ≡ record {
          taken = [];
          room = room;
          most = usize.MAX;
          calls = 0;
          faults = 0;
          fail = fail.items;
        }) }
    {
        let Ok(bytes) = Vec::with_capacity(alloc, room) else {
            return Err(Memory);
        };
        Ok(MemSink {
            bytes,
            room,
            most: usize::MAX,
            calls: 0,
            faults: 0,
            fail,
        })
    }

    /// From now on one call takes at most this many bytes.
    pub fn chunk(&mut self, most: usize)
        requires { 1 ≤ most }
        ensures { self.new ≡ record self.old { most = most } }
    {
        self.most = most;
    }

    /// The bytes that it has taken.
    pub fn bytes(&self) -> &[u8]
        ensures { result.now ≡ self.now.taken }
    {
        self.bytes.as_slice()
    }

    // Tells whether the next write of a piece of this length fails.
    fn refuses(&self, len: usize) -> bool
        ensures { IsTrue result ↔ WriteFails self.now len }
    {
        is_listed(&self.fail, self.calls) || self.room - self.bytes.len() < len.min(self.most)
    }
}

impl Sink for MemSink {
    ghost taken = { λ s. Some s.taken };

    ghost faults = { λ s. s.faults };

    /// Fails exactly where the number of this call is listed, or where what is to be taken of the
    /// piece would pass the room.
    fn write(&mut self, piece: &[u8]) -> Result<usize, Failed>
        ensures bytes { Takes (Some self.old.taken) (Some self.new.taken) result piece.now }
        ensures cause { HasCause self.old.faults self.new.faults result }

        // The exact effect on the sink in memory.
        ensures fails { IsErr result ↔ WriteFails self.old (length piece.now) }
        ensures count { IfOk result (λ n. n ≡ count_written self.old (length piece.now)) }
        ensures ok { IfOk result (λ n. self.new ≡ sink_after_write self.old (take n piece.now)) }
        ensures err { OnErr result (self.new ≡ after_failed_write self.old) }
    {
        let refused = self.refuses(piece.len());
        self.calls = next(self.calls);
        if refused {
            self.faults = next(self.faults);
            return Err(Failed);
        }
        let count = piece.len().min(self.most);
        let Ok(()) = self.bytes.extend_from_slice(&piece[..count]) else {
            unreachable!();
        };
        Ok(count)
    }
}
