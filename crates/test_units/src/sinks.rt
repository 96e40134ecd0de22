// Tests of sinks. Their clauses `err` and `counted` say how many faults they count.
use base_device::{Failed, MemSink, Sink, StdSink};
use std::io;
use std::io::{ErrorKind, Write};
use std::process::Abort;
use std::test::Fail;

// The answer of a writer of std at one call.
#[derive(Clone, Copy)]
enum Step {
    Takes(usize),
    Interrupted,
    Refused,
}

// A writer that answers so at one write after another, and then refuses each; its flushes likewise.
#[derive(Drop)]
struct Script {
    writes: [Step; 6],
    written: usize,
    flushes: [Step; 4],
    flushed: usize,
}

fn answer(steps: &[Step], at: usize) -> io::Result<usize> {
    match steps.get(at).copied() {
        Some(Step::Takes(count)) => Ok(count),
        Some(Step::Interrupted) => Err(io::Error::from(ErrorKind::Interrupted)),
        Some(Step::Refused) | None => Err(io::Error::from(ErrorKind::Other)),
    }
}

impl Write for Script {
    fn write(&mut self, buf: &[u8]) -> io::Result<usize> {
        let outcome = answer(&self.writes, self.written);
        self.written = self.written.saturating_add(1);
        Ok(outcome?.min(buf.len()))
    }

    fn flush(&mut self) -> io::Result<()> {
        let outcome = answer(&self.flushes, self.flushed);
        self.flushed = self.flushed.saturating_add(1);
        outcome?;
        Ok(())
    }
}

// Writes pieces of four bytes, and compares how many of them each call took.
fn assert_writes<S: Sink>(rt: &impl Abort, sink: &mut S, wants: &[Result<usize, Failed>]) {
    for (call, want) in wants.iter().enumerate() {
        assert_eq!(rt; sink.write(b"abcd"), *want, "call {call}");
    }
}

// The third call that may take something finds room for one byte alone.
#[test]
fn memory_takes(rt: HostRuntime) -> Result<(), Fail> {
    let mut memory = MemSink::new(rt.alloc(), [1].to_vec(rt.alloc())?, 7)?;
    memory.chunk(3);
    assert_writes(&rt, &mut memory, &[Ok(3), Err(Failed), Ok(3), Err(Failed)]);
    memory.chunk(1);
    assert_writes(&rt, &mut memory, &[Ok(1), Err(Failed)]);
    assert_eq!(rt; memory.bytes(), b"abcabca".as_slice());
    Ok(())
}

#[test]
fn writer_takes(rt: HostRuntime) {
    let mut bytes = Vec::new(rt.alloc());
    assert_writes(&rt, &mut StdSink::new(&mut bytes), &[Ok(4), Ok(4)]);
    assert_eq!(rt; bytes.as_slice(), b"abcdabcd".as_slice());
}

#[test]
fn interrupted_writer_takes(rt: HostRuntime) {
    let script = Script {
        writes: [
            Step::Interrupted,
            Step::Takes(3),
            Step::Takes(0),
            Step::Refused,
            Step::Takes(4),
            Step::Takes(4),
        ],
        written: 0,
        flushes: [
            Step::Interrupted,
            Step::Takes(0),
            Step::Refused,
            Step::Takes(0),
        ],
        flushed: 0,
    };
    assert_writes(
        &rt,
        &mut StdSink::new(script),
        &[Ok(3), Err(Failed), Err(Failed), Err(Failed), Ok(4)],
    );
}
