// Tests of sources. Their clauses `err` and `counted` say how many faults they count.
use base_device::{Failed, MemSource, Source, StdSource};
use std::io;
use std::io::{ErrorKind, Read};
use std::process::Abort;
use std::test::Fail;

// The answer of a reader of std at one call.
#[derive(Clone, Copy)]
enum Step {
    Gives(u8),
    Interrupted,
    Refused,
}

// A reader of such answers, and then at its end.
#[derive(Drop)]
struct Script {
    steps: [Step; 6],
    at: usize,
}

impl Read for Script {
    fn read(&mut self, buf: &mut [u8]) -> io::Result<usize> {
        let Some(step) = self.steps.get(self.at).copied() else {
            return Ok(0);
        };
        self.at += 1;
        match step {
            Step::Gives(byte) => {
                let Some(first) = buf.first_mut() else {
                    return Ok(0);
                };
                *first = byte;
                Ok(1)
            }
            Step::Interrupted => Err(io::Error::from(ErrorKind::Interrupted)),
            Step::Refused => Err(io::Error::from(ErrorKind::Other)),
        }
    }
}

// Reads four bytes a call, and compares what each call hands over.
fn assert_reads<S: Source>(rt: &impl Abort, source: &mut S, wants: &[Result<&[u8], Failed>]) {
    for (call, want) in wants.iter().enumerate() {
        let mut buf = [0; 4];
        match source.read(&mut buf) {
            Ok(count) => assert_eq!(rt; Ok(&buf[..count]), *want, "call {call}"),
            Err(Failed) => assert_eq!(rt; Err(Failed), *want, "call {call}"),
        }
    }
}

#[test]
fn memory_hands_over(rt: HostRuntime) -> Result<(), Fail> {
    let mut memory = MemSource::new(b"hello".to_vec(rt.alloc())?, [1].to_vec(rt.alloc())?);
    memory.chunk(2);
    assert_reads(
        &rt,
        &mut memory,
        &[
            Ok(b"he".as_slice()),
            Err(Failed),
            Ok(b"ll".as_slice()),
            Ok(b"o".as_slice()),
            Ok(b"".as_slice()),
        ],
    );
    Ok(())
}

#[test]
fn reader_hands_over(rt: HostRuntime) {
    assert_reads(
        &rt,
        &mut StdSource::new(b"hello".as_slice()),
        &[
            Ok(b"hell".as_slice()),
            Ok(b"o".as_slice()),
            Ok(b"".as_slice()),
        ],
    );
}

#[test]
fn interrupted_reader_hands_over(rt: HostRuntime) {
    let steps = [
        Step::Interrupted,
        Step::Gives(b'a'),
        Step::Interrupted,
        Step::Interrupted,
        Step::Refused,
        Step::Gives(b'b'),
    ];
    assert_reads(
        &rt,
        &mut StdSource::new(Script { steps, at: 0 }),
        &[
            Ok(b"a".as_slice()),
            Err(Failed),
            Ok(b"b".as_slice()),
            Ok(b"".as_slice()),
        ],
    );
}
