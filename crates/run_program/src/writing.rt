// Writes a text to a sink.
ghost use Rattle.std.specs.Prelude.{◌≤◌, ℕ, length, take, OnOk, OnErr};
ghost use Rattle.std.specs.Io.KnownBytes.{Appends};
ghost use Rattle.base_device.specs.Causes.{HasCause};

use base_device::{Failed, Sink};
use std::io::{ErrorKind, Write};

/// Writes all of the text.
pub fn put<O: Sink>(out: &mut O, text: &[u8]) -> Result<(), Failed>
    ensures done { OnOk result (Appends (O.taken out.old) (O.taken out.new) text.now) }
    ensures front { OnErr result ((n : ℕ) × (n ≤ length text.now) × Appends (O.taken out.old) (O.taken out.new) (take n text.now)) }
    ensures cause { HasCause (O.faults out.old) (O.faults out.new) result }
{
    let mut at = 0;
    while at < text.len() {
        at += out.write(&text[at..])?;
    }
    Ok(())
}

/// Writes as much of the text as the writer takes. An interrupted write is tried again.
pub fn put_front<W: Write>(output: &mut W, text: &[u8])
    ensures { (n : ℕ) × Appends (W.contents output.old) (W.contents output.new) (take n text.now) }
{
    let mut at = 0;
    for _ in 0..u64::MAX {
        match output.write(&text[at..]) {
            Ok(0) => return,
            Ok(count) => at += count,
            Err(error) if error.kind() == ErrorKind::Interrupted => {}
            Err(_) => return,
        }
    }
}
