// Bytes to the output.
use crate::ending::Ending;
use base_device::Sink;

/// Writes all of the bytes.
pub(crate) fn put<O: Sink>(out: &mut O, bytes: &[u8]) -> Result<(), Ending> {
    let mut at = 0;
    while at < bytes.len() {
        let Ok(count) = out.write(&bytes[at..]) else {
            return Err(Ending::WriteFault);
        };
        at += count;
    }
    Ok(())
}
