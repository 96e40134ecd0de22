// Functions that the objects in memory share.
ghost use Rattle.std.specs.Prelude.{◌≡◌, ◌↔◌, ◌≤◌, ◌+◌, length, replicate, vec_len, vec_capacity, IsTrue, Contains};
ghost use Rattle.base_device.specs.Disks.{written};

// Tells whether the call of this number is one of those that fail.
pub(crate) fn is_listed(fail: &[u64], call: u64) -> bool
    ensures { IsTrue result ↔ Contains fail.now call }
{
    fail.contains(&call)
}

// Writes the piece over what is there, and past the end.
pub(crate) fn put(bytes: &mut Vec<u8>, at: usize, piece: &[u8])
    requires place { at ≤ vec_len bytes.old }
    requires space { at + length piece.now ≤ vec_capacity bytes.old }
    ensures written { bytes.new.items ≡ written bytes.old.items at piece.now }
    ensures capacity { vec_capacity bytes.old ≤ vec_capacity bytes.new }
{
    let inside = piece.len().min(bytes.len() - at);
    bytes[at..at + inside].copy_from_slice(&piece[..inside]);
    let Ok(()) = bytes.extend_from_slice(&piece[inside..]) else {
        unreachable!();
    };
}

// Fills the slice with this byte.
pub(crate) fn fill(bytes: &mut [u8], byte: u8)
    ensures { bytes.new ≡ replicate (length bytes.old) byte }
{
    bytes.fill(byte);
}
