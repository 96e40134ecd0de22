// Functions that the tests of disks share.
use base_device::Disk;

// Tells whether these bytes, at most eight, are the whole disk as it reads.
pub(crate) fn holds<D: Disk>(disk: &mut D, want: &[u8]) -> bool {
    let mut bytes = [0; 8];
    let count = want.len().min(8);
    disk.len() == Ok(want.len() as u64)
        && disk.read_at(0, &mut bytes[..count]).is_ok()
        && &bytes[..count] == want
}
