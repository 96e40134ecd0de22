// Journals, byte by byte.

// A journal of version 1 with the seed 7 and two records of 44 bytes: commit bytes at 51, 100 and 149.
pub(crate) const TWO_RECORDS: &[u8; 150] =
    b"\x01HYDPLAN1\x00\x01dddddddddddddddddddddddddddddddd\x00\x00\x00\x00\x00\x00\x00\x07\
\x01\x00\x00\x00\x2caaaaaaaaaaaaaaaaaaaaaaaaaaaaaaaaaaaaaaaaaaaa\
\x01\x00\x00\x00\x2cbbbbbbbbbbbbbbbbbbbbbbbbbbbbbbbbbbbbbbbbbbbb\x00";

// The head of a journal of version 2 with a batch of 2.
pub(crate) const BATCHES: &[u8; 54] =
    b"\x01HYDPLAN1\x00\x02dddddddddddddddddddddddddddddddd\x00\x00\x00\x00\x00\x00\x00\x07\x00\x02\x00";

// The journal without records that has the head of the one with two.
pub(crate) const NO_RECORDS: &[u8; 52] =
    b"\x01HYDPLAN1\x00\x01dddddddddddddddddddddddddddddddd\x00\x00\x00\x00\x00\x00\x00\x07\x00";
