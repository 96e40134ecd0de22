// The length and the last bytes that the writes and cuts of a file have led to.
ghost use Rattle.std.specs.Prelude.{◌≡◌, ◌≤◌, ◌+◌, ◌^◌, [], List, ℕ, length, take};
ghost use Rattle.base_device.specs.Disks.{written};
ghost use Rattle.base_device.specs.FileEnd.{KeptEnd, IsKept, end_after_write, end_after_cut};

use std::marker::Model;

/// How many bytes at the end of a written piece are kept.
pub(crate) const MOST: usize = 64;

/// The length that a file has by its own writes and cuts, and the end of the piece that was written last, with its place.
#[derive(Drop)]
pub(crate) struct Kept {
    len: u64,
    at: u64,
    count: usize,
    last: [u8; MOST],
    ghost inside: { count ≤ 64 },
}

impl Model for Kept {
    ghost use Rattle.std.specs.Prelude.{take, ◌≤◌};
    ghost use Rattle.base_device.specs.FileEnd.{KeptEnd};

    ghost Value = { KeptEnd };

    ghost view = { λ k. record { len = k.len; at = k.at; last = take k.count k.last } };
}

impl Kept {
    /// A file of this length, to which nothing was written.
    pub(crate) fn new(len: u64) -> Kept
        ensures { result ≡ record { len = len; at = 0; last = [] } }
    {
        Kept {
            len,
            at: 0,
            count: 0,
            last: [0; MOST],
        }
    }

    /// The length of the file.
    pub(crate) fn len(&self) -> u64
        ensures { result ≡ self.now.len }
    {
        self.len
    }

    /// Where what was written last stands.
    pub(crate) fn at(&self) -> u64
        ensures { result ≡ self.now.at }
    {
        self.at
    }

    /// The piece that was written last, or its end.
    pub(crate) fn last(&self) -> &[u8]
        ensures value { result.now ≡ self.now.last }
        ensures few { length result.now ≤ 64 }
    {
        &self.last[..self.count]
    }

    /// After a write of this piece from this place on.
    pub(crate) fn written(self, at: u64, piece: &[u8]) -> Kept
        requires end { at + length piece.now ≤ 2 ^ 62 }
        ensures { result ≡ end_after_write self at piece.now }
    {
        let front = piece.len().saturating_sub(MOST);
        let (count, last) = ending(&piece[front..]);
        Kept {
            len: self.len.max(at + piece.len() as u64),
            at: at + front as u64,
            count,
            last,
        }
    }

    /// After a cut to this length.
    pub(crate) fn cut(self, len: u64) -> Kept
        ensures { result ≡ end_after_cut self len }
    {
        let left = len.saturating_sub(self.at).min(self.count as u64);
        let last = self.last;
        Kept {
            len,
            at: self.at,
            count: left as usize,
            last,
        }
    }
}

// The bytes of a short piece, with zeros behind them, and how many they are.
fn ending(piece: &[u8]) -> (usize, [u8; MOST])
    requires { length piece.now ≤ 64 }
    ensures count { result.0 ≡ length piece.now }
    ensures bytes { take result.0 result.1 ≡ piece.now }
{
    let mut last = [0; MOST];
    last[..piece.len()].copy_from_slice(piece);
    (piece.len(), last)
}

/// The length and the last bytes are found behind a write and behind a cut, where nobody else changes the file.
pub(crate) fn found_behind_changes()
    ensures write { (kept : KeptEnd) (bytes : List ℕ) (at : ℕ) (piece : List ℕ) → at ≤ length bytes
        → IsKept kept bytes → IsKept (end_after_write kept at piece) (written bytes at piece) }
    ensures cut { (kept : KeptEnd) (bytes : List ℕ) (len : ℕ) → len ≤ length bytes
        → IsKept kept bytes → IsKept (end_after_cut kept len) (take len bytes) }
{}
