// A file of bytes that are read and written at any place.
ghost use Rattle.std.specs.Prelude.{◌≡◌, ◌≤◌, ◌+◌, ◌^◌, ℕ, List, length, take, drop, min, is_some, option_map, IfOk, IfSome, OnOk, MatchResult};
ghost use Rattle.base_device.specs.Disks.{Store, Torn, Cut, Follows, Only, Elapses, Stays, Lawful, written};
ghost use Rattle.base_device.specs.Causes.{HasCause};

use crate::Failed;

/// A disk: bytes in order, read and written at any place. All ends of ranges are at most 2^62. A disk
/// that tells its bytes keeps telling them, and one that does not never does.
/// Of each call: `Failed` comes only where the count of faults rose, or stands at its type's end, and
/// the count stays as it was where the call succeeds.
pub trait Disk {
    /// The bytes that it holds and those that a crash may leave, where it tells them, and its clock.
    ghost store: { Self → Store };

    /// How far it may be read: to the length last told, and to no more than each later cut.
    ghost readable: { Self → ℕ };

    /// How often it has failed; it never falls.
    ghost faults: { Self → ℕ };

    /// As it reads it is one of its images, and its images are those of its last moment.
    ghost lawful: { (disk : Self) → Lawful (store disk) };

    /// The present length in bytes.
    fn len(&mut self) -> Result<u64, Failed>
        ensures value { IfOk result (λ n. IfSome (store self.old).reads (λ bytes. n ≡ length bytes)) }
        ensures readable { MatchResult result (λ n. n ≤ readable self.new)
            (λ _. readable self.old ≤ readable self.new) }
        ensures stays { Stays (store self.old) (store self.new) }
        ensures cause { HasCause (faults self.old) (faults self.new) result };

    /// Fills `into` with the bytes from the place `at` on. The range lies inside the length last
    /// told, and inside the length of each `cut` that was called since.
    fn read_at(&mut self, at: u64, into: &mut [u8]) -> Result<(), Failed>
        requires range { at + length into.old ≤ readable self.old }
        requires end { at + length into.old ≤ 2 ^ 62 }
        ensures value { OnOk result (IfSome (store self.old).reads (λ bytes.
            into.new ≡ take (length into.old) (drop at bytes))) }
        ensures readable { readable self.old ≤ readable self.new }
        ensures stays { Stays (store self.old) (store self.new) }
        ensures cause { HasCause (faults self.old) (faults self.new) result };

    /// Writes the piece from the place `at` on, where `at` is at most the length, and extends the
    /// disk where the piece reaches past its end. Until a sync succeeds, a crash may leave any bytes
    /// in the range of the piece.
    fn write_at(&mut self, at: u64, piece: &[u8]) -> Result<(), Failed>
        requires place { IfSome (store self.old).reads (λ bytes. at ≤ length bytes) }
        requires end { at + length piece.now ≤ 2 ^ 62 }
        ensures written { OnOk result ((store self.new).reads
            ≡ option_map (λ bytes. written bytes at piece.now) (store self.old).reads) }
        ensures observable { is_some (store self.new).reads ≡ is_some (store self.old).reads }
        ensures readable { readable self.old ≤ readable self.new }
        ensures crash { Follows (Torn at (length piece.now)) (store self.old) (store self.new) }
        ensures time { Elapses (store self.old) (store self.new) }
        ensures cause { HasCause (faults self.old) (faults self.new) result };

    /// Cuts the disk to its first `len` bytes, where `len` is at most the length. Until a sync
    /// succeeds, a crash may leave any length from `len` to the old one.
    fn cut(&mut self, len: u64) -> Result<(), Failed>
        requires place { IfSome (store self.old).reads (λ bytes. len ≤ length bytes) }
        requires end { len ≤ 2 ^ 62 }
        ensures cut { OnOk result ((store self.new).reads
            ≡ option_map (take len) (store self.old).reads) }
        ensures observable { is_some (store self.new).reads ≡ is_some (store self.old).reads }
        ensures readable { min (readable self.old) len ≤ readable self.new }
        ensures crash { Follows (Cut len) (store self.old) (store self.new) }
        ensures time { Elapses (store self.old) (store self.new) }
        ensures cause { HasCause (faults self.old) (faults self.new) result };

    /// Makes what was written and cut last: after `Ok` a crash leaves what a read gives.
    fn sync(&mut self) -> Result<(), Failed>
        ensures durable { OnOk result (IfSome (store self.old).reads (λ bytes. Only bytes (store self.new))) }
        ensures reads { (store self.new).reads ≡ (store self.old).reads }
        ensures readable { readable self.old ≤ readable self.new }
        ensures crash { (c : List ℕ) → (store self.new).images c → (store self.old).images c }
        ensures time { Elapses (store self.old) (store self.new) }
        ensures cause { HasCause (faults self.old) (faults self.new) result };
}
