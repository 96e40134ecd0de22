// The two writes that a journal is changed by.
ghost use Rattle.std.specs.Prelude.{◌≡◌, ◌≤◌, ◌+◌, ◌^◌, length, take, is_some, IfSome, OnOk};
ghost use Rattle.std.specs.Option.{option_map};
ghost use Rattle.base_device.specs.Causes.{HasCause};
ghost use Rattle.base_device.specs.Disks.{Torn, Cut, written};
ghost use Rattle.base_device.specs.Since.{Quiet, LeavesOnly};

use base_device::{Disk, Failed};

/// Writes a piece at a place and syncs. `Failed` comes only where the disk's count of faults rose. It takes
/// no memory.
pub fn put<D: Disk>(disk: &mut D, at: u64, piece: &[u8]) -> Result<(), Failed>
    requires place { IfSome (D.store disk.old).reads (λ bytes. at ≤ length bytes) }
    requires quiet { Quiet (D.store disk.old) }
    requires near { at ≤ 2 ^ 41 }
    requires short { length piece.now ≤ 2 ^ 26 + 5 }

    // A crash at any moment leaves the bytes as they were but for the piece's range.
    ensures any_moment { IfSome (D.store disk.old).reads (λ bytes.
        LeavesOnly (D.store disk.old) (D.store disk.new) (Torn at (length piece.now) bytes)) }
    ensures reads { OnOk result ((D.store disk.new).reads
        ≡ option_map (λ bytes. written bytes at piece.now) (D.store disk.old).reads) }
    ensures quiet { OnOk result (Quiet (D.store disk.new)) }
    ensures observable { is_some (D.store disk.new).reads ≡ is_some (D.store disk.old).reads }
    ensures cause { HasCause (D.faults disk.old) (D.faults disk.new) result }
{
    disk.write_at(at, piece)?;
    disk.sync()
}

/// Cuts the disk to a length and syncs. `Failed` comes only where the disk's count of faults rose. It takes
/// no memory.
pub fn cut_to<D: Disk>(disk: &mut D, len: u64) -> Result<(), Failed>
    requires place { IfSome (D.store disk.old).reads (λ bytes. len ≤ length bytes) }
    requires quiet { Quiet (D.store disk.old) }
    requires near { len ≤ 2 ^ 41 }

    // A crash at any moment leaves the front of some length between.
    ensures any_moment { IfSome (D.store disk.old).reads (λ bytes.
        LeavesOnly (D.store disk.old) (D.store disk.new) (Cut len bytes)) }
    ensures reads { OnOk result ((D.store disk.new).reads
        ≡ option_map (take len) (D.store disk.old).reads) }
    ensures quiet { OnOk result (Quiet (D.store disk.new)) }
    ensures observable { is_some (D.store disk.new).reads ≡ is_some (D.store disk.old).reads }
    ensures cause { HasCause (D.faults disk.old) (D.faults disk.new) result }
{
    disk.cut(len)?;
    disk.sync()
}
