//! Sources, sinks and disks, each with a count of its faults: in memory, over std, over a file with its lock, and without faults.
#![tactic(auto)]

pub mod disk;
pub mod faultless;
pub mod faults;
mod file_calls;
pub mod file_disk;
mod file_end;
pub mod file_like;
pub mod lock;
pub mod memory;
pub mod memory_disk;
pub mod memory_file;
pub mod obstacle;
pub mod sink;
pub mod source;
mod std_bytes;
pub mod stream;
mod worked;

pub use disk::Disk;
pub use faultless::{FaultlessDisk, FaultlessSink, FaultlessSource};
pub use file_disk::FileDisk;
pub use file_like::{FileLike, StdFile};
pub use lock::Lock;
pub use memory_disk::{Crash, MemDisk};
pub use memory_file::{DiskFile, TwinDisk};
pub use obstacle::Obstacle;
pub use sink::{MemSink, Sink};
pub use source::{MemSource, Source};
pub use stream::{StdSink, StdSource};

/// The call failed, and the object counted the fault.
#[derive(Clone, Copy, Debug, PartialEq, Eq)]
pub struct Failed;
