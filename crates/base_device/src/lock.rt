// Locks of files.
use std::fs::{File, TryLockError};

/// A file with a lock, which one opening of it holds at a time.
pub trait Lock {
    /// Takes the lock until the file is closed. False where another opening holds it. Where the file system has no locks, every
    /// opening takes it.
    fn take_lock(&self) -> bool;
}

impl Lock for File {
    fn take_lock(&self) -> bool {
        !matches!(self.try_lock(), Err(TryLockError::WouldBlock))
    }
}
