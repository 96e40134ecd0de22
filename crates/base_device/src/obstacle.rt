// Why a call of a file was refused.
use std::io;

/// Why a file was not opened, or no longer written, where more is known than that a call was refused.
#[derive(Clone, Copy, Debug, PartialEq, Eq)]
pub enum Obstacle {
    /// A folder, a pipe or a device stands there.
    NoFile,
    /// Its folder could not be opened, which is synced once the file is made.
    Folder,
    /// Another opening holds its lock.
    Held,
    /// It was removed, replaced, cut or written by others while it was written here.
    Changed,
}

/// A call was refused, and perhaps it is known why.
#[derive(Clone, Copy, Debug, PartialEq, Eq)]
pub(crate) struct Refused(pub(crate) Option<Obstacle>);

impl From<io::Error> for Refused {
    fn from(_error: io::Error) -> Refused {
        Refused(None)
    }
}
