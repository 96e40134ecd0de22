// A reader or a writer of std with the count of its faults.
ghost use Rattle.std.specs.Prelude.{◌≡◌};

use std::marker::Model;

/// A reader or a writer of std, with how often a call of it failed. It tells of its
/// bytes what that reader or writer tells: all of them over bytes in memory, and none over the streams of a process.
#[derive(Drop)]
pub struct StdStream<T> {
    pub(crate) inner: T,
    pub(crate) faults: u64,
}

/// A source over a reader of std.
pub type StdSource<R> = StdStream<R>;

/// A sink over a writer of std.
pub type StdSink<W> = StdStream<W>;

impl<T> Model for StdStream<T> {
    ghost use Rattle.base_device.specs.Counted.{Counted};

    ghost Value = { Counted T };

    ghost view = { λ s. record { inner = s.inner; faults = s.faults } };
}

impl<T> StdStream<T> {
    /// A source or a sink over this reader or writer that has not failed.
    pub fn new(inner: T) -> StdStream<T>
        ensures { result ≡ record { inner = inner; faults = 0 } }
    {
        StdStream { inner, faults: 0 }
    }
}
