// The objects over std, over its bytes in memory, by the promises of each source and each sink.
ghost use Rattle.std.specs.Prelude.{◌≡◌, ◌≤◌, ◌<◌, ◌++◌, ℕ, List, [], length, take, IfOk, OnErr};
ghost use Rattle.std.specs.Io.KnownBytes.{ReadConsumes};
ghost use Rattle.base_device.specs.Causes.{Takes};

use crate::{Failed, Sink, Source, StdSink, StdSource};

fn read_any<S: Source>(source: &mut S, buf: &mut [u8]) -> Result<usize, Failed>
    ensures { ReadConsumes (S.left source.old) (S.left source.new) result buf.new }
{
    source.read(buf)
}

fn write_any<S: Sink>(sink: &mut S, piece: &[u8]) -> Result<usize, Failed>
    ensures { Takes (S.taken sink.old) (S.taken sink.new) result piece.now }
{
    sink.write(piece)
}

// The bytes that are read over a slice are the front of it, and nothing is read where nothing is there.
pub(crate) fn read_slice(bytes: &[u8], buf: &mut [u8]) -> Result<usize, Failed>
    ensures front { IfOk result (λ n. (tail : List ℕ) × (bytes.now ≡ take n buf.new ++ tail)) }
    ensures end { IfOk result (λ n. n ≡ 0 → 0 < length buf.new → bytes.now ≡ []) }
{
    read_any(&mut StdSource::new(bytes), buf)
}

// The piece that is written over a vector stands behind its bytes: so much as it took, or a front of it where the call fails.
pub(crate) fn write_vec(sink: &mut StdSink<Vec<u8>>, piece: &[u8]) -> Result<usize, Failed>
    ensures ok { IfOk result (λ n. sink.new.inner.items ≡ sink.old.inner.items ++ take n piece.now) }
    ensures some { IfOk result (λ n. 0 < length piece.now → 0 < n) }
    ensures err { OnErr result ((n : ℕ) × (n ≤ length piece.now)
        × (sink.new.inner.items ≡ sink.old.inner.items ++ take n piece.now)) }
{
    write_any(sink, piece)
}
