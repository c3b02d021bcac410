// Calls that a signal interrupts are made again.
ghost use Rattle.std.specs.Prelude.{◌≡◌, ◌<◌, length, take, IfOk, OnErr};
ghost use Rattle.std.specs.Io.{ReadsAtMost, WritesAtMost};
ghost use Rattle.std.specs.Io.KnownBytes.{Appends, Consumes, IsAtEnd, Keeps};

use std::io::{self, ErrorKind, Read, Write};

/// One read, made again where a signal interrupts it.
pub(crate) fn read_again<T: Read>(from: &mut T, into: &mut [u8]) -> io::Result<usize>
    ensures bound { ReadsAtMost result into.new }
    ensures ok { IfOk result (λ n. Consumes (T.remaining from.old) (T.remaining from.new) (take n into.new)) }
    ensures end { IfOk result (λ n. n ≡ 0 → 0 < length into.old → IsAtEnd (T.remaining from.new)) }
    ensures err { OnErr result (Keeps (T.remaining from.old) (T.remaining from.new)) }
{
    for _ in 0..u64::MAX {
        match from.read(into) {
            Err(error) if error.kind() == ErrorKind::Interrupted => {}
            answer => return answer,
        }
    }
    Err(io::Error::from(ErrorKind::TimedOut))
}

/// One write, made again where a signal interrupts it.
pub(crate) fn write_again<W: Write>(to: &mut W, piece: &[u8]) -> io::Result<usize>
    ensures bound { WritesAtMost result piece.now }
    ensures ok { IfOk result (λ n. Appends (W.contents to.old) (W.contents to.new) (take n piece.now)) }
    ensures err { OnErr result (Keeps (W.contents to.old) (W.contents to.new)) }
{
    for _ in 0..u64::MAX {
        match to.write(piece) {
            Err(error) if error.kind() == ErrorKind::Interrupted => {}
            answer => return answer,
        }
    }
    Err(io::Error::from(ErrorKind::TimedOut))
}
