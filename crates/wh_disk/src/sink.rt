// A sink over any writer of std.
ghost use Rattle.std.specs.Prelude.{◌≡◌, ◌<◌, ◌≤◌, length, take, IfOk, MatchResult, is_err};
ghost use Rattle.std.specs.Io.KnownBytes.{WriteAppends};
ghost use Rattle.wh_io.specs.Causes.{IsCounted};
ghost use Rattle.wh_io.specs.Sink.{gained};

use crate::faults::counted;
use crate::retry::write_again;
use std::io::{self, ErrorKind, Write};
use wh_base::Failed;
use wh_io::Sink;

/// A writer with the count of its faults. What it has taken is not told. A write that takes nothing is a fault.
#[derive(Drop)]
pub struct RealSink<W: Write> {
    writer: W,
    faults: u64,
}

impl<W: Write> RealSink<W> {
    pub fn new(writer: W) -> Self
        ensures { ⟦<RealSink<W> as Sink>⟧.faults result ≡ 0 }
    {
        RealSink { writer, faults: 0 }
    }
}

impl<W: Write> Sink for RealSink<W> {
    ghost use Rattle.std.specs.Prelude.{None};

    ghost taken = { λ _. None };

    ghost faults = { λ s. s.faults };

    /// A write that a signal interrupts is made again. Where the writer tells what it holds, it has gained the bytes
    /// that are answered, and none at an error. What the streams of the system take no clause can tell.
    fn write(&mut self, piece: &[u8]) -> Result<usize, Failed>
        requires { 0 < length piece.now }
        ensures count { IfOk result (λ n. (0 < n) × (n ≤ length piece.now)) }
        ensures bytes { MatchResult result (λ n. ⟦<RealSink<W> as Sink>⟧.taken self.new ≡ gained (⟦<RealSink<W> as Sink>⟧.taken self.old) (take n piece.now)) (λ _. ⟦<RealSink<W> as Sink>⟧.taken self.new ≡ ⟦<RealSink<W> as Sink>⟧.taken self.old) }
        ensures cause { IsCounted (is_err result) self.old.faults self.new.faults }
        ensures passed { WriteAppends (W.contents self.old.writer) (W.contents self.new.writer) result piece.now }
    {
        counted(&mut self.faults, take_some(&mut self.writer, piece))
    }
}

// One write of at least one byte: a writer that takes nothing is at fault.
fn take_some<W: Write>(writer: &mut W, piece: &[u8]) -> io::Result<usize>
    ensures count { IfOk result (λ n. (0 < n) × (n ≤ length piece.now)) }
    ensures passed { WriteAppends (W.contents writer.old) (W.contents writer.new) result piece.now }
{
    match write_again(writer, piece) {
        Ok(0) => Err(io::Error::from(ErrorKind::WriteZero)),
        answer => answer,
    }
}
