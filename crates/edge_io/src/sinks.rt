//! Where output goes: what comes in is a piece of bytes, what goes out is how many of them were taken, or a fault.

ghost use Rattle.std.specs.Prelude.{◌<◌, ◌≤◌, length, take, [], IfOk, MatchResult};
ghost use Rattle.edge_io.specs.Sinks.{SinkView, WritesAll, WritesPart, Writes};

use thiserror::Error;

/// A write failed.
#[derive(Clone, Copy, Debug, PartialEq, Eq, Drop, Error)]
#[error("a write failed")]
pub struct Failed;

/// A place that takes bytes in order.
pub trait Sink {
    /// What the object tells of itself: all that was written, where it is known, and its count of faults. One that stops
    /// telling what was written never tells again.
    ghost view: { Self → SinkView };

    /// Takes a prefix of the piece, at least a byte of one that isn't empty, and answers how many bytes it took.
    fn write(&mut self, piece: &[u8]) -> Result<usize, Failed>
        ensures within { IfOk result (λ n. n ≤ length piece.now) }
        ensures takes { 0 < length piece.now → IfOk result (λ n. 0 < n) }
        ensures writes { MatchResult result
            (λ n. WritesAll (view self.old) (view self.new) (take n piece.now))
            (λ _. WritesPart (view self.old) (view self.new) []) };
}

/// Writes all bytes, in as many pieces as the sink wants. It takes no memory. After a fault a prefix of them was written.
pub fn write_all<S: Sink>(sink: &mut S, bytes: &[u8]) -> Result<(), Failed>
    ensures { Writes (S.view sink.old) (S.view sink.new) bytes.now result }
{
    let mut done = 0;
    while done < bytes.len() {
        let taken = sink.write(&bytes[done..])?;
        done += taken;
    }
    Ok(())
}
