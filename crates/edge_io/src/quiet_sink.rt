//! A sink in memory whose writes never fail: what comes in are pieces, what goes out are the bytes that were kept. The
//! layers above write to it where no fault is to come.

ghost use Rattle.std.specs.Prelude.{◌≡◌, ◌≤◌, ◌<◌, [], length, take, IfOk, IsOk, MatchResult};
ghost use Rattle.edge_io.specs.Sinks.{WritesAll, WritesPart};
ghost use Rattle.edge_io.specs.KeptBytes.{nothing_kept, quiet_sink_view, WriteAnswers, after_write};

use crate::mem_sink::MemSink;
use crate::sinks::{Failed, Sink};
use std::alloc::{AllocError, Global};

/// A sink that keeps what fits its room and takes each piece whole. No write fails, so its count of faults is 0.
#[derive(Drop)]
pub struct QuietSink {
    sink: MemSink,
    ghost quiet: { sink.fails ≡ [] },
}

impl QuietSink {
    /// A sink that keeps `room` bytes, whose memory is taken at once. Bytes past it are counted in place of kept.
    pub fn new(alloc: Global, room: usize) -> Result<QuietSink, AllocError>
        ensures { IfOk result (λ s. s.sink ≡ nothing_kept usize.MAX [] room) }
    {
        let sink = MemSink::new(alloc, usize::MAX, Vec::new(alloc), room)?;
        Ok(QuietSink { sink })
    }

    /// The bytes that were kept: all that was written, or as long a prefix as there was room for.
    pub fn bytes(&self) -> &[u8]
        ensures { result.now ≡ self.now.sink.bytes }
    {
        self.sink.bytes()
    }
}

impl Sink for QuietSink {
    ghost view = { λ q. quiet_sink_view q.sink };

    fn write(&mut self, piece: &[u8]) -> Result<usize, Failed>
        ensures within { IfOk result (λ n. n ≤ length piece.now) }
        ensures takes { 0 < length piece.now → IfOk result (λ n. 0 < n) }
        ensures writes { MatchResult result
            (λ n. WritesAll (quiet_sink_view self.old.sink) (quiet_sink_view self.new.sink) (take n piece.now))
            (λ _. WritesPart (quiet_sink_view self.old.sink) (quiet_sink_view self.new.sink) []) }
        ensures never_fails { IsOk result }
        ensures answer { WriteAnswers self.old.sink piece.now result }
        ensures after { self.new.sink ≡ after_write self.old.sink piece.now result }
    {
        self.sink.write(piece)
    }
}
