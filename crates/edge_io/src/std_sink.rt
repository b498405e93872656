//! Standard output as a sink: what comes in are pieces, what goes out goes to the system. Main makes it.

ghost use Rattle.std.specs.Prelude.{◌≡◌, ℕ, None};

use crate::sinks::{Failed, Sink};
use std::io::Write;

/// A writer of the system as a sink, with its faults counted. It keeps no bytes back: what a write took has gone to
/// the writer, which `rt.stdout()` hands to the system at once.
#[derive(Drop)]
pub struct StdSink<W: Write> {
    to: W,
    faults: u64,
}

impl<W: Write> StdSink<W> {
    /// A sink over what the runtime gives for standard output.
    pub fn new(to: W) -> StdSink<W>
        ensures to { result.to ≡ to }
        ensures faults { result.faults ≡ 0 }
    {
        StdSink { to, faults: 0 }
    }

    /// How many writes failed. It stays at its greatest value.
    pub fn faults(&self) -> u64
        ensures { result ≡ self.now.faults }
    {
        self.faults
    }
}

impl<W: Write> Sink for StdSink<W> {
    ghost view = { λ s. record { written = None; faults = s.faults } };

    /// Makes one write. One that takes no byte of a piece that isn't empty, or is interrupted, has failed.
    fn write(&mut self, piece: &[u8]) -> Result<usize, Failed> {
        match self.to.write(piece) {
            Ok(count) if count > 0 || piece.is_empty() => Ok(count),
            _ => {
                self.faults = self.faults.saturating_add(1);
                Err(Failed)
            }
        }
    }
}
