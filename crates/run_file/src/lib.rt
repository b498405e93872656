//! Run files: a run of the Cairo machine as bytes.
//! What comes in is the bytes of a file, what goes out is the run that they spell or the first fault in byte order.
//! The tool reads a run from a file here before the trace check sees it.
#![tactic(auto)]

mod laws;
mod progress;
mod reader;
mod refusal;
mod run;
mod stage;
mod writer;

pub use laws::{one_run, reads_exactly};
pub use reader::{Reader, read};
pub use refusal::FileRefusal;
pub use run::{Run, States};
pub use writer::write;
