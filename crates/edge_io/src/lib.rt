//! Files that are read and sinks that are written, with their faults counted: the edge between the tool and the
//! outside. The tool is generic over both, so its promises hold over every file map and every schedule of faults.
#![tactic(auto)]

mod files;
mod mem_files;
mod mem_sink;
mod quiet_files;
mod quiet_sink;
mod sinks;
mod std_files;
mod std_sink;

pub use files::{FileFault, Files, ReadFault, read_all};
pub use mem_files::MemFiles;
pub use mem_sink::MemSink;
pub use quiet_files::QuietFiles;
pub use quiet_sink::QuietSink;
pub use sinks::{Failed, Sink, write_all};
pub use std_files::StdFiles;
pub use std_sink::StdSink;
