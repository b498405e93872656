//! The program `examples`: a transcript of files and commands comes in from standard input, and goes out to standard output
//! with what the tool answers to each command. What the tool prints for a program can be read there, and is compared there.
//!
//! A line says by its beginning what it is:
//!
//! - `--- NAME` begins a file, whose text is the lines below it; `--- NAME < PART ..` begins one with the text of these parts.
//! - `$ WORD ..` calls the tool with these words. With ` > NAME` at the end, what it writes is a file of that name too.
//! - `=== COMMAND PART ..` says what the rows below it do, and `| TEXT` is a row: its text is the file `row`, and the command
//!   is called with the file that the parts make, of which `row` is one. Behind ` <- ` in a row stands an input, in which `/`
//!   is the end of a line: the file `input`, with which the command is called too.
//! - `# TEXT` is a heading. It ends a file, as each of these lines does; behind a heading or a command, other lines are prose.
//!
//! A part is the name of a file, `NAME:FROM:TO` for its bytes from one place up to another, `3*NAME` for three times its
//! text, or `#NUMBER` for the eight bytes of a number, as a run file has them. Of two files of one name the last counts, and a
//! file that the transcript doesn't have is the system's.
//!
//! Behind a command stands what it wrote, or how many bytes where that is no text, and `status N` where that isn't 0.
#![tactic(auto)]

mod line;
mod part;
mod session;
mod texts;

use crate::session::Session;
use edge_io::{StdFiles, StdSink, write_all};
use std::alloc::AllocError;
use std::io;
use std::io::ErrorKind;
use std::process::ExitCode;

/// Why a transcript wasn't answered.
#[derive(Clone, Copy, Debug, PartialEq, Eq, Drop)]
enum Stop {
    /// Standard input could not be read, or is no text.
    Unread,
    /// Standard output could not be written.
    Unwritten,
    /// There was no memory.
    OutOfMemory,
}

impl Stop {
    /// The exit status, which is that of the tool for such a fault.
    fn status(self) -> u8 {
        match self {
            Stop::Unread => 4,
            Stop::Unwritten => 5,
            Stop::OutOfMemory => 6,
        }
    }
}

impl From<AllocError> for Stop {
    fn from(_: AllocError) -> Stop {
        Stop::OutOfMemory
    }
}

fn main(rt: HostRuntime) -> ExitCode {
    match answer(rt) {
        Ok(()) => ExitCode::SUCCESS,
        Err(stop) => ExitCode::from(stop.status()),
    }
}

/// Answers the transcript on standard input.
fn answer(rt: HostRuntime) -> Result<(), Stop> {
    let transcript = transcript(&rt)?;
    let mut out = StdSink::new(rt.stdout());
    let mut session = Session::new(rt.alloc(), StdFiles::new(rt));
    for line in transcript.lines() {
        session.take(line)?;
    }
    write_all(&mut out, session.page()).map_err(|_| Stop::Unwritten)
}

/// The whole of standard input.
fn transcript(rt: &HostRuntime) -> Result<String, Stop> {
    match io::read_to_string(rt.alloc(), rt.stdin()) {
        Ok(text) => Ok(text),
        Err(fault) if fault.kind() == ErrorKind::OutOfMemory => Err(Stop::OutOfMemory),
        Err(_) => Err(Stop::Unread),
    }
}
