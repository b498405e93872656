//! The work of the program `sierra`: the tool over the system's files and standard output. The runtime comes in from `main`,
//! and the exit status goes out. No clause speaks of it, since what a real file holds isn't known: two programs that end with
//! it are run, one that is refused and one that isn't.
#![tactic(auto)]

use edge_io::{StdFiles, StdSink};
use sierra_tool::{Shelf, sierra_tool};
use std::alloc::AllocError;
use std::env;
use std::io::ErrorKind;
use std::process::ExitCode;

/// The status where there was no memory for the words.
const OUT_OF_MEMORY: u8 = 6;

/// Answers the words that the program is called with, and gives the exit status.
pub fn sierra_main(rt: HostRuntime) -> ExitCode {
    let words = match words(&rt) {
        Ok(words) => words,
        Err(_) => return ExitCode::from(OUT_OF_MEMORY),
    };
    let mut out = StdSink::new(rt.stdout());
    let alloc = rt.alloc();
    let mut files = StdFiles::new(rt);
    ExitCode::from(sierra_tool(alloc, &words, &mut files, &mut out, Shelf {}))
}

/// The words after the program's name. Words that are no text are none, and so no command.
fn words(rt: &HostRuntime) -> Result<Vec<String>, AllocError> {
    match env::args(rt) {
        Ok(all) => all.skip(1).collect(rt.alloc()),
        Err(e) if e.kind() == ErrorKind::InvalidData => Ok(Vec::new(rt.alloc())),
        Err(_) => Err(AllocError),
    }
}
