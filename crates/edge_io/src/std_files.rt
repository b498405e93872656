//! The system's files: what comes in are paths, what goes out are reads, with their faults counted by cause. Main makes
//! it.

ghost use Rattle.std.specs.Prelude.{◌≡◌, ℕ, ◌≤◌, length, None, IfOk};

use crate::files::{FileFault, Files};
use std::io;
use std::io::{ErrorKind, Read, Seek, SeekFrom};
use std::rt::Files as SystemFiles;

/// A file that was opened, under the name that it was opened by where there was memory to keep it.
#[derive(Drop)]
struct Opened<F> {
    name: Option<String>,
    file: F,
    /// Where the last read ended.
    end: u64,
}

impl<F> Opened<F> {
    /// Whether the last read was of the file of this name and ended at the place `at`.
    fn goes_on(&self, name: &str, at: u64) -> bool {
        self.end == at
            && self
                .name
                .as_ref()
                .is_some_and(|known| known.as_str() == name)
    }
}

/// The system's files, with their faults and their missing names counted. The file that was read last stays open, so
/// that one file is read through, and a pipe can be read in order.
#[derive(Drop)]
pub struct StdFiles<R: SystemFiles + AllocGlobal> {
    rt: R,
    last: Option<Opened<R::File>>,
    faults: u64,
    misses: u64,
}

impl<R: SystemFiles + AllocGlobal> StdFiles<R> {
    /// Files over what the runtime gives main.
    pub fn new(rt: R) -> StdFiles<R>
        ensures faults { result.faults ≡ 0 }
        ensures misses { result.misses ≡ 0 }
    {
        StdFiles {
            rt,
            last: None,
            faults: 0,
            misses: 0,
        }
    }

    /// How many reads failed. It stays at its greatest value.
    pub fn faults(&self) -> u64
        ensures { result ≡ self.now.faults }
    {
        self.faults
    }

    /// How many reads named no file. It stays at its greatest value.
    pub fn misses(&self) -> u64
        ensures { result ≡ self.now.misses }
    {
        self.misses
    }

    /// Opens a file for reads from the place `at` on.
    fn open(&self, name: &str, at: u64) -> io::Result<Opened<R::File>> {
        let mut file = std::fs::open(&self.rt, name)?;
        if at > 0 {
            file.seek(SeekFrom::Start(at))?;
        }
        let name = String::from_str(self.rt.alloc(), name).ok();
        Ok(Opened {
            name,
            file,
            end: at,
        })
    }

    /// Reads once. A file whose last read ended where this one starts is not opened anew.
    fn read(&mut self, name: &str, at: u64, buf: &mut [u8]) -> io::Result<usize>
        ensures within { IfOk result (λ n. n ≤ length buf.old) }
        ensures faults { self.new.faults ≡ self.old.faults }
        ensures misses { self.new.misses ≡ self.old.misses }
    {
        let mut opened = match self.last.take() {
            Some(last) if at > 0 && last.goes_on(name, at) => last,
            _ => self.open(name, at)?,
        };
        let count = opened.file.read(buf)?;
        opened.end = at.saturating_add(count as u64);
        self.last = Some(opened);
        Ok(count)
    }
}

impl<R: SystemFiles + AllocGlobal> Files for StdFiles<R> {
    ghost view = { λ s. record { contents = None; faults = s.faults; misses = s.misses } };

    /// A path that leads through a file to nowhere is missing, as one that is not there. Any other error has failed.
    fn read_at(&mut self, name: &str, at: u64, buf: &mut [u8]) -> Result<usize, FileFault> {
        match self.read(name, at, buf) {
            Ok(count) => Ok(count),
            Err(error) => match error.kind() {
                ErrorKind::NotFound | ErrorKind::NotADirectory => {
                    self.misses = self.misses.saturating_add(1);
                    Err(FileFault::Missing)
                }
                _ => {
                    self.faults = self.faults.saturating_add(1);
                    Err(FileFault::Failed)
                }
            },
        }
    }
}
