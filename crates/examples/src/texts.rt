//! The files of a transcript: names and bytes come in from the session, and the tool and the session read them.

ghost use Rattle.std.specs.Prelude.{◌≤◌, length, None};

use edge_io::{FileFault, Files};
use std::alloc::{AllocError, Global};

/// The files that a transcript has had so far, over other files.
#[derive(Drop)]
pub struct Texts<F: Files> {
    own: Vec<(String, Vec<u8>)>,
    others: F,
}

impl<F: Files> Texts<F> {
    /// No file of a transcript yet, over these others.
    pub fn new(alloc: Global, others: F) -> Texts<F> {
        Texts {
            own: Vec::new(alloc),
            others,
        }
    }

    /// Adds a file, in front of those of the same name.
    pub fn add(&mut self, name: &str, bytes: Vec<u8>) -> Result<(), AllocError> {
        let name = String::from_str(*self.own.allocator(), name)?;
        self.own.push((name, bytes))?;
        Ok(())
    }

    /// Adds a line to the file that was added last.
    pub fn extend(&mut self, line: &str) -> Result<(), AllocError> {
        if let Some((_, bytes)) = self.own.last_mut() {
            bytes.extend_from_slice(line.as_bytes())?;
            bytes.push(b'\n')?;
        }
        Ok(())
    }

    /// The bytes of the transcript's last file of this name.
    fn find(&self, name: &str) -> Option<&[u8]> {
        self.own
            .iter()
            .rev()
            .find(|(key, _)| key.as_str() == name)
            .map(|(_, bytes)| bytes.as_slice())
    }
}

impl<F: Files> Files for Texts<F> {
    ghost view = { λ t. record { contents = None; faults = (F.view t.others).faults; misses = (F.view t.others).misses } };

    fn read_at(&mut self, name: &str, at: u64, buf: &mut [u8]) -> Result<usize, FileFault> {
        match self.find(name) {
            Some(bytes) => Ok(copy_from(bytes, at, buf)),
            None => self.others.read_at(name, at, buf),
        }
    }
}

/// Copies the bytes from the place `at` on into the buffer's front, and answers how many there were.
fn copy_from(bytes: &[u8], at: u64, buf: &mut [u8]) -> usize
    ensures { result ≤ length buf.old }
{
    let start = bytes.len().min(at as usize);
    let rest = &bytes[start..];
    let count = rest.len().min(buf.len());
    buf[..count].copy_from_slice(&rest[..count]);
    count
}
