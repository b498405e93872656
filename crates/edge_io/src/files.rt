//! Files by name: what comes in is a name and a place, what goes out is bytes or a fault with its cause.

ghost use Rattle.std.specs.Prelude.{◌≡◌, ◌≤◌, length, IfOk, IsErrOf, MatchResult};
ghost use Rattle.edge_io.specs.Counts.{Rose};
ghost use Rattle.edge_io.specs.Files.{FilesView, Keeps, ForFile, ReadsAt};
ghost use Rattle.edge_io.specs.Reading.{ReadsWhole, read_fault};
ghost use Rattle.edge_io.specs.declared.files.ReadFault.TheVariants.{Memory};

use std::alloc::{AllocError, Global};
use thiserror::Error;

/// Why a read gave no bytes.
#[derive(Clone, Copy, Debug, PartialEq, Eq, Drop, Error)]
pub enum FileFault {
    /// There is no file of this name.
    #[error("no such file")]
    Missing,
    /// The file is there, or may be, and could not be read.
    #[error("a read failed")]
    Failed,
}

/// Files that can be read by name.
pub trait Files {
    /// What the object tells of itself: its contents, where they are known, and its counts.
    ghost view: { Self → FilesView };

    /// Reads from the byte `at` of a file into the first bytes of `buf`, and answers how many bytes came.
    fn read_at(&mut self, name: &str, at: u64, buf: &mut [u8]) -> Result<usize, FileFault>
        ensures keeps { Keeps (view self.old) (view self.new) }
        ensures within { IfOk result (λ n. n ≤ length buf.old) }
        ensures known { ForFile (view self.old).contents name.now
            (result ≡ Err FileFault.Missing)
            (λ bytes. MatchResult result (λ n. ReadsAt bytes at buf.new n) (λ e. e ≡ FileFault.Failed)) }
        ensures missing { IsErrOf result FileFault.Missing → Rose (view self.old).misses (view self.new).misses }
        ensures failed { IsErrOf result FileFault.Failed → Rose (view self.old).faults (view self.new).faults };
}

/// Why a file was not read whole.
#[derive(Clone, Copy, Debug, PartialEq, Eq, Drop, Error)]
pub enum ReadFault {
    /// There is no file of this name.
    #[error("no such file")]
    Missing,
    /// The file is there, or may be, and could not be read.
    #[error("a read failed")]
    Failed,
    /// The file has more bytes than the caller takes.
    #[error("the file is too long")]
    TooLong,
    /// There was no memory to keep what was read.
    #[error("out of memory")]
    Memory,
}

impl From<FileFault> for ReadFault {
    ghost from_gives = { λ fault given. given ≡ read_fault fault };

    fn from(fault: FileFault) -> ReadFault {
        match fault {
            FileFault::Missing => ReadFault::Missing,
            FileFault::Failed => ReadFault::Failed,
        }
    }
}

impl From<AllocError> for ReadFault {
    ghost from_gives = { λ _ given. given ≡ Memory };

    fn from(_fault: AllocError) -> ReadFault {
        ReadFault::Memory
    }
}

/// How many bytes of a file are asked for at once.
const PIECE: usize = 65_536;

/// Reads a whole file of at most `limit` bytes. It takes memory only once a first piece has come, so it never runs out of
/// memory where the known files lack the name.
pub fn read_all<F: Files>(
    alloc: Global,
    files: &mut F,
    name: &str,
    limit: u64,
) -> Result<Vec<u8>, ReadFault>
    ensures keeps { Keeps (F.view files.old) (F.view files.new) }
    ensures within { IfOk result (λ v. length v.items ≤ limit) }
    ensures known { ForFile (F.view files.old).contents name.now
        (result ≡ Err ReadFault.Missing)
        (λ bytes. ReadsWhole bytes limit result) }
    ensures missing { IsErrOf result ReadFault.Missing → Rose (F.view files.old).misses (F.view files.new).misses }
    ensures failed { IsErrOf result ReadFault.Failed → Rose (F.view files.old).faults (F.view files.new).faults }
{
    let mut whole = Vec::new(alloc);
    let mut piece = [0; PIECE];
    let mut room = limit;
    loop {
        let came = files.read_at(name, limit - room, &mut piece)?;
        if came == 0 {
            return Ok(whole);
        }
        if came as u64 > room {
            return Err(ReadFault::TooLong);
        }
        whole.extend_from_slice(&piece[..came])?;
        room -= came as u64;
    }
}
