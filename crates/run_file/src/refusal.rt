//! Why bytes are no run file: what the readers answer in place of a run.

ghost use Rattle.std.specs.Prelude.{◌≡◌};
ghost use Rattle.run_file.specs.declared.refusal.FileRefusal.TheVariants.{Memory};

use std::alloc::{AllocError, AllocFailed};
use thiserror::Error;

/// The first refusal in byte order, or want of memory.
/// A number is an offset in bytes from the file's start. `F1` to `F6` are the codes that the tool prints.
#[derive(Clone, Copy, Debug, PartialEq, Eq, Drop, Error)]
pub enum FileRefusal {
    /// F1: a byte of the magic differs.
    #[error("no run file")]
    Magic,
    /// F2: the word at this offset is the field's order or more.
    #[error("the word at {0} is beyond the field")]
    WordRange(u64),
    /// F3: the address at this offset isn't above the one before.
    #[error("the address at {0} is out of order")]
    Order(u64),
    /// F4: the file ends early, at this offset, which is its length.
    #[error("the file ends early, at {0}")]
    Cut(u64),
    /// F5: bytes follow the last state, from this offset on.
    #[error("bytes follow the last state at {0}")]
    Extra(u64),
    /// F6: there are 2^32 steps or more.
    #[error("too many steps")]
    StepsAbove,
    /// Want of memory.
    #[error("out of memory")]
    Memory,
}

impl From<AllocError> for FileRefusal {
    ghost from_gives = { λ _ e. e ≡ Memory };

    fn from(_: AllocError) -> FileRefusal {
        FileRefusal::Memory
    }
}

impl<T: Drop> From<AllocFailed<T>> for FileRefusal {
    ghost from_gives = { λ _ e. e ≡ Memory };

    fn from(_: AllocFailed<T>) -> FileRefusal {
        FileRefusal::Memory
    }
}
