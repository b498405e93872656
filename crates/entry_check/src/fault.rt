//! Why a program has no entry.

use thiserror::Error;

/// Why no run of a program can begin.
#[derive(Clone, Copy, Debug, PartialEq, Eq, Drop, Error)]
pub enum EntryFault {
    /// P50: a type of main is neither plain nor a builtin. The position counts the parameters and then the results, from 0.
    #[error("a type of main is no type of an entry")]
    EntryType(u64),
    /// P51: no function is named `main`, or by a name that ends in `::main`.
    #[error("no main")]
    NoMain,
}
