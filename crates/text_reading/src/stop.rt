//! Why a reader stops: what every reader of a text answers in place of a tree.

ghost use Rattle.std.specs.Prelude.{◌≡◌};
ghost use Rattle.text_reading.specs.declared.stop.Stop.TheVariants.{Memory};

use std::alloc::{AllocError, AllocFailed};

/// Why a reader stops at the byte that is next. `K` names the kinds of numbers that have a limit.
#[derive(Clone, Copy, Debug, PartialEq, Eq, Drop)]
pub enum Stop<K> {
    /// No text of the language goes on with this byte, or none ends here.
    Syntax,
    /// With this digit a number of the kind passes its limit.
    Limit(K),
    /// Out of memory.
    Memory,
}

impl<K> From<AllocError> for Stop<K> {
    ghost from_gives = { λ _ e. e ≡ Memory };

    fn from(_: AllocError) -> Stop<K> {
        Stop::Memory
    }
}

impl<K, T: Drop> From<AllocFailed<T>> for Stop<K> {
    ghost from_gives = { λ _ e. e ≡ Memory };

    fn from(_: AllocFailed<T>) -> Stop<K> {
        Stop::Memory
    }
}
