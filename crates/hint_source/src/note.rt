//! The notes that a run sends to its hint sources: what became of its dictionaries. A run sends felts, code names them
//! with expressions for felts.

/// What a run has done, of parts that are felts or stand for felts.
#[derive(Clone, Copy, Debug, PartialEq, Eq)]
pub enum Note<T> {
    /// A dictionary was made, so a log begins.
    Begun {
        /// The log, by its start.
        log: T,
    },
    /// An access of a dictionary is complete, and its log has grown by it.
    Written {
        /// The log, by its start.
        log: T,
        /// The key.
        key: T,
        /// The word that the key has now.
        word: T,
    },
}
