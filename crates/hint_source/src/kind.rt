//! The kinds of query. A run asks them with felts, code names them with expressions for felts.

/// What is asked, of parts that are felts or stand for felts.
#[derive(Clone, Copy, Debug, PartialEq, Eq)]
pub enum Kind<T> {
    /// 1 where `a` is below `b` as numbers, else 0.
    Less {
        /// The number on the left.
        a: T,
        /// The number on the right.
        b: T,
    },
    /// The quotient of whole numbers; by 0 there is none.
    Quotient {
        /// The dividend.
        a: T,
        /// The divisor.
        b: T,
    },
    /// The remainder of whole numbers; by 0 there is none.
    Remainder {
        /// The dividend.
        a: T,
        /// The divisor.
        b: T,
    },
    /// The high 32 bits.
    High {
        /// The number.
        a: T,
    },
    /// The low 32 bits.
    Low {
        /// The number.
        a: T,
    },
    /// The first address of a segment of `2^32` cells that nothing has used.
    Fresh,
    /// The last word that was written for a key, or 0.
    Previous {
        /// The log, by its start.
        log: T,
        /// The key.
        key: T,
    },
    /// The number of the log's distinct keys.
    KeyCount {
        /// The log, by its start.
        log: T,
    },
    /// The key of this number among the log's distinct keys in rising order, counted from 0.
    KeyAt {
        /// The log, by its start.
        log: T,
        /// The number of the key.
        i: T,
    },
    /// The number of the key's first access in the log, counted from 0.
    FirstAt {
        /// The log, by its start.
        log: T,
        /// The key.
        key: T,
    },
    /// The distance from an access to the key's next one, 0 where there is none.
    NextIn {
        /// The log, by its start.
        log: T,
        /// The key.
        key: T,
        /// The number of the access.
        index: T,
    },
}
