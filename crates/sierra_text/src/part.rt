//! The four parts of a program's text.

/// A part of a text. The parts come in this order.
#[derive(Clone, Copy, Debug, PartialEq, Eq)]
pub enum Part {
    /// The declarations of types.
    Types,
    /// The declarations of libfuncs.
    Libfuncs,
    /// The statements.
    Statements,
    /// The functions.
    Functions,
}
