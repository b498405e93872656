//! What a program's text is made of: declarations, and what each begins with.

use sierra_types::{Function, LibfuncDecl, Name, Statement, TypeDecl};

/// What a declaration begins with.
#[derive(Debug, Drop)]
pub enum Head {
    /// `type`.
    TypeWord,
    /// `libfunc`.
    LibfuncWord,
    /// `return`.
    ReturnWord,
    /// An id, of a libfunc or of a function.
    Id(Name),
}

/// A declaration.
#[derive(Debug, Drop)]
pub enum Declaration {
    /// Of a type.
    OfType(TypeDecl),
    /// Of a libfunc.
    OfLibfunc(LibfuncDecl),
    /// A statement.
    OfStatement(Statement),
    /// Of a function.
    OfFunction(Function),
}
