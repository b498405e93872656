//! Sierra programs as trees: types, libfuncs, statements and functions, with the names that they go by.
//!
//! The reader of Sierra text makes them and the printer writes them; the table of types, the signatures of libfuncs
//! and all that checks, runs or lowers a program read them.
#![tactic(auto)]

mod list;
mod name;
mod program;

pub use list::List;
pub use name::Name;
pub use program::{Arg, Branch, Function, Info, LibfuncDecl, Program, Statement, Target, TypeDecl};
