//! The libfuncs of Sierra: what each declared one is, which types it takes and gives, and what it asks of them.
//!
//! Declarations come in, with the table of the program's types and functions; signatures go out, or the first refusal. All
//! that checks, runs or lowers a program reads signatures, and its definitions go by the families of `specs/`.
#![tactic(auto)]

mod able;
mod arguments;
mod arrays;
mod columns;
mod control;
mod data;
mod declarations;
mod dictionaries;
mod families;
mod felts;
mod finding;
mod gas;
mod integers;
mod laws;
mod libfunc;
mod sig;
mod wanted;
mod width;

pub use declarations::{signature, signatures};
pub use laws::{never_both, one_fault, one_signature, signatures_or_fault};
pub use libfunc::Libfunc;
pub use sig::{Sig, SigFault};
pub use width::Width;
