//! The text of CASM, both ways: code from its text, and the text of code.
//!
//! The bytes of a text come in and code goes out, or the first fault with its place; and code comes in and its text
//! goes out. The commands that assemble and that print compiled code call it.
#![tactic(auto)]

mod assembling;
mod fault;
mod laws;
mod printing;
mod reading;

pub use assembling::assemble;
pub use fault::{AsmFault, NumberKind};
pub use laws::{code_or_refusal, one_code, one_refusal, printed_is_text};
pub use printing::print;
