//! The text of Sierra programs: a program from its text, and the text of a program.
//!
//! The bytes of a text come in and a program goes out, or the first fault with its place; a program comes in and its
//! text in the plain layout goes out. Every command that takes a program reads it so.
#![tactic(auto)]

mod args;
mod branches;
mod declaration;
mod declaring;
mod fault;
mod ids;
mod infos;
mod labels;
mod laws;
mod lists;
mod part;
mod parts;
mod plain;
mod printing;
mod reading;

pub use fault::TextFault;
pub use laws::{
    names_are_ascii, one_layout, one_program, one_refusal, printed_is_text, printed_reads_back,
    program_or_refusal,
};
pub use printing::print;
pub use reading::read;
