//! The instruction words of the Cairo machine: instructions, their offsets and flags, and their 64-bit words.
//!
//! Instructions come in and words go out, and back: words come in, and flags or the rule that makes the word undefined
//! go out. The text of CASM reads and prints instructions, the machine decodes words, and the layers that lower
//! libfuncs emit instructions and name cells by expressions.
#![tactic(auto)]

mod bits;
mod cell_expr;
mod code;
mod decoding;
mod encoding;
mod flags;
mod instr;
mod laws;
mod rules;

pub use cell_expr::{At, CellExpr, Side};
pub use code::{Code, words};
pub use decoding::decode;
pub use encoding::{Encoded, encode, flags_of, word_of};
pub use flags::{ApKind, Flags, Op1, Opcode, PcKind, ResKind};
pub use instr::{CellRef, Instr, Operand, Reg, Res};
pub use laws::{
    decoding_undoes_encoding, defined_words, encoding_undoes_decoding, instructions_have_words,
    lowered_twice, one_flags, words_in_field,
};
pub use rules::{Rule, WordFault};
