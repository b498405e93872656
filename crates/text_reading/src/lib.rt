//! Readers of texts that answer the exact place of a fault: blanks, marks, words and numbers.
//!
//! The bytes of a text come in, and what stands at their head goes out, or why no text goes on so. The readers of
//! CASM text, of Sierra text, of inputs and of scripts are made of these.
#![tactic(auto)]

mod place;
mod stop;
mod tokens;

pub use place::Place;
pub use stop::Stop;
pub use tokens::{blanks, is_digit, is_next, is_word_byte, mark, number, word};
