//! Reading bytes: decimal numbers in texts, and numbers of eight bytes that come in pieces.
//!
//! Bytes come in, and the values that they write go out, or the first fault. The field's numbers, the readers of texts
//! and the reader of run files stand on it.
#![tactic(auto)]

mod decimal;
mod laws;
mod unfinished;

pub use decimal::{DecimalFault, leading_decimal, read_decimal};
pub use laws::{one_leading_number, one_text};
pub use unfinished::Unfinished;
