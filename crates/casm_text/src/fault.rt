//! Why bytes are no text of code, or of code that is too long.

ghost use Rattle.std.specs.Prelude.{◌≡◌};
ghost use Rattle.casm_text.specs.Refusals.{refusal_of};

use text_reading::{Place, Stop};
use thiserror::Error;

/// The kinds of numbers that have a limit.
#[derive(Clone, Copy, Debug, PartialEq, Eq)]
pub enum NumberKind {
    /// The offset of a cell, from -32768 to 32767.
    Offset,
    /// An immediate, whose absolute value is below the field's order.
    Imm,
}

/// Why there is no code. `A1` to `A4` are the codes that the tool prints.
#[derive(Clone, Copy, Debug, PartialEq, Eq, Drop, Error)]
pub enum AsmFault {
    /// A1: no text of code goes on with the byte at this place, or none ends there.
    #[error("no text of code goes on so")]
    Syntax(Place),
    /// A2: the offset on this line is out of range.
    #[error("the offset on line {0} is out of range")]
    OffsetRange(u64),
    /// A3: the absolute value of the immediate on this line is the field's order or more.
    #[error("the immediate on line {0} is out of range")]
    ImmRange(u64),
    /// A4: the code has more than 2^24 words.
    #[error("the code has more than 2^24 words")]
    TooLong,
    /// Out of memory.
    #[error("out of memory")]
    Memory,
}

impl AsmFault {
    /// The fault of a reader that stopped behind these bytes of the text.
    pub fn behind(front: &[u8], stop: Stop<NumberKind>) -> AsmFault
        ensures { result ≡ refusal_of stop front.now }
    {
        let place = Place::behind(front);
        match stop {
            Stop::Syntax => AsmFault::Syntax(place),
            Stop::Limit(NumberKind::Offset) => AsmFault::OffsetRange(place.line),
            Stop::Limit(NumberKind::Imm) => AsmFault::ImmRange(place.line),
            Stop::Memory => AsmFault::Memory,
        }
    }
}
