//! Why bytes are no text of a program, or of one that is too long.

ghost use Rattle.std.specs.Prelude.{◌≡◌, ◌≤◌, ◌&&◌, nat_le, length, reverse};
ghost use Rattle.std.specs.List.{take_while};
ghost use Rattle.sierra_text.specs.Refusals.{refusal_of, before_digits};

use text_reading::{Place, Stop};
use thiserror::Error;

/// Why there is no program. `T1` to `T3` are the codes that the tool prints.
#[derive(Clone, Copy, Debug, PartialEq, Eq, Drop, Error)]
pub enum TextFault {
    /// T1: no text of a program goes on with the byte at this place, or none ends there.
    #[error("no text of a program goes on so")]
    Syntax(Place),
    /// T2: the number that begins at this place is too wide.
    #[error("a number that is too wide")]
    NumberTooWide(Place),
    /// T3: there are more than 2^20 statements, or more than 2^16 types, libfuncs or functions.
    #[error("the program is too long")]
    TooLong,
    /// Out of memory.
    #[error("out of memory")]
    Memory,
}

impl TextFault {
    /// The fault of a reader that stopped behind these bytes of the text.
    pub fn behind(front: &[u8], stop: Stop<()>) -> TextFault
        ensures { result ≡ refusal_of stop front.now }
    {
        match stop {
            Stop::Syntax => TextFault::Syntax(Place::behind(front)),
            Stop::Limit(()) => TextFault::NumberTooWide(Place::behind(before_digits(front))),
            Stop::Memory => TextFault::Memory,
        }
    }
}

/// How many digits are at the end of these bytes.
fn last_digits(bytes: &[u8]) -> usize
    ensures count { result ≡ length (take_while (λ byte. nat_le 48 byte && nat_le byte 57) (reverse bytes.now)) }
    ensures bound { result ≤ length bytes.now }
{
    bytes
        .iter()
        .rev()
        .take_while(|byte| b'0' <= **byte && **byte <= b'9')
        .count()
}

/// The bytes before the digits at the end.
fn before_digits(front: &[u8]) -> &[u8]
    ensures { result.now ≡ before_digits front.now }
{
    &front[..front.len() - last_digits(front)]
}
