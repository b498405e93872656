//! Why a text is no input.

ghost use Rattle.std.specs.Prelude.{◌≡◌, ◌-◌, length, take};
ghost use Rattle.typed_values.specs.Reading.{fault_of, place_of};

use text_reading::{Place, Stop};
use thiserror::Error;

/// What a value may pass.
#[derive(Clone, Copy, Debug, PartialEq, Eq)]
pub enum ValueLimit {
    /// A number that isn't of its type, or an index without a variant.
    OutOfRange,
    /// An array of more cells than an input may have in one.
    LongArray,
}

/// Why a text is no input of main. `I1` to `I5` are the codes that the tool prints.
#[derive(Clone, Copy, Debug, PartialEq, Eq, Drop, Error)]
pub enum InputFault {
    /// I1: no input goes on with the byte at this place, or none ends there.
    #[error("no input goes on so")]
    Syntax(Place),
    /// I2: the number or the index of a variant that begins at this place is out of range.
    #[error("a number is out of range")]
    OutOfRange(Place),
    /// I3: there are more or fewer lines behind the first than main has arguments.
    #[error("there are {found} lines for {expected} arguments")]
    LineCount {
        /// As many as main has arguments.
        expected: u64,
        /// As many as there are.
        found: u64,
    },
    /// I4: the array that begins at this place has more than 2^20 cells.
    #[error("an array has more than 2^20 cells")]
    LongArray(Place),
    /// I5: the gas is 2^32 or more.
    #[error("the gas is 2^32 or more")]
    GasRange,
    /// Out of memory.
    #[error("out of memory")]
    Memory,
}

impl InputFault {
    /// The fault of a reader that stopped where these bytes were left of the text.
    pub fn at(stop: Stop<ValueLimit>, text: &[u8], rest: &[u8]) -> InputFault
        ensures { result ≡ fault_of stop text.now rest.now }
    {
        let place = place_of(text, rest);
        match stop {
            Stop::Syntax => InputFault::Syntax(place),
            Stop::Limit(ValueLimit::OutOfRange) => InputFault::OutOfRange(place),
            Stop::Limit(ValueLimit::LongArray) => InputFault::LongArray(place),
            Stop::Memory => InputFault::Memory,
        }
    }
}

/// The place at which these bytes are left of the text.
fn place_of(text: &[u8], rest: &[u8]) -> Place
    ensures { result ≡ place_of text.now rest.now }
{
    Place::behind(&text[..text.len().saturating_sub(rest.len())])
}
