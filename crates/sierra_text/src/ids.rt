//! Ids, words and the numbers of variables and statements.

ghost use Rattle.std.specs.Prelude.{◌≡◌, IfOk};
ghost use Rattle.text_reading.specs.Given.{Gives};
ghost use Rattle.sierra_text.specs.Text.{standard, numbered};
ghost use Rattle.text_reading.specs.TokenReading.{token};
ghost use Rattle.sierra_text.specs.LabelReading.{label_at, any_word_at};
ghost use Rattle.sierra_text.specs.Reading.{numbered_at, id_at, position_at, var_at};

use crate::labels::{any_word, label};
use crate::part::Part;
use itoa::Buffer;
use sierra_types::Name;
use std::alloc::{AllocError, Global};
use text_reading::{Stop, blanks, is_next, mark, number};

/// The name of the id `[n]`.
fn numbered_name(alloc: Global, n: u128) -> Result<Name, AllocError>
    ensures { IfOk result (λ name. name ≡ numbered n) }
{
    let mut bytes = Vec::from_slice(alloc, b"[")?;
    bytes.extend_from_slice(Buffer::new().format(n).as_bytes())?;
    bytes.extend_from_slice(b"]")?;
    Name::new(alloc, &bytes)
}

/// The id `[` number `]`.
#[tactic(auto, unfolding(crate::specs::Reading::numbered_at))]
pub fn numbered(alloc: Global, rest: &mut &[u8]) -> Result<Name, Stop<()>>
    ensures { Gives (λ name. name) result rest.new.now (numbered_at standard rest.old.now) }
{
    mark(rest, b"[")?;
    let n = number(rest, u128::MAX, true, ())?;
    mark(rest, b"]")?;
    Ok(numbered_name(alloc, n)?)
}

/// A label, and the blanks behind it.
#[tactic(auto)]
pub fn label_token(alloc: Global, rest: &mut &[u8], part: Part) -> Result<Name, Stop<()>>
    ensures { Gives (λ name. name) result rest.new.now (token (label_at part) rest.old.now) }
{
    let text: &[u8] = *rest;
    let end = label(rest, part)?;
    blanks(rest)?;
    Ok(Name::new(alloc, &text[..end])?)
}

/// An id: a label that is no reserved word, or `[` number `]`.
#[tactic(auto, unfolding(crate::specs::Reading::id_at))]
pub fn id(alloc: Global, rest: &mut &[u8]) -> Result<Name, Stop<()>>
    ensures { Gives (λ name. name) result rest.new.now (id_at standard rest.old.now) }
{
    if is_next(rest, b'[') {
        numbered(alloc, rest)
    } else {
        label_token(alloc, rest, Part::Functions)
    }
}

/// A word, and the blanks behind it.
#[tactic(auto, unfolding(crate::specs::LabelReading::any_word_at))]
pub fn word_token(alloc: Global, rest: &mut &[u8]) -> Result<Name, Stop<()>>
    ensures { Gives (λ name. name) result rest.new.now (any_word_at rest.old.now) }
{
    let text: &[u8] = *rest;
    let end = any_word(rest)?;
    blanks(rest)?;
    Ok(Name::new(alloc, &text[..end])?)
}

/// The number of a variable or of a statement.
#[tactic(auto, unfolding(crate::specs::Reading::position_at))]
pub fn position(rest: &mut &[u8]) -> Result<u64, Stop<()>>
    ensures { Gives (λ n. n) result rest.new.now (position_at standard rest.old.now) }
{
    let n = number(rest, 18446744073709551615, true, ())?;
    Ok(n as u64)
}

/// A variable, `[` number `]`.
#[tactic(auto, unfolding(crate::specs::Reading::var_at))]
pub fn var(rest: &mut &[u8]) -> Result<u64, Stop<()>>
    ensures { Gives (λ n. n) result rest.new.now (var_at standard rest.old.now) }
{
    mark(rest, b"[")?;
    let n = position(rest)?;
    mark(rest, b"]")?;
    Ok(n)
}
