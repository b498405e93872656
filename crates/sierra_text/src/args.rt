//! Generic arguments.

ghost use Rattle.std.specs.Prelude.{◌≡◌, [], ◌∷◌, true, false};
ghost use Rattle.text_reading.specs.Given.{Gives};
ghost use Rattle.text_reading.specs.Tokens.{is_digit};
ghost use Rattle.text_reading.specs.Repeating.{begins_with};
ghost use Rattle.sierra_text.specs.Text.{standard};
ghost use Rattle.sierra_text.specs.Reading.{negative_at, size_at, plain_at, marked_at, behind_label_at, labelled_at, arg_at, args_at};

use crate::ids::{id, numbered};
use crate::labels::label;
use crate::lists::{Item, one_or_more};
use crate::part::Part;
use sierra_types::{Arg, List, Name};
use std::alloc::Global;
use text_reading::{Stop, blanks, is_digit, is_next, mark, number};

/// `-` and a number other than 0.
#[tactic(auto, unfolding(crate::specs::Reading::negative_at))]
fn negative(rest: &mut &[u8]) -> Result<Arg, Stop<()>>
    ensures { Gives (λ arg. arg) result rest.new.now (negative_at standard rest.old.now) }
{
    mark(rest, b"-")?;
    let size = number(rest, u128::MAX, false, ())?;
    Ok(Arg::Number {
        negative: true,
        size,
    })
}

/// A number.
#[tactic(auto, unfolding(crate::specs::Reading::size_at))]
fn size(rest: &mut &[u8]) -> Result<Arg, Stop<()>>
    ensures { Gives (λ arg. arg) result rest.new.now (size_at standard rest.old.now) }
{
    let size = number(rest, u128::MAX, true, ())?;
    Ok(Arg::Number {
        negative: false,
        size,
    })
}

/// The blanks behind a label that is an id.
fn plain(alloc: Global, rest: &mut &[u8], label: &[u8]) -> Result<Arg, Stop<()>>
    ensures { Gives (λ arg. arg) result rest.new.now (plain_at standard label.now rest.old.now) }
{
    blanks(rest)?;
    Ok(Arg::OfType(Name::new(alloc, label)?))
}

/// What is behind a label: `@` and an id where the label is `ut` or `user`, or the blanks.
#[tactic(auto, unfolding(crate::specs::Reading::behind_label_at))]
fn behind_label(alloc: Global, rest: &mut &[u8], label: &[u8]) -> Result<Arg, Stop<()>>
    ensures { Gives (λ arg. arg) result rest.new.now (behind_label_at standard label.now rest.old.now) }
{
    let ut_word: &[u8] = b"ut";
    let user_word: &[u8] = b"user";
    if label == ut_word {
        if is_next(rest, b'@') {
            mark(rest, b"@")?;
            let name = id(alloc, rest)?;
            Ok(Arg::User(name))
        } else {
            plain(alloc, rest, label)
        }
    } else if label == user_word {
        if is_next(rest, b'@') {
            mark(rest, b"@")?;
            let name = id(alloc, rest)?;
            Ok(Arg::Callee(name))
        } else {
            plain(alloc, rest, label)
        }
    } else {
        plain(alloc, rest, label)
    }
}

/// An argument that begins with a label.
#[tactic(auto, unfolding(crate::specs::Reading::labelled_at))]
fn labelled(alloc: Global, rest: &mut &[u8]) -> Result<Arg, Stop<()>>
    ensures { Gives (λ arg. arg) result rest.new.now (labelled_at standard rest.old.now) }
{
    let text: &[u8] = *rest;
    let end = label(rest, Part::Functions)?;
    behind_label(alloc, rest, &text[..end])
}

/// Whether a digit is next.
fn is_digit_next(rest: &[u8]) -> bool
    ensures { result ≡ begins_with is_digit rest.now }
{
    match rest.first() {
        Some(byte) => is_digit(*byte),
        None => false,
    }
}

/// An argument.
#[tactic(auto, unfolding(crate::specs::Reading::arg_at))]
fn arg(alloc: Global, rest: &mut &[u8]) -> Result<Arg, Stop<()>>
    ensures { Gives (λ arg. arg) result rest.new.now (arg_at standard rest.old.now) }
{
    if is_next(rest, b'-') {
        negative(rest)
    } else if is_next(rest, b'[') {
        let name = numbered(alloc, rest)?;
        Ok(Arg::OfType(name))
    } else if is_digit_next(rest) {
        size(rest)
    } else {
        labelled(alloc, rest)
    }
}

impl Item for Arg {
    ghost reader = { arg_at standard };

    fn read(alloc: Global, rest: &mut &[u8]) -> Result<Arg, Stop<()>> {
        arg(alloc, rest)
    }
}

/// Arguments in `<` and `>`, or nothing.
#[tactic(auto, using(crate::proofs::StandardLists::arg_moves), unfolding(crate::specs::Reading::args_at))]
pub fn args(alloc: Global, rest: &mut &[u8]) -> Result<List<Arg>, Stop<()>>
    ensures { Gives (λ args. args) result rest.new.now (args_at standard rest.old.now) }
{
    if is_next(rest, b'<') {
        mark(rest, b"<")?;
        one_or_more(alloc, rest, b'>')
    } else {
        Ok(List::new(Vec::new(alloc)))
    }
}
