//! Labels and words, each as its bytes.
//!
//! A reader takes from the head of `rest` and answers how many bytes it took. Where it stops, `rest` begins at the byte
//! with which no text goes on.

ghost use Rattle.std.specs.Prelude.{◌≡◌, ◌≤◌, ◌<◌, ◌+◌, ◌^◌, ℕ, suc, length, take, OnOk, IfOk, MatchResult, Option, Some, None, Ok, Err, Bool, true, false, cond};
ghost use Rattle.text_reading.specs.Given.{Gives};
ghost use Rattle.text_reading.specs.Reading.{first};
ghost use Rattle.sierra_text.specs.Ids.{is_word_start, is_reserved, is_printable, is_group_byte, is_bracket_byte};
ghost use Rattle.sierra_text.specs.LabelReading.{may_begin, tail_spot, next_spot, end_at, label_at, word_goes_on, bare_word_at};
ghost use Rattle.sierra_text.specs.Depth.{depth_of};

use crate::part::Part;
use text_reading::{Stop, is_digit, is_word_byte};

/// Where the next byte of a label stands.
#[derive(Clone, Copy, Debug, PartialEq, Eq)]
pub enum LabelSpot {
    /// At its head.
    Start,
    /// In its first word or behind it.
    FirstWord,
    /// Behind the first `:` of a tail.
    Colon,
    /// Behind `::`.
    Path,
    /// In the word of a tail or behind it.
    Word,
    /// In a group, with so many groups open around it.
    Group(usize),
    /// Behind `[`.
    Bracket,
    /// In a bracket that isn't empty.
    InBracket,
    /// Behind a group or a bracket.
    Behind,
}

/// Whether a word may begin with the byte: a letter or `_`.
fn is_word_start(byte: u8) -> bool
    ensures { result ≡ is_word_start byte }
{
    (b'A' <= byte && byte <= b'Z') || (b'a' <= byte && byte <= b'z') || byte == b'_'
}

/// Whether the byte is one from space to `~`.
fn is_printable(byte: u8) -> bool
    ensures { result ≡ is_printable byte }
{
    b' ' <= byte && byte <= b'~'
}

/// Whether the byte stands for itself in a group.
fn is_group_byte(byte: u8) -> bool
    ensures { result ≡ is_group_byte byte }
{
    is_printable(byte) && !(byte == b'<' || byte == b'>')
}

/// Whether the byte may stand in a bracket.
fn is_bracket_byte(byte: u8) -> bool
    ensures { result ≡ is_bracket_byte byte }
{
    is_printable(byte) && !(byte == b'[' || byte == b']')
}

/// Whether a label is one of the words that begin declarations.
pub fn is_reserved(label: &[u8]) -> bool
    ensures { result ≡ is_reserved label.now }
{
    let type_word: &[u8] = b"type";
    let libfunc_word: &[u8] = b"libfunc";
    let return_word: &[u8] = b"return";
    label == type_word || (label == libfunc_word || label == return_word)
}

/// Whether this reserved word may begin a declaration, where the last one belongs to this part.
fn may_begin(part: Part, word: &[u8]) -> bool
    ensures { result ≡ may_begin part word.now }
{
    let type_word: &[u8] = b"type";
    let return_word: &[u8] = b"return";
    match part {
        Part::Types => true,
        Part::Libfuncs => !(word == type_word),
        Part::Statements => word == return_word,
        Part::Functions => false,
    }
}

/// Where the byte behind this one stands, if this one begins a tail.
fn tail_spot(byte: u8) -> Option<LabelSpot>
    ensures { result ≡ tail_spot byte }
{
    match byte {
        b':' => Some(LabelSpot::Colon),
        b'<' => Some(LabelSpot::Group(0)),
        b'[' => Some(LabelSpot::Bracket),
        _ => None,
    }
}

/// Where the byte behind this one stands in a group.
fn group_spot(around: usize, byte: u8) -> Option<LabelSpot>
    requires { around < 2 ^ 63 }
    ensures { result ≡ next_spot false (LabelSpot.Group around) byte }
{
    if is_group_byte(byte) {
        return Some(LabelSpot::Group(around));
    }
    match byte {
        b'<' => Some(LabelSpot::Group(around + 1)),
        b'>' => {
            if around == 0 {
                Some(LabelSpot::Behind)
            } else {
                Some(LabelSpot::Group(around - 1))
            }
        }
        _ => None,
    }
}

/// Where the byte behind this one stands, if a first word goes on with it.
fn first_word_spot(label: &[u8], byte: u8) -> Option<LabelSpot>
    ensures { result ≡ next_spot (is_reserved label.now) LabelSpot.FirstWord byte }
{
    if is_word_byte(byte) {
        Some(LabelSpot::FirstWord)
    } else if byte == b'[' && is_reserved(label) {
        None
    } else {
        tail_spot(byte)
    }
}

/// Where the byte behind this one stands, if it goes on with `::`.
fn path_spot(byte: u8) -> Option<LabelSpot>
    ensures { result ≡ next_spot false LabelSpot.Path byte }
{
    if is_word_start(byte) {
        Some(LabelSpot::Word)
    } else {
        (byte == b'<').then_some(LabelSpot::Group(0))
    }
}

/// Where the byte behind this one stands, if a word behind `::` goes on with it.
fn word_spot(byte: u8) -> Option<LabelSpot>
    ensures { result ≡ next_spot false LabelSpot.Word byte }
{
    if is_word_byte(byte) {
        Some(LabelSpot::Word)
    } else {
        tail_spot(byte)
    }
}

/// Where the byte behind this one stands, if a bracket with something in it goes on with it.
fn in_bracket_spot(byte: u8) -> Option<LabelSpot>
    ensures { result ≡ next_spot false LabelSpot.InBracket byte }
{
    if is_bracket_byte(byte) {
        Some(LabelSpot::InBracket)
    } else {
        (byte == b']').then_some(LabelSpot::Behind)
    }
}

/// Where the byte behind this one stands, if the label goes on with it.
fn next_spot(label: &[u8], spot: LabelSpot, byte: u8) -> Option<LabelSpot>
    requires { depth_of spot < 2 ^ 63 }
    ensures { result ≡ next_spot (is_reserved label.now) spot byte }
{
    match spot {
        LabelSpot::Start => is_word_start(byte).then_some(LabelSpot::FirstWord),
        LabelSpot::FirstWord => first_word_spot(label, byte),
        LabelSpot::Colon => (byte == b':').then_some(LabelSpot::Path),
        LabelSpot::Path => path_spot(byte),
        LabelSpot::Word => word_spot(byte),
        LabelSpot::Group(around) => group_spot(around, byte),
        LabelSpot::Bracket => is_bracket_byte(byte).then_some(LabelSpot::InBracket),
        LabelSpot::InBracket => in_bracket_spot(byte),
        LabelSpot::Behind => tail_spot(byte),
    }
}

/// Whether the label may end here: in or behind a word, or behind a group or a bracket with no word next to it; and it
/// is no reserved word, but where this one may begin a declaration.
fn ends(part: Part, spot: LabelSpot, label: &[u8], rest: &[u8]) -> bool
    ensures { end_at part spot label.now (first rest.now) ≡ cond result (Ok label.now) (Err None) }
{
    match spot {
        LabelSpot::FirstWord => !(is_reserved(label) && !may_begin(part, label)),
        LabelSpot::Word => true,
        LabelSpot::Behind => match rest.first() {
            Some(byte) => !is_word_byte(*byte),
            None => true,
        },
        _ => false,
    }
}

/// A label: how many bytes it has. A reserved word is one where it may begin a declaration behind those of this part.
#[tactic(auto, unfolding(crate::specs::LabelReading::label_at))]
pub fn label(rest: &mut &[u8], part: Part) -> Result<usize, Stop<()>>
    ensures gives { Gives (λ end. take end rest.old.now) result rest.new.now (label_at part rest.old.now) }
    ensures within { IfOk result (λ end. end ≤ length rest.old.now) }
{
    let text: &[u8] = *rest;
    let mut spot = LabelSpot::Start;
    let mut end: usize = 0;
    while end < text.len() {
        match next_spot(&text[..end], spot, text[end]) {
            Some(next) => spot = next,
            None => break,
        }
        end += 1;
    }
    let (label, left) = text.split_at(end);
    *rest = left;
    if ends(part, spot, label, left) {
        Ok(end)
    } else {
        Err(Stop::Syntax)
    }
}

/// Whether a word goes on with the byte.
fn word_goes_on(word: &[u8], byte: u8) -> bool
    ensures { result ≡ word_goes_on word.now byte }
{
    match word {
        [] => is_word_start(byte),
        _ => is_word_byte(byte),
    }
}

/// A word: how many bytes it has.
#[tactic(auto, unfolding(crate::specs::LabelReading::bare_word_at))]
pub fn any_word(rest: &mut &[u8]) -> Result<usize, Stop<()>>
    ensures gives { Gives (λ end. take end rest.old.now) result rest.new.now (bare_word_at rest.old.now) }
    ensures within { IfOk result (λ end. end ≤ length rest.old.now) }
{
    let text: &[u8] = *rest;
    let mut end: usize = 0;
    while end < text.len() && word_goes_on(&text[..end], text[end]) {
        end += 1;
    }
    let (_, left) = text.split_at(end);
    *rest = left;
    if end == 0 {
        return Err(Stop::Syntax);
    }
    Ok(end)
}
