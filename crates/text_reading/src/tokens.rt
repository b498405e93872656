//! The tokens of a text, each with the blanks behind it: blanks, marks, words and numbers.
//!
//! A reader takes from the head of `rest`. Where it stops, `rest` begins at the byte with which no text goes on.

ghost use Rattle.std.specs.Prelude.{◌≡◌, ◌≤◌, ◌<◌, ◌+◌, IfOk, ℕ, Option, Some, None, if◌then◌else◌};
ghost use Rattle.text_reading.specs.Given.{Gives};
ghost use Rattle.text_reading.specs.Reading.{begins};
ghost use Rattle.text_reading.specs.Tokens.{is_blank, is_digit, is_within, is_word_byte};
ghost use Rattle.text_reading.specs.TokenReading.{next_spot, blanks_at, literal_at, mark_at, word_end_at, word_at, longer, first_digit_at, digits_at, number_at};

use crate::stop::Stop;

/// Where a byte among blanks stands.
#[derive(Clone, Copy, Debug, PartialEq, Eq)]
pub enum Spot {
    /// In no comment.
    Outside,
    /// Behind the first slash of a comment.
    AfterSlash,
    /// In a comment.
    InComment,
}

/// Whether the byte is a space, a tab, or CR or LF.
fn is_blank(byte: u8) -> bool
    ensures { result ≡ is_blank byte }
{
    byte == b' ' || byte == b'\t' || byte == b'\r' || byte == b'\n'
}

/// Whether this byte is next.
pub fn is_next(rest: &[u8], byte: u8) -> bool
    ensures { result ≡ begins byte rest.now }
{
    match rest.first() {
        Some(next) => *next == byte,
        None => false,
    }
}

/// Where the byte behind this one stands, or `None` where this one is no blank.
fn next_spot(spot: Spot, byte: u8) -> Option<Spot>
    ensures { result ≡ next_spot spot byte }
{
    match spot {
        Spot::Outside => {
            if is_blank(byte) {
                Some(Spot::Outside)
            } else if byte == b'/' {
                Some(Spot::AfterSlash)
            } else {
                None
            }
        }
        Spot::AfterSlash => {
            if byte == b'/' {
                Some(Spot::InComment)
            } else {
                None
            }
        }
        Spot::InComment => {
            if byte == b'\n' {
                Some(Spot::Outside)
            } else {
                Some(Spot::InComment)
            }
        }
    }
}

/// Blanks, as many as stand there: spaces, tabs, line ends, and comments from `//` to the end of their line.
#[tactic(auto, unfolding(crate::specs::TokenReading::blanks_at))]
pub fn blanks<K>(rest: &mut &[u8]) -> Result<(), Stop<K>>
    ensures { Gives (λ unit. tt) result rest.new.now (blanks_at {K = K} rest.old.now) }
{
    let mut spot = Spot::Outside;
    while let Some((byte, after)) = rest.split_first() {
        match next_spot(spot, *byte) {
            Some(next) => spot = next,
            None => break,
        }
        *rest = after;
    }
    match spot {
        Spot::AfterSlash => Err(Stop::Syntax),
        Spot::Outside | Spot::InComment => Ok(()),
    }
}

/// These bytes.
#[tactic(auto, unfolding(crate::specs::TokenReading::literal_at))]
fn literal<K>(rest: &mut &[u8], bytes: &[u8]) -> Result<(), Stop<K>>
    ensures { Gives (λ unit. tt) result rest.new.now (literal_at {K = K} bytes.now rest.old.now) }
{
    let mut wanted = bytes;
    while let Some((first, more)) = wanted.split_first() {
        match rest.split_first() {
            Some((byte, after)) => {
                if byte != first {
                    return Err(Stop::Syntax);
                }
                *rest = after;
            }
            None => return Err(Stop::Syntax),
        }
        wanted = more;
    }
    Ok(())
}

/// A mark: these bytes, and the blanks behind them.
#[tactic(auto, unfolding(crate::specs::TokenReading::mark_at))]
pub fn mark<K>(rest: &mut &[u8], bytes: &[u8]) -> Result<(), Stop<K>>
    ensures { Gives (λ unit. tt) result rest.new.now (mark_at {K = K} bytes.now rest.old.now) }
{
    literal(rest, bytes)?;
    blanks(rest)
}

/// Whether the byte is a letter, a digit or `_`.
pub fn is_word_byte(byte: u8) -> bool
    ensures { result ≡ is_word_byte byte }
{
    (b'A' <= byte && byte <= b'Z')
        || (b'a' <= byte && byte <= b'z')
        || is_digit(byte)
        || byte == b'_'
}

/// Whether the byte is a digit.
pub fn is_digit(byte: u8) -> bool
    ensures { result ≡ is_digit byte }
{
    b'0' <= byte && byte <= b'9'
}

/// The end of a word: no letter, digit or `_` is next.
#[tactic(auto, unfolding(crate::specs::TokenReading::word_end_at))]
fn word_end<K>(rest: &[u8]) -> Result<(), Stop<K>>
    ensures { Gives (λ unit. tt) result rest.now (word_end_at {K = K} rest.now) }
{
    match rest.first() {
        Some(byte) => {
            if is_word_byte(*byte) {
                return Err(Stop::Syntax);
            }
            Ok(())
        }
        None => Ok(()),
    }
}

/// A word: these bytes, which no letter, digit or `_` follows, and the blanks behind them.
#[tactic(auto, unfolding(crate::specs::TokenReading::word_at))]
pub fn word<K>(rest: &mut &[u8], bytes: &[u8]) -> Result<(), Stop<K>>
    ensures { Gives (λ unit. tt) result rest.new.now (word_at {K = K} bytes.now rest.old.now) }
{
    literal(rest, bytes)?;
    word_end(rest)?;
    blanks(rest)
}

/// The number that is longer by a digit, or `None` where it is above `greatest`.
fn longer(n: u128, digit: u8, greatest: u128) -> Option<u128>
    requires { 48 ≤ digit }
    ensures { result ≡ (if is_within (Some (greatest + 1)) (longer n digit) then Some (longer n digit) else None) }
{
    let longer = n.checked_mul(10)?.checked_add(u128::from(digit - b'0'))?;
    if longer <= greatest {
        Some(longer)
    } else {
        None
    }
}

/// The first digit of a number, which is no 0 where a 0 may not stand.
fn first_digit<K>(rest: &mut &[u8], zero_too: bool) -> Result<u128, Stop<K>>
    ensures below { IfOk result (λ n. n < 10) }
    ensures read { Gives (λ n. n) result rest.new.now (first_digit_at {K = K} zero_too rest.old.now) }
{
    match rest.split_first() {
        Some((byte, after)) => {
            if !is_digit(*byte) || (!zero_too && *byte == b'0') {
                return Err(Stop::Syntax);
            }
            *rest = after;
            Ok(u128::from(*byte - b'0'))
        }
        None => Err(Stop::Syntax),
    }
}

/// The digits of a number.
#[tactic(auto, unfolding(crate::specs::TokenReading::digits_at))]
fn digits<K: Copy>(
    rest: &mut &[u8],
    greatest: u128,
    zero_too: bool,
    kind: K,
) -> Result<u128, Stop<K>>
    requires { 9 ≤ greatest }
    ensures within { IfOk result (λ n. n ≤ greatest) }
    ensures read { Gives (λ n. n) result rest.new.now (digits_at (Some (greatest + 1)) zero_too kind rest.old.now) }
{
    let mut n = first_digit(rest, zero_too)?;
    while let Some((byte, after)) = rest.split_first() {
        if !is_digit(*byte) {
            break;
        }
        if n == 0 {
            return Err(Stop::Syntax);
        }
        match longer(n, *byte, greatest) {
            Some(longer) => n = longer,
            None => return Err(Stop::Limit(kind)),
        }
        *rest = after;
    }
    Ok(n)
}

/// A number up to `greatest` in decimal, with no needless zero before it, and the blanks behind it.
/// Where `zero_too` isn't set, the number is no 0. `kind` goes into the stop where a digit makes it pass `greatest`,
/// which no first digit does.
#[tactic(auto, unfolding(crate::specs::TokenReading::number_at))]
pub fn number<K: Copy>(
    rest: &mut &[u8],
    greatest: u128,
    zero_too: bool,
    kind: K,
) -> Result<u128, Stop<K>>
    requires { 9 ≤ greatest }
    ensures within { IfOk result (λ n. n ≤ greatest) }
    ensures read { Gives (λ n. n) result rest.new.now (number_at (Some (greatest + 1)) zero_too kind rest.old.now) }
{
    let n = digits(rest, greatest, zero_too, kind)?;
    blanks(rest)?;
    Ok(n)
}
