//! Decimal numbers up to a limit: a whole text that is one, or the one at the head of a text.
//!
//! A text and the greatest number that is wanted come in; the number goes out, or why there is none. The field's
//! `read_decimal` calls it, and so do the readers of programs and inputs.

ghost use Rattle.std.specs.Prelude.{◌≡◌, ◌<◌, ◌≤◌, ◌*◌, ◌+◌, ◌++◌, ◌↔◌, ◌⊎◌, ℕ, List, [], ◌∷◌, MatchBool, IfOk, IsErrOf, All};
ghost use Rattle.std.specs.Option.{SomeIff};
ghost use Rattle.std.specs.Char.{IsAsciiDigit};
ghost use Rattle.std.specs.Str.Parse.{AllDigits, digits_value};
ghost use Rattle.byte_reading.specs.Decimal.{decimal_text, IsDecimal, IsNotDigits, StartsWithNoDigit, StartsWithNumber};

use thiserror::Error;

/// Why there is no number.
#[derive(Clone, Copy, Debug, PartialEq, Eq, Drop, Error)]
pub enum DecimalFault {
    /// The text is no decimal number, or doesn't begin with one.
    #[error("no decimal number")]
    NotDigits,
    /// The number is above the greatest that was asked for.
    #[error("a number beyond the limit")]
    TooLarge,
}

/// The number that the whole text writes, up to `greatest`.
///
/// No sign, no space and no leading zero is taken. A text may be of any length.
pub fn read_decimal(text: &[u8], greatest: u128) -> Result<u128, DecimalFault>
    ensures number { (n : ℕ) → (result ≡ Ok n) ↔ ((n ≤ greatest) × (text.now ≡ decimal_text n)) }
    ensures not_digits { IsErrOf result DecimalFault.NotDigits ↔ IsNotDigits text.now }
    ensures too_large { IsErrOf result DecimalFault.TooLarge ↔ ((n : ℕ) × (greatest < n) × (text.now ≡ decimal_text n)) }
{
    if !is_decimal(text) {
        return Err(DecimalFault::NotDigits);
    }
    match value_up_to(text, greatest) {
        Some(value) => Ok(value),
        None => Err(DecimalFault::TooLarge),
    }
}

/// The number at the head of a text, as many digits as it has, and what follows it.
///
/// A zero is a number of its own: a digit behind it belongs to what follows.
pub fn leading_decimal(text: &[u8], greatest: u128) -> Result<(u128, &[u8]), DecimalFault>
    ensures found { IfOk result (λ read. (read.0 ≤ greatest) × StartsWithNumber text.now read.0 read.1.now) }
    ensures not_digits { IsErrOf result DecimalFault.NotDigits ↔ StartsWithNoDigit text.now }
    ensures too_large { IsErrOf result DecimalFault.TooLarge ↔ ((n : ℕ) × (rest : List ℕ) × (greatest < n) × StartsWithNumber text.now n rest) }
{
    let (digits, rest) = split_number(text);
    if digits.is_empty() {
        return Err(DecimalFault::NotDigits);
    }
    match value_up_to(digits, greatest) {
        Some(value) => Ok((value, rest)),
        None => Err(DecimalFault::TooLarge),
    }
}

/// Whether the text is a decimal number with no needless zero before it.
fn is_decimal(text: &[u8]) -> bool
    ensures { MatchBool result (IsDecimal text.now) (IsNotDigits text.now) }
{
    if text.is_empty() || (text[0] == b'0' && text.len() > 1) {
        return false;
    }
    for byte in text {
        if !byte.is_ascii_digit() {
            return false;
        }
    }
    true
}

/// The digits of the number at the head of a text, none where it has none, and what follows them.
fn split_number(text: &[u8]) -> (&[u8], &[u8])
    ensures parts { text.now ≡ result.0.now ++ result.1.now }
    ensures digits { (result.0.now ≡ []) ⊎ IsDecimal result.0.now }
    ensures longest { (result.0.now ≡ 48 ∷ []) ⊎ StartsWithNoDigit result.1.now }
{
    if !text.is_empty() && text[0] == b'0' {
        text.split_at(1)
    } else {
        split_digits(text)
    }
}

/// The digits at the head of a text, and what follows them.
fn split_digits(text: &[u8]) -> (&[u8], &[u8])
    ensures parts { text.now ≡ result.0.now ++ result.1.now }
    ensures digits { All IsAsciiDigit result.0.now }
    ensures rest { StartsWithNoDigit result.1.now }
{
    let count = text.iter().take_while(|byte| byte.is_ascii_digit()).count();
    text.split_at(count)
}

/// The value of digits, or `None` where it is above `greatest`.
fn value_up_to(digits: &[u8], greatest: u128) -> Option<u128>
    requires { AllDigits 10 digits.now }
    ensures { SomeIff result (digits_value 10 digits.now ≤ greatest) (digits_value 10 digits.now) }
{
    let mut value: u128 = 0;
    for byte in digits {
        value = followed_by(value, *byte - b'0', greatest)?;
    }
    Some(value)
}

/// The number with one more digit behind it, or `None` where it is above `greatest`.
fn followed_by(value: u128, digit: u8, greatest: u128) -> Option<u128>
    ensures { SomeIff result (value * 10 + digit ≤ greatest) (value * 10 + digit) }
{
    let longer = value.checked_mul(10)?.checked_add(u128::from(digit))?;
    if longer <= greatest {
        Some(longer)
    } else {
        None
    }
}
