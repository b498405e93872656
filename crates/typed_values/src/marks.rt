//! Readers of marks and numbers: each takes a form from the head of `rest`. At a syntax fault `rest` is left at its byte, and at a
//! number out of range at its first byte.

ghost use Rattle.std.specs.Prelude.{◌≡◌, ◌<◌, ◌≤◌, length, drop, IfOk};
ghost use Rattle.std.specs.List.{take_while};
ghost use Rattle.text_reading.specs.Given.{Gives};
ghost use Rattle.text_reading.specs.Tokens.{is_digit};
ghost use Rattle.typed_values.specs.Marks.{byte_at, number_at, separator_at, space_at, goes_on_at};

use crate::fault::ValueLimit;
use byte_reading::{DecimalFault, leading_decimal};
use text_reading::{Stop, is_digit, is_next};

/// This byte.
#[tactic(auto, unfolding(crate::specs::Marks::byte_at))]
pub fn byte(rest: &mut &[u8], wanted: u8) -> Result<(), Stop<ValueLimit>>
    ensures { Gives (λ unit. tt) result rest.new.now (byte_at wanted rest.old.now) }
{
    match rest.split_first() {
        Some((byte, after)) => {
            if *byte != wanted {
                return Err(Stop::Syntax);
            }
            *rest = after;
            Ok(())
        }
        None => Err(Stop::Syntax),
    }
}

/// A number below a limit.
#[tactic(auto, using(crate::proofs::Numbers::leading_number, crate::proofs::Numbers::leading_none), unfolding(crate::specs::Marks::number_at))]
pub fn number(rest: &mut &[u8], limit: u64) -> Result<u64, Stop<ValueLimit>>
    ensures within { IfOk result (λ n. n < limit) }
    ensures read { Gives (λ n. n) result rest.new.now (number_at limit rest.old.now) }
{
    match leading_decimal(*rest, u128::MAX) {
        Ok((n, after)) => {
            if n >= limit as u128 {
                return Err(Stop::Limit(ValueLimit::OutOfRange));
            }
            *rest = after;
            Ok(n as u64)
        }
        Err(DecimalFault::NotDigits) => Err(Stop::Syntax),
        Err(DecimalFault::TooLarge) => Err(Stop::Limit(ValueLimit::OutOfRange)),
    }
}

/// What stands before a member: a comma and a space, where it isn't the first.
#[tactic(auto, unfolding(crate::specs::Marks::separator_at))]
pub fn separator(rest: &mut &[u8], is_first: bool) -> Result<(), Stop<ValueLimit>>
    ensures { Gives (λ unit. tt) result rest.new.now (separator_at is_first rest.old.now) }
{
    if is_first {
        return Ok(());
    }
    byte(rest, b',')?;
    byte(rest, b' ')
}

/// The space before an element, where it isn't the first.
#[tactic(auto, unfolding(crate::specs::Marks::space_at))]
pub fn space(rest: &mut &[u8], is_first: bool) -> Result<(), Stop<ValueLimit>>
    ensures { Gives (λ unit. tt) result rest.new.now (space_at is_first rest.old.now) }
{
    if is_first {
        return Ok(());
    }
    byte(rest, b' ')
}

/// Whether an array goes on behind an element.
#[tactic(auto, unfolding(crate::specs::Marks::goes_on_at))]
pub fn goes_on(rest: &mut &[u8]) -> Result<bool, Stop<ValueLimit>>
    ensures { Gives (λ goes_on. goes_on) result rest.new.now (goes_on_at rest.old.now) }
{
    if is_next(rest, b']') {
        byte(rest, b']')?;
        Ok(false)
    } else {
        byte(rest, b',')?;
        Ok(true)
    }
}

/// What follows the digits at the head.
pub fn behind_digits(bytes: &[u8]) -> &[u8]
    ensures { result.now ≡ drop (length (take_while is_digit bytes.now)) bytes.now }
{
    &bytes[digit_count(bytes)..]
}

/// How many digits stand at the head.
fn digit_count(bytes: &[u8]) -> usize
    ensures count { result ≡ length (take_while is_digit bytes.now) }
    ensures bound { result ≤ length bytes.now }
{
    bytes.iter().take_while(|byte| is_digit(**byte)).count()
}
