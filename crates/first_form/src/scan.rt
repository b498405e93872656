//! What stands behind a prefix: a text and the prefix come in, and what stands behind it and the rest go out. The readers
//! of program and input stand on it.

ghost use Rattle.std.specs.Prelude.{ℕ, List, MatchOption};
ghost use Rattle.first_form.specs.declared.operation.Operation.{Operation};
ghost use Rattle.first_form.specs.Scan.{HasNumber, HasName};

use crate::operation::Operation;
use byte_reading::leading_decimal;

/// The number up to `greatest` behind the prefix, and what follows it, where the text begins with these two.
pub fn number_behind<'a>(text: &'a [u8], prefix: &[u8], greatest: u128) -> Option<(u128, &'a [u8])>
    ensures { MatchOption result
        ((n : ℕ) (rest : List ℕ) → HasNumber text.now prefix.now greatest n rest → ⊥)
        (λ read. HasNumber text.now prefix.now greatest read.0 read.1.now) }
{
    match text.strip_prefix(prefix) {
        Some(number) => match leading_decimal(number, greatest) {
            Ok((n, rest)) => Some((n, rest)),
            Err(_) => None,
        },
        None => None,
    }
}

/// What follows the name of the operation's libfunc behind the prefix, where the text begins with these two.
pub fn name_behind<'a>(text: &'a [u8], prefix: &[u8], operation: Operation) -> Option<&'a [u8]>
    ensures { MatchOption result
        ((rest : List ℕ) → HasName text.now prefix.now operation rest → ⊥)
        (λ rest. HasName text.now prefix.now operation rest.now) }
{
    match text.strip_prefix(prefix) {
        Some(named) => named.strip_prefix(operation.libfunc()),
        None => None,
    }
}

/// The operation whose libfunc's name stands behind the prefix, and what follows it, where the text begins with these two.
pub fn operation_behind<'a>(text: &'a [u8], prefix: &[u8]) -> Option<(Operation, &'a [u8])>
    ensures { MatchOption result
        ((operation : Operation) (rest : List ℕ) → HasName text.now prefix.now operation rest → ⊥)
        (λ read. HasName text.now prefix.now read.0 read.1.now) }
{
    if let Some(rest) = name_behind(text, prefix, Operation::Add) {
        return Some((Operation::Add, rest));
    }
    if let Some(rest) = name_behind(text, prefix, Operation::Sub) {
        return Some((Operation::Sub, rest));
    }
    match name_behind(text, prefix, Operation::Mul) {
        Some(rest) => Some((Operation::Mul, rest)),
        None => None,
    }
}
