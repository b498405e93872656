//! Inputs: what a run begins with, and its text.

ghost use Rattle.std.specs.Prelude.{◌≡◌, ◌<◌, ◌-◌, length, slice_get};
ghost use Rattle.std.specs.List.{All};
ghost use Rattle.byte_reading.specs.Reading as results;
ghost use Rattle.text_reading.specs.Given.{Gives};
ghost use Rattle.type_table.specs.View.{trees_of};
ghost use Rattle.typed_values.specs.Reading.{head_at, gas_at, first_line_at, open_line, line_count, values_of, input_at};
ghost use Rattle.typed_values.specs.Shown.{input_meant};

use crate::fault::{InputFault, ValueLimit};
use crate::marks::{behind_digits, byte};
use crate::reading::lines;
use byte_reading::{DecimalFault, leading_decimal};
use std::alloc::Global;
use text_reading::Stop;
use type_table::{TypeId, Types};
use value_trees::Value;

/// What a run begins with.
#[derive(Debug, Drop)]
pub struct Input {
    /// The gas that the run may use.
    pub gas: u64,
    /// The values of main's parameters that are no builtins, in order.
    pub args: Vec<Value>,
}

/// The input of a text. Main's parameters that are no builtins are of these types.
pub fn read_input(
    alloc: Global,
    text: &[u8],
    types: &Types,
    args: &[TypeId],
) -> Result<Input, InputFault>
    requires { All (λ m. m.0 < length types.now.rows) args.now }
    ensures { results.Gives InputFault.Memory input_meant result (input_at (trees_of types.now args.now) text.now) }
{
    let mut rest = text;
    match first_line(&mut rest) {
        Ok(Some(gas)) => values_behind(alloc, text, rest, gas, types, args),
        Ok(None) => Err(InputFault::GasRange),
        Err(stop) => Err(InputFault::at(stop, text, rest)),
    }
}

/// The input of this gas, with the values in the lines that are left.
fn values_behind(
    alloc: Global,
    text: &[u8],
    behind: &[u8],
    gas: u64,
    types: &Types,
    args: &[TypeId],
) -> Result<Input, InputFault>
    requires { All (λ m. m.0 < length types.now.rows) args.now }
    ensures { results.Gives InputFault.Memory input_meant result (values_of (trees_of types.now args.now) text.now gas behind.now) }
{
    let found = line_count(behind);
    if found != args.len() {
        return Err(InputFault::LineCount {
            expected: args.len() as u64,
            found: found as u64,
        });
    }
    let mut rest = behind;
    match lines(alloc, types, args, &mut rest) {
        Ok(args) => Ok(Input { gas, args }),
        Err(stop) => Err(InputFault::at(stop, text, rest)),
    }
}

/// The first line: its number, or none where that is 2^32 or more.
#[tactic(auto, unfolding(crate::specs::Reading::first_line_at))]
fn first_line(rest: &mut &[u8]) -> Result<Option<u64>, Stop<ValueLimit>>
    ensures { Gives (λ gas. gas) result rest.new.now (first_line_at rest.old.now) }
{
    head(rest)?;
    let gas = gas(rest)?;
    byte(rest, b'\n')?;
    Ok(gas)
}

/// `gas` and a space.
#[tactic(auto, unfolding(crate::specs::Reading::head_at))]
fn head(rest: &mut &[u8]) -> Result<(), Stop<ValueLimit>>
    ensures { Gives (λ unit. tt) result rest.new.now (head_at rest.old.now) }
{
    byte(rest, b'g')?;
    byte(rest, b'a')?;
    byte(rest, b's')?;
    byte(rest, b' ')
}

/// A number, or none where it is 2^32 or more.
#[tactic(auto, using(crate::proofs::Numbers::leading_number, crate::proofs::Numbers::leading_none, crate::proofs::Numbers::leading_large), unfolding(crate::specs::Reading::gas_at))]
fn gas(rest: &mut &[u8]) -> Result<Option<u64>, Stop<ValueLimit>>
    ensures { Gives (λ gas. gas) result rest.new.now (gas_at rest.old.now) }
{
    match leading_decimal(*rest, u32::MAX as u128) {
        Ok((n, after)) => {
            *rest = after;
            Ok(Some(n as u64))
        }
        Err(DecimalFault::NotDigits) => Err(Stop::Syntax),
        Err(DecimalFault::TooLarge) => {
            *rest = behind_digits(*rest);
            Ok(None)
        }
    }
}

/// How many lines there are; the last one may lack its newline.
fn line_count(bytes: &[u8]) -> usize
    ensures { result ≡ line_count bytes.now }
{
    let newlines = bytes.iter().filter(|byte| **byte == b'\n').count();
    newlines + open_line(bytes)
}

/// 1 where the bytes end with a line that lacks its newline, else 0.
fn open_line(bytes: &[u8]) -> usize
    ensures { result ≡ open_line (slice_get bytes.now (length bytes.now - 1)) }
{
    match bytes.last() {
        Some(b'\n') | None => 0,
        Some(_) => 1,
    }
}
