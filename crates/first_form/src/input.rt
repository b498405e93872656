//! The input of the form of program that is built: a gas number and one argument. A text comes in, and the input that it
//! is goes out, where it is one. The check reads it.

ghost use Rattle.std.specs.Prelude.{◌≡◌, ◌↔◌, Some};
ghost use Rattle.first_form.specs.declared.program.Program.{Program};
ghost use Rattle.first_form.specs.Forms.{IsInput};

use crate::scan::number_behind;
use felt64::{Felt, MODULUS};

/// What a run starts with.
#[derive(Clone, Copy, Debug, PartialEq, Eq)]
pub struct Input {
    /// The gas that the run may use.
    pub gas: u32,
    /// The argument of `main`.
    pub argument: Felt,
}

const GAS: &[u8] = b"gas ";

const LINE_END: &[u8] = b"\n";

/// The input of a text, where it is of the form.
pub fn read_input(text: &[u8]) -> Option<Input>
    ensures { (program : Program) (input : Input) → (result ≡ Some input) ↔ IsInput program text.now input }
{
    let (gas, line) = number_behind(text, GAS, u32::MAX as u128)?;
    let (argument, end) = number_behind(line, LINE_END, MODULUS as u128 - 1)?;
    if end == LINE_END {
        Some(Input {
            gas: gas as u32,
            argument: Felt::reduce(argument),
        })
    } else {
        None
    }
}
