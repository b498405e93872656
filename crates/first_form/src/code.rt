//! The code of a program, and the gas that a run of it needs. The test of a run looks for the code in the run's memory,
//! and the check refuses an input with less gas.

ghost use Rattle.std.specs.Prelude.{◌≡◌, ◌%◌};
ghost use Rattle.felt64.specs.Field.{modulus};
ghost use Rattle.first_form.specs.Meaning.{computing_word, computing_number, code_of, entry_gas};

use crate::operation::Operation;
use crate::program::Program;
use felt64::Felt;

/// `call rel`, with the distance in the next cell.
pub const CALL_REL: u64 = 0x1104_8001_8001_8000;

/// `jmp rel`, with the distance in the next cell.
pub const JMP_REL: u64 = 0x0107_8001_7fff_7fff;

/// `[ap + 0] = [fp + -3] + n, ap++`, with `n` in the next cell.
pub const ADD_IMMEDIATE: u64 = 0x4826_8001_7ffd_8000;

/// `[ap + 0] = [fp + -3] * n, ap++`, with `n` in the next cell.
pub const MUL_IMMEDIATE: u64 = 0x4846_8001_7ffd_8000;

/// `ret`.
pub const RET: u64 = 0x208b_7fff_7fff_7ffe;

/// The words of the program's code, from address 0 on.
pub fn code_words(program: &Program) -> [Felt; 7]
    ensures { result ≡ code_of program.now }
{
    [
        word(CALL_REL),
        Felt::from(4),
        word(JMP_REL),
        Felt::from(0),
        computing_word(program.operation),
        computing_number(program.operation, program.constant),
        word(RET),
    ]
}

/// The word of the instruction that computes the operation.
fn computing_word(operation: Operation) -> Felt
    ensures { result ≡ computing_word operation }
{
    match operation {
        Operation::Add | Operation::Sub => word(ADD_IMMEDIATE),
        Operation::Mul => word(MUL_IMMEDIATE),
    }
}

/// The number beside that word.
fn computing_number(operation: Operation, constant: Felt) -> Felt
    ensures { result ≡ computing_number operation constant }
{
    match operation {
        Operation::Add | Operation::Mul => constant,
        Operation::Sub => constant.neg(),
    }
}

/// The gas that a run of the program needs, 100 for each of its three steps.
pub fn entry_gas(_program: &Program) -> u32
    ensures { result ≡ entry_gas _program.now }
{
    300
}

/// An instruction word as a number of the field.
fn word(n: u64) -> Felt
    ensures { result ≡ n % modulus }
{
    Felt::reduce(u128::from(n))
}
