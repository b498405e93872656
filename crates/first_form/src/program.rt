//! The form of program that is built: one that does an operation with its argument and a constant. A text comes in, and
//! the program that it is goes out, where it is one. The check reads it.

ghost use Rattle.std.specs.Prelude.{◌≡◌, ◌↔◌, Some};
ghost use Rattle.first_form.specs.Forms.{IsProgram};

use crate::operation::Operation;
use crate::scan::{name_behind, number_behind, operation_behind};
use felt64::{Felt, MODULUS};

/// A program that does an operation with its one argument and a constant.
#[derive(Clone, Copy, Debug, PartialEq, Eq)]
pub struct Program {
    /// What is done.
    pub operation: Operation,
    /// The constant that it is done with.
    pub constant: Felt,
}

const GREATEST: u128 = MODULUS as u128 - 1;

const HEAD: &[u8] = b"type felt64 = felt64;\n\nlibfunc felt64_const<";

const DECLARED: &[u8] = b"> = felt64_const<";

const LIBFUNC: &[u8] = b">;\nlibfunc ";

const EQUALS: &[u8] = b" = ";

const BODY: &[u8] = b";\nlibfunc store_temp<felt64> = store_temp<felt64>;\n\nfelt64_const<";

const CALL: &[u8] = b">() -> ([1]);\n";

const END: &[u8] =
    b"([0], [1]) -> ([2]);\nstore_temp<felt64>([2]) -> ([3]);\nreturn([3]);\n\nmain@0([0]: felt64) -> (felt64);\n";

/// The program of a text, where it is of the form.
pub fn read_program(text: &[u8]) -> Option<Program>
    ensures { (program : Program) → (result ≡ Some program) ↔ IsProgram text.now program }
{
    let (constant, declared) = number_behind(text, HEAD, GREATEST)?;
    let (second, libfunc) = number_behind(declared, DECLARED, GREATEST)?;
    let (operation, equals) = operation_behind(libfunc, LIBFUNC)?;
    let body = name_behind(equals, EQUALS, operation)?;
    let (third, call) = number_behind(body, BODY, GREATEST)?;
    let end = name_behind(call, CALL, operation)?;
    if second != constant || third != constant {
        return None;
    }
    if end == END {
        Some(Program {
            operation,
            constant: Felt::reduce(constant),
        })
    } else {
        None
    }
}
