//! What a program does with its argument and its constant. The reader of programs gives it; code, meaning and the honest
//! run go by it.

ghost use Rattle.std.specs.Prelude.{◌≡◌};
ghost use Rattle.first_form.specs.Forms.{libfunc_name};
ghost use Rattle.first_form.specs.Meaning.{applied};

use felt64::Felt;

/// An operation of the field.
#[derive(Clone, Copy, Debug, PartialEq, Eq)]
pub enum Operation {
    /// The sum of the argument and the constant.
    Add,
    /// The argument less the constant.
    Sub,
    /// The product of the argument and the constant.
    Mul,
}

impl Operation {
    /// The result for an argument and a constant.
    pub fn apply(self, argument: Felt, constant: Felt) -> Felt
        ensures { result ≡ applied self argument constant }
    {
        match self {
            Operation::Add => argument.add(constant),
            Operation::Sub => argument.sub(constant),
            Operation::Mul => argument.mul(constant),
        }
    }

    /// The name of its libfunc, as programs write it.
    pub fn libfunc(self) -> &'static [u8]
        ensures { result.now ≡ libfunc_name self }
    {
        match self {
            Operation::Add => b"felt64_add",
            Operation::Sub => b"felt64_sub",
            Operation::Mul => b"felt64_mul",
        }
    }
}
