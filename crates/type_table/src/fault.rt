//! Why the types and functions of a program are refused.

use sierra_types::Name;
use std::alloc::AllocError;
use thiserror::Error;

/// The first refusal among a program's types, ids of libfuncs and functions. Each but out of memory has a name in it: that
/// of the declaration, or for `UnknownType` the one that isn't known.
#[derive(Debug, Drop, Error)]
pub enum TypeFault {
    /// P10: no generic type has this name, or no declared type has this id.
    #[error("unknown type")]
    UnknownType(Name),
    /// P12: the arguments aren't those that the table of types asks.
    #[error("bad arguments of a type")]
    BadArgs(Name),
    /// P13: the written info differs from what holds of the type.
    #[error("a type's info differs")]
    TypeInfoDiffers(Name),
    /// P15: the type reaches itself through its arguments.
    #[error("a type contains itself")]
    TypeCycle(Name),
    /// P16: the type has too many cells or arguments, or is too deep.
    #[error("a type is too big")]
    SizeAbove(Name),
    /// P17: the id was declared before, or the type.
    #[error("declared twice")]
    Duplicate(Name),
    /// P18: the function's parameters or results have one builtin twice or a type that isn't storable, or its parameters
    /// have one variable twice.
    #[error("bad types of a function")]
    FunctionType(Name),
    /// Memory ran out.
    #[error("out of memory")]
    Memory,
}

impl From<AllocError> for TypeFault {
    ghost use Rattle.std.specs.Prelude.{◌≡◌};
    ghost use Rattle.type_table.specs.declared.fault.TypeFault.TheVariants.{Memory};

    ghost from_gives = { λ _ fault. fault ≡ Memory };

    fn from(_: AllocError) -> TypeFault {
        TypeFault::Memory
    }
}
