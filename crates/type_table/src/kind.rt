//! What kinds of types there are, and the shapes by which a type is found.

use crate::type_id::TypeId;
use type_trees::Num;

/// What kind of type it is. Its type arguments are its members, in the order of the declaration.
#[derive(Clone, Copy, Debug, PartialEq, Eq, Hash, Drop)]
pub enum TypeKind {
    /// A number: `felt64`, `u8`, `u16` or `u32`.
    Number(Num),
    /// `NonZero` of a number.
    NonZero(Num),
    /// `RangeCheck`.
    RangeCheck,
    /// `GasBuiltin`.
    GasBuiltin,
    /// `Box` of its one member.
    Box,
    /// `Array` of its one member.
    Array,
    /// `Snapshot` of its one member.
    Snapshot,
    /// `Struct` of its members.
    Struct,
    /// `Enum`, whose variants are its members.
    Enum,
    /// `Felt64Dict` of a number.
    Dict(Num),
    /// `Felt64DictEntry` of a number.
    DictEntry(Num),
    /// `SquashedFelt64Dict` of a number.
    SquashedDict(Num),
    /// `Uninitialized` of its one member.
    Uninitialized,
}

/// The shape of a type that a signature makes of a number or of another type.
#[derive(Clone, Copy, Debug, PartialEq, Eq, Hash, Drop)]
pub enum Shape {
    /// The number itself.
    Number(Num),
    /// `NonZero` of the number.
    NonZero(Num),
    /// `RangeCheck`.
    RangeCheck,
    /// `GasBuiltin`.
    GasBuiltin,
    /// `Box` of the type.
    Box(TypeId),
    /// `Array` of the type.
    Array(TypeId),
    /// `Snapshot` of the type.
    Snapshot(TypeId),
    /// `Uninitialized` of the type.
    Uninitialized(TypeId),
    /// `Felt64Dict` of the number.
    Dict(Num),
    /// `Felt64DictEntry` of the number.
    DictEntry(Num),
    /// `SquashedFelt64Dict` of the number.
    SquashedDict(Num),
    /// The access of a dictionary of the number, as a tuple of key, value before and value behind:
    /// `Struct<ut@Tuple, felt64, number, number>`.
    Access(Num),
}
