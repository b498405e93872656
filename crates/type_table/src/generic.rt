//! Generic types, by their names.

ghost use Rattle.std.specs.Prelude.{◌≡◌};
ghost use Rattle.type_table.specs.Named.{generic_named, number_named, user_named, wrapper_named, numeric_named};

use type_trees::Num;

/// A generic type, the word behind `=` in a declaration.
#[derive(Clone, Copy, Debug, PartialEq, Eq, Hash, Drop)]
pub(crate) enum Generic {
    /// `felt64`, `u8`, `u16` or `u32`.
    Number(Num),
    /// `RangeCheck`.
    RangeCheck,
    /// `GasBuiltin`.
    GasBuiltin,
    /// `NonZero`.
    NonZero,
    /// `Box`.
    Box,
    /// `Array`.
    Array,
    /// `Snapshot`.
    Snapshot,
    /// `Struct`.
    Struct,
    /// `Enum`.
    Enum,
    /// `Felt64Dict`.
    Dict,
    /// `Felt64DictEntry`.
    DictEntry,
    /// `SquashedFelt64Dict`.
    SquashedDict,
    /// `Uninitialized`.
    Uninitialized,
}

/// The generic type with this name.
pub(crate) fn generic_named(name: &[u8]) -> Option<Generic>
    ensures { result ≡ generic_named name.now }
{
    if let Some(num) = number_named(name) {
        return Some(Generic::Number(num));
    }
    if let Some(generic) = user_named(name) {
        return Some(generic);
    }
    if let Some(generic) = wrapper_named(name) {
        return Some(generic);
    }
    numeric_named(name)
}

/// The numbers.
fn number_named(name: &[u8]) -> Option<Num>
    ensures { result ≡ number_named name.now }
{
    let felt64: &[u8] = b"felt64";
    let byte: &[u8] = b"u8";
    let half: &[u8] = b"u16";
    let word: &[u8] = b"u32";
    if name == felt64 {
        Some(Num::Felt64)
    } else if name == byte {
        Some(Num::U8)
    } else if name == half {
        Some(Num::U16)
    } else if name == word {
        Some(Num::U32)
    } else {
        None
    }
}

/// The types of users, and the builtins.
fn user_named(name: &[u8]) -> Option<Generic>
    ensures { result ≡ user_named name.now }
{
    let struct_word: &[u8] = b"Struct";
    let enum_word: &[u8] = b"Enum";
    let range_check: &[u8] = b"RangeCheck";
    let gas_builtin: &[u8] = b"GasBuiltin";
    if name == struct_word {
        Some(Generic::Struct)
    } else if name == enum_word {
        Some(Generic::Enum)
    } else if name == range_check {
        Some(Generic::RangeCheck)
    } else if name == gas_builtin {
        Some(Generic::GasBuiltin)
    } else {
        None
    }
}

/// What is made of any type.
fn wrapper_named(name: &[u8]) -> Option<Generic>
    ensures { result ≡ wrapper_named name.now }
{
    let box_word: &[u8] = b"Box";
    let array: &[u8] = b"Array";
    let snapshot: &[u8] = b"Snapshot";
    let uninitialized: &[u8] = b"Uninitialized";
    if name == box_word {
        Some(Generic::Box)
    } else if name == array {
        Some(Generic::Array)
    } else if name == snapshot {
        Some(Generic::Snapshot)
    } else if name == uninitialized {
        Some(Generic::Uninitialized)
    } else {
        None
    }
}

/// What is made of a number.
fn numeric_named(name: &[u8]) -> Option<Generic>
    ensures { result ≡ numeric_named name.now }
{
    let nonzero: &[u8] = b"NonZero";
    let dict: &[u8] = b"Felt64Dict";
    let entry: &[u8] = b"Felt64DictEntry";
    let squashed: &[u8] = b"SquashedFelt64Dict";
    if name == nonzero {
        Some(Generic::NonZero)
    } else if name == dict {
        Some(Generic::Dict)
    } else if name == entry {
        Some(Generic::DictEntry)
    } else if name == squashed {
        Some(Generic::SquashedDict)
    } else {
        None
    }
}
