//! The arguments of a declaration, read by what a family takes.

ghost use Rattle.std.specs.Prelude.{◌≡◌, ◌<◌, ℕ, length, bytes_eq, IfSome};
ghost use Rattle.libfunc_registry.specs.Arguments.{bits, range_of};
ghost use Rattle.libfunc_registry.specs.Reading as reading;
ghost use Rattle.type_table.specs.Trees.{parts};
ghost use Rattle.type_table.specs.View.{tree_of};

use crate::finding::keeps;
use crate::width::Width;
use felt64::MODULUS;
use sierra_types::{Arg, Name};
use type_table::{TypeId, TypeKind, Types};
use type_trees::Num;

/// Whether a generic name is this one.
pub(crate) fn is(name: &[u8], known: &[u8]) -> bool
    ensures { result ≡ bytes_eq name.now known.now }
{
    name == known
}

/// The type with this id.
fn type_named(types: &Types, id: &Name) -> Option<TypeId>
    ensures found { result ≡ reading.type_named types.now id.now }
    ensures below { IfSome result (λ t. t.0 < length types.now.rows) }
{
    let found = types.number(id);
    if let Some(found) = found {
        prove!(found.0 < types.len());
    }
    found
}

/// The type of numbers with this id.
fn number_named(types: &Types, id: &Name) -> Option<Num>
    ensures { result ≡ reading.number_named types.now id.now }
{
    match types.kind(type_named(types, id)?) {
        TypeKind::Number(num) => Some(num),
        _ => None,
    }
}

/// The enum with this id.
fn enum_named(types: &Types, id: &Name) -> Option<TypeId>
    ensures found { result ≡ reading.enum_named types.now id.now }
    ensures below { IfSome result (λ t. t.0 < length types.now.rows) }
{
    let found = type_named(types, id)?;
    match types.kind(found) {
        TypeKind::Enum => Some(found),
        _ => None,
    }
}

/// The struct with this id.
fn struct_named(types: &Types, id: &Name) -> Option<TypeId>
    ensures { result ≡ reading.struct_named types.now id.now }
{
    let found = type_named(types, id)?;
    match types.kind(found) {
        TypeKind::Struct => Some(found),
        _ => None,
    }
}

/// The one argument as a type.
pub(crate) fn one_type(types: &Types, args: &[Arg]) -> Option<TypeId>
    ensures { result ≡ reading.type_in types.now args.now }
{
    match args {
        [Arg::OfType(id)] => type_named(types, id),
        _ => None,
    }
}

/// The one argument as a type of numbers.
pub(crate) fn one_number_type(types: &Types, args: &[Arg]) -> Option<Num>
    ensures { result ≡ reading.number_in types.now args.now }
{
    match args {
        [Arg::OfType(id)] => number_named(types, id),
        _ => None,
    }
}

/// The one argument as an enum.
pub(crate) fn one_enum(types: &Types, args: &[Arg]) -> Option<TypeId>
    ensures { result ≡ reading.enum_in types.now args.now }
{
    match args {
        [Arg::OfType(id)] => enum_named(types, id),
        _ => None,
    }
}

/// How many variants or members a type has.
fn part_count(types: &Types, t: TypeId) -> u32
    requires { t.0 < length types.now.rows }
    ensures { result ≡ length (parts (tree_of types.now t.0)) }
{
    keeps(types);
    types.members(t).len() as u32
}

/// An enum and the index of one of its variants, as the two arguments.
pub(crate) fn one_variant(types: &Types, args: &[Arg]) -> Option<(TypeId, u32)>
    ensures { result ≡ reading.variant_in types.now args.now }
{
    match args {
        [
            Arg::OfType(id),
            Arg::Number {
                negative: false,
                size,
            },
        ] => {
            let of = enum_named(types, id)?;
            if *size < part_count(types, of) as u128 {
                Some((of, *size as u32))
            } else {
                None
            }
        }
        _ => None,
    }
}

/// The one argument as a struct.
pub(crate) fn one_struct(types: &Types, args: &[Arg]) -> Option<TypeId>
    ensures { result ≡ reading.struct_in types.now args.now }
{
    match args {
        [Arg::OfType(id)] => struct_named(types, id),
        _ => None,
    }
}

/// The one argument as the position of a function.
pub(crate) fn one_function(types: &Types, args: &[Arg]) -> Option<usize>
    ensures { result ≡ reading.function_in types.now args.now }
{
    match args {
        [Arg::Callee(id)] => function_named(types, id),
        _ => None,
    }
}

/// The position of the function with this id.
fn function_named(types: &Types, id: &Name) -> Option<usize>
    ensures { result ≡ reading.function_named types.now id.now }
{
    types.function(id)
}

/// How many numbers a type of numbers has.
fn range(num: Num) -> u64
    ensures { result ≡ range_of num }
{
    match num {
        Num::Felt64 => MODULUS,
        Num::U8 => 1 << 8,
        Num::U16 => 1 << 16,
        Num::U32 => 1 << 32,
    }
}

/// The one argument as the word of a constant.
pub(crate) fn one_constant(num: Num, args: &[Arg]) -> Option<u64>
    ensures { result ≡ reading.constant_in num args.now }
{
    match args {
        [Arg::Number { negative, size }] => word(num, *negative, *size),
        _ => None,
    }
}

/// The word of a constant: of `-n` in the field `P - n`.
fn word(num: Num, negative: bool, size: u128) -> Option<u64>
    ensures { result ≡ reading.word_of num negative size }
{
    if size >= range(num) as u128 {
        return None;
    }
    let size = size as u64;
    if !negative {
        return Some(size);
    }
    match num {
        Num::Felt64 if size > 0 => Some(MODULUS - size),
        _ => None,
    }
}

/// The width with this id.
fn width_named(types: &Types, id: &Name) -> Option<Width>
    ensures { result ≡ reading.width_named types.now id.now }
{
    match number_named(types, id)? {
        Num::Felt64 => None,
        Num::U8 => Some(Width::W8),
        Num::U16 => Some(Width::W16),
        Num::U32 => Some(Width::W32),
    }
}

/// Two arguments as widths.
pub(crate) fn two_widths(types: &Types, args: &[Arg]) -> Option<(Width, Width)>
    ensures { result ≡ reading.widths_in types.now args.now }
{
    match args {
        [Arg::OfType(from), Arg::OfType(to)] => {
            let from = width_named(types, from)?;
            let to = width_named(types, to)?;
            Some((from, to))
        }
        _ => None,
    }
}
