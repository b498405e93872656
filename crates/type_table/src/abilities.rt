//! What the table asks of a declaration whose type arguments are known.

ghost use Rattle.std.specs.Prelude.{◌≡◌};
ghost use Rattle.type_table.specs.Judging.{facts_given, info_fits, is_allowed, same};

use crate::facts::Facts;
use crate::kind::TypeKind;
use crate::sizing::{cell, dictionary, together, variants, wrapped};
use sierra_types::Info;

/// The facts of a type of this kind with these type arguments.
pub(crate) fn facts_given(kind: TypeKind, parts: &[Facts]) -> Facts
    ensures { result ≡ facts_given kind parts.now }
{
    match (kind, parts) {
        (TypeKind::Number(_), _) => cell(true),
        (TypeKind::NonZero(_), _) => Facts {
            depth: 2,
            plain: false,
            ..cell(true)
        },
        (TypeKind::RangeCheck | TypeKind::GasBuiltin, _) => cell(false),
        (TypeKind::Struct, _) => together(parts),
        (TypeKind::Enum, _) => variants(parts),
        (TypeKind::Dict(_) | TypeKind::DictEntry(_), _) => dictionary(false, true),
        (TypeKind::SquashedDict(_), _) => dictionary(true, false),
        (
            TypeKind::Box | TypeKind::Array | TypeKind::Snapshot | TypeKind::Uninitialized,
            [part, ..],
        ) => wrapped(kind, *part),
        (TypeKind::Box | TypeKind::Array | TypeKind::Snapshot | TypeKind::Uninitialized, []) =>
            cell(false),
    }
}

/// Whether sizes, abilities and dictionaries of the type arguments are those that the kind of type asks.
pub(crate) fn is_allowed(kind: TypeKind, parts: &[Facts]) -> bool
    ensures { result ≡ is_allowed kind parts.now }
{
    match (kind, parts) {
        (TypeKind::Box | TypeKind::Array, [part, ..]) => part.storable
            && (part.size > 0 && !part.holds_dict),
        (TypeKind::Snapshot, [part, ..]) => !part.dup && (part.storable && !part.holds_dict),
        (TypeKind::Uninitialized, [part, ..]) => part.storable,
        _ => true,
    }
}

/// Whether two answers are one.
fn same(a: bool, b: bool) -> bool
    ensures { result ≡ same a b }
{
    a == b
}

/// Whether the written info, if there is one, is what holds of the type.
pub(crate) fn info_fits(info: Option<Info>, facts: Facts) -> bool
    ensures { result ≡ info_fits info facts }
{
    match info {
        Some(info) => same(info.storable, facts.storable)
            && (same(info.drop, facts.drop)
                && (same(info.dup, facts.dup) && same(info.zero_sized, facts.size == 0))),
        None => true,
    }
}
