//! Facts of types from those of their type arguments, by the kind of type.

ghost use Rattle.std.specs.Prelude.{◌≡◌, ◌≤◌, ◌+◌, ℕ, List, min, max};
ghost use Rattle.std.specs.List.{list_all, list_any};
ghost use Rattle.type_table.specs.Facts.{cell, deeper, dictionary, greatest_depth, greatest_size, together, total_size, variants, wrapped};

use crate::facts::{Facts, TOO_DEEP, TOO_MANY_CELLS};
use crate::kind::TypeKind;
use std::cmp;

/// A type of one cell without type arguments whose values may be stored. Whether they may be dropped, be duplicated and
/// be taken by main is one.
pub(crate) fn cell(usable: bool) -> Facts
    ensures { result ≡ cell usable }
{
    Facts {
        size: 1,
        storable: true,
        drop: usable,
        dup: usable,
        holds_dict: false,
        depth: 1,
        holds_array: false,
        plain: usable,
    }
}

/// A dictionary's type.
pub(crate) fn dictionary(drop: bool, holds_dict: bool) -> Facts
    ensures { result ≡ dictionary drop holds_dict }
{
    Facts {
        size: 2,
        storable: true,
        drop,
        dup: false,
        holds_dict,
        depth: 2,
        holds_array: false,
        plain: false,
    }
}

/// The depth of a type with this one type argument.
fn deeper(part: Facts) -> u32
    ensures { result ≡ deeper part }
{
    cmp::min(part.depth.saturating_add(1), TOO_DEEP)
}

/// A box, an array, a snapshot, or an uninitialized type.
pub(crate) fn wrapped(kind: TypeKind, part: Facts) -> Facts
    ensures { result ≡ wrapped kind part }
{
    let depth = deeper(part);
    match kind {
        TypeKind::Box => Facts {
            size: 1,
            storable: true,
            holds_dict: false,
            depth,
            plain: false,
            drop: part.drop,
            dup: part.dup,
            holds_array: part.holds_array,
        },
        TypeKind::Array => Facts {
            size: 2,
            storable: true,
            dup: false, // an array has one owner, as it grows
            holds_dict: false,
            depth,
            holds_array: true,
            drop: part.drop,
            plain: part.plain && !part.holds_array,
        },
        TypeKind::Snapshot => Facts {
            storable: true,
            drop: true,
            dup: true,
            holds_dict: false,
            depth,
            plain: false,
            size: part.size,
            holds_array: part.holds_array,
        },
        _ => Facts {
            storable: false,
            drop: true,
            dup: false,
            depth,
            plain: false,
            size: part.size,
            holds_dict: part.holds_dict,
            holds_array: part.holds_array,
        },
    }
}

/// The sum of sizes.
fn total_size(parts: &[Facts]) -> u32
    ensures { result ≡ total_size parts.now }
{
    parts.iter().fold(
        0,
        |sum: u32, part| cmp::min(sum.saturating_add(part.size), TOO_MANY_CELLS),
    )
}

/// The greatest size.
fn greatest_size(parts: &[Facts]) -> u32
    ensures { result ≡ greatest_size parts.now }
{
    parts.iter().fold(0, |most, part| cmp::max(most, part.size))
}

/// The greatest depth.
fn greatest_depth(parts: &[Facts]) -> u32
    ensures { result ≡ greatest_depth parts.now }
{
    parts
        .iter()
        .fold(0, |most, part| cmp::max(most, part.depth))
}

/// Whether the values of each may be stored.
fn all_storable(parts: &[Facts]) -> bool
    ensures { result ≡ list_all (λ part. part.storable) parts.now }
{
    parts.iter().all(|part| part.storable)
}

/// Whether the values of each may be dropped.
fn all_droppable(parts: &[Facts]) -> bool
    ensures { result ≡ list_all (λ part. part.drop) parts.now }
{
    parts.iter().all(|part| part.drop)
}

/// Whether the values of each may be duplicated.
fn all_duplicable(parts: &[Facts]) -> bool
    ensures { result ≡ list_all (λ part. part.dup) parts.now }
{
    parts.iter().all(|part| part.dup)
}

/// Whether a dictionary is in one.
fn any_holds_dict(parts: &[Facts]) -> bool
    ensures { result ≡ list_any (λ part. part.holds_dict) parts.now }
{
    parts.iter().any(|part| part.holds_dict)
}

/// Whether an array is in one.
fn any_holds_array(parts: &[Facts]) -> bool
    ensures { result ≡ list_any (λ part. part.holds_array) parts.now }
{
    parts.iter().any(|part| part.holds_array)
}

/// Whether main may take and give each.
fn all_plain(parts: &[Facts]) -> bool
    ensures { result ≡ list_all (λ part. part.plain) parts.now }
{
    parts.iter().all(|part| part.plain)
}

/// A struct of these members.
pub(crate) fn together(parts: &[Facts]) -> Facts
    ensures { result ≡ together parts.now }
{
    Facts {
        size: total_size(parts),
        storable: all_storable(parts),
        drop: all_droppable(parts),
        dup: all_duplicable(parts),
        holds_dict: any_holds_dict(parts),
        depth: cmp::min(greatest_depth(parts).saturating_add(1), TOO_DEEP),
        holds_array: any_holds_array(parts),
        plain: all_plain(parts),
    }
}

/// An enum of these variants.
pub(crate) fn variants(parts: &[Facts]) -> Facts
    ensures { result ≡ variants parts.now }
{
    let all = together(parts);
    Facts {
        size: cmp::min(greatest_size(parts).saturating_add(1), TOO_MANY_CELLS),
        ..all
    }
}
