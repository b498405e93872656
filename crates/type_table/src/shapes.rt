//! The types of a table by shape.
//!
//! The rows of the types come in; the index of shapes goes out, by which the table finds a type.

ghost use Rattle.std.specs.Prelude.{◌≡◌, ◌↔◌, Some, IfOk};
ghost use Rattle.type_table.specs.Lookups.{found_shape};
ghost use Rattle.type_table.specs.View.{HasTree};
ghost use Rattle.type_table.specs.Shapes.{shaped};
ghost use Rattle.type_table.specs.Shaping.{AreDistinct, view_of, number_at, access_in, is_tuple, shape_of};

use crate::kind::{Shape, TypeKind};
use crate::row::Row;
use crate::shape_index::ShapeIndex;
use crate::type_id::TypeId;
use sierra_types::Name;
use std::alloc::{AllocError, Global};
use type_trees::Num;

/// The number that the type at a position is.
fn number_at(rows: &[Row], t: TypeId) -> Option<Num>
    ensures { result ≡ number_at rows.now t }
{
    match rows.get(t.0) {
        Some(row) => match row.kind {
            TypeKind::Number(num) => Some(num),
            _ => None,
        },
        None => None,
    }
}

/// The number of an access whose tuple has these members: a `felt64` as key, and the number twice.
fn access_in(rows: &[Row], members: &[TypeId]) -> Option<Num>
    ensures { result ≡ access_in rows.now members.now }
{
    match members {
        [key, before, after] => match (
            number_at(rows, *key),
            number_at(rows, *before),
            number_at(rows, *after),
        ) {
            (Some(Num::Felt64), Some(a), Some(b)) => if a == b { Some(a) } else { None },
            _ => None,
        },
        _ => None,
    }
}

/// Whether the name is that of a tuple.
fn is_tuple(user: &Option<Name>) -> bool
    ensures { result ≡ is_tuple user.now }
{
    let tuple: &[u8] = b"Tuple";
    match user {
        Some(name) => name.bytes() == tuple,
        None => false,
    }
}

/// The shape of the type with this row, if it has one.
fn shape_of(rows: &[Row], row: &Row) -> Option<Shape>
    ensures { result ≡ shape_of rows.now row.now }
{
    let first = row.members.items().first().copied();
    match row.kind {
        TypeKind::Number(num) => Some(Shape::Number(num)),
        TypeKind::NonZero(num) => Some(Shape::NonZero(num)),
        TypeKind::RangeCheck => Some(Shape::RangeCheck),
        TypeKind::GasBuiltin => Some(Shape::GasBuiltin),
        TypeKind::Box => first.map(Shape::Box),
        TypeKind::Array => first.map(Shape::Array),
        TypeKind::Snapshot => first.map(Shape::Snapshot),
        TypeKind::Struct => if is_tuple(&row.user) {
            access_in(rows, row.members.items()).map(Shape::Access)
        } else {
            None
        },
        TypeKind::Enum => None,
        TypeKind::Dict(num) => Some(Shape::Dict(num)),
        TypeKind::DictEntry(num) => Some(Shape::DictEntry(num)),
        TypeKind::SquashedDict(num) => Some(Shape::SquashedDict(num)),
        TypeKind::Uninitialized => first.map(Shape::Uninitialized),
    }
}

/// The types with these rows by shape, in time linear in the rows.
pub(crate) fn shapes_of(alloc: Global, rows: &[Row]) -> Result<ShapeIndex, AllocError>
    requires { AreDistinct rows.now }
    ensures { IfOk result (λ shapes. (shape : Shape) (t : TypeId) → (found_shape shapes shape ≡ Some t) ↔ HasTree (view_of rows.now) t.0 (shaped (view_of rows.now) shape)) }
{
    let mut shapes = ShapeIndex::new(alloc);
    for (i, row) in rows.iter().enumerate() {
        if let Some(shape) = shape_of(rows, row) {
            shapes.add(shape, TypeId(i))?;
        }
    }
    Ok(shapes)
}
