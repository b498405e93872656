//! Types by shape.

ghost use Rattle.std.specs.Prelude.{◌≡◌, ◌++◌, ◌∷◌, [], OnOk, OnErr, None};
ghost use Rattle.type_table.specs.Lookups.{found_shape};

use crate::kind::Shape;
use crate::type_id::TypeId;
use indexmap::IndexMap;
use std::alloc::{AllocError, Global};
use std::marker::Model;

/// Shapes, each with the type that has it. A look-up takes constant time and no memory.
#[derive(Debug, Drop)]
pub(crate) struct ShapeIndex {
    map: IndexMap<Shape, TypeId>,
}

impl Model for ShapeIndex {
    ghost use Rattle.std.specs.Prelude.{List};
    ghost use Rattle.type_table.specs.declared.kind.Shape.{Shape};
    ghost use Rattle.type_table.specs.declared.type_id.TypeId.{TypeId};

    ghost Value = { List (Shape × TypeId) };

    ghost view = { λ index. index.map.entries };
}

impl ShapeIndex {
    /// No shapes. It takes no memory; `add` takes its from `alloc`.
    pub fn new(alloc: Global) -> ShapeIndex
        ensures { result ≡ [] }
    {
        ShapeIndex {
            map: IndexMap::new(alloc),
        }
    }

    /// The type of a shape.
    pub fn find(&self, shape: Shape) -> Option<TypeId>
        ensures { result ≡ found_shape self.now shape }
    {
        self.map.get(&shape).copied()
    }

    /// Adds a shape that isn't there yet.
    pub fn add(&mut self, shape: Shape, t: TypeId) -> Result<(), AllocError>
        requires { found_shape self.old shape ≡ None }
        ensures ok { OnOk result (self.new ≡ self.old ++ (shape, t) ∷ []) }
        ensures err { OnErr result (self.new ≡ self.old) }
    {
        match self.map.insert(shape, t) {
            Ok(_) => Ok(()),
            Err(_) => Err(AllocError),
        }
    }
}
