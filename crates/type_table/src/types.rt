//! The table of a program's types and functions.

ghost use Rattle.std.specs.Prelude.{◌≡◌, ◌<◌, ◌≤◌, ◌↔◌, ℕ, List, length, Some, slice_get, option_copied};
ghost use Rattle.std.specs.List.{All};
ghost use Rattle.type_trees.specs.Ty as ty;
ghost use Rattle.type_table.specs.Generics.{generic_name};
ghost use Rattle.type_table.specs.Trees.{kind_of, generic_of, user_of, parts, info_of};
ghost use Rattle.type_table.specs.IsType.{most_arguments};
ghost use Rattle.type_table.specs.View.{FunctionView, tree_of, trees_of, HasTree, IsTable};
ghost use Rattle.type_table.specs.Shapes.{shaped};
ghost use Rattle.type_table.specs.Kept.{IsKept, table_view};

use crate::kind::{Shape, TypeKind};
use crate::positions::Positions;
use crate::row::{Row, Signature};
use crate::shape_index::ShapeIndex;
use crate::type_id::{TypeId, TypeInfo};
use sierra_types::Name;
use std::marker::Model;

/// The types and functions of a program. `table` makes it, and each call takes constant time and no memory.
///
/// Contracts see ids and rows in declared order, and each type as the tree that `tree_of` reads off the rows. What they
/// keep of one another `IsTable` says, which `len` tells.
#[derive(Debug, Drop)]
pub struct Types {
    ids: Positions,
    rows: Vec<Row>,
    shapes: ShapeIndex,
    function_ids: Positions,
    functions: Vec<Signature>,
}

impl Model for Types {
    ghost use Rattle.type_table.specs.View.{TypesView};

    ghost Value = { TypesView };

    ghost use Rattle.type_table.specs.Kept.{table_view, IsKept};

    ghost view = { λ t. table_view t.ids t.rows.items t.function_ids t.functions.items };

    ghost invariant = { λ t. IsKept t.ids t.rows.items t.shapes t.function_ids t.functions.items };
}

impl Types {
    /// The table with these fields. It takes no memory.
    pub(crate) fn new(
        ids: Positions,
        rows: Vec<Row>,
        shapes: ShapeIndex,
        function_ids: Positions,
        functions: Vec<Signature>,
    ) -> Types
        requires { IsKept ids rows.items shapes function_ids functions.items }
        ensures { result ≡ table_view ids rows.items function_ids functions.items }
    {
        Types {
            ids,
            rows,
            shapes,
            function_ids,
            functions,
        }
    }

    /// The number of types.
    pub fn len(&self) -> usize
        ensures len { result ≡ length self.now.rows }
        ensures kept { IsTable self.now }
    {
        self.rows.len()
    }

    /// The type with this id, if one is declared.
    pub fn number(&self, id: &Name) -> Option<TypeId>
        ensures { (t : TypeId) → (result ≡ Some t) ↔ (slice_get self.now.ids t.0 ≡ Some id.now) }
    {
        let position = self.ids.find(id.bytes())?;
        Some(TypeId(position))
    }

    /// The type of this shape, if one is declared.
    pub fn find(&self, shape: Shape) -> Option<TypeId>
        ensures { (t : TypeId) → (result ≡ Some t) ↔ HasTree self.now t.0 (shaped self.now shape) }
    {
        self.shapes.find(shape)
    }

    /// What kind of type it is.
    pub fn kind(&self, t: TypeId) -> TypeKind
        requires { t.0 < length self.now.rows }
        ensures { result ≡ kind_of (tree_of self.now t.0) }
    {
        self.rows[t.0].kind
    }

    /// Size and abilities.
    pub fn info(&self, t: TypeId) -> TypeInfo
        requires { t.0 < length self.now.rows }
        ensures { result ≡ info_of (tree_of self.now t.0) }
    {
        self.rows[t.0].info
    }

    /// The generic name.
    pub fn generic(&self, t: TypeId) -> &Name
        requires { t.0 < length self.now.rows }
        ensures { result.now ≡ generic_name (generic_of (kind_of (tree_of self.now t.0))) }
    {
        &self.rows[t.0].generic
    }

    /// The name behind `ut@`, which a struct or an enum has.
    pub fn user(&self, t: TypeId) -> Option<&Name>
        requires { t.0 < length self.now.rows }
        ensures { option_copied result ≡ user_of (tree_of self.now t.0) }
    {
        self.rows[t.0].user.as_ref()
    }

    /// The type arguments, in order: the members of a struct, the variants of an enum, the T of a box, an array and the
    /// like, the number in a `NonZero` or a dictionary.
    pub fn members(&self, t: TypeId) -> &[TypeId]
        requires { t.0 < length self.now.rows }
        ensures trees { trees_of self.now result.now ≡ parts (tree_of self.now t.0) }
        ensures below { All (λ m. m.0 < length self.now.rows) result.now }
        ensures few { length result.now ≤ most_arguments }
    {
        self.rows[t.0].members.items()
    }

    /// Whether main may take and give values of the type: whether it is made of numbers, structs, enums and arrays alone,
    /// with no array in an array.
    pub fn is_plain(&self, t: TypeId) -> bool
        requires { t.0 < length self.now.rows }
        ensures { result ≡ ty.is_plain (tree_of self.now t.0) }
    {
        self.rows[t.0].plain
    }

    /// The number of functions.
    pub fn function_count(&self) -> usize
        ensures { result ≡ length self.now.functions }
    {
        self.functions.len()
    }

    /// The position of the function with this id, if one is declared.
    pub fn function(&self, id: &Name) -> Option<usize>
        ensures { (f : ℕ) → (result ≡ Some f) ↔ (slice_get self.now.function_ids f ≡ Some id.now) }
    {
        self.function_ids.find(id.bytes())
    }

    /// The types of a function's parameters, in order.
    pub fn params(&self, f: usize) -> &[TypeId]
        requires { f < length self.now.functions }
        ensures { (g : FunctionView) → slice_get self.now.functions f ≡ Some g → result.now ≡ g.params }
    {
        self.functions[f].params.items()
    }

    /// The types of a function's results, in order.
    pub fn results(&self, f: usize) -> &[TypeId]
        requires { f < length self.now.functions }
        ensures { (g : FunctionView) → slice_get self.now.functions f ≡ Some g → result.now ≡ g.results }
    {
        self.functions[f].results.items()
    }
}
