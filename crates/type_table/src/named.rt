//! Declarations by id: where each id is first, and which ids are repeated.

ghost use Rattle.std.specs.Prelude.{◌≡◌, ◌↔◌, ◌<◌, ℕ, List, map, length, IfOk, IsTrue, Some, slice_get, slice_index_or, false};
ghost use Rattle.type_table.specs.Naming.{place_of};
ghost use Rattle.type_table.specs.Refusals.{IsRepeatedId};
ghost use Rattle.type_table.specs.Lookups.{found, names_in};
ghost use Rattle.type_table.specs.Kept.{AreNumbered};

use crate::positions::Positions;
use sierra_types::{Function, LibfuncDecl, Name, TypeDecl};
use std::alloc::{AllocError, Global};

/// A declaration that has an id.
pub(crate) trait HasId {
    ghost use Rattle.std.specs.Prelude.{List, ℕ};

    ghost id_of: { Self → List ℕ };

    /// Its id.
    fn id(&self) -> &Name
        ensures { result.now ≡ id_of self.now };
}

impl HasId for TypeDecl {
    ghost id_of = { λ d. d.id };

    fn id(&self) -> &Name {
        &self.id
    }
}

impl HasId for LibfuncDecl {
    ghost id_of = { λ d. d.id };

    fn id(&self) -> &Name {
        &self.id
    }
}

impl HasId for Function {
    ghost id_of = { λ f. f.id };

    fn id(&self) -> &Name {
        &self.id
    }
}

/// Where ids are first, and for each declaration whether one before it has its id.
#[derive(Debug, Drop)]
pub(crate) struct Ids {
    /// Each id with its first position.
    pub positions: Positions,
    /// For each declaration whether one before it has its id.
    pub repeated: Vec<bool>,
}

/// The ids of declarations in order, each looked up once.
pub(crate) fn all_ids<D: HasId>(alloc: Global, declarations: &[D]) -> Result<Ids, AllocError>
    ensures first { IfOk result (λ ids. (id : List ℕ) → found ids.positions id ≡ place_of (map D.id_of declarations.now) id) }
    ensures each { IfOk result (λ ids. length ids.repeated.items ≡ length declarations.now) }
    ensures repeated { IfOk result (λ ids. (i : ℕ) (id : List ℕ) → slice_get (map D.id_of declarations.now) i ≡ Some id →
        IsTrue (slice_index_or ids.repeated.items i false) ↔ IsRepeatedId (map D.id_of declarations.now) i id) }
    ensures listed { IfOk result (λ ids. ((i : ℕ) → i < length declarations.now → slice_index_or ids.repeated.items i false ≡ false) →
        (names_in ids.positions ≡ map D.id_of declarations.now) × AreNumbered ids.positions) }
{
    let mut positions = Positions::new(alloc);
    let mut repeated = Vec::with_capacity(alloc, declarations.len())?;
    for (i, declaration) in declarations.iter().enumerate() {
        let id = declaration.id().bytes();
        let known = positions.find(id).is_some();
        repeated.push(known)?;
        if !known {
            positions.add(alloc, id, i)?;
        }
    }
    Ok(Ids {
        positions,
        repeated,
    })
}

/// Where each id of a libfunc is declared first, in time and memory linear in the declarations.
pub fn libfunc_positions(alloc: Global, libfuncs: &[LibfuncDecl]) -> Result<Positions, AllocError>
    ensures { IfOk result (λ positions. (id : List ℕ) → found positions id ≡ place_of (map (λ d. d.id) libfuncs.now) id) }
{
    let ids = all_ids(alloc, libfuncs)?;
    Ok(ids.positions)
}
